// The report of an exploration.

ghost use Rattle.std.specs.Prelude.{◌≡◌, ◌<◌, ◌≤◌, ◌^◌, map, IfOk};
ghost use Rattle.basis.specs.Reasons.{IfFault};
ghost use Rattle.explore.specs.Found.{ListsFound};
ghost use Rattle.report_text.specs.WellFormed.{Each, EachTwo, IsEndBefore};
ghost use Rattle.vdesign.specs.Named.{AreNamed};
ghost use Rattle.vmachine.specs.Machines.{machine_rules};
ghost use Rattle.vreport.specs.Ends.{GivesEveryEnd, HasBytes, HasSomeLongDump, IsTrueEnd, ListsEveryMarkedEnd};
ghost use Rattle.vreport.specs.Formed.{IsFormed};
ghost use Rattle.vreport.specs.Inner.{HasLog, HasSideLog, HasTimeAndLogs, HasTimeAndSideLogs, HasWidth, MayBeTold};
ghost use Rattle.vreport.specs.Reports.{HasOutcome, IsHeadOf, ShowsLineRaces, ShowsRaces, outcome_of as outcome_by_status, report_line_race, report_race, report_value};
ghost use Rattle.vreport.specs.Versions.{version_for as version_by, version_of_outcome};
ghost use Rattle.vreport.specs.Truth.{column_of};
ghost use Rattle.vreport.specs.Written.{AreHeld};

use crate::ends::{HeldEnds, ends_of};
use crate::values::text_of_value;
use basis::{NoMemory, OrMemory};
use byte_sinks::{HeldText, TooMany};
use explore::{Findings, Reason, Status};
use plain_steps::run_law;
use racebook::{Side, Witness, line_races, races};
use report_text::{Column, End, LineRace, Outcome, PrintedLines, Race, RaceValue, Report, Version};
use sched_core::setting::{Departures, Looked};
use statebook::Limits;
use std::alloc::Global;
use vdesign::design::Variable;
use vmachine::{Machine, MachineState, machine_law};

// The name and the width of each variable.
fn columns_of(alloc: Global, variables: &[Variable]) -> Result<Vec<Column>, NoMemory>
    ensures told { IfOk result (λ columns. columns.items ≡ map column_of variables.now) }
    ensures widths { IfOk result (λ columns. Each HasWidth columns.items) }
{
    let mut columns = Vec::with_capacity(alloc, variables.len())?;
    for variable in variables {
        columns.push(Column {
            name: Vec::from_slice(alloc, &variable.name)?,
            width: variable.length,
        })?;
    }
    Ok(columns)
}

// The values of a race, as texts.
fn race_values_of(alloc: Global, values: &[Witness]) -> Result<Vec<RaceValue>, NoMemory>
    ensures told { IfOk result (λ race_values. race_values.items ≡ map report_value values.now) }
    ensures logs { IfOk result (λ race_values. Each HasLog race_values.items) }
{
    let mut race_values = Vec::with_capacity(alloc, values.len())?;
    for witness in values {
        race_values.push(RaceValue {
            value: text_of_value(alloc, witness.value)?,
            log: witness.log.copy()?,
        })?;
    }
    Ok(race_values)
}

// The time of a race, a number of 64 bits.
fn time_of(race: &racebook::Race) -> u64
    ensures same { result ≡ race.now.time }
    ensures bits { result < 2 ^ 64 }
{
    race.time
}

// The races, as a report tells them.
fn report_races(alloc: Global, races: &[racebook::Race]) -> Result<Vec<Race>, NoMemory>
    ensures told { IfOk result (λ listed. listed.items ≡ map report_race races.now) }
    ensures kept { IfOk result (λ listed. Each HasTimeAndLogs listed.items) }
{
    let mut listed = Vec::with_capacity(alloc, races.len())?;
    for race in races {
        listed.push(Race {
            time: time_of(race),
            variable: race.variable,
            values: race_values_of(alloc, &race.values)?,
        })?;
    }
    Ok(listed)
}

// The version where departures take and values are looked at: the third where time was short.
fn version_of(outcome: Outcome) -> Version
    ensures { result ≡ version_of_outcome outcome }
{
    match outcome {
        Outcome::Exhausted => Version::Two,
        Outcome::CutMemory => Version::Two,
        Outcome::CutEntries => Version::Two,
        Outcome::CutSteps => Version::Two,
        Outcome::CutTime => Version::Three,
    }
}

// The version of a report: the third where departures hold back, lines are looked at, or time was short.
fn version_for(departures: Departures, looked: Looked, outcome: Outcome) -> Version
    ensures { result ≡ version_by departures looked outcome }
{
    match (departures, looked) {
        (Departures::Taking, Looked::Values) => version_of(outcome),
        (Departures::Taking, Looked::Lines) => Version::Three,
        (Departures::Holding, _) => Version::Three,
    }
}

// The sides of a race of lines.
fn sides_of(alloc: Global, sides: &[Side]) -> Result<Vec<PrintedLines>, NoMemory>
    ensures same { IfOk result (λ told. told.items ≡ sides.now) }
    ensures logs { IfOk result (λ told. Each HasSideLog told.items) }
{
    let mut told = Vec::with_capacity(alloc, sides.len())?;
    for side in sides {
        told.push(PrintedLines {
            lines: side.lines.copy(alloc)?,
            log: side.log.copy()?,
        })?;
    }
    Ok(told)
}

// The time of a race of lines, a number of 64 bits.
fn time_of_lines(race: &racebook::LineRace) -> u64
    ensures same { result ≡ race.now.time }
    ensures bits { result < 2 ^ 64 }
{
    race.time
}

// The races of lines, as a report tells them.
fn report_line_races(alloc: Global, races: &[racebook::LineRace]) -> Result<Vec<LineRace>, NoMemory>
    ensures told { IfOk result (λ listed. listed.items ≡ map report_line_race races.now) }
    ensures kept { IfOk result (λ listed. Each HasTimeAndSideLogs listed.items) }
{
    let mut listed = Vec::with_capacity(alloc, races.len())?;
    for race in races {
        listed.push(LineRace {
            time: time_of_lines(race),
            sides: sides_of(alloc, &race.sides)?,
        })?;
    }
    Ok(listed)
}

// How the exploration went.
fn outcome_of(status: Status) -> Outcome
    ensures { result ≡ outcome_by_status status }
{
    match status {
        Status::Exhausted => Outcome::Exhausted,
        Status::Cut(Reason::Memory(_)) => Outcome::CutMemory,
        Status::Cut(Reason::Entries) => Outcome::CutEntries,
        Status::Cut(Reason::Steps) => Outcome::CutSteps,
    }
}

/// The report of a machine under limits, with this outcome, these ends and these races.
pub fn report_with(
    alloc: Global,
    machine: &Machine,
    limits: &Limits,
    outcome: Outcome,
    ends: Vec<End>,
    races: &[racebook::Race],
    line_races: &[racebook::LineRace],
) -> Result<Report, NoMemory>
    requires { MayBeTold machine.now limits.now ends.items races.now line_races.now }
    ensures head { IfOk result (IsHeadOf machine.now limits.now) }
    ensures outcome { IfOk result (λ report. report.outcome ≡ outcome) }
    ensures ends { IfOk result (λ report. report.ends ≡ ends.items) }
    ensures races { IfOk result (λ report. report.races ≡ map report_race races.now) }
    ensures line_races { IfOk result (λ report.
        report.line_races ≡ map report_line_race line_races.now) }
    ensures formed { AreNamed machine.now.design → machine.now.until ≤ 4611686018427387903 →
        IfOk result (IsFormed machine.now) }
{
    run_law();
    let design = machine.design();
    Ok(Report {
        version: version_for(machine.departures(), machine.looked(), outcome),
        top: Vec::from_slice(alloc, &design.top)?,
        until: machine.until(),
        depart: limits.depart,
        steps: limits.steps,
        grain: machine.grain(),
        departures: machine.departures(),
        looked: machine.looked(),
        outcome,
        variables: columns_of(alloc, &design.variables)?,
        ends,
        races: report_races(alloc, races)?,
        line_races: report_line_races(alloc, line_races)?,
    })
}

/// A report; and of each of its ends the dump, where it is held.
#[derive(Drop)]
pub struct HeldReport {
    pub report: Report,
    pub held: Vec<Option<HeldText>>,
}

/// The report as `report_of` gives it, with the dumps that were held of it.
pub fn hold_report(
    alloc: Global,
    machine: &Machine,
    findings: &Findings<MachineState>,
    limits: &Limits,
) -> Result<HeldReport, OrMemory<TooMany>>
    requires found { ListsFound (machine_rules machine.now) limits.now findings.now }
    ensures head { IfOk result (λ with_dumps. IsHeadOf machine.now limits.now with_dumps.report) }
    ensures outcome { IfOk result (λ with_dumps. HasOutcome findings.now.status with_dumps.report) }
    ensures true_ends { IfOk result (λ with_dumps.
        Each (IsTrueEnd machine.now limits.now) with_dumps.report.ends) }
    ensures bytes { IfOk result (λ with_dumps.
        Each (HasBytes machine.now limits.now.steps) with_dumps.report.ends) }
    ensures every_end { IfOk result (λ with_dumps.
        GivesEveryEnd machine.now limits.now findings.now with_dumps.report.ends) }
    ensures marked_ends { IfOk result (λ with_dumps.
        ListsEveryMarkedEnd machine.now findings.now with_dumps.report.ends) }
    ensures ends_order { IfOk result (λ with_dumps. EachTwo IsEndBefore with_dumps.report.ends) }
    ensures races { IfOk result (λ with_dumps.
        ShowsRaces machine.now limits.now findings.now with_dumps.report.races) }
    ensures line_races { IfOk result (λ with_dumps.
        ShowsLineRaces machine.now limits.now findings.now with_dumps.report.line_races) }
    ensures formed { AreNamed machine.now.design → machine.now.until ≤ 4611686018427387903 →
        IfOk result (λ with_dumps. IsFormed machine.now with_dumps.report) }
    ensures held { IfOk result (λ with_dumps.
        AreHeld machine.now limits.now.steps with_dumps.report.ends with_dumps.held.items) }
    ensures long { IfFault result (λ _. HasSomeLongDump machine.now limits.now) }
{
    machine_law();
    let HeldEnds { ends, held } = ends_of(alloc, machine, findings, limits)?;
    let found = races(alloc, machine, findings)?;
    let printed = line_races(alloc, machine, findings)?;
    let outcome = outcome_of(findings.status);
    let report = report_with(alloc, machine, limits, outcome, ends, &found, &printed)?;
    Ok(HeldReport { report, held })
}

/// The report of what an explorer found of a machine under limits, without the dumps of its ends: its head, each end once,
/// each race, and of each the logs of the fewest departures among the marks that show it (docs/FORMATS.md, "Reports").
///
/// Where the names of the design are such as a report tells, and its time limit too, its text can be read again.
///
/// E901 where memory was refused. The other fault is that a dump has 2^64 bytes or more.
pub fn report_of(
    alloc: Global,
    machine: &Machine,
    findings: &Findings<MachineState>,
    limits: &Limits,
) -> Result<Report, OrMemory<TooMany>>
    requires found { ListsFound (machine_rules machine.now) limits.now findings.now }
    ensures head { IfOk result (IsHeadOf machine.now limits.now) }
    ensures outcome { IfOk result (HasOutcome findings.now.status) }
    ensures true_ends { IfOk result (λ report.
        Each (IsTrueEnd machine.now limits.now) report.ends) }
    ensures bytes { IfOk result (λ report.
        Each (HasBytes machine.now limits.now.steps) report.ends) }
    ensures every_end { IfOk result (λ report.
        GivesEveryEnd machine.now limits.now findings.now report.ends) }
    ensures marked_ends { IfOk result (λ report.
        ListsEveryMarkedEnd machine.now findings.now report.ends) }
    ensures ends_order { IfOk result (λ report. EachTwo IsEndBefore report.ends) }
    ensures races { IfOk result (λ report.
        ShowsRaces machine.now limits.now findings.now report.races) }
    ensures line_races { IfOk result (λ report.
        ShowsLineRaces machine.now limits.now findings.now report.line_races) }
    ensures formed { AreNamed machine.now.design → machine.now.until ≤ 4611686018427387903 →
        IfOk result (IsFormed machine.now) }
    ensures long { IfFault result (λ _. HasSomeLongDump machine.now limits.now) }
{
    Ok(hold_report(alloc, machine, findings, limits)?.report)
}
