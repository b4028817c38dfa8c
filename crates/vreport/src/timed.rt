// From a machine to the report of a search that goes by time, within a budget.

ghost use Rattle.std.specs.Prelude.{◌≡◌, ◌≤◌, IfOk};
ghost use Rattle.basis.specs.Reasons.{IfFault};
ghost use Rattle.vreport.specs.Ends.{HasSomeLongDump};
ghost use Rattle.vreport.specs.InTime.{AreFoundInTime, HoldsDumpsInTime, IsReadableInTime, MeansEntriesInTime, MeansStopInTime, IsTimedExploration, ReportsOfClosed, ReportsUpTo, TellsBytesInTime, TellsOutcomeInTime, outcome_in_time, outcome_of_spent};

use crate::ends::{HeldEnds, ends_of};
use crate::report::report_with;
use basis::OrMemory;
use byte_sinks::{HeldText, TooMany};
use explore::{RankedFindings, RankedReason, RankedStatus, Watcher};
use racebook::{TimedFindings, explore_in_time};
use report_text::{Outcome, Report};
use statebook::Limits;
use std::alloc::Global;
use vmachine::{Machine, machine_law};

/// What was spent where a search was stopped.
#[derive(Clone, Copy, PartialEq, Eq)]
pub enum Spent {
    Time,
    Memory,
}

/// What a search may take.
pub trait Budget: Watcher {
    ghost use Rattle.vreport.specs.declared.timed.Spent.{Spent};

    ghost lacks: { Self → Spent };

    /// Before the search it is told how many bytes an entry is reckoned to take.
    fn reckon(&mut self, entry_bytes: u64);

    /// What was spent, where it stopped the search.
    fn spent(&self) -> Spent
        ensures { result ≡ lacks self.now };
}

/// The report of a search that goes by time, how that went and up to which time all was looked at, and of each end the dump,
/// where it is held.
pub struct TimedReport {
    pub report: Report,
    pub search: RankedFindings,
    pub held: Vec<Option<HeldText>>,
}

impl Drop for TimedReport {
    fn drop(self) {
        let TimedReport {
            report: _,
            search: _,
            held: _,
        } = self;
    }
}

/// How many bytes an entry of a search is reckoned to take: 24 a variable, 88 a process, and 500 beside.
pub fn entry_bytes(machine: &Machine) -> u64 {
    let design = machine.design();
    let variables = 24u64.saturating_mul(design.variables.len() as u64);
    let processes = 88u64.saturating_mul(design.processes.len() as u64);
    variables.saturating_add(processes).saturating_add(500)
}

// What a report says where the watcher stopped the search.
fn outcome_when_stopped(spent: Spent) -> Outcome
    ensures { result ≡ outcome_of_spent spent }
{
    match spent {
        Spent::Time => Outcome::CutTime,
        Spent::Memory => Outcome::CutMemory,
    }
}

// How the search went.
fn outcome_of(status: RankedStatus, spent: Spent) -> Outcome
    ensures { result ≡ outcome_in_time spent status }
{
    match status {
        RankedStatus::Exhausted => Outcome::Exhausted,
        RankedStatus::Cut(RankedReason::Memory(_)) => Outcome::CutMemory,
        RankedStatus::Cut(RankedReason::Entries) => Outcome::CutEntries,
        RankedStatus::Cut(RankedReason::Steps) => Outcome::CutSteps,
        RankedStatus::Cut(RankedReason::Stopped) => outcome_when_stopped(spent),
    }
}

// The report of what such a search found. Where its watcher stopped it, this was spent.
fn report_timed(
    alloc: Global,
    machine: &Machine,
    limits: &Limits,
    found: &TimedFindings,
    spent: Spent,
) -> Result<TimedReport, OrMemory<TooMany>>
    requires { AreFoundInTime machine.now limits.now found.now }
    ensures exploration { IfOk result (IsTimedExploration machine.now limits.now) }
    ensures up_to { IfOk result (ReportsUpTo machine.now limits.now) }
    ensures of_closed { IfOk result ReportsOfClosed }
    ensures search { IfOk result (λ told. told.search ≡ found.now.search) }
    ensures outcome { IfOk result (TellsOutcomeInTime spent) }
    ensures entries { IfOk result (MeansEntriesInTime machine.now limits.now) }
    ensures bytes { IfOk result (TellsBytesInTime machine.now) }
    ensures formed { IfOk result (IsReadableInTime machine.now) }
    ensures held { IfOk result (HoldsDumpsInTime machine.now) }
    ensures long { IfFault result (λ _. HasSomeLongDump machine.now limits.now) }
{
    machine_law();
    let HeldEnds { ends, held } = ends_of(alloc, machine, found, limits)?;
    let search = found.search;
    let outcome = outcome_of(search.status, spent);
    let report = report_with(
        alloc,
        machine,
        limits,
        outcome,
        ends,
        &found.races,
        &found.line_races,
    )?;
    Ok(TimedReport {
        report,
        search,
        held,
    })
}

/// Explores the machine by time, under the limits and within the budget, on the caller's own thread, and reports what was
/// found (docs/SCHEDULING.md; docs/RACES.md).
///
/// Whatever it says, each end and each race is listed that a run of at most `limits.depart` departures shows up to the time
/// `search.closed`, with no more departures than needed; where it says `exhausted`, those of all times. No race is listed of a
/// time that wasn't closed. It says `cut time` only where the budget said that the search is to stop, and that time was spent.
///
/// E901 where memory was refused for the report; in the search it only cuts it. The other fault is that the dump of a run
/// within the limits has 2^64 bytes or more.
pub fn report_in_time<B: Budget>(
    alloc: Global,
    machine: &Machine,
    limits: &Limits,
    budget: &mut B,
) -> Result<TimedReport, OrMemory<TooMany>>
    ensures exploration { IfOk result (IsTimedExploration machine.now limits.now) }
    ensures up_to { IfOk result (ReportsUpTo machine.now limits.now) }
    ensures of_closed { IfOk result ReportsOfClosed }
    ensures outcome { IfOk result (TellsOutcomeInTime (B.lacks budget.new)) }
    ensures stopped { IfOk result (MeansStopInTime (B.stopped budget.new)) }
    ensures entries { IfOk result (MeansEntriesInTime machine.now limits.now) }
    ensures bytes { IfOk result (TellsBytesInTime machine.now) }
    ensures formed { IfOk result (IsReadableInTime machine.now) }
    ensures held { IfOk result (HoldsDumpsInTime machine.now) }
    ensures long { IfFault result (λ _. HasSomeLongDump machine.now limits.now) }
{
    budget.reckon(entry_bytes(machine));
    let found = explore_in_time(alloc, machine, limits, budget);
    report_timed(alloc, machine, limits, &found, budget.spent())
}
