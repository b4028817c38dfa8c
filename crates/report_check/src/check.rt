// The first item of a report that isn't true.

ghost use Rattle.std.specs.Prelude.{◌≡◌, length, OnOk, IfOk};
ghost use Rattle.basis.specs.Reasons.{IfFault};
ghost use Rattle.vreport.specs.Truth.{IsTrueReport};
ghost use Rattle.report_check.specs.FirstBad.{IsFirstBad, texts_of};
ghost use Rattle.report_check.specs.Inner.{TellsEnds, TellsRaces};

use crate::claim::race_count;
use crate::end::is_true_end;
use crate::head::is_true_head;
use crate::race::is_true_race;
use crate::shown::shown_places;
use basis::{NoMemory, OrMemory};
use report_text::Report;
use std::alloc::Global;
use vmachine::Machine;

/// The first item of a report that isn't true, in the order of the report's own items, counted from 0.
#[derive(Clone, Copy, PartialEq, Eq)]
pub enum FirstBad {
    /// The top, the time limit, the grain, the departures, what is looked at or the variables aren't those of the machine (E504).
    Head,
    /// The end at this place isn't that of the run under its log, or its dump isn't (E502).
    End(usize),
    /// A value or a side of the race at this place isn't shown by the run under its log (E503). Races of lines are counted on behind
    /// those of variables.
    Race(usize),
}

// The place of the first end that isn't true with its dump, if there is one.
fn first_false_end(
    alloc: Global,
    machine: &Machine,
    report: &Report,
    dumps: &[&[u8]],
) -> Result<Option<usize>, NoMemory>
    requires { length dumps.now ≡ length report.now.ends }
    ensures { IfOk result (TellsEnds machine.now report.now (texts_of dumps.now)) }
{
    for place in 0..report.ends.len() {
        if !is_true_end(alloc, machine, report, &report.ends[place], dumps[place])? {
            return Ok(Some(place));
        }
    }
    Ok(None)
}

// The place of the first race that isn't true, if there is one.
fn first_false_race(
    alloc: Global,
    machine: &Machine,
    report: &Report,
) -> Result<Option<usize>, NoMemory>
    ensures { IfOk result (TellsRaces machine.now report.now) }
{
    let shown = shown_places(alloc, machine, report)?;
    for place in 0..race_count(report) {
        if !is_true_race(alloc, machine, report, place, &shown)? {
            return Ok(Some(place));
        }
    }
    Ok(None)
}

/// Whether all that the report lists is true of the machine, the dumps being those of its ends, in their order: its head,
/// each end with its dump and its lines, each value of each race, and each side of each race of lines. Whether the report lists all
/// that there is, is not tested.
///
/// The fault is the first item that isn't true (E504, E502, E503); else it is want of memory, E901. An end's log is
/// run twice, a log of races once for all the values and sides that name it, within the steps that the report's head allows; one
/// that its log doesn't show once all that it names is taken has one more run. No dump is made in memory.
pub fn check_report(
    alloc: Global,
    machine: &Machine,
    report: &Report,
    dumps: &[&[u8]],
) -> Result<(), OrMemory<FirstBad>>
    requires { length dumps.now ≡ length report.now.ends }
    ensures ok { OnOk result (IsTrueReport machine.now report.now (texts_of dumps.now)) }
    ensures bad { IfFault result (IsFirstBad machine.now report.now (texts_of dumps.now)) }
{
    if !is_true_head(machine, report) {
        return Err(OrMemory::Fault(FirstBad::Head));
    }
    if let Some(place) = first_false_end(alloc, machine, report, dumps)? {
        return Err(OrMemory::Fault(FirstBad::End(place)));
    }
    if let Some(place) = first_false_race(alloc, machine, report)? {
        return Err(OrMemory::Fault(FirstBad::Race(place)));
    }
    Ok(())
}
