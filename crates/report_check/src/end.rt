// Whether an end of a report is true.

ghost use Rattle.std.specs.Prelude.{◌≡◌, IfOk, Decides};
ghost use Rattle.vreport.specs.Dumps.{HasDump, IsRunDump};
ghost use Rattle.vreport.specs.Truth.{IsTrueEndOf};
ghost use Rattle.report_check.specs.Inner.{EndsSo, TellsStanding};

use crate::printed::is_printed;
use basis::{NoMemory, OrMemory};
use byte_sinks::{Expected, expected_is_whole};
use report_text::{End, Report};
use sched_core::{Log, replay};
use std::alloc::Global;
use vmachine::{Machine, MachineState, machine_law};
use vreport::{line_of_values, write_dump};

// Whether the dump of the run, which ends, is this one.
fn is_dump(
    alloc: Global,
    machine: &Machine,
    log: &Log,
    steps: u32,
    dump: &[u8],
) -> Result<bool, NoMemory>
    requires ends { HasDump machine.now log.now steps }
    ensures { IfOk result (λ is.
        Decides is (IsRunDump machine.now log.now steps dump.now)) }
{
    expected_is_whole();
    let mut expected = Expected::new(dump);
    match write_dump(alloc, machine, log, steps, &mut expected) {
        Ok(()) => Ok(expected.is_whole()),
        Err(OrMemory::Memory(refused)) => Err(refused),
        Err(OrMemory::Fault(_)) => unreachable!(),
    }
}

// Whether the time, the cause, the line of values and the printed lines of the end are those of a run that has ended here.
fn is_told(
    alloc: Global,
    machine: &Machine,
    machine_state: &MachineState,
    end: &End,
) -> Result<bool, NoMemory>
    ensures { IfOk result (TellsStanding machine.now machine_state.now end.now) }
{
    let Some(told) = machine.end_of(machine_state) else {
        return Ok(false);
    };
    if told.time != end.time {
        return Ok(false);
    }
    if told.cause != end.cause {
        return Ok(false);
    }
    let line = line_of_values(alloc, machine.values(machine_state))?;
    if line != end.line {
        return Ok(false);
    }
    Ok(is_printed(machine, machine_state, end.printed.as_ref()))
}

// Whether the run under the log of the end ends within so many steps, as is told.
fn ends_so(alloc: Global, machine: &Machine, steps: u32, end: &End) -> Result<bool, NoMemory>
    ensures { IfOk result (λ so. Decides so (EndsSo machine.now steps end.now)) }
{
    machine_law();
    match replay(machine, &end.log, steps) {
        Ok(reached) => is_told(alloc, machine, &reached.state, end),
        Err(OrMemory::Fault(_)) => Ok(false),
        Err(OrMemory::Memory(refused)) => Err(refused),
    }
}

/// Whether an end of the report is true: the run under its log has no more departures and takes no more steps than the
/// head of the report allows, ends as it is told, and has this dump. E901 is the only refusal.
pub fn is_true_end(
    alloc: Global,
    machine: &Machine,
    report: &Report,
    end: &End,
    dump: &[u8],
) -> Result<bool, NoMemory>
    ensures { IfOk result (λ is. Decides is (IsTrueEndOf machine.now report.now end.now dump.now)) }
{
    if end.log.members().len() > report.depart as usize {
        return Ok(false);
    }
    if !ends_so(alloc, machine, report.steps, end)? {
        return Ok(false);
    }
    is_dump(alloc, machine, &end.log, report.steps, dump)
}
