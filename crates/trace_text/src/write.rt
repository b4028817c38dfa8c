// The steps of a run under its log, a line each, on their way to a writer.

ghost use Rattle.std.specs.Prelude.{◌≡◌, ℕ, OnOk, IfErr};
ghost use Rattle.byte_sinks.specs.Metered.{Grows, Stops};
ghost use Rattle.vmodel.specs.Run.{opening_of, state_after};
ghost use Rattle.trace_text.specs.Traces.{IsTold, trace, steps_text};
ghost use Rattle.vmodel.specs.RunProgress.{IsOnItsWay};

use crate::line::{Origins, end_line, opening_line, step};
use basis::OrMemory;
use byte_sinks::{Metered, WriteFault, put};
use plain_steps::State;
use sched_core::{Log, next_choice};
use std::alloc::Global;
use std::io::Write;
use vmachine::Machine;

// Writes the lines of the steps, from the opening state on, up to the run's end. The state is then that of the end.
fn write_steps<W: Write>(
    alloc: Global,
    machine: &Machine,
    origins: &Origins,
    state: &mut State,
    log: &Log,
    steps: u32,
    writer: &mut Metered<W>,
) -> Result<(), OrMemory<WriteFault>>
    requires { state.old ≡ opening_of machine.now }
    ensures ok { OnOk result ((n : ℕ) × IsTold machine.now log.now steps n ×
        (state.new ≡ state_after machine.now log.now n) ×
        Grows W.contents writer.old writer.new (steps_text machine.now origins.now log.now n)) }
    ensures err { IfErr result (λ fault. (n : ℕ) × IsOnItsWay machine.now log.now steps n ×
        Stops W.contents writer.old writer.new (steps_text machine.now origins.now log.now n) fault) }
{
    let design = machine.design();
    let mut rest = log.members();
    for number in 0..steps {
        let (index, later) = next_choice(rest, number);
        let text = match step(alloc, design, origins, state, number, index) {
            Ok(Some(text)) => text,
            Ok(None) => return Ok(()),
            Err(refused) => return Err(OrMemory::Memory(refused)),
        };
        match put(writer, &text) {
            Ok(()) => {}
            Err(fault) => return Err(fault),
        }
        rest = later;
    }
    Ok(())
}

/// Writes the trace of the run under the log, step by step: to the run's end, or as far as it goes by at most so many steps
/// (docs/FORMATS.md, "Traces"). E901, and E902 only where the writer failed in this call; then a prefix of the trace stands written.
pub fn write_trace<W: Write>(
    alloc: Global,
    machine: &Machine,
    origins: &Origins,
    log: &Log,
    steps: u32,
    writer: &mut Metered<W>,
) -> Result<(), OrMemory<WriteFault>>
    ensures ok { OnOk result ((n : ℕ) × IsTold machine.now log.now steps n ×
        Grows W.contents writer.old writer.new (trace machine.now origins.now log.now n)) }
    ensures err { IfErr result (λ fault. (n : ℕ) × IsTold machine.now log.now steps n ×
        Stops W.contents writer.old writer.new (trace machine.now origins.now log.now n) fault) }
{
    let mut state = match machine.opening_state() {
        Ok(state) => state,
        Err(refused) => return Err(OrMemory::Memory(refused)),
    };
    let opening = match opening_line(alloc, &state) {
        Ok(text) => text,
        Err(refused) => return Err(OrMemory::Memory(refused)),
    };
    match put(writer, &opening) {
        Ok(()) => {}
        Err(fault) => return Err(fault),
    }
    match write_steps(alloc, machine, origins, &mut state, log, steps, writer) {
        Ok(()) => {}
        Err(fault) => return Err(fault),
    }
    match end_line(alloc, state.end()) {
        Ok(text) => put(writer, &text),
        Err(refused) => Err(OrMemory::Memory(refused)),
    }
}
