// The dump of a run in three ways that `vrace` doesn't take. In go a text, and as words the way, the grain, the time limit, the greatest number
// of steps, the log and, where it is named, the top. With `steps` each state is the copy of the one before it with one step of the
// definition (`slow_step`); with `history` the machine makes the whole history, and the dump of that list is written; with `run` the
// machine hands its run on without a pause. Out comes the dump.

mod run;

use crate::given::{
    NO_MEMORY, Stop, design_given, grain_at, log_at, number_at, small_number_at, word_at,
};
use basis::OrMemory;
use byte_sinks::Metered;
use history_dump::write_vcd;
use plain_steps::opening;
use run::take_run;
use sched_core::Log;
use sched_core::setting::Grain;
use std::alloc::Global;
use std::io::{self, Write};
use vcd_text::DumpSink;
use vdesign::design::Design;
use vmachine::{Machine, RunFault};

// What the run is like.
#[derive(Clone, Copy)]
struct Asked {
    grain: Grain,
    until: u64,
    steps: u32,
}

// Takes the run by plain steps, and writes its dump.
fn put_run(
    alloc: Global,
    design: &Design,
    asked: &Asked,
    log: &Log,
    writer: &mut Metered<Vec<u8>>,
) -> Result<(), Stop> {
    let first = opening(alloc, design, asked.until, asked.grain)?;
    let mut sink = DumpSink::new(alloc, design, writer);
    let last = take_run(alloc, design, first, log, asked.steps, &mut sink)?;
    match sink.finish(&last.end()) {
        Ok(()) => Ok(()),
        Err(_) => Err(Stop::Word(NO_MEMORY)),
    }
}

// The dump of the run under the log, by plain steps.
fn dump_by_steps(
    alloc: Global,
    design: &Design,
    asked: &Asked,
    log: &Log,
) -> Result<Vec<u8>, Stop> {
    let mut writer = Metered::new(Vec::new(alloc));
    put_run(alloc, design, asked, log, &mut writer)?;
    Ok(writer.into_inner())
}

// The dump of its whole history.
fn dump_of_history(
    alloc: Global,
    design: Design,
    asked: &Asked,
    log: &Log,
) -> Result<Vec<u8>, Stop> {
    let machine = Machine::new(alloc, design, asked.until, asked.grain)?;
    let history = machine.history(log, asked.steps)?;
    let mut writer = Metered::new(Vec::new(alloc));
    match write_vcd(alloc, machine.design(), &history, &mut writer) {
        Ok(()) => Ok(writer.into_inner()),
        Err(_) => Err(Stop::Word(NO_MEMORY)),
    }
}

// Hands the run under the log to the sink without a pause.
fn hand_run(
    machine: &Machine,
    asked: &Asked,
    log: &Log,
    sink: &mut DumpSink<'_, Metered<Vec<u8>>>,
) -> Result<(), Stop> {
    let end = match machine.run_into(log, asked.steps, sink) {
        Ok(end) => end,
        Err(OrMemory::Fault(RunFault::Replay(fault))) => return Err(OrMemory::Fault(fault).into()),
        Err(_) => return Err(Stop::Word(NO_MEMORY)),
    };
    match sink.finish(&end) {
        Ok(()) => Ok(()),
        Err(_) => Err(Stop::Word(NO_MEMORY)),
    }
}

// Writes its dump so.
fn put_whole_run(
    alloc: Global,
    machine: &Machine,
    asked: &Asked,
    log: &Log,
    writer: &mut Metered<Vec<u8>>,
) -> Result<(), Stop> {
    let mut sink = DumpSink::new(alloc, machine.design(), writer);
    hand_run(machine, asked, log, &mut sink)
}

// The dump of the run that is handed on so.
fn dump_of_run(alloc: Global, design: Design, asked: &Asked, log: &Log) -> Result<Vec<u8>, Stop> {
    let machine = Machine::new(alloc, design, asked.until, asked.grain)?;
    let mut writer = Metered::new(Vec::new(alloc));
    put_whole_run(alloc, &machine, asked, log, &mut writer)?;
    Ok(writer.into_inner())
}

/// Writes what these words ask for.
pub fn tell(rt: &HostRuntime, words: &[String]) -> Result<(), Stop> {
    let design = design_given(rt, words.get(5))?;
    let log = log_at(rt.alloc(), words, 4)?;
    let asked = Asked {
        grain: grain_at(words, 1),
        until: number_at(words, 2, 100),
        steps: small_number_at(words, 3, 1_000),
    };
    let dump = match word_at(words, 0) {
        "history" => dump_of_history(rt.alloc(), design, &asked, &log)?,
        "run" => dump_of_run(rt.alloc(), design, &asked, &log)?,
        _ => dump_by_steps(rt.alloc(), &design, &asked, &log)?,
    };
    Ok(io::writer(rt).write_all(&dump)?)
}
