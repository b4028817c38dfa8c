// The lines of a trace, each step's with what is told of it, on their way to a writer.

use crate::detail::DetailedRun;
use basis::{NoMemory, OrMemory};
use byte_sinks::{Metered, WriteFault, put};
use memchr::memchr_iter;
use sched_core::Log;
use std::alloc::Global;
use std::io::Write;
use trace_text::{Origins, write_trace};
use vmachine::Machine;

// The whole trace.
fn trace_of(
    alloc: Global,
    machine: &Machine,
    origins: &Origins,
    log: &Log,
    steps: u32,
) -> Result<Vec<u8>, OrMemory<WriteFault>> {
    let mut held = Metered::new(Vec::new(alloc));
    write_trace(alloc, machine, origins, log, steps, &mut held)?;
    Ok(held.into_inner())
}

// The line; of a step with what is told of it.
fn detailed_line(
    alloc: Global,
    run: &mut DetailedRun<'_>,
    line: &[u8],
) -> Result<Vec<u8>, NoMemory> {
    let mut text = Vec::new(alloc);
    text.extend_from_slice(line)?;
    if line.starts_with(b"step ") {
        run.put_next(&mut text)?;
    }
    text.push(b'\n')?;
    Ok(text)
}

// What stands between these places.
fn line_between(text: &[u8], begin: usize, end: usize) -> &[u8] {
    match text.get(begin..end) {
        None => &[],
        Some(line) => line,
    }
}

/// Writes the trace of the run under the log as `write_trace` does, and behind the line of each step what it read, whom it woke, and of an
/// update the place of its `<=`. The trace is held until all of it is made. E901, and E902 only where the writer failed.
pub fn write_detailed_trace<W: Write>(
    alloc: Global,
    machine: &Machine,
    origins: &Origins,
    log: &Log,
    steps: u32,
    writer: &mut Metered<W>,
) -> Result<(), OrMemory<WriteFault>> {
    let trace = trace_of(alloc, machine, origins, log, steps)?;
    let mut run = DetailedRun::new(alloc, machine, origins, log.members())?;
    let mut begin = 0;
    for feed in memchr_iter(b'\n', &trace) {
        let line = detailed_line(alloc, &mut run, line_between(&trace, begin, feed))?;
        put(writer, &line)?;
        begin = feed.saturating_add(1);
    }
    Ok(())
}
