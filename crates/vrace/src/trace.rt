// From files and a log to the trace of the run.

ghost use Rattle.std.specs.Prelude.{◌≡◌, ℕ, List, IfErr, IfOk, OnOk};
ghost use Rattle.vsrc.specs.Source.{file_bytes};
ghost use Rattle.vrace.specs.Request.{request_of};
ghost use Rattle.byte_sinks.specs.Metered.{Grows};
ghost use Rattle.vrace.specs.FileTraces.{IsTrace, LeavesTrace};
ghost use Rattle.vrace.specs.Refusals.{IsReason};
ghost use Rattle.vrace.specs.Replays.{EndsSo};
ghost use Rattle.vrace.specs.RunDumps.{failures_after};

use crate::fault::Fault;
use crate::options::Options;
use crate::replay::{of_writing, replay_input_of, see_end};
use byte_sinks::Metered;
use sched_core::end::End;
use std::alloc::Global;
use std::io::Write;
use trace_detail::write_detailed_trace;
use trace_text::write_trace;

/// Writes the trace of the run of the files under the log to the writer, step by step: a line for each step, each slot end
/// and the run's end (docs/FORMATS.md, "Traces"). Answers how the run ends.
///
/// Refusals are those of `replay_text`, in the same order: nothing is written but on E901 and E902, as the run is seen to
/// end before its first line goes out.
pub fn trace_text<W: Write>(
    alloc: Global,
    files: &[Vec<u8>],
    options: &Options<'_>,
    log: &[u8],
    writer: &mut Metered<W>,
) -> Result<End, Fault>
    ensures traced { OnOk result ((text : List ℕ) ×
        IsTrace (file_bytes files.now) (request_of options.now) log.now text ×
        Grows W.contents writer.old writer.new text) }
    ensures ends { IfOk result
        (EndsSo (file_bytes files.now) (request_of options.now) log.now) }
    ensures reason { IfErr result (λ fault.
        IsReason (file_bytes files.now) (request_of options.now) log.now fault) }
    ensures left { IfErr result (λ fault.
        LeavesTrace W.contents (file_bytes files.now) (request_of options.now) log.now fault
        writer.old writer.new) }
    ensures failures { IfErr result (λ fault.
        writer.new.failures ≡ failures_after fault writer.old.failures) }
{
    let input = replay_input_of(alloc, files, options, log)?;
    let steps = options.limits.steps;
    let end = see_end(&input.machine, &input.members, steps)?;
    match write_trace(
        alloc,
        &input.machine,
        &input.origins,
        &input.members,
        steps,
        writer,
    ) {
        Ok(()) => Ok(end),
        Err(fault) => Err(of_writing(fault)),
    }
}

/// The same with what each step reads, whom it wakes, and where the `<=` of an update stands (docs/FORMATS.md, "Traces with details"). The
/// whole trace is held before its first line goes out. What is written no clause says.
pub fn detailed_trace_text<W: Write>(
    alloc: Global,
    files: &[Vec<u8>],
    options: &Options<'_>,
    log: &[u8],
    writer: &mut Metered<W>,
) -> Result<End, Fault> {
    let input = replay_input_of(alloc, files, options, log)?;
    let steps = options.limits.steps;
    let end = see_end(&input.machine, &input.members, steps)?;
    match write_detailed_trace(
        alloc,
        &input.machine,
        &input.origins,
        &input.members,
        steps,
        writer,
    ) {
        Ok(()) => Ok(end),
        Err(fault) => Err(of_writing(fault)),
    }
}
