// From files and a log to the dump or the lines of the run.

ghost use Rattle.std.specs.Prelude.{◌≡◌, ◌⊎◌, ℕ, List, OnOk, IfOk, IfErr, IfSome};
ghost use Rattle.sched_core.specs.LogText.{IsNamedLogText};
ghost use Rattle.sched_core.specs.Replay.{IsReplayReason};
ghost use Rattle.vsrc.specs.Source.{file_bytes};
ghost use Rattle.vmodel.specs.Run.{rules_of};
ghost use Rattle.byte_sinks.specs.Metered.{Grows};
ghost use Rattle.vrace.specs.ActionPlaces.{ArePlacedInFiles};
ghost use Rattle.vrace.specs.Request.{request_of};
ghost use Rattle.vrace.specs.Replays.{IsShown, EndsSo, IsReplayInput, grain_under as grain_by, departures_under as departures_by};
ghost use Rattle.vrace.specs.Refusals.{IsLogFault, IsReason, Leaves};
ghost use Rattle.vreport.specs.Dumps.{EndsAs, HasDump, IsDumpFront, IsRunDump};
ghost use Rattle.vrace.specs.RunLines.{HasEnd, IsLinesFront, IsRunLines};
ghost use Rattle.vrace.specs.RunDumps.{IsRunFault, IsRunShown, IsUnwritten, StopsText, Ends, fault_of, replay_fault_of, seeing_fault_of, failures_after};

use crate::design::placed_design_of;
use crate::fault::Fault;
use crate::lines::{HeldLines, LinesFront, hold_lines, write_lines, write_lines_from};
use crate::machine::machine_in;
use crate::options::Options;
use basis::OrMemory;
use byte_sinks::{HELD_BYTES, HeldText, Metered, WriteFault, put};
use sched_core::end::End;
use sched_core::setting::{Departures, Grain, Looked};
use sched_core::{Log, LogFault, LogHead, ReplayFault, read_named_log};
use std::alloc::Global;
use std::io::Write;
use trace_text::Origins;
use vmachine::Machine;
use vreport::{DumpFront, HeldDump, hold_dump, write_dump, write_from};

/// What a replay shows of a run.
#[derive(Clone, Copy, PartialEq, Eq)]
pub enum Show {
    /// Its value change dump (clause 18; docs/FORMATS.md, "Dumps").
    Dump,
    /// Its printed lines (17.1; docs/FORMATS.md, "Lines").
    Lines,
}

// The grain that the log names, or else the one asked for.
fn grain_under(head: LogHead, grain: Grain) -> Grain
    ensures { result ≡ grain_by head grain }
{
    match head {
        LogHead::Plain => grain,
        LogHead::Named(named, _) => named,
    }
}

// The departures that the log names, or else those asked for.
fn departures_under(head: LogHead, departures: Departures) -> Departures
    ensures { result ≡ departures_by head departures }
{
    match head {
        LogHead::Plain => departures,
        LogHead::Named(_, named) => named,
    }
}

fn of_replay(fault: ReplayFault) -> Fault
    ensures { result ≡ replay_fault_of fault }
{
    match fault {
        ReplayFault::NoSuchChoice => Fault::NoSuchChoice,
        ReplayFault::TooManySteps => Fault::TooManySteps,
    }
}

pub(crate) fn of_writing(fault: OrMemory<WriteFault>) -> Fault
    ensures { result ≡ fault_of fault }
{
    match fault {
        OrMemory::Fault(WriteFault::Write) => Fault::Write,
        OrMemory::Memory(refused) => Fault::Memory(refused),
    }
}

// Why a run that has paused isn't replayed to its end.
fn of_seeing(fault: OrMemory<ReplayFault>) -> Fault
    ensures { result ≡ seeing_fault_of fault }
{
    match fault {
        OrMemory::Fault(fault) => of_replay(fault),
        OrMemory::Memory(refused) => Fault::Memory(refused),
    }
}

// Runs the design under the log where nobody watches: how the run ends.
pub(crate) fn see_end(machine: &Machine, log: &Log, steps: u32) -> Result<End, Fault>
    ensures ends { IfOk result (EndsAs machine.now log.now steps) }
    ensures reason { IfErr result (λ fault. IsRunFault machine.now log.now steps fault) }
{
    let run = machine.open_run(log)?;
    match machine.see_end(&run, steps) {
        Ok(end) => Ok(end),
        Err(fault) => Err(of_seeing(fault)),
    }
}

// Writes the dump of the run, which ends.
fn write_run<W: Write>(
    alloc: Global,
    machine: &Machine,
    log: &Log,
    steps: u32,
    writer: &mut Metered<W>,
) -> Result<(), Fault>
    requires ends { HasDump machine.now log.now steps }
    ensures ok { OnOk result ((dump : List ℕ) × IsRunDump machine.now log.now steps dump ×
        Grows W.contents writer.old writer.new dump) }
    ensures err { IfErr result (λ fault.
        StopsText W.contents (IsRunDump machine.now log.now steps) writer.old writer.new
        fault) }
{
    match write_dump(alloc, machine, log, steps, writer) {
        Ok(()) => Ok(()),
        Err(fault) => Err(of_writing(fault)),
    }
}

// Writes the dump of the run, once it is known to end.
fn dump_run<W: Write>(
    alloc: Global,
    machine: &Machine,
    log: &Log,
    steps: u32,
    writer: &mut Metered<W>,
) -> Result<End, Fault>
    ensures ok { OnOk result ((dump : List ℕ) ×
        IsRunDump machine.now log.now steps dump ×
        Grows W.contents writer.old writer.new dump) }
    ensures ends { IfOk result (EndsAs machine.now log.now steps) }
    ensures err { IfErr result (λ fault.
        Ends W.contents (IsRunDump machine.now log.now steps)
        machine.now log.now steps writer.old writer.new fault) }
{
    let end = see_end(machine, log, steps)?;
    match write_run(alloc, machine, log, steps, writer) {
        Ok(()) => Ok(end),
        Err(fault) => Err(fault),
    }
}

// Writes the lines of the run, which ends.
fn write_run_lines<W: Write>(
    alloc: Global,
    machine: &Machine,
    log: &Log,
    steps: u32,
    writer: &mut Metered<W>,
) -> Result<(), Fault>
    requires ends { HasEnd machine.now log.now steps }
    ensures ok { OnOk result ((text : List ℕ) × IsRunLines machine.now log.now steps text ×
        Grows W.contents writer.old writer.new text) }
    ensures err { IfErr result (λ fault.
        StopsText W.contents (IsRunLines machine.now log.now steps) writer.old writer.new fault) }
{
    match write_lines(alloc, machine, log, steps, writer) {
        Ok(()) => Ok(()),
        Err(fault) => Err(of_writing(fault)),
    }
}

// Writes the lines of the run, once it is known to end.
fn print_run<W: Write>(
    alloc: Global,
    machine: &Machine,
    log: &Log,
    steps: u32,
    writer: &mut Metered<W>,
) -> Result<End, Fault>
    ensures ok { OnOk result ((text : List ℕ) × IsRunLines machine.now log.now steps text ×
        Grows W.contents writer.old writer.new text) }
    ensures ends { IfOk result (EndsAs machine.now log.now steps) }
    ensures err { IfErr result (λ fault.
        Ends W.contents (IsRunLines machine.now log.now steps) machine.now log.now steps writer.old
        writer.new fault) }
{
    let end = see_end(machine, log, steps)?;
    match write_run_lines(alloc, machine, log, steps, writer) {
        Ok(()) => Ok(end),
        Err(fault) => Err(fault),
    }
}

// Writes the dump, of which the front is held, of a run that ends.
fn write_run_from<W: Write>(
    alloc: Global,
    machine: &Machine,
    steps: u32,
    front: DumpFront<'_>,
    writer: &mut Metered<W>,
) -> Result<(), Fault>
    requires front { IsDumpFront machine.now front.run.log.now steps front }
    requires ends { HasDump machine.now front.run.log.now steps }
    ensures ok { OnOk result ((dump : List ℕ) × IsRunDump machine.now front.entry.run.log.now steps dump ×
        Grows W.contents writer.old writer.new dump) }
    ensures err { IfErr result (λ fault.
        StopsText W.contents (IsRunDump machine.now front.entry.run.log.now steps) writer.old writer.new
        fault) }
{
    match write_from(alloc, machine, steps, front, writer) {
        Ok(()) => Ok(()),
        Err(fault) => Err(of_writing(fault)),
    }
}

// Writes the dump of a run of which the front is held, once the run is seen to end.
fn dump_on<W: Write>(
    alloc: Global,
    machine: &Machine,
    steps: u32,
    front: DumpFront<'_>,
    writer: &mut Metered<W>,
) -> Result<End, Fault>
    requires front { IsDumpFront machine.now front.run.log.now steps front }
    ensures ok { OnOk result ((text : List ℕ) × IsRunDump machine.now front.entry.run.log.now steps text ×
        Grows W.contents writer.old writer.new text) }
    ensures ends { IfOk result (EndsAs machine.now front.entry.run.log.now steps) }
    ensures err { IfErr result (λ fault.
        Ends W.contents (IsRunDump machine.now front.entry.run.log.now steps) machine.now front.entry.run.log.now steps
        writer.old writer.new fault) }
{
    let end = match front.see_end(machine, steps) {
        Ok(end) => end,
        Err(fault) => return Err(of_seeing(fault)),
    };
    match write_run_from(alloc, machine, steps, front, writer) {
        Ok(()) => Ok(end),
        Err(fault) => Err(fault),
    }
}

// Writes the lines, of which those in front are held, of a run that ends.
fn write_run_lines_from<W: Write>(
    alloc: Global,
    machine: &Machine,
    steps: u32,
    front: LinesFront<'_>,
    writer: &mut Metered<W>,
) -> Result<(), Fault>
    requires front { IsLinesFront machine.now front.run.log.now steps front }
    requires ends { HasEnd machine.now front.run.log.now steps }
    ensures ok { OnOk result ((text : List ℕ) × IsRunLines machine.now front.entry.run.log.now steps text ×
        Grows W.contents writer.old writer.new text) }
    ensures err { IfErr result (λ fault.
        StopsText W.contents (IsRunLines machine.now front.entry.run.log.now steps) writer.old writer.new
        fault) }
{
    match write_lines_from(alloc, machine, steps, front, writer) {
        Ok(()) => Ok(()),
        Err(fault) => Err(of_writing(fault)),
    }
}

// Writes the lines of a run of which those in front are held, once the run is seen to end.
fn print_on<W: Write>(
    alloc: Global,
    machine: &Machine,
    steps: u32,
    front: LinesFront<'_>,
    writer: &mut Metered<W>,
) -> Result<End, Fault>
    requires front { IsLinesFront machine.now front.run.log.now steps front }
    ensures ok { OnOk result ((text : List ℕ) × IsRunLines machine.now front.entry.run.log.now steps text ×
        Grows W.contents writer.old writer.new text) }
    ensures ends { IfOk result (EndsAs machine.now front.entry.run.log.now steps) }
    ensures err { IfErr result (λ fault.
        Ends W.contents (IsRunLines machine.now front.entry.run.log.now steps) machine.now front.entry.run.log.now steps
        writer.old writer.new fault) }
{
    let end = match front.see_end(machine, steps) {
        Ok(end) => end,
        Err(fault) => return Err(of_seeing(fault)),
    };
    match write_run_lines_from(alloc, machine, steps, front, writer) {
        Ok(()) => Ok(end),
        Err(fault) => Err(fault),
    }
}

// Writes a text that is held, of a run with this end.
fn write_whole<W: Write>(text: &HeldText, end: End, writer: &mut Metered<W>) -> Result<End, Fault>
    ensures ok { OnOk result (Grows W.contents writer.old writer.new text.now) }
    ensures end { IfOk result (λ told. told ≡ end) }
    ensures err { IfErr result
        (StopsText W.contents (λ held. held ≡ text.now) writer.old writer.new) }
{
    match put(writer, text.text()) {
        Ok(()) => Ok(end),
        Err(fault) => Err(of_writing(fault)),
    }
}

// Writes the dump of the run: what could be held of it at once, the rest slot by slot.
fn show_dump<W: Write>(
    alloc: Global,
    machine: &Machine,
    log: &Log,
    steps: u32,
    writer: &mut Metered<W>,
) -> Result<End, Fault>
    ensures ok { OnOk result ((text : List ℕ) × IsRunDump machine.now log.now steps text ×
        Grows W.contents writer.old writer.new text) }
    ensures ends { IfOk result (EndsAs machine.now log.now steps) }
    ensures err { IfErr result (λ fault.
        Ends W.contents (IsRunDump machine.now log.now steps) machine.now log.now steps
        writer.old writer.new fault) }
{
    match hold_dump(alloc, machine, log, steps, HELD_BYTES) {
        Ok(Some(HeldDump::Whole(text, end))) => write_whole(&text, end, writer),
        Ok(Some(HeldDump::Front(front))) => dump_on(alloc, machine, steps, front, writer),
        Ok(None) => dump_run(alloc, machine, log, steps, writer),
        Err(fault) => Err(of_replay(fault)),
    }
}

// Writes the lines of the run: what could be held of them at once, the others slot by slot.
fn show_lines<W: Write>(
    alloc: Global,
    machine: &Machine,
    log: &Log,
    steps: u32,
    writer: &mut Metered<W>,
) -> Result<End, Fault>
    ensures ok { OnOk result ((text : List ℕ) × IsRunLines machine.now log.now steps text ×
        Grows W.contents writer.old writer.new text) }
    ensures ends { IfOk result (EndsAs machine.now log.now steps) }
    ensures err { IfErr result (λ fault.
        Ends W.contents (IsRunLines machine.now log.now steps) machine.now log.now steps
        writer.old writer.new fault) }
{
    match hold_lines(alloc, machine, log, steps, HELD_BYTES) {
        Ok(Some(HeldLines::Whole(text, end))) => write_whole(&text, end, writer),
        Ok(Some(HeldLines::Front(front))) => print_on(alloc, machine, steps, front, writer),
        Ok(None) => print_run(alloc, machine, log, steps, writer),
        Err(fault) => Err(of_replay(fault)),
    }
}

// Writes what is to be shown of the run.
fn show_run<W: Write>(
    alloc: Global,
    machine: &Machine,
    log: &Log,
    steps: u32,
    show: Show,
    writer: &mut Metered<W>,
) -> Result<End, Fault>
    ensures ok { OnOk result ((text : List ℕ) × IsRunShown show machine.now log.now steps text ×
        Grows W.contents writer.old writer.new text) }
    ensures ends { IfOk result (EndsAs machine.now log.now steps) }
    ensures err { IfErr result (λ fault.
        Ends W.contents (IsRunShown show machine.now log.now steps) machine.now log.now steps
        writer.old writer.new fault) }
{
    match show {
        Show::Dump => show_dump(alloc, machine, log, steps, writer),
        Show::Lines => show_lines(alloc, machine, log, steps, writer),
    }
}

/// What is replayed: a machine, where its statements stand, and a log.
#[derive(Drop)]
pub(crate) struct ReplayInput {
    pub machine: Machine,
    pub origins: Origins,
    pub members: Log,
}

// The members of the log, and the grain that it names, if it does.
fn named_log_of(alloc: Global, log: &[u8]) -> Result<(LogHead, Log), Fault>
    ensures ok { IfOk result (IsNamedLogText log.now) }
    ensures err { IfErr result (IsLogFault log.now) }
{
    match read_named_log(alloc, log) {
        Ok(named) => Ok(named),
        Err(OrMemory::Fault(LogFault::IllFormed)) => Err(Fault::BadLog),
        Err(OrMemory::Memory(refused)) => Err(Fault::Memory(refused)),
    }
}

// What the files, the options and the log's text ask for.
pub(crate) fn replay_input_of(
    alloc: Global,
    files: &[Vec<u8>],
    options: &Options<'_>,
    log: &[u8],
) -> Result<ReplayInput, Fault>
    ensures ok { IfOk result (λ input.
        IsReplayInput (file_bytes files.now) (request_of options.now) log.now input.machine input.members) }
    ensures placed { IfOk result (λ input.
        ArePlacedInFiles (file_bytes files.now) (request_of options.now).top input.origins) }
    ensures err { IfErr result (λ fault.
        IsReason (file_bytes files.now) (request_of options.now) log.now fault) }
    ensures unwritten { IfErr result IsUnwritten }
{
    let placed = placed_design_of(alloc, files, options.top)?;
    let (head, members) = named_log_of(alloc, log)?;
    let grain = grain_under(head, options.grain);
    let departures = departures_under(head, options.departures);
    let machine = machine_in(
        alloc,
        placed.design,
        options.until,
        grain,
        departures,
        Looked::Values,
    )?;
    Ok(ReplayInput {
        machine,
        origins: placed.origins,
        members,
    })
}

/// Writes what is to be shown of the run of the files under the log to the writer: its value change dump, or its printed lines. Answers how
/// the run ends: where the time limit cuts it, its events were left.
/// The log's text may name a grain and departures, as `statement/5:1` or `process-holding/5:3`; else both are those of the options.
///
/// Refusals, in the order in which they are looked for: E904 where the files together are longer than 16,777,216 bytes;
/// E1xx to E3xx where their text has no tokens, no tree or no design; E401 where the log's text is none; E403 where the
/// run takes more steps than allowed; E402 where a step that the log names isn't reached or hasn't that choice. Then
/// nothing is written, as the run is seen to end before its first byte goes out: its text is held until then. Of a text of more than
/// `HELD_BYTES` the front is held, up to the end of a slot, and from there the run is taken on twice: to see its end, and to write the
/// rest slot by slot. Where no front can be held it is taken from its opening. E902 where the writer failed, and E901 where memory
/// was refused: then a prefix of the text may stand written.
pub fn replay_text<W: Write>(
    alloc: Global,
    files: &[Vec<u8>],
    options: &Options<'_>,
    log: &[u8],
    show: Show,
    writer: &mut Metered<W>,
) -> Result<End, Fault>
    ensures shown { OnOk result ((text : List ℕ) ×
        IsShown show (file_bytes files.now) (request_of options.now) log.now text ×
        Grows W.contents writer.old writer.new text) }
    ensures ends { IfOk result
        (EndsSo (file_bytes files.now) (request_of options.now) log.now) }
    ensures reason { IfErr result (λ fault.
        IsReason (file_bytes files.now) (request_of options.now) log.now fault) }
    ensures left { IfErr result (λ fault.
        Leaves W.contents show (file_bytes files.now) (request_of options.now) log.now fault writer.old
        writer.new) }
    ensures failures { IfErr result (λ fault.
        writer.new.failures ≡ failures_after fault writer.old.failures) }
{
    let input = replay_input_of(alloc, files, options, log)?;
    let steps = options.limits.steps;
    show_run(alloc, &input.machine, &input.members, steps, show, writer)
}
