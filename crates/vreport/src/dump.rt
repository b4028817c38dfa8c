// The dump of a run, to a writer, a count or a text that is expected, or held, whole or as much of it as has room.

ghost use Rattle.std.specs.Prelude.{◌≡◌, [], ℕ, IfOk, IfSome, OnOk, IfErr};
ghost use Rattle.basis.specs.Reasons.{IfFault};
ghost use Rattle.sched_core.specs.Replay.{IsReplayReason};
ghost use Rattle.vcd_text.specs.declared.progress.Progress.TheVariants.{Waiting};
ghost use Rattle.vcd_text.specs.declared.sink.DumpSink.{DumpSink as Dump};
ghost use Rattle.vcd_text.specs.Sinks.{IsSameDump, Takes};
ghost use Rattle.vmachine.specs.Runs.{IsHandedSo, IsRunAt};
ghost use Rattle.vmodel.specs.Run.{rules_of};
ghost use Rattle.vmodel.specs.RunProgress.{Finishes};
ghost use Rattle.vreport.specs.Dumps.{HasDump, IsDumpFront, IsFrontOf, IsHeldDump, StopsDump, TakesDump};

use basis::OrMemory;
use byte_sinks::{ByteSink, HeldText, put};
use sched_core::end::End;
use sched_core::{Log, ReplayFault};
use std::alloc::Global;
use vcd_text::{DumpSink, Progress};
use vmachine::{Machine, Run, RunFault};

// Hands what a run gives, which ends, to a sink, from where it stands.
fn fill_on<O: ByteSink>(
    machine: &Machine,
    run: &mut Run<'_>,
    steps: u32,
    sink: &mut DumpSink<'_, O>,
) -> Result<(), OrMemory<O::Fault>>
    requires here { IsRunAt machine.now steps run.old }
    requires ends { HasDump machine.now run.old.log.now steps }
    ensures same { (first : Dump O) → IsFrontOf O.takes machine.now run.old first sink.old → IsSameDump sink.old sink.new }
    ensures ok { (first : Dump O) → IsFrontOf O.takes machine.now run.old first sink.old →
        OnOk result (TakesDump O.takes machine.now run.old.log.now steps first.byte_sink.now
        sink.new.byte_sink.now) }
    ensures err { (first : Dump O) → IsFrontOf O.takes machine.now run.old first sink.old →
        IfErr result (λ fault. StopsDump O.takes O.fails machine.now run.old.log.now steps
        first.byte_sink.now fault sink.new.byte_sink.now) }
{
    match machine.run_to_end(run, steps, sink) {
        Ok(end) => match sink.finish(&end) {
            Ok(()) => Ok(()),
            Err(fault) => Err(fault),
        },
        Err(OrMemory::Fault(RunFault::Sink(fault))) => Err(fault),
        Err(OrMemory::Fault(RunFault::Replay(_))) => unreachable!(),
        Err(OrMemory::Memory(refused)) => Err(OrMemory::Memory(refused)),
    }
}

// Runs the design under the log, which ends, into a fresh sink.
fn fill<O: ByteSink>(
    machine: &Machine,
    log: &Log,
    steps: u32,
    sink: &mut DumpSink<'_, O>,
) -> Result<(), OrMemory<O::Fault>>
    requires fresh { sink.old.progress ≡ Waiting [] }
    requires design { sink.old.design.now ≡ machine.now.design }
    requires ends { HasDump machine.now log.now steps }
    ensures same { IsSameDump sink.old sink.new }
    ensures ok { OnOk result
        (TakesDump O.takes machine.now log.now steps sink.old.byte_sink.now sink.new.byte_sink.now) }
    ensures err { IfErr result (λ fault.
        StopsDump O.takes O.fails machine.now log.now steps sink.old.byte_sink.now fault
        sink.new.byte_sink.now) }
{
    let mut run = machine.open_run(log)?;
    fill_on(machine, &mut run, steps, sink)
}

/// Runs the machine under the log, which ends within so many steps, and hands its dump to the byte sink,
/// slot by slot. E901 where memory was refused; else a fault is the byte sink's. Then a front of the dump may have been taken.
pub fn write_dump<O: ByteSink>(
    alloc: Global,
    machine: &Machine,
    log: &Log,
    steps: u32,
    byte_sink: &mut O,
) -> Result<(), OrMemory<O::Fault>>
    requires ends { HasDump machine.now log.now steps }
    ensures ok { OnOk result
        (TakesDump O.takes machine.now log.now steps byte_sink.old byte_sink.new) }
    ensures err { IfErr result (λ fault.
        StopsDump O.takes O.fails machine.now log.now steps byte_sink.old fault byte_sink.new) }
{
    let mut sink = DumpSink::new(alloc, machine.design(), byte_sink);
    let result = fill(machine, log, steps, &mut sink);
    let byte_sink = sink.into_byte_sink();
    // No effect at run time. The proof reads what the byte sink holds from this use.
    let _ = &*byte_sink;
    result
}

/// As much of the dump of a run as had room, how far the dump has come with that, and where the run stands.
#[derive(Drop)]
pub struct DumpFront<'l> {
    text: HeldText,
    progress: Progress,
    run: Run<'l>,
}

/// A dump that is held: whole, with the end of its run, or its front.
#[derive(Drop)]
pub enum HeldDump<'l> {
    Whole(HeldText, End),
    Front(DumpFront<'l>),
}

/// Runs the machine under the log and holds its dump, whole where it fits into so many bytes; else the run pauses at the end of the first
/// slot after which it doesn't, and the front is held. None says nothing of the run: memory was refused, or one slot adds more than
/// `HELD_BYTES`. A fault is that there is no such run (E402, E403).
pub fn hold_dump<'l>(
    alloc: Global,
    machine: &Machine,
    log: &'l Log,
    steps: u32,
    room: usize,
) -> Result<Option<HeldDump<'l>>, ReplayFault>
    ensures held { IfOk result (λ held. IfSome held (IsHeldDump machine.now log.now steps)) }
    ensures reason { IfErr result (IsReplayReason (rules_of machine.now) log.now steps) }
{
    let mut run = match machine.open_run(log) {
        Ok(run) => run,
        Err(_) => return Ok(None),
    };
    let mut held = HeldText::new(alloc, room);
    let mut sink = DumpSink::new(alloc, machine.design(), &mut held);
    let end = match machine.run_until_full(&mut run, steps, &mut sink) {
        Ok(end) => end,
        Err(OrMemory::Fault(RunFault::Replay(fault))) => return Err(fault),
        Err(OrMemory::Fault(RunFault::Sink(_))) => return Ok(None),
        Err(OrMemory::Memory(_)) => return Ok(None),
    };
    let Some(end) = end else {
        let (byte_sink, progress) = sink.into_parts();
        // No effect at run time. The proof reads what is held from this use.
        let _ = &*byte_sink;
        return Ok(Some(HeldDump::Front(DumpFront {
            text: held,
            progress,
            run,
        })));
    };
    match sink.finish(&end) {
        Ok(()) => {}
        Err(_) => return Ok(None),
    }
    let byte_sink = sink.into_byte_sink();
    // No effect at run time. The proof reads what is held from this use.
    let _ = &*byte_sink;
    Ok(Some(HeldDump::Whole(held, end)))
}

impl<'l> DumpFront<'l> {
    /// Whether the run ends within so many steps: it is taken on from where it paused (E402, E403, E901).
    pub fn see_end(&self, machine: &Machine, steps: u32) -> Result<End, OrMemory<ReplayFault>>
        requires front { IsDumpFront machine.now self.now.run.log.now steps self.now }
        ensures ends { IfOk result (λ end. (n : ℕ) × Finishes machine.now self.now.run.log.now steps n end) }
        ensures reason { IfFault result (IsReplayReason (rules_of machine.now) self.now.run.log.now steps) }
    {
        machine.see_end(&self.run, steps)
    }
}

/// Hands the dump of a run that ends to the byte sink: its front, which is held, and then the rest, slot by slot, as the run goes on from
/// where it paused. The faults are those of `write_dump`.
pub fn write_from<O: ByteSink>(
    alloc: Global,
    machine: &Machine,
    steps: u32,
    front: DumpFront<'_>,
    byte_sink: &mut O,
) -> Result<(), OrMemory<O::Fault>>
    requires front { IsDumpFront machine.now front.run.log.now steps front }
    requires ends { HasDump machine.now front.run.log.now steps }
    ensures ok { OnOk result
        (TakesDump O.takes machine.now front.entry.run.log.now steps byte_sink.old byte_sink.new) }
    ensures err { IfErr result (λ fault.
        StopsDump O.takes O.fails machine.now front.entry.run.log.now steps byte_sink.old fault byte_sink.new) }
{
    let DumpFront {
        text,
        progress,
        mut run,
    } = front;
    put(byte_sink, text.text())?;
    let mut sink = DumpSink::resume(alloc, machine.design(), byte_sink, progress);
    let result = fill_on(machine, &mut run, steps, &mut sink);
    let byte_sink = sink.into_byte_sink();
    // No effect at run time. The proof reads what the byte sink holds from this use.
    let _ = &*byte_sink;
    result
}
