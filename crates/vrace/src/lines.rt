// The printed lines of a run, to a writer, or held, whole or as many as have room.

ghost use Rattle.std.specs.Prelude.{◌≡◌, ℕ, IfOk, IfSome, OnOk, IfErr};
ghost use Rattle.basis.specs.Reasons.{IfFault};
ghost use Rattle.sched_core.specs.Replay.{IsReplayReason};
ghost use Rattle.vmodel.specs.Run.{rules_of};
ghost use Rattle.vmodel.specs.RunProgress.{Finishes};
ghost use Rattle.lines_text.specs.declared.sink.LinesSink.{LinesSink as Lines};
ghost use Rattle.lines_text.specs.Sinks.{IsSameSink};
ghost use Rattle.lines_text.specs.declared.in_force.InForce.TheVariants.{Nobody};
ghost use Rattle.vmachine.specs.Runs.{IsRunAt};
ghost use Rattle.vrace.specs.RunLines.{HasEnd, IsLinesFront, IsFrontOf, IsHeldLines, StopsLines, TakesLines};

use basis::OrMemory;
use byte_sinks::{ByteSink, HeldText, put};
use lines_text::{InForce, LinesSink};
use sched_core::end::End;
use sched_core::{Log, ReplayFault};
use std::alloc::Global;
use vmachine::{Machine, Run, RunFault};

// Hands what a run gives, which ends, to a sink, from where it stands.
fn fill_on<O: ByteSink>(
    machine: &Machine,
    run: &mut Run<'_>,
    steps: u32,
    sink: &mut LinesSink<'_, O>,
) -> Result<(), OrMemory<O::Fault>>
    requires here { IsRunAt machine.now steps run.old }
    requires ends { HasEnd machine.now run.old.log.now steps }
    ensures same { (first : Lines O) → IsFrontOf O.takes machine.now run.old first sink.old → IsSameSink sink.old sink.new }
    ensures ok { (first : Lines O) → IsFrontOf O.takes machine.now run.old first sink.old →
        OnOk result (TakesLines O.takes machine.now run.old.log.now steps first.byte_sink.now
        sink.new.byte_sink.now) }
    ensures err { (first : Lines O) → IsFrontOf O.takes machine.now run.old first sink.old →
        IfErr result (λ fault. StopsLines O.takes O.fails machine.now run.old.log.now steps
        first.byte_sink.now fault sink.new.byte_sink.now) }
{
    match machine.run_to_end(run, steps, sink) {
        Ok(_) => Ok(()),
        Err(OrMemory::Fault(RunFault::Sink(fault))) => Err(fault),
        Err(OrMemory::Fault(RunFault::Replay(_))) => unreachable!(),
        Err(OrMemory::Memory(refused)) => Err(OrMemory::Memory(refused)),
    }
}

// Runs the design under the log, which ends, into a fresh sink.
fn fill<O: ByteSink>(
    machine: &Machine,
    log: &Log,
    steps: u32,
    sink: &mut LinesSink<'_, O>,
) -> Result<(), OrMemory<O::Fault>>
    requires fresh { sink.old.in_force ≡ Nobody }
    requires design { sink.old.design.now ≡ machine.now.design }
    requires ends { HasEnd machine.now log.now steps }
    ensures same { IsSameSink sink.old sink.new }
    ensures ok { OnOk result
        (TakesLines O.takes machine.now log.now steps sink.old.byte_sink.now sink.new.byte_sink.now) }
    ensures err { IfErr result (λ fault.
        StopsLines O.takes O.fails machine.now log.now steps sink.old.byte_sink.now fault
        sink.new.byte_sink.now) }
{
    let mut run = machine.open_run(log)?;
    fill_on(machine, &mut run, steps, sink)
}

// Runs the machine under the log, which ends within so many steps, and hands its lines to the byte sink, slot by slot. E901 where
// memory was refused; else a fault is the byte sink's. Then a front of the lines may have been taken.
pub(crate) fn write_lines<O: ByteSink>(
    alloc: Global,
    machine: &Machine,
    log: &Log,
    steps: u32,
    byte_sink: &mut O,
) -> Result<(), OrMemory<O::Fault>>
    requires ends { HasEnd machine.now log.now steps }
    ensures ok { OnOk result (TakesLines O.takes machine.now log.now steps byte_sink.old byte_sink.new) }
    ensures err { IfErr result (λ fault.
        StopsLines O.takes O.fails machine.now log.now steps byte_sink.old fault byte_sink.new) }
{
    let mut sink = LinesSink::new(alloc, machine.design(), byte_sink);
    let result = fill(machine, log, steps, &mut sink);
    let byte_sink = sink.into_byte_sink();
    // No effect at run time. The proof reads what the byte sink holds from this use.
    let _ = &*byte_sink;
    result
}

/// As many of the lines of a run as had room, the monitor in force then, and where the run stands.
#[derive(Drop)]
pub(crate) struct LinesFront<'l> {
    text: HeldText,
    in_force: InForce,
    run: Run<'l>,
}

/// Lines that are held: all, with the end of their run, or those in front.
#[derive(Drop)]
pub(crate) enum HeldLines<'l> {
    Whole(HeldText, End),
    Front(LinesFront<'l>),
}

// Runs the machine under the log and holds its lines, all where they fit into so many bytes; else the run pauses at the end of the first
// slot after which they don't, and those in front are held. None says nothing of the run: memory was refused, or one slot adds more than
// `HELD_BYTES`. A fault is that there is no such run (E402, E403).
pub(crate) fn hold_lines<'l>(
    alloc: Global,
    machine: &Machine,
    log: &'l Log,
    steps: u32,
    room: usize,
) -> Result<Option<HeldLines<'l>>, ReplayFault>
    ensures held { IfOk result (λ held. IfSome held (IsHeldLines machine.now log.now steps)) }
    ensures reason { IfErr result (IsReplayReason (rules_of machine.now) log.now steps) }
{
    let mut run = match machine.open_run(log) {
        Ok(run) => run,
        Err(_) => return Ok(None),
    };
    let mut held = HeldText::new(alloc, room);
    let mut sink = LinesSink::new(alloc, machine.design(), &mut held);
    let end = match machine.run_until_full(&mut run, steps, &mut sink) {
        Ok(end) => end,
        Err(OrMemory::Fault(RunFault::Replay(fault))) => return Err(fault),
        Err(OrMemory::Fault(RunFault::Sink(_))) => return Ok(None),
        Err(OrMemory::Memory(_)) => return Ok(None),
    };
    let (byte_sink, in_force) = sink.into_parts();
    // No effect at run time. The proof reads what is held from this use.
    let _ = &*byte_sink;
    match end {
        Some(end) => Ok(Some(HeldLines::Whole(held, end))),
        None => Ok(Some(HeldLines::Front(LinesFront {
            text: held,
            in_force,
            run,
        }))),
    }
}

impl<'l> LinesFront<'l> {
    // Whether the run ends within so many steps: it is taken on from where it paused (E402, E403, E901).
    pub(crate) fn see_end(
        &self,
        machine: &Machine,
        steps: u32,
    ) -> Result<End, OrMemory<ReplayFault>>
        requires front { IsLinesFront machine.now self.now.run.log.now steps self.now }
        ensures ends { IfOk result (λ end. (n : ℕ) × Finishes machine.now self.now.run.log.now steps n end) }
        ensures reason { IfFault result (IsReplayReason (rules_of machine.now) self.now.run.log.now steps) }
    {
        machine.see_end(&self.run, steps)
    }
}

// Hands the lines of a run that ends to the byte sink: those in front, which are held, and then the others, slot by slot, as the run goes
// on from where it paused. The faults are those of `write_lines`.
pub(crate) fn write_lines_from<O: ByteSink>(
    alloc: Global,
    machine: &Machine,
    steps: u32,
    front: LinesFront<'_>,
    byte_sink: &mut O,
) -> Result<(), OrMemory<O::Fault>>
    requires front { IsLinesFront machine.now front.run.log.now steps front }
    requires ends { HasEnd machine.now front.run.log.now steps }
    ensures ok { OnOk result
        (TakesLines O.takes machine.now front.entry.run.log.now steps byte_sink.old byte_sink.new) }
    ensures err { IfErr result (λ fault.
        StopsLines O.takes O.fails machine.now front.entry.run.log.now steps byte_sink.old fault byte_sink.new) }
{
    let LinesFront {
        text,
        in_force,
        mut run,
    } = front;
    put(byte_sink, text.text())?;
    let mut sink = LinesSink::resume(alloc, machine.design(), byte_sink, in_force);
    let result = fill_on(machine, &mut run, steps, &mut sink);
    let byte_sink = sink.into_byte_sink();
    // No effect at run time. The proof reads what the byte sink holds from this use.
    let _ = &*byte_sink;
    result
}
