// The run of a machine under a log, handed on slot by slot, or kept whole.

ghost use Rattle.std.specs.Prelude.{◌≡◌, ◌≢◌, ◌<◌, ℕ, List, [], ◌++◌, true, Decides, length, IfOk, IfErr, OnOk, IsSome, false};
ghost use Rattle.basis.specs.Reasons.{IfFault};
ghost use Rattle.basis.specs.declared.memory.OrMemory.TheVariants.{Fault};
ghost use Rattle.vmachine.specs.declared.run.RunFault.TheVariants.{Replay};
ghost use Rattle.vmachine.specs.Handed.{RunsInto, RunsBySlot, IsHistory, IsNoSuchRun, LeavesSink};
ghost use Rattle.vmachine.specs.Inner.{IsOfSink, HandsOn, IsAt, IsChosen};
ghost use Rattle.vmachine.specs.Waiting.{IsNothing, waiting_in};
ghost use Rattle.vmachine.specs.Runs.{AllWaits, IsHandedBySlot, IsHandedSo, IsRunAt, Reaches, ReachesBySlot};
ghost use Rattle.vmodel.specs.RunProgress.{Finishes};
ghost use Rattle.sched_core.specs.Logs.{IsLogFrom};
ghost use Rattle.sched_core.specs.Replay.{IsReplayReason};
ghost use Rattle.vmodel.specs.Choices.{choices};
ghost use Rattle.vmodel.specs.InnerStep.{transition_to};
ghost use Rattle.vmodel.specs.Run.{Setting, rules_of, is_mark};
ghost use Rattle.vmodel.specs.State.{State};
ghost use Rattle.vmodel.specs.Step.{items_of};
ghost use Rattle.vmodel.specs.Touched.{ChangesOnlySince, HasNoSlotEnd, end_due};

use crate::machine::Machine;
use crate::machine_state::MachineState;
use crate::rest::Rest;
use basis::{NoMemory, OrMemory};
use plain_steps::{put_items, put_slot_end};
use sched_core::end::End;
use sched_core::{Log, Member, ReplayFault, Space, next_choice};
use std::fmt::Display;
use thiserror::Error;
use vdesign::design::Design;
use vmodel::effect::Effect;
use vmodel::history::{History, Item};
use vmodel::sink::HistorySink;
use vmodel::touched::Touched;
use vmodel::values::Values;

/// Why a run wasn't handed on to its end, but for want of memory.
#[derive(Debug, Drop, Error)]
#[error_bound(F: Display)]
pub enum RunFault<F> {
    /// There is no such run (E402, E403).
    #[error(transparent)]
    Replay(ReplayFault),
    /// The sink failed.
    #[error(transparent)]
    Sink(F),
}

// There is no such run.
fn replay_refusal<F>(fault: ReplayFault) -> OrMemory<RunFault<F>>
    ensures { result ≡ Fault (Replay fault) }
{
    OrMemory::Fault(RunFault::Replay(fault))
}

/// What is pending, given by a run and not yet handed on: items, and after them the end of the slot, where it is due.
#[derive(Drop)]
pub(crate) struct Pending {
    items: Vec<Item>,
    due: bool,
}

// Hands on the pending items, if there are any.
fn hand_items<S: HistorySink>(
    sink: &mut S,
    items: &mut Vec<Item>,
) -> Result<(), OrMemory<RunFault<S::Fault>>>
    ensures ok { OnOk result (S.takes sink.old items.old.items sink.new) }
    ensures none { OnOk result (items.new.items ≡ []) }
    ensures err { IfErr result (IsOfSink (λ fault. S.fails sink.old items.old.items fault sink.new)) }
{
    if items.is_empty() {
        return Ok(());
    }
    match sink.take(items) {
        Ok(()) => {
            items.clear();
            Ok(())
        }
        Err(fault) => Err(OrMemory::Fault(RunFault::Sink(fault))),
    }
}

// Hands on the end of the slot, where it is due. From then on no variable has changed, if the sink keeps values.
fn hand_end<S: HistorySink>(
    sink: &mut S,
    due: &mut bool,
    state: &Rest<'_>,
    touched: &mut Touched,
) -> Result<(), OrMemory<RunFault<S::Fault>>>
    requires { ChangesOnlySince touched.old (S.kept sink.old) state.now.values }
    ensures ok { OnOk result (S.takes sink.old (end_due due.old state.now) sink.new) }
    ensures none { OnOk result (due.new ≡ false) }
    ensures since { OnOk result (ChangesOnlySince touched.new (S.kept sink.new) state.now.values) }
    ensures err { IfErr result (IsOfSink (λ fault.
        S.fails sink.old (end_due due.old state.now) fault sink.new)) }
{
    if !*due {
        return Ok(());
    }
    match sink.take_end(state.time(), state.values(), touched) {
        Ok(()) => {
            *due = false;
            if sink.keeps_values() {
                touched.clear();
            } else {
                touched.forget();
            }
            Ok(())
        }
        Err(fault) => Err(OrMemory::Fault(RunFault::Sink(fault))),
    }
}

// Hands on what is pending.
fn hand_all<S: HistorySink>(
    sink: &mut S,
    pending: &mut Pending,
    state: &Rest<'_>,
    touched: &mut Touched,
) -> Result<(), OrMemory<RunFault<S::Fault>>>
    requires since { ChangesOnlySince touched.old (S.kept sink.old) state.now.values }
    requires no_end { HasNoSlotEnd pending.old.items.items }
    ensures ok { OnOk result (S.takes sink.old (waiting_in pending.old state.now) sink.new) }
    ensures none { OnOk result (pending.new.items.items ≡ []) }
    ensures due { OnOk result (pending.new.due ≡ false) }
    ensures since { OnOk result (ChangesOnlySince touched.new (S.kept sink.new) state.now.values) }
    ensures err { IfErr result (IsOfSink (λ fault.
        S.fails sink.old (waiting_in pending.old state.now) fault sink.new)) }
{
    match hand_items(sink, &mut pending.items) {
        Ok(()) => hand_end(sink, &mut pending.due, state, touched),
        Err(fault) => Err(fault),
    }
}

// Whether nothing is pending.
fn none_waits(pending: &Pending) -> bool
    ensures { Decides result (IsNothing pending.now) }
{
    pending.items.is_empty() && !pending.due
}

// Hands on what is pending, if anything is, where a slot or the run has ended.
fn hand<S: HistorySink>(
    sink: &mut S,
    pending: &mut Pending,
    state: &Rest<'_>,
    touched: &mut Touched,
) -> Result<(), OrMemory<RunFault<S::Fault>>>
    requires since { ChangesOnlySince touched.old (S.kept sink.old) state.now.values }
    requires no_end { HasNoSlotEnd pending.old.items.items }
    requires due { pending.old.due ≡ true → is_mark state.now ≡ true }
    ensures ok { OnOk result (HandsOn S.takes (is_mark state.now)
        sink.old (waiting_in pending.old state.now) sink.new (waiting_in pending.new state.now)) }
    ensures no_end { OnOk result (HasNoSlotEnd pending.new.items.items) }
    ensures due { OnOk result (pending.new.due ≡ false) }
    ensures since { OnOk result (ChangesOnlySince touched.new (S.kept sink.new) state.now.values) }
    ensures err { IfErr result (IsOfSink (λ fault.
        S.fails sink.old (waiting_in pending.old state.now) fault sink.new)) }
{
    if !state.is_mark() || none_waits(pending) {
        return Ok(());
    }
    hand_all(sink, pending, state, touched)
}

// What a step gives is pending after what was: its items, and the end of the slot, where one ends. No such end was due.
fn put_pending(
    pending: &mut Pending,
    design: &Design,
    state: &Rest<'_>,
    effect: &Effect,
    monitors: &[usize],
) -> Result<(), NoMemory>
    requires { pending.old.due ≡ false }
    ensures waits { OnOk result (waiting_in pending.new state.now
        ≡ pending.old.items.items ++ items_of design.now (transition_to state.now effect.now monitors.now)) }
    ensures no_end { HasNoSlotEnd pending.old.items.items → OnOk result (HasNoSlotEnd pending.new.items.items) }
    ensures due { OnOk result (pending.new.due ≡ true → is_mark state.now ≡ true) }
{
    state.put_front(&mut pending.items, design, effect, monitors)?;
    pending.due = state.is_slot_end();
    Ok(())
}

/// The choice of a step, and what is left of the log after it.
#[derive(Clone, Copy)]
struct Chosen<'l> {
    choice: u32,
    later: &'l [Member],
}

// Whether the run goes on: it does within a slot, and else where there is a choice.
#[tactic(auto, using(crate::proofs::ChoiceLemmas::goes_on_within))]
fn goes_on(state: &Rest<'_>) -> bool
    ensures { Decides result (length (choices state.now) ≢ 0) }
{
    !state.is_mark() || state.width() > 0
}

// Whether there is a choice of this number, where the run goes on.
fn has_choice(state: &Rest<'_>, choice: u32) -> bool
    requires { length (choices state.now) ≢ 0 }
    ensures { Decides result (choice < length (choices state.now)) }
{
    choice == 0 || choice < state.width()
}

// What comes next after `n` steps: a choice of the state, or none where the run has ended as its log has it.
fn choose<'l>(
    state: &Rest<'_>,
    rest: &'l [Member],
    n: u32,
    steps: u32,
) -> Result<Option<Chosen<'l>>, ReplayFault>
    requires { IsLogFrom n rest.now }
    ensures { (setting : Setting) (log : List (ℕ × ℕ)) (t : State) →
        IsAt setting log rest.now steps n t → length (choices state.now) ≡ length (choices t) →
        IsChosen setting log steps n t rest.now result }
{
    if !goes_on(state) {
        return if rest.is_empty() {
            Ok(None)
        } else {
            Err(ReplayFault::NoSuchChoice)
        };
    }
    if n == steps {
        return Err(ReplayFault::TooManySteps);
    }
    let (choice, later) = next_choice(rest, n);
    if has_choice(state, choice) {
        Ok(Some(Chosen { choice, later }))
    } else {
        Err(ReplayFault::NoSuchChoice)
    }
}

/// A run on its way: what its state is after so many steps, what is left of its log, and what is pending. Where it has paused nothing is.
pub struct Run<'l> {
    log: &'l Log,
    rest: &'l [Member],
    n: u32,
    state: MachineState,
    pending: Pending,
}

impl<'l> Drop for Run<'l> {
    fn drop(self) {
        let Run {
            log: _,
            rest: _,
            n: _,
            state: _,
            pending: _,
        } = self;
    }
}

impl Machine {
    /// The run under the log, of which no step has been taken.
    pub fn open_run<'l>(&self, log: &'l Log) -> Result<Run<'l>, NoMemory>
        ensures log { IfOk result (λ run. run.log.now ≡ log.now) }
        ensures here { IfOk result (λ run. (steps : ℕ) → IsRunAt self.now steps run) }
        ensures waits { IfOk result (λ run. AllWaits self.now run) }
    {
        let state = self.root()?;
        let pending = Pending {
            items: Vec::new(self.alloc),
            due: state.rest().is_slot_end(),
        };
        Ok(Run {
            log,
            rest: log.members(),
            n: 0,
            state,
            pending,
        })
    }

    // Goes on with a run, by at most `steps` steps in all, and hands on what it gives, slot by slot: to its end, or to where the sink is
    // full, if it may pause.
    fn walk<S: HistorySink>(
        &self,
        run: &mut Run<'_>,
        may_pause: bool,
        steps: u32,
        sink: &mut S,
    ) -> Result<Option<End>, OrMemory<RunFault<S::Fault>>>
        requires here { IsRunAt self.now steps run.old }
        ensures here { IfOk result (λ end. IsRunAt self.now steps run.new) }
        ensures log { IfOk result (λ end. run.new.log.now ≡ run.old.log.now) }
        ensures ends { (first : S) → IsHandedSo S.takes self.now run.old first sink.old →
            IfOk result (Reaches S.takes self.now steps first run.new sink.new) }
        ensures slots { (first : S) → IsHandedBySlot S.takes self.now run.old first sink.old →
            IfOk result (ReachesBySlot S.takes self.now steps first run.new sink.new) }
        ensures reason { IfFault result (IsNoSuchRun self.now run.old.log.now steps) }
        ensures left { (first : S) → IsHandedSo S.takes self.now run.old first sink.old →
            IfErr result (λ fault.
            LeavesSink S.takes S.fails self.now run.old.log.now steps first fault sink.new) }
        ensures whole { may_pause ≡ false → IfOk result IsSome }
    {
        let mut effect = Effect::none();
        let mut monitors = Vec::new(self.alloc);
        let mut touched = Touched::any(self.alloc);
        'walk: loop {
            hand(sink, &mut run.pending, &run.state.rest(), &mut touched)?;
            if may_pause && none_waits(&run.pending) && sink.is_full() {
                return Ok(None);
            }
            let chosen = match choose(&run.state.rest(), run.rest, run.n, steps) {
                Ok(Some(chosen)) => chosen,
                Ok(None) => return Ok(Some(self.last_of(&run.state))),
                Err(fault) => return Err(replay_refusal(fault)),
            };
            run.state.step_into(
                &self.design,
                &self.code,
                chosen.choice,
                &mut effect,
                &mut monitors,
            )?;
            touched.touch_all(&effect);
            put_pending(
                &mut run.pending,
                &self.design,
                &run.state.rest(),
                &effect,
                &monitors,
            )?;
            run.rest = chosen.later;
            run.n += 1;
        }
    }

    /// Goes on with a run to its end, or to the end of the first slot after which the sink is full: then the answer is None, and the run
    /// has paused there. It takes at most `steps` steps in all; the faults are those of `run_into`.
    pub fn run_until_full<S: HistorySink>(
        &self,
        run: &mut Run<'_>,
        steps: u32,
        sink: &mut S,
    ) -> Result<Option<End>, OrMemory<RunFault<S::Fault>>>
        requires here { IsRunAt self.now steps run.old }
        ensures here { IfOk result (λ end. IsRunAt self.now steps run.new) }
        ensures log { IfOk result (λ end. run.new.log.now ≡ run.old.log.now) }
        ensures ends { (first : S) → IsHandedSo S.takes self.now run.old first sink.old →
            IfOk result (Reaches S.takes self.now steps first run.new sink.new) }
        ensures slots { (first : S) → IsHandedBySlot S.takes self.now run.old first sink.old →
            IfOk result (ReachesBySlot S.takes self.now steps first run.new sink.new) }
        ensures reason { IfFault result (IsNoSuchRun self.now run.old.log.now steps) }
        ensures left { (first : S) → IsHandedSo S.takes self.now run.old first sink.old →
            IfErr result (λ fault.
            LeavesSink S.takes S.fails self.now run.old.log.now steps first fault sink.new) }
    {
        self.walk(run, true, steps, sink)
    }

    /// Goes on with a run to its end, and hands on what it gives, slot by slot. It takes at most `steps` steps in all; the faults are those
    /// of `run_into`.
    pub fn run_to_end<S: HistorySink>(
        &self,
        run: &mut Run<'_>,
        steps: u32,
        sink: &mut S,
    ) -> Result<End, OrMemory<RunFault<S::Fault>>>
        requires here { IsRunAt self.now steps run.old }
        ensures ends { (first : S) → IsHandedSo S.takes self.now run.old first sink.old →
            IfOk result (λ end. RunsInto S.takes self.now run.old.log.now steps first end sink.new) }
        ensures slots { (first : S) → IsHandedBySlot S.takes self.now run.old first sink.old →
            IfOk result (λ end. RunsBySlot S.takes self.now run.old.log.now steps first end sink.new) }
        ensures reason { IfFault result (IsNoSuchRun self.now run.old.log.now steps) }
        ensures left { (first : S) → IsHandedSo S.takes self.now run.old first sink.old →
            IfErr result (λ fault.
            LeavesSink S.takes S.fails self.now run.old.log.now steps first fault sink.new) }
    {
        match self.walk(run, false, steps, sink) {
            Ok(Some(end)) => Ok(end),
            Ok(None) => unreachable!(),
            Err(fault) => Err(fault),
        }
    }

    /// Whether a run that has paused ends within `steps` steps in all: a copy of its state is taken on, and no items are made.
    /// E402, E403, E901 as `run_into` has them.
    pub fn see_end(&self, run: &Run<'_>, steps: u32) -> Result<End, OrMemory<ReplayFault>>
        requires here { IsRunAt self.now steps run.now }
        ensures ends { IfOk result (λ end. (n : ℕ) × Finishes self.now run.now.log.now steps n end) }
        ensures reason { IfFault result (IsReplayReason (rules_of self.now) run.now.log.now steps) }
    {
        let mut state = run.state.copy(self.alloc)?;
        let mut rest = run.rest;
        let mut n = run.n;
        'walk: loop {
            let chosen = match choose(&state.rest(), rest, n, steps) {
                Ok(Some(chosen)) => chosen,
                Ok(None) => return Ok(self.last_of(&state)),
                Err(fault) => return Err(OrMemory::Fault(fault)),
            };
            state.go(&self.design, &self.code, chosen.choice)?;
            rest = chosen.later;
            n += 1;
        }
    }

    /// Runs the design under the log to its end, by at most `steps` steps, and hands all that it gives to its history on
    /// to the sink, in order and slot by slot: the items of a slot by `take`, if it has any, and then its end by `take_end`.
    /// Of a slot without an end it hands on the items alone.
    ///
    /// The step limit is tested before the log: where the run goes on after `steps` steps the fault is E403, whatever the
    /// log names there; else a named step that isn't reached or hasn't the choice is E402. E901 where memory was refused;
    /// else a fault is the sink's.
    pub fn run_into<S: HistorySink>(
        &self,
        log: &Log,
        steps: u32,
        sink: &mut S,
    ) -> Result<End, OrMemory<RunFault<S::Fault>>>
        ensures ends { IfOk result (λ end.
            RunsInto S.takes self.now log.now steps sink.old end sink.new) }
        ensures slots { IfOk result (λ end.
            RunsBySlot S.takes self.now log.now steps sink.old end sink.new) }
        ensures reason { IfFault result (IsNoSuchRun self.now log.now steps) }
        ensures left { IfErr result (λ fault.
            LeavesSink S.takes S.fails self.now log.now steps sink.old fault sink.new) }
    {
        let mut run = self.open_run(log)?;
        self.run_to_end(&mut run, steps, sink)
    }

    /// The whole history of the run under the log, by at most `steps` steps; the faults are those of `run_into`.
    pub fn history(&self, log: &Log, steps: u32) -> Result<History, OrMemory<ReplayFault>>
        ensures ok { IfOk result (IsHistory self.now log.now steps) }
        ensures reason { IfFault result (IsReplayReason (rules_of self.now) log.now steps) }
    {
        let mut state = self.opening_state()?;
        let mut items = Vec::new(self.alloc);
        put_slot_end(&mut items, &state)?;
        let mut effect = Effect::none();
        let mut monitors = Vec::new(self.alloc);
        let mut rest = log.members();
        let mut n = 0;
        'walk: loop {
            let chosen = match choose(&Rest::plain(&state), rest, n, steps) {
                Ok(Some(chosen)) => chosen,
                Ok(None) => {
                    let values = Values::from_slice(self.alloc, state.values())?;
                    let end = state.end();
                    return Ok(History { items, end, values });
                }
                Err(fault) => return Err(OrMemory::Fault(fault)),
            };
            state.step_into(&self.design, chosen.choice, &mut effect, &mut monitors)?;
            put_items(&mut items, &self.design, &state, &effect, &monitors)?;
            rest = chosen.later;
            n += 1;
        }
    }
}
