// The one step of a choice, and the region moves after it (IEEE 1364-2005, 11.3, 11.4, 11.6).

ghost use Rattle.std.specs.Prelude.{◌≡◌, ℕ, List, ◌<◌, ◌++◌, [], IfOk, OnOk, OnErr, IfSome, IfNone, length, slice_get, slice_set, drop, true};
ghost use Rattle.std.specs.Option.{option_to_list, ForSome};
ghost use Rattle.vmodel.specs.Step.{frames, process_to_continue, process_by, reschedule, posts, with_woken, with_moves, monitors_of, complete, no_transition, continuation_of, environment_of, process_transition, first_of, without_update, transition_of, with_held_after, with_lines_after, with_views, next, slot_end_of, items_of};
ghost use Rattle.vmodel.specs.Parts.{write, with_parts};
ghost use Rattle.vmodel.specs.declared.frame.Frame.{Frame};
ghost use Rattle.vdesign.specs.Design.{Design};
ghost use Rattle.vmodel.specs.Step as spec;
ghost use Rattle.vmodel.specs.Choices.{choices as choices_of, IsWithin};
ghost use Rattle.vmodel.specs.Inner.{first_place};
ghost use Rattle.plain_steps.specs.InnerMove.{IsFirstAction, state_with_move, with_cause, held_in, process_with_move, queue_with_move, processes_with_move};
ghost use Rattle.plain_steps.specs.InnerContinuation.{IsWhole, continuation_frames};
ghost use Rattle.plain_steps.specs.InnerPlain.{is_at_print, IsSilent, IsPlainChoice};
ghost use Rattle.vmodel.specs.InnerStep.{behind, continuation_in, transition_to};

use crate::continuation::Continuation;
use crate::holding::{held_with, release};
use crate::printed::{print_items, print_nothing};
use crate::process::Process;
use crate::queue::Queue;
use crate::shown::put_items;
use crate::state::State;
use crate::waking::{Changes, News, wake};
use basis::NoMemory;
use std::alloc::Global;
use std::mem;
use vbits::Vec4;
use vdesign::action::Action;
use vdesign::design::Design;
use vmodel::choice::Choice;
use vmodel::effect::{Disposition, Effect, effect_at};
use vmodel::frame::Frame;
use vmodel::history::Item;
use vmodel::part::{Kept, Part, Parts};
use vmodel::{environment_at, is_print};
use vvalue::environment::Environment;

// The process, where something comes next or stands behind the first that was left.
#[tactic(auto, using(crate::proofs::ContinuationLemmas::goes_behind, crate::proofs::ContinuationLemmas::goes_before, crate::proofs::ContinuationLemmas::goes_nowhere))]
fn goes_on_after(number: u32, continuation: &Continuation, next: &[usize]) -> Option<u32>
    requires whole { IsWhole continuation.now }
    requires some { 0 < length (continuation_frames continuation.now) }
    ensures { result ≡ process_to_continue number (frames next.now (drop 1 (continuation_frames continuation.now))) }
{
    if continuation.len() > 1 {
        return Some(number);
    }
    if next.len() == 0 { None } else { Some(number) }
}

// The process, where it has something left behind a step.
#[tactic(auto, using(crate::proofs::ContinuationLemmas::goes_again, crate::proofs::ContinuationLemmas::goes_rest))]
fn goes_after(
    number: u32,
    continuation: &Continuation,
    then: Option<Frame>,
    next: &[usize],
) -> Option<u32>
    requires whole { IsWhole continuation.now }
    requires some { 0 < length (continuation_frames continuation.now) }
    ensures { result ≡ process_to_continue number (frames next.now (behind then (drop 1 (continuation_frames continuation.now)))) }
{
    if then.is_some() {
        return Some(number);
    }
    goes_on_after(number, continuation, next)
}

// The process has done what it did, and the queue has what becomes of it. After want of memory both are as they were.
fn move_process(
    process: &mut Process,
    queue: &mut Queue,
    number: u32,
    then: Option<Frame>,
    next: &[usize],
    effect: &Effect,
) -> Result<(), NoMemory>
    requires few { number < 256 }
    requires some { 0 < length process.old.continuation }
    ensures ok { OnOk result (process.new ≡ process_with_move process.old.continuation then next.now effect.now) }
    ensures queue { OnOk result
        (queue.new ≡ queue_with_move number process.old.continuation then next.now effect.now queue.old) }
    ensures err { OnErr result (process.new ≡ process.old) }
    ensures err_queue { OnErr result (queue.new ≡ queue.old) }
{
    let continuation = &mut process.continuation;
    continuation.own.reserve(next.len() + 1)?;
    let goes = goes_after(number, continuation, then, next);
    queue.move_by(number, effect, goes)?;
    continuation.advance(then, next);
    process.held = effect.held();
    process.waits = waits_by(effect.disposition(), goes);
    Ok(())
}

// Where a process waits from now on that goes on, or has ended.
fn waits_by(disposition: Disposition, goes: Option<u32>) -> Option<usize>
    ensures { (number : ℕ) (continuation : List Frame) → goes ≡ process_to_continue number continuation →
        result ≡ spec.waits_by disposition continuation }
{
    match disposition {
        Disposition::Runnable => None,
        Disposition::Delayed(_) => None,
        Disposition::Waiting(place) => match goes {
            None => None,
            Some(_) => Some(place),
        },
    }
}

// The same of a process among all.
fn move_one(
    processes: &mut Vec<Process>,
    queue: &mut Queue,
    number: u32,
    then: Option<Frame>,
    next: &[usize],
    effect: &Effect,
) -> Result<(), NoMemory>
    requires few { number < 256 }
    requires some { 0 < length (continuation_in processes.old.items number) }
    ensures ok { OnOk result
        (processes.new.items ≡ processes_with_move number processes.old.items then next.now effect.now) }
    ensures queue { OnOk result
        (queue.new ≡ queue_with_move number (continuation_in processes.old.items number) then next.now effect.now
        queue.old) }
    ensures err { OnErr result (processes.new.items ≡ processes.old.items) }
    ensures err_queue { OnErr result (queue.new ≡ queue.old) }
{
    let process = &mut processes[number as usize];
    move_process(process, queue, number, then, next, effect)
}

// The first activated update, which is taken out, or nothing where there is none (11.4.1).
fn take_first(queue: &mut Queue) -> Parts
    ensures first { result ≡ first_of queue.old.activated }
    ensures goes { queue.new ≡ without_update queue.old.activated queue.old }
{
    match queue.take_update() {
        None => Parts::none(),
        Some(update) => update,
    }
}

impl State {
    /// The region moves; after `$finish` and `$stop` there are none. The list is then that of the monitor events that ran in them.
    pub fn close(&mut self, monitors: &mut Vec<usize>)
        ensures state { self.new ≡ with_moves self.old }
        ensures monitors { monitors.new.items ≡ monitors_of self.old }
    {
        if self.cause.is_none() {
            self.queue.settle(monitors);
        } else {
            monitors.clear();
        }
    }

    /// Nothing happens.
    pub fn stay(&self, effect: &mut Effect, monitors: &mut Vec<usize>)
        ensures { transition_to self.now effect.new monitors.new.items ≡ no_transition self.now }
    {
        monitors.clear();
        *effect = Effect::none();
    }

    // What a process comes to first, if something is left.
    fn frame_of(&self, number: u32) -> Option<Frame>
        ensures { result ≡ slice_get (continuation_in self.now.processes number) 0 }
    {
        self.processes.get(number as usize)?.first()
    }

    // The value that a process holds, if it holds one (9.7.7).
    fn held_by(&self, number: u32) -> Option<Vec4>
        ensures { result ≡ held_in self.now.processes number }
    {
        self.processes.get(number as usize)?.held
    }

    /// The place in the design's table of the action that a process comes to first, if there is one.
    pub fn place_of(&self, number: u32) -> Option<usize>
        ensures { result ≡ first_place (continuation_in self.now.processes number) }
    {
        Some(self.frame_of(number)?.place())
    }

    // What a process comes to first, and the action there, if there is one.
    fn action_of<'d>(&self, design: &'d Design, number: u32) -> Option<(Frame, &'d Action)>
        ensures { IsFirstAction design.now.actions (continuation_in self.now.processes number) result }
    {
        let frame = self.frame_of(number)?;
        let action = design.actions.get(frame.place())?;
        Some((frame, action))
    }

    // One part is written, and what waits for a change by it goes on.
    fn write_one(&mut self, design: &Design, part: Part)
        ensures { self.new ≡ with_woken design.now self.old.values None
            (record self.old { values = write part self.old.values }) }
    {
        if let Some(change) = self.values.write(part) {
            let news = News {
                changes: Changes::One(change),
                triggered: None,
            };
            wake(&design.actions, &news, &mut self.processes, &mut self.queue);
        }
    }

    // Several parts are written, and what waits for a change by them, or for the event that is triggered, goes on. A change is the
    // difference of a variable before and after all of them.
    fn write_many(&mut self, design: &Design, parts: &[Part], triggered: Option<usize>)
        ensures { self.new ≡ with_woken design.now self.old.values triggered
            (record self.old { values = with_parts parts.now self.old.values }) }
    {
        let changes = Changes::Many {
            values: self.values.as_slice(),
            parts,
        };
        wake(
            &design.actions,
            &News { changes, triggered },
            &mut self.processes,
            &mut self.queue,
        );
        self.values.write_all(parts);
    }

    // Where nothing is written and no event is triggered, nobody is asked whether it waits for that.
    fn write_listed(&mut self, design: &Design, parts: &[Part], triggered: Option<usize>)
        ensures { self.new ≡ with_woken design.now self.old.values triggered
            (record self.old { values = with_parts parts.now self.old.values }) }
    {
        if !parts.is_empty() || triggered.is_some() {
            self.write_many(design, parts, triggered);
        }
    }

    // What a step wrote is written, and what waits for a change by it, or for the event that it triggers, goes on.
    fn write(&mut self, design: &Design, effect: &Effect)
        ensures { self.new ≡ with_woken design.now self.old.values effect.now.triggered
            (record self.old { values = with_parts effect.now.wrote self.old.values }) }
    {
        let triggered = effect.triggered();
        match effect.wrote() {
            Kept::One(part) => match triggered {
                None => self.write_one(design, part),
                Some(_) => self.write_many(design, &[part], triggered),
            },
            Kept::Many(parts) => self.write_listed(design, parts, triggered),
        }
    }

    /// What is known now.
    pub fn environment<'m>(&'m self, design: &'m Design) -> Environment<'m>
        ensures { result ≡ environment_of design.now self.now }
    {
        environment_at(design, self.values.as_slice(), self.queue.time)
    }

    // A process has done what it did, and the queue has what becomes of it.
    fn place(
        &mut self,
        number: u32,
        then: Option<Frame>,
        next: &[usize],
        effect: &Effect,
    ) -> Result<(), NoMemory>
        requires few { number < 256 }
        requires some { 0 < length (continuation_in self.old.processes number) }
        ensures ok { OnOk result (self.new ≡ state_with_move number then next.now effect.now self.old) }
        ensures err { OnErr result (self.new ≡ self.old) }
    {
        move_one(
            &mut self.processes,
            &mut self.queue,
            number,
            then,
            next,
            effect,
        )
    }

    // What the step wrote is written, it may end the run, and the regions move.
    fn finish(&mut self, design: &Design, effect: &Effect, monitors: &mut Vec<usize>)
        ensures { transition_to self.new effect.now monitors.new.items ≡ complete effect.now (with_cause effect.now.cause
            (with_woken design.now self.old.values effect.now.triggered
            (record self.old { values = with_parts effect.now.wrote self.old.values }))) }
    {
        self.write(design, effect);
        self.cause = effect.cause();
        self.close(monitors);
    }

    // A process takes one step. Here and below it is told by a mutable borrow what a step did: a result would be moved at each call.
    // After want of memory it may be anything.
    #[inline(always)]
    fn run(
        &mut self,
        design: &Design,
        number: u32,
        effect: &mut Effect,
        monitors: &mut Vec<usize>,
    ) -> Result<(), NoMemory>
        requires { number < 256 }
        ensures ok { OnOk result
            (process_transition design.now number self.old ≡ transition_to self.new effect.new monitors.new.items) }
        ensures err { OnErr result (self.new ≡ self.old) }
        ensures err_monitors { OnErr result (monitors.new.items ≡ monitors.old.items) }
    {
        let Some((frame, action)) = self.action_of(design, number) else {
            self.stay(effect, monitors);
            return Ok(());
        };
        let alloc = *self.processes.allocator();
        let held = self.held_by(number);
        let environment = self.environment(design);
        let course = effect_at(alloc, frame, action, held, None, &environment, effect)?;
        self.place(number, course.then, course.next, effect)?;
        self.finish(design, effect, monitors);
        Ok(())
    }

    // The first activated update is written (11.4.1).
    fn update(&mut self, design: &Design, effect: &mut Effect, monitors: &mut Vec<usize>)
        ensures { transition_of design.now Choice.Update self.old
            ≡ transition_to self.new effect.new monitors.new.items }
    {
        *effect = Effect::of_write(take_first(&mut self.queue));
        self.write(design, effect);
        self.close(monitors);
    }

    /// The time goes on to the next future time.
    pub fn advance(&mut self, effect: &mut Effect, monitors: &mut Vec<usize>)
        ensures { (design : Design) → transition_of design Choice.Advance self.old
            ≡ transition_to self.new effect.new monitors.new.items }
    {
        self.queue.advance();
        self.close(monitors);
        *effect = Effect::none();
    }

    // The step of a choice, without what is held back from now on and the lines of the slot.
    fn take(
        &mut self,
        design: &Design,
        choice: Choice,
        effect: &mut Effect,
        monitors: &mut Vec<usize>,
    ) -> Result<(), NoMemory>
        requires { IsWithin choice }
        ensures ok { OnOk result
            (transition_of design.now choice self.old ≡ transition_to self.new effect.new monitors.new.items) }
        ensures err { OnErr result (self.new ≡ self.old) }
        ensures err_monitors { OnErr result (monitors.new.items ≡ monitors.old.items) }
    {
        match choice {
            Choice::Run(process) => self.run(design, process, effect, monitors),
            Choice::Update => {
                self.update(design, effect, monitors);
                Ok(())
            }
            Choice::Advance => {
                self.advance(effect, monitors);
                Ok(())
            }
        }
    }

    // The same of choice `i`, which is this one, where these are held back, with what is held back from now on.
    fn take_holding(
        &mut self,
        design: &Design,
        i: u32,
        choice: Choice,
        effect: &mut Effect,
        monitors: &mut Vec<usize>,
    ) -> Result<(), NoMemory>
        requires { IsWithin choice }
        ensures ok { OnOk result (with_held_after self.old i choice (transition_of design.now choice self.old)
            ≡ transition_to self.new effect.new monitors.new.items) }
        ensures err { OnErr result (self.new ≡ self.old) }
        ensures err_monitors { OnErr result (monitors.new.items ≡ monitors.old.items) }
    {
        match &self.held_back {
            None => self.take(design, choice, effect, monitors),
            Some(held) => {
                let held = held_with(&self.queue, held, i, choice);
                self.take(design, choice, effect, monitors)?;
                self.held_back = Some(release(&self.queue, held));
                Ok(())
            }
        }
    }

    /// The lines of a step by this choice go into the bag of its slot.
    pub fn print(
        &mut self,
        design: &Design,
        choice: Choice,
        effect: &Effect,
        monitors: &[usize],
    ) -> Result<(), NoMemory>
        ensures { OnOk result (transition_to self.new effect.now monitors.now
            ≡ with_lines_after design.now self.old choice (transition_to self.old effect.now monitors.now)) }
    {
        let mut items = Vec::new(*self.processes.allocator());
        put_items(&mut items, design, self, effect, monitors)?;
        print_items(&mut self.printed, choice, &items)
    }

    // Whether the choice is of a process that comes first to a print task.
    fn is_at_print(&self, design: &Design, choice: Choice) -> bool
        ensures { result ≡ is_at_print design.now choice self.now }
    {
        let Choice::Run(number) = choice else {
            return false;
        };
        match self.action_of(design, number) {
            None => false,
            Some((_, action)) => is_print(action),
        }
    }

    // Whether the step of a choice is sure to print nothing: it is of no print task, and no monitor event waits.
    fn is_silent(&self, design: &Design, choice: Choice) -> bool
        ensures { result ≡ true → IsSilent design.now choice self.now }
    {
        if self.is_at_print(design, choice) {
            return false;
        }
        self.queue.has_no_strobe()
    }

    // The step of choice `i`, which is this one and prints nothing, with what is held back from now on and the lines of the slot.
    fn take_silent(
        &mut self,
        design: &Design,
        i: u32,
        choice: Choice,
        effect: &mut Effect,
        monitors: &mut Vec<usize>,
    ) -> Result<(), NoMemory>
        requires within { IsWithin choice }
        requires silent { IsSilent design.now choice self.old }
        ensures ok { OnOk result (with_views design.now self.old i choice (transition_of design.now choice self.old)
            ≡ transition_to self.new effect.new monitors.new.items) }
        ensures err { OnErr result (self.new ≡ self.old) }
        ensures err_monitors { OnErr result (monitors.new.items ≡ monitors.old.items) }
    {
        self.take_holding(design, i, choice, effect, monitors)?;
        print_nothing(&mut self.printed, choice);
        Ok(())
    }

    // The step of choice `i`, which is this one, with what is held back from now on and the lines of the slot, taken by a copy.
    fn take_printing(
        &mut self,
        design: &Design,
        i: u32,
        choice: Choice,
        effect: &mut Effect,
        monitors: &mut Vec<usize>,
    ) -> Result<(), NoMemory>
        requires { IsWithin choice }
        ensures ok { OnOk result (with_views design.now self.old i choice (transition_of design.now choice self.old)
            ≡ transition_to self.new effect.new monitors.new.items) }
        ensures err { OnErr result (self.new ≡ self.old) }
        ensures err_monitors { OnErr result (monitors.new.items ≡ monitors.old.items) }
    {
        let alloc = *self.processes.allocator();
        let mut after = self.copy(alloc)?;
        let mut ran = Vec::new(alloc);
        after.take_holding(design, i, choice, effect, &mut ran)?;
        after.print(design, choice, effect, &ran)?;
        mem::swap(self, &mut after);
        mem::swap(monitors, &mut ran);
        Ok(())
    }

    // Choice `i`, where departures only take and no lines are looked at.
    fn plain_choice(&self, i: u32) -> Option<Choice>
        ensures plain { IfSome result (λ c. IsPlainChoice self.now i c) }
        ensures few { ForSome result IsWithin }
    {
        match (&self.held_back, &self.printed) {
            (None, None) => self.choice(i),
            _ => None,
        }
    }

    // The step of choice `i`, of any setting, also where there is no such choice.
    #[inline(never)]
    fn step_any(
        &mut self,
        design: &Design,
        i: u32,
        effect: &mut Effect,
        monitors: &mut Vec<usize>,
    ) -> Result<(), NoMemory>
        ensures ok { OnOk result (next design.now self.old i ≡ transition_to self.new effect.new monitors.new.items) }
        ensures err { OnErr result (self.new ≡ self.old) }
        ensures err_monitors { OnErr result (monitors.new.items ≡ monitors.old.items) }
    {
        let Some(choice) = self.choice(i) else {
            self.stay(effect, monitors);
            return Ok(());
        };
        match &self.printed {
            None => self.take_holding(design, i, choice, effect, monitors),
            Some(_) if self.is_silent(design, choice) => {
                self.take_silent(design, i, choice, effect, monitors)
            }
            Some(_) => self.take_printing(design, i, choice, effect, monitors),
        }
    }

    /// The step of choice `i`, in place: one step of a process, the write of an update or the advance of the time, and the
    /// region moves after it (11.3, 11.4). The effect is then what the step did, and the list that of the monitor events that ran: the
    /// places of their print tasks, in order of creation (17.1.2). Where there is no such choice nothing happens. E901 is the only
    /// refusal, and leaves the state and the list as they were; the effect may then be any.
    pub fn step_into(
        &mut self,
        design: &Design,
        i: u32,
        effect: &mut Effect,
        monitors: &mut Vec<usize>,
    ) -> Result<(), NoMemory>
        ensures ok { OnOk result (next design.now self.old i ≡ transition_to self.new effect.new monitors.new.items) }
        ensures err { OnErr result (self.new ≡ self.old) }
        ensures err_monitors { OnErr result (monitors.new.items ≡ monitors.old.items) }
    {
        match self.plain_choice(i) {
            None => self.step_any(design, i, effect, monitors),
            Some(Choice::Run(process)) => self.run(design, process, effect, monitors),
            Some(Choice::Update) => {
                self.update(design, effect, monitors);
                Ok(())
            }
            Some(Choice::Advance) => {
                self.advance(effect, monitors);
                Ok(())
            }
        }
    }

    /// The same, where the answer is what the step did.
    pub fn step(
        &mut self,
        design: &Design,
        i: u32,
        monitors: &mut Vec<usize>,
    ) -> Result<Effect, NoMemory>
        ensures ok { IfOk result (λ effect.
            next design.now self.old i ≡ transition_to self.new effect monitors.new.items) }
        ensures err { OnErr result (self.new ≡ self.old) }
        ensures err_monitors { OnErr result (monitors.new.items ≡ monitors.old.items) }
    {
        let mut effect = Effect::none();
        self.step_into(design, i, &mut effect, monitors)?;
        Ok(effect)
    }

    /// The same, where nobody asks what the step did.
    pub fn go(&mut self, design: &Design, i: u32) -> Result<(), NoMemory>
        ensures ok { OnOk result (self.new ≡ (next design.now self.old i).state) }
        ensures err { OnErr result (self.new ≡ self.old) }
    {
        let mut effect = Effect::none();
        let mut monitors = Vec::new(*self.processes.allocator());
        self.step_into(design, i, &mut effect, &mut monitors)
    }
}

/// How many choices the state has: 0 where the run has ended.
pub fn slow_width(state: &State) -> u32
    ensures { result ≡ length (choices_of state.now) }
{
    state.width()
}

/// The state after the step of choice `i`, with what the step gives to the history, in order. Where there is no such
/// choice the state stays, and where it is a slot's end that comes again. The state is copied; E901 is the only refusal.
pub fn slow_step(
    alloc: Global,
    design: &Design,
    state: &State,
    i: u32,
) -> Result<(State, Vec<Item>), NoMemory>
    ensures state { IfOk result (λ after. after.0 ≡ (next design.now state.now i).state) }
    ensures items { IfOk result (λ after. after.1.items
        ≡ items_of design.now (next design.now state.now i)) }
{
    let mut after = state.copy(alloc)?;
    let mut monitors = Vec::new(alloc);
    let effect = after.step(design, i, &mut monitors)?;
    let mut items = Vec::new(alloc);
    put_items(&mut items, design, &after, &effect, &monitors)?;
    Ok((after, items))
}
