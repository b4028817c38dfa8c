// What a step of a process does (IEEE 1364-2005, clause 9): its disposition, what it writes, posts, shows, and whether it ends the run.

ghost use Rattle.std.specs.Prelude.{◌≡◌, [], ℕ, List, cond, IfOk, OnOk, option_map};
ghost use Rattle.std.specs.Option.{ForSome};
ghost use Rattle.vvalue.specs.Value.{delay_of as delay_at};
ghost use Rattle.vmodel.specs.declared.frame.Frame.{Frame};
ghost use Rattle.vmodel.specs.Effects.{no_effect};
ghost use Rattle.vmodel.specs.Inner.{kept_parts};
ghost use Rattle.vmodel.specs.Step as spec;
ghost use Rattle.vmodel.specs.Operands.{operand as operand_at};
ghost use Rattle.vmodel.specs.Value.{resumed_parts as resumed_at};
ghost use Rattle.vmodel.specs.Step.{execute, execute_at};
ghost use Rattle.vmodel.specs.InnerStep.{wait_result, behind, step_result, effect_of_end, while_result};

use crate::frame::Frame;
use crate::part::{Kept, Parts};
use crate::value::{given_parts, held_value, resumed_parts};
use basis::NoMemory;
use sched_core::end::Cause;
use std::alloc::Global;
use std::marker::Model;
use vbits::Vec4;
use vdesign::action::{Action, Places, Target, Targets};
use vdesign::dump::{DumpCommand, DumpSwitch};
use vdesign::expression::Expression;
use vdesign::print::When;
use vvalue::asked::{delay_by, delay_of, is_true, self_determined_value};
use vvalue::cases::{places_of_case, turns_by};
use vvalue::environment::Environment;

/// What becomes of a process by its step.
#[derive(Clone, Copy, PartialEq, Eq)]
pub enum Disposition {
    /// It goes on, or has ended where it has nothing left.
    Runnable,
    /// It sleeps so long, in units of the precision (9.7.1).
    Delayed(u128),
    /// It waits for a change or a named event, at the action of this place (9.7.2, 9.7.3).
    Waiting(usize),
}

/// An update that a step posts, for so much later, in units of the precision (9.7.7, 11.4).
pub struct Post {
    pub after: u128,
    pub parts: Parts,
}

impl Drop for Post {
    fn drop(self) {
        let Post { after: _, parts: _ } = self;
    }
}

/// What a step shows at once.
#[derive(Clone, Copy, PartialEq, Eq)]
pub enum Shown {
    /// A command to the dump (18.1).
    Commands(DumpCommand),
    /// The line of the print task at this place (17.1.1).
    Prints(usize),
    /// The monitor at this place is in force from now on (17.1.3).
    Watches(usize),
}

/// The forms of effects: a step does one of these things, beside what its process has left.
#[derive(Drop)]
pub enum Form {
    /// It only goes on.
    Nothing,
    /// It writes these parts, from left to right (6.2).
    Write(Parts),
    /// It writes these parts, and waits at the continuous assignment of this place (6.1).
    Drive(Parts, usize),
    /// It posts a nonblocking update (11.4).
    Post(Post),
    /// It triggers this named event (9.7.3).
    Trigger(usize),
    /// It suspends its process (9.7).
    Suspend(Disposition),
    /// Its process holds this value, and sleeps so long, in units of the precision (9.7.7).
    Hold(Vec4, u128),
    /// It shows something at once.
    Show(Shown),
    /// It creates a monitor event: the line of the print task at this place, at the end of the slot (11.3, 17.1.2).
    Strobe(usize),
    /// It ends the run (17.4).
    End(Cause),
}

/// What a step does, beside what its process has left. A clause sees it as the record `Effect` of specs/Effects.antt.
pub struct Effect {
    /// Which of the forms it has: a queue goes by it, since that is quicker than to ask for each field.
    pub form: Form,
}

impl Drop for Effect {
    fn drop(self) {
        let Effect { form: _ } = self;
    }
}

impl Model for Effect {
    ghost use Rattle.vmodel.specs.Effects as effects;
    ghost use Rattle.vmodel.specs.InnerEffect.{effect_of};

    ghost Value = { effects.Effect };

    ghost view = { λ e. effect_of e.form };
}

impl Effect {
    /// What a step does that only goes on.
    pub fn none() -> Effect
        ensures { result ≡ no_effect }
    {
        Effect {
            form: Form::Nothing,
        }
    }

    /// What a step does that writes (6.2).
    pub fn of_write(parts: Parts) -> Effect
        ensures { result ≡ record no_effect { wrote = parts } }
    {
        Effect {
            form: Form::Write(parts),
        }
    }

    /// What a step does that writes, and waits at the continuous assignment of this place (6.1).
    pub fn of_drive(parts: Parts, place: usize) -> Effect
        ensures { result ≡ record no_effect { wrote = parts; disposition = Disposition.Waiting place } }
    {
        Effect {
            form: Form::Drive(parts, place),
        }
    }

    /// What a step does that suspends its process (9.7).
    pub fn of_suspend(disposition: Disposition) -> Effect
        ensures { result ≡ record no_effect { disposition = disposition } }
    {
        Effect {
            form: Form::Suspend(disposition),
        }
    }

    /// What a step does that posts an update for the current time (11.4).
    pub fn of_post(parts: Parts) -> Effect
        ensures { result ≡ record no_effect { posted = Some (spec.post_after 0 parts) } }
    {
        Effect {
            form: Form::Post(Post { after: 0, parts }),
        }
    }

    /// The value that a suspended assignment holds from now on (9.7.7).
    pub fn held(&self) -> Option<Vec4>
        ensures { result ≡ self.now.held }
    {
        match &self.form {
            Form::Hold(value, _) => Some(*value),
            _ => None,
        }
    }

    /// What becomes of the process.
    pub fn disposition(&self) -> Disposition
        ensures { result ≡ self.now.disposition }
    {
        match &self.form {
            Form::Drive(_, place) => Disposition::Waiting(*place),
            Form::Suspend(disposition) => *disposition,
            Form::Hold(_, delay) => Disposition::Delayed(*delay),
            _ => Disposition::Runnable,
        }
    }

    /// What is written, from left to right.
    pub fn wrote(&self) -> Kept<'_>
        ensures { kept_parts result ≡ self.now.wrote }
    {
        match &self.form {
            Form::Write(parts) => parts.kept(),
            Form::Drive(parts, _) => parts.kept(),
            _ => Kept::Many(&[]),
        }
    }

    /// A nonblocking update that is posted (11.4).
    pub fn posted(&self) -> Option<&Post>
        ensures { option_map (λ post. post.now) result ≡ self.now.posted }
    {
        match &self.form {
            Form::Post(post) => Some(post),
            _ => None,
        }
    }

    /// The named event that is triggered (9.7.3).
    pub fn triggered(&self) -> Option<usize>
        ensures { result ≡ self.now.triggered }
    {
        match &self.form {
            Form::Trigger(event) => Some(*event),
            _ => None,
        }
    }

    /// What it shows at once.
    pub fn shown(&self) -> Option<Shown>
        ensures { result ≡ self.now.shown }
    {
        match &self.form {
            Form::Show(shown) => Some(*shown),
            _ => None,
        }
    }

    /// A monitor event that is created: the line of the print task at this place, at the end of the slot (11.3, 17.1.2).
    pub fn strobed(&self) -> Option<usize>
        ensures { result ≡ self.now.strobed }
    {
        match &self.form {
            Form::Strobe(place) => Some(*place),
            _ => None,
        }
    }

    /// Why the run ends, if it does (17.4).
    pub fn cause(&self) -> Option<Cause>
        ensures { result ≡ self.now.cause }
    {
        match &self.form {
            Form::End(cause) => Some(*cause),
            _ => None,
        }
    }

    // From here on it is that of a step that only goes on.
    fn reset(&mut self)
        ensures { self.new ≡ no_effect }
    {
        self.form = Form::Nothing;
    }

    // That of a step that ends the run (17.4).
    fn end(&mut self, cause: Cause)
        ensures { self.new ≡ effect_of_end cause }
    {
        self.form = Form::End(cause);
    }

    // That of a step that writes (6.2).
    fn write(&mut self, parts: Parts)
        ensures { self.new ≡ record no_effect { wrote = parts } }
    {
        self.form = Form::Write(parts);
    }

    // That of a step that writes, and waits at the continuous assignment of this place (6.1).
    fn drive(&mut self, parts: Parts, place: usize)
        ensures { self.new ≡ record no_effect { wrote = parts; disposition = Disposition.Waiting place } }
    {
        self.form = Form::Drive(parts, place);
    }

    // That of a step that posts an update for so much later (11.4).
    fn post(&mut self, after: u128, parts: Parts)
        ensures { self.new ≡ record no_effect { posted = Some (spec.post_after after parts) } }
    {
        self.form = Form::Post(Post { after, parts });
    }

    // That of a step that triggers a named event (9.7.3).
    fn trigger(&mut self, event: usize)
        ensures { self.new ≡ record no_effect { triggered = Some event } }
    {
        self.form = Form::Trigger(event);
    }

    // That of a step that suspends its process (9.7).
    fn suspend(&mut self, disposition: Disposition)
        ensures { self.new ≡ record no_effect { disposition = disposition } }
    {
        self.form = Form::Suspend(disposition);
    }

    // That of a step after which its process holds a value and sleeps (9.7.7).
    fn hold(&mut self, value: Vec4, delay: u128)
        ensures { self.new ≡ record no_effect { held = Some value; disposition = Disposition.Delayed delay } }
    {
        self.form = Form::Hold(value, delay);
    }

    // That of a step that shows something at once.
    fn show(&mut self, shown: Shown)
        ensures { self.new ≡ record no_effect { shown = Some shown } }
    {
        self.form = Form::Show(shown);
    }

    // That of a step that creates a monitor event (17.1.2).
    fn strobe(&mut self, place: usize)
        ensures { self.new ≡ record no_effect { strobed = Some place } }
    {
        self.form = Form::Strobe(place);
    }

    // That of the print task of this place (17.1).
    fn print(&mut self, when: When, place: usize)
        ensures { self.new ≡ spec.print_effect when place }
    {
        match when {
            When::Now => self.show(Shown::Prints(place)),
            When::AtSlotEnd => self.strobe(place),
            When::AtChange => self.show(Shown::Watches(place)),
        }
    }
}

// The command that a dump task gives, but for `$dumpvars` (18.1).
fn command_of(switch: DumpSwitch) -> DumpCommand
    ensures { result ≡ spec.command_of switch }
{
    match switch {
        DumpSwitch::Off => DumpCommand::Off,
        DumpSwitch::On => DumpCommand::On,
        DumpSwitch::All => DumpCommand::All,
    }
}

/// Where a process goes by an action: the places that come next, and what comes after them, before the rest.
#[derive(Clone, Copy)]
pub struct Course<'d> {
    pub next: &'d [usize],
    pub then: Option<Frame>,
}

// Where an action only goes on.
fn goes_to<'d>(next: &'d [usize]) -> Course<'d>
    ensures next { result.next.now ≡ next.now }
    ensures then { result.then ≡ None }
{
    Course { next, then: None }
}

// Where an action comes again behind these places.
fn comes_again<'d>(place: usize, next: &'d [usize]) -> Course<'d>
    ensures next { result.next.now ≡ next.now }
    ensures then { result.then ≡ Some (Frame.Executing place) }
{
    Course {
        next,
        then: Some(Frame::Executing(place)),
    }
}

// A `repeat` with so many turns left, where one is left (9.6).
#[tactic(auto, using(crate::proofs::TurnLemmas::turning_left, crate::proofs::TurnLemmas::turning_done))]
fn frame_of_turns(place: usize, turns: u64) -> Option<Frame>
    ensures { (after : List Frame) → spec.turns_left place turns after ≡ behind result after }
{
    if turns == 0 {
        None
    } else {
        Some(Frame::Repeating(place, turns))
    }
}

// Where a `repeat` goes that has so many turns left behind these places (9.6).
fn turns_first<'d>(place: usize, next: &'d [usize], turns: u64) -> Course<'d>
    ensures next { result.next.now ≡ next.now }
    ensures then { (after : List Frame) →
        spec.turns_left place turns after ≡ behind result.then after }
{
    Course {
        next,
        then: frame_of_turns(place, turns),
    }
}

// What a `while` does whose condition holds, or doesn't (9.6).
fn while_of<'d>(place: usize, holds: bool, body: &'d Places, effect: &mut Effect) -> Course<'d>
    ensures { (after : List Frame) →
        while_result place holds body.now after ≡ step_result result.then result.next.now after effect.new }
{
    effect.reset();
    if holds {
        comes_again(place, body.as_slice())
    } else {
        goes_to(&[])
    }
}

// What a `wait` does whose condition holds, or doesn't (9.7.6).
fn wait_of<'d>(place: usize, holds: bool, body: &'d Places, effect: &mut Effect) -> Course<'d>
    ensures { (after : List Frame) →
        wait_result place holds body.now after ≡ step_result result.then result.next.now after effect.new }
{
    if holds {
        effect.reset();
        return goes_to(body.as_slice());
    }
    effect.suspend(Disposition::Waiting(place));
    comes_again(place, &[])
}

// The branch of an `if` that comes next, whose condition holds, or doesn't (9.4).
fn branch_of<'d>(holds: bool, when_true: &'d Places, otherwise: &'d Places) -> &'d [usize]
    ensures { result.now ≡ cond holds when_true.now otherwise.now }
{
    if holds {
        when_true.as_slice()
    } else {
        otherwise.as_slice()
    }
}

// What an `assign` does (6.1): it writes, and waits before it comes again.
fn continuous_assign_of<'d>(place: usize, parts: Parts, effect: &mut Effect) -> Course<'d>
    ensures next { result.next.now ≡ [] }
    ensures then { result.then ≡ Some (Frame.Executing place) }
    ensures effect { effect.new ≡ record no_effect { wrote = parts; disposition = Disposition.Waiting place } }
{
    effect.drive(parts, place);
    comes_again(place, &[])
}

// What an assignment of a value does (9.2.1).
fn assign_of<'d>(
    alloc: Global,
    targets: &Targets,
    value: Vec4,
    environment: &Environment<'_>,
    effect: &mut Effect,
) -> Result<Course<'d>, NoMemory>
    ensures next { IfOk result (λ course. course.next.now ≡ []) }
    ensures then { IfOk result (λ course. course.then ≡ None) }
    ensures effect { OnOk result
        (effect.new ≡ record no_effect { wrote = resumed_at environment.now targets.now (Some value) }) }
{
    effect.write(given_parts(alloc, targets, value, environment)?);
    Ok(goes_to(&[]))
}

// What a nonblocking assignment of a value does that is written so much later (9.2.2, 9.7.7).
fn post_of<'d>(
    alloc: Global,
    delay: u128,
    targets: &Targets,
    value: Vec4,
    environment: &Environment<'_>,
    effect: &mut Effect,
) -> Result<Course<'d>, NoMemory>
    ensures next { IfOk result (λ course. course.next.now ≡ []) }
    ensures then { IfOk result (λ course. course.then ≡ None) }
    ensures effect { OnOk result (effect.new ≡ record no_effect {
      posted = Some (spec.post_after delay (resumed_at environment.now targets.now (Some value)));
    }) }
{
    effect.post(delay, given_parts(alloc, targets, value, environment)?);
    Ok(goes_to(&[]))
}

// What a suspended assignment of a value does first (9.7.7): it sleeps before it writes.
fn assign_delayed_of<'d>(
    place: usize,
    amount: &Expression,
    value: Vec4,
    environment: &Environment<'_>,
    effect: &mut Effect,
) -> Course<'d>
    ensures next { result.next.now ≡ [] }
    ensures then { result.then ≡ Some (Frame.Writing place) }
    ensures effect { effect.new ≡ record no_effect {
      held = Some value;
      disposition = Disposition.Delayed (delay_at environment.now amount.now);
    } }
{
    effect.hold(value, delay_of(amount, environment));
    Course {
        next: &[],
        then: Some(Frame::Writing(place)),
    }
}

/// The operand of an action: the value of the expression that its step evaluates first. Of an assignment that is its right side, at the
/// bits of its targets; a condition, a count and an amount stand by themselves. It is x, where there is none.
pub fn operand_of(action: &Action, environment: &Environment<'_>) -> Vec4
    ensures { result ≡ operand_at environment.now action.now }
{
    match action {
        Action::Assign { targets, value } => held_value(targets, value, environment),
        Action::Nonblocking { targets, value } => held_value(targets, value, environment),
        Action::AssignDelayed { targets, value, .. } => held_value(targets, value, environment),
        Action::NonblockingDelayed { targets, value, .. } => {
            held_value(targets, value, environment)
        }
        Action::ContinuousAssign { targets, value, .. } => held_value(targets, value, environment),
        Action::Test { condition, .. } => self_determined_value(condition, environment),
        Action::While { condition, .. } => self_determined_value(condition, environment),
        Action::Wait { condition, .. } => self_determined_value(condition, environment),
        Action::Repeat { count, .. } => self_determined_value(count, environment),
        Action::Delay { amount, .. } => self_determined_value(amount, environment),
        _ => Vec4::all_x(1),
    }
}

/// What the action of this place does at this moment, with its operand. E901 is the only refusal.
#[tactic(auto, using(crate::proofs::PartLemmas::held_assigned))]
pub fn effect_of<'d>(
    alloc: Global,
    place: usize,
    action: &'d Action,
    operand: Vec4,
    environment: &Environment<'_>,
    effect: &mut Effect,
) -> Result<Course<'d>, NoMemory>
    requires { operand ≡ operand_at environment.now action.now }
    ensures { IfOk result (λ course. (after : List Frame) →
        execute place action.now after environment.now
        ≡ step_result course.then course.next.now after effect.new) }
{
    match action {
        Action::Assign { targets, .. } => assign_of(alloc, targets, operand, environment, effect),
        Action::Nonblocking { targets, .. } => post_of(
            alloc,
            0,
            targets,
            operand,
            environment,
            effect,
        ),
        Action::AssignDelayed { amount, .. } => Ok(assign_delayed_of(
            place,
            amount,
            operand,
            environment,
            effect,
        )),
        Action::NonblockingDelayed {
            amount,
            targets,
            ..
        } => post_of(
            alloc,
            delay_of(amount, environment),
            targets,
            operand,
            environment,
            effect,
        ),
        Action::Trigger(event) => {
            effect.trigger(*event);
            Ok(goes_to(&[]))
        }
        Action::Test {
            when_true,
            otherwise,
            ..
        } => {
            effect.reset();
            Ok(goes_to(branch_of(is_true(operand), when_true, otherwise)))
        }
        Action::Case {
            kind,
            value,
            branches,
            otherwise,
        } => {
            effect.reset();
            Ok(goes_to(places_of_case(*kind, value, branches, otherwise, environment)))
        }
        Action::While { body, .. } => Ok(while_of(place, is_true(operand), body, effect)),
        Action::Repeat { .. } => {
            effect.reset();
            Ok(turns_first(place, &[], turns_by(operand)))
        }
        Action::Forever { body } => {
            effect.reset();
            Ok(comes_again(place, body.as_slice()))
        }
        Action::Delay { body, .. } => {
            effect.suspend(Disposition::Delayed(delay_by(operand, environment)));
            Ok(goes_to(body.as_slice()))
        }
        Action::EventControl { body, .. } => {
            effect.suspend(Disposition::Waiting(place));
            Ok(goes_to(body.as_slice()))
        }
        Action::Wait { body, .. } => Ok(wait_of(place, is_true(operand), body, effect)),
        Action::ContinuousAssign { targets, .. } => {
            let parts = given_parts(alloc, targets, operand, environment)?;
            Ok(continuous_assign_of(place, parts, effect))
        }
        Action::Print { when, .. } => {
            effect.print(*when, place);
            Ok(goes_to(&[]))
        }
        Action::DumpVars(_) => {
            effect.show(Shown::Commands(DumpCommand::Vars(place)));
            Ok(goes_to(&[]))
        }
        Action::Dump(switch) => {
            effect.show(Shown::Commands(command_of(*switch)));
            Ok(goes_to(&[]))
        }
        Action::NoOperation => {
            effect.reset();
            Ok(goes_to(&[]))
        }
        Action::Finish => {
            effect.end(Cause::Finish);
            Ok(goes_to(&[]))
        }
        Action::Stop => {
            effect.end(Cause::Stop);
            Ok(goes_to(&[]))
        }
    }
}

// What the start of a turn of the action at this place does, where so many turns are left (9.6).
fn turn_of<'d>(place: usize, turns: u64, action: &'d Action, effect: &mut Effect) -> Course<'d>
    ensures { (after : List Frame) →
        spec.execute_turn place turns action.now after
        ≡ step_result result.then result.next.now after effect.new }
{
    effect.reset();
    match action {
        Action::Repeat { body, .. } => {
            turns_first(place, body.as_slice(), turns.saturating_sub(1))
        }
        _ => Course {
            next: &[],
            then: Some(Frame::Repeating(place, turns)),
        },
    }
}

// What a suspended assignment writes of the value that its process holds (9.7.7).
fn written_of<'d>(
    alloc: Global,
    targets: &Targets,
    held: Option<Vec4>,
    environment: &Environment<'_>,
    effect: &mut Effect,
) -> Result<Course<'d>, NoMemory>
    ensures next { IfOk result (λ course. course.next.now ≡ []) }
    ensures then { IfOk result (λ course. course.then ≡ None) }
    ensures effect { OnOk result
        (effect.new ≡ record no_effect { wrote = resumed_at environment.now targets.now held }) }
{
    effect.write(resumed_parts(alloc, targets, held, environment)?);
    Ok(goes_to(&[]))
}

// What the second step of the suspended assignment at this place does, with the value that its process holds (9.7.7).
fn resume_of<'d>(
    alloc: Global,
    place: usize,
    action: &'d Action,
    held: Option<Vec4>,
    environment: &Environment<'_>,
    effect: &mut Effect,
) -> Result<Course<'d>, NoMemory>
    ensures { IfOk result (λ course. (after : List Frame) →
        spec.resume place action.now after held environment.now
        ≡ step_result course.then course.next.now after effect.new) }
{
    match action {
        Action::AssignDelayed { targets, .. } => {
            written_of(alloc, targets, held, environment, effect)
        }
        _ => {
            effect.reset();
            Ok(Course {
                next: &[],
                then: Some(Frame::Writing(place)),
            })
        }
    }
}

/// What the action that this frame is at does at this moment, with the value that the process holds: where the process goes is
/// answered, and the effect is then what else it does. The action's operand may be known; else it is worked out where it is read. E901
/// is the only refusal; the effect may then be any.
#[inline(always)]
pub fn effect_at<'d>(
    alloc: Global,
    frame: Frame,
    action: &'d Action,
    held: Option<Vec4>,
    operand: Option<Vec4>,
    environment: &Environment<'_>,
    effect: &mut Effect,
) -> Result<Course<'d>, NoMemory>
    requires { ForSome operand (λ value. value ≡ operand_at environment.now action.now) }
    ensures { IfOk result (λ course. (after : List Frame) →
        execute_at frame action.now after held environment.now
        ≡ step_result course.then course.next.now after effect.new) }
{
    match frame {
        Frame::Executing(place) => {
            let operand = match operand {
                None => operand_of(action, environment),
                Some(value) => value,
            };
            effect_of(alloc, place, action, operand, environment, effect)
        }
        Frame::Repeating(place, turns) => Ok(turn_of(place, turns, action, effect)),
        Frame::Writing(place) => resume_of(alloc, place, action, held, environment, effect),
    }
}
