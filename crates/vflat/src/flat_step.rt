// The step of a flat state (IEEE 1364-2005, 11.3, 11.4): a process goes on by the code of the design, and who waits wakes by its lists.

ghost use Rattle.std.specs.Prelude.{◌≡◌, ◌<◌, ℕ, List, [], ◌∷◌, Option, Some, None, slice_get, slice_set, true, IfOk, OnOk, OnErr};
ghost use Rattle.std.specs.Option.{ForSome};
ghost use Rattle.vcompile.specs.Laws.{turns_behind};
ghost use Rattle.vdesign.specs.declared.action.Edge.TheVariants.{Any};
ghost use Rattle.vdesign.specs.declared.action.Term.TheVariants.{Change};
ghost use Rattle.vmodel.specs.InnerStep.{behind};
ghost use Rattle.vmodel.specs.Operands.{operand as operand_of};
ghost use Rattle.vmodel.specs.Step.{environment_of, frames, place_of, post_after};
ghost use Rattle.vcompile.specs.CodeOf.{code_of};
ghost use Rattle.vcompile.specs.Links as links;
ghost use Rattle.vflat.specs.Flat as spec;
ghost use Rattle.vflat.specs.Flat.{terms_told, told_of_event, flat_transition_of, flat_viewed, flat_next};
ghost use Rattle.vflat.specs.InnerFlat as inner;
ghost use Rattle.vflat.specs.Rows.{IsAfterRow, IsRow, form_effect, form_left};
ghost use Rattle.vmodel.specs.Effects.{no_effect};
ghost use Rattle.vflat.specs.InnerFlat.{IsNext, IsSilent, heard_by, told_of, write_and_wake, finish, with_left, with_move, place_process, held_view, flat_to};
ghost use Rattle.vcode.specs.Code.{Code as CodeOf};
ghost use Rattle.vdesign.specs.Design.{Design as DesignOf};
ghost use Rattle.vmodel.specs.Choices.{IsWithin};
ghost use Rattle.vmodel.specs.Inner.{variable_of};
ghost use Rattle.vmodel.specs.declared.part.Part.{Part as PartOf};

use crate::flat::Flat;
use crate::points::Points;
use crate::row::{Form, Row, row_of};
use crate::turns::Turns;
use basis::NoMemory;
use std::mem;
use vbits::Vec4;
use vcode::code::Code;
use vcode::listener::Listener;
use vcode::point::Point;
use vdesign::action::{Action, Edge};
use vdesign::design::Design;
use vmodel::choice::Choice;
use vmodel::effect::{Disposition, Effect, effect_at};
use vmodel::frame::Frame;
use vmodel::part::{Kept, Part, Parts};
use vmodel::values::{value_after, value_in};
use vmodel::{is_edge, is_print};
use vvalue::cases::turns_of;
use vvalue::environment::Environment;

/// What is told of a step to those who listen: how a variable changes, or that an event is triggered.
#[derive(Clone, Copy)]
pub(crate) enum News {
    Changed { old: Vec4, new: Vec4 },
    Triggered,
}

// Whether it is heard of this edge.
fn is_heard(news: News, edge: Edge) -> bool
    ensures { result ≡ inner.is_heard news edge }
{
    match news {
        News::Changed { old, new } => is_edge(edge, old, new),
        News::Triggered => true,
    }
}

// The value that a process holds, if it holds one (9.7.7).
fn held_by(held: &[Option<Vec4>], process: usize) -> Option<Vec4>
    ensures { result ≡ spec.held_by held.now process }
{
    match held.get(process) {
        Some(value) => *value,
        None => None,
    }
}

// From here on a process holds this, if it is there.
fn set_held(held: &mut [Option<Vec4>], process: usize, value: Option<Vec4>)
    ensures { held.new ≡ slice_set held.old process value }
{
    if process < held.len() {
        held[process] = value;
    }
}

// Whether a listener wakes.
fn wakes(news: &News, listener: &Listener, points: &Points) -> bool
    ensures { result
        ≡ spec.wakes_listener (inner.is_heard news.now listener.now.edge) listener.now points.now }
{
    if !is_heard(*news, listener.edge) {
        return false;
    }
    let point = points.at(listener.process as usize);
    point.is_same(Point::Waiting(listener.place))
}

/// The most places of a code.
const MOST: usize = 4_294_967_295;

// The number of a place in the code, which has at most 4,294,967,295; a larger one is cut to that.
fn place_number(place: usize) -> u32
    ensures { result ≡ links.place_number place }
{
    place.min(MOST) as u32
}

// The point of a frame.
fn numbered(frame: Frame) -> Point
    ensures { result ≡ spec.point_of_frame frame }
{
    match frame {
        Frame::Executing(place) => Point::Executing(place_number(place)),
        Frame::Repeating(place, _) => Point::Repeating(place_number(place)),
        Frame::Writing(place) => Point::Writing(place_number(place)),
    }
}

// What a process executes that stands at a point, if it executes something.
fn frame_at(code: &Code, turns: &[u64], point: Point) -> Option<Frame>
    ensures { result ≡ spec.frame_at code.now turns.now point }
{
    match point {
        Point::Ended => None,
        Point::Executing(place) => Some(Frame::Executing(place as usize)),
        Point::Repeating(place) => {
            let left = code.turns_at(turns, place as usize);
            Some(Frame::Repeating(place as usize, left))
        }
        Point::Writing(place) => Some(Frame::Writing(place as usize)),
        Point::Waiting(_) => None,
    }
}

// Where a process comes by a step at a place after which these places come, and then this frame.
fn comes_to(code: &Code, turns: &[u64], place: usize, next: &[usize], then: Option<Frame>) -> Point
    ensures { result ≡ spec.comes_to code.now turns.now place (frames next.now (behind then [])) }
{
    match next.split_first() {
        Some((first, _)) => Point::Executing(place_number(*first)),
        None => match then {
            Some(frame) => numbered(frame),
            None => code.next_point(turns, place),
        },
    }
}

// The process, where it has something left.
fn goes_from(process: u32, to: Point) -> Option<u32>
    requires { process < 256 }
    ensures goes { result ≡ spec.goes_from process to }
    ensures few { ForSome result (λ p. p < 256) }
{
    match to.place() {
        None => None,
        Some(_) => Some(process),
    }
}

// Where it stands then.
fn stands_by(disposition: Disposition, to: Point) -> Point
    ensures { result ≡ spec.stands_by disposition to }
{
    match disposition {
        Disposition::Runnable => to,
        Disposition::Delayed(_) => to,
        Disposition::Waiting(place) => match to.place() {
            None => to,
            Some(_) => Point::Waiting(place_number(place)),
        },
    }
}

// How many turns are left behind a step of the `repeat` at its place, where one stands there (9.6).
fn turns_left(frame: Frame, action: &Action, environment: &Environment<'_>) -> Option<u64>
    ensures { (code : CodeOf) (turns : List ℕ) → turns_behind code frame action.now environment.now turns
        ≡ with_left code (place_of frame) result turns }
{
    match action {
        Action::Repeat { count, .. } => match frame {
            Frame::Executing(_) => Some(turns_of(count, environment)),
            Frame::Repeating(_, turns) => Some(turns.saturating_sub(1)),
            Frame::Writing(_) => None,
        },
        _ => None,
    }
}

// So many turns are left at a place, if it is told how many.
fn set_left(code: &Code, turns: &mut Turns, place: usize, left: Option<u64>)
    ensures { turns.new ≡ with_left code.now place left turns.old }
{
    match left {
        None => {}
        Some(left) => turns.set(code, place, left),
    }
}

// What stands at a place of which it is told how many turns are left from now on.
#[tactic(auto, using(crate::proofs::PointLemmas::set_back))]
fn turns_before(code: &Code, turns: &[u64], place: usize, left: Option<u64>) -> Option<u64>
    ensures { with_left code.now place result (with_left code.now place left turns.now) ≡ turns.now }
{
    match left {
        None => None,
        Some(_) => Some(code.turns_at(turns, place)),
    }
}

// The operand of the action that a frame executes, where its code is known and its guards hold.
#[tactic(auto, using(crate::proofs::OperandLemmas::operand_known))]
fn operand_at(
    design: &Design,
    code: &Code,
    frame: Frame,
    action: &Action,
    environment: &Environment<'_>,
) -> Option<Vec4>
    requires code { code.now ≡ code_of design.now }
    requires there { slice_get design.now.actions (place_of frame) ≡ Some action.now }
    requires here { environment.now.variables ≡ design.now.variables }
    ensures exact { result ≡ inner.operand_of_frame code.now frame environment.now.values environment.now.time }
    ensures known { ForSome result (λ value. value ≡ operand_of environment.now action.now) }
{
    match frame {
        Frame::Executing(place) => code.operand(place, environment),
        Frame::Repeating(..) => None,
        Frame::Writing(_) => None,
    }
}

impl Flat {
    // A listener wakes its process, where it hears.
    #[tactic(auto, using(crate::proofs::FlatLemmas::wakes_now, crate::proofs::FlatLemmas::wakes_not))]
    fn wake_one(&mut self, code: &Code, news: &News, listener: &Listener)
        ensures { self.new ≡ heard_by code.now news.now (listener.now ∷ []) self.old }
    {
        if wakes(news, listener, &self.points) {
            let point = code.settle(self.turns.as_slice(), listener.resumes);
            self.points.set(listener.process as usize, point);
            self.rest.activate(listener.process);
        }
    }

    // All of a list do.
    #[tactic(auto, using(crate::proofs::FlatLemmas::heard_next))]
    fn wake_each(&mut self, code: &Code, news: &News, listeners: &[Listener])
        ensures { self.new ≡ heard_by code.now news.now listeners.now self.old }
    {
        for listener in listeners {
            self.wake_one(code, news, listener);
        }
    }

    // Those who listen to the variable of a part, where these parts are to be written. Where nobody does, no value is looked up.
    #[tactic(auto, using(crate::proofs::FlatLemmas::told_change, crate::proofs::FlatLemmas::told_nobody))]
    fn tell_change(&mut self, code: &Code, parts: &[Part], part: &Part)
        ensures { (triggered : Option ℕ) → self.new
            ≡ told_of code.now parts.now triggered (Change Any (variable_of part.now) ∷ []) self.old }
    {
        let variable = part.variable();
        let listeners = code.heard_by_variable(variable as usize);
        if listeners.split_first().is_none() {
            return;
        }
        let old = value_in(self.rest.values(), variable);
        let new = value_after(self.rest.values(), parts, variable);
        let news = News::Changed { old, new };
        self.wake_each(code, &news, listeners);
    }

    // Those who listen to the event that is triggered, if one is.
    #[tactic(auto, using(crate::proofs::FlatLemmas::told_event))]
    fn tell_event(&mut self, code: &Code, triggered: Option<usize>)
        ensures { (parts : List PartOf) → self.new
            ≡ told_of code.now parts triggered (told_of_event triggered) self.old }
    {
        match triggered {
            None => {}
            Some(event) => self.wake_each(code, &News::Triggered, code.heard_by_event(event)),
        }
    }

    // Those who listen to what these parts are to change, or to the event.
    #[tactic(auto, using(crate::proofs::FlatLemmas::told_next))]
    fn tell(&mut self, code: &Code, parts: &[Part], triggered: Option<usize>)
        ensures { self.new ≡ told_of code.now parts.now triggered (terms_told parts.now triggered) self.old }
    {
        for part in parts {
            self.tell_change(code, parts, part);
        }
        self.tell_event(code, triggered);
    }

    // The parts are written, and those wake who wait for what that changes, or for the event.
    fn write_parts(&mut self, code: &Code, parts: &[Part], triggered: Option<usize>)
        ensures { self.new ≡ write_and_wake code.now parts.now triggered self.old }
    {
        self.tell(code, parts, triggered);
        self.rest.write_parts(parts);
    }

    // One part is written, and those wake who wait for what it changes.
    #[tactic(auto, using(crate::proofs::FlatLemmas::wrote_nothing, crate::proofs::FlatLemmas::wrote_one))]
    fn write_one(&mut self, code: &Code, part: Part)
        ensures { self.new ≡ write_and_wake code.now (part ∷ []) None self.old }
    {
        let Some(change) = self.rest.write_part(part) else {
            return;
        };
        let news = News::Changed {
            old: change.old,
            new: change.new,
        };
        let listeners = code.heard_by_variable(change.variable as usize);
        self.wake_each(code, &news, listeners);
    }

    // What a step wrote is written, and those wake who wait for what that changes, or for the event that it triggers.
    fn write(&mut self, code: &Code, effect: &Effect)
        ensures { self.new ≡ write_and_wake code.now effect.now.wrote effect.now.triggered self.old }
    {
        let triggered = effect.triggered();
        match effect.wrote() {
            Kept::One(part) => match triggered {
                None => self.write_one(code, part),
                Some(_) => self.write_parts(code, &[part], triggered),
            },
            Kept::Many(parts) => self.write_parts(code, parts, triggered),
        }
    }

    // A process is placed that executed a frame, after which so many turns are left, these places come, and then this frame. After
    // want of memory all is as it was.
    fn place(
        &mut self,
        code: &Code,
        process: u32,
        frame: Frame,
        left: Option<u64>,
        next: &[usize],
        then: Option<Frame>,
        effect: &Effect,
    ) -> Result<(), NoMemory>
        requires { process < 256 }
        ensures ok { OnOk result
            (self.new ≡ place_process code.now process frame left next.now then effect.now self.old) }
        ensures err { OnErr result (self.new ≡ self.old) }
    {
        let place = frame.place();
        let before = turns_before(code, self.turns.as_slice(), place, left);
        set_left(code, &mut self.turns, place, left);
        let to = comes_to(code, self.turns.as_slice(), place, next, then);
        if let Err(error) = self.rest.move_by(process, effect, goes_from(process, to)) {
            set_left(code, &mut self.turns, place, before);
            return Err(error);
        }
        self.points
            .set(process as usize, stands_by(effect.disposition(), to));
        set_held(&mut self.held, process as usize, effect.held());
        Ok(())
    }

    // What the step wrote is written, it may end the run, and the regions move.
    fn finish(&mut self, code: &Code, effect: &Effect, monitors: &mut Vec<usize>)
        ensures { flat_to self.new effect.now monitors.new.items ≡ finish code.now effect.now self.old }
    {
        self.write(code, effect);
        self.rest.end_by(effect.cause());
        self.rest.close(monitors);
    }

    // A process goes on to a point, or has ended there.
    #[tactic(auto, using(crate::proofs::RowLemmas::moved_on))]
    fn go_to(&mut self, process: u32, to: Point)
        requires { process < 256 }
        ensures { self.new ≡ with_move process no_effect self.old.turns to self.old }
    {
        self.points.set(process as usize, to);
        set_held(&mut self.held, process as usize, None);
        self.rest.go_on(process, goes_from(process, to));
    }

    // It waits at a place, where something is left behind it, and goes on to a point then.
    #[tactic(auto, using(crate::proofs::RowLemmas::moved_to_wait))]
    fn wait_at(&mut self, process: u32, place: usize, to: Point)
        ensures { self.new ≡ with_move process (record no_effect { disposition = Disposition.Waiting place }) self.old.turns to self.old }
    {
        let point = stands_by(Disposition::Waiting(place), to);
        self.points.set(process as usize, point);
        set_held(&mut self.held, process as usize, None);
        self.rest.leave(process);
    }

    // It sleeps so long, and goes on to a point then. After want of memory all is as it was.
    #[tactic(auto, using(crate::proofs::RowLemmas::moved_to_sleep))]
    fn sleep_before(&mut self, process: u32, delay: u128, to: Point) -> Result<(), NoMemory>
        requires { process < 256 }
        ensures ok { OnOk result (self.new
            ≡ with_move process (record no_effect { disposition = Disposition.Delayed delay }) self.old.turns to self.old) }
        ensures err { OnErr result (self.new ≡ self.old) }
    {
        self.rest.sleep(process, delay, goes_from(process, to))?;
        self.points.set(process as usize, to);
        set_held(&mut self.held, process as usize, None);
        Ok(())
    }

    // One part is posted, and the process goes on to a point. After want of memory all is as it was.
    #[tactic(auto, using(crate::proofs::RowLemmas::moved_to_post))]
    fn post_before(&mut self, process: u32, part: Part, to: Point) -> Result<(), NoMemory>
        requires { process < 256 }
        ensures ok { OnOk result (self.new
            ≡ with_move process (record no_effect { posted = Some (post_after 0 (part ∷ [])) }) self.old.turns to self.old) }
        ensures err { OnErr result (self.new ≡ self.old) }
    {
        self.rest.post(Parts::one(part))?;
        self.go_to(process, to);
        Ok(())
    }

    // A process is placed that took a step of this form at a place, and comes to a point. After want of memory all is as it was; no form
    // that tells turns can run out of it.
    fn place_by_form(
        &mut self,
        process: u32,
        place: usize,
        form: Form,
        to: Point,
    ) -> Result<(), NoMemory>
        requires { process < 256 }
        ensures ok { OnOk result (self.new ≡ with_move process (form_effect place form) self.old.turns to self.old) }
        ensures err { OnErr result (self.new ≡ self.old) }
        ensures untold { OnErr result (form_left form ≡ None) }
    {
        match form {
            Form::Drive(_) | Form::Wait => self.wait_at(process, place, to),
            Form::Sleep(delay) => return self.sleep_before(process, delay, to),
            Form::Post(part) => return self.post_before(process, part, to),
            Form::Assign(_) | Form::Go | Form::Loop | Form::Turn(_) => self.go_to(process, to),
        }
        Ok(())
    }

    // What a step of this form wrote is written, and the regions move.
    fn finish_by_form(&mut self, code: &Code, form: Form, monitors: &mut Vec<usize>)
        ensures { (place : ℕ) → finish code.now (form_effect place form) self.old
            ≡ flat_to self.new (form_effect place form) monitors.new.items }
    {
        match form {
            Form::Assign(part) | Form::Drive(part) => self.write_one(code, part),
            _ => {}
        }
        self.rest.end_by(None);
        self.rest.close(monitors);
    }

    // The step of a row: one of this form, behind which these places come next. After want of memory all is as it was.
    fn run_row(
        &mut self,
        code: &Code,
        process: u32,
        frame: Frame,
        form: Form,
        next: &[usize],
        effect: &mut Effect,
        monitors: &mut Vec<usize>,
    ) -> Result<(), NoMemory>
        requires { process < 256 }
        ensures ok { OnOk result
            (IsAfterRow code.now process frame form next.now self.old effect.new self.new monitors.new.items) }
        ensures err { OnErr result (self.new ≡ self.old) }
        ensures err_monitors { OnErr result (monitors.new.items ≡ monitors.old.items) }
    {
        let place = frame.place();
        set_left(code, &mut self.turns, place, form.left());
        let to = comes_to(code, self.turns.as_slice(), place, next, form.then(place));
        self.place_by_form(process, place, form, to)?;
        *effect = form.effect(place);
        self.finish_by_form(code, form, monitors);
        Ok(())
    }

    // What a process executes, and the action there, if there is one.
    #[inline(always)]
    fn action_of<'d>(
        &self,
        design: &'d Design,
        code: &Code,
        process: u32,
    ) -> Option<(Frame, &'d Action)>
        ensures { IsNext design.now.actions (spec.frame_at code.now self.now.turns (spec.point_in self.now.points process)) result }
    {
        let frame = frame_at(
            code,
            self.turns.as_slice(),
            self.points.at(process as usize),
        )?;
        let action = design.actions.get(frame.place())?;
        Some((frame, action))
    }

    // What `operand_at` tells, in this flat state.
    fn operand(&self, design: &Design, code: &Code, frame: Frame, action: &Action) -> Option<Vec4>
        requires code { code.now ≡ code_of design.now }
        requires there { slice_get design.now.actions (place_of frame) ≡ Some action.now }
        ensures { ForSome result (λ value. value ≡ operand_of (environment_of design.now self.now.rest) action.now) }
    {
        operand_at(design, code, frame, action, &self.rest.environment(design))
    }

    // The row of the action that a frame is at, where it has one and the operand that it reads is known.
    fn row<'d>(
        &self,
        design: &Design,
        frame: Frame,
        action: &'d Action,
        operand: Option<Vec4>,
    ) -> Option<Row<'d>>
        requires { ForSome operand (λ value. value ≡ operand_of (environment_of design.now self.now.rest) action.now) }
        ensures { ForSome result (λ row. IsRow frame action.now (environment_of design.now self.now.rest) row.form row.next.now) }
    {
        row_of(frame, action, operand, &self.rest.environment(design))
    }

    // The step of an action that has no row, by what its effect says. After want of memory all is as it was.
    fn run_effect(
        &mut self,
        design: &Design,
        code: &Code,
        process: u32,
        frame: Frame,
        action: &Action,
        operand: Option<Vec4>,
        effect: &mut Effect,
        monitors: &mut Vec<usize>,
    ) -> Result<(), NoMemory>
        requires process { process < 256 }
        requires at { spec.frame_at code.now self.old.turns (spec.point_in self.old.points process) ≡ Some frame }
        requires there { slice_get design.now.actions (place_of frame) ≡ Some action.now }
        requires operand { ForSome operand (λ value. value ≡ operand_of (environment_of design.now self.old.rest) action.now) }
        ensures ok { OnOk result (flat_transition_of design.now code.now (Choice.Run process) self.old
            ≡ flat_to self.new effect.new monitors.new.items) }
        ensures err { OnErr result (self.new ≡ self.old) }
        ensures err_monitors { OnErr result (monitors.new.items ≡ monitors.old.items) }
    {
        let alloc = *self.held.allocator();
        let held = held_by(&self.held, process as usize);
        let environment = self.rest.environment(design);
        let course = effect_at(alloc, frame, action, held, operand, &environment, effect)?;
        let left = turns_left(frame, action, &environment);
        self.place(code, process, frame, left, course.next, course.then, effect)?;
        self.finish(code, effect, monitors);
        Ok(())
    }

    // A process takes one step.
    #[tactic(auto, using(crate::proofs::FlatLemmas::ran_nothing))]
    fn run(
        &mut self,
        design: &Design,
        code: &Code,
        process: u32,
        effect: &mut Effect,
        monitors: &mut Vec<usize>,
    ) -> Result<(), NoMemory>
        requires code { code.now ≡ code_of design.now }
        requires process { process < 256 }
        ensures ok { OnOk result (flat_transition_of design.now code.now (Choice.Run process) self.old
            ≡ flat_to self.new effect.new monitors.new.items) }
        ensures err { OnErr result (self.new ≡ self.old) }
        ensures err_monitors { OnErr result (monitors.new.items ≡ monitors.old.items) }
    {
        let Some((frame, action)) = self.action_of(design, code, process) else {
            self.rest.stay(effect, monitors);
            return Ok(());
        };
        let operand = self.operand(design, code, frame, action);
        // A copy, as both ways take it by value.
        let known = operand;
        match self.row(design, frame, action, known) {
            Some(row) => self.run_row(code, process, frame, row.form, row.next, effect, monitors),
            None => {
                self.run_effect(
                    design, code, process, frame, action, operand, effect, monitors,
                )
            }
        }
    }

    // The first activated update is written (11.4.1).
    fn update(&mut self, code: &Code, effect: &mut Effect, monitors: &mut Vec<usize>)
        ensures { (design : DesignOf) → flat_transition_of design code.now Choice.Update self.old
            ≡ flat_to self.new effect.new monitors.new.items }
    {
        *effect = Effect::of_write(self.rest.take_update());
        self.write(code, effect);
        self.rest.close(monitors);
    }

    // The time goes on to the next future time.
    fn advance(&mut self, effect: &mut Effect, monitors: &mut Vec<usize>)
        ensures { (design : DesignOf) (code : CodeOf) → flat_transition_of design code Choice.Advance self.old
            ≡ flat_to self.new effect.new monitors.new.items }
    {
        self.rest.advance(effect, monitors);
    }

    // The step of a choice, without what is held back from now on and the lines of the slot.
    fn take(
        &mut self,
        design: &Design,
        code: &Code,
        choice: Choice,
        effect: &mut Effect,
        monitors: &mut Vec<usize>,
    ) -> Result<(), NoMemory>
        requires code { code.now ≡ code_of design.now }
        requires within { IsWithin choice }
        ensures ok { OnOk result (flat_transition_of design.now code.now choice self.old
            ≡ flat_to self.new effect.new monitors.new.items) }
        ensures err { OnErr result (self.new ≡ self.old) }
        ensures err_monitors { OnErr result (monitors.new.items ≡ monitors.old.items) }
    {
        match choice {
            Choice::Run(process) => self.run(design, code, process, effect, monitors),
            Choice::Update => {
                self.update(code, effect, monitors);
                Ok(())
            }
            Choice::Advance => {
                self.advance(effect, monitors);
                Ok(())
            }
        }
    }

    // The same of choice `i`, which is this one, with what is held back from now on.
    fn take_holding(
        &mut self,
        design: &Design,
        code: &Code,
        i: u32,
        choice: Choice,
        effect: &mut Effect,
        monitors: &mut Vec<usize>,
    ) -> Result<(), NoMemory>
        requires code { code.now ≡ code_of design.now }
        requires within { IsWithin choice }
        ensures ok { OnOk result (held_view self.old i choice (flat_transition_of design.now code.now choice self.old)
            ≡ flat_to self.new effect.new monitors.new.items) }
        ensures err { OnErr result (self.new ≡ self.old) }
        ensures err_monitors { OnErr result (monitors.new.items ≡ monitors.old.items) }
    {
        let held = self.rest.held_with(i, choice);
        self.take(design, code, choice, effect, monitors)?;
        self.rest.hold(held);
        Ok(())
    }

    // Whether the choice is of a process that comes to a print task.
    fn is_at_print(&self, design: &Design, code: &Code, choice: Choice) -> bool
        ensures { result ≡ inner.is_at_print design.now code.now choice self.now }
    {
        let Choice::Run(process) = choice else {
            return false;
        };
        match self.action_of(design, code, process) {
            None => false,
            Some((_, action)) => is_print(action),
        }
    }

    // Whether the step of a choice is sure to print nothing: it is of no print task, and no monitor event waits.
    fn is_silent(&self, design: &Design, code: &Code, choice: Choice) -> bool
        ensures { result ≡ true → IsSilent design.now code.now choice self.now }
    {
        if self.is_at_print(design, code, choice) {
            return false;
        }
        self.rest.has_no_strobe()
    }

    // The same of a choice that prints nothing, with the lines of the slot.
    fn take_silent(
        &mut self,
        design: &Design,
        code: &Code,
        i: u32,
        choice: Choice,
        effect: &mut Effect,
        monitors: &mut Vec<usize>,
    ) -> Result<(), NoMemory>
        requires code { code.now ≡ code_of design.now }
        requires within { IsWithin choice }
        requires silent { IsSilent design.now code.now choice self.old }
        ensures ok { OnOk result (flat_viewed design.now self.old i choice (flat_transition_of design.now code.now choice self.old)
            ≡ flat_to self.new effect.new monitors.new.items) }
        ensures err { OnErr result (self.new ≡ self.old) }
        ensures err_monitors { OnErr result (monitors.new.items ≡ monitors.old.items) }
    {
        self.take_holding(design, code, i, choice, effect, monitors)?;
        self.rest.print_nothing(choice);
        Ok(())
    }

    // The same, with the lines of the slot, taken by a copy.
    #[tactic(auto, using(crate::proofs::FlatLemmas::with_lines_too))]
    fn take_printing(
        &mut self,
        design: &Design,
        code: &Code,
        i: u32,
        choice: Choice,
        effect: &mut Effect,
        monitors: &mut Vec<usize>,
    ) -> Result<(), NoMemory>
        requires code { code.now ≡ code_of design.now }
        requires within { IsWithin choice }
        ensures ok { OnOk result (flat_viewed design.now self.old i choice (flat_transition_of design.now code.now choice self.old)
            ≡ flat_to self.new effect.new monitors.new.items) }
        ensures err { OnErr result (self.new ≡ self.old) }
        ensures err_monitors { OnErr result (monitors.new.items ≡ monitors.old.items) }
    {
        let alloc = *self.held.allocator();
        let mut after = self.copy(alloc)?;
        let mut ran = Vec::new(alloc);
        after.take_holding(design, code, i, choice, effect, &mut ran)?;
        after.rest.print(design, choice, effect, &ran)?;
        mem::swap(self, &mut after);
        mem::swap(monitors, &mut ran);
        Ok(())
    }

    // The step of choice `i`, which is this one, where departures may hold back or lines are looked at.
    #[tactic(auto, using(crate::proofs::FlatLemmas::no_lines))]
    #[inline(never)]
    fn take_viewed(
        &mut self,
        design: &Design,
        code: &Code,
        i: u32,
        choice: Choice,
        effect: &mut Effect,
        monitors: &mut Vec<usize>,
    ) -> Result<(), NoMemory>
        requires code { code.now ≡ code_of design.now }
        requires within { IsWithin choice }
        ensures ok { OnOk result (flat_viewed design.now self.old i choice (flat_transition_of design.now code.now choice self.old)
            ≡ flat_to self.new effect.new monitors.new.items) }
        ensures err { OnErr result (self.new ≡ self.old) }
        ensures err_monitors { OnErr result (monitors.new.items ≡ monitors.old.items) }
    {
        match self.rest.printed() {
            None => self.take_holding(design, code, i, choice, effect, monitors),
            Some(_) if self.is_silent(design, code, choice) => {
                self.take_silent(design, code, i, choice, effect, monitors)
            }
            Some(_) => self.take_printing(design, code, i, choice, effect, monitors),
        }
    }

    /// The step of choice `i`, in place, as `State::step_into` has it, by the code of the design.
    #[tactic(auto, using(crate::proofs::FlatLemmas::plain_step))]
    pub fn step_into(
        &mut self,
        design: &Design,
        code: &Code,
        i: u32,
        effect: &mut Effect,
        monitors: &mut Vec<usize>,
    ) -> Result<(), NoMemory>
        requires code { code.now ≡ code_of design.now }
        ensures ok { OnOk result (flat_next design.now code.now self.old i ≡ flat_to self.new effect.new monitors.new.items) }
        ensures err { OnErr result (self.new ≡ self.old) }
        ensures err_monitors { OnErr result (monitors.new.items ≡ monitors.old.items) }
    {
        let Some(choice) = self.rest.choice(i) else {
            self.rest.stay(effect, monitors);
            return Ok(());
        };
        match (self.rest.held_back(), self.rest.printed()) {
            (None, None) => self.take(design, code, choice, effect, monitors),
            _ => self.take_viewed(design, code, i, choice, effect, monitors),
        }
    }

    /// The same, where nobody asks what the step did.
    pub fn go(&mut self, design: &Design, code: &Code, i: u32) -> Result<(), NoMemory>
        requires code { code.now ≡ code_of design.now }
        ensures ok { OnOk result (self.new ≡ (flat_next design.now code.now self.old i).flat) }
        ensures err { OnErr result (self.new ≡ self.old) }
    {
        let mut effect = Effect::none();
        let mut monitors = Vec::new(*self.held.allocator());
        self.step_into(design, code, i, &mut effect, &mut monitors)
    }

    /// Lists of updates give back their room, where it is for more than four that aren't there; what the state holds is as it was.
    pub fn shrink_to_fit(&mut self)
        ensures { self.new ≡ self.old }
    {
        self.rest.shrink_to_fit();
    }
}
