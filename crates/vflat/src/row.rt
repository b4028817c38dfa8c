// Rows: what the steps of the most frequent actions do, told before they are taken (IEEE 1364-2005, 6.1, 9.2, 9.4, 9.6, 9.7). A row is
// what the table of steps has for an action (docs/SCHEDULING.md, "Steps").

ghost use Rattle.std.specs.Prelude.{◌≡◌, Some, ◌∷◌, []};
ghost use Rattle.std.specs.Option.{ForSome};
ghost use Rattle.vmodel.specs.Operands.{operand as operand_at};
ghost use Rattle.vmodel.specs.Value.{resumed_parts};
ghost use Rattle.vflat.specs.Rows as spec;

use vbits::Vec4;
use vdesign::action::{Action, Places, Target, Targets};
use vmodel::effect::{Disposition, Effect};
use vmodel::frame::Frame;
use vmodel::part::{Part, Parts};
use vmodel::value::whole_part;
use vvalue::asked::{delay_by, is_true};
use vvalue::cases::turns_by;
use vvalue::environment::Environment;

/// What the step of a frequent action does, but for the places that come next.
#[derive(Clone, Copy)]
pub(crate) enum Form {
    /// It writes one part (9.2.1).
    Assign(Part),
    /// It writes one part, waits at its place, and comes again (6.1).
    Drive(Part),
    /// It posts an update of one part for the current time (9.2.2).
    Post(Part),
    /// It goes on (9.4).
    Go,
    /// It goes on, and then comes again (9.6).
    Loop,
    /// So many turns are left behind it (9.6).
    Turn(u64),
    /// It waits at its place: `@(..)` (9.7.2), not `wait`.
    Wait,
    /// It sleeps so long, in units of the precision (9.7.1).
    Sleep(u128),
}

/// What the step of a frequent action does, and the places that come next.
#[derive(Clone, Copy)]
pub(crate) struct Row<'d> {
    pub(crate) form: Form,
    pub(crate) next: &'d [usize],
}

// A step of this form, behind which no other place comes next.
fn alone<'d>(form: Form) -> Row<'d>
    ensures form { result.form ≡ form }
    ensures next { result.next.now ≡ [] }
{
    Row { form, next: &[] }
}

// A step of this form, behind which these places come next.
fn before<'d>(form: Form, places: &'d Places) -> Row<'d>
    ensures form { result.form ≡ form }
    ensures next { result.next.now ≡ places.now }
{
    Row {
        form,
        next: places.as_slice(),
    }
}

impl Form {
    /// How many turns are left behind the step, where it is told.
    pub(crate) fn left(&self) -> Option<u64>
        ensures { result ≡ spec.form_left self.now }
    {
        match *self {
            Form::Turn(left) => Some(left),
            _ => None,
        }
    }

    /// What comes behind the places that come next.
    pub(crate) fn then(&self, place: usize) -> Option<Frame>
        ensures { result ≡ spec.form_then place self.now }
    {
        match *self {
            Form::Drive(_) | Form::Loop => Some(Frame::Executing(place)),
            Form::Turn(left) => frame_of_turns(place, left),
            _ => None,
        }
    }

    /// What the step does, at a place.
    pub(crate) fn effect(&self, place: usize) -> Effect
        ensures { result ≡ spec.form_effect place self.now }
    {
        match *self {
            Form::Assign(part) => Effect::of_write(Parts::one(part)),
            Form::Drive(part) => Effect::of_drive(Parts::one(part), place),
            Form::Post(part) => Effect::of_post(Parts::one(part)),
            Form::Wait => Effect::of_suspend(Disposition::Waiting(place)),
            Form::Sleep(delay) => Effect::of_suspend(Disposition::Delayed(delay)),
            Form::Go | Form::Loop | Form::Turn(_) => Effect::none(),
        }
    }
}

// The turns of a `repeat` that are left, if any are (9.6).
fn frame_of_turns(place: usize, left: u64) -> Option<Frame>
    ensures { result ≡ spec.turns_frame place left }
{
    if left == 0 {
        None
    } else {
        Some(Frame::Repeating(place, left))
    }
}

// The part that targets get of a value, where they are one whole variable.
fn whole_of(targets: &Targets, value: Vec4, environment: &Environment<'_>) -> Option<Part>
    ensures { ForSome result (λ part. resumed_parts environment.now targets.now (Some value) ≡ part ∷ []) }
{
    let (target, more) = targets.as_slice().split_first()?;
    if !more.is_empty() {
        return None;
    }
    match target {
        Target::Whole(variable) => Some(whole_part(*variable, value, environment)),
        Target::Bit { .. } => None,
        Target::Part { .. } => None,
    }
}

// The row of an assignment of this value, where its target is one whole variable.
fn row_of_assignment<'d>(
    action: &'d Action,
    operand: Vec4,
    environment: &Environment<'_>,
) -> Option<Row<'d>>
    requires { operand ≡ operand_at environment.now action.now }
    ensures { ForSome result (spec.IsRowAt action.now environment.now) }
{
    match action {
        Action::Assign { targets, .. } => {
            let part = whole_of(targets, operand, environment)?;
            Some(alone(Form::Assign(part)))
        }
        Action::Nonblocking { targets, .. } => {
            let part = whole_of(targets, operand, environment)?;
            Some(alone(Form::Post(part)))
        }
        Action::ContinuousAssign { targets, .. } => {
            let part = whole_of(targets, operand, environment)?;
            Some(alone(Form::Drive(part)))
        }
        _ => None,
    }
}

// The row of the action at a place, where it has one and this is its operand.
fn row_by_operand<'d>(
    action: &'d Action,
    operand: Vec4,
    environment: &Environment<'_>,
) -> Option<Row<'d>>
    requires { operand ≡ operand_at environment.now action.now }
    ensures { ForSome result (spec.IsRowAt action.now environment.now) }
{
    match action {
        Action::Test {
            when_true,
            otherwise,
            ..
        } => {
            let places = if is_true(operand) {
                when_true
            } else {
                otherwise
            };
            Some(before(Form::Go, places))
        }
        Action::Repeat { .. } => Some(alone(Form::Turn(turns_by(operand)))),
        Action::Delay { body, .. } => {
            Some(before(Form::Sleep(delay_by(operand, environment)), body))
        }
        _ => row_of_assignment(action, operand, environment),
    }
}

// The row of the action at a place, where it has one: its operand is known, or it has none.
fn row_at<'d>(
    action: &'d Action,
    operand: Option<Vec4>,
    environment: &Environment<'_>,
) -> Option<Row<'d>>
    requires { ForSome operand (λ value. value ≡ operand_at environment.now action.now) }
    ensures { ForSome result (spec.IsRowAt action.now environment.now) }
{
    match action {
        Action::Forever { body } => Some(before(Form::Loop, body)),
        Action::EventControl { body, .. } => Some(before(Form::Wait, body)),
        _ => row_by_operand(action, operand?, environment),
    }
}

// The row of a turn of the action at a place, of which so many are left.
fn row_of_turn<'d>(action: &'d Action, turns: u64) -> Option<Row<'d>>
    ensures { ForSome result (spec.IsRowOfTurn action.now turns) }
{
    match action {
        Action::Repeat { body, .. } => Some(before(Form::Turn(turns.saturating_sub(1)), body)),
        _ => None,
    }
}

/// The row of the action that a frame is at, where it has one and the operand that it reads is known.
pub(crate) fn row_of<'d>(
    frame: Frame,
    action: &'d Action,
    operand: Option<Vec4>,
    environment: &Environment<'_>,
) -> Option<Row<'d>>
    requires { ForSome operand (λ value. value ≡ operand_at environment.now action.now) }
    ensures { ForSome result (λ row. spec.IsRow frame action.now environment.now row.form row.next.now) }
{
    match frame {
        Frame::Executing(_) => row_at(action, operand, environment),
        Frame::Repeating(_, turns) => row_of_turn(action, turns),
        Frame::Writing(_) => None,
    }
}
