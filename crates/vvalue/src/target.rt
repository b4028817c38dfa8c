// What an assignment writes to (IEEE 1364-2005, 5.1.14, 5.2.1, 6.2).

ghost use Rattle.std.specs.Prelude.{◌≡◌, ◌≤◌, min, length};
ghost use Rattle.vvalue.specs.Targets as spec;
ghost use Rattle.vvalue.specs.Value.{part_size as size_of_part};

use crate::asked::self_determined_value;
use crate::environment::{Environment, bounds_of, value_at};
use crate::select::{index_in, part_size, place_in};
use vdesign::action::Target;
use vdesign::expression::{Bounds, Expression};

/// One more than the most bits of a value.
const TOO_WIDE: u32 = 65;

/// How many bits a target has.
pub fn target_size(target: &Target, environment: &Environment<'_>) -> u32
    ensures exact { result ≡ spec.target_size environment.now target.now }
    ensures some { 1 ≤ result }
    ensures few { result ≤ 64 }
{
    match target {
        Target::Whole(variable) => value_at(environment, *variable).len(),
        Target::Bit { .. } => 1,
        Target::Part { bounds, .. } => part_size(*bounds),
    }
}

/// How many bits the targets of a concatenation have together; 65 where they have more than 64.
pub fn targets_size(targets: &[Target], environment: &Environment<'_>) -> u32
    ensures { result ≡ min 65 (spec.targets_size environment.now targets.now) }
{
    let mut size = 0;
    for target in targets {
        size = (size + target_size(target, environment)).min(TOO_WIDE);
    }
    size
}

/// How far the bit of this index stands from the rightmost of a variable, where there is one.
pub fn place_at(environment: &Environment<'_>, variable: u32, index: &Expression) -> Option<u64>
    ensures { result ≡ spec.place_at environment.now variable index.now }
{
    match index_in(self_determined_value(index, environment)) {
        None => None,
        Some(number) => place_in(bounds_of(environment, variable), number),
    }
}

/// Whether numbers fall from left to right in what is declared and in a part of it; a single bit is in both orders.
pub fn both_fall(declared: Bounds, selected: Bounds) -> bool
    ensures { result ≡ spec.both_fall declared selected }
{
    declared.right <= declared.left && selected.right <= selected.left
}

/// How far the bit of one number stands to the left of that of another, where numbers fall from left to right or rise; 0 where it
/// doesn't.
pub fn leftwards(falling: bool, number: u32, from: u32) -> u32
    ensures { result ≡ spec.leftwards falling number from }
{
    if falling {
        number.saturating_sub(from)
    } else {
        from.saturating_sub(number)
    }
}

/// The variable that a target is of.
pub fn variable_of(target: &Target) -> u32
    ensures { result ≡ spec.variable_of target.now }
{
    match target {
        Target::Whole(variable) => *variable,
        Target::Bit { variable, .. } => *variable,
        Target::Part { variable, .. } => *variable,
    }
}

/// Bits of a variable that stand side by side: how far the rightmost stands from the variable's rightmost, and how many they are.
#[derive(Clone, Copy)]
pub struct Span {
    pub low: u32,
    pub count: u32,
}

// How many bits a variable has; 0 where there is none.
fn variable_size(environment: &Environment<'_>, variable: u32) -> u32
    ensures { result ≡ spec.variable_size environment.now variable }
{
    match environment.values.get(variable as usize) {
        None => 0,
        Some(value) => value.len(),
    }
}

// Of so many bits from a place on those that a variable of this size has.
fn within(size: u32, low: u32, count: u32) -> Span
    ensures { result ≡ spec.within size low count }
{
    Span {
        low,
        count: count.min(size.saturating_sub(low)),
    }
}

// The bit at a place, if the variable has it.
fn span_at(size: u32, place: Option<u64>) -> Span
    ensures { result ≡ spec.span_at size place }
{
    match place {
        Some(place) if place < u64::from(size) => Span {
            low: place as u32,
            count: 1,
        },
        _ => Span { low: 0, count: 0 },
    }
}

/// The bits of its variable that a target stands for (5.2.1); those that the variable hasn't are left out.
pub fn span_of(target: &Target, environment: &Environment<'_>) -> Span
    ensures { result ≡ spec.span_of environment.now target.now }
{
    match target {
        Target::Whole(variable) => Span {
            low: 0,
            count: variable_size(environment, *variable),
        },
        Target::Bit { variable, index } => span_at(
            variable_size(environment, *variable),
            place_at(environment, *variable, index),
        ),
        Target::Part { variable, bounds } => {
            let declared = bounds_of(environment, *variable);
            let falling = both_fall(declared, *bounds);
            within(
                variable_size(environment, *variable),
                leftwards(falling, bounds.right, declared.right),
                part_size(*bounds).saturating_sub(leftwards(falling, declared.right, bounds.right)),
            )
        }
    }
}
