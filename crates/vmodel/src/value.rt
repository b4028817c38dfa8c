// What assignments write (IEEE 1364-2005, 5.1.14, 5.2.1, 5.4.1, 6.2).

ghost use Rattle.std.specs.Prelude.{◌≡◌, ◌≤◌, [], ◌∷◌, ◌++◌, IfOk, OnOk, min, length};
ghost use Rattle.std.specs.Option.{option_to_list};
ghost use Rattle.vdesign.specs.declared.action.Target.{Target};
ghost use Rattle.vvalue.specs.Targets.{target_size as size_of, targets_size as size_of_all};
ghost use Rattle.vmodel.specs.Value as spec;

use crate::part::{Part, Parts};
use basis::NoMemory;
use std::alloc::Global;
use vbits::Vec4;
use vdesign::action::{Target, Targets};
use vdesign::expression::{Bounds, Expression};
use vvalue::asked::right_side;
use vvalue::environment::{Environment, bounds_of, value_at};
use vvalue::target::{both_fall, leftwards, place_at, target_size, targets_size};

/// The most bits of a value.
const WIDEST: u32 = 64;

// Of letters for the bits from a place on, as many as the variable has.
fn bits_from(variable: u32, old: Vec4, low: u32, value: Vec4) -> Option<Part>
    ensures { option_to_list result ≡ spec.bits_from variable old low value.letters }
{
    if low >= old.len() {
        return None;
    }
    let count = value.len().min(old.len() - low);
    Some(Part::Bits {
        variable,
        low,
        value: value.select(count - 1, 0),
    })
}

// The same, where the place is known.
fn bits_at(variable: u32, old: Vec4, place: Option<u64>, value: Vec4) -> Option<Part>
    ensures { option_to_list result ≡ spec.bits_at variable old place value.letters }
{
    let place = place?;
    if place >= u64::from(old.len()) {
        return None;
    }
    bits_from(variable, old, place as u32, value)
}

// What a part of a variable gets of its letters.
fn bits_of(
    variable: u32,
    selected: Bounds,
    value: Vec4,
    environment: &Environment<'_>,
) -> Option<Part>
    ensures { option_to_list result
        ≡ spec.parts_of environment.now (Target.Part variable selected) value.letters }
{
    let bounds = bounds_of(environment, variable);
    let falling = both_fall(bounds, selected);
    let missing = leftwards(falling, bounds.right, selected.right);
    if missing >= value.len() {
        return None;
    }
    let low = leftwards(falling, selected.right, bounds.right);
    let letters = value.select(value.len() - 1, missing);
    bits_from(variable, value_at(environment, variable), low, letters)
}

// What a target gets of its letters.
fn part_of(target: &Target, value: Vec4, environment: &Environment<'_>) -> Option<Part>
    ensures { option_to_list result ≡ spec.parts_of environment.now target.now value.letters }
{
    match target {
        Target::Whole(variable) => Some(Part::Whole {
            variable: *variable,
            value: value.with_sign(value_at(environment, *variable).signed()),
        }),
        Target::Bit { variable, index } => {
            let place = place_at(environment, *variable, index);
            bits_at(*variable, value_at(environment, *variable), place, value)
        }
        Target::Part { variable, bounds } => bits_of(*variable, *bounds, value, environment),
    }
}

// What one target gets of a value of any size, which is cut or extended to its bits.
fn given_one(target: &Target, value: Vec4, environment: &Environment<'_>) -> Parts
    ensures { result ≡ spec.resumed_parts environment.now (target.now ∷ []) (Some value) }
{
    let letters = value.resize(target_size(target, environment));
    Parts::optional(part_of(target, letters, environment))
}

/// What a whole variable gets of a value of any size, which is cut or extended to its bits (6.2).
pub fn whole_part(variable: u32, value: Vec4, environment: &Environment<'_>) -> Part
    ensures { spec.resumed_parts environment.now (Target.Whole variable ∷ []) (Some value) ≡ result ∷ [] }
{
    let old = value_at(environment, variable);
    Part::Whole {
        variable,
        value: value.resize(old.len()).with_sign(old.signed()),
    }
}

// Puts a part behind others, where there is one.
fn put_part(parts: &mut Vec<Part>, part: Option<Part>) -> Result<(), NoMemory>
    ensures { OnOk result (parts.new.items ≡ parts.old.items ++ option_to_list part) }
{
    if let Some(part) = part {
        parts.push(part)?;
    }
    Ok(())
}

// Each target gets as many letters as it has bits.
fn shared_parts(
    alloc: Global,
    targets: &[Target],
    value: Vec4,
    environment: &Environment<'_>,
) -> Result<Vec<Part>, NoMemory>
    requires { length value.letters ≡ size_of_all environment.now targets.now }
    ensures { IfOk result (λ parts. parts.items ≡ spec.shared_parts environment.now targets.now
        value.letters) }
{
    let mut parts = Vec::new(alloc);
    let mut behind = value.len();
    for target in targets {
        let size = target_size(target, environment);
        behind -= size;
        let letters = value.select(behind + size - 1, behind);
        put_part(&mut parts, part_of(target, letters, environment))?;
    }
    Ok(parts)
}

/// The value of the right side of an assignment, at the bits of its targets; a suspended one holds it (5.5.3, 9.7.7).
pub(crate) fn held_value(
    targets: &Targets,
    expression: &Expression,
    environment: &Environment<'_>,
) -> Vec4
    ensures { result ≡ spec.held_value environment.now targets.now expression.now }
{
    let size = targets_size(targets.as_slice(), environment)
        .min(WIDEST)
        .max(1);
    right_side(expression, size, environment)
}

// What several targets of so many bits together get of a value of any size (5.1.14).
#[tactic(auto, using(crate::proofs::PartLemmas::none_held, crate::proofs::PartLemmas::held_is, crate::proofs::PartLemmas::held_length))]
fn given_all(
    alloc: Global,
    targets: &[Target],
    size: u32,
    value: Vec4,
    environment: &Environment<'_>,
) -> Result<Parts, NoMemory>
    requires some { 1 ≤ size }
    requires exact { min 65 size ≡ min 65 (size_of_all environment.now targets.now) }
    ensures { IfOk result (λ parts. parts ≡ spec.resumed_parts environment.now targets.now (Some value)) }
{
    if size > WIDEST {
        return Ok(Parts::none());
    }
    Parts::of_list(shared_parts(alloc, targets, value.resize(size), environment)?)
}

/// What targets get of a value of any size, which is cut or extended to the bits of all of them (5.1.14, 6.2). E901 is the only refusal.
pub(crate) fn given_parts(
    alloc: Global,
    targets: &Targets,
    value: Vec4,
    environment: &Environment<'_>,
) -> Result<Parts, NoMemory>
    ensures { IfOk result (λ parts. parts ≡ spec.resumed_parts environment.now targets.now (Some value)) }
{
    let targets = targets.as_slice();
    let Some((target, more)) = targets.split_first() else {
        return Ok(Parts::none());
    };
    if more.is_empty() {
        return Ok(given_one(target, value, environment));
    }
    let size = target_size(target, environment) + targets_size(more, environment);
    given_all(alloc, targets, size, value, environment)
}

/// The parts that a suspended assignment writes of the value that it holds, if it holds one, to its targets as they are now (9.7.7).
pub(crate) fn resumed_parts(
    alloc: Global,
    targets: &Targets,
    held: Option<Vec4>,
    environment: &Environment<'_>,
) -> Result<Parts, NoMemory>
    ensures { IfOk result (λ parts. parts ≡ spec.resumed_parts environment.now targets.now held) }
{
    match held {
        None => Ok(Parts::none()),
        Some(value) => given_parts(alloc, targets, value, environment),
    }
}
