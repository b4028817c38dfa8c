// What `case` and `repeat` ask of expressions (IEEE 1364-2005, 9.5, 9.6).

ghost use Rattle.std.specs.Prelude.{◌≡◌, length};
ghost use Rattle.vbits.specs.Letters as letters;
ghost use Rattle.vvalue.specs.Cases as spec;
ghost use Rattle.vvalue.specs.Value as values;
ghost use Rattle.vdesign.specs.Expressions.{ExpressionTree};
ghost use Rattle.vvalue.specs.Fits.{IsWithin};
ghost use Rattle.vvalue.specs.Value.{self_determined as own_size_and_sign, value_of as value_there};

use crate::asked::self_determined_value;
use crate::environment::Environment;
use crate::select::is_negative;
use crate::size::self_determined;
use crate::size_and_sign::{SizeAndSign, common};
use crate::value::value_of;
use vbits::{Bit4, Vec4};
use vdesign::action::{Branch, Branches, Places};
use vdesign::expression::Expression;
use vwords::cases::CaseKind;

// Whether a letter counts as any letter (9.5.1).
fn is_any(kind: CaseKind, letter: Bit4) -> bool
    ensures { result ≡ spec.is_any kind letter }
{
    match kind {
        CaseKind::Exact => false,
        CaseKind::Z => letter.is_z(),
        CaseKind::X => letter.is_unknown(),
    }
}

fn is_same(letter: Bit4, other: Bit4) -> bool
    ensures { result ≡ letters.is_same letter other }
{
    match (letter, other) {
        (Bit4::Zero, Bit4::Zero) => true,
        (Bit4::One, Bit4::One) => true,
        (Bit4::X, Bit4::X) => true,
        (Bit4::Z, Bit4::Z) => true,
        _ => false,
    }
}

fn passes(kind: CaseKind, letter: Bit4, other: Bit4) -> bool
    ensures { result ≡ spec.passes kind letter other }
{
    is_any(kind, letter) || is_any(kind, other) || is_same(letter, other)
}

// Whether the value of a `case` and that of an item match.
#[tactic(auto, unfolding(crate::specs::Cases::matches))]
fn matches(kind: CaseKind, value: Vec4, item: Vec4) -> bool
    requires { length value.letters ≡ length item.letters }
    ensures { result ≡ spec.matches kind value item }
{
    let len = value.len();
    let mut i = 0;
    while i < len {
        if !passes(kind, value.bit(i), item.bit(i)) {
            return false;
        }
        i += 1;
    }
    true
}

// What an expression stands in by itself.
fn size_and_sign_of(expression: &Expression, environment: &Environment<'_>) -> SizeAndSign
    ensures exact { result ≡ own_size_and_sign environment.now expression.now }
    ensures within { IsWithin result }
{
    self_determined(expression.nodes(), environment).0
}

// The value of an expression where it stands.
fn value_at(expression: &Expression, environment: &Environment<'_>, here: SizeAndSign) -> Vec4
    requires { IsWithin here }
    ensures exact { result ≡ value_there environment.now expression.now here }
    ensures len { length result.letters ≡ here.size }
{
    value_of(expression.nodes(), environment, here).0
}

// What all expressions of a `case` stand in.
fn case_size_and_sign(
    value: &Expression,
    branches: &[Branch],
    environment: &Environment<'_>,
) -> SizeAndSign
    ensures exact { result ≡ spec.case_size_and_sign environment.now value.now branches.now }
    ensures within { IsWithin result }
{
    let mut here = size_and_sign_of(value, environment);
    for branch in branches {
        here = common(here, size_and_sign_of(&branch.item, environment));
    }
    here
}

// What comes next, where the value of a `case` is known.
fn places_at<'d>(
    kind: CaseKind,
    value: Vec4,
    branches: &'d [Branch],
    otherwise: &'d Places,
    environment: &Environment<'_>,
    here: SizeAndSign,
) -> &'d [usize]
    requires within { IsWithin here }
    requires len { length value.letters ≡ here.size }
    ensures { result.now
        ≡ spec.places_at environment.now kind here value branches.now otherwise.now }
{
    for branch in branches {
        if matches(kind, value, value_at(&branch.item, environment, here)) {
            return branch.body.as_slice();
        }
    }
    otherwise.as_slice()
}

/// What comes next by a `case`: the places of the first branch whose item matches the value, or those of its `default`. All
/// expressions stand at the longest of their sizes, signed where all are (9.5).
#[tactic(auto, unfolding(crate::specs::Cases::places_of_case))]
pub fn places_of_case<'d>(
    kind: CaseKind,
    value: &Expression,
    branches: &'d Branches,
    otherwise: &'d Places,
    environment: &Environment<'_>,
) -> &'d [usize]
    ensures { result.now
        ≡ spec.places_of_case environment.now kind value.now branches.now otherwise.now }
{
    let branches = branches.as_slice();
    let here = case_size_and_sign(value, branches, environment);
    places_at(
        kind,
        value_at(value, environment, here),
        branches,
        otherwise,
        environment,
        here,
    )
}

// How many turns a count stands for.
fn turns_in(count: Vec4) -> u64
    ensures { result ≡ spec.turns_in count }
{
    if is_negative(count) {
        0
    } else {
        count.to_u64().unwrap_or(0)
    }
}

/// How many turns a `repeat` makes whose count has this value: by its own sign; one that is unknown is 0, and so is one below 0 (9.6).
#[tactic(auto, unfolding(crate::specs::Cases::turns_of))]
pub fn turns_by(value: Vec4) -> u64
    ensures { (now : values.Environment) (count : ExpressionTree) → value ≡ values.self_determined_value now count →
        result ≡ spec.turns_of now count }
{
    turns_in(value)
}

/// How many turns a `repeat` makes.
pub fn turns_of(count: &Expression, environment: &Environment<'_>) -> u64
    ensures { result ≡ spec.turns_of environment.now count.now }
{
    turns_by(self_determined_value(count, environment))
}
