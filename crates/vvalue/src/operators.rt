// What operators make of values (IEEE 1364-2005, 5.1).

ghost use Rattle.std.specs.Prelude.{◌≡◌, length};
ghost use Rattle.vbits.specs.Letters.{and_letter, or_letter};
ghost use Rattle.vvalue.specs.Value as spec;
ghost use Rattle.vvalue.specs.Fits.{IsWithin, AreFit};

use crate::operand_rule::{Compared, Logical, OperandRule, Shared, Shift, Sign, UnaryOperandRule};
use crate::size_and_sign::SizeAndSign;
use vbits::{Bit4, Vec4};

/// Of an operator that keeps its operand's size.
pub fn kept_value(operator: Sign, value: Vec4) -> Vec4
    ensures { result ≡ spec.kept_value operator value }
{
    match operator {
        Sign::Plus => value,
        Sign::Minus => value.neg(),
        Sign::Invert => value.not(),
    }
}

/// Of an operator whose operands share a size.
pub fn shared_value(operator: Shared, left: Vec4, right: Vec4) -> Vec4
    requires { length left.letters ≡ length right.letters }
    ensures { result ≡ spec.shared_value operator left right }
{
    match operator {
        Shared::Times => left.mul(right),
        Shared::Divide => left.div(right),
        Shared::Remainder => left.rem(right),
        Shared::Plus => left.add(right),
        Shared::Minus => left.sub(right),
        Shared::And => left.and(right),
        Shared::Or => left.or(right),
        Shared::Xor => left.xor(right),
        Shared::Xnor => left.xnor(right),
    }
}

/// Of an operator that compares.
pub fn compared_value(operator: Compared, left: Vec4, right: Vec4) -> Vec4
    requires { length left.letters ≡ length right.letters }
    ensures { result ≡ spec.compared_value operator left right }
{
    match operator {
        Compared::Less => left.lt(right),
        Compared::LessOrEqual => left.le(right),
        Compared::Greater => left.gt(right),
        Compared::GreaterOrEqual => left.ge(right),
        Compared::Equal => left.eq(right),
        Compared::NotEqual => left.ne(right),
        Compared::CaseEqual => left.case_eq(right),
        Compared::CaseNotEqual => left.case_ne(right),
    }
}

// `&` of a letter and 1, and `|` of a letter and 0: x and z are unknown.
fn known_or_x(letter: Bit4) -> Bit4
    ensures and { and_letter Bit4.One letter ≡ result }
    ensures or { or_letter Bit4.Zero letter ≡ result }
{
    match letter {
        Bit4::Zero => Bit4::Zero,
        Bit4::One => Bit4::One,
        Bit4::X => Bit4::X,
        Bit4::Z => Bit4::X,
    }
}

// `&` of an unknown letter and another: 0 where that is 0.
fn zero_or_x(letter: Bit4) -> Bit4
    ensures x { and_letter Bit4.X letter ≡ result }
    ensures z { and_letter Bit4.Z letter ≡ result }
{
    match letter {
        Bit4::Zero => Bit4::Zero,
        Bit4::One => Bit4::X,
        Bit4::X => Bit4::X,
        Bit4::Z => Bit4::X,
    }
}

// `|` of an unknown letter and another: 1 where that is 1.
fn one_or_x(letter: Bit4) -> Bit4
    ensures x { or_letter Bit4.X letter ≡ result }
    ensures z { or_letter Bit4.Z letter ≡ result }
{
    match letter {
        Bit4::Zero => Bit4::X,
        Bit4::One => Bit4::One,
        Bit4::X => Bit4::X,
        Bit4::Z => Bit4::X,
    }
}

fn both(left: Bit4, right: Bit4) -> Bit4
    ensures { result ≡ and_letter left right }
{
    match left {
        Bit4::Zero => Bit4::Zero,
        Bit4::One => known_or_x(right),
        Bit4::X => zero_or_x(right),
        Bit4::Z => zero_or_x(right),
    }
}

fn either(left: Bit4, right: Bit4) -> Bit4
    ensures { result ≡ or_letter left right }
{
    match left {
        Bit4::Zero => known_or_x(right),
        Bit4::One => Bit4::One,
        Bit4::X => one_or_x(right),
        Bit4::Z => one_or_x(right),
    }
}

/// Of an operator of truths.
pub fn combined_value(operator: Logical, left: Vec4, right: Vec4) -> Vec4
    ensures { result ≡ spec.combined_value operator left right }
{
    let (left, right) = (left.truth(), right.truth());
    match operator {
        Logical::And => Vec4::of_bit(both(left, right)),
        Logical::Or => Vec4::of_bit(either(left, right)),
    }
}

/// Of a shift.
pub fn shifted_value(operator: Shift, left: Vec4, right: Vec4) -> Vec4
    ensures { result ≡ spec.shifted_value operator left right }
{
    match operator {
        Shift::Left => left.shl(right),
        Shift::Right => left.shr(right),
        Shift::RightSigned => left.ashr(right),
    }
}

/// One branch, or where the truth is unknown both joined (5.1.13).
pub fn chosen_value(truth: Bit4, when_true: Vec4, when_false: Vec4) -> Vec4
    requires { length when_true.letters ≡ length when_false.letters }
    ensures { result ≡ spec.chosen_value truth when_true when_false }
{
    match truth {
        Bit4::One => when_true,
        Bit4::Zero => when_false,
        Bit4::X => when_true.join(when_false),
        Bit4::Z => when_true.join(when_false),
    }
}

/// Of an operator with one operand.
pub fn unary_value(operand_rule: UnaryOperandRule, value: Vec4) -> Vec4
    ensures { result ≡ spec.unary_value operand_rule value }
{
    match operand_rule {
        UnaryOperandRule::InContext(operator) => kept_value(operator, value),
        UnaryOperandRule::Reduced(operator) => value.reduce(operator),
        UnaryOperandRule::LogicallyNegated => Vec4::of_bit(value.truth().not()),
    }
}

/// Of an operator with two operands.
pub fn binary_value(operand_rule: OperandRule, left: Vec4, right: Vec4) -> Vec4
    requires { AreFit operand_rule left right }
    ensures { result ≡ spec.binary_value operand_rule left right }
{
    match operand_rule {
        OperandRule::ContextDetermined(operator) => shared_value(operator, left, right),
        OperandRule::MaxSized(operator) => compared_value(operator, left, right),
        OperandRule::SelfDetermined(operator) => combined_value(operator, left, right),
        OperandRule::LeftContextDetermined(operator) => shifted_value(operator, left, right),
    }
}

/// Extended by the sign given, to where it stands (5.5.2).
pub fn extended_value(value: Vec4, extension: bool, here: SizeAndSign) -> Vec4
    requires { IsWithin here }
    ensures exact { result ≡ spec.extended_value value extension here }
    ensures len { length result.letters ≡ here.size }
    ensures mark { result.signed ≡ here.signed }
{
    value
        .with_sign(extension)
        .resize(here.size)
        .with_sign(here.signed)
}

/// Extended by the sign of where it stands.
pub fn fitted_value(value: Vec4, here: SizeAndSign) -> Vec4
    requires { IsWithin here }
    ensures exact { result ≡ spec.fitted_value value here }
    ensures len { length result.letters ≡ here.size }
    ensures mark { result.signed ≡ here.signed }
{
    extended_value(value, here.signed, here)
}
