// What operators make of values (IEEE 1364-2005, 5.1).

ghost use Rattle.std.specs.Prelude.{◌≡◌, length};
ghost use Rattle.expression_code.specs.Code as code;
ghost use Rattle.vvalue.specs.Value as spec;

use crate::context::Context;
use vbits::{Bit4, Vec4};
use vvalue::operand_rule::{Compared, Logical, OperandRule, Shared, Shift, Sign, UnaryOperandRule};

// A value with as many letters as another. Where sizes are settled it has them.
pub(crate) fn at_size(model: Vec4, value: Vec4) -> Vec4
    ensures exact { result ≡ code.at_size model value }
    ensures len { length model.letters ≡ length result.letters }
{
    if value.len() == model.len() {
        value
    } else {
        value.resize(model.len())
    }
}

// Extended by the sign of where it stands (5.5.2).
pub(crate) fn fitted_value(value: Vec4, here: Context) -> Vec4
    ensures { result ≡ spec.fitted_value value here }
{
    let extension = here.signed;
    extended_value(value, extension, here)
}

// Extended by the sign given, to where it stands (5.5.2).
pub(crate) fn extended_value(value: Vec4, extension: bool, here: Context) -> Vec4
    ensures { result ≡ spec.extended_value value extension here }
{
    value
        .with_sign(extension)
        .resize(here.size)
        .with_sign(here.signed)
}

// Of an operator that keeps its operand's size.
fn kept_value(operator: Sign, value: Vec4) -> Vec4
    ensures { result ≡ spec.kept_value operator value }
{
    match operator {
        Sign::Plus => value,
        Sign::Minus => value.neg(),
        Sign::Invert => value.not(),
    }
}

// Of an operator with one operand.
pub(crate) fn unary_value(rule: UnaryOperandRule, value: Vec4) -> Vec4
    ensures { result ≡ spec.unary_value rule value }
{
    match rule {
        UnaryOperandRule::InContext(operator) => kept_value(operator, value),
        UnaryOperandRule::Reduced(operator) => value.reduce(operator),
        UnaryOperandRule::LogicallyNegated => Vec4::of_bit(value.truth().not()),
    }
}

// Of an operator whose operands share a size.
fn shared_value(operator: Shared, left: Vec4, right: Vec4) -> Vec4
    requires { length left.letters ≡ length right.letters }
    ensures { result ≡ spec.shared_value operator left right }
{
    match operator {
        Shared::Times => left.mul(right),
        Shared::Divide => left.div(right),
        Shared::Remainder => left.rem(right),
        Shared::Plus => left.add(right),
        Shared::Minus => left.sub(right),
        Shared::And => left.and(right),
        Shared::Or => left.or(right),
        Shared::Xor => left.xor(right),
        Shared::Xnor => left.xnor(right),
    }
}

// Of an operator that compares.
fn compared_value(operator: Compared, left: Vec4, right: Vec4) -> Vec4
    requires { length left.letters ≡ length right.letters }
    ensures { result ≡ spec.compared_value operator left right }
{
    match operator {
        Compared::Less => left.lt(right),
        Compared::LessOrEqual => left.le(right),
        Compared::Greater => left.gt(right),
        Compared::GreaterOrEqual => left.ge(right),
        Compared::Equal => left.eq(right),
        Compared::NotEqual => left.ne(right),
        Compared::CaseEqual => left.case_eq(right),
        Compared::CaseNotEqual => left.case_ne(right),
    }
}

// Of an operator of truths.
#[tactic(auto, unfolding(vbits::specs::Vectors::single, vbits::specs::Vectors::bitwise))]
fn combined_value(operator: Logical, left: Vec4, right: Vec4) -> Vec4
    ensures { result ≡ spec.combined_value operator left right }
{
    let (left, right) = (Vec4::of_bit(left.truth()), Vec4::of_bit(right.truth()));
    match operator {
        Logical::And => left.and(right),
        Logical::Or => left.or(right),
    }
}

// Of a shift.
fn shifted_value(operator: Shift, left: Vec4, right: Vec4) -> Vec4
    ensures { result ≡ spec.shifted_value operator left right }
{
    match operator {
        Shift::Left => left.shl(right),
        Shift::Right => left.shr(right),
        Shift::RightSigned => left.ashr(right),
    }
}

// Of an operator with two operands; where they share a size, the right one has that of the left one.
pub(crate) fn operator_value(rule: OperandRule, left: Vec4, right: Vec4) -> Vec4
    ensures { result ≡ code.operator_value rule left right }
{
    match rule {
        OperandRule::ContextDetermined(operator) => {
            shared_value(operator, left, at_size(left, right))
        }
        OperandRule::MaxSized(operator) => compared_value(operator, left, at_size(left, right)),
        OperandRule::SelfDetermined(operator) => combined_value(operator, left, right),
        OperandRule::LeftContextDetermined(operator) => shifted_value(operator, left, right),
    }
}

// One branch, or where the truth is unknown both joined (5.1.13).
pub(crate) fn chosen_value(truth: Bit4, when_true: Vec4, when_false: Vec4) -> Vec4
    ensures { result ≡ spec.chosen_value truth when_true (code.at_size when_true when_false) }
{
    let when_false = at_size(when_true, when_false);
    match truth {
        Bit4::One => when_true,
        Bit4::Zero => when_false,
        Bit4::X => when_true.join(when_false),
        Bit4::Z => when_true.join(when_false),
    }
}
