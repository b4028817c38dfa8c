// The size and the sign of an expression by itself (IEEE 1364-2005, 5.4.1, 5.5.1).

ghost use Rattle.std.specs.Prelude.{◌≡◌, ◌≤◌, ◌+◌, ◌-◌, ◌*◌, max, min, false, length};
ghost use Rattle.vvalue.specs.Value as spec;
ghost use Rattle.vvalue.specs.Fits.{IsWithin};
ghost use Rattle.vvalue.specs.Reads.{IsOfFirst, AreBehindFirst};

use crate::environment::{Environment, value_at};
use crate::operand_rule::{OperandRule, UnaryOperandRule, operand_rule_of, unary_operand_rule_of};
use crate::select::part_size;
use crate::size_and_sign::{SizeAndSign, common};
use vbits::Vec4;
use vdesign::expression::{Bounds, Node};

/// The most bits of a value.
const WIDEST: u32 = 64;

const ONE_BIT: SizeAndSign = SizeAndSign {
    size: 1,
    signed: false,
};

const TIME: SizeAndSign = SizeAndSign {
    size: 64,
    signed: false,
};

// Of a value that is taken as it is.
fn size_and_sign_of_value(value: Vec4) -> SizeAndSign
    ensures exact { result ≡ spec.size_and_sign (length value.letters) value.signed }
    ensures within { IsWithin result }
{
    SizeAndSign {
        size: value.len(),
        signed: value.signed(),
    }
}

// Of what an operator makes of its only operand.
fn own_unary(operand_rule: UnaryOperandRule, operand: SizeAndSign) -> SizeAndSign
    requires { IsWithin operand }
    ensures exact { result ≡ spec.size_and_sign
        (spec.unary_size operand_rule operand.size) (spec.unary_sign operand_rule operand.signed) }
    ensures within { IsWithin result }
{
    match operand_rule {
        UnaryOperandRule::InContext(_) => operand,
        UnaryOperandRule::Reduced(_) => ONE_BIT,
        UnaryOperandRule::LogicallyNegated => ONE_BIT,
    }
}

// Of what an operator makes of both its operands.
fn own_binary(operand_rule: OperandRule, left: SizeAndSign, right: SizeAndSign) -> SizeAndSign
    requires left { IsWithin left }
    requires right { IsWithin right }
    ensures exact { result ≡ spec.size_and_sign
        (spec.size_by operand_rule left.size right.size) (spec.sign_by operand_rule left.signed right.signed) }
    ensures within { IsWithin result }
{
    match operand_rule {
        OperandRule::ContextDetermined(_) => common(left, right),
        OperandRule::MaxSized(_) => ONE_BIT,
        OperandRule::SelfDetermined(_) => ONE_BIT,
        OperandRule::LeftContextDetermined(_) => left,
    }
}

// Of what has so many bits, and is unsigned.
fn own_part(bounds: Bounds) -> SizeAndSign
    ensures exact { result ≡ spec.size_and_sign (spec.part_size bounds) false }
    ensures within { IsWithin result }
{
    SizeAndSign {
        size: part_size(bounds),
        signed: false,
    }
}

// Of a concatenation.
fn own_joined(left: SizeAndSign, right: SizeAndSign) -> SizeAndSign
    requires left { IsWithin left }
    requires right { IsWithin right }
    ensures exact { result ≡ spec.size_and_sign (min 64 (left.size + right.size)) false }
    ensures within { IsWithin result }
{
    SizeAndSign {
        size: (left.size + right.size).min(WIDEST),
        signed: false,
    }
}

// Of a replication.
fn own_repeated(count: u32, operand: SizeAndSign) -> SizeAndSign
    requires { IsWithin operand }
    ensures exact { result ≡ spec.size_and_sign (min 64 (max 1 count * operand.size)) false }
    ensures within { IsWithin result }
{
    SizeAndSign {
        size: count.max(1).saturating_mul(operand.size).min(WIDEST),
        signed: false,
    }
}

/// The size and the sign that the expression has by itself that these nodes begin with, and the nodes
/// after it.
pub fn self_determined<'n>(
    nodes: &'n [Node],
    environment: &Environment<'_>,
) -> (SizeAndSign, &'n [Node])
    ensures exact { IsOfFirst nodes.now (spec.self_determined environment.now) result.0 }
    ensures rest { AreBehindFirst nodes.now result.1.now }
    ensures within { IsWithin result.0 }
    ensures fewer { length result.1.now ≤ length nodes.now - 1 }
{
    let Some((node, behind)) = nodes.split_first() else {
        return (ONE_BIT, nodes);
    };
    match node {
        Node::Constant(constant) => (size_and_sign_of_value(constant.value), behind),
        Node::Variable(number) => (
            size_and_sign_of_value(value_at(environment, *number)),
            behind,
        ),
        Node::Bit(_) => {
            let (_, behind) = self_determined(behind, environment);
            (ONE_BIT, behind)
        }
        Node::BitOf { .. } => {
            let (_, behind) = self_determined(behind, environment);
            (ONE_BIT, behind)
        }
        Node::Part { bounds, .. } => (own_part(*bounds), behind),
        Node::Time => (TIME, behind),
        Node::Conversion(signed) => {
            let (operand, behind) = self_determined(behind, environment);
            let (size, signed) = (operand.size, *signed);
            (SizeAndSign { size, signed }, behind)
        }
        Node::Unary(operator) => {
            let (operand, behind) = self_determined(behind, environment);
            (own_unary(unary_operand_rule_of(*operator), operand), behind)
        }
        Node::Binary(operator) => {
            let (left, behind) = self_determined(behind, environment);
            let (right, behind) = self_determined(behind, environment);
            (own_binary(operand_rule_of(*operator), left, right), behind)
        }
        Node::Conditional => {
            let (_, behind) = self_determined(behind, environment);
            let (when_true, behind) = self_determined(behind, environment);
            let (when_false, behind) = self_determined(behind, environment);
            (common(when_true, when_false), behind)
        }
        Node::Joined => {
            let (left, behind) = self_determined(behind, environment);
            let (right, behind) = self_determined(behind, environment);
            (own_joined(left, right), behind)
        }
        Node::Repeated(count) => {
            let (operand, behind) = self_determined(behind, environment);
            (own_repeated(*count, operand), behind)
        }
    }
}
