// The size and the sign of an expression by itself, where the variables are declared so (IEEE 1364-2005, 5.4.1, 5.5.1).

ghost use Rattle.std.specs.Prelude.{◌≡◌, ◌≤◌, ◌+◌, ◌-◌, ◌*◌, max, min, false, length};
ghost use Rattle.vdesign.specs.Expressions.{variable as variable_tree};
ghost use Rattle.vvalue.specs.Value as spec;
ghost use Rattle.vvalue.specs.Reads.{IsOfFirst, AreBehindFirst};
ghost use Rattle.expression_code.specs.Shapes.{declared};
ghost use Rattle.expression_code.specs.CodeOf.{own, unary_result, binary_result};

use crate::context::{Context, ONE_BIT, TIME, WIDEST, common};
use vbits::Vec4;
use vdesign::design::Variable;
use vdesign::expression::{Bounds, Node};
use vvalue::operand_rule::{OperandRule, UnaryOperandRule, operand_rule_of, unary_operand_rule_of};
use vvalue::select::part_size;

// Of a value that is taken as it is.
fn context_of_value(value: Vec4) -> Context
    ensures { result ≡ spec.size_and_sign (length value.letters) value.signed }
{
    Context {
        size: value.len(),
        signed: value.signed(),
    }
}

// Of the variable of this number; one unsigned bit, where there is none.
#[tactic(auto, unfolding(vbits::specs::Vectors::filled))]
pub(crate) fn context_of_variable(variables: &[Variable], variable: u32) -> Context
    ensures { result ≡ own variables.now (variable_tree variable) }
{
    match variables.get(variable as usize) {
        Some(declared) => Context {
            size: declared.length,
            signed: declared.signed,
        },
        None => ONE_BIT,
    }
}

// The numbers of the leftmost and of the rightmost bit of the variable of this number (5.2.1).
pub(crate) fn bounds_of(variables: &[Variable], variable: u32) -> Bounds
    ensures { result ≡ spec.bounds_of (declared variables.now) variable }
{
    let whole = Bounds {
        left: context_of_variable(variables, variable).size - 1,
        right: 0,
    };
    match variables.get(variable as usize) {
        Some(declared) => declared.bounds.unwrap_or(whole),
        None => whole,
    }
}

// What the result of an operator has in a context.
pub(crate) fn unary_result_in(rule: UnaryOperandRule, here: Context) -> Context
    ensures { result ≡ unary_result rule here }
{
    match rule {
        UnaryOperandRule::InContext(_) => here,
        UnaryOperandRule::Reduced(_) => ONE_BIT,
        UnaryOperandRule::LogicallyNegated => ONE_BIT,
    }
}

// What the only operand stands in, by what it is by itself.
pub(crate) fn operand_context(rule: UnaryOperandRule, operand: Context, here: Context) -> Context
    ensures { result ≡ spec.unary_size_and_sign rule operand here }
{
    match rule {
        UnaryOperandRule::InContext(_) => here,
        UnaryOperandRule::Reduced(_) => operand,
        UnaryOperandRule::LogicallyNegated => operand,
    }
}

// What the result of an operator with two operands has in a context.
pub(crate) fn binary_result_in(rule: OperandRule, here: Context) -> Context
    ensures { result ≡ binary_result rule here }
{
    match rule {
        OperandRule::ContextDetermined(_) => here,
        OperandRule::MaxSized(_) => ONE_BIT,
        OperandRule::SelfDetermined(_) => ONE_BIT,
        OperandRule::LeftContextDetermined(_) => here,
    }
}

// What both operands stand in, by what they are by themselves.
pub(crate) fn operand_contexts(
    rule: OperandRule,
    left: Context,
    right: Context,
    here: Context,
) -> (Context, Context)
    ensures left { result.0 ≡ spec.left_size_and_sign rule left right here }
    ensures right { result.1 ≡ spec.right_size_and_sign rule left right here }
{
    match rule {
        OperandRule::ContextDetermined(_) => (here, here),
        OperandRule::MaxSized(_) => (common(left, right), common(left, right)),
        OperandRule::SelfDetermined(_) => (left, right),
        OperandRule::LeftContextDetermined(_) => (here, right),
    }
}

// Of what an operator makes of its only operand.
fn own_unary(rule: UnaryOperandRule, operand: Context) -> Context
    ensures { result ≡ spec.size_and_sign
        (spec.unary_size rule operand.size) (spec.unary_sign rule operand.signed) }
{
    match rule {
        UnaryOperandRule::InContext(_) => operand,
        UnaryOperandRule::Reduced(_) => ONE_BIT,
        UnaryOperandRule::LogicallyNegated => ONE_BIT,
    }
}

// Of what an operator makes of both its operands.
fn own_binary(rule: OperandRule, left: Context, right: Context) -> Context
    ensures { result ≡ spec.size_and_sign
        (spec.size_by rule left.size right.size) (spec.sign_by rule left.signed right.signed) }
{
    match rule {
        OperandRule::ContextDetermined(_) => common(left, right),
        OperandRule::MaxSized(_) => ONE_BIT,
        OperandRule::SelfDetermined(_) => ONE_BIT,
        OperandRule::LeftContextDetermined(_) => left,
    }
}

// Of an operand that gets this sign mark.
fn own_conversion(signed: bool, operand: Context) -> Context
    ensures { result ≡ spec.size_and_sign operand.size signed }
{
    Context {
        size: operand.size,
        signed,
    }
}

// With the larger one of this size and its own.
pub(crate) fn larger_context(size: u32, own: Context) -> Context
    requires some { 1 ≤ size }
    requires few { size ≤ 64 }
    ensures { result ≡ spec.size_and_sign (max size own.size) own.signed }
{
    Context {
        size: size.max(own.size),
        signed: own.signed,
    }
}

// With this size.
pub(crate) fn with_size(size: u32, own: Context) -> Context
    requires some { 1 ≤ size }
    requires few { size ≤ 64 }
    ensures { result ≡ spec.size_and_sign size own.signed }
{
    Context {
        size,
        signed: own.signed,
    }
}

// Of what has so many bits, and is unsigned.
pub(crate) fn own_part(bounds: Bounds) -> Context
    ensures { result ≡ spec.size_and_sign (spec.part_size bounds) false }
{
    Context {
        size: part_size(bounds),
        signed: false,
    }
}

// Of a concatenation.
pub(crate) fn own_joined(left: Context, right: Context) -> Context
    ensures { result ≡ spec.size_and_sign (min 64 (left.size + right.size)) false }
{
    Context {
        size: (left.size + right.size).min(WIDEST),
        signed: false,
    }
}

// Of a replication.
pub(crate) fn own_repeated(count: u32, operand: Context) -> Context
    ensures { result ≡ spec.size_and_sign (min 64 (max 1 count * operand.size)) false }
{
    Context {
        size: count.max(1).saturating_mul(operand.size).min(WIDEST),
        signed: false,
    }
}

// The size and the sign that the expression has by itself that these nodes begin with, and the nodes after it.
pub(crate) fn self_determined<'n>(
    nodes: &'n [Node],
    variables: &[Variable],
) -> (Context, &'n [Node])
    ensures exact { IsOfFirst nodes.now (own variables.now) result.0 }
    ensures rest { AreBehindFirst nodes.now result.1.now }
    ensures fewer { length result.1.now ≤ length nodes.now - 1 }
{
    let Some((node, behind)) = nodes.split_first() else {
        return (ONE_BIT, nodes);
    };
    match node {
        Node::Constant(constant) => (context_of_value(constant.value), behind),
        Node::Variable(number) => (context_of_variable(variables, *number), behind),
        Node::Bit(_) => {
            let (_, behind) = self_determined(behind, variables);
            (ONE_BIT, behind)
        }
        Node::BitOf { .. } => {
            let (_, behind) = self_determined(behind, variables);
            (ONE_BIT, behind)
        }
        Node::Part { bounds, .. } => (own_part(*bounds), behind),
        Node::Time => (TIME, behind),
        Node::Conversion(signed) => {
            let (operand, behind) = self_determined(behind, variables);
            (own_conversion(*signed, operand), behind)
        }
        Node::Unary(operator) => {
            let (operand, behind) = self_determined(behind, variables);
            (own_unary(unary_operand_rule_of(*operator), operand), behind)
        }
        Node::Binary(operator) => {
            let (left, behind) = self_determined(behind, variables);
            let (right, behind) = self_determined(behind, variables);
            (own_binary(operand_rule_of(*operator), left, right), behind)
        }
        Node::Conditional => {
            let (_, behind) = self_determined(behind, variables);
            let (when_true, behind) = self_determined(behind, variables);
            let (when_false, behind) = self_determined(behind, variables);
            (common(when_true, when_false), behind)
        }
        Node::Joined => {
            let (left, behind) = self_determined(behind, variables);
            let (right, behind) = self_determined(behind, variables);
            (own_joined(left, right), behind)
        }
        Node::Repeated(count) => {
            let (operand, behind) = self_determined(behind, variables);
            (own_repeated(*count, operand), behind)
        }
    }
}
