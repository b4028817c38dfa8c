// The value of an expression where it stands (IEEE 1364-2005, 5.4, 5.5).

ghost use Rattle.std.specs.Prelude.{◌≡◌, ◌≤◌, ◌-◌, ◌∷◌, ◌++◌, ◌||◌, List, length};
ghost use Rattle.vdesign.specs.Expressions.{ExpressionTree};
ghost use Rattle.vdesign.specs.Nodes.{nodes_of};
ghost use Rattle.vvalue.specs.Value as spec;
ghost use Rattle.vvalue.specs.Fits.{IsWithin, HaveOneSize};
ghost use Rattle.vvalue.specs.Reads.{IsOfFirst, AreBehindFirst};

use crate::environment::{Environment, time_of, value_at};
use crate::operand_rule::{OperandRule, UnaryOperandRule, operand_rule_of, unary_operand_rule_of};
use crate::operators::{binary_value, chosen_value, extended_value, fitted_value, unary_value};
use crate::select::{bit_value, indexed_bit, joined_value, part_value, repeated_value};
use crate::size::self_determined;
use crate::size_and_sign::{SizeAndSign, common};
use vbits::Vec4;
use vdesign::expression::{Bounds, Constant, Node};
use vwords::operators::{BinaryOperator, UnaryOperator};

// A number where it stands.
fn number_value(number: Constant, here: SizeAndSign) -> Vec4
    requires { IsWithin here }
    ensures exact { result ≡ spec.extended_value number.value (number.spreads || here.signed) here }
    ensures len { length result.letters ≡ here.size }
{
    extended_value(number.value, number.spreads || here.signed, here)
}

// What the only operand stands in, which these nodes begin with.
fn side(
    operand_rule: UnaryOperandRule,
    nodes: &[Node],
    environment: &Environment<'_>,
    here: SizeAndSign,
) -> SizeAndSign
    requires { IsWithin here }
    ensures exact { IsOfFirst nodes.now
        (λ operand. spec.unary_size_and_sign operand_rule (spec.self_determined environment.now operand) here) result }
    ensures within { IsWithin result }
{
    match operand_rule {
        UnaryOperandRule::InContext(_) => here,
        UnaryOperandRule::Reduced(_) => self_determined(nodes, environment).0,
        UnaryOperandRule::LogicallyNegated => self_determined(nodes, environment).0,
    }
}

// What both operands stand in, which these nodes begin with.
fn sides(
    operand_rule: OperandRule,
    nodes: &[Node],
    environment: &Environment<'_>,
    here: SizeAndSign,
) -> (SizeAndSign, SizeAndSign)
    requires { IsWithin here }
    ensures left { (left right : ExpressionTree) (more : List Node)
        → nodes.now ≡ nodes_of left ++ (nodes_of right ++ more) → result.0 ≡ spec.left_size_and_sign
        operand_rule (spec.self_determined environment.now left) (spec.self_determined environment.now right) here }
    ensures right { (left right : ExpressionTree) (more : List Node)
        → nodes.now ≡ nodes_of left ++ (nodes_of right ++ more) → result.1 ≡ spec.right_size_and_sign
        operand_rule (spec.self_determined environment.now left) (spec.self_determined environment.now right) here }
    ensures left_within { IsWithin result.0 }
    ensures right_within { IsWithin result.1 }
    ensures sizes { HaveOneSize operand_rule result.0 result.1 }
{
    match operand_rule {
        OperandRule::ContextDetermined(_) => (here, here),
        OperandRule::MaxSized(_) => {
            let (left, behind) = self_determined(nodes, environment);
            let (right, _) = self_determined(behind, environment);
            let both = common(left, right);
            (both, both)
        }
        OperandRule::SelfDetermined(_) => {
            let (left, behind) = self_determined(nodes, environment);
            let (right, _) = self_determined(behind, environment);
            (left, right)
        }
        OperandRule::LeftContextDetermined(_) => {
            let (_, behind) = self_determined(nodes, environment);
            let (right, _) = self_determined(behind, environment);
            (here, right)
        }
    }
}

// Operands that have the sizes that the operand rule gives them are fit for it.
fn combined_value_of(
    operand_rule: OperandRule,
    left: Vec4,
    right: Vec4,
    first: SizeAndSign,
    second: SizeAndSign,
) -> Vec4
    requires sizes { HaveOneSize operand_rule first second }
    requires left { length left.letters ≡ first.size }
    requires right { length right.letters ≡ second.size }
    ensures { result ≡ spec.binary_value operand_rule left right }
{
    binary_value(operand_rule, left, right)
}

// `name[index]`; the nodes begin with the index.
#[cycle(values)]
fn of_bit<'n>(
    variable: u32,
    nodes: &'n [Node],
    environment: &Environment<'_>,
    here: SizeAndSign,
) -> (Vec4, &'n [Node])
    requires { IsWithin here }
    ensures exact { IsOfFirst (Node.Bit variable ∷ nodes.now)
        (λ tree. spec.value_of environment.now tree here) result.0 }
    ensures rest { AreBehindFirst (Node.Bit variable ∷ nodes.now) result.1.now }
    ensures len { length result.0.letters ≡ here.size }
    ensures fewer { length result.1.now ≤ length nodes.now }
{
    let (there, _) = self_determined(nodes, environment);
    let (index, behind) = value_of(nodes, environment, there);
    (
        fitted_value(bit_value(environment, variable, index), here),
        behind,
    )
}

// `name[index]` of a parameter; the nodes begin with the index.
#[cycle(values)]
fn of_bit_of<'n>(
    value: Vec4,
    bounds: Bounds,
    nodes: &'n [Node],
    environment: &Environment<'_>,
    here: SizeAndSign,
) -> (Vec4, &'n [Node])
    requires { IsWithin here }
    ensures exact { IsOfFirst (Node.BitOf value bounds ∷ nodes.now)
        (λ tree. spec.value_of environment.now tree here) result.0 }
    ensures rest { AreBehindFirst (Node.BitOf value bounds ∷ nodes.now) result.1.now }
    ensures len { length result.0.letters ≡ here.size }
    ensures fewer { length result.1.now ≤ length nodes.now }
{
    let (there, _) = self_determined(nodes, environment);
    let (index, behind) = value_of(nodes, environment, there);
    (
        fitted_value(indexed_bit(value, bounds, index), here),
        behind,
    )
}

// `$signed(operand)`, or `$unsigned(operand)`; the nodes begin with the operand.
#[cycle(values)]
fn of_conversion<'n>(
    signed: bool,
    nodes: &'n [Node],
    environment: &Environment<'_>,
    here: SizeAndSign,
) -> (Vec4, &'n [Node])
    requires { IsWithin here }
    ensures exact { IsOfFirst (Node.Conversion signed ∷ nodes.now)
        (λ tree. spec.value_of environment.now tree here) result.0 }
    ensures rest { AreBehindFirst (Node.Conversion signed ∷ nodes.now) result.1.now }
    ensures len { length result.0.letters ≡ here.size }
    ensures fewer { length result.1.now ≤ length nodes.now }
{
    let (there, _) = self_determined(nodes, environment);
    let (value, behind) = value_of(nodes, environment, there);
    (fitted_value(value.with_sign(signed), here), behind)
}

// `- operand`; the nodes begin with the operand.
#[cycle(values)]
fn of_unary<'n>(
    operator: UnaryOperator,
    nodes: &'n [Node],
    environment: &Environment<'_>,
    here: SizeAndSign,
) -> (Vec4, &'n [Node])
    requires { IsWithin here }
    ensures exact { IsOfFirst (Node.Unary operator ∷ nodes.now)
        (λ tree. spec.value_of environment.now tree here) result.0 }
    ensures rest { AreBehindFirst (Node.Unary operator ∷ nodes.now) result.1.now }
    ensures len { length result.0.letters ≡ here.size }
    ensures fewer { length result.1.now ≤ length nodes.now }
{
    let operand_rule = unary_operand_rule_of(operator);
    let there = side(operand_rule, nodes, environment, here);
    let (value, behind) = value_of(nodes, environment, there);
    (fitted_value(unary_value(operand_rule, value), here), behind)
}

// `left + right`; the nodes begin with both operands.
#[cycle(values)]
fn of_binary<'n>(
    operator: BinaryOperator,
    nodes: &'n [Node],
    environment: &Environment<'_>,
    here: SizeAndSign,
) -> (Vec4, &'n [Node])
    requires { IsWithin here }
    ensures exact { IsOfFirst (Node.Binary operator ∷ nodes.now)
        (λ tree. spec.value_of environment.now tree here) result.0 }
    ensures rest { AreBehindFirst (Node.Binary operator ∷ nodes.now) result.1.now }
    ensures len { length result.0.letters ≡ here.size }
    ensures fewer { length result.1.now ≤ length nodes.now }
{
    let operand_rule = operand_rule_of(operator);
    let (first, second) = sides(operand_rule, nodes, environment, here);
    let (left, behind) = value_of(nodes, environment, first);
    let (right, behind) = value_of(behind, environment, second);
    (
        fitted_value(
            combined_value_of(operand_rule, left, right, first, second),
            here,
        ),
        behind,
    )
}

// `condition ? when_true : when_false`; the nodes begin with the three.
#[cycle(values)]
fn of_conditional<'n>(
    nodes: &'n [Node],
    environment: &Environment<'_>,
    here: SizeAndSign,
) -> (Vec4, &'n [Node])
    requires { IsWithin here }
    ensures exact { IsOfFirst (Node.Conditional ∷ nodes.now)
        (λ tree. spec.value_of environment.now tree here) result.0 }
    ensures rest { AreBehindFirst (Node.Conditional ∷ nodes.now) result.1.now }
    ensures len { length result.0.letters ≡ here.size }
    ensures fewer { length result.1.now ≤ length nodes.now }
{
    let (there, _) = self_determined(nodes, environment);
    let (condition, behind) = value_of(nodes, environment, there);
    let (when_true, behind) = value_of(behind, environment, here);
    let (when_false, behind) = value_of(behind, environment, here);
    (
        fitted_value(chosen_value(condition.truth(), when_true, when_false), here),
        behind,
    )
}

// `{left, right}`; the nodes begin with both.
#[cycle(values)]
fn of_joined<'n>(
    nodes: &'n [Node],
    environment: &Environment<'_>,
    here: SizeAndSign,
) -> (Vec4, &'n [Node])
    requires { IsWithin here }
    ensures exact { IsOfFirst (Node.Joined ∷ nodes.now)
        (λ tree. spec.value_of environment.now tree here) result.0 }
    ensures rest { AreBehindFirst (Node.Joined ∷ nodes.now) result.1.now }
    ensures len { length result.0.letters ≡ here.size }
    ensures fewer { length result.1.now ≤ length nodes.now }
{
    let (first, behind) = self_determined(nodes, environment);
    let (second, _) = self_determined(behind, environment);
    let (left, behind) = value_of(nodes, environment, first);
    let (right, behind) = value_of(behind, environment, second);
    (fitted_value(joined_value(left, right), here), behind)
}

// `{count{operand}}`; the nodes begin with the operand.
#[cycle(values)]
fn of_repeated<'n>(
    count: u32,
    nodes: &'n [Node],
    environment: &Environment<'_>,
    here: SizeAndSign,
) -> (Vec4, &'n [Node])
    requires { IsWithin here }
    ensures exact { IsOfFirst (Node.Repeated count ∷ nodes.now)
        (λ tree. spec.value_of environment.now tree here) result.0 }
    ensures rest { AreBehindFirst (Node.Repeated count ∷ nodes.now) result.1.now }
    ensures len { length result.0.letters ≡ here.size }
    ensures fewer { length result.1.now ≤ length nodes.now }
{
    let (there, _) = self_determined(nodes, environment);
    let (value, behind) = value_of(nodes, environment, there);
    (fitted_value(repeated_value(count, value), here), behind)
}

/// The value, where it stands, of the expression that these nodes begin with, and the nodes after it.
#[cycle(values)]
pub fn value_of<'n>(
    nodes: &'n [Node],
    environment: &Environment<'_>,
    here: SizeAndSign,
) -> (Vec4, &'n [Node])
    requires { IsWithin here }
    ensures exact { IsOfFirst nodes.now (λ tree. spec.value_of environment.now tree here) result.0 }
    ensures rest { AreBehindFirst nodes.now result.1.now }
    ensures len { length result.0.letters ≡ here.size }
    ensures fewer { length result.1.now ≤ length nodes.now - 1 }
{
    let Some((node, behind)) = nodes.split_first() else {
        return (Vec4::all_x(here.size), nodes);
    };
    match node {
        Node::Constant(number) => (number_value(*number, here), behind),
        Node::Variable(number) => (fitted_value(value_at(environment, *number), here), behind),
        Node::Bit(variable) => of_bit(*variable, behind, environment, here),
        Node::BitOf { value, bounds } => of_bit_of(*value, *bounds, behind, environment, here),
        Node::Part { variable, bounds } => {
            let value = part_value(environment, *variable, *bounds);
            (fitted_value(value, here), behind)
        }
        Node::Time => (fitted_value(time_of(environment), here), behind),
        Node::Conversion(signed) => of_conversion(*signed, behind, environment, here),
        Node::Unary(operator) => of_unary(*operator, behind, environment, here),
        Node::Binary(operator) => of_binary(*operator, behind, environment, here),
        Node::Conditional => of_conditional(behind, environment, here),
        Node::Joined => of_joined(behind, environment, here),
        Node::Repeated(count) => of_repeated(*count, behind, environment, here),
    }
}
