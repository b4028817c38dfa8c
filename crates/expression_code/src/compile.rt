// Expressions to code (IEEE 1364-2005, 5.4.1, 5.5).

ghost use Rattle.std.specs.Prelude.{◌≡◌, ◌≤◌, ◌-◌, ◌∷◌, ◌++◌, [], length, IfOk, OnOk};
ghost use Rattle.vvalue.specs.Reads.{IsOfFirst};
ghost use Rattle.vvalue.specs.Value.{place_in as place_in_bounds};
ghost use Rattle.expression_code.specs.CodeOf as spec;
ghost use Rattle.expression_code.specs.Heads as heads;
ghost use Rattle.expression_code.specs.Heads.{IsCompiled, IsRightCompiled};

use crate::context::{Context, ONE_BIT, TIME, WIDEST, is_same};
use crate::operation::{BinaryStep, ExpressionCode, Leaf, Operation, UnaryStep};
use crate::operators::extended_value;
use crate::right_operand::RightOperand;
use crate::size::{
    binary_result_in, bounds_of, context_of_variable, larger_context, operand_context,
    operand_contexts, own_joined, own_part, own_repeated, self_determined, unary_result_in,
    with_size,
};
use basis::NoMemory;
use std::alloc::Global;
use std::slice::from_ref;
use vbits::Vec4;
use vdesign::design::Variable;
use vdesign::expression::{Bounds, Constant, Expression, Node};
use vvalue::operand_rule::{OperandRule, operand_rule_of, unary_operand_rule_of};
use vwords::operators::{BinaryOperator, UnaryOperator};

// One operation more.
fn put(code: &mut Vec<Operation>, operation: &Operation) -> Result<(), NoMemory>
    ensures { OnOk result (code.new.items ≡ code.old.items ++ operation.now ∷ []) }
{
    code.extend_from_slice(from_ref(operation))?;
    Ok(())
}

// What brings to its context what has another.
fn put_fit(code: &mut Vec<Operation>, has: Context, here: Context) -> Result<(), NoMemory>
    ensures { OnOk result (code.new.items ≡ code.old.items ++ heads.fit_head has here) }
{
    if is_same(has, here) {
        return Ok(());
    }
    put(code, &Operation::Unary(UnaryStep::Fit(here)))
}

// An operation whose result has one context, behind what brings it to another.
fn put_fitted(
    code: &mut Vec<Operation>,
    has: Context,
    here: Context,
    operation: &Operation,
) -> Result<(), NoMemory>
    ensures { OnOk result
        (code.new.items ≡ code.old.items ++ heads.fitted_head has here operation.now) }
{
    put_fit(code, has, here)?;
    put(code, operation)
}

// A number where it stands (3.5.1, 5.5.2).
fn number_in(number: Constant, here: Context) -> Vec4
    ensures { result ≡ spec.number_value number here }
{
    let extension = number.spreads || here.signed;
    extended_value(number.value, extension, here)
}

// A variable where it stands.
fn variable_operation(variable: u32, has: Context, here: Context) -> Operation
    ensures { result ≡ heads.variable_operation variable has here }
{
    if is_same(has, here) {
        Operation::Leaf(Leaf::Load(variable))
    } else {
        Operation::Leaf(Leaf::Extend {
            variable,
            context: here,
        })
    }
}

// How far the bit of this number stands from the rightmost, where there is one (5.2.1).
fn place_in(bounds: Bounds, number: u32) -> Option<u32>
    ensures { result ≡ place_in_bounds bounds number }
{
    let (left, right) = (bounds.left, bounds.right);
    if right <= left {
        if right <= number && number <= left {
            Some(number - right)
        } else {
            None
        }
    } else if left <= number && number <= right {
        Some(right - number)
    } else {
        None
    }
}

// `name[left:right]` of a variable that has this size: a slice, where all its bits are the variable's and go the same way (5.2.1).
fn part_leaf(variable: u32, has: Context, declared: Bounds, part: Bounds) -> Leaf
    ensures { result ≡ spec.part_leaf variable has.size declared part }
{
    let whole = Leaf::Part {
        variable,
        declared,
        part,
    };
    let Some(high) = place_in(declared, part.left) else {
        return whole;
    };
    let Some(low) = place_in(declared, part.right) else {
        return whole;
    };
    if low <= high && (high < has.size && high - low < WIDEST) {
        Leaf::Slice {
            variable,
            high,
            low,
        }
    } else {
        whole
    }
}

// What a right operand of this first node is to its operator.
fn right_operand_at(node: &Node, variables: &[Variable], here: Context) -> RightOperand
    ensures { result ≡ heads.right_operand_at variables.now node.now here }
{
    match node {
        Node::Constant(number) => RightOperand::Number(number_in(*number, here)),
        Node::Variable(variable) => {
            if is_same(context_of_variable(variables, *variable), here) {
                RightOperand::Variable(*variable)
            } else {
                RightOperand::Computed
            }
        }
        Node::Bit(_) => RightOperand::Computed,
        Node::BitOf { .. } => RightOperand::Computed,
        Node::Part { .. } => RightOperand::Computed,
        Node::Time => RightOperand::Computed,
        Node::Conversion(_) => RightOperand::Computed,
        Node::Unary(_) => RightOperand::Computed,
        Node::Binary(_) => RightOperand::Computed,
        Node::Conditional => RightOperand::Computed,
        Node::Joined => RightOperand::Computed,
        Node::Repeated(_) => RightOperand::Computed,
    }
}

// What the right operand that these nodes begin with is to its operator.
fn right_operand(nodes: &[Node], variables: &[Variable], here: Context) -> RightOperand
    ensures { IsOfFirst nodes.now (λ tree. spec.right_operand variables.now tree here) result }
{
    let Some((node, _)) = nodes.split_first() else {
        return RightOperand::Computed;
    };
    right_operand_at(node, variables, here)
}

// The operation of an operator whose right operand is known.
fn binary_operation(rule: OperandRule, operand: &RightOperand) -> Operation
    ensures { result ≡ heads.binary_operation rule operand.now }
{
    match operand {
        RightOperand::Number(number) => Operation::Unary(UnaryStep::WithNumber {
            rule,
            number: *number,
        }),
        RightOperand::Variable(variable) => Operation::Unary(UnaryStep::WithVariable {
            rule,
            variable: *variable,
        }),
        RightOperand::Computed => Operation::Binary(BinaryStep::Combine(rule)),
    }
}

// What stands before the operand of a replication.
fn put_repeated(
    code: &mut Vec<Operation>,
    count: u32,
    has: Context,
    here: Context,
) -> Result<(), NoMemory>
    ensures { OnOk result
        (code.new.items ≡ code.old.items ++ heads.repeated_head count has here) }
{
    if count <= 1 {
        return put_fit(code, has, here);
    }
    put_fitted(
        code,
        own_repeated(count, has),
        here,
        &Operation::Unary(UnaryStep::Repeat(count)),
    )
}

// `name[index]`; the nodes begin with the index.
#[cycle(compiles)]
fn compile_bit<'n>(
    variable: u32,
    nodes: &'n [Node],
    variables: &[Variable],
    here: Context,
    code: &mut Vec<Operation>,
) -> Result<&'n [Node], NoMemory>
    ensures compiled { IfOk result (λ behind. IsCompiled variables.now here
        (Node.Bit variable ∷ nodes.now) code.old.items code.new.items behind.now) }
    ensures fewer { IfOk result (λ behind. length behind.now ≤ length nodes.now) }
{
    let (there, _) = self_determined(nodes, variables);
    let bounds = bounds_of(variables, variable);
    let operation = Operation::Unary(UnaryStep::Bit { variable, bounds });
    put_fitted(code, ONE_BIT, here, &operation)?;
    compile_nodes(nodes, variables, there, code)
}

// `name[index]` of a parameter; the nodes begin with the index.
#[cycle(compiles)]
fn compile_bit_of<'n>(
    value: Vec4,
    bounds: Bounds,
    nodes: &'n [Node],
    variables: &[Variable],
    here: Context,
    code: &mut Vec<Operation>,
) -> Result<&'n [Node], NoMemory>
    ensures compiled { IfOk result (λ behind. IsCompiled variables.now here
        (Node.BitOf value bounds ∷ nodes.now) code.old.items code.new.items behind.now) }
    ensures fewer { IfOk result (λ behind. length behind.now ≤ length nodes.now) }
{
    let (there, _) = self_determined(nodes, variables);
    let operation = Operation::Unary(UnaryStep::BitOf { value, bounds });
    put_fitted(code, ONE_BIT, here, &operation)?;
    compile_nodes(nodes, variables, there, code)
}

// `$signed(operand)`, or `$unsigned(operand)`; the nodes begin with the operand.
#[cycle(compiles)]
fn compile_conversion<'n>(
    signed: bool,
    nodes: &'n [Node],
    variables: &[Variable],
    here: Context,
    code: &mut Vec<Operation>,
) -> Result<&'n [Node], NoMemory>
    ensures compiled { IfOk result (λ behind. IsCompiled variables.now here
        (Node.Conversion signed ∷ nodes.now) code.old.items code.new.items behind.now) }
    ensures fewer { IfOk result (λ behind. length behind.now ≤ length nodes.now) }
{
    let (there, _) = self_determined(nodes, variables);
    put_fit(code, there, here)?;
    compile_nodes(nodes, variables, there, code)
}

// `- operand`; the nodes begin with the operand.
#[cycle(compiles)]
fn compile_unary<'n>(
    operator: UnaryOperator,
    nodes: &'n [Node],
    variables: &[Variable],
    here: Context,
    code: &mut Vec<Operation>,
) -> Result<&'n [Node], NoMemory>
    ensures compiled { IfOk result (λ behind. IsCompiled variables.now here
        (Node.Unary operator ∷ nodes.now) code.old.items code.new.items behind.now) }
    ensures fewer { IfOk result (λ behind. length behind.now ≤ length nodes.now) }
{
    let rule = unary_operand_rule_of(operator);
    let (operand, _) = self_determined(nodes, variables);
    let there = operand_context(rule, operand, here);
    let operation = Operation::Unary(UnaryStep::Apply(rule));
    put_fitted(code, unary_result_in(rule, here), here, &operation)?;
    compile_nodes(nodes, variables, there, code)
}

// The right operand of an operator, which these nodes begin with, where it has not gone into the operator's operation.
#[cycle(compiles)]
fn compile_right<'n>(
    operand: &RightOperand,
    nodes: &'n [Node],
    variables: &[Variable],
    here: Context,
    code: &mut Vec<Operation>,
) -> Result<&'n [Node], NoMemory>
    ensures compiled { IfOk result (λ behind. IsRightCompiled variables.now here operand.now
        nodes.now code.old.items code.new.items behind.now) }
    ensures fewer { IfOk result (λ behind. length behind.now ≤ length nodes.now) }
{
    match operand {
        RightOperand::Number(_) => Ok(self_determined(nodes, variables).1),
        RightOperand::Variable(_) => Ok(self_determined(nodes, variables).1),
        RightOperand::Computed => compile_nodes(nodes, variables, here, code),
    }
}

// `left + right`; the nodes begin with both operands.
#[cycle(compiles)]
fn compile_binary<'n>(
    operator: BinaryOperator,
    nodes: &'n [Node],
    variables: &[Variable],
    here: Context,
    code: &mut Vec<Operation>,
) -> Result<&'n [Node], NoMemory>
    ensures compiled { IfOk result (λ behind. IsCompiled variables.now here
        (Node.Binary operator ∷ nodes.now) code.old.items code.new.items behind.now) }
    ensures fewer { IfOk result (λ behind. length behind.now ≤ length nodes.now) }
{
    let rule = operand_rule_of(operator);
    let (left, behind) = self_determined(nodes, variables);
    let (right, _) = self_determined(behind, variables);
    let (first, second) = operand_contexts(rule, left, right, here);
    let operand = right_operand(behind, variables, second);
    put_fitted(
        code,
        binary_result_in(rule, here),
        here,
        &binary_operation(rule, &operand),
    )?;
    let behind = compile_nodes(nodes, variables, first, code)?;
    compile_right(&operand, behind, variables, second, code)
}

// `condition ? when_true : when_false`; the nodes begin with the three.
#[cycle(compiles)]
fn compile_conditional<'n>(
    nodes: &'n [Node],
    variables: &[Variable],
    here: Context,
    code: &mut Vec<Operation>,
) -> Result<&'n [Node], NoMemory>
    ensures compiled { IfOk result (λ behind. IsCompiled variables.now here
        (Node.Conditional ∷ nodes.now) code.old.items code.new.items behind.now) }
    ensures fewer { IfOk result (λ behind. length behind.now ≤ length nodes.now) }
{
    let (there, _) = self_determined(nodes, variables);
    put(code, &Operation::Choose)?;
    let behind = compile_nodes(nodes, variables, there, code)?;
    let behind = compile_nodes(behind, variables, here, code)?;
    compile_nodes(behind, variables, here, code)
}

// `{left, right}`; the nodes begin with both.
#[cycle(compiles)]
fn compile_joined<'n>(
    nodes: &'n [Node],
    variables: &[Variable],
    here: Context,
    code: &mut Vec<Operation>,
) -> Result<&'n [Node], NoMemory>
    ensures compiled { IfOk result (λ behind. IsCompiled variables.now here
        (Node.Joined ∷ nodes.now) code.old.items code.new.items behind.now) }
    ensures fewer { IfOk result (λ behind. length behind.now ≤ length nodes.now) }
{
    let (left, behind) = self_determined(nodes, variables);
    let (right, _) = self_determined(behind, variables);
    let operation = Operation::Binary(BinaryStep::Join);
    put_fitted(code, own_joined(left, right), here, &operation)?;
    let behind = compile_nodes(nodes, variables, left, code)?;
    compile_nodes(behind, variables, right, code)
}

// `{count{operand}}`; the nodes begin with the operand.
#[cycle(compiles)]
fn compile_repeated<'n>(
    count: u32,
    nodes: &'n [Node],
    variables: &[Variable],
    here: Context,
    code: &mut Vec<Operation>,
) -> Result<&'n [Node], NoMemory>
    ensures compiled { IfOk result (λ behind. IsCompiled variables.now here
        (Node.Repeated count ∷ nodes.now) code.old.items code.new.items behind.now) }
    ensures fewer { IfOk result (λ behind. length behind.now ≤ length nodes.now) }
{
    let (there, _) = self_determined(nodes, variables);
    put_repeated(code, count, there, here)?;
    compile_nodes(nodes, variables, there, code)
}

// Puts the operations, where it stands, of the expression that these nodes begin with behind others, and answers the nodes after it.
#[cycle(compiles)]
fn compile_nodes<'n>(
    nodes: &'n [Node],
    variables: &[Variable],
    here: Context,
    code: &mut Vec<Operation>,
) -> Result<&'n [Node], NoMemory>
    ensures compiled { IfOk result (λ behind. IsCompiled variables.now here nodes.now
        code.old.items code.new.items behind.now) }
    ensures fewer { IfOk result (λ behind. length behind.now ≤ length nodes.now - 1) }
{
    let Some((node, behind)) = nodes.split_first() else {
        return Ok(nodes);
    };
    match node {
        Node::Constant(number) => {
            put(
                code,
                &Operation::Leaf(Leaf::Number(number_in(*number, here))),
            )?;
            Ok(behind)
        }
        Node::Variable(variable) => {
            let has = context_of_variable(variables, *variable);
            put(code, &variable_operation(*variable, has, here))?;
            Ok(behind)
        }
        Node::Bit(variable) => compile_bit(*variable, behind, variables, here, code),
        Node::BitOf { value, bounds } => {
            compile_bit_of(*value, *bounds, behind, variables, here, code)
        }
        Node::Part { variable, bounds } => {
            let has = context_of_variable(variables, *variable);
            let leaf = part_leaf(*variable, has, bounds_of(variables, *variable), *bounds);
            put_fitted(code, own_part(*bounds), here, &Operation::Leaf(leaf))?;
            Ok(behind)
        }
        Node::Time => {
            put_fitted(code, TIME, here, &Operation::Leaf(Leaf::Time))?;
            Ok(behind)
        }
        Node::Conversion(signed) => compile_conversion(*signed, behind, variables, here, code),
        Node::Unary(operator) => compile_unary(*operator, behind, variables, here, code),
        Node::Binary(operator) => compile_binary(*operator, behind, variables, here, code),
        Node::Conditional => compile_conditional(behind, variables, here, code),
        Node::Joined => compile_joined(behind, variables, here, code),
        Node::Repeated(count) => compile_repeated(*count, behind, variables, here, code),
    }
}

/// The code of an expression by itself, where the variables are declared so. E901 is the only refusal.
pub fn compile_expression(
    alloc: Global,
    expression: &Expression,
    variables: &[Variable],
) -> Result<ExpressionCode, NoMemory>
    ensures { IfOk result
        (λ code. code ≡ spec.self_determined_code variables.now expression.now) }
{
    let nodes = expression.nodes();
    let (here, _) = self_determined(nodes, variables);
    let mut code = Vec::new(alloc);
    compile_nodes(nodes, variables, here, &mut code)?;
    Ok(ExpressionCode::new(code))
}

/// The code of the right side of an assignment to `count` bits, 1 to 64: at the larger of both sizes, then cut to `count` (5.4.1, 5.5.3). E901
/// is the only refusal.
pub fn compile_right_side(
    alloc: Global,
    expression: &Expression,
    variables: &[Variable],
    count: u32,
) -> Result<ExpressionCode, NoMemory>
    requires some { 1 ≤ count }
    requires few { count ≤ 64 }
    ensures { IfOk result
        (λ code. code ≡ spec.right_side_code variables.now count expression.now) }
{
    let nodes = expression.nodes();
    let (own, _) = self_determined(nodes, variables);
    let larger = larger_context(count, own);
    let mut code = Vec::new(alloc);
    put_fit(&mut code, larger, with_size(count, own))?;
    compile_nodes(nodes, variables, larger, &mut code)?;
    Ok(ExpressionCode::new(code))
}
