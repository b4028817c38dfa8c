// The value of code.

ghost use Rattle.std.specs.Prelude.{◌≡◌, ◌≤◌, ◌-◌, ◌∷◌, length};
ghost use Rattle.expression_code.specs.Code as spec;
ghost use Rattle.expression_code.specs.Operations.{IsOfFirst, AreBehindFirst};

use crate::operation::{BinaryStep, ExpressionCode, Leaf, Operation, UnaryStep};
use crate::operators::{chosen_value, fitted_value, operator_value, unary_value};
use vbits::Vec4;
use vvalue::environment::{Environment, time_of, value_at};
use vvalue::select::{indexed_bit, joined_value, part_of, repeated_value};

// The letters between two places, both with them.
fn slice_value(value: Vec4, high: u32, low: u32) -> Vec4
    ensures { result ≡ spec.slice_value value high low }
{
    if low <= high && high < value.len() {
        value.select(high, low)
    } else {
        value
    }
}

fn leaf_value(leaf: &Leaf, environment: &Environment<'_>) -> Vec4
    ensures { result ≡ spec.leaf_value environment.now.values environment.now.time leaf.now }
{
    match leaf {
        Leaf::Number(value) => *value,
        Leaf::Load(variable) => value_at(environment, *variable),
        Leaf::Extend { variable, context } => fitted_value(
            value_at(environment, *variable),
            *context,
        ),
        Leaf::Time => time_of(environment),
        Leaf::Part {
            variable,
            declared,
            part,
        } => part_of(value_at(environment, *variable), *declared, *part),
        Leaf::Slice {
            variable,
            high,
            low,
        } => slice_value(value_at(environment, *variable), *high, *low),
    }
}

fn unary_step_value(step: &UnaryStep, value: Vec4, environment: &Environment<'_>) -> Vec4
    ensures { result ≡ spec.unary_step_value environment.now.values step.now value }
{
    match step {
        UnaryStep::Bit { variable, bounds } => {
            indexed_bit(value_at(environment, *variable), *bounds, value)
        }
        UnaryStep::BitOf {
            value: parameter,
            bounds,
        } => indexed_bit(*parameter, *bounds, value),
        UnaryStep::Fit(context) => fitted_value(value, *context),
        UnaryStep::Apply(rule) => unary_value(*rule, value),
        UnaryStep::WithNumber { rule, number } => operator_value(*rule, value, *number),
        UnaryStep::WithVariable { rule, variable } => {
            operator_value(*rule, value, value_at(environment, *variable))
        }
        UnaryStep::Repeat(count) => repeated_value(*count, value),
    }
}

fn binary_step_value(step: &BinaryStep, left: Vec4, right: Vec4) -> Vec4
    ensures { result ≡ spec.binary_step_value step.now left right }
{
    match step {
        BinaryStep::Combine(rule) => operator_value(*rule, left, right),
        BinaryStep::Join => joined_value(left, right),
    }
}

// The value of the code that these operations begin with, and the operations after it: of a leaf at once.
#[cycle(runs)]
fn run_first<'o>(
    operations: &'o [Operation],
    environment: &Environment<'_>,
) -> (Vec4, &'o [Operation])
    ensures exact { IsOfFirst operations.now (spec.code_value environment.now.values environment.now.time) result.0 }
    ensures rest { AreBehindFirst operations.now result.1.now }
    ensures fewer { length result.1.now ≤ length operations.now - 1 }
{
    let Some((operation, behind)) = operations.split_first() else {
        return (Vec4::all_x(1), operations);
    };
    match operation {
        Operation::Leaf(leaf) => (leaf_value(leaf, environment), behind),
        _ => run_operation(operation, behind, environment),
    }
}

// The value of the code of an operation, behind which its operands stand, and the operations after it.
#[cycle(runs)]
fn run_operation<'o>(
    operation: &Operation,
    behind: &'o [Operation],
    environment: &Environment<'_>,
) -> (Vec4, &'o [Operation])
    ensures exact { IsOfFirst (operation.now ∷ behind.now) (spec.code_value environment.now.values environment.now.time) result.0 }
    ensures rest { AreBehindFirst (operation.now ∷ behind.now) result.1.now }
    ensures fewer { length result.1.now ≤ length behind.now }
{
    match operation {
        Operation::Leaf(leaf) => (leaf_value(leaf, environment), behind),
        Operation::Unary(step) => {
            let (value, behind) = run_first(behind, environment);
            (unary_step_value(step, value, environment), behind)
        }
        Operation::Binary(step) => {
            let (left, behind) = run_first(behind, environment);
            let (right, behind) = run_first(behind, environment);
            (binary_step_value(step, left, right), behind)
        }
        Operation::Choose => {
            let (condition, behind) = run_first(behind, environment);
            let (when_true, behind) = run_first(behind, environment);
            let (when_false, behind) = run_first(behind, environment);
            (
                chosen_value(condition.truth(), when_true, when_false),
                behind,
            )
        }
    }
}

/// The value of code, by the values of the variables and the time as `$time` tells it. It takes no memory.
pub fn run_expression(code: &ExpressionCode, environment: &Environment<'_>) -> Vec4
    ensures { result ≡ spec.code_value environment.now.values environment.now.time code.now }
{
    run_first(code.operations(), environment).0
}
