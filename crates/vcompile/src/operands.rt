// The code of the operands of a design's actions.

ghost use Rattle.std.specs.Prelude.{◌≡◌, IfOk};
ghost use Rattle.vcompile.specs.Operands as spec;
ghost use Rattle.expression_code.specs.Guards.{guarded_expression, guarded_right_side};

use basis::NoMemory;
use expression_code::{GuardedCode, guard_expression, guard_right_side};
use std::alloc::Global;
use vdesign::action::{Action, Targets};
use vdesign::design::Variable;
use vdesign::expression::Expression;

// That of a right side.
fn right_side(
    alloc: Global,
    targets: &Targets,
    value: &Expression,
    variables: &[Variable],
) -> Result<Option<GuardedCode>, NoMemory>
    ensures { IfOk result (λ code. code ≡ Some (guarded_right_side variables.now targets.now value.now)) }
{
    Ok(Some(guard_right_side(alloc, targets.as_slice(), value, variables)?))
}

// That of an expression by itself.
fn by_itself(
    alloc: Global,
    value: &Expression,
    variables: &[Variable],
) -> Result<Option<GuardedCode>, NoMemory>
    ensures { IfOk result (λ code. code ≡ Some (guarded_expression variables.now value.now)) }
{
    Ok(Some(guard_expression(alloc, value, variables)?))
}

// That of the operand of an action, if it has one.
fn operand_code(
    alloc: Global,
    action: &Action,
    variables: &[Variable],
) -> Result<Option<GuardedCode>, NoMemory>
    ensures { IfOk result (λ code. code ≡ spec.operand_code variables.now action.now) }
{
    match action {
        Action::Assign { targets, value } => right_side(alloc, targets, value, variables),
        Action::Nonblocking { targets, value } => right_side(alloc, targets, value, variables),
        Action::AssignDelayed { targets, value, .. } => {
            right_side(alloc, targets, value, variables)
        }
        Action::NonblockingDelayed { targets, value, .. } => {
            right_side(alloc, targets, value, variables)
        }
        Action::ContinuousAssign { targets, value, .. } => {
            right_side(alloc, targets, value, variables)
        }
        Action::Test { condition, .. } => by_itself(alloc, condition, variables),
        Action::While { condition, .. } => by_itself(alloc, condition, variables),
        Action::Wait { condition, .. } => by_itself(alloc, condition, variables),
        Action::Repeat { count, .. } => by_itself(alloc, count, variables),
        Action::Delay { amount, .. } => by_itself(alloc, amount, variables),
        _ => Ok(None),
    }
}

/// By place the code of the operand of the action there, if it has one.
pub(crate) fn operands_of(
    alloc: Global,
    variables: &[Variable],
    actions: &[Action],
) -> Result<Vec<Option<GuardedCode>>, NoMemory>
    ensures { IfOk result (λ operands. operands.items ≡ spec.operands_of variables.now actions.now) }
{
    let mut operands = Vec::new(alloc);
    for action in actions {
        operands.push(operand_code(alloc, action, variables)?)?;
    }
    Ok(operands)
}
