// What assignments write to (IEEE 1364-2005, 5.1.14, 5.2.1, 6.2).

ghost use Rattle.std.specs.Prelude.{◌≡◌, List, is_some};
ghost use Rattle.vwords.specs.Words.{Text};
ghost use Rattle.vast.specs.NumberedTrees.{tree_of as text_tree, trees_of as text_trees};
ghost use Rattle.vast.specs.NumberedWords.{word_of};
ghost use Rattle.vast.specs.NumberedTrees.{target_tree, target_trees};
ghost use Rattle.vexpr_parse.specs.Texts.{words_of};
ghost use Rattle.velab_expr.specs.Answers.{Gives, Makes, behind};
ghost use Rattle.velab_expr.specs.InnerTargets.{lower_bit, lower_part, lower_connected, lower_all_connected};
ghost use Rattle.velab_expr.specs.Written as spec;
ghost use Rattle.velab_expr.specs.Written.{lower_index, lower_target, lower_target_by, lower_targets_by, lower_net_target, target_of, targets_of as target_trees_of};

use crate::constant::part_bounds;
use crate::expression::{constant_expression, expression_of, worth};
use crate::fault::ElabFault;
use crate::scope::{Scope, number_of};
use basis::OrMemory;
use std::alloc::Global;
use vast::expression::Expression as Value;
use vast::statement::Target as Written;
use vast::token::Token;
use vdesign::action::{Target, Targets};
use vdesign::expression::{Bounds, Expression};
use vlex::Tokens;

// The bounds of a part. E303, E306 or E307 where one isn't constant.
fn bounds_of(
    alloc: Global,
    scope: &Scope<'_, '_>,
    tokens: &Tokens<'_>,
    left: &Value,
    right: &Value,
) -> Result<Bounds, OrMemory<ElabFault>>
    ensures { Gives result (spec.lower_bounds scope.now
        (text_tree (words_of tokens.now) left.now) (text_tree (words_of tokens.now) right.now)) }
{
    let left = worth(alloc, scope, tokens, left)?;
    let right = worth(alloc, scope, tokens, right)?;
    Ok(part_bounds(left, right))
}

// The place of a bit. E303, E306 or E307 where it has to be constant and isn't.
fn index_of(
    alloc: Global,
    scope: &Scope<'_, '_>,
    fixed: bool,
    tokens: &Tokens<'_>,
    index: &Value,
) -> Result<Expression, OrMemory<ElabFault>>
    ensures { Gives result (lower_index fixed scope.now (text_tree (words_of tokens.now) index.now)) }
{
    if fixed {
        constant_expression(alloc, scope, tokens, index)
    } else {
        expression_of(alloc, scope, tokens, index)
    }
}

// A bit.
fn bit_target(
    alloc: Global,
    scope: &Scope<'_, '_>,
    fixed: bool,
    tokens: &Tokens<'_>,
    name: Token,
    index: &Value,
) -> Result<Target, OrMemory<ElabFault>>
    ensures { Gives result (lower_bit fixed scope.now (word_of (words_of tokens.now) name)
        (text_tree (words_of tokens.now) index.now)) }
{
    let variable = number_of(scope, tokens, name)?;
    let index = index_of(alloc, scope, fixed, tokens, index)?;
    Ok(Target::Bit { variable, index })
}

// A part.
fn part_target(
    alloc: Global,
    scope: &Scope<'_, '_>,
    tokens: &Tokens<'_>,
    name: Token,
    left: &Value,
    right: &Value,
) -> Result<Target, OrMemory<ElabFault>>
    ensures { Gives result (lower_part scope.now (word_of (words_of tokens.now) name)
        (text_tree (words_of tokens.now) left.now) (text_tree (words_of tokens.now) right.now)) }
{
    let variable = number_of(scope, tokens, name)?;
    let bounds = bounds_of(alloc, scope, tokens, left, right)?;
    Ok(Target::Part { variable, bounds })
}

// Puts a target behind others.
#[cycle(targets)]
fn put_target(
    alloc: Global,
    scope: &Scope<'_, '_>,
    fixed: bool,
    tokens: &Tokens<'_>,
    target: &Written,
    into: &mut Vec<Target>,
) -> Result<(), OrMemory<ElabFault>>
    ensures { Makes result into.new.items (behind into.old.items
        (lower_target_by fixed scope.now (target_tree (words_of tokens.now) target.now))) }
{
    match target {
        Written::Whole(name) => {
            let number = number_of(scope, tokens, *name)?;
            Ok(into.push(Target::Whole(number))?)
        }
        Written::Bit { name, index } => {
            Ok(into.push(bit_target(alloc, scope, fixed, tokens, *name, index)?)?)
        }
        Written::Part { name, left, right } => {
            Ok(into.push(part_target(alloc, scope, tokens, *name, left, right)?)?)
        }
        Written::Joined { targets, .. } => put_targets(alloc, scope, fixed, tokens, targets, into),
    }
}

// The targets of a concatenation.
#[cycle(targets)]
fn put_targets(
    alloc: Global,
    scope: &Scope<'_, '_>,
    fixed: bool,
    tokens: &Tokens<'_>,
    targets: &[Written],
    into: &mut Vec<Target>,
) -> Result<(), OrMemory<ElabFault>>
    ensures { Makes result into.new.items (behind into.old.items
        (lower_targets_by fixed scope.now (target_trees (words_of tokens.now) targets.now))) }
{
    for one in targets {
        put_target(alloc, scope, fixed, tokens, one, into)?;
    }
    Ok(())
}

/// What an assignment writes to, the leftmost target first (5.1.14). E303 where a name stands for nothing, E310 where it is no
/// variable, E306 or E307 where what has to be constant is wrong.
pub fn targets_of(
    alloc: Global,
    scope: &Scope<'_, '_>,
    tokens: &Tokens<'_>,
    target: &Written,
) -> Result<Targets, OrMemory<ElabFault>>
    ensures gives { Gives result
        (lower_target scope.now (target_tree (words_of tokens.now) target.now)) }
{
    let mut list = Vec::new(alloc);
    put_target(alloc, scope, false, tokens, target, &mut list)?;
    Ok(Targets::new(list))
}

/// What a continuous assignment drives, the leftmost target first (6.1). Faults as of `targets_of`, and where the index of a bit
/// isn't constant E303, E306 or E307.
pub fn net_targets_of(
    alloc: Global,
    scope: &Scope<'_, '_>,
    tokens: &Tokens<'_>,
    target: &Written,
) -> Result<Targets, OrMemory<ElabFault>>
    ensures gives { Gives result
        (lower_net_target scope.now (target_tree (words_of tokens.now) target.now)) }
{
    let mut list = Vec::new(alloc);
    put_target(alloc, scope, true, tokens, target, &mut list)?;
    Ok(Targets::new(list))
}

/// Whether what an output is connected to can be driven (12.3.9).
#[cycle(drivable)]
pub fn is_drivable(value: &Value) -> bool
    ensures { (words : List Text) → result ≡ is_some (target_of (text_tree words value.now)) }
{
    match value {
        Value::Name(_) => true,
        Value::Bit { .. } => true,
        Value::Part { .. } => true,
        Value::Concatenation { parts, .. } => are_drivable(parts),
        _ => false,
    }
}

// The same of each part of a concatenation.
#[cycle(drivable)]
fn are_drivable(parts: &[Value]) -> bool
    ensures { (words : List Text) → result ≡ is_some (target_trees_of (text_trees words parts.now)) }
{
    for one in parts {
        if !is_drivable(one) {
            return false;
        }
    }
    true
}

// Puts what an output is connected to behind other targets.
#[cycle(connected)]
fn put_connected(
    alloc: Global,
    scope: &Scope<'_, '_>,
    tokens: &Tokens<'_>,
    value: &Value,
    into: &mut Vec<Target>,
) -> Result<(), OrMemory<ElabFault>>
    ensures { Makes result into.new.items (behind into.old.items
        (lower_connected scope.now (text_tree (words_of tokens.now) value.now))) }
{
    match value {
        Value::Name(name) => {
            let number = number_of(scope, tokens, *name)?;
            Ok(into.push(Target::Whole(number))?)
        }
        Value::Bit { name, index } => {
            Ok(into.push(bit_target(alloc, scope, true, tokens, *name, index)?)?)
        }
        Value::Part { name, left, right } => {
            Ok(into.push(part_target(alloc, scope, tokens, *name, left, right)?)?)
        }
        Value::Concatenation { parts, .. } => put_all_connected(alloc, scope, tokens, parts, into),
        _ => Ok(()),
    }
}

// The same of each part of a concatenation.
#[cycle(connected)]
fn put_all_connected(
    alloc: Global,
    scope: &Scope<'_, '_>,
    tokens: &Tokens<'_>,
    parts: &[Value],
    into: &mut Vec<Target>,
) -> Result<(), OrMemory<ElabFault>>
    ensures { Makes result into.new.items (behind into.old.items
        (lower_all_connected scope.now (text_trees (words_of tokens.now) parts.now))) }
{
    for one in parts {
        put_connected(alloc, scope, tokens, one, into)?;
    }
    Ok(())
}

/// What an output drives outside (12.3.9): the targets that this stands for, where it can be driven. Faults as of `net_targets_of`.
pub fn connected_targets_of(
    alloc: Global,
    scope: &Scope<'_, '_>,
    tokens: &Tokens<'_>,
    value: &Value,
) -> Result<Targets, OrMemory<ElabFault>>
    ensures { Gives result (lower_connected scope.now (text_tree (words_of tokens.now) value.now)) }
{
    let mut list = Vec::new(alloc);
    put_connected(alloc, scope, tokens, value, &mut list)?;
    Ok(Targets::new(list))
}
