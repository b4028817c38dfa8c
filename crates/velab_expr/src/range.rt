// Ranges: the bounds that vectors are declared with (IEEE 1364-2005, 4.3.1).
ghost use Rattle.std.specs.Prelude.{◌≡◌, ◌≤◌, None, option_map, IfOk, OnOk};
ghost use Rattle.vast.specs.NumberedTrees.{tree_of};
ghost use Rattle.vast.specs.NumberedTrees.{range_tree};
ghost use Rattle.vexpr_parse.specs.Texts.{words_of};
ghost use Rattle.velab_expr.specs.Answers.{Gives};
ghost use Rattle.velab_expr.specs.Ranges as spec;
ghost use Rattle.velab_expr.specs.Inner.{IsNarrow};

use crate::constant::bound_in;
use crate::expression::worth;
use crate::fault::{ElabFault, Rule};
use crate::first::first_in;
use crate::number::WIDEST;
use crate::refusal::refusal;
use crate::scope::Scope;
use basis::OrMemory;
use std::alloc::Global;
use vast::expression::Expression;
use vast::module::Bounds as Written;
use vdesign::expression::Bounds;
use vlex::Tokens;

// E306 where it isn't 0 to 65,535.
fn right_bound(
    alloc: Global,
    scope: &Scope<'_, '_>,
    tokens: &Tokens<'_>,
    bound: &Expression,
) -> Result<u32, OrMemory<ElabFault>>
    ensures gives { Gives result
        (spec.lower_bound scope.now (tree_of (words_of tokens.now) bound.now)) }
    ensures within { IfOk result (λ n. n ≤ 65535) }
{
    let value = worth(alloc, scope, tokens, bound)?;
    match bound_in(value) {
        Some(bound) => Ok(bound),
        None => Err(refusal(Rule::Width, first_in(bound))),
    }
}

/// How many bits there are from one bound to the other.
pub fn span(bounds: Bounds) -> u32
    requires { spec.span bounds ≤ 65536 }
    ensures { result ≡ spec.span bounds }
{
    bounds.left.max(bounds.right) - bounds.left.min(bounds.right) + 1
}

// E306 where a bound is none, or where they are more than 64 bits apart.
fn bounds_of(
    alloc: Global,
    scope: &Scope<'_, '_>,
    tokens: &Tokens<'_>,
    range: &Written,
) -> Result<Bounds, OrMemory<ElabFault>>
    ensures gives { Gives result
        (spec.lower_range scope.now (range_tree (words_of tokens.now) range.now)) }
    ensures few { IfOk result (λ bounds. spec.span bounds ≤ 64) }
{
    let left = right_bound(alloc, scope, tokens, &range.left)?;
    let right = right_bound(alloc, scope, tokens, &range.right)?;
    let bounds = Bounds { left, right };
    if span(bounds) > WIDEST {
        return Err(refusal(Rule::Width, first_in(&range.left)));
    }
    Ok(bounds)
}

/// The bounds of a declaration's range, where it has one. E303, E306, E307 or E310 where they are none.
pub fn range_bounds(
    alloc: Global,
    scope: &Scope<'_, '_>,
    tokens: &Tokens<'_>,
    range: &Option<Written>,
) -> Result<Option<Bounds>, OrMemory<ElabFault>>
    ensures gives { Gives result (spec.lower_bounds scope.now
        (option_map (range_tree (words_of tokens.now)) range.now)) }
    ensures few { IfOk result IsNarrow }
{
    match range {
        None => Ok(None),
        Some(range) => match bounds_of(alloc, scope, tokens, range) {
            Ok(bounds) => Ok(Some(bounds)),
            Err(fault) => Err(fault),
        },
    }
}
