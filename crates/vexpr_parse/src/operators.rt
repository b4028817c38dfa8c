// What follows a left side: binary operators, and a conditional (IEEE 1364-2005, 5.1.2 and 5.1.13).

ghost use Rattle.std.specs.Prelude.{◌≡◌, ◌+◌, ◌<◌, ◌^◌, Some, true, ◌∷◌, [], IfOk};
ghost use Rattle.vexpr_parse.specs.Readers.{front};
ghost use Rattle.vexpr_parse.specs.Answers.{Reads, ahead, joining, Keeps, KeepsBehind, KeepsEach, found_leaves};
ghost use Rattle.vexpr_parse.specs.Rules.{IsMeasuredIn, FindsTurn, FindsTurns, FindsBranches, FindsQuestion};

use crate::cursor::Cursor;
use crate::found::{Found, combination_of, conditional_of};
use crate::stop::Stop;
use basis::OrMemory;
use std::alloc::Global;
use vast::operators::rank;
use vlex::Tokens;
use vwords::operators::BinaryOperator;

// The operator here, of this rank at least, and its right side.
#[tactic(auto, using(crate::proofs::Turning::turn_enters, crate::proofs::Turning::turn_low, crate::proofs::LeafWords::operator_leaf))]
fn turn<F: Fn(&mut Cursor, u32) -> Result<Found, OrMemory<Stop>>>(
    alloc: Global,
    read: &F,
    below: u32,
    tokens: &Tokens<'_>,
    cursor: &mut Cursor,
    least: u32,
    left: Found,
    operator: BinaryOperator,
) -> Result<Found, OrMemory<Stop>>
    requires callable { F.IsAlwaysCallable read.now }
    requires reads { Reads tokens.now below (F.post read.now) }
    requires keeps { KeepsEach tokens.now (F.post read.now) }
    requires here { joining least (front (ahead tokens.now cursor.old)) ≡ Some operator }
    requires left { IsMeasuredIn tokens.now (1 + below) left }
    ensures finds { FindsTurn tokens.now below least left cursor.old cursor.new result }
    ensures kept { IfOk result (KeepsBehind (found_leaves left) found_leaves
        tokens.now cursor.old cursor.new) }
{
    cursor.enter(tokens, below, left.depth)?;
    let right = read(cursor, rank(operator) + 1)?;
    Ok(combination_of(alloc, operator, left, right)?)
}

/// The operators of this rank at least that follow a left side.
pub fn operators<F: Fn(&mut Cursor, u32) -> Result<Found, OrMemory<Stop>>>(
    alloc: Global,
    read: &F,
    below: u32,
    tokens: &Tokens<'_>,
    cursor: &mut Cursor,
    least: u32,
    first: Found,
) -> Result<Found, OrMemory<Stop>>
    requires callable { F.IsAlwaysCallable read.now }
    requires reads { Reads tokens.now below (F.post read.now) }
    requires keeps { KeepsEach tokens.now (F.post read.now) }
    requires first { IsMeasuredIn tokens.now (1 + below) first }
    ensures finds { FindsTurns tokens.now below least first cursor.old cursor.new result }
    ensures kept { IfOk result (KeepsBehind (found_leaves first) found_leaves
        tokens.now cursor.old cursor.new) }
{
    let mut left = first;
    'turns: while let Some(operator) = cursor.operator(tokens, least) {
        left = turn(alloc, read, below, tokens, cursor, least, left, operator)?;
    }
    Ok(left)
}

// What follows `?`.
fn branches<F: Fn(&mut Cursor, u32) -> Result<Found, OrMemory<Stop>>>(
    alloc: Global,
    read: &F,
    below: u32,
    tokens: &Tokens<'_>,
    cursor: &mut Cursor,
    condition: Found,
) -> Result<Found, OrMemory<Stop>>
    requires callable { F.IsAlwaysCallable read.now }
    requires reads { Reads tokens.now below (F.post read.now) }
    requires keeps { KeepsEach tokens.now (F.post read.now) }
    requires condition { IsMeasuredIn tokens.now below condition }
    ensures finds { FindsBranches tokens.now below condition cursor.old cursor.new result }
    ensures kept { IfOk result (KeepsBehind (found_leaves condition) found_leaves
        tokens.now cursor.old cursor.new) }
{
    let when_true = read(cursor, 0)?;
    cursor.symbol(tokens, b":")?;
    let when_false = read(cursor, 0)?;
    Ok(conditional_of(alloc, condition, when_true, when_false)?)
}

/// The tree itself, or a conditional of it, where the rank lets one stand.
#[tactic(auto, using(crate::proofs::Turning::asked_enters, crate::proofs::Turning::asked_low, crate::proofs::LeafWords::asked_leaf))]
pub fn question<F: Fn(&mut Cursor, u32) -> Result<Found, OrMemory<Stop>>>(
    alloc: Global,
    read: &F,
    below: u32,
    tokens: &Tokens<'_>,
    cursor: &mut Cursor,
    least: u32,
    left: Found,
) -> Result<Found, OrMemory<Stop>>
    requires callable { F.IsAlwaysCallable read.now }
    requires reads { Reads tokens.now below (F.post read.now) }
    requires keeps { KeepsEach tokens.now (F.post read.now) }
    requires left { IsMeasuredIn tokens.now (1 + below) left }
    ensures finds { FindsQuestion tokens.now below least left cursor.old cursor.new result }
    ensures kept { IfOk result (KeepsBehind (found_leaves left) found_leaves
        tokens.now cursor.old cursor.new) }
{
    if cursor.is_asked(tokens, least) {
        cursor.enter(tokens, below, left.depth)?;
        branches(alloc, read, below, tokens, cursor, left)
    } else {
        Ok(left)
    }
}
