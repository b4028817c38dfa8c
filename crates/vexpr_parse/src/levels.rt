// Expressions of so many levels (IEEE 1364-2005, A.8; docs/LANGUAGE.md, "Depth").

ghost use Rattle.std.specs.Prelude.{IfOk, ◌≡◌, ◌+◌, ◌-◌, ◌<◌, ◌^◌};
ghost use Rattle.basis.specs.Reasons.{IfFault};
ghost use Rattle.vexpr_parse.specs.Answers.{Reads, Keeps, KeepsEach, found_leaves};
ghost use Rattle.vexpr_parse.specs.Rules.{FindsAt, FindsRanked, IsFoundAt, IsStoppedAt, expression_at};

use crate::cursor::Cursor;
use crate::found::Found;
use crate::operators::{operators, question};
use crate::primary::primary;
use crate::stop::Stop;
use basis::OrMemory;
use std::alloc::Global;
use vlex::Tokens;

// An expression of this rank at least, with so many levels below it.
fn at_level<F: Fn(&mut Cursor, u32) -> Result<Found, OrMemory<Stop>>>(
    alloc: Global,
    read: F,
    below: u32,
    tokens: &Tokens<'_>,
    cursor: &mut Cursor,
    least: u32,
) -> Result<Found, OrMemory<Stop>>
    requires callable { F.IsAlwaysCallable read }
    requires reads { Reads tokens.now below (F.post read) }
    requires keeps { KeepsEach tokens.now (F.post read) }
    ensures kept { IfOk result (Keeps found_leaves tokens.now cursor.old cursor.new) }
    ensures finds { FindsAt tokens.now below
        (expression_at below least) cursor.old cursor.new result }
{
    let first = primary(alloc, &read, below, tokens, cursor)?;
    let left = operators(alloc, &read, below, tokens, cursor, least, first)?;
    question(alloc, &read, below, tokens, cursor, least, left)
}

// An expression of so many levels at most, and of this rank at least.
#[cycle(levels)]
fn of_rank(
    alloc: Global,
    tokens: &Tokens<'_>,
    cursor: &mut Cursor,
    levels: u32,
    least: u32,
) -> Result<Found, OrMemory<Stop>>
    ensures finds { FindsRanked tokens.now levels least cursor.old cursor.new result }
    ensures kept { IfOk result (Keeps found_leaves tokens.now cursor.old cursor.new) }
{
    if levels == 0 {
        return Err(OrMemory::Fault(Stop::NoTree));
    }
    let below = levels - 1;
    at_level(
        alloc,
        |cursor, least|
            ensures finds { FindsRanked tokens.entry.now below least cursor.entry.now
                cursor.exit.now result }
            ensures kept { IfOk result
                (Keeps found_leaves tokens.entry.now cursor.entry.now cursor.exit.now) }
        { of_rank(alloc, tokens, cursor, below, least) },
        below,
        tokens,
        cursor,
        least,
    )
}

/// The longest expression at the front of the words, of so many levels at most, one or more. The cursor is left after
/// it, or at the first word with which the words before it begin none: of any depth (`NoTree`), or only for want of a
/// level (`TooDeep`). Want of memory leaves it anywhere.
pub fn expression(
    alloc: Global,
    tokens: &Tokens<'_>,
    cursor: &mut Cursor,
    levels: u32,
) -> Result<Found, OrMemory<Stop>>
    requires { 0 < levels }
    ensures kept { IfOk result (Keeps found_leaves tokens.now cursor.old cursor.new) }
    ensures reads { FindsRanked tokens.now levels 0 cursor.old cursor.new result }
    ensures found { IfOk result (IsFoundAt tokens.now levels cursor.old cursor.new) }
    ensures stop { IfFault result (IsStoppedAt tokens.now levels cursor.old cursor.new) }
{
    of_rank(alloc, tokens, cursor, levels, 0)
}
