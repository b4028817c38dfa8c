// Concatenations and replications (IEEE 1364-2005, 5.1.14).

ghost use Rattle.std.specs.Prelude.{◌≡◌, ◌+◌, ◌<◌, ◌^◌, ◌∷◌, [], IfOk};
ghost use Rattle.vexpr_parse.specs.Answers.{Reads, Keeps, KeepsBehind, KeepsEach, found_leaves, parts_leaves};
ghost use Rattle.vexpr_parse.specs.Rules.{FindsAt, IsMeasuredIn, FindsMore, FindsJoined, FindsRepeated, braces_at};

use crate::cursor::Cursor;
use crate::found::{Found, Parts, concatenation_of, larger, replication_of};
use crate::stop::Stop;
use basis::OrMemory;
use std::alloc::Global;
use vast::expression::Expression;
use vlex::Tokens;

// The parts behind the first one, with the commas between them.
fn more_parts<F: Fn(&mut Cursor, u32) -> Result<Found, OrMemory<Stop>>>(
    alloc: Global,
    read: &F,
    below: u32,
    tokens: &Tokens<'_>,
    cursor: &mut Cursor,
    first: Found,
) -> Result<Parts, OrMemory<Stop>>
    requires callable { F.IsAlwaysCallable read.now }
    requires reads { Reads tokens.now below (F.post read.now) }
    requires keeps { KeepsEach tokens.now (F.post read.now) }
    requires first { IsMeasuredIn tokens.now below first }
    ensures finds { FindsMore tokens.now below first cursor.old cursor.new result }
    ensures kept { IfOk result (KeepsBehind (found_leaves first) parts_leaves
        tokens.now cursor.old cursor.new) }
{
    let mut depth = first.depth;
    let mut trees: Vec<Expression> = Vec::new(alloc);
    trees.push(first.tree)?;
    'parts: while cursor.begins(tokens, b",") {
        cursor.pass(tokens);
        let part = read(cursor, 0)?;
        depth = larger(depth, part.depth);
        trees.push(part.tree)?;
    }
    Ok(Parts { trees, depth })
}

// What follows the first part of a concatenation; `at` is the number of its first token.
fn join<F: Fn(&mut Cursor, u32) -> Result<Found, OrMemory<Stop>>>(
    alloc: Global,
    read: &F,
    below: u32,
    tokens: &Tokens<'_>,
    cursor: &mut Cursor,
    at: u32,
    first: Found,
) -> Result<Found, OrMemory<Stop>>
    requires callable { F.IsAlwaysCallable read.now }
    requires reads { Reads tokens.now below (F.post read.now) }
    requires keeps { KeepsEach tokens.now (F.post read.now) }
    requires first { IsMeasuredIn tokens.now below first }
    ensures finds { FindsJoined tokens.now below first cursor.old cursor.new result }
    ensures kept { IfOk result (KeepsBehind (found_leaves first) found_leaves
        tokens.now cursor.old cursor.new) }
{
    let parts = more_parts(alloc, read, below, tokens, cursor, first)?;
    cursor.symbol(tokens, b"}")?;
    Ok(concatenation_of(at, parts))
}

// What follows the count of a replication; `at` is the number of its first token.
fn repeat<F: Fn(&mut Cursor, u32) -> Result<Found, OrMemory<Stop>>>(
    alloc: Global,
    read: &F,
    below: u32,
    tokens: &Tokens<'_>,
    cursor: &mut Cursor,
    at: u32,
    count: Found,
) -> Result<Found, OrMemory<Stop>>
    requires callable { F.IsAlwaysCallable read.now }
    requires reads { Reads tokens.now below (F.post read.now) }
    requires keeps { KeepsEach tokens.now (F.post read.now) }
    requires count { IsMeasuredIn tokens.now below count }
    ensures finds { FindsRepeated tokens.now below count cursor.old cursor.new result }
    ensures kept { IfOk result (KeepsBehind (found_leaves count) found_leaves
        tokens.now cursor.old cursor.new) }
{
    cursor.symbol(tokens, b"{")?;
    let first = read(cursor, 0)?;
    let parts = more_parts(alloc, read, below, tokens, cursor, first)?;
    cursor.symbol(tokens, b"}")?;
    cursor.symbol(tokens, b"}")?;
    Ok(replication_of(alloc, at, count, parts)?)
}

/// What follows `{`, the token of this number.
pub fn braces<F: Fn(&mut Cursor, u32) -> Result<Found, OrMemory<Stop>>>(
    alloc: Global,
    read: &F,
    below: u32,
    tokens: &Tokens<'_>,
    cursor: &mut Cursor,
    at: u32,
) -> Result<Found, OrMemory<Stop>>
    requires callable { F.IsAlwaysCallable read.now }
    requires reads { Reads tokens.now below (F.post read.now) }
    requires keeps { KeepsEach tokens.now (F.post read.now) }
    ensures finds { FindsAt tokens.now below (braces_at below) cursor.old cursor.new result }
    ensures kept { IfOk result (Keeps found_leaves tokens.now cursor.old cursor.new) }
{
    let one = read(cursor, 0)?;
    if cursor.begins(tokens, b"{") {
        repeat(alloc, read, below, tokens, cursor, at, one)
    } else {
        join(alloc, read, below, tokens, cursor, at, one)
    }
}
