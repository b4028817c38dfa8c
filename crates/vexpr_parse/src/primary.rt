// Expressions that no binary operator makes (IEEE 1364-2005, A.8.4).

ghost use Rattle.std.specs.Prelude.{◌≡◌, ◌+◌, ◌<◌, ◌^◌, ◌∷◌, [], IfOk};
ghost use Rattle.vexpr_parse.specs.Answers.{Heads, leaf_here, leaf_of, Reads, Keeps, KeepsBehind, KeepsEach, found_leaves};
ghost use Rattle.vexpr_parse.specs.Rules.{FindsAt, enclosed_at, converted_at, operand_at, round_at, FindsIndex, FindsNamed, primary_at};

use crate::beginning::{Beginning, Round};
use crate::braces::braces;
use crate::cursor::{Cursor, Word};
use crate::found::{
    Found, application_of, bit_select_of, conversion_of, in_parentheses, leaf, part_select_of,
};
use crate::stop::Stop;
use crate::words::beginning_of;
use basis::OrMemory;
use std::alloc::Global;
use vast::expression::Expression;
use vast::operators::UNARY_RANK;
use vast::token::Token;
use vlex::Tokens;
use vwords::operators::UnaryOperator;

// An expression, and the parenthesis behind it.
fn parenthesis<F: Fn(&mut Cursor, u32) -> Result<Found, OrMemory<Stop>>>(
    alloc: Global,
    read: &F,
    below: u32,
    tokens: &Tokens<'_>,
    cursor: &mut Cursor,
) -> Result<Found, OrMemory<Stop>>
    requires callable { F.IsAlwaysCallable read.now }
    requires reads { Reads tokens.now below (F.post read.now) }
    requires keeps { KeepsEach tokens.now (F.post read.now) }
    ensures finds { FindsAt tokens.now below (enclosed_at below) cursor.old cursor.new result }
    ensures kept { IfOk result (Keeps found_leaves tokens.now cursor.old cursor.new) }
{
    let inner = read(cursor, 0)?;
    cursor.symbol(tokens, b")")?;
    Ok(in_parentheses(alloc, inner)?)
}

// What follows `$signed` or `$unsigned` (5.5).
fn conversion<F: Fn(&mut Cursor, u32) -> Result<Found, OrMemory<Stop>>>(
    alloc: Global,
    read: &F,
    below: u32,
    tokens: &Tokens<'_>,
    cursor: &mut Cursor,
    signed: bool,
) -> Result<Found, OrMemory<Stop>>
    requires callable { F.IsAlwaysCallable read.now }
    requires reads { Reads tokens.now below (F.post read.now) }
    requires keeps { KeepsEach tokens.now (F.post read.now) }
    ensures finds { FindsAt tokens.now below
        (converted_at below signed) cursor.old cursor.new result }
    ensures kept { IfOk result (Keeps found_leaves tokens.now cursor.old cursor.new) }
{
    cursor.symbol(tokens, b"(")?;
    let operand = read(cursor, 0)?;
    cursor.symbol(tokens, b")")?;
    Ok(conversion_of(alloc, signed, operand)?)
}

// The operand of an operator (5.1).
fn operand<F: Fn(&mut Cursor, u32) -> Result<Found, OrMemory<Stop>>>(
    alloc: Global,
    read: &F,
    below: u32,
    tokens: &Tokens<'_>,
    cursor: &mut Cursor,
    operator: UnaryOperator,
) -> Result<Found, OrMemory<Stop>>
    requires callable { F.IsAlwaysCallable read.now }
    requires reads { Reads tokens.now below (F.post read.now) }
    requires keeps { KeepsEach tokens.now (F.post read.now) }
    ensures finds { FindsAt tokens.now below
        (operand_at below operator) cursor.old cursor.new result }
    ensures kept { IfOk result (Keeps found_leaves tokens.now cursor.old cursor.new) }
{
    let operand = read(cursor, UNARY_RANK)?;
    Ok(application_of(alloc, operator, operand)?)
}

// What follows a word that begins a tree round another; `at` is the number of that word.
fn round<F: Fn(&mut Cursor, u32) -> Result<Found, OrMemory<Stop>>>(
    alloc: Global,
    read: &F,
    below: u32,
    tokens: &Tokens<'_>,
    cursor: &mut Cursor,
    at: u32,
    kind: Round,
) -> Result<Found, OrMemory<Stop>>
    requires callable { F.IsAlwaysCallable read.now }
    requires reads { Reads tokens.now below (F.post read.now) }
    requires keeps { KeepsEach tokens.now (F.post read.now) }
    ensures finds { FindsAt tokens.now below (round_at below kind) cursor.old cursor.new result }
    ensures kept { IfOk result (Keeps found_leaves tokens.now cursor.old cursor.new) }
{
    match kind {
        Round::Parenthesis => parenthesis(alloc, read, below, tokens, cursor),
        Round::Brace => braces(alloc, read, below, tokens, cursor, at),
        Round::Conversion(signed) => conversion(alloc, read, below, tokens, cursor, signed),
        Round::Operator(operator) => operand(alloc, read, below, tokens, cursor, operator),
    }
}

// What follows `name [` (5.2.1).
fn index<F: Fn(&mut Cursor, u32) -> Result<Found, OrMemory<Stop>>>(
    alloc: Global,
    read: &F,
    below: u32,
    tokens: &Tokens<'_>,
    cursor: &mut Cursor,
    name: Token,
) -> Result<Found, OrMemory<Stop>>
    requires callable { F.IsAlwaysCallable read.now }
    requires reads { Reads tokens.now below (F.post read.now) }
    requires keeps { KeepsEach tokens.now (F.post read.now) }
    ensures finds { FindsIndex tokens.now below name cursor.old cursor.new result }
    ensures kept { IfOk result (KeepsBehind (name ∷ []) found_leaves
        tokens.now cursor.old cursor.new) }
{
    let index = read(cursor, 0)?;
    if cursor.begins(tokens, b"]") {
        cursor.pass(tokens);
        return Ok(bit_select_of(alloc, name, index)?);
    }
    cursor.symbol(tokens, b":")?;
    let right = read(cursor, 0)?;
    cursor.symbol(tokens, b"]")?;
    Ok(part_select_of(alloc, name, index, right)?)
}

// What follows a name.
fn after_name<F: Fn(&mut Cursor, u32) -> Result<Found, OrMemory<Stop>>>(
    alloc: Global,
    read: &F,
    below: u32,
    tokens: &Tokens<'_>,
    cursor: &mut Cursor,
    name: Token,
) -> Result<Found, OrMemory<Stop>>
    requires callable { F.IsAlwaysCallable read.now }
    requires reads { Reads tokens.now below (F.post read.now) }
    requires keeps { KeepsEach tokens.now (F.post read.now) }
    ensures finds { FindsNamed tokens.now below name cursor.old cursor.new result }
    ensures kept { IfOk result (KeepsBehind (name ∷ []) found_leaves
        tokens.now cursor.old cursor.new) }
{
    if cursor.begins(tokens, b"[") {
        cursor.enter(tokens, below, 1)?;
        index(alloc, read, below, tokens, cursor, name)
    } else {
        Ok(leaf(Expression::Name(name)))
    }
}

/// A tree that no binary operator makes, with so many levels below it.
pub fn primary<F: Fn(&mut Cursor, u32) -> Result<Found, OrMemory<Stop>>>(
    alloc: Global,
    read: &F,
    below: u32,
    tokens: &Tokens<'_>,
    cursor: &mut Cursor,
) -> Result<Found, OrMemory<Stop>>
    requires callable { F.IsAlwaysCallable read.now }
    requires reads { Reads tokens.now below (F.post read.now) }
    requires keeps { KeepsEach tokens.now (F.post read.now) }
    ensures finds { FindsAt tokens.now below (primary_at below) cursor.old cursor.new result }
    ensures kept { IfOk result (Keeps found_leaves tokens.now cursor.old cursor.new) }
{
    match cursor.word(tokens) {
        None => Err(OrMemory::Fault(Stop::NoTree)),
        Some(word) => primary_by(alloc, read, below, tokens, cursor, word),
    }
}

// The tree that begins with the word here.
#[tactic(auto, using(crate::proofs::LeafWords::name_leads, crate::proofs::LeafWords::number_leads, crate::proofs::LeafWords::time_leads, crate::proofs::LeafWords::round_leads, crate::proofs::LeafWords::kept_leaf, crate::proofs::LeafWords::no_kept_leaf))]
fn primary_by<F: Fn(&mut Cursor, u32) -> Result<Found, OrMemory<Stop>>>(
    alloc: Global,
    read: &F,
    below: u32,
    tokens: &Tokens<'_>,
    cursor: &mut Cursor,
    word: Word<'_>,
) -> Result<Found, OrMemory<Stop>>
    requires callable { F.IsAlwaysCallable read.now }
    requires reads { Reads tokens.now below (F.post read.now) }
    requires keeps { KeepsEach tokens.now (F.post read.now) }
    requires here { Heads tokens.now cursor.old word }
    requires leaf { leaf_here tokens.now cursor.old ≡ leaf_of word }
    ensures finds { FindsAt tokens.now below (primary_at below) cursor.old cursor.new result }
    ensures kept { IfOk result (Keeps found_leaves tokens.now cursor.old cursor.new) }
{
    match beginning_of(word.text) {
        Beginning::Number => {
            cursor.pass(tokens);
            Ok(leaf(Expression::Number(word.token)))
        }
        Beginning::Name => {
            cursor.pass(tokens);
            after_name(alloc, read, below, tokens, cursor, word.token)
        }
        Beginning::Time => {
            cursor.pass(tokens);
            Ok(leaf(Expression::Time(word.token)))
        }
        Beginning::Round(kind) => {
            cursor.enter(tokens, below, 1)?;
            round(alloc, read, below, tokens, cursor, word.token.number, kind)
        }
        Beginning::Other => Err(OrMemory::Fault(Stop::NoTree)),
    }
}
