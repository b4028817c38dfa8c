// What printing tasks are given (IEEE 1364-2005, 17.1.1).

ghost use Rattle.std.specs.Prelude.{◌≡◌, ◌<◌, codes, IfOk};
ghost use Rattle.vexpr_parse.specs.Answers.{ahead, Keeps, KeepsBehind};
ghost use Rattle.vast.specs.Leaves.{argument_leaves};
ghost use Rattle.vast.specs.StatementTrees.{argument_tree};
ghost use Rattle.vexpr_parse.specs.Readers.{front, past};
ghost use Rattle.vstatement_parse.specs.Gives.{Gives, all_arguments, some_argument as some_argument_at, arguments_behind, arguments_within, all_argument_leaves};
ghost use Rattle.vgrammar.specs.Statements as reading;
ghost use Rattle.vexpr_parse.specs.Texts.{words_of};

use crate::values::value;
use crate::words::is_string;
use basis::OrMemory;
use std::alloc::Global;
use vast::statement::Argument;
use vexpr_parse::{Cursor, Stop};
use vlex::Tokens;

// Whether an argument begins here, or is left out.
fn begins_argument(tokens: &Tokens<'_>, cursor: &Cursor) -> bool
    ensures { result ≡ reading.begins_argument (front (ahead tokens.now cursor.now)) }
{
    !(cursor.begins(tokens, b",") || cursor.begins(tokens, b")"))
}

// A string, an expression, or nothing.
fn argument(
    alloc: Global,
    tokens: &Tokens<'_>,
    cursor: &mut Cursor,
    below: u32,
) -> Result<Argument, OrMemory<Stop>>
    requires { 0 < below }
    ensures gives { Gives argument_tree (reading.argument below)
        tokens.now cursor.old cursor.new result }
    ensures kept { IfOk result (Keeps argument_leaves tokens.now cursor.old cursor.new) }
{
    if !begins_argument(tokens, cursor) {
        return Ok(Argument::LeftOut);
    }
    some_argument(alloc, tokens, cursor, below)
}

// A string, or an expression.
#[tactic(auto, using(crate::proofs::LeafWords::string_leaf))]
fn some_argument(
    alloc: Global,
    tokens: &Tokens<'_>,
    cursor: &mut Cursor,
    below: u32,
) -> Result<Argument, OrMemory<Stop>>
    requires { 0 < below }
    ensures gives { Gives argument_tree (some_argument_at below)
        tokens.now cursor.old cursor.new result }
    ensures kept { IfOk result (Keeps argument_leaves tokens.now cursor.old cursor.new) }
{
    if let Some(word) = cursor.word(tokens) {
        if is_string(word.text) {
            cursor.pass(tokens);
            return Ok(Argument::Text(word.token));
        }
    }
    Ok(Argument::Value(value(alloc, tokens, cursor, below)?))
}

// An argument, with the comma before it.
fn further_argument(
    alloc: Global,
    tokens: &Tokens<'_>,
    cursor: &mut Cursor,
    below: u32,
) -> Result<Argument, OrMemory<Stop>>
    requires { 0 < below }
    ensures gives { Gives argument_tree (past (codes ",") (reading.argument below))
        tokens.now cursor.old cursor.new result }
    ensures kept { IfOk result (Keeps argument_leaves tokens.now cursor.old cursor.new) }
{
    cursor.symbol(tokens, b",")?;
    argument(alloc, tokens, cursor, below)
}

// The arguments with the first one.
fn more_arguments(
    alloc: Global,
    tokens: &Tokens<'_>,
    cursor: &mut Cursor,
    below: u32,
    first: Argument,
) -> Result<Vec<Argument>, OrMemory<Stop>>
    requires some { 0 < below }
    ensures gives { Gives all_arguments
        (arguments_behind below (argument_tree (words_of tokens.now) first))
        tokens.now cursor.old cursor.new result }
    ensures kept { IfOk result (KeepsBehind (argument_leaves first) all_argument_leaves
        tokens.now cursor.old cursor.new) }
{
    let mut list: Vec<Argument> = Vec::new(alloc);
    list.push(first)?;
    'list: while cursor.begins(tokens, b",") {
        let argument = further_argument(alloc, tokens, cursor, below)?;
        list.push(argument)?;
    }
    Ok(list)
}

/// The arguments after the parenthesis, up to the next one.
pub fn arguments(
    alloc: Global,
    tokens: &Tokens<'_>,
    cursor: &mut Cursor,
    below: u32,
) -> Result<Vec<Argument>, OrMemory<Stop>>
    requires { 0 < below }
    ensures gives { Gives all_arguments (arguments_within below)
        tokens.now cursor.old cursor.new result }
    ensures kept { IfOk result (Keeps all_argument_leaves tokens.now cursor.old cursor.new) }
{
    let first = argument(alloc, tokens, cursor, below)?;
    let list = more_arguments(alloc, tokens, cursor, below, first)?;
    cursor.symbol(tokens, b")")?;
    Ok(list)
}
