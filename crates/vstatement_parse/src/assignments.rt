// Assignments (IEEE 1364-2005, 9.2).

ghost use Rattle.std.specs.Prelude.{◌≡◌, ◌<◌, IfOk};
ghost use Rattle.vast.specs.Leaves.{if_some, delay_leaves, statement_leaves};
ghost use Rattle.vexpr_parse.specs.Answers.{Keeps};
ghost use Rattle.vast.specs.StatementTrees.{statement_tree};
ghost use Rattle.vstatement_parse.specs.Gives.{Gives, itself, optional_delay_tree, trigger_at, no_leaves};
ghost use Rattle.vgrammar.specs.Parts.{word_as};
ghost use Rattle.vgrammar.specs.Starts.{sign_of};
ghost use Rattle.vgrammar.specs.Statements as reading;

use crate::amounts::amount;
use crate::targets::target;
use crate::values::value_before;
use crate::words::name_word;
use basis::OrMemory;
use std::alloc::Global;
use vast::statement::{Delay, Statement};
use vexpr_parse::{Cursor, Stop};
use vlex::Tokens;

// `=`, or `<=`: whether it is the later one.
fn sign(tokens: &Tokens<'_>, cursor: &mut Cursor) -> Result<bool, OrMemory<Stop>>
    ensures gives { Gives itself (word_as sign_of) tokens.now cursor.old cursor.new result }
    ensures kept { IfOk result (Keeps no_leaves tokens.now cursor.old cursor.new) }
{
    if cursor.begins(tokens, b"=") {
        cursor.pass(tokens);
        Ok(false)
    } else if cursor.begins(tokens, b"<=") {
        cursor.pass(tokens);
        Ok(true)
    } else {
        Err(OrMemory::Fault(Stop::NoTree))
    }
}

// `#` and how long is waited, where one stands.
fn optional_delay(
    alloc: Global,
    tokens: &Tokens<'_>,
    cursor: &mut Cursor,
    below: u32,
) -> Result<Option<Delay>, OrMemory<Stop>>
    requires { 0 < below }
    ensures gives { Gives optional_delay_tree (reading.optional_delay below)
        tokens.now cursor.old cursor.new result }
    ensures kept { IfOk result (Keeps (if_some delay_leaves) tokens.now cursor.old cursor.new) }
{
    if cursor.begins(tokens, b"#") {
        cursor.pass(tokens);
        Ok(Some(amount(alloc, tokens, cursor, below)?))
    } else {
        Ok(None)
    }
}

/// An assignment; its first token has this number.
pub fn assignment(
    alloc: Global,
    tokens: &Tokens<'_>,
    cursor: &mut Cursor,
    below: u32,
    at: u32,
) -> Result<Statement, OrMemory<Stop>>
    requires { 0 < below }
    ensures gives { Gives statement_tree (reading.assignment below)
        tokens.now cursor.old cursor.new result }
    ensures kept { IfOk result (Keeps statement_leaves tokens.now cursor.old cursor.new) }
{
    let target = target(alloc, tokens, cursor, below)?;
    let later = sign(tokens, cursor)?;
    let delay = optional_delay(alloc, tokens, cursor, below)?;
    let value = value_before(alloc, tokens, cursor, below, b";")?;
    if later {
        Ok(Statement::Nonblocking {
            at,
            target,
            delay,
            value,
        })
    } else {
        Ok(Statement::Assign {
            at,
            target,
            delay,
            value,
        })
    }
}

/// What stands after `->`, the token of this number (9.7.3).
pub fn trigger(
    tokens: &Tokens<'_>,
    cursor: &mut Cursor,
    at: u32,
) -> Result<Statement, OrMemory<Stop>>
    ensures gives { Gives statement_tree trigger_at tokens.now cursor.old cursor.new result }
    ensures kept { IfOk result (Keeps statement_leaves tokens.now cursor.old cursor.new) }
{
    let name = name_word(tokens, cursor)?;
    cursor.symbol(tokens, b";")?;
    Ok(Statement::Trigger { at, name })
}
