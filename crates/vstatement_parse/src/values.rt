// Expressions, with the word after them.

ghost use Rattle.std.specs.Prelude.{◌≡◌, ◌<◌, false, codes, IfOk};
ghost use Rattle.vexpr_parse.specs.Answers.{Keeps};
ghost use Rattle.vast.specs.Leaves.{boxed_leaves};
ghost use Rattle.vwords.specs.Words.{is_leaf};
ghost use Rattle.vexpr_parse.specs.Readers.{past};
ghost use Rattle.vstatement_parse.specs.Gives.{Gives, ended_tree, value_tree};
ghost use Rattle.vgrammar.specs.Parts.{pair};
ghost use Rattle.vgrammar.specs.Statements as reading;

use basis::OrMemory;
use std::alloc::Global;
use vast::expression::Expression;
use vexpr_parse::{Cursor, Stop, expression};
use vlex::Tokens;

/// An expression.
pub fn value(
    alloc: Global,
    tokens: &Tokens<'_>,
    cursor: &mut Cursor,
    below: u32,
) -> Result<Box<Expression>, OrMemory<Stop>>
    requires { 0 < below }
    ensures gives { Gives value_tree (reading.value below) tokens.now cursor.old cursor.new result }
    ensures kept { IfOk result (Keeps boxed_leaves tokens.now cursor.old cursor.new) }
{
    let found = expression(alloc, tokens, cursor, below)?;
    Ok(Box::new(alloc, found.tree)?)
}

/// An expression, and this very word after it.
pub fn value_before(
    alloc: Global,
    tokens: &Tokens<'_>,
    cursor: &mut Cursor,
    below: u32,
    text: &[u8],
) -> Result<Box<Expression>, OrMemory<Stop>>
    requires { 0 < below }
    ensures gives { Gives ended_tree (pair (reading.value below) (reading.word_only text.now))
        tokens.now cursor.old cursor.new result }
    ensures kept { is_leaf text.now ≡ false →
        IfOk result (Keeps boxed_leaves tokens.now cursor.old cursor.new) }
{
    let found = value(alloc, tokens, cursor, below)?;
    cursor.symbol(tokens, text)?;
    Ok(found)
}

/// An expression between parentheses.
pub fn value_in_parentheses(
    alloc: Global,
    tokens: &Tokens<'_>,
    cursor: &mut Cursor,
    below: u32,
) -> Result<Box<Expression>, OrMemory<Stop>>
    requires { 0 < below }
    ensures gives { Gives ended_tree (past (codes "(") (pair (reading.value below)
        (reading.word_only (codes ")")))) tokens.now cursor.old cursor.new result }
    ensures kept { IfOk result (Keeps boxed_leaves tokens.now cursor.old cursor.new) }
{
    cursor.symbol(tokens, b"(")?;
    value_before(alloc, tokens, cursor, below, b")")
}
