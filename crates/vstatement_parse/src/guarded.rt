// Statements round others, after their first words (IEEE 1364-2005, 9.4 to 9.7).

ghost use Rattle.std.specs.Prelude.{List, ◌≡◌, ◌<◌, ◌++◌, IfOk};
ghost use Rattle.vexpr_parse.specs.Answers.{Keeps};
ghost use Rattle.vast.specs.Leaves.{statement_leaves, boxed_leaves};
ghost use Rattle.vast.specs.ExpressionTrees.{boxed_tree};
ghost use Rattle.vast.specs.StatementTrees.{statement_tree};
ghost use Rattle.vstatement_parse.specs.Gives.{Gives, ReadsStatements, delayed_at, forever_at, guarded_at, KeepsStatements};
ghost use Rattle.vstatement_parse.specs.Rounds.{body_tree, body_leaves};
ghost use Rattle.vgrammar.specs.Parts.{both};
ghost use Rattle.vgrammar.specs.Statements as reading;
ghost use Rattle.vwords.specs.Words.{Text};

use crate::amounts::amount;
use crate::conditions::boxed_statement;
use crate::values::value as read_value;
use basis::OrMemory;
use std::alloc::Global;
use vast::expression::Expression;
use vast::statement::Statement;
use vexpr_parse::{Cursor, Stop};
use vgrammar::start::Guard;
use vlex::Tokens;

// A statement behind a condition, or a count.
fn around(guard: Guard, at: u32, value: Box<Expression>, body: Box<Statement>) -> Statement
    ensures gives { (words : List Text) → statement_tree words result
        ≡ reading.guarded_of guard (both (boxed_tree words value) (body_tree words body)) }
    ensures kept { statement_leaves result ≡ boxed_leaves value ++ body_leaves body }
{
    match guard {
        Guard::While => Statement::While {
            at,
            condition: value,
            body,
        },
        Guard::Repeat => Statement::Repeat {
            at,
            count: value,
            body,
        },
        Guard::Wait => Statement::Wait {
            at,
            condition: value,
            body,
        },
    }
}

/// What stands after `while`, `repeat` or `wait`, the token of this number (9.6 and 9.7.6).
pub fn guarded_statement<F: Fn(&mut Cursor) -> Result<Statement, OrMemory<Stop>>>(
    alloc: Global,
    read: &F,
    below: u32,
    tokens: &Tokens<'_>,
    cursor: &mut Cursor,
    at: u32,
    guard: Guard,
) -> Result<Statement, OrMemory<Stop>>
    requires some { 0 < below }
    requires callable { F.IsAlwaysCallable read.now }
    requires reads { ReadsStatements tokens.now below (F.post read.now) }
    requires keeps { KeepsStatements tokens.now (F.post read.now) }
    ensures gives { Gives statement_tree (guarded_at below guard)
        tokens.now cursor.old cursor.new result }
    ensures kept { IfOk result (Keeps statement_leaves tokens.now cursor.old cursor.new) }
{
    cursor.symbol(tokens, b"(")?;
    let value = read_value(alloc, tokens, cursor, below)?;
    cursor.symbol(tokens, b")")?;
    let body = boxed_statement(alloc, read, below, tokens, cursor)?;
    Ok(around(guard, at, value, body))
}

/// What stands after `forever`, the token of this number (9.6).
pub fn forever<F: Fn(&mut Cursor) -> Result<Statement, OrMemory<Stop>>>(
    alloc: Global,
    read: &F,
    below: u32,
    tokens: &Tokens<'_>,
    cursor: &mut Cursor,
    at: u32,
) -> Result<Statement, OrMemory<Stop>>
    requires callable { F.IsAlwaysCallable read.now }
    requires reads { ReadsStatements tokens.now below (F.post read.now) }
    requires keeps { KeepsStatements tokens.now (F.post read.now) }
    ensures gives { Gives statement_tree (forever_at below)
        tokens.now cursor.old cursor.new result }
    ensures kept { IfOk result (Keeps statement_leaves tokens.now cursor.old cursor.new) }
{
    let body = boxed_statement(alloc, read, below, tokens, cursor)?;
    Ok(Statement::Forever { at, body })
}

/// What stands after `#`, the token of this number (9.7.1).
pub fn delayed_statement<F: Fn(&mut Cursor) -> Result<Statement, OrMemory<Stop>>>(
    alloc: Global,
    read: &F,
    below: u32,
    tokens: &Tokens<'_>,
    cursor: &mut Cursor,
    at: u32,
) -> Result<Statement, OrMemory<Stop>>
    requires some { 0 < below }
    requires callable { F.IsAlwaysCallable read.now }
    requires reads { ReadsStatements tokens.now below (F.post read.now) }
    requires keeps { KeepsStatements tokens.now (F.post read.now) }
    ensures gives { Gives statement_tree (delayed_at below)
        tokens.now cursor.old cursor.new result }
    ensures kept { IfOk result (Keeps statement_leaves tokens.now cursor.old cursor.new) }
{
    let delay = amount(alloc, tokens, cursor, below)?;
    let body = boxed_statement(alloc, read, below, tokens, cursor)?;
    Ok(Statement::Delayed { at, delay, body })
}
