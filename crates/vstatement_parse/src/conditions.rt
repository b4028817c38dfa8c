// Statements after `if` (IEEE 1364-2005, 9.4).

ghost use Rattle.std.specs.Prelude.{List, ◌≡◌, ◌<◌, IfOk, ◌++◌};
ghost use Rattle.vast.specs.Leaves.{if_some, statement_leaves, boxed_leaves};
ghost use Rattle.vexpr_parse.specs.Answers.{Keeps};
ghost use Rattle.vast.specs.ExpressionTrees.{boxed_tree};
ghost use Rattle.vast.specs.StatementTrees.{statement_tree};
ghost use Rattle.vstatement_parse.specs.Gives.{Gives, ReadsStatements, KeepsStatements};
ghost use Rattle.vstatement_parse.specs.Rounds.{body_tree, choice_tree, if_at, optional_tree, otherwise_at, body_leaves, choice_leaves};
ghost use Rattle.vgrammar.specs.Parts.{both};
ghost use Rattle.vgrammar.specs.Statements as reading;
ghost use Rattle.vwords.specs.Words.{Text};

use crate::values::value;
use basis::OrMemory;
use std::alloc::Global;
use vast::expression::Expression;
use vast::statement::Statement;
use vexpr_parse::{Cursor, Stop};
use vlex::Tokens;

/// The statement of an `if`, and that after its `else`.
#[derive(Drop)]
pub struct Choice {
    pub body: Box<Statement>,
    pub other: Option<Box<Statement>>,
}

/// A statement, behind a pointer.
pub fn boxed_statement<F: Fn(&mut Cursor) -> Result<Statement, OrMemory<Stop>>>(
    alloc: Global,
    read: &F,
    below: u32,
    tokens: &Tokens<'_>,
    cursor: &mut Cursor,
) -> Result<Box<Statement>, OrMemory<Stop>>
    requires callable { F.IsAlwaysCallable read.now }
    requires reads { ReadsStatements tokens.now below (F.post read.now) }
    requires keeps { KeepsStatements tokens.now (F.post read.now) }
    ensures gives { Gives body_tree (reading.statement below)
        tokens.now cursor.old cursor.new result }
    ensures kept { IfOk result (Keeps body_leaves tokens.now cursor.old cursor.new) }
{
    let body = read(cursor)?;
    Ok(Box::new(alloc, body)?)
}

// The statement behind `else`, where that stands.
#[tactic(auto, using(crate::proofs::LeafWords::else_plain))]
fn otherwise<F: Fn(&mut Cursor) -> Result<Statement, OrMemory<Stop>>>(
    alloc: Global,
    read: &F,
    below: u32,
    tokens: &Tokens<'_>,
    cursor: &mut Cursor,
) -> Result<Option<Box<Statement>>, OrMemory<Stop>>
    requires callable { F.IsAlwaysCallable read.now }
    requires reads { ReadsStatements tokens.now below (F.post read.now) }
    requires keeps { KeepsStatements tokens.now (F.post read.now) }
    ensures gives { Gives optional_tree (otherwise_at below)
        tokens.now cursor.old cursor.new result }
    ensures kept { IfOk result (Keeps (if_some body_leaves) tokens.now cursor.old cursor.new) }
{
    if cursor.begins(tokens, b"else") {
        cursor.pass(tokens);
        Ok(Some(boxed_statement(alloc, read, below, tokens, cursor)?))
    } else {
        Ok(None)
    }
}

// What stands behind the condition.
fn read_choice<F: Fn(&mut Cursor) -> Result<Statement, OrMemory<Stop>>>(
    alloc: Global,
    read: &F,
    below: u32,
    tokens: &Tokens<'_>,
    cursor: &mut Cursor,
) -> Result<Choice, OrMemory<Stop>>
    requires callable { F.IsAlwaysCallable read.now }
    requires reads { ReadsStatements tokens.now below (F.post read.now) }
    requires keeps { KeepsStatements tokens.now (F.post read.now) }
    ensures gives { Gives choice_tree (reading.branches_of_if (reading.statement below))
        tokens.now cursor.old cursor.new result }
    ensures kept { IfOk result (Keeps choice_leaves tokens.now cursor.old cursor.new) }
{
    let body = boxed_statement(alloc, read, below, tokens, cursor)?;
    let other = otherwise(alloc, read, below, tokens, cursor)?;
    Ok(Choice { body, other })
}

// The statement of one branch, or of two.
fn if_statement_of(at: u32, condition: Box<Expression>, choice: Choice) -> Statement
    ensures gives { (words : List Text) → statement_tree words result
        ≡ reading.if_of (both (boxed_tree words condition) (choice_tree words choice)) }
    ensures kept { statement_leaves result ≡ boxed_leaves condition ++ choice_leaves choice }
{
    let body = choice.body;
    match choice.other {
        None => Statement::If {
            at,
            condition,
            body,
        },
        Some(other) => Statement::IfElse {
            at,
            condition,
            body,
            other,
        },
    }
}

/// What stands after `if`, the token of this number.
pub fn conditional<F: Fn(&mut Cursor) -> Result<Statement, OrMemory<Stop>>>(
    alloc: Global,
    read: &F,
    below: u32,
    tokens: &Tokens<'_>,
    cursor: &mut Cursor,
    at: u32,
) -> Result<Statement, OrMemory<Stop>>
    requires some { 0 < below }
    requires callable { F.IsAlwaysCallable read.now }
    requires reads { ReadsStatements tokens.now below (F.post read.now) }
    requires keeps { KeepsStatements tokens.now (F.post read.now) }
    ensures gives { Gives statement_tree (if_at below) tokens.now cursor.old cursor.new result }
    ensures kept { IfOk result (Keeps statement_leaves tokens.now cursor.old cursor.new) }
{
    cursor.symbol(tokens, b"(")?;
    let condition = value(alloc, tokens, cursor, below)?;
    cursor.symbol(tokens, b")")?;
    let choice = read_choice(alloc, read, below, tokens, cursor)?;
    Ok(if_statement_of(at, condition, choice))
}
