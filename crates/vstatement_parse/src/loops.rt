// Statements after `for` (IEEE 1364-2005, 9.6).

ghost use Rattle.std.specs.Prelude.{List, ◌≡◌, ◌<◌, IfOk, ◌++◌};
ghost use Rattle.vast.specs.Leaves.{statement_leaves};
ghost use Rattle.vexpr_parse.specs.Answers.{Keeps};
ghost use Rattle.vast.specs.StatementTrees.{statement_tree};
ghost use Rattle.vstatement_parse.specs.Gives.{Gives, ReadsStatements, setting_tree, setting_leaves, KeepsStatements};
ghost use Rattle.vstatement_parse.specs.Rounds.{for_at, going_at, going_tree, step_at, step_tree, step_leaves, going_leaves};
ghost use Rattle.vgrammar.specs.Parts.{both};
ghost use Rattle.vgrammar.specs.Statements as reading;
ghost use Rattle.vwords.specs.Words.{Text};

use crate::conditions::boxed_statement;
use crate::settings::{Setting, read_setting};
use crate::values::value;
use basis::OrMemory;
use std::alloc::Global;
use vast::expression::Expression;
use vast::statement::Statement;
use vexpr_parse::{Cursor, Stop};
use vlex::Tokens;

/// What is written after each turn, and the statement of the turns.
#[derive(Drop)]
pub struct Step {
    pub next: Setting,
    pub body: Box<Statement>,
}

/// How long it goes on, and the step.
#[derive(Drop)]
pub struct Going {
    pub condition: Box<Expression>,
    pub step: Step,
}

// `target = value) statement`
fn read_step<F: Fn(&mut Cursor) -> Result<Statement, OrMemory<Stop>>>(
    alloc: Global,
    read: &F,
    below: u32,
    tokens: &Tokens<'_>,
    cursor: &mut Cursor,
) -> Result<Step, OrMemory<Stop>>
    requires some { 0 < below }
    requires callable { F.IsAlwaysCallable read.now }
    requires reads { ReadsStatements tokens.now below (F.post read.now) }
    requires keeps { KeepsStatements tokens.now (F.post read.now) }
    ensures gives { Gives step_tree (step_at below) tokens.now cursor.old cursor.new result }
    ensures kept { IfOk result (Keeps step_leaves tokens.now cursor.old cursor.new) }
{
    let next = read_setting(alloc, tokens, cursor, below)?;
    cursor.symbol(tokens, b")")?;
    let body = boxed_statement(alloc, read, below, tokens, cursor)?;
    Ok(Step { next, body })
}

// `condition; target = value) statement`
fn read_going<F: Fn(&mut Cursor) -> Result<Statement, OrMemory<Stop>>>(
    alloc: Global,
    read: &F,
    below: u32,
    tokens: &Tokens<'_>,
    cursor: &mut Cursor,
) -> Result<Going, OrMemory<Stop>>
    requires some { 0 < below }
    requires callable { F.IsAlwaysCallable read.now }
    requires reads { ReadsStatements tokens.now below (F.post read.now) }
    requires keeps { KeepsStatements tokens.now (F.post read.now) }
    ensures gives { Gives going_tree (going_at below) tokens.now cursor.old cursor.new result }
    ensures kept { IfOk result (Keeps going_leaves tokens.now cursor.old cursor.new) }
{
    let condition = value(alloc, tokens, cursor, below)?;
    cursor.symbol(tokens, b";")?;
    let step = read_step(alloc, read, below, tokens, cursor)?;
    Ok(Going { condition, step })
}

// The statement of all that was read.
fn for_statement_of(at: u32, first: Setting, going: Going) -> Statement
    ensures gives { (words : List Text) → statement_tree words result
        ≡ reading.for_of (both (setting_tree words first) (going_tree words going)) }
    ensures kept { statement_leaves result ≡ setting_leaves first ++ going_leaves going }
{
    Statement::For {
        at,
        target: first.target,
        value: first.value,
        condition: going.condition,
        next_target: going.step.next.target,
        next_value: going.step.next.value,
        body: going.step.body,
    }
}

/// What stands after `for`, the token of this number.
pub fn for_statement<F: Fn(&mut Cursor) -> Result<Statement, OrMemory<Stop>>>(
    alloc: Global,
    read: &F,
    below: u32,
    tokens: &Tokens<'_>,
    cursor: &mut Cursor,
    at: u32,
) -> Result<Statement, OrMemory<Stop>>
    requires some { 0 < below }
    requires callable { F.IsAlwaysCallable read.now }
    requires reads { ReadsStatements tokens.now below (F.post read.now) }
    requires keeps { KeepsStatements tokens.now (F.post read.now) }
    ensures gives { Gives statement_tree (for_at below) tokens.now cursor.old cursor.new result }
    ensures kept { IfOk result (Keeps statement_leaves tokens.now cursor.old cursor.new) }
{
    cursor.symbol(tokens, b"(")?;
    let first = read_setting(alloc, tokens, cursor, below)?;
    cursor.symbol(tokens, b";")?;
    let going = read_going(alloc, read, below, tokens, cursor)?;
    Ok(for_statement_of(at, first, going))
}
