// Statements after `case` (IEEE 1364-2005, 9.5).

ghost use Rattle.std.specs.Prelude.{List, ◌≡◌, ◌<◌, ◌++◌, IfOk};
ghost use Rattle.vexpr_parse.specs.Answers.{Keeps};
ghost use Rattle.vast.specs.Leaves.{statement_leaves, boxed_leaves};
ghost use Rattle.vast.specs.ExpressionTrees.{boxed_tree};
ghost use Rattle.vast.specs.Statements.{case_of};
ghost use Rattle.vast.specs.StatementTrees.{statement_tree};
ghost use Rattle.vstatement_parse.specs.Gives.{Gives, ReadsStatements, KeepsStatements};
ghost use Rattle.vstatement_parse.specs.Cases.{all_branches, case_at, case_whole, all_branch_leaves};
ghost use Rattle.vgrammar.specs.Statements as reading;
ghost use Rattle.vwords.specs.Words.{Text};

use crate::branches::branches_within;
use crate::values::value as read_value;
use basis::OrMemory;
use std::alloc::Global;
use vast::expression::Expression;
use vast::statement::{Branch, Statement};
use vexpr_parse::{Cursor, Stop};
use vlex::Tokens;
use vwords::cases::CaseKind;

// The statement of all that was read.
fn of_branches(at: u32, kind: CaseKind, value: Box<Expression>, branches: Vec<Branch>) -> Statement
    ensures gives { (words : List Text) → statement_tree words result
        ≡ case_of kind (boxed_tree words value)
        (reading.branches_in (all_branches words branches)) }
    ensures kept { statement_leaves result ≡ boxed_leaves value ++ all_branch_leaves branches }
{
    Statement::Case {
        at,
        kind,
        value,
        branches,
    }
}

// What stands behind the first word of a case.
fn behind_word<F: Fn(&mut Cursor) -> Result<Statement, OrMemory<Stop>>>(
    alloc: Global,
    read: &F,
    below: u32,
    tokens: &Tokens<'_>,
    cursor: &mut Cursor,
    at: u32,
    kind: CaseKind,
) -> Result<Statement, OrMemory<Stop>>
    requires some { 0 < below }
    requires callable { F.IsAlwaysCallable read.now }
    requires reads { ReadsStatements tokens.now below (F.post read.now) }
    requires keeps { KeepsStatements tokens.now (F.post read.now) }
    ensures gives { Gives statement_tree (case_whole below kind)
        tokens.now cursor.old cursor.new result }
    ensures kept { IfOk result (Keeps statement_leaves tokens.now cursor.old cursor.new) }
{
    cursor.symbol(tokens, b"(")?;
    let value = read_value(alloc, tokens, cursor, below)?;
    cursor.symbol(tokens, b")")?;
    let branches = branches_within(alloc, read, below, tokens, cursor)?;
    Ok(of_branches(at, kind, value, branches))
}

/// What stands after `case`, `casez` or `casex`, the token of this number.
pub fn case_statement<F: Fn(&mut Cursor) -> Result<Statement, OrMemory<Stop>>>(
    alloc: Global,
    read: &F,
    below: u32,
    tokens: &Tokens<'_>,
    cursor: &mut Cursor,
    at: u32,
    kind: CaseKind,
) -> Result<Statement, OrMemory<Stop>>
    requires some { 0 < below }
    requires callable { F.IsAlwaysCallable read.now }
    requires reads { ReadsStatements tokens.now below (F.post read.now) }
    requires keeps { KeepsStatements tokens.now (F.post read.now) }
    ensures gives { Gives statement_tree (case_at below kind)
        tokens.now cursor.old cursor.new result }
    ensures kept { IfOk result (Keeps statement_leaves tokens.now cursor.old cursor.new) }
{
    behind_word(alloc, read, below, tokens, cursor, at, kind)
}
