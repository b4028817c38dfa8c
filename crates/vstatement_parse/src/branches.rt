// Branches of a case (IEEE 1364-2005, 9.5).

ghost use Rattle.std.specs.Prelude.{◌≡◌, ◌<◌, ◌||◌, [], ◌∷◌, codes, IfOk};
ghost use Rattle.vast.specs.Leaves.{branch_leaves};
ghost use Rattle.vexpr_parse.specs.Readers.{front, is_front};
ghost use Rattle.vast.specs.StatementTrees.{branch_tree};
ghost use Rattle.vstatement_parse.specs.Gives.{Gives, ReadsStatements, KeepsStatements};
ghost use Rattle.vstatement_parse.specs.Cases.{all_branches, later_branch, later_branches, branches_within as branches_within_at, default_at, labelled_at, all_branch_leaves};
ghost use Rattle.vgrammar.specs.Statements.{has_default};
ghost use Rattle.vexpr_parse.specs.Answers.{ahead, Keeps, KeepsBehind};
ghost use Rattle.vexpr_parse.specs.Texts.{words_of};

use crate::labels::labels;
use basis::OrMemory;
use std::alloc::Global;
use vast::statement::{Branch, Statement};
use vexpr_parse::{Cursor, Stop};
use vlex::Tokens;

// A branch with labels.
fn labelled_branch<F: Fn(&mut Cursor) -> Result<Statement, OrMemory<Stop>>>(
    alloc: Global,
    read: &F,
    below: u32,
    tokens: &Tokens<'_>,
    cursor: &mut Cursor,
) -> Result<Branch, OrMemory<Stop>>
    requires some { 0 < below }
    requires callable { F.IsAlwaysCallable read.now }
    requires reads { ReadsStatements tokens.now below (F.post read.now) }
    requires keeps { KeepsStatements tokens.now (F.post read.now) }
    ensures gives { Gives branch_tree (labelled_at below) tokens.now cursor.old cursor.new result }
    ensures kept { IfOk result (Keeps branch_leaves tokens.now cursor.old cursor.new) }
{
    let labels = labels(alloc, tokens, cursor, below)?;
    let body = read(cursor)?;
    Ok(Branch::Labelled { labels, body })
}

// `default`, and its statement.
#[tactic(auto, using(crate::proofs::LeafWords::default_plain))]
fn default_branch<F: Fn(&mut Cursor) -> Result<Statement, OrMemory<Stop>>>(
    read: &F,
    below: u32,
    tokens: &Tokens<'_>,
    cursor: &mut Cursor,
) -> Result<Branch, OrMemory<Stop>>
    requires callable { F.IsAlwaysCallable read.now }
    requires reads { ReadsStatements tokens.now below (F.post read.now) }
    requires keeps { KeepsStatements tokens.now (F.post read.now) }
    ensures gives { Gives branch_tree (default_at below) tokens.now cursor.old cursor.new result }
    ensures kept { IfOk result (Keeps branch_leaves tokens.now cursor.old cursor.new) }
{
    cursor.symbol(tokens, b"default")?;
    if cursor.begins(tokens, b":") {
        cursor.pass(tokens);
        let body = read(cursor)?;
        Ok(Branch::Default { colon: true, body })
    } else {
        let body = read(cursor)?;
        Ok(Branch::Default { colon: false, body })
    }
}

// A branch behind others: a default only where none was seen yet.
#[tactic(auto, using(crate::proofs::CaseTurns::gives_default, crate::proofs::CaseTurns::second_default))]
fn read_branch<F: Fn(&mut Cursor) -> Result<Statement, OrMemory<Stop>>>(
    alloc: Global,
    read: &F,
    below: u32,
    tokens: &Tokens<'_>,
    cursor: &mut Cursor,
    seen: bool,
) -> Result<Branch, OrMemory<Stop>>
    requires some { 0 < below }
    requires callable { F.IsAlwaysCallable read.now }
    requires reads { ReadsStatements tokens.now below (F.post read.now) }
    requires keeps { KeepsStatements tokens.now (F.post read.now) }
    ensures gives { Gives branch_tree (later_branch below seen)
        tokens.now cursor.old cursor.new result }
    ensures kept { IfOk result (Keeps branch_leaves tokens.now cursor.old cursor.new) }
{
    if cursor.begins(tokens, b"default") {
        if seen {
            return Err(OrMemory::Fault(Stop::NoTree));
        }
        default_branch(read, below, tokens, cursor)
    } else {
        labelled_branch(alloc, read, below, tokens, cursor)
    }
}

// Whether a default stands here.
fn begins_default(tokens: &Tokens<'_>, cursor: &Cursor) -> bool
    ensures { result ≡ is_front (codes "default") (front (ahead tokens.now cursor.now)) }
{
    cursor.begins(tokens, b"default")
}

fn or(one: bool, other: bool) -> bool
    ensures { result ≡ (one || other) }
{
    one || other
}

// The branches with the first one.
#[tactic(auto, using(crate::proofs::CaseTurns::so_far_first, crate::proofs::CaseTurns::so_far_stopped, crate::proofs::CaseTurns::so_far_ended))]
fn more_branches<F: Fn(&mut Cursor) -> Result<Statement, OrMemory<Stop>>>(
    alloc: Global,
    read: &F,
    below: u32,
    tokens: &Tokens<'_>,
    cursor: &mut Cursor,
    first: Branch,
    seen: bool,
) -> Result<Vec<Branch>, OrMemory<Stop>>
    requires some { 0 < below }
    requires first { seen ≡ has_default (branch_tree (words_of tokens.now) first ∷ []) }
    requires callable { F.IsAlwaysCallable read.now }
    requires reads { ReadsStatements tokens.now below (F.post read.now) }
    requires keeps { KeepsStatements tokens.now (F.post read.now) }
    ensures gives { Gives all_branches
        (later_branches below (branch_tree (words_of tokens.now) first))
        tokens.now cursor.old cursor.new result }
    ensures kept { IfOk result (KeepsBehind (branch_leaves first) all_branch_leaves
        tokens.now cursor.old cursor.new) }
{
    let mut branches: Vec<Branch> = Vec::new(alloc);
    branches.push(first)?;
    let mut seen = seen;
    'branches: while !cursor.begins(tokens, b"endcase") {
        let default = begins_default(tokens, cursor);
        let next = read_branch(alloc, read, below, tokens, cursor, seen)?;
        branches.push(next)?;
        seen = or(seen, default);
    }
    Ok(branches)
}

/// The branches, and `endcase` after them.
#[tactic(auto, using(crate::proofs::CaseTurns::first_seen, crate::proofs::LeafWords::endcase_plain))]
pub fn branches_within<F: Fn(&mut Cursor) -> Result<Statement, OrMemory<Stop>>>(
    alloc: Global,
    read: &F,
    below: u32,
    tokens: &Tokens<'_>,
    cursor: &mut Cursor,
) -> Result<Vec<Branch>, OrMemory<Stop>>
    requires some { 0 < below }
    requires callable { F.IsAlwaysCallable read.now }
    requires reads { ReadsStatements tokens.now below (F.post read.now) }
    requires keeps { KeepsStatements tokens.now (F.post read.now) }
    ensures gives { Gives all_branches (branches_within_at below)
        tokens.now cursor.old cursor.new result }
    ensures kept { IfOk result (Keeps all_branch_leaves tokens.now cursor.old cursor.new) }
{
    let default = begins_default(tokens, cursor);
    let first = read_branch(alloc, read, below, tokens, cursor, false)?;
    let branches = more_branches(alloc, read, below, tokens, cursor, first, default)?;
    cursor.symbol(tokens, b"endcase")?;
    Ok(branches)
}
