// Whether a statement stands as the grammar lets it: names in their places, each `else` after the nearest `if`, one default at
// most in a case, nothing too deep.

ghost use Rattle.std.specs.Prelude.{◌≡◌, List, nat_le};
ghost use Rattle.vwords.specs.Words.{Text};
ghost use Rattle.vast.specs.TokenTexts.{texts};
ghost use Rattle.vast.specs.ExpressionTrees.{tree_of};
ghost use Rattle.vast.specs.Statements.{ends_in_if as tree_ends_in_if, is_some_branch as is_some_tree, defaults, is_default as is_default_tree};
ghost use Rattle.vast.specs.StatementTrees.{statement_tree, statement_trees, branch_tree, branch_trees};
ghost use Rattle.vspell.specs.Within.{statement_stands as tree_stands, statements_stand as trees_stand, branch_stands as branch_tree_stands, branches_stand as branch_trees_stand, case_within, own_parts_stand, inner_stands};
ghost use Rattle.vast.specs.Modules.{fits_body};

use crate::expression_fits::{expression_fits, is_some, parts_fit};
use crate::statement_parts_fit::{
    assignment_fits, block_name_fits, delay_fits, event_fits, setting_fits, task_fits,
};
use vast::expression::Expression;
use vast::statement::{Branch, Statement};
use vast::token::letters;
use vwords::words::is_name;

// Whether an `if` without `else` stands at the statement's end.
#[cycle(ends)]
fn ends_in_if(statement: &Statement) -> bool
    ensures { (words : List Text) → result ≡ tree_ends_in_if (statement_tree words statement.now) }
{
    match statement {
        Statement::If { .. } => true,
        Statement::IfElse { other, .. } => ends_in_if(other),
        Statement::While { body, .. } => ends_in_if(body),
        Statement::Repeat { body, .. } => ends_in_if(body),
        Statement::Forever { body, .. } => ends_in_if(body),
        Statement::For { body, .. } => ends_in_if(body),
        Statement::Wait { body, .. } => ends_in_if(body),
        Statement::Delayed { body, .. } => ends_in_if(body),
        Statement::OnEvent { body, .. } => ends_in_if(body),
        _ => false,
    }
}

// Whether there is a branch.
fn is_some_branch(branches: &[Branch]) -> bool
    ensures { (words : List Text) → result ≡ is_some_tree (branch_trees words branches.now) }
{
    !branches.is_empty()
}

fn is_default(branch: &Branch) -> bool
    ensures { (words : List Text) → result ≡ is_default_tree (branch_tree words branch.now) }
{
    matches!(branch, Branch::Default { .. })
}

// Whether one branch at most is a default (9.5).
fn has_one_default(branches: &[Branch]) -> bool
    ensures { (words : List Text) →
        result ≡ nat_le (defaults (branch_trees words branches.now)) 1 }
{
    let mut seen = false;
    for branch in branches {
        if is_default(branch) {
            if seen {
                return false;
            }
            seen = true;
        }
    }
    true
}

// Whether a case fits, but for its branches.
fn case_fits(words: &[&[u8]], value: &Expression, branches: &[Branch], levels: u32) -> bool
    ensures { result ≡ case_within levels
        (tree_of (texts words.now) value.now) (branch_trees (texts words.now) branches.now) }
{
    expression_fits(words, value, levels) && (is_some_branch(branches) && has_one_default(branches))
}

// Whether what stands in a statement fits, with so many levels below it: but for the statements in it, the labels of a case's branches,
// and what a `for` assigns after its body.
fn own_parts_fit(words: &[&[u8]], statement: &Statement, below: u32) -> bool
    ensures { result ≡ own_parts_stand below (statement_tree (texts words.now) statement.now) }
{
    match statement {
        Statement::Empty | Statement::Forever { .. } => true,
        Statement::Block { name, .. } => block_name_fits(words, name),
        Statement::Assign {
            target,
            delay,
            value,
            ..
        } => assignment_fits(words, target, delay, value, below),
        Statement::Nonblocking {
            target,
            delay,
            value,
            ..
        } => assignment_fits(words, target, delay, value, below),
        Statement::Trigger { name, .. } => below > 0 && is_name(letters(words, *name)),
        Statement::If { condition, .. } => expression_fits(words, condition, below),
        Statement::IfElse { condition, .. } => expression_fits(words, condition, below),
        Statement::Case {
            value,
            branches,
            ..
        } => case_fits(words, value, branches, below),
        Statement::While { condition, .. } => expression_fits(words, condition, below),
        Statement::Repeat { count, .. } => expression_fits(words, count, below),
        Statement::For {
            target,
            value,
            condition,
            ..
        } => {
            setting_fits(words, target, value, below) && expression_fits(words, condition, below)
        }
        Statement::Wait { condition, .. } => expression_fits(words, condition, below),
        Statement::Delayed { delay, .. } => delay_fits(words, delay, below),
        Statement::OnEvent { event, .. } => event_fits(words, event, below),
        Statement::Task { task, .. } => task_fits(words, task, below),
    }
}

// Whether the statement fits, and has so many levels at most.
#[cycle(statements)]
#[tactic(auto, using(crate::proofs::StatementFitLemmas::stands_nowhere))]
fn statement_stands(words: &[&[u8]], statement: &Statement, levels: u32) -> bool
    ensures { result ≡ tree_stands levels (statement_tree (texts words.now) statement.now) }
{
    if levels == 0 {
        return false;
    }
    let below = levels - 1;
    own_parts_fit(words, statement, below) && inner_statements_stand(words, statement, below)
}

// Whether the statements in a statement stand, with so many levels below it: with the labels of a case's branches, and with what a `for`
// assigns after its body.
#[cycle(statements)]
fn inner_statements_stand(words: &[&[u8]], statement: &Statement, below: u32) -> bool
    ensures { result ≡ inner_stands below (statement_tree (texts words.now) statement.now) }
{
    match statement {
        Statement::Empty => true,
        Statement::Block { statements, .. } => statements_stand(words, statements, below),
        Statement::Assign { .. } => true,
        Statement::Nonblocking { .. } => true,
        Statement::Trigger { .. } => true,
        Statement::If { body, .. } => statement_stands(words, body, below),
        Statement::IfElse { body, other, .. } => {
            statement_stands(words, body, below)
                && (!ends_in_if(body) && statement_stands(words, other, below))
        }
        Statement::Case { branches, .. } => branches_stand(words, branches, below),
        Statement::While { body, .. } => statement_stands(words, body, below),
        Statement::Repeat { body, .. } => statement_stands(words, body, below),
        Statement::Forever { body, .. } => statement_stands(words, body, below),
        Statement::For {
            next_target,
            next_value,
            body,
            ..
        } => {
            setting_fits(words, next_target, next_value, below)
                && statement_stands(words, body, below)
        }
        Statement::Wait { body, .. } => statement_stands(words, body, below),
        Statement::Delayed { body, .. } => statement_stands(words, body, below),
        Statement::OnEvent { body, .. } => statement_stands(words, body, below),
        Statement::Task { .. } => true,
    }
}

#[cycle(statements)]
fn statements_stand(words: &[&[u8]], statements: &[Statement], levels: u32) -> bool
    ensures { result ≡ trees_stand levels (statement_trees (texts words.now) statements.now) }
{
    for statement in statements {
        if !statement_stands(words, statement, levels) {
            return false;
        }
    }
    true
}

#[cycle(statements)]
fn branch_stands(words: &[&[u8]], branch: &Branch, levels: u32) -> bool
    ensures { result ≡ branch_tree_stands levels (branch_tree (texts words.now) branch.now) }
{
    match branch {
        Branch::Labelled { labels, body } => {
            is_some(labels)
                && (parts_fit(words, labels, levels) && statement_stands(words, body, levels))
        }
        Branch::Default { body, .. } => statement_stands(words, body, levels),
    }
}

#[cycle(statements)]
fn branches_stand(words: &[&[u8]], branches: &[Branch], levels: u32) -> bool
    ensures { result ≡ branch_trees_stand levels (branch_trees (texts words.now) branches.now) }
{
    for branch in branches {
        if !branch_stands(words, branch, levels) {
            return false;
        }
    }
    true
}

/// Whether the statement stands as the grammar lets it, and has so many levels at most.
#[tactic(auto, using(crate::proofs::StatementFitLemmas::statement_stands_is))]
pub fn statement_fits(words: &[&[u8]], statement: &Statement, levels: u32) -> bool
    ensures { result ≡ fits_body levels (statement_tree (texts words.now) statement.now) }
{
    statement_stands(words, statement, levels)
}
