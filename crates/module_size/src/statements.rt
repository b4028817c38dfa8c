// Statements (IEEE 1364-2005, clause 9).

ghost use Rattle.std.specs.Prelude.{◌≡◌, ◌-◌, ◌^◌, min, option_map};
ghost use Rattle.vast.specs.NumberedTrees.{branch_tree, branch_trees, statement_tree, statement_trees, trees_of};
ghost use Rattle.vast.specs.NumberedWords.{word_of};
ghost use Rattle.vexpr_parse.specs.Texts.{words_of};
ghost use Rattle.module_size.specs.Sizes as spec;
ghost use Rattle.module_size.specs.Sizes.{branch_size, branches_size, labels_size, statement_size, statements_size};
ghost use Rattle.module_size.specs.Inner.{inner_size, own_size};

use crate::expressions::take_expression;
use crate::parts::{take_assignment, take_delay, take_event, take_pair, take_task};
use vast::expression::Expression;
use vast::statement::{Branch, Statement};
use vast::token::Token;
use vlex::Tokens;
use vmodules::letters::letters;

// What is left behind what stands in a statement itself, outside of the statements that stand in it.
fn take_own(tokens: &Tokens<'_>, statement: &Statement, path: usize, left: usize) -> usize
    ensures { result ≡
        left - own_size path (statement_tree (words_of tokens.now) statement.now) }
{
    match statement {
        Statement::Empty | Statement::Block { .. } | Statement::Trigger { .. } => left,
        Statement::Assign {
            target,
            delay,
            value,
            ..
        } => take_assignment(target, delay, value, left),
        Statement::Nonblocking {
            target,
            delay,
            value,
            ..
        } => take_assignment(target, delay, value, left),
        Statement::If { condition, .. } => take_expression(condition, left),
        Statement::IfElse { condition, .. } => take_expression(condition, left),
        Statement::Case { value, .. } => take_expression(value, left),
        Statement::While { condition, .. } => take_expression(condition, left),
        Statement::Repeat { count, .. } => take_expression(count, left),
        Statement::Forever { .. } => left,
        Statement::For {
            target,
            value,
            condition,
            next_target,
            next_value,
            ..
        } => {
            let left = take_expression(condition, take_pair(target, value, left));
            take_pair(next_target, next_value, left)
        }
        Statement::Wait { condition, .. } => take_expression(condition, left),
        Statement::Delayed { delay, .. } => take_delay(delay, left),
        Statement::OnEvent { event, .. } => take_event(event, left),
        Statement::Task { task, .. } => take_task(tokens, task, path, left),
    }
}

// The letters of the path of a block's scope.
fn size_inside(tokens: &Tokens<'_>, name: Option<Token>, path: usize) -> usize
    ensures { result ≡
        min (spec.size_inside path (option_map (word_of (words_of tokens.now)) name)) (2 ^ 64 - 1) }
{
    match name {
        None => path,
        Some(name) => path
            .saturating_add(1)
            .saturating_add(letters(tokens, name).len()),
    }
}

/// What is left behind a statement in a scope whose path has so many letters.
#[cycle(statements)]
pub fn take_statement(tokens: &Tokens<'_>, statement: &Statement, path: usize, left: usize) -> usize
    ensures { result ≡
        left - statement_size path (statement_tree (words_of tokens.now) statement.now) }
{
    if left == 0 {
        return 0;
    }
    let left = take_own(tokens, statement, path, left - 1);
    take_inner(tokens, statement, path, left)
}

// What is left behind the statements inside a statement.
#[cycle(statements)]
fn take_inner(tokens: &Tokens<'_>, statement: &Statement, path: usize, left: usize) -> usize
    ensures { result ≡
        left - inner_size path (statement_tree (words_of tokens.now) statement.now) }
{
    match statement {
        Statement::Empty => left,
        Statement::Block { name, statements } => {
            let path = size_inside(tokens, *name, path);
            take_statements(tokens, statements, path, left)
        }
        Statement::Assign { .. } => left,
        Statement::Nonblocking { .. } => left,
        Statement::Trigger { .. } => left,
        Statement::If { body, .. } => take_statement(tokens, body, path, left),
        Statement::IfElse { body, other, .. } => {
            let left = take_statement(tokens, body, path, left);
            take_statement(tokens, other, path, left)
        }
        Statement::Case { branches, .. } => take_branches(tokens, branches, path, left),
        Statement::While { body, .. } => take_statement(tokens, body, path, left),
        Statement::Repeat { body, .. } => take_statement(tokens, body, path, left),
        Statement::Forever { body, .. } => take_statement(tokens, body, path, left),
        Statement::For { body, .. } => take_statement(tokens, body, path, left),
        Statement::Wait { body, .. } => take_statement(tokens, body, path, left),
        Statement::Delayed { body, .. } => take_statement(tokens, body, path, left),
        Statement::OnEvent { body, .. } => take_statement(tokens, body, path, left),
        Statement::Task { .. } => left,
    }
}

#[cycle(statements)]
fn take_statements(
    tokens: &Tokens<'_>,
    statements: &[Statement],
    path: usize,
    mut left: usize,
) -> usize
    ensures { result ≡
        left - statements_size path (statement_trees (words_of tokens.now) statements.now) }
{
    for one in statements {
        left = take_statement(tokens, one, path, left);
    }
    left
}

#[cycle(statements)]
fn take_branch(tokens: &Tokens<'_>, branch: &Branch, path: usize, left: usize) -> usize
    ensures { result ≡ left - branch_size path (branch_tree (words_of tokens.now) branch.now) }
{
    match branch {
        Branch::Labelled { labels, body } => take_labels(tokens, body, labels, path, left),
        Branch::Default { body, .. } => take_statement(tokens, body, path, left),
    }
}

// What is left behind the items in front of a statement, and that statement once for each of them.
#[cycle(statements)]
fn take_labels(
    tokens: &Tokens<'_>,
    body: &Statement,
    labels: &[Expression],
    path: usize,
    mut left: usize,
) -> usize
    ensures { result ≡
        left - labels_size (statement_size path (statement_tree (words_of tokens.now) body.now))
        (trees_of (words_of tokens.now) labels.now) }
{
    for one in labels {
        left = take_statement(tokens, body, path, take_expression(one, left));
    }
    left
}

#[cycle(statements)]
fn take_branches(tokens: &Tokens<'_>, branches: &[Branch], path: usize, mut left: usize) -> usize
    ensures { result ≡
        left - branches_size path (branch_trees (words_of tokens.now) branches.now) }
{
    for one in branches {
        left = take_branch(tokens, one, path, left);
    }
    left
}
