// Statements (IEEE 1364-2005, clause 9).

ghost use Rattle.std.specs.Prelude.{◌≡◌, ◌-◌, ◌+◌, ◌++◌, ◌∷◌, [], IfOk, OnOk, List, option_map};
ghost use Rattle.vast.specs.NumberedTrees.{branch_tree, branch_trees, statement_tree, statement_trees};
ghost use Rattle.vexpr_parse.specs.Texts.{words_of};
ghost use Rattle.action_origins.specs.Lengths.{branch_length, branches_length, default_length, statement_length, statements_length, begin_length};
ghost use Rattle.action_origins.specs.Origins as spec;
ghost use Rattle.action_origins.specs.Origins.{branch_origins, branches_origins, statement_origins, statements_origins};
ghost use Rattle.vwords.specs.Words.{Text};
ghost use Rattle.vast.specs.NumberedWords.{word_of};

use crate::expressions::past_parts;
use crate::parts::{
    past_assignment, past_delay, past_event, past_for, past_head, past_task, past_turn,
};
use basis::NoMemory;
use vast::statement::{Branch, Statement};
use vast::token::Token;
use vlex::Tokens;

/// The number of the token from which so many are left.
fn number_of(tokens: &Tokens<'_>, left: usize) -> usize
    ensures { result ≡ spec.number_of (words_of tokens.now) left }
{
    tokens.len().saturating_sub(left)
}

/// Puts the number of the token from which so many are left behind others.
pub fn put(tokens: &Tokens<'_>, left: usize, into: &mut Vec<usize>) -> Result<(), NoMemory>
    ensures { OnOk result (into.new.items ≡
        into.old.items ++ spec.number_of (words_of tokens.now) left ∷ []) }
{
    into.push(number_of(tokens, left))?;
    Ok(())
}

fn past_default(colon: bool, left: usize) -> usize
    ensures { result ≡ left - default_length colon }
{
    if colon {
        left.saturating_sub(2)
    } else {
        left.saturating_sub(1)
    }
}

fn past_begin(name: &Option<Token>, left: usize) -> usize
    ensures { (words : List Text) →
        result ≡ left - begin_length (option_map (word_of words) name.now) }
{
    match name {
        None => left.saturating_sub(1),
        Some(_) => left.saturating_sub(3),
    }
}

/// Puts where the actions of a statement begin, and says what is left behind it.
#[cycle(statements)]
pub fn put_statement(
    tokens: &Tokens<'_>,
    statement: &Statement,
    left: usize,
    into: &mut Vec<usize>,
) -> Result<usize, NoMemory>
    ensures put { OnOk result (into.new.items ≡ into.old.items ++ statement_origins
        (words_of tokens.now) left (statement_tree (words_of tokens.now) statement.now)) }
    ensures past { IfOk result (λ behind. behind ≡
        left - statement_length (statement_tree (words_of tokens.now) statement.now)) }
{
    match statement {
        Statement::Empty => Ok(left.saturating_sub(1)),
        Statement::Block { name, statements } => {
            let behind = put_statements(tokens, statements, past_begin(name, left), into)?;
            Ok(behind.saturating_sub(1))
        }
        Statement::Assign {
            target,
            delay,
            value,
            ..
        } => {
            put(tokens, left, into)?;
            Ok(past_assignment(target, delay, value, left))
        }
        Statement::Nonblocking {
            target,
            delay,
            value,
            ..
        } => {
            put(tokens, left, into)?;
            Ok(past_assignment(target, delay, value, left))
        }
        Statement::Trigger { .. } => {
            put(tokens, left, into)?;
            Ok(left.saturating_sub(3))
        }
        Statement::If {
            condition,
            body,
            ..
        } => put_round(tokens, body, past_head(condition, left), left, into),
        Statement::IfElse {
            condition,
            body,
            other,
            ..
        } => {
            let behind = put_statement(tokens, body, past_head(condition, left), into)?;
            put_round(tokens, other, behind.saturating_sub(1), left, into)
        }
        Statement::Case {
            value,
            branches,
            ..
        } => {
            let behind = put_branches(tokens, branches, past_head(value, left), into)?;
            put(tokens, left, into)?;
            Ok(behind.saturating_sub(1))
        }
        Statement::While {
            condition,
            body,
            ..
        } => put_round(tokens, body, past_head(condition, left), left, into),
        Statement::Repeat { count, body, .. } => {
            put_round(tokens, body, past_head(count, left), left, into)
        }
        Statement::Forever { body, .. } => {
            put_round(tokens, body, left.saturating_sub(1), left, into)
        }
        Statement::For {
            target,
            value,
            condition,
            next_target,
            next_value,
            body,
            ..
        } => {
            put(tokens, left.saturating_sub(2), into)?;
            let turn = past_for(target, value, condition, left);
            let inner = past_turn(next_target, next_value, turn);
            let behind = put_round(tokens, body, inner, turn, into)?;
            put(tokens, left, into)?;
            Ok(behind)
        }
        Statement::Wait {
            condition,
            body,
            ..
        } => put_round(tokens, body, past_head(condition, left), left, into),
        Statement::Delayed { delay, body, .. } => {
            put_round(tokens, body, past_delay(delay, left), left, into)
        }
        Statement::OnEvent { event, body, .. } => {
            put_round(tokens, body, past_event(event, left), left, into)
        }
        Statement::Task { task, .. } => {
            put(tokens, left, into)?;
            Ok(past_task(task, left).saturating_sub(1))
        }
    }
}

/// The same of a statement that stands in another, from whose first token `left` are left, and then that one.
#[cycle(statements)]
fn put_round(
    tokens: &Tokens<'_>,
    body: &Statement,
    inner: usize,
    left: usize,
    into: &mut Vec<usize>,
) -> Result<usize, NoMemory>
    ensures put { OnOk result (into.new.items ≡ into.old.items ++ (statement_origins
        (words_of tokens.now) inner (statement_tree (words_of tokens.now) body.now)
        ++ spec.number_of (words_of tokens.now) left ∷ [])) }
    ensures past { IfOk result (λ behind. behind ≡
        inner - statement_length (statement_tree (words_of tokens.now) body.now)) }
{
    let behind = put_statement(tokens, body, inner, into)?;
    put(tokens, left, into)?;
    Ok(behind)
}

#[cycle(statements)]
fn put_statements(
    tokens: &Tokens<'_>,
    statements: &[Statement],
    mut left: usize,
    into: &mut Vec<usize>,
) -> Result<usize, NoMemory>
    ensures put { OnOk result (into.new.items ≡ into.old.items ++ statements_origins
        (words_of tokens.now) left (statement_trees (words_of tokens.now) statements.now)) }
    ensures past { IfOk result (λ behind. behind ≡
        left - statements_length (statement_trees (words_of tokens.now) statements.now)) }
{
    for one in statements {
        left = put_statement(tokens, one, left, into)?;
    }
    Ok(left)
}

#[cycle(statements)]
fn put_branch(
    tokens: &Tokens<'_>,
    branch: &Branch,
    left: usize,
    into: &mut Vec<usize>,
) -> Result<usize, NoMemory>
    ensures put { OnOk result (into.new.items ≡ into.old.items ++ branch_origins
        (words_of tokens.now) left (branch_tree (words_of tokens.now) branch.now)) }
    ensures past { IfOk result (λ behind. behind ≡
        left - branch_length (branch_tree (words_of tokens.now) branch.now)) }
{
    match branch {
        Branch::Labelled { labels, body } => {
            put_statement(tokens, body, past_parts(labels, left), into)
        }
        Branch::Default { colon, body } => {
            put_statement(tokens, body, past_default(*colon, left), into)
        }
    }
}

#[cycle(statements)]
fn put_branches(
    tokens: &Tokens<'_>,
    branches: &[Branch],
    mut left: usize,
    into: &mut Vec<usize>,
) -> Result<usize, NoMemory>
    ensures put { OnOk result (into.new.items ≡ into.old.items ++ branches_origins
        (words_of tokens.now) left (branch_trees (words_of tokens.now) branches.now)) }
    ensures past { IfOk result (λ behind. behind ≡
        left - branches_length (branch_trees (words_of tokens.now) branches.now)) }
{
    for one in branches {
        left = put_branch(tokens, one, left, into)?;
    }
    Ok(left)
}
