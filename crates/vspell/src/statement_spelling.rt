// The words of a statement, in order.

ghost use Rattle.std.specs.Prelude.{◌≡◌, ◌∷◌, [], option_map};
ghost use Rattle.vast.specs.TokenTexts.{token_text, texts};
ghost use Rattle.vast.specs.ExpressionTrees.{tree_of};
ghost use Rattle.vast.specs.Statements.{spell_statement, spell_statements, spell_branch, spell_branches};
ghost use Rattle.vast.specs.StatementTrees.{target_tree, delay_tree, statement_tree, statement_trees, branch_tree, branch_trees};
ghost use Rattle.vspell.specs.Inner.{Puts, assignment_words, trigger_words, head_words, for_words, block_words, case_head_words, case_words};

use crate::expression_spelling::{put_expression, put_parts};
use crate::spelling::{Spelling, put, put_token};
use crate::statement_parts_spelling::{
    put_assigned, put_block_name, put_condition, put_delay, put_event, put_setting, put_target,
    put_task,
};
use basis::NoMemory;
use vast::expression::Expression;
use vast::keywords::case_word;
use vast::statement::{Branch, Delay, Statement, Target};
use vast::token::Token;
use vwords::cases::CaseKind;

fn put_assignment<'t>(
    out: &mut Vec<Spelling<'t>>,
    words: &[&'t [u8]],
    target: &Target,
    sign: &'t [u8],
    delay: &Option<Delay>,
    value: &Expression,
) -> Result<(), NoMemory>
    ensures { Puts out.old out.new result (assignment_words sign.now
        (target_tree (texts words.now) target.now)
        (option_map (delay_tree (texts words.now)) delay.now)
        (tree_of (texts words.now) value.now)) }
{
    put_target(out, words, target)?;
    put(out, sign)?;
    put_assigned(out, words, delay, value)
}

fn put_trigger<'t>(
    out: &mut Vec<Spelling<'t>>,
    words: &[&'t [u8]],
    name: Token,
) -> Result<(), NoMemory>
    ensures { Puts out.old out.new result (trigger_words (token_text (texts words.now) name)) }
{
    put(out, b"->")?;
    put_token(out, words, name)?;
    put(out, b";")
}

// Puts `keyword (condition)`.
fn put_head<'t>(
    out: &mut Vec<Spelling<'t>>,
    words: &[&'t [u8]],
    keyword: &'t [u8],
    condition: &Expression,
) -> Result<(), NoMemory>
    ensures { Puts out.old out.new result
        (head_words keyword.now (tree_of (texts words.now) condition.now)) }
{
    put(out, keyword)?;
    put_condition(out, words, condition)
}

fn put_case_head<'t>(
    out: &mut Vec<Spelling<'t>>,
    words: &[&'t [u8]],
    kind: CaseKind,
    value: &Expression,
) -> Result<(), NoMemory>
    ensures { Puts out.old out.new result
        (case_head_words kind (tree_of (texts words.now) value.now)) }
{
    put(out, case_word(kind))?;
    put_condition(out, words, value)
}

fn put_for_head<'t>(
    out: &mut Vec<Spelling<'t>>,
    words: &[&'t [u8]],
    target: &Target,
    value: &Expression,
    condition: &Expression,
    next_target: &Target,
    next_value: &Expression,
) -> Result<(), NoMemory>
    ensures { Puts out.old out.new result (for_words
        (target_tree (texts words.now) target.now) (tree_of (texts words.now) value.now)
        (tree_of (texts words.now) condition.now)
        (target_tree (texts words.now) next_target.now)
        (tree_of (texts words.now) next_value.now)) }
{
    put(out, b"for")?;
    put(out, b"(")?;
    put_setting(out, words, target, value)?;
    put(out, b";")?;
    put_expression(out, words, condition)?;
    put(out, b";")?;
    put_setting(out, words, next_target, next_value)?;
    put(out, b")")
}

/// Puts the words of a statement after the others.
#[cycle(statements)]
pub fn put_statement<'t>(
    out: &mut Vec<Spelling<'t>>,
    words: &[&'t [u8]],
    statement: &Statement,
) -> Result<(), NoMemory>
    ensures { Puts out.old out.new result
        (spell_statement (statement_tree (texts words.now) statement.now)) }
{
    match statement {
        Statement::Empty => put(out, b";"),
        Statement::Block { name, statements } => put_block(out, words, name, statements),
        Statement::Assign {
            target,
            delay,
            value,
            ..
        } => put_assignment(out, words, target, b"=", delay, value),
        Statement::Nonblocking {
            target,
            delay,
            value,
            ..
        } => put_assignment(out, words, target, b"<=", delay, value),
        Statement::Trigger { name, .. } => put_trigger(out, words, *name),
        Statement::If {
            condition,
            body,
            ..
        } => {
            put_head(out, words, b"if", condition)?;
            put_statement(out, words, body)
        }
        Statement::IfElse {
            condition,
            body,
            other,
            ..
        } => {
            put_head(out, words, b"if", condition)?;
            put_statement(out, words, body)?;
            put(out, b"else")?;
            put_statement(out, words, other)
        }
        Statement::Case {
            kind,
            value,
            branches,
            ..
        } => {
            put_case_head(out, words, *kind, value)?;
            put_case_end(out, words, branches)
        }
        Statement::While {
            condition,
            body,
            ..
        } => {
            put_head(out, words, b"while", condition)?;
            put_statement(out, words, body)
        }
        Statement::Repeat { count, body, .. } => {
            put_head(out, words, b"repeat", count)?;
            put_statement(out, words, body)
        }
        Statement::Forever { body, .. } => {
            put(out, b"forever")?;
            put_statement(out, words, body)
        }
        Statement::For {
            target,
            value,
            condition,
            next_target,
            next_value,
            body,
            ..
        } => {
            put_for_head(
                out,
                words,
                target,
                value,
                condition,
                next_target,
                next_value,
            )?;
            put_statement(out, words, body)
        }
        Statement::Wait {
            condition,
            body,
            ..
        } => {
            put_head(out, words, b"wait", condition)?;
            put_statement(out, words, body)
        }
        Statement::Delayed { delay, body, .. } => {
            put_delay(out, words, delay)?;
            put_statement(out, words, body)
        }
        Statement::OnEvent { event, body, .. } => {
            put_event(out, words, event)?;
            put_statement(out, words, body)
        }
        Statement::Task { task, .. } => {
            put_task(out, words, task)?;
            put(out, b";")
        }
    }
}

#[cycle(statements)]
fn put_block<'t>(
    out: &mut Vec<Spelling<'t>>,
    words: &[&'t [u8]],
    name: &Option<Token>,
    statements: &[Statement],
) -> Result<(), NoMemory>
    ensures { Puts out.old out.new result (block_words
        (option_map (token_text (texts words.now)) name.now)
        (statement_trees (texts words.now) statements.now)) }
{
    put(out, b"begin")?;
    put_block_name(out, words, name)?;
    put_statements(out, words, statements)?;
    put(out, b"end")
}

#[cycle(statements)]
fn put_statements<'t>(
    out: &mut Vec<Spelling<'t>>,
    words: &[&'t [u8]],
    statements: &[Statement],
) -> Result<(), NoMemory>
    ensures { Puts out.old out.new result
        (spell_statements (statement_trees (texts words.now) statements.now)) }
{
    for statement in statements {
        put_statement(out, words, statement)?;
    }
    Ok(())
}

#[cycle(statements)]
fn put_branch<'t>(
    out: &mut Vec<Spelling<'t>>,
    words: &[&'t [u8]],
    branch: &Branch,
) -> Result<(), NoMemory>
    ensures { Puts out.old out.new result (spell_branch
        (branch_tree (texts words.now) branch.now)) }
{
    match branch {
        Branch::Labelled { labels, body } => {
            put_parts(out, words, labels)?;
            put(out, b":")?;
            put_statement(out, words, body)
        }
        Branch::Default { colon: true, body } => {
            put(out, b"default")?;
            put(out, b":")?;
            put_statement(out, words, body)
        }
        Branch::Default { colon: false, body } => {
            put(out, b"default")?;
            put_statement(out, words, body)
        }
    }
}

#[cycle(statements)]
fn put_branches<'t>(
    out: &mut Vec<Spelling<'t>>,
    words: &[&'t [u8]],
    branches: &[Branch],
) -> Result<(), NoMemory>
    ensures { Puts out.old out.new result
        (spell_branches (branch_trees (texts words.now) branches.now)) }
{
    for branch in branches {
        put_branch(out, words, branch)?;
    }
    Ok(())
}

#[cycle(statements)]
fn put_case_end<'t>(
    out: &mut Vec<Spelling<'t>>,
    words: &[&'t [u8]],
    branches: &[Branch],
) -> Result<(), NoMemory>
    ensures { Puts out.old out.new result
        (case_words (branch_trees (texts words.now) branches.now)) }
{
    put_branches(out, words, branches)?;
    put(out, b"endcase")
}
