// What is waited for (IEEE 1364-2005, 9.7).

ghost use Rattle.std.specs.Prelude.{◌≡◌, IfOk};
ghost use Rattle.vast.specs.Leaves.{event_leaves, statement_leaves};
ghost use Rattle.vast.specs.StatementTrees.{event_tree, statement_tree};
ghost use Rattle.vexpr_parse.specs.Readers.{front};
ghost use Rattle.vstatement_parse.specs.Gives.{Gives, ReadsStatements, all_further, enclosed_at, event_at, further_terms as further_terms_at, names_tree, terms_at, all_further_leaves, names_leaves, KeepsStatements};
ghost use Rattle.vgrammar.specs.Parts.{pair};
ghost use Rattle.vgrammar.specs.Starts.{comma_of, is_meant, is_word};
ghost use Rattle.vwords.specs.Words.{is_name as is_name_text};
ghost use Rattle.vgrammar.specs.Statements as reading;
ghost use Rattle.vexpr_parse.specs.Answers.{ahead, Keeps};

use crate::conditions::boxed_statement;
use crate::terms::{further_term, read_term};
use crate::words::name_word;
use basis::OrMemory;
use std::alloc::Global;
use vast::statement::{Event, FurtherTerm, Statement, Term};
use vexpr_parse::{Cursor, Stop};
use vlex::Tokens;
use vwords::words::is_name;

/// Names, any of whose changes is waited for.
#[derive(Drop)]
pub struct Names {
    pub term: Term,
    pub further: Vec<FurtherTerm>,
}

// Whether a further name follows.
fn goes_on(tokens: &Tokens<'_>, cursor: &Cursor) -> bool
    ensures { result ≡ is_meant comma_of (front (ahead tokens.now cursor.now)) }
{
    cursor.begins(tokens, b",") || cursor.begins(tokens, b"or")
}

// The names behind the first one.
fn further_terms(
    alloc: Global,
    tokens: &Tokens<'_>,
    cursor: &mut Cursor,
) -> Result<Vec<FurtherTerm>, OrMemory<Stop>>
    ensures gives { Gives all_further further_terms_at tokens.now cursor.old cursor.new result }
    ensures kept { IfOk result (Keeps all_further_leaves tokens.now cursor.old cursor.new) }
{
    let mut terms: Vec<FurtherTerm> = Vec::new(alloc);
    'terms: while goes_on(tokens, cursor) {
        let term = further_term(tokens, cursor)?;
        terms.push(term)?;
    }
    Ok(terms)
}

// The names.
fn read_names(
    alloc: Global,
    tokens: &Tokens<'_>,
    cursor: &mut Cursor,
) -> Result<Names, OrMemory<Stop>>
    ensures gives { Gives names_tree (pair reading.term further_terms_at)
        tokens.now cursor.old cursor.new result }
    ensures kept { IfOk result (Keeps names_leaves tokens.now cursor.old cursor.new) }
{
    let term = read_term(tokens, cursor)?;
    let further = further_terms(alloc, tokens, cursor)?;
    Ok(Names { term, further })
}

// What stands behind `@(`, where names do.
fn terms(alloc: Global, tokens: &Tokens<'_>, cursor: &mut Cursor) -> Result<Event, OrMemory<Stop>>
    ensures gives { Gives event_tree terms_at tokens.now cursor.old cursor.new result }
    ensures kept { IfOk result (Keeps event_leaves tokens.now cursor.old cursor.new) }
{
    let names = read_names(alloc, tokens, cursor)?;
    cursor.symbol(tokens, b")")?;
    Ok(Event::Terms {
        term: names.term,
        further: names.further,
    })
}

// What stands behind `@(`.
fn event_list(
    alloc: Global,
    tokens: &Tokens<'_>,
    cursor: &mut Cursor,
) -> Result<Event, OrMemory<Stop>>
    ensures gives { Gives event_tree enclosed_at tokens.now cursor.old cursor.new result }
    ensures kept { IfOk result (Keeps event_leaves tokens.now cursor.old cursor.new) }
{
    if cursor.begins(tokens, b"*") {
        cursor.pass(tokens);
        cursor.symbol(tokens, b")")?;
        Ok(Event::AnyEnclosed)
    } else {
        terms(alloc, tokens, cursor)
    }
}

// Whether a name stands here.
fn begins_name(tokens: &Tokens<'_>, cursor: &Cursor) -> bool
    ensures { result ≡ is_word is_name_text (front (ahead tokens.now cursor.now)) }
{
    match cursor.word(tokens) {
        None => false,
        Some(word) => is_name(word.text),
    }
}

/// What is waited for, after `@`.
pub fn control(
    alloc: Global,
    tokens: &Tokens<'_>,
    cursor: &mut Cursor,
) -> Result<Event, OrMemory<Stop>>
    ensures gives { Gives event_tree reading.control tokens.now cursor.old cursor.new result }
    ensures kept { IfOk result (Keeps event_leaves tokens.now cursor.old cursor.new) }
{
    if begins_name(tokens, cursor) {
        Ok(Event::Named(name_word(tokens, cursor)?))
    } else if cursor.begins(tokens, b"*") {
        cursor.pass(tokens);
        Ok(Event::Any)
    } else {
        cursor.symbol(tokens, b"(")?;
        event_list(alloc, tokens, cursor)
    }
}

/// What stands after `@`, the token of this number.
pub fn waiting<F: Fn(&mut Cursor) -> Result<Statement, OrMemory<Stop>>>(
    alloc: Global,
    read: &F,
    below: u32,
    tokens: &Tokens<'_>,
    cursor: &mut Cursor,
    at: u32,
) -> Result<Statement, OrMemory<Stop>>
    requires callable { F.IsAlwaysCallable read.now }
    requires reads { ReadsStatements tokens.now below (F.post read.now) }
    requires keeps { KeepsStatements tokens.now (F.post read.now) }
    ensures gives { Gives statement_tree (event_at below) tokens.now cursor.old cursor.new result }
    ensures kept { IfOk result (Keeps statement_leaves tokens.now cursor.old cursor.new) }
{
    let event = control(alloc, tokens, cursor)?;
    let body = boxed_statement(alloc, read, below, tokens, cursor)?;
    Ok(Statement::OnEvent { at, event, body })
}
