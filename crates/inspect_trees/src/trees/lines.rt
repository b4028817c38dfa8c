// What is told of the tokens of a text, a line each.

use super::expressions::expression;
use super::modules::text;
use super::page::Page;
use basis::{NoMemory, OrMemory};
use longest_expression::parse_expr;
use std::alloc::Global;
use vast::module::{ModuleItem, ModuleTree, TextTree};
use vast::statement::{Delay, Statement};
use vast::token::Token;
use vlex::Tokens;
use vparse::{SyntaxFault, parse};
use vspell::{fits, spell};

/// The tree of the text.
pub fn tree_line(alloc: Global, tokens: &Tokens<'_>) -> Result<Vec<u8>, OrMemory<SyntaxFault>> {
    let tree = parse(alloc, tokens)?;
    let mut page = Page::new(alloc, tokens);
    text(&mut page, &tree);
    Ok(page.finish()?)
}

// The words of a text.
fn words_of<'t>(alloc: Global, tokens: &Tokens<'t>) -> Result<Vec<&'t [u8]>, NoMemory> {
    let mut words = Vec::new(alloc);
    for index in 0..tokens.len() {
        words.push(tokens.text(index))?;
    }
    Ok(words)
}

fn fit_word(fits: bool) -> &'static [u8] {
    if fits { b"fits" } else { b"misfits" }
}

/// Whether the tree of the text fits its words, `fits` or `misfits`, and the words that it spells, each behind a blank.
pub fn spelling_line(alloc: Global, tokens: &Tokens<'_>) -> Result<Vec<u8>, OrMemory<SyntaxFault>> {
    let tree = parse(alloc, tokens)?;
    let words = words_of(alloc, tokens)?;
    let mut page = Page::new(alloc, tokens);
    page.line.put(fit_word(fits(&words, &tree)));
    for word in &spell(alloc, &words, &tree)? {
        page.word(word.text);
    }
    Ok(page.finish()?)
}

/// The number of the word behind the longest expression that begins at the word of this number, and its tree.
pub fn expression_line(
    alloc: Global,
    tokens: &Tokens<'_>,
    at: usize,
) -> Result<Vec<u8>, OrMemory<SyntaxFault>> {
    let (tree, end) = parse_expr(alloc, tokens, at)?;
    let mut page = Page::new(alloc, tokens);
    page.line.put_number(b"", end as u64);
    expression(&mut page, &tree);
    Ok(page.finish()?)
}

// A module that word 1 names, with so many delays of word 0 round an empty statement.
fn delayed(alloc: Global, delays: usize) -> Result<TextTree, NoMemory> {
    let mut statement = Statement::Empty;
    for _ in 0..delays {
        statement = Statement::Delayed {
            at: 0,
            delay: Delay::Number(Token { number: 0 }),
            body: Box::new(alloc, statement)?,
        };
    }
    let mut items = Vec::new(alloc);
    items.push(ModuleItem::Initial { at: 0, statement })?;
    let mut modules = Vec::new(alloc);
    modules.push(ModuleTree {
        name: Token { number: 1 },
        parameters: None,
        ports: None,
        items,
    })?;
    Ok(TextTree { modules })
}

/// Whether the tree that is so many delays round an empty statement fits the words of the text, of which the first is a number and the second
/// the name of its module.
pub fn delays_line(
    alloc: Global,
    tokens: &Tokens<'_>,
    delays: usize,
) -> Result<Vec<u8>, OrMemory<SyntaxFault>> {
    let words = words_of(alloc, tokens)?;
    let mut page = Page::new(alloc, tokens);
    page.line
        .put(fit_word(fits(&words, &delayed(alloc, delays)?)));
    Ok(page.finish()?)
}
