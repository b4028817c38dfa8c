// Which constructs that the profile leaves out a text has, and where.

use crate::construct::{Construct, row_of};
use crate::declared::declared_of;
use crate::formats::{bad_format, letters_of};
use crate::mistakes::{Mistake, rule_for};
use crate::modules::begins_instances;
use crate::walk::{Level, Walk, walk_to};
use crate::words::{Words, is, is_one_of};
use crate::{bounds, declarations, expressions, keywords, statements, system_verilog};
use basis::NoMemory;
use std::alloc::Global;
use vlex::{TokenKind, Tokens};
use vsrc::Place;
use vwords::words::without_backslash;

/// What is told of a word: a construct that the profile leaves out, a mistake, or else the number of a fault.
#[derive(Clone, Copy, PartialEq, Eq)]
pub(crate) enum What {
    LeftOut(Construct),
    Mistake(Mistake),
    Broken(u16),
}

/// What is told, the word, where it stands first, and how often it comes later.
#[derive(Clone, Copy)]
pub(crate) struct Found<'a> {
    pub(crate) what: What,
    pub(crate) word: &'a [u8],
    pub(crate) place: Place,
    pub(crate) more: usize,
}

// How many words before the one that is refused a construct may begin.
const NEAR: usize = 4;

// The construct that a symbol tells.
fn by_symbol(words: Words<'_>, walk: Walk) -> Option<Construct> {
    if let Some(construct) = system_verilog::by_symbol(words, walk) {
        return Some(construct);
    }
    if let Some(construct) = expressions::by_symbol(words, walk) {
        return Some(construct);
    }
    match statements::by_symbol(words, walk) {
        Some(construct) => Some(construct),
        None => declarations::by_symbol(words, walk),
    }
}

// The construct that a name or a keyword tells by where it stands.
fn by_name(words: Words<'_>, walk: Walk) -> Option<Construct> {
    if let Some(construct) = system_verilog::by_name(words, walk) {
        return Some(construct);
    }
    if let Some(construct) = declarations::by_name(words, walk) {
        return Some(construct);
    }
    match statements::by_name(words, walk) {
        Some(construct) => Some(construct),
        None => expressions::by_name(words),
    }
}

/// The construct that the word tells, if it tells one; but for the formats of a string.
pub(crate) fn construct_of(words: Words<'_>, walk: Walk) -> Option<Construct> {
    if walk.attribute || walk.level == Level::Passed {
        return None;
    }
    // a task may have one, and is told itself
    if is(words.word, "inout") && walk.is_in_routine() {
        return None;
    }
    if let Some(construct) = keywords::by_keyword(words) {
        return Some(construct);
    }
    match words.kind()? {
        TokenKind::Symbol => by_symbol(words, walk),
        TokenKind::Name => by_name(words, walk),
        TokenKind::Plain => bounds::by_plain_number(words),
        TokenKind::Based => expressions::by_based_number(words),
        TokenKind::Text => expressions::by_string(words, walk),
        TokenKind::System => None,
    }
}

/// Whether two that are found are told as one: of what is told with its word, where the words are the same, or name the same.
pub(crate) fn is_same(one: &Found<'_>, other: &Found<'_>) -> bool {
    let names_word = match one.what {
        What::LeftOut(construct) => match row_of(construct) {
            None => false,
            Some(row) => row.names_word,
        },
        What::Broken(number) => number == 111 || number == 301 || number == 303,
        What::Mistake(mistake) => match rule_for(mistake) {
            None => false,
            Some(rule) => rule.names_word,
        },
    };
    one.what == other.what
        && (!names_word || without_backslash(one.word) == without_backslash(other.word))
}

/// Keeps what was found, or counts it where it is there.
pub(crate) fn keep<'a>(all: &mut Vec<Found<'a>>, found: Found<'a>) -> Result<(), NoMemory> {
    for kept in all.iter_mut() {
        if is_same(kept, &found) {
            kept.more = kept.more.saturating_add(1);
            return Ok(());
        }
    }
    all.push(found)?;
    Ok(())
}

// Constructs that the symbol behind their name tells.
const CALLS: [Construct; 7] = [
    Construct::Assertion,
    Construct::Class,
    Construct::DoWhile,
    Construct::Foreach,
    Construct::Function,
    Construct::Jump,
    Construct::Task,
];

// Whether the construct is one of those.
fn is_call(construct: Construct) -> bool {
    for call in &CALLS {
        if *call == construct {
            return true;
        }
    }
    false
}

// A construct that this word tells: a call stands where its name does, a real number where it begins.
fn told_at<'a>(words: Words<'a>, construct: Construct) -> Found<'a> {
    let is_call = is_one_of(words.word, "( ;") && is_call(construct);
    let is_number = construct == Construct::Real && words.is_plain_before(1) && words.adjoins();
    let place = if is_call || is_number {
        words.previous()
    } else {
        words
    };
    found_at(place, construct, words.word)
}

/// A construct at this word.
pub(crate) fn found_at<'a>(words: Words<'a>, construct: Construct, word: &'a [u8]) -> Found<'a> {
    Found {
        what: What::LeftOut(construct),
        word,
        place: words.place(),
        more: 0,
    }
}

// Keeps each format of the string that the profile leaves out.
fn keep_formats<'a>(all: &mut Vec<Found<'a>>, words: Words<'a>) -> Result<(), NoMemory> {
    let mut rest = letters_of(words.word);
    for _ in 0..rest.len() {
        let Some(format) = bad_format(rest) else {
            return Ok(());
        };
        keep(all, found_at(words, Construct::Format, format.word))?;
        rest = format.behind;
    }
    Ok(())
}

// Whether the word is a string of which formats are looked at.
fn is_format(words: Words<'_>, walk: Walk) -> bool {
    words.is(TokenKind::Text) && expressions::is_printed(words, walk) && !walk.attribute
}

/// Each construct that the words tell, in the order in which they come first.
pub(crate) fn constructs<'a>(
    alloc: Global,
    tokens: &'a Tokens<'a>,
) -> Result<Vec<Found<'a>>, NoMemory> {
    let declared = declared_of(alloc, tokens)?;
    let mut all = Vec::new(alloc);
    let mut walk = Walk::new();
    let mut module: &[u8] = &[];
    for at in 0..tokens.len() {
        let words = Words::new(tokens, at);
        let construct = match construct_of(words, walk) {
            Some(construct) => Some(construct),
            None => declared.construct_of(words, walk, module),
        };
        if let Some(construct) = construct {
            keep(&mut all, told_at(words, construct))?;
        } else if is_format(words, walk) {
            keep_formats(&mut all, words)?;
        }
        if begins_instances(words, walk) {
            module = words.name();
        }
        walk = walk.after(words);
    }
    Ok(all)
}

// Whether a text with the construct has a tree, so that it isn't what a word is refused for.
fn has_tree(construct: Construct) -> bool {
    construct == Construct::WideVector
}

/// The construct that the word at the place tells, or one of those just before it.
pub(crate) fn construct_near<'a>(tokens: &'a Tokens<'a>, refused: usize) -> Option<Found<'a>> {
    let mut near = None;
    let mut walk = Walk::new();
    for at in 0..refused.saturating_add(1) {
        let words = Words::new(tokens, at);
        if at.saturating_add(NEAR) > refused {
            if let Some(construct) = construct_of(words, walk) {
                if !has_tree(construct) {
                    near = Some(told_at(words, construct));
                }
            }
        }
        walk = walk.after(words);
    }
    near
}

/// The construct that the word at the place tells.
pub(crate) fn construct_at<'a>(tokens: &'a Tokens<'a>, at: usize) -> Option<Found<'a>> {
    let words = Words::new(tokens, at);
    let construct = construct_of(words, walk_to(tokens, at))?;
    Some(told_at(words, construct))
}
