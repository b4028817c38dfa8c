// Names that the modules of a text use and don't declare. Told of texts that have a tree, in which a declaration is what its words say.

use crate::find::{Found, What, keep};
use crate::walk::{Group, Level, Opening, Walk};
use crate::words::{Words, is, is_name, is_one_of};
use basis::NoMemory;
use std::alloc::Global;
use vlex::{TokenKind, Tokens};

// The number of the fault.
const UNDECLARED: u16 = 303;

// How many words are looked at, and how many declared names are kept: of a longer text nothing is told.
const WORDS: usize = 65_536;

const NAMES: usize = 4_096;

// A name that the module of this number declares.
#[derive(Clone, Copy)]
struct Declared<'a> {
    module: usize,
    name: &'a [u8],
}

// The number of the module that the next word stands in.
fn module_behind(words: Words<'_>, module: usize) -> usize {
    if is(words.word, "module") {
        module.saturating_add(1)
    } else {
        module
    }
}

// Whether the word, in the head of a module, is declared there: a parameter before its value, or a port.
fn is_in_head(words: Words<'_>, walk: Walk) -> bool {
    let next = words.after;
    match walk.group {
        Group::Delay => is(next, "="),
        _ => !walk.assigned && is_one_of(next, ", ) ="),
    }
}

/// Whether the word, a name, is declared here.
pub(crate) fn declares(words: Words<'_>, walk: Walk) -> bool {
    match walk.level {
        Level::Head => walk.open == 1 && is_in_head(words, walk),
        Level::Items => {
            let is_item = walk.opening != Opening::Other && walk.opening != Opening::Assign;
            is_item && walk.open == 0 && !walk.assigned && !walk.starts
        }
        _ => false,
    }
}

/// Whether the word is the name of a block.
pub(crate) fn names_block(words: Words<'_>) -> bool {
    is(words.before, ":") && is(words.second_before, "begin")
}

// Whether the word names a module, a block, a port or a parameter of an instance, or what is dumped; or stands where nothing looks.
fn is_elsewhere(words: Words<'_>, walk: Walk) -> bool {
    let names_module = is(words.before, "module") || (walk.level == Level::Items && walk.starts);
    let is_named = names_module || names_block(words);
    let is_free = walk.group == Group::Dump || walk.group == Group::Idle;
    is_named || is(words.before, ".") || is_free
}

// Whether the word is a name, in a module.
fn is_inside(words: Words<'_>, walk: Walk) -> bool {
    let is_within = walk.level != Level::Outside && walk.level != Level::Passed;
    words.is(TokenKind::Name) && is_name(words.word) && is_within
}

// The names that are declared; none where there are too many.
fn declared_of<'a>(
    alloc: Global,
    tokens: &'a Tokens<'a>,
) -> Result<Option<Vec<Declared<'a>>>, NoMemory> {
    let mut all = Vec::new(alloc);
    let (mut walk, mut module) = (Walk::new(), 0usize);
    for at in 0..tokens.len() {
        let words = Words::new(tokens, at);
        if all.len() > NAMES {
            return Ok(None);
        }
        if is_inside(words, walk) && !is_elsewhere(words, walk) && declares(words, walk) {
            all.push(Declared {
                module,
                name: words.name(),
            })?;
        }
        module = module_behind(words, module);
        walk = walk.after(words);
    }
    Ok(Some(all))
}

// Whether the module declares the name.
fn has(all: &[Declared<'_>], module: usize, name: &[u8]) -> bool {
    for one in all {
        if one.module == module && one.name == name {
            return true;
        }
    }
    false
}

// The names that are used and aren't among these.
fn used_beside<'a>(
    alloc: Global,
    tokens: &'a Tokens<'a>,
    declared: &[Declared<'_>],
) -> Result<Vec<Found<'a>>, NoMemory> {
    let mut all = Vec::new(alloc);
    let (mut walk, mut module) = (Walk::new(), 0usize);
    for at in 0..tokens.len() {
        let words = Words::new(tokens, at);
        let is_used = is_inside(words, walk) && !is_elsewhere(words, walk);
        if is_used && !has(declared, module, words.name()) {
            keep(
                &mut all,
                Found {
                    what: What::Broken(UNDECLARED),
                    word: words.word,
                    place: words.place(),
                    more: 0,
                },
            )?;
        }
        module = module_behind(words, module);
        walk = walk.after(words);
    }
    Ok(all)
}

/// Each name that a module of the text uses and doesn't declare, in the order in which they come first; none of a text that is long.
pub(crate) fn undeclared_names<'a>(
    alloc: Global,
    tokens: &'a Tokens<'a>,
) -> Result<Vec<Found<'a>>, NoMemory> {
    if tokens.len() > WORDS {
        return Ok(Vec::new(alloc));
    }
    match declared_of(alloc, tokens)? {
        None => Ok(Vec::new(alloc)),
        Some(declared) => used_beside(alloc, tokens, &declared),
    }
}
