// Mistakes of ports, told by how their module declares them. Told of texts that have a tree.

use crate::mistakes::Mistake;
use crate::undeclared::declares;
use crate::walk::{Group, Level, Opening, Walk};
use crate::words::{Words, is, is_name, is_one_of};
use vlex::Tokens;

// How many words of a range are compared, and how many may stand before it.
const FAR: usize = 256;

const FRONT: usize = 4;

// With these a port is declared, or a net or a variable besides it.
const DECLARING: &str = "input output reg wire";

// Where a word stands, and the first word of its module and of its item.
#[derive(Clone, Copy)]
struct Standing {
    walk: Walk,
    module: usize,
    item: usize,
}

// How a module declares a name: in the list of its ports, as an input, as a parameter; and the first word of the item that says which
// way the port goes.
#[derive(Clone, Copy)]
struct Ways {
    is_listed: bool,
    is_input: bool,
    is_parameter: bool,
    direction: Option<usize>,
}

// Where the word at this place stands.
fn standing_of<'a>(tokens: &'a Tokens<'a>, at: usize) -> Standing {
    let mut standing = Standing {
        walk: Walk::new(),
        module: 0,
        item: 0,
    };
    for before in 0..at {
        let words = Words::new(tokens, before);
        if is(words.word, "module") {
            standing.module = before;
        }
        if standing.walk.starts {
            standing.item = before;
        }
        standing.walk = standing.walk.after(words);
    }
    standing
}

impl Ways {
    // With one more declaration, in an item that begins with this word.
    fn with(&self, walk: Walk, item: usize, first: &[u8]) -> Ways {
        let mut next = *self;
        match walk.level {
            Level::Head if walk.group == Group::Delay => next.is_parameter = true,
            Level::Head => next.is_listed = true,
            _ if walk.opening == Opening::Parameter => next.is_parameter = true,
            _ if walk.opening == Opening::Port => {
                next.is_input = is(first, "input");
                next.direction = Some(item);
            }
            _ => {}
        }
        next
    }
}

// How the module that begins at this place declares the name.
fn ways_of<'a>(tokens: &'a Tokens<'a>, module: usize, name: &[u8]) -> Ways {
    let mut ways = Ways {
        is_listed: false,
        is_input: false,
        is_parameter: false,
        direction: None,
    };
    let (mut walk, mut item) = (Walk::new(), module);
    for at in module..tokens.len() {
        let words = Words::new(tokens, at);
        if is(words.word, "endmodule") {
            return ways;
        }
        if walk.starts {
            item = at;
        }
        if words.name() == name && declares(words, walk) {
            ways = ways.with(walk, item, Words::new(tokens, item).word);
        }
        walk = walk.after(words);
    }
    ways
}

// The text, looked at from the first word of an item that is neither a kind nor a sign.
fn behind_kind(words: Words<'_>) -> Words<'_> {
    for more in 1..FRONT {
        if !is_one_of(words.word_after(more), "reg wire signed") {
            return words.later(more);
        }
    }
    words.later(FRONT)
}

// How many brackets are open behind the word, where so many were before.
fn open_behind(open: usize, word: &[u8]) -> usize {
    match word {
        b"[" => open.saturating_add(1),
        b"]" => open.saturating_sub(1),
        _ => open,
    }
}

// Whether both begin with the same range, or with none.
fn have_same_range(one: Words<'_>, other: Words<'_>) -> bool {
    if !is(one.word, "[") && !is(other.word, "[") {
        return true;
    }
    let mut open = 0usize;
    for more in 0..FAR {
        if one.word_after(more) != other.word_after(more) {
            return false;
        }
        open = open_behind(open, one.word_after(more));
        if open == 0 {
            return true;
        }
    }
    true
}

// Whether the items that begin at these places have the same range.
fn are_alike<'a>(tokens: &'a Tokens<'a>, direction: Option<usize>, item: usize) -> bool {
    match direction {
        None => true,
        Some(at) => have_same_range(
            behind_kind(Words::new(tokens, at)),
            behind_kind(Words::new(tokens, item)),
        ),
    }
}

// What is wrong with a name of the list of ports.
fn of_listed(words: Words<'_>, number: u16) -> Option<Mistake> {
    match number {
        302 => Some(Mistake::SamePort),
        303 => Some(Mistake::UndirectedPort),
        310 if is(words.after, "=") => Some(Mistake::ValuedPort),
        _ => None,
    }
}

// What is wrong with a name that an item declares, by how its module declares it otherwise.
fn of_item<'a>(tokens: &'a Tokens<'a>, number: u16, item: usize, ways: Ways) -> Option<Mistake> {
    let first = Words::new(tokens, item).word;
    let is_second = is_one_of(first, "reg wire");
    let is_integer = is_one_of(first, "integer time");
    let is_port = is_one_of(first, "input output");
    match number {
        302 if ways.is_listed && is_integer => Some(Mistake::IntegerPort),
        302 if ways.is_listed && is_one_of(first, DECLARING) => Some(Mistake::DeclaredPort),
        303 if is_port => Some(Mistake::UnlistedPort),
        306 if is_second && !are_alike(tokens, ways.direction, item) => Some(Mistake::OtherRange),
        310 if is(first, "reg") && ways.is_input => Some(Mistake::InputVariable),
        // told at the name of a port alone where it has a value that it may not have
        310 if is_port => Some(Mistake::ValuedPort),
        _ => None,
    }
}

// What is wrong with what an instance is connected to, where that is told at its name.
fn of_instance(number: u16) -> Option<Mistake> {
    match number {
        305 => Some(Mistake::ConnectedPorts),
        306 => Some(Mistake::ConnectedSize),
        310 => Some(Mistake::ConnectedKind),
        _ => None,
    }
}

// Whether the word names an instance where it is made.
fn names_instance(words: Words<'_>, walk: Walk) -> bool {
    let is_item = walk.level == Level::Items && walk.opening == Opening::Instance;
    is_item && walk.open == 0 && is(words.after, "(")
}

/// What is wrong with the port, the parameter or the instance that the word at this place names, where that tells a fault of this number.
pub(crate) fn mistake_of<'a>(tokens: &'a Tokens<'a>, at: usize, number: u16) -> Option<Mistake> {
    let words = Words::new(tokens, at);
    if !is_name(words.word) {
        return None;
    }
    let standing = standing_of(tokens, at);
    let walk = standing.walk;
    if names_instance(words, walk) {
        return of_instance(number);
    }
    let ways = ways_of(tokens, standing.module, words.name());
    if !declares(words, walk) {
        let is_late = number == 303 && ways.is_parameter;
        return if is_late {
            Some(Mistake::LaterParameter)
        } else {
            None
        };
    }
    match walk.level {
        Level::Head if walk.group == Group::Plain => of_listed(words, number),
        Level::Items => of_item(tokens, number, standing.item, ways),
        _ => None,
    }
}
