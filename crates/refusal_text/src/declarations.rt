// Constructs of declarations, of items and of heads of modules, told by their words.

use crate::construct::Construct;
use crate::walk::{Group, Level, NETS, Opening, Walk};
use crate::words::{Words, is, is_name, is_one_of};

// With these a declaration begins, beside those that a keyword tells.
const DECLARATIONS: &str = "reg wire integer time event parameter localparam";

// As items these generate others.
const GENERATING: &str = "if for case casez casex begin";

// Behind these an item belongs to what generates it.
const GENERATED: &str = ") else :";

// Switches whose names aren't reserved here.
const SWITCHES: &str = "tran tranif0 tranif1 rtran rtranif0 rtranif1 rnmos rpmos rcmos";

// How many words of a list of ports are looked at.
const FAR: usize = 4_096;

// Whether the word stands in the list of ports.
fn is_in_list(walk: Walk) -> bool {
    walk.level == Level::Head && walk.group == Group::Plain && walk.open == 1
}

// Whether all words before this one, up to the parenthesis that opens the list of ports, are names and commas.
fn is_behind_names(words: Words<'_>) -> bool {
    for fewer in 1..FAR {
        let before = words.word_before(fewer);
        if is(before, "(") {
            return fewer > 1;
        }
        if !is(before, ",") && !is_name(words.word_before(fewer)) {
            return false;
        }
    }
    false
}

// Whether the word ends a port that has no name, in a list of names.
fn ends_no_port(words: Words<'_>) -> bool {
    let before = words.before;
    let is_first = is(words.word, ",") && is(before, "(");
    is_first || (is(before, ",") && is_behind_names(words))
}

// Whether the word begins a port that is a part of a net.
fn is_part_port(words: Words<'_>, walk: Walk) -> bool {
    is_in_list(walk)
        && is_one_of(words.before, "( ,")
        && is_name(words.word)
        && is(words.after, "[")
}

// The construct of an item that this word begins.
fn by_item(words: Words<'_>, walk: Walk) -> Option<Construct> {
    let (word, before) = (words.word, words.before);
    if !walk.starts {
        return None;
    }
    if is_one_of(word, SWITCHES) {
        return Some(Construct::ThreeState);
    }
    if is(word, "or") {
        return Some(Construct::Gate);
    }
    if is_one_of(word, GENERATING) && !walk.generates && !is_one_of(before, GENERATED) {
        return Some(Construct::Generate);
    }
    None
}

/// The construct of a declaration, an item or a port that this word begins.
pub(crate) fn by_name(words: Words<'_>, walk: Walk) -> Option<Construct> {
    let word = words.word;
    if is_one_of(word, DECLARATIONS) && walk.is_in_block() {
        return Some(Construct::BlockDeclaration);
    }
    if is_one_of(word, "integer time") && is(words.before, "input") && !walk.is_in_routine() {
        return Some(Construct::InputType);
    }
    if is_one_of(word, "input output") && is_in_list(walk) && is_behind_names(words) {
        return Some(Construct::MixedPorts);
    }
    if is_one_of(word, "vectored scalared") && is_one_of(words.before, NETS) {
        return Some(Construct::Vectored);
    }
    if is_part_port(words, walk) {
        return Some(Construct::PortExpression);
    }
    by_item(words, walk)
}

// Whether the word stands among what an `assign` or a net begins with, before its value.
fn is_before_value(walk: Walk, opening: Opening) -> bool {
    walk.level == Level::Items && walk.opening == opening && walk.open == 0 && !walk.assigned
}

/// The construct of a symbol in the head of a module, or in an item.
pub(crate) fn by_symbol(words: Words<'_>, walk: Walk) -> Option<Construct> {
    let is_driven = is_before_value(walk, Opening::Assign) || is_before_value(walk, Opening::Net);
    let is_port = is_in_list(walk);
    match words.word {
        b"=" if is_port && is_behind_names(words) => Some(Construct::PortValue),
        b"," | b")" if is_port && ends_no_port(words) => { Some(Construct::UnnamedPort) }
        b"{" if is_port && !walk.assigned => Some(Construct::PortExpression),
        b"#" if is_driven => Some(Construct::NetDelay),
        b"(" if is_driven && !is(words.before, "#") => Some(Construct::Strength),
        _ => None,
    }
}
