// Mistakes of the grammar, told by the word that is refused and the words before it. Told of texts that have no tree.

use crate::mistakes::Mistake;
use crate::walk::{Group, Level, PRINTS, Walk, walk_to};
use crate::words::{Words, is, is_name, is_one_of};
use vlex::{TokenKind, Tokens};

const TYPES: &str = "integer reg time wire";

// These may begin a parameter behind the word `parameter`, beside its name.
const PARAMETER_TYPES: &str = "integer time signed [";

// With these an escaped name ends that was meant to end before them.
const NAME_ENDS: [u8; 3] = *b";,)";

// What is wrong with the types of a declaration.
fn of_types(words: Words<'_>) -> Option<Mistake> {
    let before = words.before;
    match words.word {
        word if is(word, "reg") && is(before, "input") => Some(Mistake::InputReg),
        word if is_one_of(word, TYPES) && is_one_of(before, TYPES) => Some(Mistake::TwoTypes),
        word if is_one_of(word, "[ signed") && is_one_of(before, "integer time") => {
            Some(Mistake::SizedInteger)
        }
        _ => None,
    }
}

// What is wrong with the list of a module's parameters.
fn of_parameters(words: Words<'_>) -> Option<Mistake> {
    let (word, before) = (words.word, words.before);
    let has_type = is_one_of(word, PARAMETER_TYPES);
    if is(word, "localparam") {
        return Some(Mistake::LocalInList);
    }
    if is(before, "(") && (has_type || is_name(words.word)) {
        return Some(Mistake::ParameterWord);
    }
    if is(before, ",") && has_type {
        return Some(Mistake::ParameterWord);
    }
    None
}

// What is wrong with the lists in the head of a module.
fn of_head(words: Words<'_>, walk: Walk) -> Option<Mistake> {
    let before = words.before;
    if walk.level != Level::Head || walk.open != 1 {
        return None;
    }
    match words.word {
        b";" => Some(Mistake::SemicolonInList),
        b")" if is(before, ",") => Some(Mistake::CommaAtEnd),
        _ if walk.group == Group::Delay => of_parameters(words),
        word if is_one_of(word, TYPES) && is_one_of(before, "( ,") => { Some(Mistake::TypedPort) }
        _ => None,
    }
}

// Whether the word may begin an argument.
fn begins_argument(words: Words<'_>) -> bool {
    let is_number = words.is(TokenKind::Plain) || words.is(TokenKind::Based);
    words.is(TokenKind::Text) || is_number || is_name(words.word)
}

// Whether the word is an escaped name with a mark at its end that was meant to stand behind it.
fn swallows_end(word: &[u8]) -> bool {
    if !word.starts_with(b"\\") {
        return false;
    }
    for end in &NAME_ENDS {
        if word.last() == Some(end) {
            return true;
        }
    }
    false
}

/// Whether the word is an escaped name that goes on to where its declaration, or its statement, was meant to end.
pub(crate) fn is_long_name(words: Words<'_>) -> bool {
    swallows_end(words.word)
}

/// What is wrong with the word at this place, where the words before it tell.
pub(crate) fn grammar_mistake_of<'a>(tokens: &'a Tokens<'a>, at: usize) -> Option<Mistake> {
    let words = Words::new(tokens, at);
    if is_one_of(words.before, PRINTS) && begins_argument(words) {
        return Some(Mistake::OpenArguments);
    }
    match of_types(words) {
        Some(mistake) => Some(mistake),
        None => of_head(words, walk_to(tokens, at)),
    }
}
