// What stands where no words can be read: a directive, a macro, a number, a string or a letter that is refused; and how it is taken out
// of the text, so that reading can go on behind it.

use crate::construct::Construct;
use crate::directives::{is_other, mistake_of, takes_line};
use crate::find::What;
use crate::lines::{from, front};
use crate::mistakes::Mistake;
use crate::numbers;
use crate::words::is_one_of;
use basis::is_in_name;
use memchr::memchr;

/// What is refused at a place: what is told of it, how many letters stand before its word and how many that has, and what is put in the
/// place of so many letters, the first of them and the others.
#[derive(Clone, Copy)]
pub(crate) struct Flaw {
    pub(crate) what: What,
    pub(crate) before: usize,
    pub(crate) word: usize,
    pub(crate) len: usize,
    pub(crate) first: u8,
    pub(crate) other: u8,
}

/// Letters that stand side by side.
#[derive(Clone, Copy)]
pub(crate) enum Letters {
    OfName,
    OfNumber,
    /// On their line.
    Blanks,
    /// On several lines.
    Spaces,
    NoSpaces,
}

// Whether the letter is one of these.
fn is_in(letters: Letters, letter: u8) -> bool {
    match letters {
        Letters::OfName => is_in_name(letter),
        Letters::OfNumber => is_in_name(letter) || letter == b'?' || letter == b'\'',
        Letters::Blanks => letter == b' ' || letter == b'\t',
        Letters::Spaces => letter.is_ascii_whitespace(),
        Letters::NoSpaces => !letter.is_ascii_whitespace(),
    }
}

/// How many of these letters stand at the head.
pub(crate) fn len_of(letters: Letters, rest: &[u8]) -> usize {
    let mut len = 0usize;
    for letter in rest {
        if !is_in(letters, *letter) {
            return len;
        }
        len = len.saturating_add(1);
    }
    len
}

/// The letters up to the end of the line.
pub(crate) fn line_len(rest: &[u8]) -> usize {
    match memchr(b'\n', rest) {
        None => rest.len(),
        Some(len) => len,
    }
}

// The letters of a definition, with the lines on which it continues.
fn definition_len(rest: &[u8]) -> usize {
    let mut is_joined = false;
    for (at, letter) in rest.iter().enumerate() {
        if *letter == b'\n' && !is_joined {
            return at;
        }
        is_joined = *letter == b'\\';
    }
    rest.len()
}

/// The letters of the use of a macro, with its arguments where they stand at once behind its name.
pub(crate) fn use_len(rest: &[u8]) -> usize {
    let name = len_of(Letters::OfName, from(rest, 1)).saturating_add(1);
    let mut open = 0usize;
    for (at, letter) in from(rest, name).iter().enumerate() {
        if *letter == b'(' {
            open = open.saturating_add(1);
        }
        if *letter == b')' {
            open = open.saturating_sub(1);
        }
        if open == 0 {
            let is_call = *letter == b')';
            return if is_call {
                name.saturating_add(at).saturating_add(1)
            } else {
                name
            };
        }
    }
    name
}

// What is told, of which so many letters become blanks.
fn flaw_blanked(what: What, word: usize, len: usize) -> Flaw {
    Flaw {
        what,
        before: 0,
        word,
        len,
        first: b' ',
        other: b' ',
    }
}

/// What is told, of which so many letters become a number.
pub(crate) fn flaw_of_number(what: What, word: usize, len: usize) -> Flaw {
    Flaw {
        what,
        before: 0,
        word,
        len,
        first: b'0',
        other: b' ',
    }
}

// The word behind the blanks behind so many letters.
fn word_behind(rest: &[u8], len: usize) -> &[u8] {
    let behind = from(rest, len);
    let word = from(behind, len_of(Letters::Blanks, behind));
    front(word, len_of(Letters::OfName, word))
}

// Whether the letters begin with the definition of a macro with arguments: of this name, or of any.
fn defines(rest: &[u8], name: Option<&[u8]>) -> bool {
    let Some(behind) = rest.strip_prefix(b"`define") else {
        return false;
    };
    let defined = word_behind(behind, 0);
    let word = from(behind, len_of(Letters::Blanks, behind));
    let is_right = match name {
        None => true,
        Some(name) => name == defined,
    };
    is_right && from(word, defined.len()).starts_with(b"(")
}

// Whether the text defines a macro of this name with arguments.
fn has_arguments(text: &[u8], name: &[u8]) -> bool {
    let mut rest = text;
    for _ in 0..text.len() {
        let Some(at) = memchr(b'`', rest) else {
            return false;
        };
        let here = from(rest, at);
        if defines(here, Some(name)) {
            return true;
        }
        rest = from(here, 1);
    }
    false
}

// Whether one of the files defines a macro of this name with arguments.
fn has_macro(files: &[Vec<u8>], name: &[u8]) -> bool {
    for text in files {
        if has_arguments(text, name) {
            return true;
        }
    }
    false
}

// An `include`, or a macro that isn't there.
fn by_macro(rest: &[u8], files: &[Vec<u8>]) -> Flaw {
    let name = front(from(rest, 1), len_of(Letters::OfName, from(rest, 1)));
    let word = name.len().saturating_add(1);
    if name == b"include".as_slice() {
        return flaw_blanked(What::LeftOut(Construct::Include), word, line_len(rest));
    }
    if has_macro(files, name) {
        let what = What::LeftOut(Construct::MacroArguments);
        return flaw_of_number(what, word, use_len(rest));
    }
    if is_other(name) {
        let len = if takes_line(name) {
            line_len(rest)
        } else {
            word
        };
        return flaw_blanked(What::LeftOut(Construct::Directive), word, len);
    }
    flaw_of_number(What::Broken(111), word, use_len(rest))
}

// A directive that is ill formed, or isn't first on its line.
fn by_directive(rest: &[u8], is_first: bool) -> Flaw {
    let name = front(from(rest, 1), len_of(Letters::OfName, from(rest, 1)));
    let word = name.len().saturating_add(1);
    if defines(rest, None) {
        let what = What::LeftOut(Construct::MacroArguments);
        return flaw_blanked(what, word, definition_len(rest));
    }
    let what = match mistake_of(
        name,
        front(from(rest, word), line_len(from(rest, word))),
        is_first,
    ) {
        None => What::Broken(110),
        Some(mistake) => What::Mistake(mistake),
    };
    if rest.starts_with(b"`define") {
        return flaw_blanked(what, word, definition_len(rest));
    }
    let kind = word_behind(rest, word);
    let is_known = kind.is_empty() || is_one_of(kind, "wire none");
    if rest.starts_with(b"`default_nettype") && !is_known {
        let what = What::LeftOut(Construct::NetTypeDirective);
        return flaw_blanked(what, word, line_len(rest));
    }
    flaw_blanked(what, word, line_len(rest))
}

// The first of two backticks, which becomes a blank.
fn by_backticks() -> Flaw {
    flaw_blanked(What::Mistake(Mistake::DoubledBacktick), 0, 1)
}

// A comment or a string that isn't ended.
fn by_open(rest: &[u8]) -> Flaw {
    match rest.first() {
        Some(b'`') => flaw_blanked(What::Broken(101), 0, use_len(rest)),
        Some(b'/') => flaw_blanked(What::Broken(101), 0, rest.len()),
        _ => flaw_blanked(What::Broken(101), 0, line_len(rest)),
    }
}

/// What is refused by this number at the head of these letters of the files, whether they are the first of their line or not.
pub(crate) fn flaw_of(number: u16, rest: &[u8], is_first: bool, files: &[Vec<u8>]) -> Flaw {
    match number {
        101 => by_open(rest),
        _ if rest.starts_with(b"``") => by_backticks(),
        102 => numbers::flaw_of(rest),
        110 if rest.starts_with(b"`") => by_directive(rest, is_first),
        111 if rest.starts_with(b"`") => by_macro(rest, files),
        114 => flaw_blanked(What::Broken(114), 0, line_len(rest)),
        _ => flaw_blanked(What::Broken(number), 0, 1),
    }
}
