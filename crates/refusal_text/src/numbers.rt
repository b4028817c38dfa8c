// Numbers, strings, names and letters that are no words (docs/LANGUAGE.md, "Words").

use crate::construct::Construct;
use crate::find::What;
use crate::letters::{Flaw, Letters, flaw_of_number, len_of, use_len};
use crate::lines::{from, front};
use crate::mistakes::Mistake;
use crate::words::is_one_of;
use basis::digits_len;
use memchr::memchr;

// The widest number, in bits.
const WIDTH: u64 = 64;

// How many letters a string has, with its quotes.
fn string_len(rest: &[u8]) -> usize {
    let mut is_escaped = true;
    for (at, letter) in rest.iter().enumerate() {
        if *letter == b'"' && !is_escaped {
            return at.saturating_add(1);
        }
        is_escaped = *letter == b'\\' && !is_escaped;
    }
    rest.len()
}

// Whether the letter names a base.
fn is_base(letter: u8) -> bool {
    memchr(letter, b"bBoOdDhH").is_some()
}

// Whether a letter of the number that these digits write is past the widest one.
pub(crate) fn is_wide(digits: &[u8]) -> bool {
    let mut size = 0u64;
    for digit in digits {
        let unit = u64::from(digit.saturating_sub(b'0'));
        size = size.saturating_mul(10).saturating_add(unit);
    }
    size > WIDTH
}

// What is told of a number, and what is put in its place.
fn number(what: What, len: usize) -> Flaw {
    flaw_of_number(what, len, len)
}

// What is told of a cast, in which an operator takes the place of the apostrophe: its type is no call.
fn cast() -> Flaw {
    Flaw {
        what: What::LeftOut(Construct::Cast),
        before: 0,
        word: 1,
        len: 1,
        first: b'+',
        other: b' ',
    }
}

// What stands behind an apostrophe that no base follows: SystemVerilog has casts there, and without a size values.
fn without_base(size: usize, behind: &[u8], whole: usize) -> Flaw {
    match behind.first() {
        Some(b'(') if size == 0 => cast(),
        Some(b'(') => number(What::LeftOut(Construct::Cast), whole),
        Some(b'{') if size == 0 => number(What::LeftOut(Construct::Pattern), 1),
        Some(b'0') | Some(b'1') | Some(b'x') | Some(b'X') | Some(b'z') | Some(b'Z') if size == 0 =>
            { number(What::LeftOut(Construct::Fill), 2) }
        _ => number(What::Broken(102), whole),
    }
}

// Where the apostrophe behind a size stands, or what else stands behind it.
fn mark_at(rest: &[u8], size: usize) -> usize {
    let blanks = len_of(Letters::Spaces, from(rest, size));
    let mark = size.saturating_add(blanks);
    if from(rest, mark).starts_with(b"'") {
        mark
    } else {
        size
    }
}

// A number whose digits, or whose size, there aren't.
fn by_number(rest: &[u8]) -> Flaw {
    let size = digits_len(rest);
    let mark = mark_at(rest, size);
    let whole = mark.saturating_add(len_of(Letters::OfNumber, from(rest, mark)));
    let behind = from(rest, mark.saturating_add(1));
    let is_signed = behind.starts_with(b"s") || behind.starts_with(b"S");
    let sign = if is_signed { 1usize } else { 0usize };
    let base = from(behind, sign);
    let has_base = match base.first() {
        None => false,
        Some(letter) => is_base(*letter),
    };
    if !has_base {
        return without_base(size, behind, whole);
    }
    let digits = from(base, 1);
    let blanks = len_of(Letters::Spaces, digits);
    let before = mark.saturating_add(sign).saturating_add(2);
    let end = before
        .saturating_add(blanks)
        .saturating_add(len_of(Letters::OfNumber, from(digits, blanks)));
    let len = if blanks > 0 { end } else { whole };
    if is_wide(front(rest, size)) {
        return number(What::LeftOut(Construct::WideNumber), len);
    }
    number(What::Broken(102), len)
}

// Whether the letter is an octal digit.
fn is_octal(letter: u8) -> bool {
    letter >= b'0' && letter <= b'7'
}

// Whether the letters, which stand behind a backslash, begin with an octal number over 377.
fn is_over(letters: &[u8]) -> bool {
    match letters {
        [first, second, third, ..] => {
            *first > b'3' && is_octal(*first) && is_octal(*second) && is_octal(*third)
        }
        _ => false,
    }
}

// Whether what stands behind a backslash is an escape (3.6.3).
fn is_escape(letters: &[u8]) -> bool {
    match letters.first() {
        None => false,
        Some(letter) => {
            is_one_of(front(letters, 1), "n t \\ \"") || (is_octal(*letter) && !is_over(letters))
        }
    }
}

// Where in the string the first escape stands that there isn't; at its start where there is none.
fn bad_escape(string: &[u8]) -> usize {
    let mut is_behind = false;
    for (at, letter) in string.iter().enumerate() {
        if is_behind && !is_escape(from(string, at)) {
            return at.saturating_sub(1);
        }
        is_behind = *letter == b'\\' && !is_behind;
    }
    0
}

// A string with an escape that there isn't; its letters become blanks.
fn by_string(rest: &[u8]) -> Flaw {
    let whole = string_len(rest);
    let before = bad_escape(front(rest, whole));
    let is_long = is_over(from(rest, before.saturating_add(1)));
    Flaw {
        what: What::Mistake(Mistake::Escape),
        before,
        word: if is_long { 4 } else { 2 },
        len: whole.saturating_sub(1),
        first: b'"',
        other: b' ',
    }
}

// An escaped name with a dot, or without letters.
fn by_escape(rest: &[u8]) -> Flaw {
    let len = len_of(Letters::NoSpaces, rest);
    let what = if memchr(b'.', front(rest, len)).is_some() {
        What::LeftOut(Construct::EscapedName)
    } else {
        What::Broken(102)
    };
    Flaw {
        what,
        before: 0,
        word: len,
        len,
        first: b'_',
        other: b'_',
    }
}

/// What is refused at the head of these letters, at which no word stands.
pub(crate) fn flaw_of(rest: &[u8]) -> Flaw {
    match rest.first() {
        Some(b'\\') => by_escape(rest),
        Some(b'"') => by_string(rest),
        Some(b'`') => flaw_of_number(What::Broken(102), 0, use_len(rest)),
        Some(b'\'') => by_number(rest),
        Some(letter) if letter.is_ascii_digit() => by_number(rest),
        Some(b'$') => number(What::LeftOut(Construct::Queue), 1),
        _ => Flaw {
            what: What::Broken(102),
            before: 0,
            word: 1,
            len: 1,
            first: b' ',
            other: b' ',
        },
    }
}
