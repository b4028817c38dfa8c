// Waivers: which causes are known, and why they may stay (docs/CI.md, "Waivers").

use crate::escapes::{split_at_place, word_of};
use basis::{NoMemory, digits_len, number_in};
use memchr::memchr_iter;
use std::alloc::Global;

/// A line of a file, as a waiver names it: the file by a word, in which backslashes may stand.
#[derive(Clone, Copy)]
pub struct LinePlace<'w> {
    pub file: &'w [u8],
    pub line: u64,
}

/// Where a run ends, as a waiver names it: by what, at which time, in which unit, which is empty where none is written.
#[derive(Clone, Copy)]
pub struct EndPlace<'w> {
    pub cause: &'w [u8],
    pub time: u64,
    pub unit: &'w [u8],
}

/// Two ends of runs of a top module, which is named by a word.
#[derive(Clone, Copy)]
pub struct EndPlaces<'w> {
    pub top: &'w [u8],
    pub one: EndPlace<'w>,
    pub other: EndPlace<'w>,
}

/// What a waiver is of: a cause by the lines of its two statements, or causes by the variables that differ, which a word names as a pattern, or
/// two ends of runs.
#[derive(Clone, Copy)]
pub enum WaiverScope<'w> {
    Lines(LinePlace<'w>, LinePlace<'w>),
    Variables(&'w [u8]),
    Ends(EndPlaces<'w>),
}

/// A waiver: its line in its file, from 1, what it is of, its reason, and its whole text.
#[derive(Clone, Copy)]
pub struct Waiver<'w> {
    pub line: u64,
    pub scope: WaiverScope<'w>,
    pub reason: &'w [u8],
    pub text: &'w [u8],
}

/// Why a file of waivers can't be read: a line of it is none, or memory was refused.
#[derive(Clone, Copy)]
pub enum WaiverFault {
    Line(u64),
    Memory(NoMemory),
}

impl From<NoMemory> for WaiverFault {
    fn from(refused: NoMemory) -> WaiverFault {
        WaiverFault::Memory(refused)
    }
}

// Where the last colon stands.
fn colon_in(word: &[u8]) -> Option<usize> {
    let mut found = None;
    for (place, byte) in word.iter().enumerate() {
        if *byte == b':' {
            found = Some(place);
        }
    }
    found
}

// What follows zeros at the front.
fn without_zeros(digits: &[u8]) -> &[u8] {
    for (place, digit) in digits.iter().enumerate() {
        if *digit != b'0' {
            return split_at_place(digits, place).1;
        }
    }
    &[]
}

// The number of these digits, which may begin with zeros.
fn number_of(digits: &[u8]) -> Option<u64> {
    let plain = without_zeros(digits);
    if plain.is_empty() && !digits.is_empty() {
        return Some(0);
    }
    number_in(plain)
}

// `FILE:LINE`, the line from 1.
fn line_place_of(word: &[u8]) -> Option<LinePlace<'_>> {
    let (file, rest) = split_at_place(word, colon_in(word)?);
    let (_, digits) = rest.split_first()?;
    match number_of(digits) {
        Some(line) if line > 0 && !file.is_empty() && !file.starts_with(b"#") => {
            Some(LinePlace { file, line })
        }
        _ => None,
    }
}

// Whether the word is one of these, which stand between blanks.
fn is_one_of(word: &[u8], words: &[&[u8]]) -> bool {
    for other in words {
        if word == *other {
            return true;
        }
    }
    false
}

// Whether a run may end by it.
fn is_cause(word: &[u8]) -> bool {
    is_one_of(word, &[b"finish", b"stop", b"quiet", b"limit"])
}

// Whether it is a unit of time, or none.
fn is_unit(word: &[u8]) -> bool {
    is_one_of(word, &[b"", b"s", b"ms", b"us", b"ns", b"ps", b"fs"])
}

// `CAUSE:TIME`.
fn end_place_of(word: &[u8]) -> Option<EndPlace<'_>> {
    let (cause, rest) = split_at_place(word, colon_in(word)?);
    let (_, rest) = rest.split_first()?;
    let (digits, unit) = split_at_place(rest, digits_len(rest));
    let time = number_of(digits)?;
    if is_cause(cause) && is_unit(unit) {
        Some(EndPlace { cause, time, unit })
    } else {
        None
    }
}

// What a waiver is of, and what stands behind that.
#[derive(Clone, Copy)]
struct Scoped<'w> {
    scope: WaiverScope<'w>,
    rest: &'w [u8],
}

// `TOP CAUSE:TIME CAUSE:TIME`.
fn ends_in(text: &[u8]) -> Option<Scoped<'_>> {
    let (top, rest) = word_of(text);
    let (one, rest) = word_of(rest);
    let (other, rest) = word_of(rest);
    if top.is_empty() || top.starts_with(b"#") {
        return None;
    }
    let places = EndPlaces {
        top,
        one: end_place_of(one)?,
        other: end_place_of(other)?,
    };
    Some(Scoped {
        scope: WaiverScope::Ends(places),
        rest,
    })
}

// `PATTERN`.
fn variables_in(text: &[u8]) -> Option<Scoped<'_>> {
    let (pattern, rest) = word_of(text);
    if pattern.is_empty() || pattern.starts_with(b"#") {
        return None;
    }
    Some(Scoped {
        scope: WaiverScope::Variables(pattern),
        rest,
    })
}

// `FILE:LINE FILE:LINE`, of which the first was read.
fn lines_in<'w>(first: &'w [u8], text: &'w [u8]) -> Option<Scoped<'w>> {
    let (second, rest) = word_of(text);
    Some(Scoped {
        scope: WaiverScope::Lines(line_place_of(first)?, line_place_of(second)?),
        rest,
    })
}

// What the line is of.
fn scope_in(text: &[u8]) -> Option<Scoped<'_>> {
    let (first, rest) = word_of(text);
    if first == b"variable".as_slice() {
        return variables_in(rest);
    }
    if first == b"ends".as_slice() {
        return ends_in(rest);
    }
    lines_in(first, rest)
}

// The waiver that the line of this number is.
fn waiver_of(text: &[u8], line: u64) -> Option<Waiver<'_>> {
    let scoped = scope_in(text)?;
    let (mark, reason) = scoped.rest.trim_ascii().split_first()?;
    let reason = reason.trim_ascii();
    if *mark != b'#' || reason.is_empty() {
        return None;
    }
    Some(Waiver {
        line,
        scope: scoped.scope,
        reason,
        text,
    })
}

// What stands between these places, without blanks at its ends.
fn line_between(text: &[u8], begin: usize, end: usize) -> &[u8] {
    match text.get(begin..end) {
        None => &[],
        Some(line) => line.trim_ascii(),
    }
}

// The lines of the text.
fn lines_of(alloc: Global, text: &[u8]) -> Result<Vec<&[u8]>, NoMemory> {
    let mut lines = Vec::new(alloc);
    let mut begin = 0;
    for feed in memchr_iter(b'\n', text) {
        lines.push(line_between(text, begin, feed))?;
        begin = feed.saturating_add(1);
    }
    lines.push(line_between(text, begin, text.len()))?;
    Ok(lines)
}

// Whether nothing is to be read in the line.
fn is_passed_over(line: &[u8]) -> bool {
    line.is_empty() || line.starts_with(b"#")
}

/// The waivers of a file's text, in the order of its lines; or the first line that is none. Blank lines, and lines that begin with `#`,
/// are passed over.
pub fn read_waivers(alloc: Global, text: &[u8]) -> Result<Vec<Waiver<'_>>, WaiverFault> {
    let mut waivers = Vec::new(alloc);
    for (place, line) in lines_of(alloc, text)?.into_iter().enumerate() {
        if is_passed_over(line) {
            continue;
        }
        let number = (place as u64).saturating_add(1);
        match waiver_of(line, number) {
            None => return Err(WaiverFault::Line(number)),
            Some(waiver) => push(&mut waivers, waiver)?,
        }
    }
    Ok(waivers)
}

// One waiver more.
fn push<'w>(waivers: &mut Vec<Waiver<'w>>, waiver: Waiver<'w>) -> Result<(), NoMemory> {
    waivers.push(waiver)?;
    Ok(())
}
