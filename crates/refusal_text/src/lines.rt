// Lines of the files, with a caret under a column.

use crate::text::Text;
use basis::NoMemory;
use memchr::memchr;
use shown_text::whole_letters;
use std::alloc::Global;
use vsrc::Place;

// How much of a line is shown before the caret, and in all; before it stand four blanks.
const BEFORE: usize = 80;

const WIDTH: usize = 116;

// How far before a column parentheses and strings are looked at: so what is told of a long line costs no more where it has more.
const LOOKED: usize = 4096;

/// The files, by their names and texts, and where the lines of each begin (`line_starts`).
#[derive(Clone, Copy)]
pub struct Files<'a> {
    pub names: &'a [&'a str],
    pub texts: &'a [Vec<u8>],
    pub starts: &'a [Vec<usize>],
}

/// The letters from this one on.
pub(crate) fn from(letters: &[u8], at: usize) -> &[u8] {
    match letters.get(at..) {
        None => &[],
        Some(behind) => behind,
    }
}

/// The first so many letters.
pub(crate) fn front(letters: &[u8], len: usize) -> &[u8] {
    match letters.get(..len) {
        None => letters,
        Some(front) => front,
    }
}

// What stands before the first line feed.
fn first_line(text: &[u8]) -> &[u8] {
    match memchr(b'\n', text) {
        None => text,
        Some(at) => &text[..at],
    }
}

// Where the lines of a text begin.
fn starts_of(alloc: Global, text: &[u8]) -> Result<Vec<usize>, NoMemory> {
    let mut starts = Vec::new(alloc);
    let mut start = 0usize;
    starts.push(start)?;
    for _ in 0..text.len() {
        let Some(at) = memchr(b'\n', from(text, start)) else {
            return Ok(starts);
        };
        start = start.saturating_add(at).saturating_add(1);
        starts.push(start)?;
    }
    Ok(starts)
}

/// Of each of these texts, where its lines begin.
pub fn line_starts(alloc: Global, texts: &[Vec<u8>]) -> Result<Vec<Vec<usize>>, NoMemory> {
    let mut all = Vec::new(alloc);
    for text in texts {
        all.push(starts_of(alloc, text)?)?;
    }
    Ok(all)
}

/// The line of this number, from 1; empty where there are fewer.
pub fn line_of(text: &[u8], number: usize) -> &[u8] {
    let mut rest = text;
    for _ in 1..number {
        match memchr(b'\n', rest) {
            None => return &[],
            Some(at) => rest = from(rest, at.saturating_add(1)),
        }
    }
    first_line(rest)
}

// The line of this number, from 1, of a text whose lines begin there.
fn line_from<'a>(text: &'a [u8], starts: &[usize], number: usize) -> &'a [u8] {
    match starts.get(number.saturating_sub(1)) {
        None => &[],
        Some(start) => first_line(from(text, *start)),
    }
}

/// How many bytes stand before the place in the text of its file.
pub(crate) fn offset_of(text: &[u8], place: Place) -> usize {
    let mut offset = 0usize;
    for _ in 1..place.line {
        match memchr(b'\n', from(text, offset)) {
            None => return text.len(),
            Some(at) => offset = offset.saturating_add(at).saturating_add(1),
        }
    }
    offset.saturating_add(place.column)
}

impl<'a> Files<'a> {
    /// The name of the file of this number, from 1; `-` of standard input.
    pub fn name(&self, file: usize) -> &'a str {
        match self.names.get(file.saturating_sub(1)) {
            None => "-",
            Some(name) => name,
        }
    }

    /// The line of the place.
    pub fn line(&self, place: Place) -> &'a [u8] {
        match self.texts.get(place.file.saturating_sub(1)) {
            None => &[],
            Some(text) => match self.starts.get(place.file.saturating_sub(1)) {
                None => &[],
                Some(starts) => line_from(text, starts, place.line),
            },
        }
    }
}

// How many letters the line has up to the semicolon, from the column on, that ends a statement: one outside of parentheses and of
// strings. All of them where there is none, or where a comment begins first.
fn statement_end(line: &[u8], column: usize) -> usize {
    let (mut open, mut is_quoted, mut before) = (0usize, false, b' ');
    for (at, letter) in line.iter().enumerate() {
        match *letter {
            b'"' if before != b'\\' => is_quoted = !is_quoted,
            _ if is_quoted => {}
            b'(' => open = open.saturating_add(1),
            b')' => open = open.saturating_sub(1),
            b'/' if before == b'/' => return line.len(),
            b';' if open == 0 && at >= column => return at.saturating_add(1),
            _ => {}
        }
        before = *letter;
    }
    line.len()
}

// What of the line is looked at, and where the column stands in that.
fn looked_at(line: &[u8], column: usize) -> (&[u8], usize) {
    let left = column.saturating_sub(LOOKED);
    let right = column.saturating_add(WIDTH).saturating_add(1);
    (from(front(line, right), left), column.saturating_sub(left))
}

/// Behind what is told the line up to the end of the statement at the column, from 0, and below it a caret under that. Of a long line
/// there is what stands round it.
pub(crate) fn put_pointed(text: &mut Text, line: &[u8], column: usize) {
    let (near, at) = looked_at(line, column);
    let near = front(near, statement_end(near, at));
    let shown = from(near, at.saturating_sub(BEFORE));
    text.put_all(&[b"\n    "]);
    text.put_letters(front(shown, whole_letters(shown, WIDTH)));
    text.put_all(&[b"\n    "]);
    text.put_steps(front(shown, at.min(BEFORE)));
    text.put_all(&[b"^\n"]);
}
