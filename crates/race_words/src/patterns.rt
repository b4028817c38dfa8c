// Patterns of names, in which `*` stands for any letters or none.

use crate::escapes::pieces_of_pattern;
use basis::NoMemory;
use std::alloc::Global;

/// Which letters a text has, and which two side by side, by bits of which several letters share one. It tells that a pattern can't match
/// without a look at the name.
#[derive(Clone, Copy)]
pub struct LetterSet {
    singles: u64,
    pairs: u64,
}

/// A pattern, as the texts between its stars.
#[derive(Drop)]
pub struct Pattern {
    pieces: Vec<Vec<u8>>,
    letters: LetterSet,
}

// The bit of this number, counted from the lowest, round 64.
fn bit_of(number: u64) -> u64 {
    let place = number & 63;
    if place < 64 { 1 << place } else { 0 }
}

// No letter.
const NO_LETTERS: LetterSet = LetterSet {
    singles: 0,
    pairs: 0,
};

impl LetterSet {
    /// The letters of a text.
    pub fn of(text: &[u8]) -> LetterSet {
        let (mut set, mut before) = (NO_LETTERS, None);
        for byte in text {
            set = set.with(before, *byte);
            before = Some(*byte);
        }
        set
    }

    // The letter too, behind this one.
    fn with(self, before: Option<u8>, byte: u8) -> LetterSet {
        let pair = match before {
            None => 0,
            Some(before) => bit_of(
                u64::from(before)
                    .saturating_mul(37)
                    .saturating_add(u64::from(byte)),
            ),
        };
        LetterSet {
            singles: self.singles | bit_of(u64::from(byte)),
            pairs: self.pairs | pair,
        }
    }

    // Those of both.
    fn and(self, other: LetterSet) -> LetterSet {
        LetterSet {
            singles: self.singles | other.singles,
            pairs: self.pairs | other.pairs,
        }
    }

    // Whether the other one has all of them.
    fn is_within(self, other: LetterSet) -> bool {
        self.singles & other.singles == self.singles && self.pairs & other.pairs == self.pairs
    }
}

// The letters of all pieces.
fn letters_of(pieces: &[Vec<u8>]) -> LetterSet {
    let mut set = NO_LETTERS;
    for piece in pieces {
        set = set.and(LetterSet::of(piece));
    }
    set
}

// What stands behind the first place of the piece in the text.
fn behind<'t>(text: &'t [u8], piece: &[u8]) -> Option<&'t [u8]> {
    for at in 0..=text.len() {
        match text.get(at..) {
            Some(here) if here.starts_with(piece) => {
                return here.get(piece.len()..);
            }
            _ => {}
        }
    }
    None
}

// Whether the pieces stand in the text, one behind another.
fn are_in(pieces: &[Vec<u8>], text: &[u8]) -> bool {
    let mut rest = text;
    for piece in pieces {
        match behind(rest, piece) {
            None => return false,
            Some(after) => rest = after,
        }
    }
    true
}

// What stands between the two in a name that begins with the one and ends with the other.
fn between<'t>(name: &'t [u8], first: &[u8], last: &[u8]) -> Option<&'t [u8]> {
    if !name.starts_with(first) || !name.ends_with(last) {
        return None;
    }
    name.get(first.len()..name.len().checked_sub(last.len())?)
}

// Whether the name is the pieces, with any letters or none between them.
fn is_made_of(pieces: &[Vec<u8>], name: &[u8]) -> bool {
    let Some((first, others)) = pieces.split_first() else {
        return false;
    };
    let Some((last, middle)) = others.split_last() else {
        return first.as_slice() == name;
    };
    match between(name, first, last) {
        None => false,
        Some(text) => are_in(middle, text),
    }
}

impl Pattern {
    /// The pattern that the word of a waiver is.
    pub fn new(alloc: Global, word: &[u8]) -> Result<Pattern, NoMemory> {
        let pieces = pieces_of_pattern(alloc, word)?;
        let letters = letters_of(&pieces);
        Ok(Pattern { pieces, letters })
    }

    /// The only name that it matches, where it has no star.
    pub fn only_name(&self) -> Option<&[u8]> {
        match self.pieces.split_first() {
            Some((name, others)) if others.is_empty() => Some(name),
            _ => None,
        }
    }

    /// The texts between its stars, each behind a line feed.
    pub fn key(&self, alloc: Global) -> Result<Vec<u8>, NoMemory> {
        let mut key = Vec::new(alloc);
        for piece in &self.pieces {
            key.push(b'\n')?;
            key.extend_from_slice(piece)?;
        }
        Ok(key)
    }

    /// Whether it matches the whole name, which has these letters.
    pub fn is_match(&self, name: &[u8], letters: LetterSet) -> bool {
        self.letters.is_within(letters) && is_made_of(&self.pieces, name)
    }
}
