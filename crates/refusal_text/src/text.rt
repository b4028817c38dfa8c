// What is told, as it is put together.

use crate::lines::{from, front};
use basis::NoMemory;
use shown_text::put_shown;
use std::alloc::Global;

// How many letters a line of advice has at most, and how many stand before those of each.
const ADVICE: usize = 120;

const INDENT: usize = 13;

/// What is told so far. It keeps whether a growth was refused, so that each piece is put without an answer.
#[derive(Drop)]
pub(crate) struct Text {
    alloc: Global,
    bytes: Vec<u8>,
    refused: Option<NoMemory>,
}

// Whether the byte goes on with a letter of UTF-8.
fn goes_on(byte: u8) -> bool {
    byte >= 128 && byte < 192
}

// What moves the caret as far as the byte moves the text.
fn step_of(byte: u8) -> u8 {
    if byte == b'\t' { b'\t' } else { b' ' }
}

// How many letters stand before the first blank outside of backticks: what stands in them isn't broken.
fn piece_len(letters: &[u8]) -> usize {
    let mut is_quoted = false;
    for (at, letter) in letters.iter().enumerate() {
        if *letter == b' ' && !is_quoted {
            return at;
        }
        is_quoted = is_quoted != (*letter == b'`');
    }
    letters.len()
}

impl Text {
    /// Nothing so far.
    pub(crate) fn new(alloc: Global) -> Text {
        Text {
            alloc,
            bytes: Vec::new(alloc),
            refused: None,
        }
    }

    /// Its bytes, unless a growth was refused.
    pub(crate) fn finish(self) -> Result<Vec<u8>, NoMemory> {
        match self.refused {
            None => Ok(self.bytes),
            Some(refused) => Err(refused),
        }
    }

    // This piece.
    fn put(&mut self, piece: &[u8]) {
        if let Err(refused) = self.bytes.extend_from_slice(piece) {
            self.refused = Some(NoMemory::from(refused));
        }
    }

    /// These pieces, one after another.
    pub(crate) fn put_all(&mut self, pieces: &[&[u8]]) {
        for piece in pieces {
            self.put(piece);
        }
    }

    /// The letters as a terminal may be shown them; tabs stay.
    pub(crate) fn put_letters(&mut self, letters: &[u8]) {
        if let Err(refused) = put_shown(&mut self.bytes, letters, b"\t") {
            self.refused = Some(refused);
        }
    }

    /// What moves a caret behind these letters as they are shown: a blank for each, and each tab.
    pub(crate) fn put_steps(&mut self, letters: &[u8]) {
        let mut shown = Text::new(self.alloc);
        shown.put_letters(letters);
        for byte in &shown.bytes {
            if !goes_on(*byte) {
                self.put(&[step_of(*byte)]);
            }
        }
    }

    /// What to write in place of what is refused: a line, or several where it is long.
    pub(crate) fn put_advice(&mut self, advice: &[u8]) {
        let (mut rest, mut column) = (advice, INDENT);
        self.put(b"    instead:");
        for _ in 0..advice.len() {
            let len = piece_len(rest);
            if column.saturating_add(len) > ADVICE {
                self.put(b"\n            ");
                column = INDENT;
            }
            self.put_all(&[b" ", front(rest, len)]);
            column = column.saturating_add(len).saturating_add(1);
            rest = from(rest, len.saturating_add(1));
            if rest.is_empty() {
                break;
            }
        }
        self.put(b"\n");
    }
}
