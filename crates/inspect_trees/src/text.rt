// Texts that are being made.

use basis::{NoMemory, Span};
use itoa::Buffer;
use std::alloc::Global;
use vsrc::Place;

/// A text that is being made. It keeps whether a growth was refused, so that each piece is put without an answer.
#[derive(Drop)]
pub struct Text {
    bytes: Vec<u8>,
    refused: Option<NoMemory>,
}

impl Text {
    /// An empty text.
    pub fn new(alloc: Global) -> Text {
        Text {
            bytes: Vec::new(alloc),
            refused: None,
        }
    }

    /// Its bytes, unless a growth was refused.
    pub fn finish(self) -> Result<Vec<u8>, NoMemory> {
        match self.refused {
            None => Ok(self.bytes),
            Some(refused) => Err(refused),
        }
    }

    /// Puts these bytes.
    pub fn put(&mut self, bytes: &[u8]) {
        if let Err(refused) = self.bytes.extend_from_slice(bytes) {
            self.refused = Some(NoMemory::from(refused));
        }
    }

    /// Puts these pieces, one behind the other.
    pub fn put_all(&mut self, pieces: &[&[u8]]) {
        for piece in pieces {
            self.put(piece);
        }
    }

    /// Puts a number behind these bytes.
    pub fn put_number(&mut self, before: &[u8], number: u64) {
        self.put_all(&[before, Buffer::new().format(number).as_bytes()]);
    }

    /// Puts a place as `FILE:LINE:COLUMN`, and a letter behind it.
    pub fn put_place(&mut self, place: Place, after: &[u8]) {
        self.put_number(b"", place.file as u64);
        self.put_number(b":", place.line as u64);
        self.put_number(b":", place.column as u64);
        self.put(after);
    }

    /// Puts a length of time behind these bytes, as `100 ns`.
    pub fn put_span(&mut self, before: &[u8], span: Span) {
        self.put_number(before, u64::from(span.count.number()));
        self.put_all(&[b" ", span.unit.name().as_bytes()]);
    }
}
