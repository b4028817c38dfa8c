// Where statements stand in the files, and what their lines say.

use memchr::memchr;
use vsrc::Place;

/// The files, by their names and texts, and for each action of the design where its statement begins, if that is known.
#[derive(Clone, Copy)]
pub struct Sources<'a> {
    pub names: &'a [&'a str],
    pub texts: &'a [Vec<u8>],
    pub places: &'a [Option<Place>],
}

// What stands before the first line feed.
fn first_line(text: &[u8]) -> &[u8] {
    match memchr(b'\n', text) {
        None => text,
        Some(at) => &text[..at],
    }
}

// The line of this number, from 1.
fn line_of(text: &[u8], number: usize) -> &[u8] {
    let mut rest = text;
    for _ in 1..number {
        match memchr(b'\n', rest) {
            None => return &[],
            Some(at) => match rest.get(at.saturating_add(1)..) {
                None => return &[],
                Some(after) => rest = after,
            },
        }
    }
    first_line(rest)
}

impl<'a> Sources<'a> {
    /// Where the statement of the action begins, if it is known.
    pub fn place(&self, action: usize) -> Option<Place> {
        self.places.get(action).copied().flatten()
    }

    /// The name of the file of this number, from 1; `-` of standard input.
    pub fn name(&self, file: usize) -> &'a str {
        match self.names.get(file.saturating_sub(1)) {
            None => "-",
            Some(name) => name,
        }
    }

    // The line of the place.
    fn line(&self, place: Place) -> &'a [u8] {
        match self.texts.get(place.file.saturating_sub(1)) {
            None => &[],
            Some(text) => line_of(text, place.line),
        }
    }

    /// The source from the place to the end of its line.
    pub fn source(&self, place: Place) -> &'a [u8] {
        match self.line(place).get(place.column..) {
            None => &[],
            Some(source) => source,
        }
    }

    /// What stands before the place in its line.
    pub fn before(&self, place: Place) -> &'a [u8] {
        match self.line(place).get(..place.column) {
            None => &[],
            Some(source) => source,
        }
    }
}
