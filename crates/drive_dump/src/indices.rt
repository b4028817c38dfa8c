// The numbers of bits in the declarations of a dump, as 3 of `$var wire 1 ! a [3] $end`: which bit of a bus a variable is.

use basis::{NoMemory, digits_len, number_in};
use byte_sinks::Metered;
use std::alloc::Global;
use std::fs::File;
use std::io::Read;
use vcd_read::is_same;

// The most bytes of one read.
const PIECE: usize = 65_536;

// Where in the declarations the words stand.
#[derive(Clone, Copy, PartialEq, Eq)]
enum State {
    // A keyword comes next.
    Between,
    // In a variable, behind so many words.
    Variable(u32),
    // In a declaration of something else, up to its end.
    Other,
    // The declarations are over.
    Done,
}

/// The number of each variable that is one bit of a bus, in the order of the declarations.
#[derive(Drop)]
pub struct Indices {
    list: Vec<Option<u64>>,
    word: Vec<u8>,
    index: Option<u64>,
    state: State,
}

// What stands behind the last bracket that opens.
fn behind_bracket(word: &[u8]) -> Option<&[u8]> {
    let mut found: Option<&[u8]> = None;
    for (at, byte) in word.iter().enumerate() {
        if *byte == b'[' {
            found = Some(word.split_at(at).1);
        }
    }
    found
}

// The number in the brackets at the end of a word.
fn index_in(word: &[u8]) -> Option<u64> {
    let (_, behind) = behind_bracket(word)?.split_first()?;
    let (digits, rest) = behind.split_at(digits_len(behind));
    if rest == b"]".as_slice() {
        number_in(digits)
    } else {
        None
    }
}

impl Indices {
    // None yet.
    fn none(alloc: Global) -> Indices {
        Indices {
            list: Vec::new(alloc),
            word: Vec::new(alloc),
            index: None,
            state: State::Between,
        }
    }

    // What a keyword begins.
    fn begin(&mut self) {
        self.index = None;
        self.state = if is_same(&self.word, b"$var") {
            State::Variable(0)
        } else if is_same(&self.word, b"$enddefinitions") {
            State::Done
        } else {
            State::Other
        };
    }

    // A word of a variable, behind so many: its kind, size, code and name, and then perhaps a range.
    fn go_on(&mut self, count: u32) -> Result<(), NoMemory> {
        if is_same(&self.word, b"$end") {
            self.list.push(self.index)?;
            self.state = State::Between;
            return Ok(());
        }
        if count >= 3 && self.index.is_none() {
            self.index = index_in(&self.word);
        }
        self.state = State::Variable(count.saturating_add(1));
        Ok(())
    }

    // The word that is over.
    fn take(&mut self) -> Result<(), NoMemory> {
        if self.word.is_empty() {
            return Ok(());
        }
        match self.state {
            State::Between => self.begin(),
            State::Variable(count) => self.go_on(count)?,
            State::Other if is_same(&self.word, b"$end") => self.state = State::Between,
            State::Other => {}
            State::Done => {}
        }
        self.word.clear();
        Ok(())
    }

    // The next bytes; a word has no more than are read at once.
    fn read(&mut self, bytes: &[u8]) -> Result<(), NoMemory> {
        for byte in bytes {
            if *byte <= b' ' {
                self.take()?;
            } else if self.word.len() < PIECE {
                self.word.push(*byte)?;
            }
        }
        Ok(())
    }

    /// Those of a dump, as far as it can be read: it was read once already.
    pub fn of(alloc: Global, reader: &mut Metered<File>) -> Result<Indices, NoMemory> {
        let mut indices = Indices::none(alloc);
        let mut piece = [0; PIECE];
        for _ in 0..u64::MAX {
            match reader.read(&mut piece) {
                Ok(count) if count > 0 && indices.state != State::Done => {
                    indices.read(piece.split_at(count.min(PIECE)).0)?;
                }
                _ => return Ok(indices),
            }
        }
        Ok(indices)
    }

    /// The number of the variable at this place.
    pub fn at(&self, place: usize) -> Option<u64> {
        self.list.get(place).copied().unwrap_or(None)
    }
}
