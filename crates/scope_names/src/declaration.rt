// The declarations of a dump, one after another, as they are read and as they are handed on.

use crate::paths::{Renaming, are_same};
use basis::NoMemory;
use std::alloc::Global;

// The most bytes of a declaration that is looked at; behind a longer one nothing is renamed.
const MOST: usize = 1_048_576;

/// The declaration that is being read: its bytes, the word that isn't over, how many are, and its keyword and the name of a scope.
#[derive(Drop)]
pub(crate) struct Declarations {
    alloc: Global,
    renaming: Renaming,
    path: Vec<Vec<u8>>,
    text: Vec<u8>,
    word: Vec<u8>,
    count: usize,
    keyword: Vec<u8>,
    name: Vec<u8>,
    lines: usize,
    pub is_done: bool,
}

// Puts bytes.
fn put(text: &mut Vec<u8>, bytes: &[u8]) -> Result<(), NoMemory> {
    text.extend_from_slice(bytes)?;
    Ok(())
}

// Puts declarations of scopes that open, but for the last so many.
fn put_opened(text: &mut Vec<u8>, names: &[Vec<u8>], left: usize) -> Result<(), NoMemory> {
    for name in names.iter().take(names.len().saturating_sub(left)) {
        put(text, b"$scope module ")?;
        put(text, name)?;
        put(text, b" $end ")?;
    }
    Ok(())
}

// Puts the ends of so many scopes.
fn put_closed(text: &mut Vec<u8>, count: usize) -> Result<(), NoMemory> {
    for _ in 0..count {
        put(text, b"$upscope $end ")?;
    }
    Ok(())
}

// Puts so many ends of lines.
fn put_lines(text: &mut Vec<u8>, count: usize) -> Result<(), NoMemory> {
    for _ in 0..count {
        put(text, b"\n")?;
    }
    Ok(())
}

impl Declarations {
    /// Those of a dump of which nothing is read; they are done where nothing is renamed.
    pub(crate) fn new(alloc: Global, renaming: Option<Renaming>) -> Declarations {
        let is_done = renaming.is_none();
        Declarations {
            alloc,
            renaming: renaming.unwrap_or(Renaming {
                from: Vec::new(alloc),
                to: Vec::new(alloc),
            }),
            path: Vec::new(alloc),
            text: Vec::new(alloc),
            word: Vec::new(alloc),
            count: 0,
            keyword: Vec::new(alloc),
            name: Vec::new(alloc),
            lines: 0,
            is_done,
        }
    }

    // The scope opens that is read under another path.
    fn put_open(&self, out: &mut Vec<u8>) -> Result<(), NoMemory> {
        put_closed(out, self.path.len().saturating_sub(1))?;
        put_opened(out, &self.renaming.to, 0)?;
        put_lines(out, self.lines)
    }

    // It closes.
    fn put_close(&self, out: &mut Vec<u8>) -> Result<(), NoMemory> {
        put_closed(out, self.renaming.to.len())?;
        put_opened(out, &self.renaming.from, 1)?;
        put_lines(out, self.lines)
    }

    // Whether the open scope is the one that is read under another path.
    fn is_renamed(&self) -> bool {
        are_same(&self.path, &self.renaming.from)
    }

    // A scope that opens.
    fn open(&mut self, out: &mut Vec<u8>) -> Result<(), NoMemory> {
        let name = Vec::from_slice(self.alloc, &self.name)?;
        self.path.push(name)?;
        if self.is_renamed() {
            self.put_open(out)
        } else {
            put(out, &self.text)
        }
    }

    // One that closes.
    fn close(&mut self, out: &mut Vec<u8>) -> Result<(), NoMemory> {
        let done = if self.is_renamed() {
            self.put_close(out)
        } else {
            put(out, &self.text)
        };
        let _ = self.path.pop();
        done
    }

    // The whole declaration.
    fn end(&mut self, out: &mut Vec<u8>) -> Result<(), NoMemory> {
        if self.keyword.as_slice() == b"$scope".as_slice() {
            self.open(out)?;
        } else if self.keyword.as_slice() == b"$upscope".as_slice() {
            self.close(out)?;
        } else {
            put(out, &self.text)?;
        }
        self.is_done = self.keyword.as_slice() == b"$enddefinitions".as_slice();
        self.text.clear();
        self.keyword.clear();
        self.name.clear();
        self.count = 0;
        self.lines = 0;
        Ok(())
    }

    // The word that is over.
    fn take_word(&mut self, out: &mut Vec<u8>) -> Result<(), NoMemory> {
        if self.word.is_empty() {
            return Ok(());
        }
        if self.count == 0 {
            put(&mut self.keyword, &self.word)?;
        } else if self.count == 2 {
            put(&mut self.name, &self.word)?;
        }
        let is_end = self.count > 0 && self.word.as_slice() == b"$end".as_slice();
        self.count = self.count.saturating_add(1);
        self.word.clear();
        if is_end { self.end(out) } else { Ok(()) }
    }

    // The next byte.
    fn take(&mut self, out: &mut Vec<u8>, byte: u8) -> Result<(), NoMemory> {
        self.text.push(byte)?;
        if byte > b' ' {
            self.word.push(byte)?;
        } else {
            if byte == b'\n' {
                self.lines = self.lines.saturating_add(1);
            }
            self.take_word(out)?;
        }
        if self.text.len() > MOST {
            self.finish(out)?;
        }
        Ok(())
    }

    /// The next bytes, as they are handed on.
    pub(crate) fn read(&mut self, out: &mut Vec<u8>, bytes: &[u8]) -> Result<(), NoMemory> {
        for byte in bytes {
            if self.is_done {
                out.push(*byte)?;
            } else {
                self.take(out, *byte)?;
            }
        }
        Ok(())
    }

    /// What is left is handed on as it is.
    pub(crate) fn finish(&mut self, out: &mut Vec<u8>) -> Result<(), NoMemory> {
        self.is_done = true;
        put(out, &self.text)?;
        self.text.clear();
        Ok(())
    }
}
