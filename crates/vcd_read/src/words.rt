// Words from a reader, one by one.

ghost use Rattle.std.specs.Prelude.{◌≡◌, ◌<◌, ◌++◌, ◌∷◌, [], List, true, false, IfOk};
ghost use Rattle.vcd_read.specs.Words.{Text};
ghost use Rattle.vcd_read.specs.Bytes.{left, Come, IsReady, IsNextWord, NoneIsLeft};
ghost use Rattle.vcd_read.specs.Declarations.{end_word, IsNoEnd, HaveNoEnd};
ghost use Rattle.vcd_read.specs.Faults.{IsNoDump};

use crate::bytes::ByteReader;
use crate::fault::{VcdFault, VcdFlaw};
use basis::OrMemory;
use std::alloc::Global;
use std::io::Read;
use std::mem;

// How long a word may be.
const MOST: usize = 65_536;

/// The bytes of a dump, the last word and the number of its line, from 1, and that of the line of the next byte.
#[derive(Drop)]
pub(crate) struct WordReader<R> {
    bytes: ByteReader<R>,
    word: Vec<u8>,
    line: u64,
    next_line: u64,
}

impl<R: Read + Drop> WordReader<R> {
    /// That of all bytes.
    pub(crate) fn new(alloc: Global, bytes: ByteReader<R>) -> WordReader<R>
        ensures { result.bytes ≡ bytes }
    {
        WordReader {
            bytes,
            word: Vec::new(alloc),
            line: 1,
            next_line: 1,
        }
    }

    /// The last word.
    pub(crate) fn word(&self) -> &[u8]
        ensures { result.now ≡ self.now.word.items }
    {
        &self.word
    }

    /// The text is no dump, for this reason, as the last word shows.
    pub(crate) fn no_dump(&self, flaw: VcdFlaw) -> OrMemory<VcdFault>
        ensures { IsNoDump flaw result }
    {
        OrMemory::Fault(VcdFault::NoDump {
            line: self.line,
            flaw,
        })
    }

    /// The next word; false at the end.
    pub(crate) fn next(&mut self) -> Result<bool, OrMemory<VcdFault>>
        requires { IsReady self.old.bytes }
        ensures ready { IsReady self.new.bytes }
        ensures word { IfOk result (λ some. some ≡ true →
            IsNextWord self.new.word.items (left R.remaining self.old.bytes) (left R.remaining self.new.bytes)) }
        ensures budget { IfOk result (λ some. some ≡ true → self.new.bytes.budget < self.old.bytes.budget) }
        ensures end { IfOk result (λ some. some ≡ false →
            NoneIsLeft (left R.remaining self.old.bytes) (left R.remaining self.new.bytes)) }
    {
        self.word.clear();
        'bytes: loop {
            let Some(byte) = self.bytes.next().map_err(OrMemory::Fault)? else {
                return Ok(!self.word.is_empty());
            };
            if byte == b'\n' {
                self.next_line = self.next_line.saturating_add(1);
            }
            if !byte.is_ascii_whitespace() {
                if self.word.len() >= MOST {
                    return Err(self.no_dump(VcdFlaw::Limit));
                }
                self.line = self.next_line;
                self.word.push(byte)?;
            } else if !self.word.is_empty() {
                return Ok(true);
            }
        }
    }

    /// The next word, which there must be.
    pub(crate) fn must(&mut self) -> Result<(), OrMemory<VcdFault>>
        requires { IsReady self.old.bytes }
        ensures ready { IsReady self.new.bytes }
        ensures word { IfOk result (λ _.
            IsNextWord self.new.word.items (left R.remaining self.old.bytes) (left R.remaining self.new.bytes)) }
        ensures budget { IfOk result (λ _. self.new.bytes.budget < self.old.bytes.budget) }
    {
        if self.next()? {
            Ok(())
        } else {
            Err(self.no_dump(VcdFlaw::Ends))
        }
    }

    /// The next word, which must be this one.
    pub(crate) fn expect(&mut self, word: &[u8]) -> Result<(), OrMemory<VcdFault>>
        requires { IsReady self.old.bytes }
        ensures ready { IsReady self.new.bytes }
        ensures word { IfOk result (λ _. IsNextWord word.now (left R.remaining self.old.bytes) (left R.remaining self.new.bytes)) }
        ensures budget { IfOk result (λ _. self.new.bytes.budget < self.old.bytes.budget) }
    {
        self.must()?;
        if self.word.as_slice() == word {
            Ok(())
        } else {
            Err(self.no_dump(VcdFlaw::Word))
        }
    }

    /// The last word, to keep.
    pub(crate) fn take_word(&mut self, alloc: Global) -> Vec<u8>
        ensures word { result.items ≡ self.old.word.items }
        ensures bytes { self.new.bytes ≡ self.old.bytes }
    {
        mem::replace(&mut self.word, Vec::new(alloc))
    }

    /// The next word, which there must be, to keep.
    pub(crate) fn take(&mut self, alloc: Global) -> Result<Vec<u8>, OrMemory<VcdFault>>
        requires { IsReady self.old.bytes }
        ensures ready { IsReady self.new.bytes }
        ensures word { IfOk result (λ word. IsNextWord word.items (left R.remaining self.old.bytes) (left R.remaining self.new.bytes)) }
        ensures budget { IfOk result (λ _. self.new.bytes.budget < self.old.bytes.budget) }
    {
        self.must()?;
        Ok(self.take_word(alloc))
    }

    // Whether the last word is the end of a declaration or of a command.
    fn is_end(&self) -> bool
        ensures yes { result ≡ true → self.now.word.items ≡ end_word }
        ensures no { result ≡ false → IsNoEnd self.now.word.items }
    {
        self.word.as_slice() == b"$end".as_slice()
    }

    /// The next word, which there must be, and which isn't `$end`, to keep.
    pub(crate) fn take_inner(&mut self, alloc: Global) -> Result<Vec<u8>, OrMemory<VcdFault>>
        requires { IsReady self.old.bytes }
        ensures ready { IsReady self.new.bytes }
        ensures word { IfOk result (λ word. IsNextWord word.items (left R.remaining self.old.bytes) (left R.remaining self.new.bytes)) }
        ensures inner { IfOk result (λ word. IsNoEnd word.items) }
        ensures budget { IfOk result (λ _. self.new.bytes.budget < self.old.bytes.budget) }
    {
        self.must()?;
        if self.is_end() {
            return Err(self.no_dump(VcdFlaw::Word));
        }
        Ok(self.take_word(alloc))
    }

    /// The words up to the next `$end`, with it.
    pub(crate) fn pass(&mut self) -> Result<(), OrMemory<VcdFault>>
        requires { IsReady self.old.bytes }
        ensures ready { IsReady self.new.bytes }
        ensures words { IfOk result (λ _. (words : List Text) × HaveNoEnd words ×
            Come (words ++ end_word ∷ []) (left R.remaining self.old.bytes) (left R.remaining self.new.bytes)) }
        ensures budget { IfOk result (λ _. self.new.bytes.budget < self.old.bytes.budget) }
    {
        'words: loop {
            self.must()?;
            if self.is_end() {
                return Ok(());
            }
        }
    }
}
