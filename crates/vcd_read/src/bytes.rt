// Bytes from a reader, one by one.

ghost use Rattle.std.specs.Prelude.{◌≡◌, ◌+◌, ◌≤◌, ◌∷◌, [], IfOk, IfErr, IfSome, IfNone};
ghost use Rattle.std.specs.Io.KnownBytes.{Consumes, IsAtEnd};
ghost use Rattle.byte_sinks.specs.Metered.{one_more};
ghost use Rattle.vcd_read.specs.Bytes.{left, IsReady};

use crate::fault::VcdFault;
use basis::NoMemory;
use byte_sinks::Metered;
use std::alloc::Global;
use std::io::Read;

// How many bytes are asked for at once.
const PIECE: usize = 65_536;

/// A reader, the bytes that came from it at last, which of them weren't taken, and how many more there may be: a text that never ends is
/// refused.
#[derive(Drop)]
pub(crate) struct ByteReader<R> {
    reader: Metered<R>,
    piece: Vec<u8>,
    at: usize,
    end: usize,
    budget: u64,
}

impl<R: Read + Drop> ByteReader<R> {
    /// All bytes of the reader are to come.
    pub(crate) fn new(alloc: Global, reader: Metered<R>) -> Result<ByteReader<R>, NoMemory>
        ensures ready { IfOk result (λ b. IsReady b) }
        ensures left { IfOk result (λ b. left R.remaining b ≡ R.remaining reader.inner) }
        ensures failures { IfOk result (λ b. b.reader.failures ≡ reader.failures) }
    {
        let mut piece = Vec::new(alloc);
        piece.resize(PIECE, 0)?;
        Ok(ByteReader {
            reader,
            piece,
            at: 0,
            end: 0,
            budget: u64::MAX,
        })
    }

    /// The next byte; none at the end.
    pub(crate) fn next(&mut self) -> Result<Option<u8>, VcdFault>
        requires { IsReady self.old }
        ensures ready { IsReady self.new }
        ensures byte { IfOk result (λ answer. IfSome answer (λ c.
            Consumes (left R.remaining self.old) (left R.remaining self.new) (c ∷ []))) }
        ensures spent { IfOk result (λ _. self.new.budget ≤ self.old.budget) }
        ensures budget { IfOk result (λ answer. IfSome answer (λ _. self.new.budget + 1 ≡ self.old.budget)) }
        ensures end { IfOk result (λ answer. IfNone answer (
            IsAtEnd (left R.remaining self.old) × Consumes (left R.remaining self.old) (left R.remaining self.new) [])) }
    {
        if self.budget == 0 {
            return Err(VcdFault::TooLong);
        }
        if self.at == self.end {
            self.at = 0;
            self.end = 0;
            match self.reader.read(&mut self.piece) {
                Err(_) => return Err(VcdFault::Read),
                Ok(0) => return Ok(None),
                Ok(count) => self.end = count,
            }
        }
        let byte = self.piece[self.at];
        self.at += 1;
        self.budget -= 1;
        Ok(Some(byte))
    }
}
