// A whole text from a reader.

ghost use Rattle.std.specs.Prelude.{◌≡◌, ◌≤◌, ◌<◌, ℕ, List, ◌++◌, Option, IfOk, IfErr, length};
ghost use Rattle.std.specs.Io.KnownBytes.{Consumes};
ghost use Rattle.vrace.specs.Replays.{limit};
ghost use Rattle.vrace.specs.Reads.{HasRead, IsAllOf, IsReadReason, IsTaken, most};
ghost use Rattle.byte_sinks.specs.Metered.{one_more};

use crate::fault::Fault;
use basis::NoMemory;
use byte_sinks::Metered;
use std::alloc::Global;
use std::io::Read;

/// The most bytes that a text may have.
pub const LIMIT: usize = 16_777_216;

// The most bytes of one read.
const PIECE: usize = 65_536;

// One read, put at the end of the text. The answer is how many bytes came.
fn read_more<R: Read>(
    reader: &mut Metered<R>,
    piece: &mut [u8],
    text: &mut Vec<u8>,
) -> Result<usize, Fault>
    requires some { 0 < length piece.old }
    requires few { length piece.old ≤ most }
    ensures same { length piece.new ≡ length piece.old }
    ensures reads { reader.new.reads ≡ one_more reader.old.reads }
    ensures ok { IfOk result (λ count. (bytes : List ℕ) ×
        IsTaken (R.remaining reader.old.inner) (R.remaining reader.new.inner) reader.old.failures
        reader.new.failures bytes × (length bytes ≡ count) ×
        (text.new.items ≡ text.old.items ++ bytes)) }
    ensures few { IfOk result (λ count. count ≤ most) }
    ensures err { (first : Option (List ℕ)) (front : List ℕ) →
        Consumes first (R.remaining reader.old.inner) front → length front ≤ limit →
        IfErr result (λ fault.
        IsReadReason first (R.remaining reader.new.inner) reader.old.failures reader.new.failures
        fault) }
{
    let Ok(count) = reader.read(piece) else {
        return Err(Fault::Read);
    };
    match text.extend_from_slice(piece.split_at(count).0) {
        Ok(()) => Ok(count),
        Err(refused) => Err(Fault::Memory(NoMemory::from(refused))),
    }
}

/// All bytes of a reader, at most 16,777,216: E904 where there are more, also of a reader that never ends; E903 only where
/// the reader failed; E901 only where a growth was refused. A refused reader stands where the reading stopped, at most
/// 65,536 bytes past the limit, after at most 16,777,217 reads.
pub fn read_text<R: Read>(alloc: Global, reader: &mut Metered<R>) -> Result<Vec<u8>, Fault>
    ensures all { IfOk result (λ text.
        IsAllOf (R.remaining reader.old.inner) (R.remaining reader.new.inner) text.items) }
    ensures reads { HasRead reader.old.reads reader.new.reads }
    ensures unfailed { IfOk result (λ _. reader.new.failures ≡ reader.old.failures) }
    ensures reason { IfErr result (λ fault.
        IsReadReason (R.remaining reader.old.inner) (R.remaining reader.new.inner)
        reader.old.failures reader.new.failures fault) }
{
    let mut text = Vec::new(alloc);
    let mut piece = [0; PIECE];
    'reads: loop {
        let count = read_more(reader, &mut piece, &mut text)?;
        if count == 0 {
            return Ok(text);
        }
        if text.len() > LIMIT {
            return Err(Fault::TooLong);
        }
    }
}
