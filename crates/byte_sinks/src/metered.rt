// Readers and writers whose failures are counted.

ghost use Rattle.std.specs.Prelude.{◌≡◌, is_err};
ghost use Rattle.std.specs.Io.{ReadsAtMost, WritesAtMost};
ghost use Rattle.std.specs.Io.KnownBytes.{Keeps};
ghost use Rattle.byte_sinks.specs.Metered.{Reads, Writes, count_after_call, is_failed_write, one_more};

use crate::byte_sink::ByteSink;
use crate::fault::WriteFault;
use std::io;
use std::io::{Read, Write};

/// A reader or writer, the count of its failures, and that of its reads. A failure is each error, and each `write` that takes no byte of a
/// piece that isn't empty. Both counts go from 2^64 - 1 to 0. A count of failures that differs after a call shows that it failed in it.
#[derive(Drop)]
pub struct Metered<T> {
    inner: T,
    failures: u64,
    reads: u64,
}

impl<T> Metered<T> {
    /// Counts from 0. It takes no memory.
    pub fn new(inner: T) -> Metered<T>
        ensures inner { result.inner ≡ inner }
        ensures failures { result.failures ≡ 0 }
        ensures reads { result.reads ≡ 0 }
    {
        Metered {
            inner,
            failures: 0,
            reads: 0,
        }
    }

    /// How often it has failed, modulo 2^64.
    pub fn failures(&self) -> u64
        ensures { result ≡ self.now.failures }
    {
        self.failures
    }

    /// How often it was read from, modulo 2^64.
    pub fn reads(&self) -> u64
        ensures { result ≡ self.now.reads }
    {
        self.reads
    }

    /// The reader or writer itself.
    pub fn into_inner(self) -> T
        ensures { result ≡ self.inner }
    {
        let Metered {
            inner,
            failures: _,
            reads: _,
        } = self;
        inner
    }
}

// The count after a call that failed or not.
fn count(failures: u64, has_failed: bool) -> u64
    ensures { result ≡ count_after_call has_failed failures }
{
    if has_failed {
        failures.wrapping_add(1)
    } else {
        failures
    }
}

impl<R: Read> Read for Metered<R> {
    ghost remaining = { λ m. R.remaining m.inner };

    fn read(&mut self, buf: &mut [u8]) -> io::Result<usize>
        ensures bound { ReadsAtMost result buf.new }
        ensures bytes { Reads R.remaining self.old result buf.new self.new }
        ensures failures { self.new.failures ≡ count_after_call (is_err result) self.old.failures }
        ensures reads { self.new.reads ≡ one_more self.old.reads }
    {
        self.reads = self.reads.wrapping_add(1);
        let answer = self.inner.read(buf);
        self.failures = count(self.failures, answer.is_err());
        answer
    }
}

// Whether a write failed.
fn has_failed(answer: &io::Result<usize>, piece: &[u8]) -> bool
    ensures { result ≡ is_failed_write answer.now piece.now }
{
    match answer {
        Ok(taken) => *taken == 0 && !piece.is_empty(),
        Err(_) => true,
    }
}

impl<W: Write> Write for Metered<W> {
    ghost contents = { λ m. W.contents m.inner };

    fn write(&mut self, buf: &[u8]) -> io::Result<usize>
        ensures bound { WritesAtMost result buf.now }
        ensures bytes { Writes W.contents self.old result buf.now self.new }
        ensures failures { self.new.failures
            ≡ count_after_call (is_failed_write result buf.now) self.old.failures }
    {
        let answer = self.inner.write(buf);
        self.failures = count(self.failures, has_failed(&answer, buf));
        answer
    }

    fn flush(&mut self) -> io::Result<()>
        ensures bytes { Keeps (W.contents self.old.inner) (W.contents self.new.inner) }
        ensures failures { self.new.failures ≡ count_after_call (is_err result) self.old.failures }
    {
        let answer = self.inner.flush();
        self.failures = count(self.failures, answer.is_err());
        answer
    }
}

impl<W: Write> ByteSink for Metered<W> {
    ghost use Rattle.byte_sinks.specs.Metered.{Written, Broken};
    ghost use Rattle.byte_sinks.specs.MeteredLaws.{metered_laws};

    type Fault = WriteFault;

    ghost takes = { Written W.contents };

    ghost fails = { Broken W.contents };

    // Writes the whole text. The first failure ends it.
    fn put(&mut self, text: &[u8]) -> Result<(), WriteFault> {
        let mut rest = text;
        while !rest.is_empty() {
            match self.write(rest) {
                Ok(taken) => {
                    if taken == 0 {
                        return Err(WriteFault::Write);
                    }
                    rest = rest.split_at(taken).1;
                }
                Err(_) => return Err(WriteFault::Write),
            }
        }
        Ok(())
    }

    ghost lawful = { metered_laws W.contents };
}
