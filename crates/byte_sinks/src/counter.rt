// How long a text is, where nobody keeps it.

ghost use Rattle.std.specs.Prelude.{◌≡◌};

use crate::byte_sink::ByteSink;
use crate::fault::TooMany;

/// Counts the bytes of texts and keeps none.
#[derive(Drop)]
pub struct Counter {
    count: u64,
}

impl Counter {
    /// Counts from 0.
    pub fn new() -> Counter
        ensures { result.count ≡ 0 }
    {
        Counter { count: 0 }
    }

    /// How many bytes have come.
    pub fn count(&self) -> u64
        ensures { result ≡ self.now.count }
    {
        self.count
    }
}

impl ByteSink for Counter {
    ghost use Rattle.byte_sinks.specs.Counts.{Counts, IsFull, counter_laws};

    type Fault = TooMany;

    ghost takes = { Counts };

    ghost fails = { IsFull };

    fn put(&mut self, text: &[u8]) -> Result<(), TooMany> {
        match self.count.checked_add(text.len() as u64) {
            Some(count) => {
                self.count = count;
                Ok(())
            }
            None => Err(TooMany),
        }
    }

    ghost lawful = { counter_laws };
}
