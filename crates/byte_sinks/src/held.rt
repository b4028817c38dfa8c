// A text that is held while it is short.

ghost use Rattle.std.specs.Prelude.{◌≡◌, []};

use crate::byte_sink::ByteSink;
use crate::fault::Full;
use std::alloc::Global;
use std::marker::Model;

/// So many bytes of a text that can be made again are held, and as many more where a slot adds them.
pub const HELD_BYTES: usize = 1_048_576;

/// Holds texts, one after another. Its value is what it holds. It is full when that no longer fits into the room that it was given, but it
/// takes as much as `HELD_BYTES` more, so that whoever looks at it between two slots finds whole ones in it. Past that, and where memory is
/// refused, a text fails as `Full`: the caller can make all of it again, slot by slot.
#[derive(Drop)]
pub struct HeldText {
    text: Vec<u8>,
    room: usize,
}

impl Model for HeldText {
    ghost use Rattle.std.specs.Prelude.{ℕ, List};

    ghost Value = { List ℕ };

    ghost view = { λ held. held.text.items };
}

impl HeldText {
    /// Holds nothing yet, and has room for so many bytes.
    pub fn new(alloc: Global, room: usize) -> HeldText
        ensures { result ≡ [] }
    {
        HeldText {
            text: Vec::new(alloc),
            room,
        }
    }

    /// All that it took.
    pub fn text(&self) -> &[u8]
        ensures { result.now ≡ self.now }
    {
        &self.text
    }
}

impl ByteSink for HeldText {
    ghost use Rattle.std.specs.Prelude.{⊤};
    ghost use Rattle.byte_sinks.specs.Held.{Appended, held_laws};

    type Fault = Full;

    ghost takes = { Appended };

    ghost fails = { λ _ _ _ _. ⊤ };

    fn put(&mut self, text: &[u8]) -> Result<(), Full> {
        let most = self.room.saturating_add(HELD_BYTES);
        if text.len() > most.saturating_sub(self.text.len()) {
            return Err(Full);
        }
        match self.text.extend_from_slice(text) {
            Ok(()) => Ok(()),
            Err(_) => Err(Full),
        }
    }

    fn is_full(&self) -> bool {
        self.text.len() > self.room
    }

    ghost lawful = { held_laws };
}
