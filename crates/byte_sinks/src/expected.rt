// Whether texts are the one that is expected.

ghost use Rattle.std.specs.Prelude.{◌≡◌, [], Some, Decides};

use crate::byte_sink::ByteSink;
use crate::fault::Never;
use std::marker::Model;

/// Compares texts, as they come, with the one that is expected, and keeps none. Its value is what is still expected, or
/// none where something else has come.
#[derive(Drop)]
pub struct Expected<'a> {
    rest: Option<&'a [u8]>,
}

impl<'a> Model for Expected<'a> {
    ghost use Rattle.std.specs.Prelude.{ℕ, List, Option, option_map};

    ghost Value = { Option (List ℕ) };

    ghost view = { λ e. option_map (λ rest. rest.now) e.rest };
}

impl<'a> Expected<'a> {
    /// Nothing of the text has come yet.
    pub fn new(text: &'a [u8]) -> Expected<'a>
        ensures { result ≡ Some text.now }
    {
        Expected { rest: Some(text) }
    }

    /// Whether just the whole text has come.
    pub fn is_whole(&self) -> bool
        ensures { Decides result (self.now ≡ Some []) }
    {
        match self.rest {
            Some(rest) => rest.is_empty(),
            None => false,
        }
    }
}

impl<'a> ByteSink for Expected<'a> {
    ghost use Rattle.byte_sinks.specs.Comparing.{Strips, expected_laws};

    type Fault = Never;

    ghost takes = { Strips };

    ghost fails = { λ _ _ _ _. ⊥ };

    fn put(&mut self, text: &[u8]) -> Result<(), Never> {
        if let Some(rest) = self.rest {
            self.rest = rest.strip_prefix(text);
        }
        Ok(())
    }

    ghost lawful = { expected_laws };
}
