// What a finished entry met.

ghost use Rattle.std.specs.Prelude.{◌≡◌};
ghost use Rattle.shardbook.specs.Finishes.{HasSuccessors};
ghost use Rattle.shardbook.specs.StoredEntries.{entries_of};

use crate::parameters::{BookIdentity, SearchParameters};
use crate::seen::Seen;
use std::marker::Model;

/// What a finished entry met: for each choice in order what shows the entry that dominates the
/// next station after it.
#[derive(Drop)]
pub struct Done<S, Q: SearchParameters<S>, B: BookIdentity> {
    entry: Seen<S, Q, B>,
    next: Vec<Seen<S, Q, B>>,
}

impl<S, Q: SearchParameters<S>, B: BookIdentity> Model for Done<S, Q, B> {
    ghost use Rattle.shardbook.specs.Finishes.{HasSuccessors};
    ghost use Rattle.shardbook.specs.StoredEntries.{ExpandedEntry, entries_of};

    ghost Value = { ExpandedEntry S };

    ghost view = { λ d. record { entry = d.entry; next = d.next.items } };

    ghost invariant = { λ d. HasSuccessors Q.rules d.entry.entry (entries_of d.next.items) };
}

impl<S, Q: SearchParameters<S>, B: BookIdentity> Done<S, Q, B> {
    /// That the entry has met all these.
    pub fn new(entry: Seen<S, Q, B>, next: Vec<Seen<S, Q, B>>) -> Done<S, Q, B>
        requires { HasSuccessors Q.rules entry.entry (entries_of next.items) }
        ensures entry { result.entry ≡ entry }
        ensures next { result.next ≡ next.items }
    {
        Done { entry, next }
    }

    /// The entry.
    pub fn entry(&self) -> &Seen<S, Q, B>
        ensures { result.now ≡ self.now.entry }
    {
        &self.entry
    }

    /// What it met.
    pub fn next(&self) -> &[Seen<S, Q, B>]
        ensures same { result.now ≡ self.now.next }
        ensures met { HasSuccessors Q.rules self.now.entry.entry (entries_of self.now.next) }
    {
        self.next.as_slice()
    }
}
