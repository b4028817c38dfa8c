// What shows that an entry stands in a book.

ghost use Rattle.std.specs.Prelude.{◌≡◌};

use crate::parameters::{BookIdentity, EntryRule, Kept, SearchParameters};
use boxcar::Pushed;
use std::alloc::Global;
use std::marker::{Model, PhantomData};

/// What shows that an entry stands in the book, for good, and at which place: a handle of a visited
/// state. A place is the number of an entry, from 0; where memory was refused a number may be left
/// out. A clause sees the place and the entry.
#[derive(Drop)]
pub struct Seen<S, Q: SearchParameters<S>, B: BookIdentity> {
    pub(crate) token: Pushed<Kept<S>, Global, EntryRule<Q>>,
    pub(crate) of: PhantomData<B>,
}

impl<S, Q: SearchParameters<S>, B: BookIdentity> Model for Seen<S, Q, B> {
    ghost use Rattle.boxcar.specs.Table.{Shows};
    ghost use Rattle.shardbook.specs.StoredEntries.{StoredEntry};

    ghost Value = { StoredEntry S };

    ghost view = { λ s. record { place = s.token.index; entry = s.token.value.entry; slot = s.token.value.slot } };

    ghost invariant = { λ s. Shows B.entries s.token };
}

impl<S, Q: SearchParameters<S>, B: BookIdentity> Seen<S, Q, B> {
    /// The place.
    pub fn place(&self) -> usize
        ensures { result ≡ self.now.place }
    {
        self.token.index()
    }

    /// An equal one.
    pub fn again(&self) -> Seen<S, Q, B>
        ensures { result ≡ self.now }
    {
        Seen {
            token: self.token.again(),
            of: PhantomData,
        }
    }
}
