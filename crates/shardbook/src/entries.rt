// The vector of a book's entries, which every thread reads without a lock.

ghost use Rattle.std.specs.Prelude.{◌≡◌, ℕ, IfSome, IfOk, IfErr};
ghost use Rattle.shardbook.specs.EntryRules.{IsWanted};

use crate::parameters::{BookIdentity, EntryRule, Kept, SearchParameters};
use crate::push::push;
use crate::seen::Seen;
use basis::NoMemory;
use boxcar::tag::Tag;
use std::alloc::Global;
use std::marker::{Model, PhantomData};
use std::sync::Wait;

// The entries of a book. A clause sees the name of their vector.
#[derive(Drop)]
pub(crate) struct Entries<S, Q: SearchParameters<S>> {
    vec: boxcar::Vec<Kept<S>, Global, EntryRule<Q>>,
}

impl<S, Q: SearchParameters<S>> Model for Entries<S, Q> {
    ghost use Rattle.boxcar.specs.Table.{Shelves, shelves_coded};

    ghost Value = { Shelves };

    ghost coded = { shelves_coded };

    ghost view = { λ e. e.vec };
}

impl<S: Drop, Q: SearchParameters<S>> Entries<S, Q> {
    // No entries.
    pub(crate) fn new(alloc: Global) -> Result<Entries<S, Q>, NoMemory> {
        Ok(Entries {
            vec: boxcar::Vec::with_rule(alloc, Tag::empty())?,
        })
    }

    // Puts an entry last, with its slot. It is handed back where memory was refused.
    pub(crate) fn push<B: BookIdentity, R: Wait>(
        &self,
        rt: &R,
        kept: Kept<S>,
    ) -> Result<Seen<S, Q, B>, (NoMemory, Kept<S>)>
        requires named { self.now ≡ B.entries }
        requires wanted { IsWanted Q.rules Q.depart Q.steps kept.entry }
        ensures ok { IfOk result (λ seen. seen.entry ≡ kept.entry) }
        ensures handed_back { IfErr result (λ refused. refused.1 ≡ kept) }
    {
        let token = push(rt, &self.vec, kept)?;
        Ok(Seen {
            token,
            of: PhantomData,
        })
    }
}

impl<S, Q: SearchParameters<S>> Entries<S, Q> {
    // The entry that was seen, with its slot.
    pub(crate) fn kept_at<B: BookIdentity>(&self, seen: &Seen<S, Q, B>) -> &Kept<S>
        requires { self.now ≡ B.entries }
        ensures entry { result.now.entry ≡ seen.now.entry }
        ensures slot { result.now.slot ≡ seen.now.slot }
        ensures wanted { IsWanted Q.rules Q.depart Q.steps result.now.entry }
    {
        let token = &seen.token;
        self.vec.get_seen(token.index(), token).unwrap()
    }

    // What shows the entry at the place, if there is one now.
    pub(crate) fn at<B: BookIdentity>(&self, place: usize) -> Option<Seen<S, Q, B>>
        requires { self.now ≡ B.entries }
        ensures { IfSome result (λ seen. seen.place ≡ place) }
    {
        let token = self.vec.witness(place)?;
        Some(Seen {
            token,
            of: PhantomData,
        })
    }

    // One place has one entry.
    pub(crate) fn agree<B: BookIdentity>(&self, a: &Seen<S, Q, B>, b: &Seen<S, Q, B>)
        requires named { self.now ≡ B.entries }
        requires same { a.now.place ≡ b.now.place }
        ensures { a.now ≡ b.now }
    {
        self.vec.agrees(&a.token, &b.token)
    }
}
