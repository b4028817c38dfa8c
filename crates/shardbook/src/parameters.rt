// What a book's entries have to be, and which book it is, as types that only contracts read.

ghost use Rattle.std.specs.Prelude.{ℕ, List, [], Option, None};
ghost use Rattle.sched_core.specs.Rules.{Rules};
ghost use Rattle.boxcar.specs.Table.{Shelves};
ghost use Rattle.shardbook.specs.EntryRules.{IsWanted};

use boxcar::Keeps;
use statebook::Entry;
use std::marker::{Brand, PhantomData};
use std::sync::ledger::Ledger;

/// What a search is for: the rules of its space, the departures of a run and its steps at most. A
/// call that passes `Brand` picks them; where it picks no rules, nothing is asked of an entry.
pub trait SearchParameters<S> {
    ghost rules: { Option (Rules S) };

    ghost depart: { ℕ };

    ghost steps: { ℕ };
}

impl<S> SearchParameters<S> for Brand {
    ghost rules = { None };

    ghost depart = { 0 };

    ghost steps = { 0 };
}

/// Which book it is: the name of the vector of its entries, and the ledger of its New answers. A
/// call that passes `Brand` picks them.
pub trait BookIdentity: Ledger {
    ghost entries: { Shelves };
}

impl BookIdentity for Brand {
    ghost entries = { record { tag = []; buckets = [] } };
}

/// An entry as it is kept, with the place of the slot that its successors go to.
#[derive(Drop)]
pub(crate) struct Kept<S> {
    pub(crate) entry: Entry<S>,
    pub(crate) slot: usize,
}

/// The rule of the vector of entries: each is one that the search may add.
pub struct EntryRule<Q> {
    of: PhantomData<Q>,
}

impl<S, Q: SearchParameters<S>> Keeps<Kept<S>> for EntryRule<Q> {
    ghost holds = { λ _ _ kept. IsWanted Q.rules Q.depart Q.steps kept.entry };
}
