// A book before it is picked which one it is.

ghost use Rattle.std.specs.Prelude.{◌≡◌, ◌+◌, ◌≤◌, IfOk};

use crate::entries::Entries;
use crate::parameters::SearchParameters;
use crate::pass::ALL;
use basis::NoMemory;
use std::alloc::Global;
use std::marker::Model;
use std::sync::ledger::Blank;

/// A book that isn't open yet. A clause sees the names by which a call that passes `Brand` for a
/// `BookIdentity` picks it.
#[derive(Drop)]
pub struct Unopened<S, Q: SearchParameters<S>> {
    pub(crate) entries: Entries<S, Q>,
    pub(crate) blank: Blank,
    pub(crate) shards: usize,
}

impl<S, Q: SearchParameters<S>> Model for Unopened<S, Q> {
    ghost use Rattle.std.specs.Prelude.{◌≡◌, ◌+◌, ◌≤◌, ◌^◌};
    ghost use Rattle.shardbook.specs.Names.{Names};

    ghost Value = { Names };

    ghost view = { λ u. record { entries = u.entries; name = u.blank.name; parts = u.blank.parts } };

    ghost invariant = { λ u. (1 ≤ u.shards) × (u.shards ≤ 64) × (u.blank.parts ≡ 2 ^ 62 + u.shards) };
}

impl<S: Drop, Q: SearchParameters<S>> Unopened<S, Q> {
    /// A book of so many shards. The error is want of memory, E901.
    pub fn new(alloc: Global, shards: usize) -> Result<Unopened<S, Q>, NoMemory>
        requires { (1 ≤ shards) × (shards ≤ 64) }
    {
        Ok(Unopened {
            entries: Entries::new(alloc)?,
            blank: Blank::new(ALL + shards as u64),
            shards,
        })
    }
}
