// A station that a run reached, as a book keeps it.

ghost use Rattle.std.specs.Prelude.{◌++◌};
ghost use Rattle.std.proofs.Common.{rules};
ghost use Rattle.std.specs.Hash as fed;
ghost use Rattle.std.specs.Cmp.Rules.{hashing};

use sched_core::Log;
use std::hash::{Hash, Hasher};

/// A station that a run reached: its state, the departures left, the log of the run, and how many
/// steps it took. Two entries are equal in state and budget, whatever runs reached them.
#[derive(Drop)]
#[derive_where(PartialEq, Eq; S)]
pub struct Entry<S> {
    pub state: S,
    pub budget: u32,
    #[derive_where(skip(EqHashOrd))]
    pub log: Log,
    #[derive_where(skip(EqHashOrd))]
    pub steps: u32,
}

/// A hash is fed what `==` compares: what the state feeds it, and the budget.
impl<S: Hash> Hash for Entry<S> {
    ghost hash_input = { λ e. S.hash_input e.state ++ fed.u32 e.budget };

    ghost respects_eq = { Prim.search (hashing, rules) };

    fn hash<H: Hasher>(&self, state: &mut H) {
        self.state.hash(state);
        self.budget.hash(state);
    }
}
