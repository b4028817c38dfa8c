// One slot of a space, searched with at most so many departures.

ghost use Rattle.std.proofs.Common.{rules};
ghost use Rattle.std.specs.Hash as fed;
ghost use Rattle.std.specs.Cmp.Rules.{hashing};
ghost use Rattle.std.specs.Prelude.{◌++◌};

use basis::NoMemory;
use sched_core::{Ranked, Space};
use statebook::budget_left;
use std::hash::{Hash, Hasher};

/// A state of a slot, and how many departures its run has left.
#[derive(Drop)]
#[derive_where(PartialEq, Eq; S)]
pub struct Budgeted<S> {
    pub state: S,
    pub budget: u32,
}

/// A hash is fed what `==` compares.
impl<S: Hash> Hash for Budgeted<S> {
    ghost hash_input = { λ e. S.hash_input e.state ++ fed.u32 e.budget };

    ghost respects_eq = { Prim.search (hashing, rules) };

    fn hash<H: Hasher>(&self, state: &mut H) {
        self.state.hash(state);
        self.budget.hash(state);
    }
}

/// The runs of a space from a state on to the end of the slot, with at most so many departures. A state from which none is left has
/// choice 0 alone: so a search keeps no such state, but goes on from it to the end of the slot. All are of one time.
#[derive(Drop)]
pub struct BudgetedSlot<'a, P: Space> {
    pub space: &'a P,
    pub start: &'a P::State,
    pub most: u32,
    pub time: u64,
}

impl<'a, P: Space> Space for BudgetedSlot<'a, P> {
    ghost use Rattle.std.specs.Prelude.{◌≡◌};
    ghost use Rattle.std.proofs.Common.{◌==◌, ◌&&◌, ap};
    ghost use Rattle.matching.specs.Inner.BudgetedSlots.{budgeted_slot, budgeted_is_lawful};

    type State = Budgeted<P::State>;

    ghost rules = { λ me. budgeted_slot (P.rules me.space.now) me.start.now me.most };

    fn root(&self) -> Result<Budgeted<P::State>, NoMemory> {
        Ok(Budgeted {
            state: self.space.copy(self.start)?,
            budget: self.most,
        })
    }

    fn copy(&self, s: &Budgeted<P::State>) -> Result<Budgeted<P::State>, NoMemory> {
        Ok(Budgeted {
            state: self.space.copy(&s.state)?,
            budget: s.budget,
        })
    }

    fn width(&self, s: &Budgeted<P::State>) -> u32 {
        if self.space.is_mark(&s.state) {
            return 0;
        }
        let width = self.space.width(&s.state);
        if s.budget == 0 { width.min(1) } else { width }
    }

    fn step(&self, s: &mut Budgeted<P::State>, i: u32) -> Result<(), NoMemory> {
        self.space.step(&mut s.state, i)?;
        s.budget = budget_left(s.budget, i);
        Ok(())
    }

    fn is_mark(&self, s: &Budgeted<P::State>) -> bool {
        self.space.is_mark(&s.state)
    }

    ghost same_is_eq = { λ me s t. ap (λ b. b && (s.budget == t.budget)) (P.same_is_eq me.space.now s.state t.state) };

    ghost lawful = { λ me. budgeted_is_lawful (P.rules me.space.now) me.start.now me.most (P.lawful me.space.now) };
}

impl<'a, P: Space> Ranked for BudgetedSlot<'a, P> {
    ghost use Rattle.matching.specs.Inner.BudgetedSlots.{one_rank};

    ghost ranks = { λ me s. me.time };

    fn rank(&self, s: &Budgeted<P::State>) -> u64 {
        self.time
    }

    ghost ranked = { λ me. one_rank (P.rules me.space.now) me.start.now me.most me.time };
}
