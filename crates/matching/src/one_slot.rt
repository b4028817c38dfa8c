// One slot of a space.

use basis::NoMemory;
use sched_core::Space;

/// The runs of a space from a state on to the end of the slot: they open there, and end at the first mark.
#[derive(Drop)]
pub struct OneSlot<'a, P: Space> {
    pub space: &'a P,
    pub start: &'a P::State,
}

impl<'a, P: Space> Space for OneSlot<'a, P> {
    ghost use Rattle.matching.specs.Slots.{one_slot};
    ghost use Rattle.matching.specs.Inner.SlotLaws.{one_slot_is_lawful};

    type State = P::State;

    ghost rules = { λ me. one_slot (P.rules me.space.now) me.start.now };

    fn root(&self) -> Result<P::State, NoMemory> {
        self.space.copy(self.start)
    }

    fn copy(&self, s: &P::State) -> Result<P::State, NoMemory> {
        self.space.copy(s)
    }

    fn width(&self, s: &P::State) -> u32 {
        if self.space.is_mark(s) {
            0
        } else {
            self.space.width(s)
        }
    }

    fn step(&self, s: &mut P::State, i: u32) -> Result<(), NoMemory> {
        self.space.step(s, i)
    }

    fn is_mark(&self, s: &P::State) -> bool {
        self.space.is_mark(s)
    }

    ghost same_is_eq = { λ me. P.same_is_eq me.space.now };

    ghost lawful = { λ me. one_slot_is_lawful (P.rules me.space.now) me.start.now (P.lawful me.space.now) };
}
