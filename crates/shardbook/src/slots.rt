// The slots that entries' successors go to, each set once.

ghost use Rattle.std.specs.Prelude.{◌≡◌, IfErr};

use crate::done::Done;
use crate::parameters::{BookIdentity, SearchParameters};
use crate::push::push;
use basis::NoMemory;
use std::alloc::Global;
use std::sync::{OnceLock, Wait};

// Slots that every thread sets and reads without a lock.
#[derive(Drop)]
pub(crate) struct Slots<S, Q: SearchParameters<S>, B: BookIdentity> {
    vec: boxcar::Vec<OnceLock<Done<S, Q, B>>>,
}

impl<S: Drop, Q: SearchParameters<S>, B: BookIdentity> Slots<S, Q, B> {
    // No slots.
    pub(crate) fn new(alloc: Global) -> Result<Slots<S, Q, B>, NoMemory> {
        Ok(Slots {
            vec: boxcar::Vec::new(alloc)?,
        })
    }

    // An empty slot more.
    pub(crate) fn push<R: Wait>(&self, rt: &R) -> Result<usize, NoMemory> {
        match push(rt, &self.vec, OnceLock::new()) {
            Ok(pushed) => Ok(pushed.index()),
            Err((refused, _)) => Err(refused),
        }
    }
}

impl<S, Q: SearchParameters<S>, B: BookIdentity> Slots<S, Q, B> {
    // Sets the slot, unless it is set or being set.
    pub(crate) fn set(&self, slot: usize, done: Done<S, Q, B>) -> Result<(), Done<S, Q, B>>
        ensures { IfErr result (λ back. back ≡ done) }
    {
        let Some(lock) = self.vec.get(slot) else {
            return Err(done);
        };
        match lock.try_set(done) {
            Ok(_) => Ok(()),
            Err(back) => Err(back),
        }
    }

    // What the slot was set to.
    pub(crate) fn get(&self, slot: usize) -> Option<&Done<S, Q, B>> {
        self.vec.get(slot)?.get()
    }
}
