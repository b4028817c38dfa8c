// The values of a run at the ends of the slots round a time.

use crate::walk::Walk;
use basis::NoMemory;
use std::alloc::Global;
use vbits::Vec4;

// How many slots before the time are kept, and how many after it.
const BEFORE: usize = 5;

const AFTER: usize = 2;

/// A slot: its time, and the values at its end.
#[derive(Drop)]
pub(crate) struct Slot {
    pub(crate) time: u64,
    pub(crate) values: Vec<Vec4>,
}

/// The last slots before a time, that of the time, and the first ones after it, in order.
pub struct Waves {
    pub(crate) slots: Vec<Slot>,
    around: u64,
    after: usize,
    ended: bool,
}

impl Drop for Waves {
    fn drop(self) {
        let Waves {
            slots: _,
            around: _,
            after: _,
            ended: _,
        } = self;
    }
}

impl Waves {
    /// No slot yet.
    pub(crate) fn new(alloc: Global, around: u64) -> Waves {
        Waves {
            slots: Vec::new(alloc),
            around,
            after: 0,
            ended: false,
        }
    }

    // Makes room for a slot of this time: of those before the time round which they are kept only the last ones stay.
    fn make_room(&mut self, time: u64) {
        if time > self.around {
            self.after = self.after.saturating_add(1);
        } else if self.slots.len() > BEFORE {
            let _first = self.slots.remove(0);
        }
    }

    /// Keeps the slot of this time, which ends here.
    pub(crate) fn see(
        &mut self,
        alloc: Global,
        walk: &Walk<'_>,
        time: u64,
    ) -> Result<(), NoMemory> {
        self.make_room(time);
        let values = Vec::from_slice(alloc, walk.values())?;
        self.slots.push(Slot { time, values })?;
        Ok(())
    }

    /// Whether it needs no slot more.
    pub(crate) fn is_whole(&self) -> bool {
        self.after >= AFTER
    }

    /// The run has no slot more.
    pub(crate) fn end(&mut self) {
        self.ended = true;
    }

    /// The time up to which the run is known; none where it is known to its end.
    pub(crate) fn known_to(&self) -> Option<u64> {
        match self.slots.last() {
            Some(slot) if !self.ended => Some(slot.time),
            _ => None,
        }
    }

    // Whether the run has ended before the time.
    fn is_over(&self, time: u64) -> bool {
        match self.slots.last() {
            None => true,
            Some(slot) => self.ended && slot.time < time,
        }
    }

    // The values at the end of the last slot up to the time.
    fn values_up_to(&self, time: u64) -> &[Vec4] {
        let mut last: &[Vec4] = &[];
        for slot in &self.slots {
            if slot.time <= time {
                last = &slot.values;
            }
        }
        last
    }

    /// The value of the variable at the end of the last slot up to the time; none where the run has ended before.
    pub fn value_at(&self, variable: usize, time: u64) -> Option<Vec4> {
        if self.is_over(time) {
            return None;
        }
        self.values_up_to(time).get(variable).copied()
    }
}
