// Which `<=` posted an update (IEEE 1364-2005, 9.2.2, 11.4).

use basis::NoMemory;
use std::alloc::Global;

// An update that was posted: when it is due, and by the `<=` at which place of the design's table.
#[derive(Clone, Copy)]
struct Posted {
    due: u128,
    place: usize,
}

/// The updates that were posted and aren't past, in the order of their statements, and how many of this time were written. Updates of one
/// time are written in the order in which they were posted.
#[derive(Drop)]
pub struct Posts {
    alloc: Global,
    list: Vec<Posted>,
    written: usize,
}

impl Posts {
    /// None.
    pub fn new(alloc: Global) -> Posts {
        Posts {
            alloc,
            list: Vec::new(alloc),
            written: 0,
        }
    }

    /// One that is posted at a time for so much later.
    pub fn post(&mut self, time: u64, after: u128, place: usize) -> Result<(), NoMemory> {
        self.list.push(Posted {
            due: after.saturating_add(u128::from(time)),
            place,
        })?;
        Ok(())
    }

    /// The place of the `<=` whose update is written next at this time, which then is written.
    pub fn write(&mut self, time: u64) -> Option<usize> {
        let mut left = self.written;
        self.written = left.saturating_add(1);
        for posted in &self.list {
            if posted.due == u128::from(time) {
                if left == 0 {
                    return Some(posted.place);
                }
                left = left.saturating_sub(1);
            }
        }
        None
    }

    /// The time is this one: those that were due before it are past.
    pub fn advance(&mut self, time: u64) -> Result<(), NoMemory> {
        let mut kept = Vec::new(self.alloc);
        for posted in &self.list {
            if posted.due >= u128::from(time) {
                kept.push(*posted)?;
            }
        }
        self.list = kept;
        self.written = 0;
        Ok(())
    }
}
