// The future times in order, each found by a walk from the first.

use crate::digest::mix_future;
use crate::future_time::FutureTime;
use crate::future_times::FutureTimes;
use crate::placed::{copy_entries, place_from, post_at_place, wake_at_place};
use basis::NoMemory;
use std::alloc::Global;
use std::collections::VecDeque;
use std::marker::Model;
use vmodel::part::Parts;

/// The future times in order. A clause sees it as the record `Times` of specs/Times.antt.
pub struct SortedTimes {
    time: u64,
    entries: VecDeque<FutureTime>,
}

impl Drop for SortedTimes {
    fn drop(self) {
        let SortedTimes {
            time: _,
            entries: _,
        } = self;
    }
}

impl Model for SortedTimes {
    ghost use Rattle.vstrata.specs.Times.{Times};

    ghost Value = { Times };

    ghost view = { λ t. record { time = t.time; future = t.entries.items } };
}

/// Two are equal where they hold the same.
impl PartialEq for SortedTimes {
    ghost use Rattle.std.specs.Cmp.{partial_equiv_from_equiv};
    ghost use Rattle.vstrata.specs.Times.{times_same};
    ghost use Rattle.vstrata.specs.TimesLaws.{times_equivalent};

    ghost eq = { times_same };

    ghost laws = { partial_equiv_from_equiv times_equivalent };

    fn eq(&self, other: &SortedTimes) -> bool {
        (&self.time, &self.entries) == (&other.time, &other.entries)
    }
}

impl Eq for SortedTimes {
    ghost use Rattle.vstrata.specs.TimesLaws.{times_equivalent};

    ghost laws = { times_equivalent };
}

impl FutureTimes for SortedTimes {
    ghost use Rattle.std.specs.Prelude.{refl};

    ghost times = { λ t. t };

    ghost same_is_eq = { λ s t. refl };

    fn new(alloc: Global) -> SortedTimes {
        SortedTimes {
            time: 0,
            entries: VecDeque::new(alloc),
        }
    }

    fn copy(&self) -> Result<SortedTimes, NoMemory> {
        Ok(SortedTimes {
            time: self.time,
            entries: copy_entries(&self.entries)?,
        })
    }

    fn time(&self) -> u64 {
        self.time
    }

    fn wake_at(&mut self, time: u64, sleeper: Option<u32>) -> Result<(), NoMemory> {
        let place = place_from(&self.entries, 0, time);
        wake_at_place(&mut self.entries, place, time, sleeper)
    }

    fn post_at(&mut self, time: u64, parts: Parts) -> Result<(), NoMemory> {
        let place = place_from(&self.entries, 0, time);
        post_at_place(&mut self.entries, place, time, parts)
    }

    fn first_time(&self) -> Option<u64> {
        match self.entries.front() {
            None => None,
            Some(entry) => Some(entry.time),
        }
    }

    fn take_first(&mut self) -> Option<FutureTime> {
        let first = self.entries.pop_front()?;
        self.time = first.time;
        Some(first)
    }

    fn digest_after(&self, digest: u64) -> u64 {
        mix_future(digest, &self.entries)
    }
}
