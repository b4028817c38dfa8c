// The future times in order, the near ones of which are found by a word that marks them.

ghost use Rattle.std.specs.Prelude.{◌≡◌, ◌≢◌, ◌<◌, ◌≤◌, ◌+◌, ◌∷◌, ◌%◌, ◌^◌, ℕ, suc, length, take, count_ones};
ghost use Rattle.std.specs.Int.{bit_at};
ghost use Rattle.vstrata.specs.Marks.{AreMarks, IsRing, TimesFrom};
ghost use Rattle.vmodel.specs.Inner.{place_of_time};

use crate::digest::mix_future;
use crate::future_time::FutureTime;
use crate::future_times::FutureTimes;
use crate::placed::{copy_entries, place_from, post_at_place, wake_at_place};
use basis::NoMemory;
use std::alloc::Global;
use std::collections::VecDeque;
use std::marker::Model;
use vmodel::part::Parts;

/// The future times in order. Those less than 64 after the current time are marked in a word, so that each is found at once: as many stand
/// before it as bits are set below its own. Hence the name: the nearest 64 times are found by their marks in one word, as in a ring of 64
/// slots, and no entry is moved when the time goes on. A clause sees it as the record `Times` of specs/Times.antt.
pub struct RingTimes {
    time: u64,
    near: u64,
    entries: VecDeque<FutureTime>,
}

impl Drop for RingTimes {
    fn drop(self) {
        let RingTimes {
            time: _,
            near: _,
            entries: _,
        } = self;
    }
}

impl Model for RingTimes {
    ghost use Rattle.vstrata.specs.Times.{Times};
    ghost use Rattle.vstrata.specs.Marks.{IsRing};

    ghost Value = { Times };

    ghost view = { λ t. record { time = t.time; future = t.entries.items } };

    ghost invariant = { λ t. IsRing t.time t.near t.entries.items };
}

/// Two are equal where they hold the same; then the same times are marked.
impl PartialEq for RingTimes {
    ghost use Rattle.std.specs.Cmp.{partial_equiv_from_equiv};
    ghost use Rattle.vstrata.specs.Times.{times_same};
    ghost use Rattle.vstrata.specs.TimesLaws.{times_equivalent};

    ghost eq = { times_same };

    ghost laws = { partial_equiv_from_equiv times_equivalent };

    fn eq(&self, other: &RingTimes) -> bool {
        (&self.time, &self.entries) == (&other.time, &other.entries)
    }
}

impl Eq for RingTimes {
    ghost use Rattle.vstrata.specs.TimesLaws.{times_equivalent};

    ghost laws = { times_equivalent };
}

// How many are marked below the time that is so far away.
fn marks_below(near: u64, ahead: u64) -> usize
    requires { ahead < 64 }
    ensures { result ≡ count_ones (near % 2 ^ ahead) }
{
    (near & ((1 << ahead) - 1)).count_ones() as usize
}

// With the time marked that is so far away, if it is near.
fn with_mark(near: u64, ahead: u64) -> u64
    ensures this { ahead < 64 → bit_at result ahead ≡ 1 }
    ensures others { (k : ℕ) → k < 64 → k ≢ ahead → bit_at result k ≡ bit_at near k }
{
    if ahead < 64 { near | 1 << ahead } else { near }
}

// With those marked that stand from a place on, as far as they are near.
fn marked_from(near: u64, from: usize, time: u64, entries: &VecDeque<FutureTime>) -> u64
    requires rises { TimesFrom (suc time) entries.now.items }
    requires marks { AreMarks near time (take from entries.now.items) }
    ensures { AreMarks result time entries.now.items }
{
    let count = entries.len();
    let mut marks = near;
    let mut place = from;
    while place < count {
        let entry = &entries[place];
        let ahead = entry.time - time;
        if ahead >= 64 {
            return marks;
        }
        marks = with_mark(marks, ahead);
        place += 1;
    }
    marks
}

// Those marked that stand after the first, once the time has gone on to it: the marks move with the time, and more times are near.
fn marks_after(near: u64, now: u64, first: &FutureTime, entries: &VecDeque<FutureTime>) -> u64
    requires { IsRing now near (first.now ∷ entries.now.items) }
    ensures { AreMarks result first.now.0 entries.now.items }
{
    let time = first.time;
    let step = time - now;
    if step >= 64 {
        return marked_from(0, 0, time, entries);
    }
    let kept = near >> step & !1;
    let from = near.count_ones() as usize - 1;
    marked_from(kept, from, time, entries)
}

// Where a time after the current one stands, or would stand.
fn place_near(near: u64, now: u64, time: u64, entries: &VecDeque<FutureTime>) -> usize
    requires after { now < time }
    requires rises { TimesFrom (suc now) entries.now.items }
    requires marks { AreMarks near now entries.now.items }
    ensures exact { result ≡ place_of_time time entries.now.items }
    ensures within { result ≤ length entries.now.items }
{
    let ahead = time - now;
    if ahead < 64 {
        return marks_below(near, ahead);
    }
    let from = near.count_ones() as usize;
    place_from(entries, from, time)
}

impl FutureTimes for RingTimes {
    ghost use Rattle.std.specs.Prelude.{refl};

    ghost times = { λ t. t };

    ghost same_is_eq = { λ s t. refl };

    fn new(alloc: Global) -> RingTimes {
        RingTimes {
            time: 0,
            near: 0,
            entries: VecDeque::new(alloc),
        }
    }

    fn copy(&self) -> Result<RingTimes, NoMemory> {
        Ok(RingTimes {
            time: self.time,
            near: self.near,
            entries: copy_entries(&self.entries)?,
        })
    }

    fn time(&self) -> u64 {
        self.time
    }

    fn wake_at(&mut self, time: u64, sleeper: Option<u32>) -> Result<(), NoMemory> {
        let place = place_near(self.near, self.time, time, &self.entries);
        wake_at_place(&mut self.entries, place, time, sleeper)?;
        self.near = with_mark(self.near, time - self.time);
        Ok(())
    }

    fn post_at(&mut self, time: u64, parts: Parts) -> Result<(), NoMemory> {
        let place = place_near(self.near, self.time, time, &self.entries);
        post_at_place(&mut self.entries, place, time, parts)?;
        self.near = with_mark(self.near, time - self.time);
        Ok(())
    }

    fn first_time(&self) -> Option<u64> {
        match self.entries.front() {
            None => None,
            Some(entry) => Some(entry.time),
        }
    }

    fn take_first(&mut self) -> Option<FutureTime> {
        let first = self.entries.pop_front()?;
        self.near = marks_after(self.near, self.time, &first, &self.entries);
        self.time = first.time;
        Some(first)
    }

    fn digest_after(&self, digest: u64) -> u64 {
        mix_future(digest, &self.entries)
    }
}
