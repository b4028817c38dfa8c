// Future times in order, each found by its place.

ghost use Rattle.std.specs.Prelude.{◌≡◌, ◌<◌, ◌≤◌, ◌+◌, true, false, length, drop, slice_get, OnOk, OnErr, IfOk};
ghost use Rattle.std.specs.Option.{ForSome};
ghost use Rattle.vmodel.specs.Queue.{slot_with_sleeper, slot_with_update, later_at};
ghost use Rattle.vmodel.specs.Inner.{place_of_time, SomeIs, NoneIs};

use crate::future_time::FutureTime;
use basis::NoMemory;
use std::collections::VecDeque;
use vmodel::part::Parts;

/// Where a time stands, or would stand, where all before a place are below it.
pub(crate) fn place_from(entries: &VecDeque<FutureTime>, from: usize, time: u64) -> usize
    requires { from + place_of_time time (drop from entries.now.items) ≡ place_of_time time entries.now.items }
    ensures exact { result ≡ place_of_time time entries.now.items }
    ensures within { result ≤ length entries.now.items }
{
    let count = entries.len();
    let mut place = from;
    while place < count {
        let entry = &entries[place];
        let stands = entry.time;
        if stands >= time {
            return place;
        }
        place += 1;
    }
    place
}

// Whether this time stands at this place.
fn stands_at(entries: &VecDeque<FutureTime>, place: usize, time: u64) -> bool
    ensures yes { result ≡ true → SomeIs (λ e. e.0 ≡ time) (slice_get entries.now.items place) }
    ensures no { result ≡ false → NoneIs (λ e. e.0 ≡ time) (slice_get entries.now.items place) }
{
    match entries.get(place) {
        None => false,
        Some(entry) => entry.time == time,
    }
}

/// One more process to wake, or none more, at a time that stands or would stand at this place. After want of memory all is as it was.
pub(crate) fn wake_at_place(
    entries: &mut VecDeque<FutureTime>,
    place: usize,
    time: u64,
    sleeper: Option<u32>,
) -> Result<(), NoMemory>
    requires at { place ≡ place_of_time time entries.old.items }
    requires within { place ≤ length entries.old.items }
    requires process { ForSome sleeper (λ p. p < 256) }
    ensures ok { OnOk result (entries.new.items ≡ later_at time (slot_with_sleeper sleeper) entries.old.items) }
    ensures err { OnErr result (entries.new.items ≡ entries.old.items) }
{
    if stands_at(entries, place, time) {
        entries[place].wake(sleeper);
        return Ok(());
    }
    let alloc = *entries.allocator();
    let entry = FutureTime::of_process(alloc, time, sleeper);
    entries.insert(place, entry)?;
    Ok(())
}

/// One more update at a time that stands or would stand at this place, behind the others of that time. After want of memory all is as
/// it was.
pub(crate) fn post_at_place(
    entries: &mut VecDeque<FutureTime>,
    place: usize,
    time: u64,
    parts: Parts,
) -> Result<(), NoMemory>
    requires at { place ≡ place_of_time time entries.old.items }
    requires within { place ≤ length entries.old.items }
    ensures ok { OnOk result (entries.new.items ≡ later_at time (slot_with_update parts) entries.old.items) }
    ensures err { OnErr result (entries.new.items ≡ entries.old.items) }
{
    if stands_at(entries, place, time) {
        entries[place].post(parts)?;
        return Ok(());
    }
    let alloc = *entries.allocator();
    let entry = FutureTime::of_update(alloc, time, parts)?;
    entries.insert(place, entry)?;
    Ok(())
}

/// The same future times.
pub(crate) fn copy_entries(entries: &VecDeque<FutureTime>) -> Result<VecDeque<FutureTime>, NoMemory>
    ensures { IfOk result (λ copied. copied.items ≡ entries.now.items) }
{
    let mut copied = VecDeque::with_capacity(*entries.allocator(), entries.len())?;
    for entry in entries.iter() {
        copied.push_back(entry.copy()?)?;
    }
    Ok(copied)
}
