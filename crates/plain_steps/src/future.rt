// The future: which processes and updates stand at later times, in order of time (IEEE 1364-2005, 11.3).

ghost use Rattle.std.specs.Prelude.{◌≡◌, ◌<◌, ◌≤◌, true, length, OnOk, OnErr, IfOk, false, slice_get};
ghost use Rattle.std.specs.Option.{ForSome};
ghost use Rattle.vmodel.specs.Queue.{slot_with_sleeper, slot_with_update, empty_slot, later_at};
ghost use Rattle.vmodel.specs.Inner.{place_of_time, SomeIs, NoneIs};

use crate::queue::{Future, copy_updates};
use basis::NoMemory;
use std::alloc::Global;
use std::collections::VecDeque;
use vmodel::part::Parts;
use vmodel::process_set::ProcessSet;

// How many future times are below this one.
fn place_among(future: &[Future], time: u64) -> usize
    ensures exact { result ≡ place_of_time time future.now }
    ensures within { result ≤ length future.now }
{
    let mut place = 0;
    for entry in future {
        if entry.time >= time {
            return place;
        }
        place += 1;
    }
    place
}

// Whether this time stands at this place.
fn stands_at(future: &[Future], place: usize, time: u64) -> bool
    ensures yes { result ≡ true → SomeIs (λ e. e.0 ≡ time) (slice_get future.now place) }
    ensures no { result ≡ false → NoneIs (λ e. e.0 ≡ time) (slice_get future.now place) }
{
    match future.get(place) {
        None => false,
        Some(entry) => entry.time == time,
    }
}

// A future time that holds one process to wake, or none.
fn new_future(alloc: Global, time: u64, sleeper: Option<u32>) -> Future
    requires { ForSome sleeper (λ p. p < 256) }
    ensures { result ≡ (time, slot_with_sleeper sleeper empty_slot) }
{
    let mut processes = ProcessSet::new();
    if let Some(process) = sleeper {
        processes.insert(process);
    }
    Future {
        time,
        processes,
        updates: VecDeque::new(alloc),
    }
}

// One more process to wake at the future time of this place.
fn wake_with(entry: &mut Future, sleeper: Option<u32>)
    requires { ForSome sleeper (λ p. p < 256) }
    ensures { entry.new ≡ (entry.old.0, slot_with_sleeper sleeper entry.old.1) }
{
    if let Some(process) = sleeper {
        entry.processes.insert(process);
    }
}

/// One more process to wake at a time, which becomes a future time also where there is none. After want of memory the
/// future is as it was.
pub(crate) fn wake_at(
    future: &mut Vec<Future>,
    time: u64,
    sleeper: Option<u32>,
) -> Result<(), NoMemory>
    requires { ForSome sleeper (λ p. p < 256) }
    ensures ok { OnOk result (future.new.items ≡ later_at time (slot_with_sleeper sleeper) future.old.items) }
    ensures err { OnErr result (future.new.items ≡ future.old.items) }
{
    let place = place_among(future, time);
    if stands_at(future, place, time) {
        wake_with(&mut future[place], sleeper);
        return Ok(());
    }
    let alloc = *future.allocator();
    let entry = new_future(alloc, time, sleeper);
    future.insert(place, entry)?;
    Ok(())
}

// A future time that holds one update.
fn updating_future(alloc: Global, time: u64, parts: Parts) -> Result<Future, NoMemory>
    ensures { IfOk result (λ entry. entry ≡ (time, slot_with_update parts empty_slot)) }
{
    let mut updates = VecDeque::new(alloc);
    updates.push_back(parts)?;
    Ok(Future {
        time,
        processes: ProcessSet::new(),
        updates,
    })
}

// One more update at the future time of this place, behind the others.
fn update_with(entry: &mut Future, parts: Parts) -> Result<(), NoMemory>
    ensures ok { OnOk result (entry.new ≡ (entry.old.0, slot_with_update parts entry.old.1)) }
    ensures err { OnErr result (entry.new ≡ entry.old) }
{
    entry.updates.push_back(parts)?;
    Ok(())
}

/// One more update at a time, which becomes a future time also where there is none. After want of memory the future is as it was.
pub(crate) fn post_at(future: &mut Vec<Future>, time: u64, parts: Parts) -> Result<(), NoMemory>
    ensures ok { OnOk result (future.new.items ≡ later_at time (slot_with_update parts) future.old.items) }
    ensures err { OnErr result (future.new.items ≡ future.old.items) }
{
    let place = place_among(future, time);
    if stands_at(future, place, time) {
        update_with(&mut future[place], parts)?;
        return Ok(());
    }
    let alloc = *future.allocator();
    let entry = updating_future(alloc, time, parts)?;
    future.insert(place, entry)?;
    Ok(())
}

fn copy_entry(alloc: Global, entry: &Future) -> Result<Future, NoMemory>
    ensures { IfOk result (λ copied. copied ≡ entry.now) }
{
    Ok(Future {
        time: entry.time,
        processes: entry.processes.copy(),
        updates: copy_updates(alloc, &entry.updates)?,
    })
}

/// A future that holds the same.
pub(crate) fn copy_future(alloc: Global, future: &[Future]) -> Result<Vec<Future>, NoMemory>
    ensures { IfOk result (λ copied. copied.items ≡ future.now) }
{
    let mut copied = Vec::new(alloc);
    for entry in future {
        copied.push(copy_entry(alloc, entry)?)?;
    }
    Ok(copied)
}
