// The columns of a figure: the times at which slots of either run end.

use crate::waves::Waves;
use basis::NoMemory;
use std::alloc::Global;

// Whether the time is beyond the last one.
fn is_beyond(time: u64, last: Option<u64>) -> bool {
    match last {
        None => true,
        Some(last) => time > last,
    }
}

// Whether the time comes after those of which both runs are known.
fn is_unknown(time: u64, known: Option<u64>) -> bool {
    match known {
        None => false,
        Some(known) => time > known,
    }
}

// The least time of these slots beyond the last one.
fn next_of(waves: &Waves, last: Option<u64>) -> Option<u64> {
    for slot in &waves.slots {
        if is_beyond(slot.time, last) {
            return Some(slot.time);
        }
    }
    None
}

/// The earlier of two times.
pub(crate) fn earlier(one: Option<u64>, other: Option<u64>) -> Option<u64> {
    match (one, other) {
        (Some(time), Some(also)) => Some(time.min(also)),
        (Some(time), None) => Some(time),
        (None, time) => time,
    }
}

/// The times at which a slot of either run ends, in order, as far as both runs are known.
pub(crate) fn columns_of(alloc: Global, one: &Waves, other: &Waves) -> Result<Vec<u64>, NoMemory> {
    let mut columns = Vec::new(alloc);
    let mut last = None;
    let known = earlier(one.known_to(), other.known_to());
    for _ in 0..one.slots.len().saturating_add(other.slots.len()) {
        let Some(time) = earlier(next_of(one, last), next_of(other, last)) else {
            return Ok(columns);
        };
        if is_unknown(time, known) {
            return Ok(columns);
        }
        columns.push(time)?;
        last = Some(time);
    }
    Ok(columns)
}
