// Entries of which none dominates a later one: each square of a row with no departure left, and then with one.

use basis::NoMemory;
use sched_core::{Log, Square};
use statebook::Entry;
use std::alloc::Global;

/// How many entries are met.
pub const COUNT: u32 = 40;

/// The entry of this number. Its log and its steps tell it from all others.
pub fn entry_of(alloc: Global, number: u32) -> Result<Entry<Square>, NoMemory> {
    let mut log = Log::new(alloc);
    if log.takes((number, 1)) {
        log.push(number, 1)?;
    }
    Ok(Entry {
        state: Square {
            x: number / 2,
            y: 1,
        },
        budget: number % 2,
        log,
        steps: number,
    })
}

/// Whether this is the entry of that number.
pub fn is_entry(entry: &Entry<Square>, number: u32) -> bool {
    let square = Square {
        x: number / 2,
        y: 1,
    };
    entry.state == square
        && entry.budget == number % 2
        && entry.steps == number
        && entry.log.members().len() == 1
        && entry.log.members().first() == Some(&(number, 1))
}
