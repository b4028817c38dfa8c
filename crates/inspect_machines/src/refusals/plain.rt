// The book of one owner.

use super::counts::CallCounts;
use super::entries::{COUNT, entry_of, is_entry};
use basis::NoMemory;
use sched_core::Square;
use statebook::{Entry, Met, PlainBook};
use std::alloc::Global;

// Whether the book holds the entries of the numbers below this one, in order, and no others.
fn holds(book: &PlainBook<Square>, count: u32) -> bool {
    let mut number = 0;
    for place in 0..book.len() {
        if !is_entry(book.read(place), number) {
            return false;
        }
        number = number.saturating_add(1);
    }
    number == count
}

// Meets an entry, the one that was handed back where it was refused.
fn insert(
    book: &mut PlainBook<Square>,
    entry: Entry<Square>,
    number: u32,
    counts: &mut CallCounts,
) -> Result<Met, NoMemory> {
    match book.meet(entry) {
        Ok(met) => {
            counts.count(false);
            Ok(met)
        }
        Err((_, back)) => {
            counts.expect(is_entry(&back, number), "another entry was handed back");
            counts.expect(holds(book, number), "a refused entry changed the book");
            let met = match book.meet(back) {
                Ok(met) => met,
                Err((refused, _)) => return Err(refused),
            };
            counts.count(true);
            Ok(met)
        }
    }
}

/// Meets the entries in order: each is new.
pub fn inserts(alloc: Global) -> Result<CallCounts, NoMemory> {
    let mut counts = CallCounts::new();
    let mut book = PlainBook::new(alloc);
    for number in 0..COUNT {
        let entry = entry_of(alloc, number)?;
        let met = insert(&mut book, entry, number, &mut counts)?;
        counts.expect(met == Met::New(number as usize), "an entry isn't new");
    }
    counts.expect(holds(&book, COUNT), "the book has other entries in the end");
    Ok(counts)
}
