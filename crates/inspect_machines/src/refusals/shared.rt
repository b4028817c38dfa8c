// The book that threads share, met by one pass.

ghost use Rattle.std.specs.Prelude.{◌≡◌, None};
ghost use Rattle.shardbook.specs.Names.{AreNames};

use super::counts::CallCounts;
use super::entries::{COUNT, entry_of, is_entry};
use basis::NoMemory;
use sched_core::Square;
use shardbook::{Book, BookIdentity, Met, Pass, SearchParameters, Seen, Unopened};
use statebook::Entry;
use std::alloc::Global;
use std::marker::Brand;
use std::sync::Wait;

// Whether each entry that was new still stands where it was seen.
fn holds<Q: SearchParameters<Square>, B: BookIdentity>(
    book: &Book<Square, Q, B>,
    seen: &[Seen<Square, Q, B>],
    count: u32,
) -> bool {
    let mut number = 0;
    for one in seen {
        if !is_entry(book.read(one), number) {
            return false;
        }
        number = number.saturating_add(1);
    }
    number == count
}

// Meets an entry, the one that was handed back where it was refused. The pass counts New answers alone.
fn insert<Q: SearchParameters<Square>, B: BookIdentity, R: Wait>(
    rt: &R,
    book: &Book<Square, Q, B>,
    pass: &mut Pass<B>,
    entry: Entry<Square>,
    number: u32,
    counts: &mut CallCounts,
) -> Result<Met<Square, Q, B>, NoMemory>
    requires { Q.rules ≡ None }
{
    match book.meet(rt, pass, entry) {
        Ok(met) => {
            counts.count(false);
            Ok(met)
        }
        Err((_, back)) => {
            counts.expect(is_entry(&back, number), "another entry was handed back");
            counts.expect(pass.count() == number as u64, "a refused entry was counted");
            let met = match book.meet(rt, pass, back) {
                Ok(met) => met,
                Err((refused, _)) => return Err(refused),
            };
            counts.count(true);
            Ok(met)
        }
    }
}

// Meets the entries in order: each is new, and those before it stand.
fn inserts<Q: SearchParameters<Square>, B: BookIdentity, R: Wait>(
    rt: &R,
    alloc: Global,
    unopened: Unopened<Square, Q>,
) -> Result<CallCounts, NoMemory>
    requires parameters { Q.rules ≡ None }
    requires names { AreNames unopened B.entries B.name B.parts }
{
    let mut counts = CallCounts::new();
    let mut seen = Vec::with_capacity(alloc, COUNT as usize)?;
    let (book, mut pass) = Book::<Square, Q, B>::open(alloc, unopened)?;
    for number in 0..COUNT {
        let entry = entry_of(alloc, number)?;
        match insert(rt, &book, &mut pass, entry, number, &mut counts)? {
            Met::New(one) => seen.push(one)?,
            Met::Known(_) => counts.expect(false, "an entry isn't new"),
        }
        counts.expect(
            holds(&book, seen.as_slice(), number + 1),
            "an entry was lost",
        );
    }
    counts.expect(pass.count() == COUNT as u64, "the pass counts wrongly");
    Ok(counts)
}

/// Meets the entries in a book of four shards.
pub fn shares<R: Wait>(rt: &R, alloc: Global) -> Result<CallCounts, NoMemory> {
    let unopened = Unopened::<Square, Brand>::new(alloc, 4)?;
    inserts::<Brand, Brand, R>(rt, alloc, unopened)
}
