// The book that workers share, and their tally.

ghost use Rattle.std.specs.Prelude.{◌≡◌, None};
ghost use Rattle.shardbook.specs.Names.{AreNames};

use sched_core::{Log, Square};
use shardbook::{Book, BookIdentity, Done, Met, Pass, SearchParameters, Seen, Unopened};
use statebook::Entry;
use std::alloc::Global;
use std::marker::Brand;
use std::sync::Wait;
use std::test::Fail;
use workpool::Tally;

// An entry of a run that has taken no step.
fn entry_of(alloc: Global, x: u32, budget: u32) -> Entry<Square> {
    Entry {
        state: Square { x, y: 1 },
        budget,
        log: Log::new(alloc),
        steps: 0,
    }
}

fn expect(holds: bool, what: &'static str) -> Result<(), Fail> {
    if holds { Ok(()) } else { Err(Fail::from(what)) }
}

// What was met is finished once, and closes when it is. These calls wait for nobody: they are given no
// handle.
fn finishes_once<Q: SearchParameters<Square>, B: BookIdentity>(
    alloc: Global,
    book: &Book<Square, Q, B>,
    seen: &Seen<Square, Q, B>,
) -> Result<(), Fail>
    requires { Q.rules ≡ None }
{
    let mut all = Vec::new(alloc);
    all.push(seen.again())?;
    expect(
        !book.closed(seen, all.as_slice()),
        "closed while unfinished",
    )?;
    let first = book.finish(Done::new(seen.again(), Vec::new(alloc)));
    expect(first.is_ok(), "a first finish")?;
    let again = book.finish(Done::new(seen.again(), Vec::new(alloc)));
    expect(again.is_err(), "a second finish")?;
    expect(
        book.closed(seen, all.as_slice()),
        "not closed when finished",
    )?;
    let none = Vec::new(alloc);
    expect(
        !book.closed(seen, none.as_slice()),
        "closed without its root",
    )
}

// One pass meets one entry twice: New, then Known with the same entry read; the same of that state with fewer departures left.
fn meets_twice<Q: SearchParameters<Square>, B: BookIdentity, R: Wait>(
    rt: &R,
    alloc: Global,
    unopened: Unopened<Square, Q>,
) -> Result<(), Fail>
    requires parameters { Q.rules ≡ None }
    requires names { AreNames unopened B.entries B.name B.parts }
{
    let (book, mut pass) = Book::<Square, Q, B>::open(alloc, unopened)?;
    let Ok(Met::New(seen)) = book.meet(rt, &mut pass, entry_of(alloc, 3, 1)) else {
        return Err(Fail::from("not new at first"));
    };
    let Ok(Met::Known(known)) = book.meet(rt, &mut pass, entry_of(alloc, 3, 1)) else {
        return Err(Fail::from("not known then"));
    };
    let Ok(Met::Known(lesser)) = book.meet(rt, &mut pass, entry_of(alloc, 3, 0)) else {
        return Err(Fail::from("not known with fewer departures left"));
    };
    expect(pass.count() == 1, "one New answer was counted")?;
    expect(known.place() == seen.place(), "one place")?;
    expect(
        lesser.place() == seen.place(),
        "the place of what dominates",
    )?;
    expect(
        book.read(&known).state == book.read(&seen).state,
        "one entry",
    )?;
    finishes_once(alloc, &book, &seen)
}

// The audit of one of two passes, and of both, without a handle.
fn audits<Q: SearchParameters<Square>, B: BookIdentity>(
    mut book: Book<Square, Q, B>,
    mut one: Pass<B>,
    other: Pass<B>,
) -> Result<(), Fail> {
    expect(!book.audit(&mut one), "the audit of one of two passes")?;
    let mut both = book.join(one, other);
    expect(both.count() == 2, "the counts of both")?;
    expect(book.audit(&mut both), "the audit of all passes")
}

// Two passes get one New each.
fn meets_by_two<Q: SearchParameters<Square>, B: BookIdentity, R: Wait>(
    rt: &R,
    alloc: Global,
    unopened: Unopened<Square, Q>,
) -> Result<(), Fail>
    requires parameters { Q.rules ≡ None }
    requires names { AreNames unopened B.entries B.name B.parts }
{
    let (book, mut pass) = Book::<Square, Q, B>::open(alloc, unopened)?;
    let mut other = pass.split();
    let Ok(Met::New(_)) = book.meet(rt, &mut pass, entry_of(alloc, 3, 0)) else {
        return Err(Fail::from("the first is not new"));
    };
    let Ok(Met::New(_)) = book.meet(rt, &mut other, entry_of(alloc, 4, 0)) else {
        return Err(Fail::from("the second is not new"));
    };
    audits(book, pass, other)
}

#[test]
fn entry_met_twice(rt: HostRuntime) -> Result<(), Fail> {
    let unopened = Unopened::<Square, Brand>::new(rt.alloc(), 16)?;
    meets_twice::<Brand, Brand, _>(&rt, rt.alloc(), unopened)
}

#[test]
fn audit_of_two_passes(rt: HostRuntime) -> Result<(), Fail> {
    let unopened = Unopened::<Square, Brand>::new(rt.alloc(), 16)?;
    meets_by_two::<Brand, Brand, _>(&rt, rt.alloc(), unopened)
}

// Two seats at a tally, without a handle.
fn counts(alloc: Global) -> Result<(u64, u64), Fail> {
    let (tally, mut one) = Tally::new(alloc)?;
    let mut other = tally.split(&mut one);
    tally.open(&mut one);
    tally.open(&mut other);
    tally.shut(&mut other);
    expect(tally.opens(&mut one) == 2, "opens of both")?;
    expect(tally.shuts(&mut one) == 1, "shuts of both")?;
    expect(!tally.stopped(&mut one), "stopped unasked")?;
    tally.stop(&mut other);
    expect(tally.stopped(&mut one), "a mark that isn't seen")?;
    tally.join(&mut one, other);
    Ok(tally.totals(one))
}

#[test]
fn tally_of_two_seats(rt: HostRuntime) -> Result<(), Fail> {
    assert!(rt; counts(rt.alloc())? == (2, 1));
    Ok(())
}
