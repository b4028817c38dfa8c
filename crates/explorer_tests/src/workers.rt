// Workers that share a search: that the closing scan over what they left answers true. What they find, and that a second one works while
// the first is held, is shown by the program explore_bench (`tests/searches`).

ghost use Rattle.std.specs.Prelude.{◌≤◌};
ghost use Rattle.shardbook.specs.Names.{AreNames};
ghost use Rattle.workpool.specs.Searches.{AreParametersOf};

use sched_core::{Grid, Space};
use shardbook::{Book, BookIdentity, SearchParameters, Unopened};
use statebook::Limits;
use std::alloc::Global;
use std::marker::Brand;
use std::sync::Wait;
use std::test::Fail;
use std::thread::Threads;
use workpool::{OpenGate, run_workers};

const SHARDS: usize = 16;

// Runs the workers over an open book; whether there is an entry at each place below the opens, and
// whether these close.
fn left_closed<
    P: Space + Sync,
    Q: SearchParameters<P::State> + Send + Sync,
    B: BookIdentity + Send + Sync,
    R: Threads + Wait + Sync,
>(
    rt: &R,
    alloc: Global,
    space: &P,
    limits: &Limits,
    workers: usize,
    unopened: Unopened<P::State, Q>,
) -> Result<bool, Fail>
    requires workers { (1 ≤ workers) × (workers ≤ 64) }
    requires parameters { AreParametersOf Q.rules Q.depart Q.steps (P.rules space.now) limits.now }
    requires names { AreNames unopened B.entries B.name B.parts }
{
    let (book, pass) = Book::<P::State, Q, B>::open(alloc, unopened)?;
    let ran = run_workers(rt, alloc, workers, space, &book, pass, limits, &OpenGate);
    let root = ran.root.ok_or("no root")?;
    let mut all = Vec::new(alloc);
    for place in 0..ran.opens as usize {
        all.push(book.at(place).ok_or("no entry")?)?;
    }
    Ok(ran.cut.is_none() && book.closed(&root, all.as_slice()))
}

// The names of a book are picked.
fn named_left_closed<
    P: Space + Sync,
    Q: SearchParameters<P::State> + Send + Sync,
    R: Threads + Wait + Sync,
>(rt: &R, alloc: Global, space: &P, limits: &Limits, workers: usize) -> Result<bool, Fail>
    requires workers { (1 ≤ workers) × (workers ≤ 64) }
    requires parameters { AreParametersOf Q.rules Q.depart Q.steps (P.rules space.now) limits.now }
{
    let unopened = Unopened::<P::State, Q>::new(alloc, SHARDS)?;
    left_closed::<P, Q, Brand, R>(rt, alloc, space, limits, workers, unopened)
}

// The search parameters are picked.
fn leaves_closed<P: Space + Sync, R: Threads + Wait + Sync>(
    rt: &R,
    alloc: Global,
    space: &P,
    limits: &Limits,
    workers: usize,
) -> Result<bool, Fail>
    requires { (1 ≤ workers) × (workers ≤ 64) }
{
    named_left_closed::<P, Brand, R>(rt, alloc, space, limits, workers)
}

#[test]
fn workers_leave_a_closed_book(rt: HostRuntime) -> Result<(), Fail> {
    let limits = Limits::new(1, 100, 1_000_000).ok_or("limits")?;
    for workers in [1, 2, 8] {
        let closed = leaves_closed(&rt, rt.alloc(), &Grid::new(2, 2), &limits, workers)?;
        assert!(rt; closed, "{workers} workers");
    }
    Ok(())
}
