// Workers: how they are seated, how each is run in a thread of its own, and how they are joined again.

ghost use Rattle.std.specs.Prelude.{◌≡◌, ◌+◌, ◌-◌, ◌<◌, ◌≤◌, [], length, vec_len, vec_capacity};
ghost use Rattle.workpool.specs.Rings.{AreIdle};
ghost use Rattle.workpool.specs.Searches.{AreParametersOf};
ghost use Rattle.statebook.specs.Inner.Forced.{IsFirst};
ghost use Rattle.workpool.specs.Inner.Joined.{AreReady, AreSamePlaces, IsReady, IsSummed, all_opens, all_parts, seats_onto};
ghost use Rattle.workpool.specs.Inner.Works.{IsSamePlace};
ghost use Rattle.std.specs.Thread.{IsSend};

use crate::gate::Gate;
use crate::ring::Seat;
use crate::sum::{Sum, add};
use crate::tally::{Tally, TallySeat};
use crate::work::Work;
use crate::worker::run_worker;
use sched_core::Space;
use shardbook::{Book, BookIdentity, Pass, SearchParameters};
use statebook::Limits;
use std::alloc::Global;
use std::hash::Hash;
use std::sync::Wait;
use std::thread;
use std::thread::Threads;

// Seats a worker at each of the ring's seats, the last one first, so that worker 0 comes last. Each has
// one part of the tally's seat, and some of the pass.
pub(crate) fn seat_workers<P: Space, B: BookIdentity>(
    space: &P,
    limits: &Limits,
    tally: &Tally,
    all: &mut TallySeat,
    pass: &mut Pass<B>,
    ring: &mut Vec<Seat>,
    works: &mut Vec<Work<B>>,
)
    requires none { works.old.items ≡ [] }
    requires room { vec_len ring.old ≤ vec_capacity works.old }
    requires here { all.old.tally ≡ tally.now }
    requires parts { length ring.old.items < all.old.parts }
    requires idle { AreIdle ring.old.items }
    ensures emptied { ring.new.items ≡ [] }
    ensures capacity { vec_capacity ring.new ≡ vec_capacity ring.old }
    ensures seats { seats_onto works.new.items [] ≡ ring.old.items }
    ensures ready { AreReady (P.rules space.now) limits.now tally.now (length works.new.items)
        works.new.items }
    ensures parts { pass.new.parts + all_parts works.new.items ≡ pass.old.parts }
    ensures count { pass.new.count ≡ pass.old.count }
    ensures opens { all_opens works.new.items ≡ 0 }
    ensures left { all.new ≡ record all.old { parts = all.old.parts - length ring.old.items } }
{
    let steals = ring.len() > 1;
    while let Some(seat) = ring.pop() {
        works.push_reserved(Work {
            seat,
            tally: tally.split(all),
            pass: pass.split(),
            steals,
            given: 0,
            taken: 0,
            refused: None,
            past: false,
        });
    }
}

// The number of the worker at the place: the last place has number 0.
fn number_of(last: usize, place: usize) -> u32 {
    u32::try_from(last.saturating_sub(place)).unwrap_or(u32::MAX)
}

// Runs each worker in a thread of its own, where one can be started. The caller's thread runs the
// last of the list, worker 0; where no other can be started it runs that one to its end first, and it
// does the work of all.
pub(crate) fn run_each<
    P: Space + Sync,
    Q: SearchParameters<P::State> + Send + Sync,
    B: BookIdentity + Send + Sync,
    R: Threads + Wait + Sync,
    G: Gate,
>(
    alloc: Global,
    rt: &R,
    space: &P,
    limits: &Limits,
    book: &Book<P::State, Q, B>,
    tally: &Tally,
    root: &P::State,
    gate: &G,
    works: &mut [Work<B>],
)
    requires parameters { AreParametersOf Q.rules Q.depart Q.steps (P.rules space.now) limits.now }
    requires root { IsFirst (P.rules space.now) root.now }
    requires some { 0 < length works.old }
    requires ready { AreReady (P.rules space.now) limits.now tally.now (length works.old)
        works.old }
    ensures len { length works.new ≡ length works.old }
    ensures ready { AreReady (P.rules space.now) limits.now tally.now (length works.old) works.new }
    ensures same { AreSamePlaces works.old works.new }
{
    let last = works.len() - 1;
    let each = |place: usize, work: &mut Work<B>|
        requires send { IsSend P.State.row }
        requires parameters { AreParametersOf Q.rules Q.depart Q.steps (P.rules space.now) limits.now }
        requires root { IsFirst (P.rules space.now) root.now }
        requires ready { IsReady (P.rules space.now) limits.now tally.now work.now }
        ensures ready { IsReady (P.rules space.entry.now) limits.entry.now tally.entry.now
            work.exit.now }
        ensures same { IsSamePlace work.entry.now work.exit.now }
    {
        let worker = number_of(last, place);
        run_worker(
            alloc, rt, space, limits, book, tally, root, gate, worker, work,
        )
    };
    thread::for_each_mut(rt, works, works.len(), &each);
}

// Joins the workers, worker 0 first, and puts their ends back into the ring.
pub(crate) fn join_workers<P: Space, Q: SearchParameters<P::State>, B: BookIdentity>(
    space: &P,
    limits: &Limits,
    book: &Book<P::State, Q, B>,
    tally: &Tally,
    start: Sum<B>,
    works: Vec<Work<B>>,
    ring: &mut Vec<Seat>,
) -> Sum<B>
    requires none { ring.old.items ≡ [] }
    requires room { vec_len works ≤ vec_capacity ring.old }
    requires ready { AreReady (P.rules space.now) limits.now tally.now (length works.items)
        works.items }
    requires summed { IsSummed (P.rules space.now) limits.now tally.now start.pass.count [] start }
    ensures seats { ring.new.items ≡ seats_onto works.items [] }
    ensures summed { IsSummed (P.rules space.now) limits.now tally.now start.pass.count
        ring.new.items result }
    ensures seat { result.tally.parts ≡ start.tally.parts + length works.items }
    ensures parts { result.pass.parts ≡ start.pass.parts + all_parts works.items }
    ensures opens { result.tally.opens ≡ start.tally.opens + all_opens works.items }
{
    let mut works = works;
    let mut sum = start;
    while let Some(work) = works.pop() {
        let (more, seat) = add(book, tally, sum, work);
        sum = more;
        ring.push_reserved(seat);
    }
    sum
}
