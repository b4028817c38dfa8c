// The call that runs the workers of a search.

ghost use Rattle.std.specs.Prelude.{◌≡◌, ℕ, ◌+◌, ◌<◌, ◌≤◌, ◌⊎◌, true, [], length, vec_len, vec_capacity, Some, None, IfErr, IfNone, IfOk, IfSome};
ghost use Rattle.workpool.specs.Rings.{IsRing};
ghost use Rattle.workpool.specs.Runs.{AreGiven, AreJobs, HasNoRoot, IsRefused, TellsFull};
ghost use Rattle.workpool.specs.Searches.{AreParametersOf, IsRootOf};
ghost use Rattle.statebook.specs.Ways.{SomeRunExceeds};
ghost use Rattle.statebook.specs.Inner.Forced.{IsFirst};
ghost use Rattle.workpool.specs.Inner.Joined.{AreReady, AreSamePlaces, IsSummed, all_opens};
ghost use Rattle.workpool.specs.Inner.Totals.{RunsNothing, TellsSums};
ghost use Rattle.workpool.specs.Inner.Works.{TellsPast};

use crate::deque::Owner;
use crate::gate::Gate;
use crate::ran::Ran;
use crate::ring::{Seat, settle_all};
use crate::room::{Room, make_room};
use crate::root::{insert_root, root_of};
use crate::sum::{Sum, either};
use crate::tally::{SEATS, Tally};
use crate::work::Work;
use crate::workers::{join_workers, run_each, seat_workers};
use basis::NoMemory;
use sched_core::Space;
use shardbook::{Book, BookIdentity, Pass, SearchParameters, Seen};
use statebook::{Limits, Reason};
use std::alloc::Global;
use std::sync::Wait;
use std::thread::Threads;

// The first reason to stop short that there is.
fn cut_of(refused: Option<NoMemory>, opens: u64, past: bool, limits: &Limits) -> Option<Reason>
    ensures memory { (refused ≡ None) ⊎ IsRefused result }
    ensures entries { TellsFull opens limits.now result }
    ensures steps { result ≡ Some Reason.Steps → past ≡ true }
{
    if let Some(refused) = refused {
        return Some(Reason::Memory(refused));
    }
    if opens >= limits.entries as u64 {
        return Some(Reason::Entries);
    }
    if past { Some(Reason::Steps) } else { None }
}

// Where memory was refused before the workers began.
fn not_begun<S, Q: SearchParameters<S>, B: BookIdentity>(
    alloc: Global,
    pass: Pass<B>,
    refused: NoMemory,
) -> Ran<S, Q, B>
    ensures { RunsNothing pass result }
{
    Ran {
        opens: 0,
        shuts: 0,
        given: 0,
        taken: 0,
        deques: Vec::new(alloc),
        cut: Some(Reason::Memory(refused)),
        root: None,
        pass,
    }
}

// Worker 0, the last of the list, meets the book with the root's entry.
fn start<P: Space, Q: SearchParameters<P::State>, B: BookIdentity, R: Wait>(
    alloc: Global,
    rt: &R,
    space: &P,
    limits: &Limits,
    book: &Book<P::State, Q, B>,
    tally: &Tally,
    works: &mut Vec<Work<B>>,
) -> Result<Seen<P::State, Q, B>, NoMemory>
    requires parameters { AreParametersOf Q.rules Q.depart Q.steps (P.rules space.now) limits.now }
    requires some { 0 < length works.old.items }
    requires ready { AreReady (P.rules space.now) limits.now tally.now (length works.old.items)
        works.old.items }
    ensures first { IfOk result (λ seen. IsFirst (P.rules space.now) seen.entry.state) }
    ensures len { length works.new.items ≡ length works.old.items }
    ensures ready { AreReady (P.rules space.now) limits.now tally.now (length works.old.items)
        works.new.items }
    ensures same { AreSamePlaces works.old.items works.new.items }
    ensures unmet { IfErr result (λ _. all_opens works.new.items ≡ all_opens works.old.items) }
{
    let Some(mut work) = works.pop() else {
        unreachable!()
    };
    let met = insert_root(alloc, rt, space, limits, book, tally, &mut work);
    works.push_reserved(work);
    met
}

// Meets the root, and runs each worker.
fn search<
    P: Space + Sync,
    Q: SearchParameters<P::State> + Send + Sync,
    B: BookIdentity + Send + Sync,
    R: Threads + Wait + Sync,
    G: Gate,
>(
    alloc: Global,
    rt: &R,
    space: &P,
    limits: &Limits,
    book: &Book<P::State, Q, B>,
    tally: &Tally,
    gate: &G,
    works: &mut Vec<Work<B>>,
) -> Result<Seen<P::State, Q, B>, NoMemory>
    requires parameters { AreParametersOf Q.rules Q.depart Q.steps (P.rules space.now) limits.now }
    requires some { 0 < length works.old.items }
    requires ready { AreReady (P.rules space.now) limits.now tally.now (length works.old.items)
        works.old.items }
    ensures first { IfOk result (λ seen. IsFirst (P.rules space.now) seen.entry.state) }
    ensures len { length works.new.items ≡ length works.old.items }
    ensures ready { AreReady (P.rules space.now) limits.now tally.now (length works.old.items)
        works.new.items }
    ensures same { AreSamePlaces works.old.items works.new.items }
    ensures unmet { IfErr result (λ _. all_opens works.new.items ≡ all_opens works.old.items) }
{
    let seen = start(alloc, rt, space, limits, book, tally, works)?;
    let root = &book.read(&seen).state;
    run_each(
        alloc,
        rt,
        space,
        limits,
        book,
        tally,
        root,
        gate,
        works.as_mut_slice(),
    );
    Ok(seen)
}

// What is left when all workers are joined: the tally's words, the first reason to stop short, and
// what shows the root's entry. All deques settle.
fn tell<P: Space, Q: SearchParameters<P::State>, B: BookIdentity>(
    space: &P,
    limits: &Limits,
    book: &Book<P::State, Q, B>,
    tally: Tally,
    sum: Sum<B>,
    ring: Vec<Seat>,
    deques: Vec<Owner>,
    met: Result<Seen<P::State, Q, B>, NoMemory>,
) -> Ran<P::State, Q, B>
    requires parameters { AreParametersOf Q.rules Q.depart Q.steps (P.rules space.now) limits.now }
    requires parts { sum.tally.parts ≡ SEATS }
    requires here { sum.tally.tally ≡ tally }
    requires ring { IsRing ring.items }
    requires none { deques.items ≡ [] }
    requires room { vec_len ring ≤ vec_capacity deques }
    requires told { TellsPast (P.rules space.now) limits.now sum.past }
    requires first { IfOk met (λ seen. IsFirst (P.rules space.now) seen.entry.state) }
    requires unmet { IfErr met (λ _. sum.tally.opens ≡ 0) }
    ensures parts { result.pass.parts ≡ sum.pass.parts }
    ensures sums { (start : ℕ) →
        IsSummed (P.rules space.now) limits.now tally start ring.items sum →
        TellsSums start result }
    ensures root { IfSome result.root (λ seen. IsRootOf (P.rules space.now) limits.now seen.entry) }
    ensures none { IfNone result.root (HasNoRoot (P.rules space.now) limits.now result) }
    ensures entries { TellsFull result.opens limits.now result.cut }
    ensures steps { result.cut ≡ Some Reason.Steps → SomeRunExceeds (P.rules space.now) limits.now }
{
    let mut deques = deques;
    let _ = settle_all(ring, &mut deques);
    let Sum {
        tally: seat,
        pass,
        given,
        taken,
        refused,
        past,
    } = sum;
    // The count has 64 bits, so the sum of opens, which it has beyond its start, hasn't wrapped.
    let _ = pass.count();
    let (opens, shuts) = tally.totals(seat);
    let (root, unmet) = match met {
        Ok(seen) => (root_of(space, limits, book, seen), None),
        Err(refused) => (None, Some(refused)),
    };
    Ran {
        opens,
        shuts,
        given,
        taken,
        deques,
        cut: cut_of(either(unmet, refused), opens, past, limits),
        root,
        pass,
    }
}

/// Runs `count` workers, 1 to 64, over the book: each takes entries that were added and not yet taken,
/// meets the book with the next station after each choice that the entry's budget allows, and
/// finishes the entry. The caller's thread is worker 0, which meets the root first. Worker i steals
/// jobs from worker i + 1 alone, the last one from worker 0, so that a deque has one owner and one
/// thief; a lone worker steals from nobody. Where a thread can't be started, the others do its work.
///
/// They end when all that was opened is shut, or when they are to stop: a growth was refused, or as
/// many entries were opened as the limit, which each worker looks at before it takes a job. Where a way
/// takes more steps than the limit, its entry is left unfinished and the others go on. The gate is
/// called before each job is run. No way is remembered: each is walked to its station anew.
///
/// Whether an entry was missed isn't told by this: that is for the book's closing scan.
pub fn run_workers<
    P: Space + Sync,
    Q: SearchParameters<P::State> + Send + Sync,
    B: BookIdentity + Send + Sync,
    R: Threads + Wait + Sync,
    G: Gate,
>(
    rt: &R,
    alloc: Global,
    count: usize,
    space: &P,
    book: &Book<P::State, Q, B>,
    pass: Pass<B>,
    limits: &Limits,
    gate: &G,
) -> Ran<P::State, Q, B>
    requires count { (1 ≤ count) × (count ≤ 64) }
    requires parameters { AreParametersOf Q.rules Q.depart Q.steps (P.rules space.now) limits.now }
    ensures parts { result.pass.parts ≡ pass.parts }
    ensures opens { result.pass.count ≡ pass.count + result.opens }
    ensures given { AreGiven result.given result.opens result.cut }
    ensures taken { result.taken ≤ result.given }
    ensures shuts { result.shuts ≡ result.taken }
    ensures jobs { AreJobs result.deques.items result.given result.taken }
    ensures root { IfSome result.root (λ seen. IsRootOf (P.rules space.now) limits.now seen.entry) }
    ensures none { IfNone result.root (HasNoRoot (P.rules space.now) limits.now result) }
    ensures entries { TellsFull result.opens limits.now result.cut }
    ensures steps { result.cut ≡ Some Reason.Steps → SomeRunExceeds (P.rules space.now) limits.now }
{
    let Room {
        tally,
        mut all,
        mut ring,
        mut works,
        deques,
    } = match make_room(alloc, count) {
        Ok(room) => room,
        Err(refused) => return not_begun(alloc, pass, refused),
    };
    let mut pass = pass;
    seat_workers(
        space, limits, &tally, &mut all, &mut pass, &mut ring, &mut works,
    );
    let met = search(alloc, rt, space, limits, book, &tally, gate, &mut works);
    let none = Sum {
        tally: all,
        pass,
        given: 0,
        taken: 0,
        refused: None,
        past: false,
    };
    let sum = join_workers(space, limits, book, &tally, none, works, &mut ring);
    tell(space, limits, book, tally, sum, ring, deques, met)
}
