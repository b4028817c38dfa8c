// The call of many workers: they go through a book that they share, and the marks are read from it.

ghost use Rattle.std.specs.Prelude.{◌≡◌, ◌≤◌, length, Some, IfOk};
ghost use Rattle.indexmap.specs.IndexMap.{IsUnique};
ghost use Rattle.shardbook.specs.Closing.{Closes};
ghost use Rattle.shardbook.specs.Names.{AreNames};
ghost use Rattle.workpool.specs.Searches.{AreParametersOf};
ghost use Rattle.explore.specs.Found.{ListsAll, ListsFewest, ListsFound, TellsSteps};
ghost use Rattle.explore.specs.Inner.Listing.{InPlace};
ghost use Rattle.explore.specs.Inner.Shared.{StopsForEntries, StopsForSteps, TellsWhy};
ghost use Rattle.statebook.specs.Inner.Forced.{IfReached};

use crate::alone::explore_alone;
use crate::findings::{Findings, Status};
use crate::listing::{list_met, list_seen};
use basis::NoMemory;
use sched_core::Space;
use shardbook::{Book, BookIdentity, SearchParameters, Seen, Unopened};
use statebook::{Limits, Reason};
use std::alloc::Global;
use std::hash::Hash;
use std::marker::Brand;
use std::sync::Wait;
use std::thread::Threads;
use workpool::{Gate, Ran, run_workers};

/// The shards of a book that workers share.
const SHARDS: usize = 16;

/// Room that is held while workers search, in words of 8 bytes, and free when the marks are listed: 4 MiB.
const ROOM: usize = 524_288;

// What is to be said of entries that were seen: exhausted where they close, else the reason for which
// the workers stopped short; None where there is none.
fn status_of<S: Eq + Hash + Drop, Q: SearchParameters<S>, B: BookIdentity>(
    book: &Book<S, Q, B>,
    root: &Seen<S, Q, B>,
    all: &[Seen<S, Q, B>],
    cut: Option<Reason>,
) -> Option<Status>
    ensures closed { result ≡ Some Status.Exhausted →
        Closes Q.rules Q.depart Q.steps root.now all.now }
    ensures entries { result ≡ Some (Status.Cut Reason.Entries) → StopsForEntries cut }
    ensures steps { result ≡ Some (Status.Cut Reason.Steps) → StopsForSteps cut }
{
    if book.closed(root, all) {
        return Some(Status::Exhausted);
    }
    match cut {
        Some(reason) => Some(Status::Cut(reason)),
        None => None,
    }
}

// What is read from entries that were seen: the marks that they stand at, and whether they are all.
// None where the entries don't close and no reason is given.
fn read_findings<P: Space, Q: SearchParameters<P::State>, B: BookIdentity>(
    alloc: Global,
    space: &P,
    limits: &Limits,
    book: &Book<P::State, Q, B>,
    root: &Seen<P::State, Q, B>,
    all: &[Seen<P::State, Q, B>],
    cut: Option<Reason>,
) -> Result<Option<Findings<P::State>>, NoMemory>
    requires parameters { AreParametersOf Q.rules Q.depart Q.steps (P.rules space.now) limits.now }
    requires steps { TellsWhy (P.rules space.now) limits.now cut }
    ensures found { IfReached result (ListsFound (P.rules space.now) limits.now) }
    ensures distinct { IfReached result (λ findings. IsUnique P.State.eq findings.marks) }
    ensures exhausted { IfReached result (ListsAll (P.rules space.now) limits.now) }
    ensures fewest { IfReached result (ListsFewest (P.rules space.now)) }
    ensures steps { IfReached result (TellsSteps (P.rules space.now) limits.now) }
{
    let Some(status) = status_of(book, root, all, cut) else {
        return Ok(None);
    };
    let marks = list_seen(alloc, space, limits, book, all)?;
    Ok(Some(Findings { marks, status }))
}

// What shows the entries of the places from 0 on, up to the first that shows none; at most so many.
fn all_seen<S: Eq + Hash + Drop, Q: SearchParameters<S>, B: BookIdentity>(
    alloc: Global,
    book: &Book<S, Q, B>,
    count: u64,
) -> Result<Vec<Seen<S, Q, B>>, NoMemory>
    ensures count { IfOk result (λ all. length all.items ≤ count) }
    ensures places { IfOk result (λ all. InPlace all.items) }
{
    let mut all = Vec::with_capacity(alloc, count as usize)?;
    for place in 0..count as usize {
        match book.at(place) {
            Some(seen) => all.push_reserved(seen),
            None => return Ok(all),
        }
    }
    Ok(all)
}

// What is read of the book whose entries are so many. None where they don't close and no reason is given.
fn read_all<P: Space, Q: SearchParameters<P::State>, B: BookIdentity>(
    alloc: Global,
    space: &P,
    limits: &Limits,
    book: &Book<P::State, Q, B>,
    root: &Seen<P::State, Q, B>,
    count: u64,
    cut: Option<Reason>,
) -> Result<Option<Findings<P::State>>, NoMemory>
    requires parameters { AreParametersOf Q.rules Q.depart Q.steps (P.rules space.now) limits.now }
    requires steps { TellsWhy (P.rules space.now) limits.now cut }
    ensures found { IfReached result (ListsFound (P.rules space.now) limits.now) }
    ensures distinct { IfReached result (λ findings. IsUnique P.State.eq findings.marks) }
    ensures exhausted { IfReached result (ListsAll (P.rules space.now) limits.now) }
    ensures fewest { IfReached result (ListsFewest (P.rules space.now)) }
    ensures steps { IfReached result (TellsSteps (P.rules space.now) limits.now) }
{
    let all = all_seen(alloc, book, count)?;
    read_findings(alloc, space, limits, book, root, all.as_slice(), cut)
}

// As many of the marks as memory goes, where it was refused.
fn read_some<P: Space, Q: SearchParameters<P::State>, B: BookIdentity>(
    alloc: Global,
    space: &P,
    limits: &Limits,
    book: &Book<P::State, Q, B>,
    count: u64,
    refused: NoMemory,
) -> Findings<P::State>
    requires { AreParametersOf Q.rules Q.depart Q.steps (P.rules space.now) limits.now }
    ensures found { ListsFound (P.rules space.now) limits.now result }
    ensures distinct { IsUnique P.State.eq result.marks }
    ensures exhausted { ListsAll (P.rules space.now) limits.now result }
    ensures fewest { ListsFewest (P.rules space.now) result }
    ensures steps { TellsSteps (P.rules space.now) limits.now result }
{
    Findings {
        marks: list_met(alloc, space, limits, book, count),
        status: Status::Cut(Reason::Memory(refused)),
    }
}

// Where the root's entry wasn't met: want of memory, if that is why.
fn without_root<S: Eq + Hash>(cut: Option<Reason>) -> Result<Option<Findings<S>>, NoMemory>
    ensures { IfReached result (λ _. ⊥) }
{
    match cut {
        Some(Reason::Memory(refused)) => Err(refused),
        Some(Reason::Entries) => Ok(None),
        Some(Reason::Steps) => Ok(None),
        None => Ok(None),
    }
}

// The book is opened, gone through and read. None where its entries don't close and no reason is told.
fn within<
    P: Space + Sync,
    Q: SearchParameters<P::State> + Send + Sync,
    B: BookIdentity + Send + Sync,
    R: Threads + Wait + Sync,
    G: Gate,
>(
    rt: &R,
    alloc: Global,
    space: &P,
    limits: &Limits,
    workers: usize,
    gate: &G,
    unopened: Unopened<P::State, Q>,
) -> Result<Option<Findings<P::State>>, NoMemory>
    requires workers { (1 ≤ workers) × (workers ≤ 64) }
    requires parameters { AreParametersOf Q.rules Q.depart Q.steps (P.rules space.now) limits.now }
    requires names { AreNames unopened B.entries B.name B.parts }
    ensures found { IfReached result (ListsFound (P.rules space.now) limits.now) }
    ensures distinct { IfReached result (λ findings. IsUnique P.State.eq findings.marks) }
    ensures exhausted { IfReached result (ListsAll (P.rules space.now) limits.now) }
    ensures fewest { IfReached result (ListsFewest (P.rules space.now)) }
    ensures steps { IfReached result (TellsSteps (P.rules space.now) limits.now) }
{
    let (book, pass) = Book::<P::State, Q, B>::open(alloc, unopened)?;
    let room = Vec::<u64>::with_capacity(alloc, ROOM)?;
    let Ran {
        opens,
        shuts: _,
        given: _,
        taken: _,
        deques: _,
        cut,
        root,
        pass: _,
    } = run_workers(rt, alloc, workers, space, &book, pass, limits, gate);
    let Some(root) = root else {
        return without_root(cut);
    };
    drop(room);
    match read_all(alloc, space, limits, &book, &root, opens, cut) {
        Ok(found) => Ok(found),
        Err(refused) => Ok(Some(read_some(alloc, space, limits, &book, opens, refused))),
    }
}

// The names of a book are picked, and it is gone through.
fn over<
    P: Space + Sync,
    Q: SearchParameters<P::State> + Send + Sync,
    R: Threads + Wait + Sync,
    G: Gate,
>(
    rt: &R,
    alloc: Global,
    space: &P,
    limits: &Limits,
    workers: usize,
    gate: &G,
) -> Result<Option<Findings<P::State>>, NoMemory>
    requires workers { (1 ≤ workers) × (workers ≤ 64) }
    requires parameters { AreParametersOf Q.rules Q.depart Q.steps (P.rules space.now) limits.now }
    ensures found { IfReached result (ListsFound (P.rules space.now) limits.now) }
    ensures distinct { IfReached result (λ findings. IsUnique P.State.eq findings.marks) }
    ensures exhausted { IfReached result (ListsAll (P.rules space.now) limits.now) }
    ensures fewest { IfReached result (ListsFewest (P.rules space.now)) }
    ensures steps { IfReached result (TellsSteps (P.rules space.now) limits.now) }
{
    let unopened = Unopened::<P::State, Q>::new(alloc, SHARDS)?;
    within::<P, Q, Brand, R, G>(rt, alloc, space, limits, workers, gate, unopened)
}

/// Explores the space with so many workers, 1 to 64, who share a book of entries; the caller's thread is
/// the first of them. The gate is called before each job.
///
/// Proved, as of `explore_alone`: each listed mark is reached under its log, by a run within both
/// limits, and no two are equal. Where it says `Exhausted`, every mark that a run of at most
/// `limits.depart` departures reaches is listed, after however many steps, and no run at all that reaches
/// a listed mark has fewer departures than its log. Where it says `Cut(Steps)`, some run of at most
/// `limits.depart` departures takes more than `limits.steps` steps.
///
/// `Exhausted` rests on a scan of the entries alone, not on what the workers count. Where that scan
/// answers false and the workers had no reason to stop short, what they left is dropped and the answer is
/// that of `explore_alone`, without the gate.
///
/// Where memory is refused for the list of marks, it lists as many as memory goes, and says `Cut(Memory)`; for the first of them 4 MiB
/// are held while the workers search. The error is want of memory before the root's entry was met, E901.
pub fn explore<P: Space + Sync, R: Threads + Wait + Sync, G: Gate>(
    rt: &R,
    alloc: Global,
    space: &P,
    limits: &Limits,
    workers: usize,
    gate: &G,
) -> Result<Findings<P::State>, NoMemory>
    requires { (1 ≤ workers) × (workers ≤ 64) }
    ensures found { IfOk result (ListsFound (P.rules space.now) limits.now) }
    ensures distinct { IfOk result (λ findings. IsUnique P.State.eq findings.marks) }
    ensures exhausted { IfOk result (ListsAll (P.rules space.now) limits.now) }
    ensures fewest { IfOk result (ListsFewest (P.rules space.now)) }
    ensures steps { IfOk result (TellsSteps (P.rules space.now) limits.now) }
{
    match over::<P, Brand, R, G>(rt, alloc, space, limits, workers, gate)? {
        Some(findings) => Ok(findings),
        None => explore_alone(alloc, space, limits),
    }
}
