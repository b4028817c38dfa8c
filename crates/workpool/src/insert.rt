// One meeting of a worker with the book, and how it comes by its next job.

ghost use Rattle.std.specs.Prelude.{◌≡◌, IfErr, IfNone, IfOk, IfSome};
ghost use Rattle.statebook.specs.Books.{Dominates};
ghost use Rattle.shardbook.specs.EntryRules.{IsWanted};
ghost use Rattle.workpool.specs.Inner.Works.{IsCounted, IsSamePlace, IsSeated, StaysCounted};

use crate::tally::Tally;
use crate::work::Work;
use basis::NoMemory;
use shardbook::{Book, BookIdentity, Met, SearchParameters, Seen};
use statebook::Entry;
use std::alloc::Global;
use std::hash::Hash;
use std::sync::Wait;

// The growth that is always refused: one past all memory.
fn refused_growth(alloc: Global) -> NoMemory {
    let mut bytes: Vec<u8> = Vec::new(alloc);
    match bytes.reserve(usize::MAX) {
        Ok(()) => unreachable!(),
        Err(refused) => NoMemory::from(refused),
    }
}

// Meets the book with an entry, and answers with what shows one that dominates it, itself where none
// did. A New answer is counted as an open, and its place is given as a job. Where the deque can't grow
// for it, that job is lost: want of memory is kept, and all workers are told to stop.
pub(crate) fn insert<S: Eq + Hash + Drop, Q: SearchParameters<S>, B: BookIdentity, R: Wait>(
    alloc: Global,
    rt: &R,
    book: &Book<S, Q, B>,
    tally: &Tally,
    work: &mut Work<B>,
    entry: Entry<S>,
) -> Result<Seen<S, Q, B>, NoMemory>
    requires wanted { IsWanted Q.rules Q.depart Q.steps entry }
    requires seated { IsSeated tally.now work.old }
    ensures found { IfOk result (λ seen. Dominates S.eq seen.entry entry.state entry.budget) }
    ensures counted { StaysCounted work.old work.new }
    ensures same { IsSamePlace work.old work.new }
    ensures past { work.new.past ≡ work.old.past }
    ensures refused { IfErr result (λ _. work.new.tally ≡ work.old.tally) }
{
    let seen = match book.meet(rt, &mut work.pass, entry) {
        Ok(Met::New(seen)) => seen,
        Ok(Met::Known(seen)) => return Ok(seen),
        Err((refused, _)) => return Err(refused),
    };
    tally.open(&mut work.tally);
    match work.seat.owner.put(seen.place() as u64) {
        Ok(()) => work.given = work.given.wrapping_add(1),
        Err(_) => {
            work.refused = Some(refused_growth(alloc));
            tally.stop(&mut work.tally);
        }
    }
    Ok(seen)
}

// Takes the job that the worker gave last; else, where it steals, one that another gave.
pub(crate) fn next_job<B: BookIdentity>(work: &mut Work<B>) -> Option<u64>
    requires { IsCounted 0 work.old }
    ensures some { IfSome result (λ job. IsCounted 1 work.new) }
    ensures none { IfNone result (IsCounted 0 work.new) }
    ensures same { IsSamePlace work.old work.new }
    ensures past { work.new.past ≡ work.old.past }
{
    let mut job = work.seat.owner.take();
    if job.is_none() && work.steals {
        job = work.seat.thief.steal();
    }
    if job.is_some() {
        work.taken = work.taken.wrapping_add(1);
    }
    job
}
