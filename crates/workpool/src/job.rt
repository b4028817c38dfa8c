// One job: all choices of one entry.

ghost use Rattle.std.specs.Prelude.{◌≡◌};
ghost use Rattle.statebook.specs.ExplorerCore.{choices_of};
ghost use Rattle.shardbook.specs.Finishes.{HasAllSuccessors, IsSuccessor};
ghost use Rattle.shardbook.specs.StoredEntries.{entries_of};
ghost use Rattle.workpool.specs.Searches.{AreParametersOf};
ghost use Rattle.statebook.specs.Ways.{Allows, ChoiceGoesPast, SomeRunExceeds};
ghost use Rattle.statebook.specs.Inner.Forced.{IfPast, IfReached, IsFirst, MayBeAdded};
ghost use Rattle.workpool.specs.Inner.Works.{IsCounted, IsSamePlace, IsSeated, StaysCounted, TellsPast};

use crate::insert::insert;
use crate::tally::Tally;
use crate::work::Work;
use basis::NoMemory;
use sched_core::Space;
use shardbook::{Book, BookIdentity, Done, SearchParameters, Seen};
use statebook::{Entry, Limits, next_entry};
use std::alloc::Global;
use std::sync::Wait;

// How many choices the entry's budget allows: choice 0, and the others where a departure is left.
fn choice_count<P: Space>(space: &P, entry: &Entry<P::State>) -> u32
    ensures { result ≡ choices_of ((P.rules space.now).width entry.now.state) entry.now.budget }
{
    let width = space.width(&entry.state);
    if entry.budget == 0 {
        width.min(1)
    } else {
        width
    }
}

// Meets the book with the next station after the choice, and answers with what shows an entry that
// dominates it; None where the way there takes more steps than the limit.
fn insert_choice<P: Space, Q: SearchParameters<P::State>, B: BookIdentity, R: Wait>(
    alloc: Global,
    rt: &R,
    space: &P,
    limits: &Limits,
    book: &Book<P::State, Q, B>,
    tally: &Tally,
    root: &P::State,
    work: &mut Work<B>,
    entry: &Entry<P::State>,
    choice: u32,
) -> Result<Option<Seen<P::State, Q, B>>, NoMemory>
    requires parameters { AreParametersOf Q.rules Q.depart Q.steps (P.rules space.now) limits.now }
    requires root { IsFirst (P.rules space.now) root.now }
    requires entry { MayBeAdded (P.rules space.now) limits.now entry.now }
    requires choice { Allows (P.rules space.now) entry.now choice }
    requires seated { IsSeated tally.now work.old }
    ensures met { IfReached result (λ seen.
        IsSuccessor (P.rules space.now) entry.now choice seen.entry) }
    ensures past { IfPast result (ChoiceGoesPast (P.rules space.now) limits.now entry.now choice) }
    ensures counted { StaysCounted work.old work.new }
    ensures same { IsSamePlace work.old work.new }
    ensures noted { work.new.past ≡ work.old.past }
{
    match next_entry(space, limits, root, entry, choice)? {
        Some(next) => Ok(Some(insert(alloc, rt, book, tally, work, next)?)),
        None => Ok(None),
    }
}

// Meets the book with what stands after each choice that the entry's budget allows, and answers with
// what was met, in order; None where a way took more steps than the limit, and then the other choices
// are met all the same. The last choice is met first, so that the job of choice 0, which keeps the
// budget, is put last and taken first: else most entries would be met with a low budget before a
// greater one.
fn insert_all<P: Space, Q: SearchParameters<P::State>, B: BookIdentity, R: Wait>(
    alloc: Global,
    rt: &R,
    space: &P,
    limits: &Limits,
    book: &Book<P::State, Q, B>,
    tally: &Tally,
    root: &P::State,
    work: &mut Work<B>,
    entry: &Entry<P::State>,
) -> Result<Option<Vec<Seen<P::State, Q, B>>>, NoMemory>
    requires parameters { AreParametersOf Q.rules Q.depart Q.steps (P.rules space.now) limits.now }
    requires root { IsFirst (P.rules space.now) root.now }
    requires entry { MayBeAdded (P.rules space.now) limits.now entry.now }
    requires seated { IsSeated tally.now work.old }
    ensures met { IfReached result (λ all.
        HasAllSuccessors (P.rules space.now) entry.now (entries_of all.items)) }
    ensures past { IfPast result (SomeRunExceeds (P.rules space.now) limits.now) }
    ensures counted { StaysCounted work.old work.new }
    ensures same { IsSamePlace work.old work.new }
    ensures noted { work.new.past ≡ work.old.past }
{
    let count = choice_count(space, entry);
    let mut next = Vec::with_capacity(alloc, count as usize)?;
    let mut within = true;
    for met in 0..count {
        let choice = count - 1 - met;
        match insert_choice(
            alloc, rt, space, limits, book, tally, root, work, entry, choice,
        )? {
            Some(seen) => next.push_reserved(seen),
            None => within = false,
        }
    }
    next.reverse();
    Ok(if within { Some(next) } else { None })
}

// Runs the job at the place: it meets the book with what stands after each choice of the entry there,
// and finishes the entry. Where a way took more steps than the limit the entry is left unfinished, and
// that is noted; where memory was refused, all workers are told to stop.
pub(crate) fn run_job<P: Space, Q: SearchParameters<P::State>, B: BookIdentity, R: Wait>(
    alloc: Global,
    rt: &R,
    space: &P,
    limits: &Limits,
    book: &Book<P::State, Q, B>,
    tally: &Tally,
    root: &P::State,
    work: &mut Work<B>,
    job: u64,
)
    requires parameters { AreParametersOf Q.rules Q.depart Q.steps (P.rules space.now) limits.now }
    requires root { IsFirst (P.rules space.now) root.now }
    requires seated { IsSeated tally.now work.old }
    requires counted { IsCounted 1 work.old }
    requires told { TellsPast (P.rules space.now) limits.now work.old.past }
    ensures counted { IsCounted 0 work.new }
    ensures same { IsSamePlace work.old work.new }
    ensures told { TellsPast (P.rules space.now) limits.now work.new.past }
{
    if let Some(seen) = book.at(job as usize) {
        let entry = book.read(&seen);
        match insert_all(alloc, rt, space, limits, book, tally, root, work, entry) {
            Ok(Some(next)) => {
                let _ = book.finish(Done::new(seen, next));
            }
            Ok(None) => work.past = true,
            Err(refused) => {
                work.refused = Some(refused);
                tally.stop(&mut work.tally);
            }
        }
    }
    tally.shut(&mut work.tally);
}
