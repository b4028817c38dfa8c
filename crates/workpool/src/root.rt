// The root's entry, with which a search begins.

ghost use Rattle.std.specs.Prelude.{◌≡◌, IfErr, IfNone, IfOk, IfSome};
ghost use Rattle.workpool.specs.Searches.{AreParametersOf, IsRootOf, SomeRunComesBack};
ghost use Rattle.statebook.specs.Inner.Forced.{IsFirst};
ghost use Rattle.workpool.specs.Inner.Works.{IsSamePlace, IsSeated, StaysCounted};

use crate::insert::insert;
use crate::tally::Tally;
use crate::work::Work;
use basis::NoMemory;
use sched_core::{Log, Space};
use shardbook::{Book, BookIdentity, SearchParameters, Seen};
use statebook::{Entry, Limits};
use std::alloc::Global;
use std::sync::Wait;

// Meets the book with the root's entry, and answers with what shows one of an equal state.
pub(crate) fn insert_root<P: Space, Q: SearchParameters<P::State>, B: BookIdentity, R: Wait>(
    alloc: Global,
    rt: &R,
    space: &P,
    limits: &Limits,
    book: &Book<P::State, Q, B>,
    tally: &Tally,
    work: &mut Work<B>,
) -> Result<Seen<P::State, Q, B>, NoMemory>
    requires parameters { AreParametersOf Q.rules Q.depart Q.steps (P.rules space.now) limits.now }
    requires seated { IsSeated tally.now work.old }
    ensures first { IfOk result (λ seen. IsFirst (P.rules space.now) seen.entry.state) }
    ensures counted { StaysCounted work.old work.new }
    ensures same { IsSamePlace work.old work.new }
    ensures past { work.new.past ≡ work.old.past }
    ensures refused { IfErr result (λ _. work.new.tally ≡ work.old.tally) }
{
    let entry = Entry {
        state: space.root()?,
        budget: limits.depart,
        log: Log::new(alloc),
        steps: 0,
    };
    insert(alloc, rt, book, tally, work, entry)
}

// What shows the root's entry, if this does: an entry of an equal state that a run comes back to isn't
// the root's.
pub(crate) fn root_of<P: Space, Q: SearchParameters<P::State>, B: BookIdentity>(
    space: &P,
    limits: &Limits,
    book: &Book<P::State, Q, B>,
    seen: Seen<P::State, Q, B>,
) -> Option<Seen<P::State, Q, B>>
    requires parameters { AreParametersOf Q.rules Q.depart Q.steps (P.rules space.now) limits.now }
    requires first { IsFirst (P.rules space.now) seen.entry.state }
    ensures root { IfSome result (λ seen. IsRootOf (P.rules space.now) limits.now seen.entry) }
    ensures none { IfNone result (SomeRunComesBack (P.rules space.now) limits.now) }
{
    if book.read(&seen).steps == 0 {
        Some(seen)
    } else {
        None
    }
}
