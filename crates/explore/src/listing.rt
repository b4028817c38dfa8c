// The list of marks, read from entries that were seen in a book that workers share.

ghost use Rattle.std.specs.Prelude.{◌≡◌, true, false, length, IfOk, OnOk};
ghost use Rattle.indexmap.specs.IndexMap.{IsUnique};
ghost use Rattle.shardbook.specs.StoredEntries.{entries_of};
ghost use Rattle.workpool.specs.Searches.{AreParametersOf};
ghost use Rattle.explore.specs.Found.{AreFound};
ghost use Rattle.statebook.specs.Inner.Forced.{MayBeAdded};
ghost use Rattle.explore.specs.Inner.Listing.{AreLong, IsShort, KeepsListed, ListsEach, ListsEntry};

use crate::marks::note;
use basis::NoMemory;
use indexmap::IndexMap;
use sched_core::{Log, Space};
use shardbook::{Book, BookIdentity, SearchParameters, Seen};
use statebook::{Entry, Limits};
use std::alloc::Global;
use std::hash::Hash;

// Whether the state is listed under a log of at most so many departures.
fn is_short<S: Eq + Hash>(marks: &IndexMap<S, Log>, state: &S, departures: usize) -> bool
    requires { IsUnique S.eq marks.now }
    ensures short { result ≡ true → IsShort S.eq marks.now.entries state.now departures }
    ensures long { result ≡ false → AreLong S.eq marks.now.entries state.now departures }
{
    match marks.get(state) {
        Some(log) => log.members().len() <= departures,
        None => false,
    }
}

// Lists the mark that the entry stands at, if it is one: under the entry's log, unless it is listed
// under one with no more departures.
fn list_entry<P: Space>(
    space: &P,
    limits: &Limits,
    marks: &mut IndexMap<P::State, Log>,
    entry: &Entry<P::State>,
) -> Result<(), NoMemory>
    requires allowed { MayBeAdded (P.rules space.now) limits.now entry.now }
    requires found { AreFound (P.rules space.now) limits.now marks.old.entries }
    requires distinct { IsUnique P.State.eq marks.old }
    ensures found { AreFound (P.rules space.now) limits.now marks.new.entries }
    ensures listed { OnOk result (ListsEntry (P.rules space.now) marks.new.entries entry.now) }
    ensures kept { OnOk result
        (KeepsListed (P.rules space.now) marks.old.entries marks.new.entries) }
    ensures distinct { IsUnique P.State.eq marks.new }
{
    if !space.is_mark(&entry.state) {
        return Ok(());
    }
    if is_short(marks, &entry.state, entry.log.members().len()) {
        return Ok(());
    }
    note(marks, space.copy(&entry.state)?, entry.log.copy()?)
}

/// The marks that the entries stand at that were seen, each once, under the log of an entry of the
/// greatest budget. The entries may stand in any order.
pub fn list_seen<P: Space, Q: SearchParameters<P::State>, B: BookIdentity>(
    alloc: Global,
    space: &P,
    limits: &Limits,
    book: &Book<P::State, Q, B>,
    all: &[Seen<P::State, Q, B>],
) -> Result<IndexMap<P::State, Log>, NoMemory>
    requires { AreParametersOf Q.rules Q.depart Q.steps (P.rules space.now) limits.now }
    ensures found { IfOk result (λ marks. AreFound (P.rules space.now) limits.now marks.entries) }
    ensures each { IfOk result (λ marks.
        ListsEach (P.rules space.now) (entries_of all.now) marks.entries) }
    ensures distinct { IfOk result (λ marks. IsUnique P.State.eq marks) }
{
    let mut marks = IndexMap::new(alloc);
    for seen in all {
        list_entry(space, limits, &mut marks, book.read(seen))?;
    }
    Ok(marks)
}

/// The marks that the entries of the first places stand at, each once, at most so many places and as far as memory goes: what stands
/// behind a refused growth is left out.
pub fn list_met<P: Space, Q: SearchParameters<P::State>, B: BookIdentity>(
    alloc: Global,
    space: &P,
    limits: &Limits,
    book: &Book<P::State, Q, B>,
    count: u64,
) -> IndexMap<P::State, Log>
    requires { AreParametersOf Q.rules Q.depart Q.steps (P.rules space.now) limits.now }
    ensures found { AreFound (P.rules space.now) limits.now result.entries }
    ensures distinct { IsUnique P.State.eq result }
{
    let mut marks = IndexMap::new(alloc);
    for place in 0..count as usize {
        let Some(seen) = book.at(place) else {
            continue;
        };
        match list_entry(space, limits, &mut marks, book.read(&seen)) {
            Ok(()) => {}
            Err(_) => return marks,
        }
    }
    marks
}
