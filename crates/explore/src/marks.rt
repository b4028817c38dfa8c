// The list of marks, read from the book.

ghost use Rattle.std.specs.Prelude.{◌≡◌, length, IfOk, OnErr, OnOk};
ghost use Rattle.indexmap.specs.IndexMap.{IsUnique, insert_entry};
ghost use Rattle.explore.specs.Found.{AreFound};
ghost use Rattle.explore.specs.BookFindings.{ListsExactly};
ghost use Rattle.explore.specs.Inner.Exploring.{AreEntries};
ghost use Rattle.statebook.specs.Books.{IsUndominated};

use basis::NoMemory;
use indexmap::IndexMap;
use sched_core::{Log, Space};
use statebook::{Entry, Limits, PlainBook};
use std::alloc::Global;
use std::hash::Hash;

/// Notes the mark under its log, in place of the log that was noted before.
pub fn note<S: Eq + Hash + Drop>(
    marks: &mut IndexMap<S, Log>,
    state: S,
    log: Log,
) -> Result<(), NoMemory>
    ensures put { OnOk result (marks.new.entries ≡ insert_entry S.eq marks.old.entries state log) }
    ensures kept { OnErr result (marks.new.entries ≡ marks.old.entries) }
    ensures distinct { IsUnique S.eq marks.new }
{
    marks.insert(state, log)?;
    Ok(())
}

/// The marks that the book's entries stand at, as `list_marks` lists them. They come into the list that is given, whose own are let
/// go; the entries are let go one by one. So where the list has room for as many as there are entries, no memory is taken.
pub fn into_marks<P: Space>(
    space: &P,
    limits: &Limits,
    book: PlainBook<P::State>,
    list: IndexMap<P::State, Log>,
) -> Result<IndexMap<P::State, Log>, NoMemory>
    requires { AreEntries (P.rules space.now) limits.now book }
    ensures found { IfOk result (λ marks. AreFound (P.rules space.now) limits.now marks.entries) }
    ensures read { IfOk result (λ marks. ListsExactly (P.rules space.now) book marks.entries) }
    ensures distinct { IfOk result (λ marks. IsUnique P.State.eq marks) }
    ensures paired { length book.finished ≡ length book.entries }
    ensures apart { IsUndominated P.State.eq book.entries }
{
    let mut marks = list;
    marks.clear();
    for entry in book.into_entries() {
        let Entry { state, log, .. } = entry;
        if space.is_mark(&state) {
            note(&mut marks, state, log)?;
        }
    }
    Ok(marks)
}

/// The marks that the book's entries stand at, each once. Of entries of equal states a later one
/// has a greater budget, so its log, which has fewer departures, takes the place of an earlier's.
pub fn list_marks<P: Space>(
    alloc: Global,
    space: &P,
    limits: &Limits,
    book: &PlainBook<P::State>,
) -> Result<IndexMap<P::State, Log>, NoMemory>
    requires { AreEntries (P.rules space.now) limits.now book.now }
    ensures found { IfOk result (λ marks. AreFound (P.rules space.now) limits.now marks.entries) }
    ensures read { IfOk result (λ marks. ListsExactly (P.rules space.now) book.now marks.entries) }
    ensures distinct { IfOk result (λ marks. IsUnique P.State.eq marks) }
{
    let mut marks = IndexMap::new(alloc);
    for place in 0..book.len() {
        let entry = book.read(place);
        if space.is_mark(&entry.state) {
            note(&mut marks, space.copy(&entry.state)?, entry.log.copy()?)?;
        }
    }
    Ok(marks)
}
