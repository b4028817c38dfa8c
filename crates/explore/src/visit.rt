// One job: all choices of one entry.

ghost use Rattle.std.specs.Prelude.{◌≡◌, [], ℕ, ◌+◌, ◌<◌, ◌≤◌, true, false, length, slice_get, Some, IfOk, IfSome, IfNone, OnOk, OnErr};
ghost use Rattle.statebook.specs.ExplorerCore.{choices_of};
ghost use Rattle.statebook.specs.Books.{IsFinished, IsFoundAt};
ghost use Rattle.explore.specs.Inner.Exploring.{AddsFew, AllowsAt, CutsShortAt, GrowsFrom, IsSuccessorOfPlace, IsSameOrAdded, LeadsOnAt, width_limit};
ghost use Rattle.statebook.specs.Inner.Forced.{Follows, IfPast, IfReached, MayBeAdded};
ghost use Rattle.statebook.specs.Ways.{Allows, ChoiceGoesPast};
ghost use Rattle.explore.specs.Inner.Ways.{AllComeTo, AllGoPast, IsSearching, PastFrom};

use crate::collector::{NO_PROGRESS, Nobody};
use crate::next::next_entry;
use crate::search::{Checkpoint, Search};
use crate::ways::remember;
use basis::{NoMemory, OrMemory};
use indexmap::IndexMap;
use sched_core::{Log, Space};
use statebook::{Done, Entry, Limits, Met, PlainBook};
use std::alloc::Global;
use std::hash::Hash;

/// How many choices the entry's budget allows: choice 0, and the others where a departure is left.
pub fn choice_count<P: Space>(space: &P, entry: &Entry<P::State>) -> u32
    ensures { result ≡ choices_of ((P.rules space.now).width entry.now.state) entry.now.budget }
{
    let width = space.width(&entry.state);
    if entry.budget == 0 {
        width.min(1)
    } else {
        width
    }
}

// The place of an entry that dominates this one, itself where none did. The list gets room for it first.
fn place_of_insert<S: Eq + Hash + Drop>(
    book: &mut PlainBook<S>,
    list: &mut IndexMap<S, Log>,
    entry: Entry<S>,
) -> Result<usize, NoMemory>
    ensures found { IfOk result (IsFoundAt S.eq book.new.entries entry) }
    ensures ok { OnOk result (IsSameOrAdded book.old entry book.new) }
    ensures err { OnErr result (book.new ≡ book.old) }
{
    list.reserve(book.len().saturating_add(1))?;
    match book.meet(entry) {
        Ok(Met::New(place)) => Ok(place),
        Ok(Met::Known(place)) => Ok(place),
        Err((refused, _)) => Err(refused),
    }
}

/// Meets the book with the entry, to which the ways from the checkpoints lead, and remembers that of them. Answers with the
/// place of the entry that dominates it.
pub fn insert_reached<P: Space>(
    space: &P,
    limits: &Limits,
    search: &mut Search<P::State>,
    checkpoints: Vec<Checkpoint<P::State>>,
    entry: Entry<P::State>,
) -> Result<usize, NoMemory>
    requires searching { IsSearching (P.rules space.now) limits.now search.old }
    requires allowed { MayBeAdded (P.rules space.now) limits.now entry }
    requires come { AllComeTo (P.rules space.now) checkpoints.items entry }
    ensures found { IfOk result (IsFoundAt P.State.eq search.new.book.entries entry) }
    ensures searching { IsSearching (P.rules space.now) limits.now search.new }
    ensures book { IsSameOrAdded search.old.book entry search.new.book }
{
    let end = entry.steps;
    let place = place_of_insert(&mut search.book, &mut search.list, entry)?;
    remember(search, checkpoints, end, Some(place))?;
    Ok(place)
}

// `next_entry` where nobody stops it.
fn next_unwatched<P: Space>(
    space: &P,
    limits: &Limits,
    search: &Search<P::State>,
    entry: &Entry<P::State>,
    choice: u32,
    checkpoints: &mut Vec<Checkpoint<P::State>>,
) -> Result<Option<Entry<P::State>>, NoMemory>
    requires searching { IsSearching (P.rules space.now) limits.now search.now }
    requires entry { MayBeAdded (P.rules space.now) limits.now entry.now }
    requires choice { Allows (P.rules space.now) entry.now choice }
    requires none_yet { checkpoints.old.items ≡ [] }
    ensures follows { IfReached result (Follows (P.rules space.now) entry.now choice) }
    ensures allowed { IfReached result (MayBeAdded (P.rules space.now) limits.now) }
    ensures past { IfPast result (ChoiceGoesPast (P.rules space.now) limits.now entry.now choice) }
    ensures come { IfReached result (AllComeTo (P.rules space.now) checkpoints.new.items) }
    ensures go_past { IfPast result (AllGoPast (P.rules space.now) checkpoints.new.items limits.now) }
{
    match next_entry(
        space,
        limits,
        search,
        entry,
        choice,
        checkpoints,
        &mut Nobody,
        &NO_PROGRESS,
    ) {
        Ok(next) => Ok(next),
        Err(OrMemory::Memory(refused)) => Err(refused),
        Err(OrMemory::Fault(_)) => unreachable!(),
    }
}

// Meets the book with the next station after the choice, and answers with the place of the entry
// that dominates it; None where the way there takes more steps than the limit.
fn insert_choice<P: Space>(
    alloc: Global,
    space: &P,
    limits: &Limits,
    search: &mut Search<P::State>,
    place: usize,
    choice: u32,
) -> Result<Option<usize>, NoMemory>
    requires searching { IsSearching (P.rules space.now) limits.now search.old }
    requires place { place < length search.old.book.entries }
    requires choice { AllowsAt (P.rules space.now) search.old.book place choice }
    ensures met { IfReached result (IsSuccessorOfPlace (P.rules space.now) search.new.book place choice) }
    ensures past { IfPast result (PastFrom (P.rules space.now) limits.now search.new place choice) }
    ensures searching { IsSearching (P.rules space.now) limits.now search.new }
    ensures grows { GrowsFrom search.old.book search.new.book place }
    ensures few { length search.new.book.entries ≤ length search.old.book.entries + 1 }
{
    let mut checkpoints = Vec::new(alloc);
    let entry = search.book.read(place);
    match next_unwatched(space, limits, search, entry, choice, &mut checkpoints)? {
        Some(next) => {
            let met = insert_reached(space, limits, search, checkpoints, next)?;
            Ok(Some(met))
        }
        None => {
            let end = limits.steps + 1;
            remember(search, checkpoints, end, None)?;
            Ok(None)
        }
    }
}

/// Meets the book with what stands after each choice that the entry's budget allows, and finishes
/// the entry. Answers false where a way took more steps than the limit, and then the entry is
/// left unfinished; the other choices are met all the same.
pub fn visit<P: Space>(
    alloc: Global,
    space: &P,
    limits: &Limits,
    search: &mut Search<P::State>,
    place: usize,
) -> Result<bool, NoMemory>
    requires searching { IsSearching (P.rules space.now) limits.now search.old }
    requires place { place < length search.old.book.entries }
    ensures finished { IfOk result (λ within. within ≡ true → IsFinished search.new.book place) }
    ensures leads { OnOk result (LeadsOnAt (P.rules space.now) limits.now search.new.book place) }
    ensures past { IfOk result (CutsShortAt (P.rules space.now) limits.now search.new.book place) }
    ensures searching { IsSearching (P.rules space.now) limits.now search.new }
    ensures grows { GrowsFrom search.old.book search.new.book place }
    ensures few { AddsFew (P.rules space.now) search.old.book place search.new.book }
    ensures narrow { length search.new.book.entries < length search.old.book.entries + width_limit }
{
    let count = choice_count(space, search.book.read(place));
    let mut next = Vec::new(alloc);
    let mut within = true;
    for choice in 0..count {
        match insert_choice(alloc, space, limits, search, place, choice)? {
            Some(at) => next.push(at)?,
            None => within = false,
        }
    }
    if within {
        let _ = search.book.finish(Done { entry: place, next });
    }
    Ok(within)
}
