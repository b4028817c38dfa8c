// One entry of the rank under way: all its choices.

ghost use Rattle.std.specs.Prelude.{◌≡◌, ◌<◌, ◌≤◌, length, IfOk, OnOk};
ghost use Rattle.basis.specs.Reasons.{IfFault};
ghost use Rattle.statebook.specs.Inner.Forced.{MayBeAdded};
ghost use Rattle.explore.specs.Inner.Exploring.{AllowsAt};
ghost use Rattle.explore.specs.Inner.Ways.{AllComeTo, IsSearching};
ghost use Rattle.explore.specs.Inner.RankedSearches.{AreInOrder, HasDominator, IsHeld, IsLedOn, IsMetAt, IsRankedSearch, IsWhy, Meets, RankGrows, RankGrowsFrom};

use crate::collector::{Progress, Watcher};
use crate::halt::Halt;
use crate::next::next_entry;
use crate::rank_book::{RankBook, keep_later, open_in};
use crate::ranked_search::RankedSearch;
use crate::search::{Checkpoint, Search};
use crate::visit::{choice_count, insert_reached};
use basis::{NoMemory, OrMemory};
use sched_core::Ranked;
use statebook::{Entry, Limits};
use std::alloc::Global;

// Meets the book of the entry's rank, the one under way or one that waits; answers whether it is new there.
fn meet<P: Ranked>(
    alloc: Global,
    space: &P,
    current: &mut RankBook<P::State>,
    later: &mut Vec<RankBook<P::State>>,
    entry: Entry<P::State>,
) -> Result<bool, NoMemory>
    requires { AreInOrder later.old.items }
    ensures ok { IfOk result
        (Meets P.State.eq (P.ranks space.now entry.state) current.old later.old.items entry current.new later.new.items) }
{
    let rank = space.rank(&entry.state);
    if rank == current.rank {
        open_in(current, entry)
    } else {
        keep_later(alloc, later, rank, entry)
    }
}

// Keeps the entry, unless one that dominates it is kept.
fn keep<P: Ranked>(
    alloc: Global,
    space: &P,
    limits: &Limits,
    search: &mut RankedSearch<P::State>,
    entry: Entry<P::State>,
) -> Result<(), NoMemory>
    requires searching { IsRankedSearch (P.rules space.now) limits.now (P.ranks space.now) search.old }
    requires entry { MayBeAdded (P.rules space.now) limits.now entry }
    requires rank { search.old.current.rank ≤ P.ranks space.now entry.state }
    ensures dominated { OnOk result (HasDominator (P.rules space.now).same (IsHeld search.new) entry) }
    ensures searching { OnOk result
        (IsRankedSearch (P.rules space.now) limits.now (P.ranks space.now) search.new) }
    ensures grows { OnOk result (RankGrows search.old search.new entry.budget) }
{
    if meet(alloc, space, &mut search.current, &mut search.later, entry)? {
        search.opened = search.opened.saturating_add(1);
        search.held = search.held.saturating_add(1);
    }
    Ok(())
}

// Remembers that the ways from the checkpoints lead to the entry, under a copy of it.
fn remember_way<P: Ranked>(
    space: &P,
    limits: &Limits,
    known: &mut Search<P::State>,
    checkpoints: Vec<Checkpoint<P::State>>,
    entry: &Entry<P::State>,
) -> Result<(), NoMemory>
    requires searching { IsSearching (P.rules space.now) limits.now known.old }
    requires allowed { MayBeAdded (P.rules space.now) limits.now entry.now }
    requires come { AllComeTo (P.rules space.now) checkpoints.items entry.now }
    ensures { IsSearching (P.rules space.now) limits.now known.new }
{
    if checkpoints.len() > 0 {
        let copy = Entry {
            state: space.copy(&entry.state)?,
            budget: entry.budget,
            log: entry.log.copy()?,
            steps: entry.steps,
        };
        insert_reached(space, limits, known, checkpoints, copy)?;
    }
    Ok(())
}

// Keeps the entry of the next station after the choice. Where the way there takes more steps than the limit, the search
// stops short.
fn keep_choice<P: Ranked, W: Watcher>(
    alloc: Global,
    space: &P,
    limits: &Limits,
    search: &mut RankedSearch<P::State>,
    place: usize,
    choice: u32,
    watcher: &mut W,
    progress: &Progress,
) -> Result<(), OrMemory<Halt>>
    requires searching { IsRankedSearch (P.rules space.now) limits.now (P.ranks space.now) search.old }
    requires place { place < length search.old.current.book.entries }
    requires choice { AllowsAt (P.rules space.now) search.old.current.book place choice }
    ensures why { IfFault result (IsWhy (P.rules space.now) limits.now (W.stopped watcher.new)) }
    ensures met { OnOk result (IsMetAt (P.rules space.now) search.new place choice) }
    ensures searching { OnOk result
        (IsRankedSearch (P.rules space.now) limits.now (P.ranks space.now) search.new) }
    ensures grows { OnOk result (RankGrowsFrom search.old search.new place) }
{
    let mut checkpoints = Vec::new(alloc);
    let entry = search.current.book.read(place);
    match next_entry(
        space,
        limits,
        &search.known,
        entry,
        choice,
        &mut checkpoints,
        watcher,
        progress,
    )? {
        Some(next) => {
            remember_way(space, limits, &mut search.known, checkpoints, &next)?;
            keep(alloc, space, limits, search, next)?;
            Ok(())
        }
        None => Err(OrMemory::Fault(Halt::Steps)),
    }
}

/// Keeps what stands after each choice that the entry's budget allows.
pub fn visit_entry<P: Ranked, W: Watcher>(
    alloc: Global,
    space: &P,
    limits: &Limits,
    search: &mut RankedSearch<P::State>,
    place: usize,
    watcher: &mut W,
    progress: &Progress,
) -> Result<(), OrMemory<Halt>>
    requires searching { IsRankedSearch (P.rules space.now) limits.now (P.ranks space.now) search.old }
    requires place { place < length search.old.current.book.entries }
    ensures why { IfFault result (IsWhy (P.rules space.now) limits.now (W.stopped watcher.new)) }
    ensures leads { OnOk result (IsLedOn (P.rules space.now) search.new place) }
    ensures searching { OnOk result
        (IsRankedSearch (P.rules space.now) limits.now (P.ranks space.now) search.new) }
    ensures grows { OnOk result (RankGrowsFrom search.old search.new place) }
{
    let count = choice_count(space, search.current.book.read(place));
    for choice in 0..count {
        keep_choice(
            alloc, space, limits, search, place, choice, watcher, progress,
        )?;
    }
    Ok(())
}
