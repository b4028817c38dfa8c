// The order of work within a rank: entry by entry, by their departures.

ghost use Rattle.std.specs.Prelude.{◌≡◌, ◌<◌, length, OnOk};
ghost use Rattle.basis.specs.Reasons.{IfFault};
ghost use Rattle.explore.specs.Inner.RankedSearches.{AllAreLedOn, AreLedOnWith, IsLedOn, IsRankedSearch, IsWhy, RankGrows, RankGrowsFrom};

use crate::collector::{Progress, Watcher};
use crate::halt::Halt;
use crate::ranked_search::RankedSearch;
use crate::ranked_visit::visit_entry;
use basis::OrMemory;
use sched_core::Ranked;
use statebook::Limits;
use std::alloc::Global;
use std::hash::Hash;

// How far the search has come; so much was found before.
fn progress_of<S: Eq + Hash>(search: &RankedSearch<S>, found: usize) -> Progress {
    Progress {
        rank: search.current.rank,
        entries_opened: search.opened,
        entries_held: search.held,
        ranks_closed: search.closed,
        found,
    }
}

// Whether a further entry is to be taken.
fn may_go_on<P: Ranked, W: Watcher>(
    space: &P,
    limits: &Limits,
    search: &RankedSearch<P::State>,
    watcher: &mut W,
    progress: &Progress,
) -> Result<(), OrMemory<Halt>>
    requires { IsRankedSearch (P.rules space.now) limits.now (P.ranks space.now) search.now }
    ensures why { IfFault result (IsWhy (P.rules space.now) limits.now (W.stopped watcher.new)) }
{
    if search.opened >= limits.entries as usize {
        return Err(OrMemory::Fault(Halt::Entries));
    }
    if watcher.go_on(progress) {
        Ok(())
    } else {
        Err(OrMemory::Fault(Halt::Stopped))
    }
}

// Takes the entry at the place, where it may be taken: what stands after each of its choices is kept.
fn take_entry<P: Ranked, W: Watcher>(
    alloc: Global,
    space: &P,
    limits: &Limits,
    search: &mut RankedSearch<P::State>,
    found: usize,
    watcher: &mut W,
    place: usize,
) -> Result<(), OrMemory<Halt>>
    requires searching { IsRankedSearch (P.rules space.now) limits.now (P.ranks space.now) search.old }
    requires place { place < length search.old.current.book.entries }
    ensures why { IfFault result (IsWhy (P.rules space.now) limits.now (W.stopped watcher.new)) }
    ensures leads { OnOk result (IsLedOn (P.rules space.now) search.new place) }
    ensures searching { OnOk result
        (IsRankedSearch (P.rules space.now) limits.now (P.ranks space.now) search.new) }
    ensures grows { OnOk result (RankGrowsFrom search.old search.new place) }
{
    let progress = progress_of(search, found);
    may_go_on(space, limits, search, watcher, &progress)?;
    visit_entry(alloc, space, limits, search, place, watcher, &progress)
}

// Visits each entry of the rank with this budget, those that it adds among them.
fn visit_budget<P: Ranked, W: Watcher>(
    alloc: Global,
    space: &P,
    limits: &Limits,
    search: &mut RankedSearch<P::State>,
    found: usize,
    watcher: &mut W,
    budget: u32,
) -> Result<(), OrMemory<Halt>>
    requires { IsRankedSearch (P.rules space.now) limits.now (P.ranks space.now) search.old }
    ensures why { IfFault result (IsWhy (P.rules space.now) limits.now (W.stopped watcher.new)) }
    ensures searching { OnOk result
        (IsRankedSearch (P.rules space.now) limits.now (P.ranks space.now) search.new) }
    ensures grows { OnOk result (RankGrows search.old search.new budget) }
    ensures leads { OnOk result (AreLedOnWith (P.rules space.now) search.new budget) }
{
    let mut place = 0;
    while place < search.current.book.len() {
        if search.current.book.read(place).budget == budget {
            take_entry(alloc, space, limits, search, found, watcher, place)?;
        }
        place += 1;
    }
    Ok(())
}

/// Visits the entries of the rank by their departures, those with none first. So much was found before.
pub fn visit_rank<P: Ranked, W: Watcher>(
    alloc: Global,
    space: &P,
    limits: &Limits,
    search: &mut RankedSearch<P::State>,
    found: usize,
    watcher: &mut W,
) -> Result<(), OrMemory<Halt>>
    requires { IsRankedSearch (P.rules space.now) limits.now (P.ranks space.now) search.old }
    ensures why { IfFault result (IsWhy (P.rules space.now) limits.now (W.stopped watcher.new)) }
    ensures searching { OnOk result
        (IsRankedSearch (P.rules space.now) limits.now (P.ranks space.now) search.new) }
    ensures rank { OnOk result (search.new.current.rank ≡ search.old.current.rank) }
    ensures all { OnOk result (AllAreLedOn (P.rules space.now) search.new) }
{
    for departures in 0..limits.depart + 1 {
        visit_budget(
            alloc,
            space,
            limits,
            search,
            found,
            watcher,
            limits.depart - departures,
        )?;
    }
    Ok(())
}
