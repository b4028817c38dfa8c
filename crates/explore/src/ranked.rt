// The call that goes by rank: it opens the first rank, goes through one after another, and hands on the marks of each.

ghost use Rattle.std.specs.Prelude.{◌≡◌, IfOk, OnErr, OnOk};
ghost use Rattle.basis.specs.Reasons.{IfFault};
ghost use Rattle.basis.specs.declared.memory.OrMemory.TheVariants.{Fault};
ghost use Rattle.explore.specs.Ranked.{HandsOn, StaysAs, TellsOfEntries, TellsOfSteps, TellsOfStop};
ghost use Rattle.explore.specs.Inner.RankedSearches.{AllAreLedOn, GoesFrom, HasClosed, HasHandedOn, IsFollowed, IsRankedSearch, IsWhy, NoneBelow};

use crate::alone::open_search;
use crate::collector::{Collector, Watcher};
use crate::halt::Halt;
use crate::marks::list_marks;
use crate::rank_book::{RankBook, open_in};
use crate::rank_marks::{RankMarks, found_marks};
use crate::ranked_classes::visit_rank;
use crate::ranked_findings::{RankedFindings, RankedReason, RankedStatus};
use crate::ranked_search::RankedSearch;
use basis::{NoMemory, OrMemory};
use sched_core::{Log, Ranked};
use statebook::{Entry, Limits, PlainBook};
use std::alloc::Global;
use std::hash::Hash;

// The search with the root's entry alone.
fn open_ranked<P: Ranked>(
    alloc: Global,
    space: &P,
    limits: &Limits,
) -> Result<RankedSearch<P::State>, NoMemory>
    ensures searching { IfOk result (IsRankedSearch (P.rules space.now) limits.now (P.ranks space.now)) }
    ensures lowest { IfOk result (λ search. NoneBelow (P.rules space.now) (P.ranks space.now) search.current.rank) }
{
    let root = Entry {
        state: space.root()?,
        budget: limits.depart,
        log: Log::new(alloc),
        steps: 0,
    };
    let rank = space.rank(&root.state);
    let book = PlainBook::new(alloc);
    let mut current = RankBook { rank, book };
    open_in(&mut current, root)?;
    let later = Vec::new(alloc);
    let known = open_search(alloc, space, limits)?;
    Ok(RankedSearch {
        current,
        later,
        known,
        opened: 1,
        held: 1,
        closed: 0,
    })
}

// Forgets what is remembered of forced ways.
fn forget_ways<P: Ranked>(
    alloc: Global,
    space: &P,
    limits: &Limits,
    search: &mut RankedSearch<P::State>,
) -> Result<(), NoMemory>
    requires { IsRankedSearch (P.rules space.now) limits.now (P.ranks space.now) search.old }
    ensures searching { IsRankedSearch (P.rules space.now) limits.now (P.ranks space.now) search.new }
    ensures rank { search.new.current.rank ≡ search.old.current.rank }
{
    if search.known.ways.len() > 0 {
        search.known = open_search(alloc, space, limits)?;
    }
    Ok(())
}

// Hands on the marks of the rank, which was gone through.
fn hand_on<P: Ranked, C: Collector<P::State>>(
    alloc: Global,
    space: &P,
    limits: &Limits,
    search: &RankedSearch<P::State>,
    collector: &mut C,
) -> Result<(), NoMemory>
    requires searching { IsRankedSearch (P.rules space.now) limits.now (P.ranks space.now) search.now }
    requires all { AllAreLedOn (P.rules space.now) search.now }
    ensures kept { OnErr result (StaysAs C.collects collector.old collector.new) }
    ensures closed { OnOk result (GoesFrom C.collects
        (HasHandedOn (P.rules space.now) limits.now (P.ranks space.now) search.now.current.rank)
        (HasClosed (P.rules space.now) limits.now (P.ranks space.now) search.now.current.rank)
        collector.old collector.new) }
{
    let listed = list_marks(alloc, space, limits, &search.current.book)?;
    let marks = found_marks(alloc, listed)?;
    let rank = search.current.rank;
    collector.collect(RankMarks { rank, marks })
}

// Goes on to the next rank that has entries. Answers false where there is none.
fn go_on<P: Ranked>(space: &P, limits: &Limits, search: &mut RankedSearch<P::State>) -> bool
    requires searching { IsRankedSearch (P.rules space.now) limits.now (P.ranks space.now) search.old }
    requires all { AllAreLedOn (P.rules space.now) search.old }
    ensures { IsFollowed (P.rules space.now) limits.now (P.ranks space.now) search.old.current.rank search.new result }
{
    match search.later.pop() {
        Some(next) => {
            search.held = search.held.saturating_sub(search.current.book.len());
            search.closed = search.closed.saturating_add(1);
            search.current = next;
            true
        }
        None => false,
    }
}

// Goes through the rank, hands on its marks, and goes on to the next rank. Answers false where there is none.
fn close_rank<P: Ranked, C: Collector<P::State>, W: Watcher>(
    alloc: Global,
    space: &P,
    limits: &Limits,
    search: &mut RankedSearch<P::State>,
    collector: &mut C,
    watcher: &mut W,
) -> Result<bool, OrMemory<Halt>>
    requires searching { IsRankedSearch (P.rules space.now) limits.now (P.ranks space.now) search.old }
    ensures why { IfFault result (IsWhy (P.rules space.now) limits.now (W.stopped watcher.new)) }
    ensures kept { OnErr result (StaysAs C.collects collector.old collector.new) }
    ensures closed { OnOk result (GoesFrom C.collects
        (HasHandedOn (P.rules space.now) limits.now (P.ranks space.now) search.old.current.rank)
        (HasClosed (P.rules space.now) limits.now (P.ranks space.now) search.old.current.rank)
        collector.old collector.new) }
    ensures followed { IfOk result
        (IsFollowed (P.rules space.now) limits.now (P.ranks space.now) search.old.current.rank search.new) }
{
    forget_ways(alloc, space, limits, search)?;
    let found = collector.found_count();
    visit_rank(alloc, space, limits, search, found, watcher)?;
    hand_on(alloc, space, limits, search, collector)?;
    Ok(go_on(space, limits, search))
}

// The reason that is told.
fn reason_of(halt: OrMemory<Halt>) -> RankedReason
    ensures entries { result ≡ RankedReason.Entries → halt ≡ Fault Halt.Entries }
    ensures steps { result ≡ RankedReason.Steps → halt ≡ Fault Halt.Steps }
    ensures stopped { result ≡ RankedReason.Stopped → halt ≡ Fault Halt.Stopped }
{
    match halt {
        OrMemory::Fault(Halt::Entries) => RankedReason::Entries,
        OrMemory::Fault(Halt::Steps) => RankedReason::Steps,
        OrMemory::Fault(Halt::Stopped) => RankedReason::Stopped,
        OrMemory::Memory(refused) => RankedReason::Memory(refused),
    }
}

// The rank under way.
fn rank_of<S: Eq + Hash>(search: &RankedSearch<S>) -> u64
    ensures { result ≡ search.now.current.rank }
{
    search.current.rank
}

// Goes through one rank after another, from the search's own on.
fn go_through<P: Ranked, C: Collector<P::State>, W: Watcher>(
    alloc: Global,
    space: &P,
    limits: &Limits,
    mut search: RankedSearch<P::State>,
    collector: &mut C,
    watcher: &mut W,
) -> RankedFindings
    requires searching { IsRankedSearch (P.rules space.now) limits.now (P.ranks space.now) search }
    requires lowest { NoneBelow (P.rules space.now) (P.ranks space.now) search.current.rank }
    ensures handed { HandsOn (P.rules space.now) limits.now (P.ranks space.now)
        (λ closings. C.collects collector.old closings collector.new) result }
    ensures entries { TellsOfEntries (P.rules space.now) limits.now result }
    ensures steps { TellsOfSteps (P.rules space.now) limits.now result }
    ensures stopped { TellsOfStop (W.stopped watcher.new) result }
{
    let mut closed = None;
    loop {
        let rank = rank_of(&search);
        match close_rank(alloc, space, limits, &mut search, collector, watcher) {
            Ok(true) => closed = Some(rank),
            Ok(false) => {
                return RankedFindings {
                    status: RankedStatus::Exhausted,
                    closed: Some(rank),
                };
            }
            Err(halt) => {
                return RankedFindings {
                    status: RankedStatus::Cut(reason_of(halt)),
                    closed,
                };
            }
        }
    }
}

/// Explores the space rank by rank, on the caller's own thread: every run of at most `limits.depart` departures
/// from choice 0. Once a rank was gone through, its marks are handed to the collector, each with a log of the
/// fewest departures, and its entries are forgotten. The watcher is asked before each entry that is taken.
///
/// Proved: each mark that was handed on is reached under its log, by a run within both limits, and no run at all
/// that reaches it has fewer departures than its log. Each rank was handed on once, a lower one before a higher, and
/// none beyond the rank `closed`. However the search ended, every mark of that rank or a lower one that a run of at
/// most `limits.depart` departures reaches was handed on, after however many steps; where the status is `Exhausted`,
/// that is so of every mark. Where it is `Cut(Entries)`, there are at least
/// `limits.entries` entries; where `Cut(Steps)`, some run of at most `limits.depart` departures takes more than
/// `limits.steps` steps; where `Cut(Stopped)`, the watcher said so. A rank in which some way takes more steps than the limit
/// isn't closed.
///
/// Want of memory, the collector's too, cuts the search as the limits do.
pub fn explore_ranked<P: Ranked, C: Collector<P::State>, W: Watcher>(
    alloc: Global,
    space: &P,
    limits: &Limits,
    collector: &mut C,
    watcher: &mut W,
) -> RankedFindings
    ensures handed { HandsOn (P.rules space.now) limits.now (P.ranks space.now)
        (λ closings. C.collects collector.old closings collector.new) result }
    ensures entries { TellsOfEntries (P.rules space.now) limits.now result }
    ensures steps { TellsOfSteps (P.rules space.now) limits.now result }
    ensures stopped { TellsOfStop (W.stopped watcher.new) result }
{
    match open_ranked(alloc, space, limits) {
        Ok(search) => go_through(alloc, space, limits, search, collector, watcher),
        Err(refused) => RankedFindings {
            status: RankedStatus::Cut(RankedReason::Memory(refused)),
            closed: None,
        },
    }
}
