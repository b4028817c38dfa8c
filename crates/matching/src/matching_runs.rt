// The call: it goes from one time to the next, at which the reference shows something else or a run's next slot comes.

ghost use Rattle.std.specs.Prelude.{◌≡◌, [], length, IfOk, IfSome, IfNone, OnOk};
ghost use Rattle.basis.specs.Reasons.{IfFault};
ghost use Rattle.basis.specs.declared.memory.OrMemory.TheVariants.{Fault};
ghost use Rattle.explore.specs.declared.ranked_findings.RankedReason.{RankedReason};
ghost use Rattle.matching.specs.Explained.{EndsSlots};
ghost use Rattle.matching.specs.Answers.{TellsOfEntries, TellsOfSteps, TellsOfStop};
ghost use Rattle.matching.specs.Answers.{ClosesTo, Explains, IfCut, IfExplained, IfUnexplained, Refutes};
ghost use Rattle.matching.specs.Inner.Candidates.{AreWays, EndsNear, FollowAll, Follows, IsAWay, IsKept};
ghost use Rattle.matching.specs.Inner.Candidates.{IsShortest, IsWaiting, KeepsFollowing, NearFrom, NearFromSome, Waits, WaitsNear};
ghost use Rattle.matching.specs.Inner.Searching.{AddsNear, AreNear, Extends, IsOneOfBoth, IsOpening, IsOver, IsReason};
ghost use Rattle.matching.specs.Inner.Searching.{IsSearch, IsWanted, OpensWith};

use crate::answer::{Cut, Explanation, Matching, Unexplained};
use crate::candidates::{Way, earliest, keep, shortest};
use crate::halt::{Halt, reason_of};
use crate::reading::{read_at, read_to};
use crate::reference::Reference;
use crate::search::{Nearest, Search, is_nearer};
use crate::slot::{SlotStart, search_slot};
use basis::{NoMemory, OrMemory};
use explore::Watcher;
use indexmap::IndexMap;
use sched_core::{Log, Ranked};
use statebook::Limits;
use std::alloc::Global;
use std::hash::Hash;

// A candidate whose next slot hasn't come, or that has none: it is kept where nothing differs, else it may be the nearest.
fn wait<P: Ranked, R: Reference<P::State>>(
    space: &P,
    limits: &Limits,
    reference: &R,
    search: &mut Search<P::State>,
    state: P::State,
    way: Way<P::State>,
) -> Result<(), OrMemory<Halt>>
    requires way { IsAWay (P.rules space.now) (P.ranks space.now) (state, way) }
    requires waiting { IsWaiting search.old.time way }
    requires search { IsSearch P.State.eq (P.rules space.now) (P.ranks space.now) search.old }
    ensures search { OnOk result (IsSearch P.State.eq (P.rules space.now) (P.ranks space.now) search.new) }
    ensures extends { OnOk result (Extends (P.rules space.now)
        (Waits (P.rules space.now) (R.piece reference.now).differ search.old.time (state, way)) search.old search.new) }
    ensures kept { OnOk result ((R.piece reference.now).differ state ≡ 0 →
        IsKept (P.rules space.now) search.new.candidates.entries state (length way.log)) }
    ensures near { OnOk result (AddsNear (WaitsNear search.old.time (state, way)) search.old search.new) }
    ensures reason { IfFault result (IsReason (P.rules space.now) limits.now) }
    ensures why { IfFault result (λ halt. halt ≡ Halt.Stopped → ⊥) }
{
    let differences = reference.count_differences(&state);
    if differences == 0 {
        return keep(space, limits, &mut search.candidates, state, way);
    }
    let Way { log, steps, .. } = way;
    let run = Explanation { state, log, steps };
    if is_nearer(&search.waiting, differences) {
        search.waiting = Some(Nearest { differences, run });
    }
    Ok(())
}

// What follows at the time of the search from a candidate of the time before.
fn follow<P: Ranked, R: Reference<P::State>, W: Watcher>(
    alloc: Global,
    space: &P,
    limits: &Limits,
    reference: &R,
    watcher: &mut W,
    search: &mut Search<P::State>,
    state: P::State,
    way: Way<P::State>,
) -> Result<(), OrMemory<Halt>>
    requires way { IsAWay (P.rules space.now) (P.ranks space.now) (state, way) }
    requires lawful { EndsSlots (P.rules space.now) (P.ranks space.now) }
    requires search { IsSearch P.State.eq (P.rules space.now) (P.ranks space.now) search.old }
    ensures search { OnOk result (IsSearch P.State.eq (P.rules space.now) (P.ranks space.now) search.new) }
    ensures extends { OnOk result (Extends (P.rules space.now)
        (Follows (P.rules space.now) (P.ranks space.now) (R.piece reference.now).differ limits.now.depart search.old.time (state, way))
        search.old search.new) }
    ensures follows { OnOk result
        (KeepsFollowing (P.rules space.now) (R.piece reference.now).differ limits.now.depart search.old.time (state, way)
        search.new.candidates.entries) }
    ensures near { OnOk result
        (AddsNear (NearFrom (P.rules space.now) limits.now.depart search.old.time (state, way)) search.old search.new) }
    ensures reason { IfFault result (IsReason (P.rules space.now) limits.now) }
    ensures stopped { IfFault result (λ halt. halt ≡ Halt.Stopped → W.stopped watcher.new) }
{
    let Way { log, steps, next } = way;
    match next {
        Some(next) if next.rank <= search.time => match steps.checked_add(1) {
            Some(steps) => {
                let start = SlotStart {
                    state: next.state,
                    log,
                    steps,
                };
                search_slot(alloc, space, limits, reference, watcher, search, &start)
            }
            None => Err(OrMemory::Fault(Halt::Steps)),
        },
        next => wait(
            space,
            limits,
            reference,
            search,
            state,
            Way { log, steps, next },
        ),
    }
}

// Goes on to the time, the earliest at which something new is shown or a candidate's next slot comes.
fn go_to<P: Ranked, R: Reference<P::State>, W: Watcher>(
    alloc: Global,
    space: &P,
    limits: &Limits,
    reference: &R,
    watcher: &mut W,
    before: Search<P::State>,
    time: u64,
) -> Result<Search<P::State>, OrMemory<Halt>>
    requires ways { AreWays (P.rules space.now) (P.ranks space.now) before.candidates.entries }
    requires lawful { EndsSlots (P.rules space.now) (P.ranks space.now) }
    ensures search { IfOk result (IsSearch P.State.eq (P.rules space.now) (P.ranks space.now)) }
    ensures time { IfOk result (λ search. search.time ≡ time) }
    ensures follow { IfOk result (λ search.
        FollowAll (P.rules space.now) (P.ranks space.now) (R.piece reference.now).differ limits.now.depart time
        before.candidates.entries search.candidates.entries) }
    ensures near { IfOk result (λ search. AreNear
        (NearFromSome (P.rules space.now) limits.now.depart time before.candidates.entries) search.ending search.waiting) }
    ensures reason { IfFault result (IsReason (P.rules space.now) limits.now) }
    ensures stopped { IfFault result (λ halt. halt ≡ Halt.Stopped → W.stopped watcher.new) }
{
    let mut search = Search {
        time,
        candidates: IndexMap::new(alloc),
        ending: None,
        waiting: None,
    };
    for (state, way) in before.candidates {
        follow(
            alloc,
            space,
            limits,
            reference,
            watcher,
            &mut search,
            state,
            way,
        )?;
    }
    Ok(search)
}

// Where runs open.
fn opening<P: Ranked>(alloc: Global, space: &P) -> Result<SlotStart<P::State>, NoMemory>
    ensures { IfOk result (IsOpening (P.rules space.now)) }
{
    Ok(SlotStart {
        state: space.root()?,
        log: Log::new(alloc),
        steps: 0,
    })
}

// The search of the slot with which runs open.
fn first_slot<P: Ranked, R: Reference<P::State>, W: Watcher>(
    alloc: Global,
    space: &P,
    limits: &Limits,
    reference: &R,
    watcher: &mut W,
    start: &SlotStart<P::State>,
    time: u64,
) -> Result<Search<P::State>, OrMemory<Halt>>
    requires { IsOpening (P.rules space.now) start.now }
    ensures search { IfOk result (IsSearch P.State.eq (P.rules space.now) (P.ranks space.now)) }
    ensures time { IfOk result (λ search. search.time ≡ time) }
    ensures opens { IfOk result (λ search.
        OpensWith (P.rules space.now) (P.ranks space.now) (R.piece reference.now).differ limits.now.depart start.now
        search.candidates.entries) }
    ensures near { IfOk result (λ search. AreNear
        (EndsNear (P.rules space.now) limits.now.depart start.now) search.ending search.waiting) }
    ensures reason { IfFault result (IsReason (P.rules space.now) limits.now) }
    ensures stopped { IfFault result (λ halt. halt ≡ Halt.Stopped → W.stopped watcher.new) }
{
    let mut search = Search {
        time,
        candidates: IndexMap::new(alloc),
        ending: None,
        waiting: None,
    };
    search_slot(alloc, space, limits, reference, watcher, &mut search, start)?;
    Ok(search)
}

// The time of the next piece, where there are candidates that it may be shown to.
fn wanted_time<S: Eq + Hash>(search: &Search<S>, upcoming: Option<u64>) -> Option<u64>
    ensures wanted { IfSome result (IsWanted upcoming search.now.candidates.entries) }
    ensures over { IfNone result (IsOver upcoming search.now.candidates.entries) }
{
    if search.candidates.len() == 0 {
        return None;
    }
    upcoming
}

// The run that differs least.
fn nearest_of<S: Drop>(
    ending: Option<Nearest<S>>,
    waiting: Option<Nearest<S>>,
) -> Option<Explanation<S>>
    ensures { IfSome result (IsOneOfBoth ending waiting) }
{
    match ending {
        Some(nearest) => Some(nearest.run),
        None => match waiting {
            Some(nearest) => Some(nearest.run),
            None => None,
        },
    }
}

// What is told of a search that is over.
fn answer_of<S: Eq + Hash + Drop>(search: Search<S>) -> Matching<S>
    ensures explained { IfExplained result (IsShortest search.candidates.entries) }
    ensures unexplained { IfUnexplained result (λ u. search.candidates.entries ≡ []) }
    ensures time { IfUnexplained result (λ u. u.time ≡ search.time) }
    ensures nearest { IfUnexplained result (λ u. IfSome u.nearest (IsOneOfBoth search.ending search.waiting)) }
    ensures whole { IfCut result (λ c. ⊥) }
{
    let Search {
        time,
        candidates,
        ending,
        waiting,
        ..
    } = search;
    match shortest(candidates) {
        Some(best) => Matching::Explained(best),
        None => Matching::Unexplained(Unexplained {
            time,
            nearest: nearest_of(ending, waiting),
        }),
    }
}

// What is told of a search that stopped short.
fn cut_short<S>(halt: OrMemory<Halt>, closed: Option<u64>) -> Matching<S>
    ensures explained { IfExplained result (λ e. ⊥) }
    ensures unexplained { IfUnexplained result (λ u. ⊥) }
    ensures closed { IfCut result (λ c. c.closed ≡ closed) }
    ensures entries { IfCut result (λ c. c.reason ≡ RankedReason.Entries → halt ≡ Fault Halt.Entries) }
    ensures steps { IfCut result (λ c. c.reason ≡ RankedReason.Steps → halt ≡ Fault Halt.Steps) }
    ensures stopped { IfCut result (λ c. c.reason ≡ RankedReason.Stopped → halt ≡ Fault Halt.Stopped) }
{
    Matching::Cut(Cut {
        reason: reason_of(halt),
        closed,
    })
}

/// Looks for a run of the space that shows what the reference shows at the end of every slot, with at most `limits.depart` departures
/// in each slot. It goes with time, and keeps the ends of slots at which such a run may stand, each under a log of the fewest
/// departures; each slot is searched by itself. `limits.steps` and `limits.entries` are those of one slot's search, and
/// `limits.entries` is also how many ends may be kept. A slot's search keeps no state from which no departure is left but the ends:
/// it goes on from it to the slot's end at once. The watcher is asked before each state that is gone on from.
///
/// Proved, where marks are the ends of slots: `Explained` is said only where the reference was read to its end, and the run under the
/// log shows at the end of every slot, and from there to the next, what the reference shows, up to the time of its last piece; no run
/// that does has fewer departures. `Unexplained` is said only where no run at all does up to that time, and the reference was read up
/// to it and not beyond; up to the time before, if runs open earlier, some run does. The nearest run shows what the reference shows at
/// each time before, with as few departures a slot. After a cut, some run does up to the time `closed`, up to which the reference was
/// read. A cut at the limit of entries or of steps is one at that limit, and `Cut(Stopped)` is told only where the watcher said so.
///
/// Want of memory, too, only cuts the search. The error is the reference's, its own fault or its want of memory.
pub fn match_runs<P: Ranked, R: Reference<P::State>, W: Watcher>(
    alloc: Global,
    space: &P,
    reference: &mut R,
    limits: &Limits,
    watcher: &mut W,
) -> Result<Matching<P::State>, OrMemory<R::Fault>>
    requires { EndsSlots (P.rules space.now) (P.ranks space.now) }
    ensures explained { IfOk result (λ answer. IfExplained answer
        (Explains (P.rules space.now) (P.ranks space.now) limits.now.depart (R.piece reference.old)
        (λ pieces. R.reads reference.old pieces reference.new) (R.done reference.new))) }
    ensures unexplained { IfOk result (λ answer. IfUnexplained answer
        (Refutes (P.rules space.now) (P.ranks space.now) limits.now.depart (R.piece reference.old)
        (λ pieces. R.reads reference.old pieces reference.new) (R.upcoming reference.new))) }
    ensures closed { IfOk result (λ answer. IfCut answer
        (ClosesTo (P.rules space.now) (P.ranks space.now) limits.now.depart (R.piece reference.old)
        (λ pieces. R.reads reference.old pieces reference.new) (R.upcoming reference.new))) }
    ensures entries { IfOk result (λ answer. IfCut answer (TellsOfEntries (P.rules space.now) limits.now)) }
    ensures steps { IfOk result (λ answer. IfCut answer (TellsOfSteps (P.rules space.now) limits.now)) }
    ensures stopped { IfOk result (λ answer. IfCut answer (TellsOfStop (W.stopped watcher.new))) }
{
    let start = match opening(alloc, space) {
        Ok(start) => start,
        Err(refused) => return Ok(cut_short(OrMemory::Memory(refused), None)),
    };
    let time = space.rank(&start.state);
    let mut upcoming = read_to(reference, time)?;
    let mut search = match first_slot(alloc, space, limits, reference, watcher, &start, time) {
        Ok(search) => search,
        Err(halt) => return Ok(cut_short(halt, None)),
    };
    while let Some(next) = wanted_time(&search, upcoming) {
        let closed = search.time;
        let time = earliest(&search.candidates, next);
        let after = read_at(reference, next, time)?;
        upcoming = after;
        search = match go_to(alloc, space, limits, reference, watcher, search, time) {
            Ok(later) => later,
            Err(halt) => return Ok(cut_short(halt, Some(closed))),
        };
    }
    Ok(answer_of(search))
}
