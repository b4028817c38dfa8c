// A slot that is searched, and what its ends make of the search.

ghost use Rattle.std.specs.Prelude.{◌≡◌, ◌+◌, length, IfOk, OnOk};
ghost use Rattle.basis.specs.Reasons.{IfFault};
ghost use Rattle.explore.specs.Found.{AreFound, IsFound};
ghost use Rattle.matching.specs.Slots.{IsRunTo, one_slot};
ghost use Rattle.matching.specs.Inner.Slots.{EndsSlot};
ghost use Rattle.matching.specs.Inner.FoundEnds.{ends_of};
ghost use Rattle.matching.specs.Inner.Candidates.{EndsNear, IsEndOf, IsFittingEnd, IsKept, KeepsEnds, KeepsFound};
ghost use Rattle.matching.specs.Inner.Searching.{AddsNear, Extends, IsReason, IsSearch};

use crate::answer::Explanation;
use crate::budgeted_slot::{Budgeted, BudgetedSlot};
use crate::candidates::{Way, keep, onward_from};
use crate::found_ends::FoundEnds;
use crate::halt::{Halt, whole};
use crate::joined::joined_log;
use crate::one_slot::OneSlot;
use crate::reference::Reference;
use crate::search::{Nearest, Search, is_nearer};
use basis::{NoMemory, OrMemory};
use explore::{FoundMark, Watcher, explore_ranked};
use sched_core::{Log, Ranked, replay};
use statebook::Limits;
use std::alloc::Global;

/// Where a slot begins: a state at which a run stands, with its log and how many steps it took.
#[derive(Drop)]
pub struct SlotStart<S> {
    pub state: S,
    pub log: Log,
    pub steps: u32,
}

// How many steps a slot's run takes to the end that was found.
fn count_steps<P: Ranked>(
    space: &P,
    limits: &Limits,
    start: &P::State,
    state: &P::State,
    log: &Log,
) -> Result<u32, NoMemory>
    requires { IsFound (one_slot (P.rules space.now) start.now) limits.now (state.now, log.now) }
    ensures { IfOk result (λ n. EndsSlot (P.rules space.now) start.now log.now n state.now) }
{
    let slot = OneSlot { space, start };
    match replay(&slot, log, limits.steps) {
        Ok(reached) => Ok(reached.steps),
        Err(OrMemory::Fault(_)) => unreachable!(),
        Err(OrMemory::Memory(refused)) => Err(refused),
    }
}

// The run that goes on from the start to an end of the slot that was found.
#[tactic(auto, using(crate::proofs::JoinedLogs::joined_length))]
fn end_of<P: Ranked>(
    space: &P,
    limits: &Limits,
    start: &SlotStart<P::State>,
    state: P::State,
    log: &Log,
) -> Result<Explanation<P::State>, OrMemory<Halt>>
    requires start { IsRunTo (P.rules space.now) start.now.state start.now.log start.now.steps }
    requires found { IsFound (one_slot (P.rules space.now) start.now.state) limits.now (state, log.now) }
    ensures end { IfOk result (λ end.
        IsEndOf (P.rules space.now) limits.now.depart start.now end.state end.log end.steps) }
    ensures state { IfOk result (λ end. end.state ≡ state) }
    ensures longer { IfOk result (λ end. length end.log ≡ length start.now.log + length log.now) }
    ensures reason { IfFault result (IsReason (P.rules space.now) limits.now) }
    ensures why { IfFault result (λ halt. halt ≡ Halt.Stopped → ⊥) }
{
    let count = count_steps(space, limits, &start.state, &state, log)?;
    let Some(log) = joined_log(&start.log, start.steps, log)? else {
        return Err(OrMemory::Fault(Halt::Steps));
    };
    match start.steps.checked_add(count) {
        Some(steps) => Ok(Explanation { state, log, steps }),
        None => Err(OrMemory::Fault(Halt::Steps)),
    }
}

// Takes in an end of the slot that was found: as a candidate, where nothing differs, else as the nearest, if it is that.
fn meet_end<P: Ranked, R: Reference<P::State>>(
    space: &P,
    limits: &Limits,
    reference: &R,
    search: &mut Search<P::State>,
    start: &SlotStart<P::State>,
    state: P::State,
    log: Log,
) -> Result<(), OrMemory<Halt>>
    requires start { IsRunTo (P.rules space.now) start.now.state start.now.log start.now.steps }
    requires found { IsFound (one_slot (P.rules space.now) start.now.state) limits.now (state, log) }
    requires search { IsSearch P.State.eq (P.rules space.now) (P.ranks space.now) search.old }
    ensures search { OnOk result (IsSearch P.State.eq (P.rules space.now) (P.ranks space.now) search.new) }
    ensures near { OnOk result (AddsNear (EndsNear (P.rules space.now) limits.now.depart start.now) search.old search.new) }
    ensures extends { OnOk result (Extends (P.rules space.now)
        (IsFittingEnd (P.rules space.now) (P.ranks space.now) (R.piece reference.now).differ limits.now.depart start.now)
        search.old search.new) }
    ensures kept { OnOk result ((R.piece reference.now).differ state ≡ 0 →
        IsKept (P.rules space.now) search.new.candidates.entries state (length start.now.log + length log)) }
    ensures reason { IfFault result (IsReason (P.rules space.now) limits.now) }
    ensures why { IfFault result (λ halt. halt ≡ Halt.Stopped → ⊥) }
{
    let differences = reference.count_differences(&state);
    if differences > 0 && !is_nearer(&search.ending, differences) {
        return Ok(());
    }
    let end = end_of(space, limits, start, state, &log)?;
    if differences > 0 {
        search.ending = Some(Nearest {
            differences,
            run: end,
        });
        return Ok(());
    }
    let next = onward_from(space, &end.state)?;
    let Explanation { state, log, steps } = end;
    keep(
        space,
        limits,
        &mut search.candidates,
        state,
        Way { log, steps, next },
    )
}

// Takes in all ends of the slot that were found.
fn meet_ends<P: Ranked, R: Reference<P::State>>(
    space: &P,
    limits: &Limits,
    reference: &R,
    search: &mut Search<P::State>,
    start: &SlotStart<P::State>,
    ends: Vec<FoundMark<Budgeted<P::State>>>,
) -> Result<(), OrMemory<Halt>>
    requires start { IsRunTo (P.rules space.now) start.now.state start.now.log start.now.steps }
    requires found { AreFound (one_slot (P.rules space.now) start.now.state) limits.now (ends_of ends.items) }
    requires search { IsSearch P.State.eq (P.rules space.now) (P.ranks space.now) search.old }
    ensures search { OnOk result (IsSearch P.State.eq (P.rules space.now) (P.ranks space.now) search.new) }
    ensures near { OnOk result (AddsNear (EndsNear (P.rules space.now) limits.now.depart start.now) search.old search.new) }
    ensures extends { OnOk result (Extends (P.rules space.now)
        (IsFittingEnd (P.rules space.now) (P.ranks space.now) (R.piece reference.now).differ limits.now.depart start.now)
        search.old search.new) }
    ensures kept { OnOk result (KeepsFound (P.rules space.now) (R.piece reference.now).differ (length start.now.log)
        (ends_of ends.items) search.new.candidates.entries) }
    ensures reason { IfFault result (IsReason (P.rules space.now) limits.now) }
    ensures why { IfFault result (λ halt. halt ≡ Halt.Stopped → ⊥) }
{
    for found in ends {
        let FoundMark { state, log } = found;
        let end = state.state;
        meet_end(space, limits, reference, search, start, end, log)?;
    }
    Ok(())
}

/// Searches a slot, and takes in its ends. The watcher is asked once for each state that is kept.
pub fn search_slot<P: Ranked, R: Reference<P::State>, W: Watcher>(
    alloc: Global,
    space: &P,
    limits: &Limits,
    reference: &R,
    watcher: &mut W,
    search: &mut Search<P::State>,
    start: &SlotStart<P::State>,
) -> Result<(), OrMemory<Halt>>
    requires start { IsRunTo (P.rules space.now) start.now.state start.now.log start.now.steps }
    requires search { IsSearch P.State.eq (P.rules space.now) (P.ranks space.now) search.old }
    ensures search { OnOk result (IsSearch P.State.eq (P.rules space.now) (P.ranks space.now) search.new) }
    ensures near { OnOk result (AddsNear (EndsNear (P.rules space.now) limits.now.depart start.now) search.old search.new) }
    ensures extends { OnOk result (Extends (P.rules space.now)
        (IsFittingEnd (P.rules space.now) (P.ranks space.now) (R.piece reference.now).differ limits.now.depart start.now)
        search.old search.new) }
    ensures ends { OnOk result (KeepsEnds (P.rules space.now) (R.piece reference.now).differ limits.now.depart start.now
        search.new.candidates.entries) }
    ensures reason { IfFault result (IsReason (P.rules space.now) limits.now) }
    ensures stopped { IfFault result (λ halt. halt ≡ Halt.Stopped → W.stopped watcher.new) }
{
    let slot = BudgetedSlot {
        space,
        start: &start.state,
        most: limits.depart,
        time: search.time,
    };
    let mut found = FoundEnds::new(alloc, search.candidates.len());
    let findings = explore_ranked(alloc, &slot, limits, &mut found, watcher);
    whole(findings.status)?;
    meet_ends(space, limits, reference, search, start, found.ends)
}
