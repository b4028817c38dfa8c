// Candidates: ends of slots, each with a log of the fewest departures that was met with it.

ghost use Rattle.std.specs.Prelude.{◌≡◌, true, false, length, [], IfOk, OnOk, IfSome, IfNone};
ghost use Rattle.basis.specs.Reasons.{IfFault};
ghost use Rattle.indexmap.specs.IndexMap.{IsUnique};
ghost use Rattle.matching.specs.Inner.Candidates.{AreWays, GoesOn, IsAWay, IsEarliest, IsShortest, Keeps};
ghost use Rattle.matching.specs.Inner.Searching.{IsReason};
ghost use Rattle.matching.specs.Inner.Merging.{AreLonger, IsEarlier, IsNoLonger, IsShorter};

use crate::answer::Explanation;
use crate::halt::Halt;
use basis::{NoMemory, OrMemory};
use indexmap::IndexMap;
use sched_core::{Log, Ranked};
use statebook::Limits;
use std::hash::Hash;

/// How a run came to the end of a slot: its log and how many steps it took, and where it goes on; None where it has ended.
#[derive(Drop)]
pub struct Way<S> {
    pub log: Log,
    pub steps: u32,
    pub next: Option<Onward<S>>,
}

/// The state that a slot begins with, and its rank.
#[derive(Drop)]
pub struct Onward<S> {
    pub state: S,
    pub rank: u64,
}

/// Where a run goes on from the end of a slot.
pub fn onward_from<P: Ranked>(
    space: &P,
    end: &P::State,
) -> Result<Option<Onward<P::State>>, NoMemory>
    ensures { IfOk result (GoesOn (P.rules space.now) (P.ranks space.now) end.now) }
{
    if space.width(end) == 0 {
        return Ok(None);
    }
    let mut state = space.copy(end)?;
    space.step(&mut state, 0)?;
    let rank = space.rank(&state);
    Ok(Some(Onward { state, rank }))
}

/// Whether an equal state is among the candidates, with a log of at most so many departures.
pub fn is_kept<S: Eq + Hash>(candidates: &IndexMap<S, Way<S>>, state: &S, departures: usize) -> bool
    requires { IsUnique S.eq candidates.now }
    ensures kept { result ≡ true → IsNoLonger S.eq candidates.now.entries state.now departures }
    ensures longer { result ≡ false → AreLonger S.eq candidates.now.entries state.now departures }
{
    match candidates.get(state) {
        Some(way) => way.log.members().len() <= departures,
        None => false,
    }
}

/// Keeps the end of a slot as a candidate, unless it is one under a log with no more departures.
pub fn keep<P: Ranked>(
    space: &P,
    limits: &Limits,
    candidates: &mut IndexMap<P::State, Way<P::State>>,
    state: P::State,
    way: Way<P::State>,
) -> Result<(), OrMemory<Halt>>
    requires unique { IsUnique P.State.eq candidates.old }
    requires ways { AreWays (P.rules space.now) (P.ranks space.now) candidates.old.entries }
    requires way { IsAWay (P.rules space.now) (P.ranks space.now) (state, way) }
    ensures unique { OnOk result (IsUnique P.State.eq candidates.new) }
    ensures ways { OnOk result (AreWays (P.rules space.now) (P.ranks space.now) candidates.new.entries) }
    ensures keeps { OnOk result
        (Keeps (P.rules space.now) state way candidates.old.entries candidates.new.entries) }
    ensures reason { IfFault result (IsReason (P.rules space.now) limits.now) }
    ensures why { IfFault result (λ halt. halt ≡ Halt.Stopped → ⊥) }
{
    if is_kept(candidates, &state, way.log.members().len()) {
        return Ok(());
    }
    if candidates.len() >= limits.entries as usize {
        return Err(OrMemory::Fault(Halt::Entries));
    }
    candidates.insert(state, way)?;
    Ok(())
}

// The earlier of a time and that of the candidate's next slot.
fn earlier<S>(time: u64, way: &Way<S>) -> u64
    ensures { IsEarlier time way.now result }
{
    match &way.next {
        Some(next) => time.min(next.rank),
        None => time,
    }
}

/// The least of a time and the times of the candidates' next slots.
pub fn earliest<S: Eq + Hash>(candidates: &IndexMap<S, Way<S>>, until: u64) -> u64
    ensures { IsEarliest candidates.now.entries until result }
{
    let mut least = until;
    for place in 0..candidates.len() {
        match candidates.get_index(place) {
            Some((_, way)) => least = earlier(least, way),
            None => return least,
        }
    }
    least
}

// The run of the two that has fewer departures.
fn shorter<S: Drop>(best: Option<Explanation<S>>, state: S, way: Way<S>) -> Explanation<S>
    ensures { IsShorter best state way result }
{
    let Way { log, steps, .. } = way;
    match best {
        Some(best) if best.log.members().len() <= log.members().len() => best,
        _ => Explanation { state, log, steps },
    }
}

/// The candidate of the fewest departures.
pub fn shortest<S: Eq + Hash + Drop>(candidates: IndexMap<S, Way<S>>) -> Option<Explanation<S>>
    ensures shortest { IfSome result (IsShortest candidates.entries) }
    ensures none { IfNone result (candidates.entries ≡ []) }
{
    let mut best = None;
    for (state, way) in candidates {
        best = Some(shorter(best, state, way));
    }
    best
}
