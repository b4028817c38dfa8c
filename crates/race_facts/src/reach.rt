// How far a search came.

use crate::replayed::{endless_slot, is_longer};
use basis::NoMemory;
use explore::{RankedReason, RankedStatus};
use race_findings::{CutBy, EndlessSlot, Reach};
use race_groups::Races;
use vmachine::Machine;

// How many steps `vrace replay` takes at most where nothing is said.
const REPLAY_STEPS: u32 = 100_000;

// How many steps the default run may take where nothing is said of steps, as others take more than it.
const FEW_STEPS: u32 = 50_000;

/// By what a search was cut.
pub fn cut_by(reason: RankedReason) -> CutBy {
    match reason {
        RankedReason::Memory(_) => CutBy::Memory,
        RankedReason::Entries => CutBy::Entries,
        RankedReason::Steps => CutBy::Steps,
        RankedReason::Stopped => CutBy::Stopped,
    }
}

// By what the search was cut, if it was.
fn cut_by_status(status: RankedStatus) -> Option<CutBy> {
    match status {
        RankedStatus::Exhausted => None,
        RankedStatus::Cut(reason) => Some(cut_by(reason)),
    }
}

// Whether a run of which it is told may take more steps than a replay of which nothing is said.
fn is_long(machine: &Machine, races: &Races, steps: u32) -> Result<bool, NoMemory> {
    if steps <= REPLAY_STEPS || races.groups.is_empty() {
        return Ok(false);
    }
    is_longer(machine, FEW_STEPS)
}

// The slot that the default run never leaves, where no run ends.
fn endless_of(machine: &Machine, races: &Races) -> Result<Option<EndlessSlot>, NoMemory> {
    if races.ended || races.search.status != RankedStatus::Exhausted {
        return Ok(None);
    }
    endless_slot(machine)
}

/// How far the search of the machine's runs came, of which each had so many steps at most.
pub fn reach_of(machine: &Machine, races: &Races, steps: u32) -> Result<Reach, NoMemory> {
    Ok(Reach {
        cut: cut_by_status(races.search.status),
        closed: races.search.closed,
        cut_runs: races.cut_runs,
        endless: endless_of(machine, races)?,
        ignored: races.ignored,
        is_long: is_long(machine, races, steps)?,
    })
}
