// What is told of an answer: the departures of the run, and what differs in the nearest one.

use crate::dumps::OpenDump;
use basis::NoMemory;
use cause::causes_of;
use match_text::Departure;
use matching::{Cut, Explanation, Matching};
use race_facts::{differing_of, statements_of};
use race_findings::Differing;
use sched_core::Log;
use sched_core::end::End;
use std::alloc::Global;
use trace_detail::choice_at;
use vmachine::{Machine, MachineState};

/// What was found with so many departures a slot, `most`; and what cut the search with one more.
#[derive(Drop)]
pub(crate) struct Tried {
    pub answer: Matching<MachineState>,
    pub most: u64,
    pub beyond: Option<Cut>,
}

impl Tried {
    /// The answer stands, though the search with more departures was cut.
    pub(crate) fn stand(&mut self, cut: Cut) {
        self.beyond = Some(cut);
    }

    /// Whether no run within the limit has the values of the dump, so that more departures are to be tried.
    pub(crate) fn is_unexplained(&self) -> bool {
        match &self.answer {
            Matching::Unexplained(_) => true,
            _ => false,
        }
    }

    /// Up to which time no run has the values, where that is decided.
    pub(crate) fn refuted_at(&self) -> Option<u64> {
        match &self.answer {
            Matching::Unexplained(answer) if self.beyond.is_none() => Some(answer.time),
            _ => None,
        }
    }

    /// Whether a run has them.
    pub(crate) fn is_explained(&self) -> bool {
        match &self.answer {
            Matching::Explained(_) => true,
            _ => false,
        }
    }

    /// How many departures a slot may have.
    pub(crate) fn most(&self) -> u32 {
        u32::try_from(self.most).unwrap_or(u32::MAX)
    }

    // The run that comes nearest, where no run has the values of the dump.
    fn nearest(&self) -> Option<&Explanation<MachineState>> {
        match &self.answer {
            Matching::Unexplained(answer) => answer.nearest.as_ref(),
            _ => None,
        }
    }

    /// Where that one has ended.
    pub(crate) fn end(&self, machine: &Machine) -> Option<End> {
        match self.nearest() {
            Some(run) => machine.end_of(&run.state),
            None => None,
        }
    }

    /// What differs in it from what a dump shows.
    pub(crate) fn differing(
        &self,
        alloc: Global,
        reference: &OpenDump<'_>,
    ) -> Result<Vec<Differing>, NoMemory> {
        match self.nearest() {
            Some(run) => differing_of(alloc, &reference.differing(&run.state)?),
            None => Ok(Vec::new(alloc)),
        }
    }

    /// The departures of the run that has the values, with their causes.
    pub(crate) fn departures(
        &self,
        alloc: Global,
        machine: &Machine,
    ) -> Result<Vec<Departure>, NoMemory> {
        match &self.answer {
            Matching::Explained(run) => departures_of(alloc, machine, run),
            _ => Ok(Vec::new(alloc)),
        }
    }
}

// The times before the steps at which the run under the log departs, in order.
fn departed_times(alloc: Global, machine: &Machine, log: &Log) -> Result<Vec<u64>, NoMemory> {
    let steps = match log.members().last() {
        None => 0,
        Some(member) => member.0.saturating_add(1),
    };
    let mut times = Vec::new(alloc);
    let mut state = machine.opening_state()?;
    for step in 0..steps {
        let choice = choice_at(log.members(), step);
        if choice > 0 {
            times.push(state.time())?;
        }
        state.go(machine.design(), choice)?;
    }
    Ok(times)
}

// Each departure of the run, with its cause.
fn departures_of(
    alloc: Global,
    machine: &Machine,
    run: &Explanation<MachineState>,
) -> Result<Vec<Departure>, NoMemory> {
    let times = departed_times(alloc, machine, &run.log)?;
    let causes = causes_of(alloc, machine, &run.log, u32::MAX)?;
    let mut departures = Vec::new(alloc);
    for (place, cause) in causes.into_iter().enumerate() {
        let (Some(member), Some(time)) = (run.log.members().get(place), times.get(place)) else {
            return Ok(departures);
        };
        departures.push(Departure {
            step: member.0,
            time: *time,
            statements: statements_of(alloc, &cause)?,
        })?;
    }
    Ok(departures)
}
