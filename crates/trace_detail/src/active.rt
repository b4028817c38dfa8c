// Which processes are active (IEEE 1364-2005, 11.3).

use basis::NoMemory;
use plain_steps::{State, opening};
use sched_core::setting::Grain;
use std::alloc::Global;
use vdesign::design::Design;
use vmachine::Machine;
use vmodel::choice::Choice;

/// A run in grain statement, where all active processes are among the choices. It takes what another run of the design takes, and so its
/// processes are active as theirs are, in whichever grain.
#[derive(Drop)]
pub struct ActiveRun {
    state: State,
}

// The process that a choice is of.
fn process_of(choice: Option<Choice>) -> Option<u32> {
    match choice {
        Some(Choice::Run(process)) => Some(process),
        _ => None,
    }
}

// Whether the process stands in the list.
fn is_in(list: &[u32], process: u32) -> bool {
    for other in list {
        if *other == process {
            return true;
        }
    }
    false
}

/// The processes of the second list that don't stand in the first.
pub fn newly_active(alloc: Global, before: &[u32], after: &[u32]) -> Result<Vec<u32>, NoMemory> {
    let mut list = Vec::new(alloc);
    for process in after {
        if !is_in(before, *process) {
            list.push(*process)?;
        }
    }
    Ok(list)
}

impl ActiveRun {
    /// The run of the machine's design, before its first step.
    pub fn new(alloc: Global, machine: &Machine) -> Result<ActiveRun, NoMemory> {
        Ok(ActiveRun {
            state: opening(alloc, machine.design(), machine.until(), Grain::Statement)?,
        })
    }

    /// The active processes.
    pub fn active(&self, alloc: Global) -> Result<Vec<u32>, NoMemory> {
        let mut list = Vec::new(alloc);
        for index in 0..self.state.width() {
            if let Some(process) = process_of(self.state.choice(index)) {
                list.push(process)?;
            }
        }
        Ok(list)
    }

    // The number of this choice.
    fn index_of(&self, choice: Choice) -> Option<u32> {
        for index in 0..self.state.width() {
            if self.state.choice(index) == Some(choice) {
                return Some(index);
            }
        }
        None
    }

    /// Takes this choice, if there is such a one.
    pub fn take(&mut self, design: &Design, choice: Choice) -> Result<(), NoMemory> {
        match self.index_of(choice) {
            None => Ok(()),
            Some(index) => self.state.go(design, index),
        }
    }
}
