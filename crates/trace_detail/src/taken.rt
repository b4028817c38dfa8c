// What a step of a run takes.

use plain_steps::State;
use sched_core::Member;
use vmodel::choice::Choice;

/// The choice of a step under a log of these members.
pub fn choice_at(members: &[Member], step: u32) -> u32 {
    for member in members {
        if member.0 == step {
            return member.1;
        }
    }
    0
}

/// The action that a process comes to, by its place in the design's table, if the choice is one of a process.
pub fn action_of(state: &State, choice: Choice) -> Option<usize> {
    match choice {
        Choice::Run(process) => state.place_of(process),
        Choice::Update => None,
        Choice::Advance => None,
    }
}
