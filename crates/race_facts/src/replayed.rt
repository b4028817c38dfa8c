// What runs show when they are run again.

use basis::NoMemory;
use race_findings::EndlessSlot;
use sched_core::{Log, Space};
use std::alloc::Global;
use trace_detail::{action_of, choice_at};
use vbits::Vec4;
use vmachine::Machine;

/// The time at which the run under the log stands before a step.
pub fn time_before(machine: &Machine, log: &Log, step: u32) -> Result<u64, NoMemory> {
    let mut state = machine.opening_state()?;
    for number in 0..step {
        state.go(machine.design(), choice_at(log.members(), number))?;
    }
    Ok(state.time())
}

/// The values with which the slot of this time begins, in the run under the log.
pub fn values_at_start(
    alloc: Global,
    machine: &Machine,
    log: &Log,
    time: u64,
) -> Result<Vec<Vec4>, NoMemory> {
    let mut state = machine.opening_state()?;
    for number in 0..u32::MAX {
        if state.time() >= time || state.width() == 0 {
            break;
        }
        state.go(machine.design(), choice_at(log.members(), number))?;
    }
    Ok(Vec::from_slice(alloc, state.values())?)
}

/// The action that the last step of the run under the log takes, if it takes one; none where the run doesn't end.
pub fn last_action(machine: &Machine, log: &Log) -> Result<Option<usize>, NoMemory> {
    let mut state = machine.opening_state()?;
    let mut last = None;
    for number in 0..u32::MAX {
        let index = choice_at(log.members(), number);
        let Some(choice) = state.choice(index) else {
            return Ok(last);
        };
        last = action_of(&state, choice);
        state.go(machine.design(), index)?;
    }
    Ok(None)
}

/// Whether the default run takes more than so many steps.
pub fn is_longer(machine: &Machine, steps: u32) -> Result<bool, NoMemory> {
    let mut state = machine.opening_state()?;
    for _ in 0..steps {
        if state.width() == 0 {
            return Ok(false);
        }
        state.go(machine.design(), 0)?;
    }
    Ok(state.width() > 0)
}

// In how many steps a state that is met again is looked for.
const MOST: u32 = 1_000_000;

// After how many steps the default run comes to a state that it was in before, if it does (Brent's search for a cycle).
fn steps_to_cycle(machine: &Machine) -> Result<Option<u32>, NoMemory> {
    let (mut seen, mut state) = (machine.root()?, machine.root()?);
    let mut next = 1u32;
    for steps in 1..MOST {
        if machine.width(&state) == 0 {
            return Ok(None);
        }
        machine.step(&mut state, 0)?;
        if state == seen {
            return Ok(Some(steps));
        }
        if steps == next {
            seen = machine.copy(&state)?;
            next = next.saturating_mul(2);
        }
    }
    Ok(None)
}

/// The slot that the default run never leaves, if it comes to a state again: no time passes between.
pub fn endless_slot(machine: &Machine) -> Result<Option<EndlessSlot>, NoMemory> {
    let Some(steps) = steps_to_cycle(machine)? else {
        return Ok(None);
    };
    let mut state = machine.opening_state()?;
    for _ in 0..steps {
        state.go(machine.design(), 0)?;
    }
    let action = match state.choice(0) {
        None => None,
        Some(choice) => action_of(&state, choice),
    };
    Ok(Some(EndlessSlot {
        time: state.time(),
        action,
    }))
}
