// Runs by plain steps.

use crate::given::{NO_MEMORY, NO_SUCH_CHOICE, Stop, TOO_MANY_STEPS};
use plain_steps::{State, slow_step, slow_width};
use sched_core::Log;
use std::alloc::Global;
use vdesign::design::Design;
use vmodel::sink::HistorySink;

// The choice that the log names for a step, 0 where it names none.
fn choice_at(log: &Log, step: u32) -> u32 {
    for member in log.members() {
        if member.0 == step {
            return member.1;
        }
    }
    0
}

// Whether the log names no step from this one on.
fn names_none_from(log: &Log, step: u32) -> bool {
    match log.members().last() {
        None => true,
        Some(member) => member.0 < step,
    }
}

// One step: the state after it. What it gives to the history goes into the sink.
fn next<S: HistorySink>(
    alloc: Global,
    design: &Design,
    state: &State,
    choice: u32,
    sink: &mut S,
) -> Result<State, Stop> {
    if choice >= slow_width(state) {
        return Err(Stop::Word(NO_SUCH_CHOICE));
    }
    let (after, items) = slow_step(alloc, design, state, choice)?;
    match sink.take(&items) {
        Ok(()) => Ok(after),
        Err(_) => Err(Stop::Word(NO_MEMORY)),
    }
}

/// Takes the run under the log from this state on, in at most so many steps: the state in which it ends.
pub fn take_run<S: HistorySink>(
    alloc: Global,
    design: &Design,
    first: State,
    log: &Log,
    steps: u32,
    sink: &mut S,
) -> Result<State, Stop> {
    let mut state = first;
    for step in 0..steps {
        if slow_width(&state) == 0 {
            return if names_none_from(log, step) {
                Ok(state)
            } else {
                Err(Stop::Word(NO_SUCH_CHOICE))
            };
        }
        state = next(alloc, design, &state, choice_at(log, step), sink)?;
    }
    if slow_width(&state) > 0 {
        Err(Stop::Word(TOO_MANY_STEPS))
    } else if names_none_from(log, steps) {
        Ok(state)
    } else {
        Err(Stop::Word(NO_SUCH_CHOICE))
    }
}
