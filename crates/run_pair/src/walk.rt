// A run under a log, step by step.

use basis::NoMemory;
use plain_steps::State;
use sched_core::{Log, Member};
use vbits::Vec4;
use vdesign::design::Design;
use vmachine::Machine;
use vmodel::choice::Choice;

/// A run under a log, behind some of its steps.
#[derive(Drop)]
pub(crate) struct Walk<'a> {
    design: &'a Design,
    members: &'a [Member],
    state: State,
    step: u32,
    steps: u32,
    begun: bool,
}

// The choice that the members name for the step.
fn choice_at(members: &[Member], step: u32) -> u32 {
    for member in members {
        if member.0 == step {
            return member.1;
        }
    }
    0
}

impl<'a> Walk<'a> {
    /// The run under the log, of at most so many steps, before its first step.
    pub(crate) fn new(
        machine: &'a Machine,
        log: &'a Log,
        steps: u32,
    ) -> Result<Walk<'a>, NoMemory> {
        Ok(Walk {
            design: machine.design(),
            members: log.members(),
            state: machine.opening_state()?,
            step: 0,
            steps,
            begun: false,
        })
    }

    /// The number of the next step.
    pub(crate) fn step(&self) -> u32 {
        self.step
    }

    /// The place of the action that the next step is of; none of an update and of an advance.
    pub(crate) fn action(&self) -> Option<usize> {
        match self.state.choice(choice_at(self.members, self.step)) {
            Some(Choice::Run(process)) => self.state.place_of(process),
            Some(Choice::Update) => None,
            Some(Choice::Advance) => None,
            None => None,
        }
    }

    /// The values of the variables, by number.
    pub(crate) fn values(&self) -> &[Vec4] {
        self.state.values()
    }

    /// The time, where a slot has ended here, or the run.
    pub(crate) fn mark(&self) -> Option<u64> {
        if self.state.is_mark() {
            Some(self.state.time())
        } else {
            None
        }
    }

    /// Takes the next step, if there is one.
    pub(crate) fn go_on(&mut self) -> Result<bool, NoMemory> {
        let choice = choice_at(self.members, self.step);
        if self.step >= self.steps || choice >= self.state.width() {
            return Ok(false);
        }
        self.state.go(self.design, choice)?;
        self.step = self.step.saturating_add(1);
        Ok(true)
    }

    // The same, but the first time nothing is taken.
    fn begin(&mut self) -> Result<bool, NoMemory> {
        if self.begun {
            return self.go_on();
        }
        self.begun = true;
        Ok(true)
    }

    /// Goes on to the end of the next slot, or of the run, and tells its time; none where there is no step more.
    pub(crate) fn next_mark(&mut self) -> Result<Option<u64>, NoMemory> {
        for _ in 0..=self.steps {
            if !self.begin()? {
                return Ok(None);
            }
            if let Some(time) = self.mark() {
                return Ok(Some(time));
            }
        }
        Ok(None)
    }
}
