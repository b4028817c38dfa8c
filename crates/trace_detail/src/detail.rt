// What stands behind the line of a step: ` of 1:12:5 reads tb.a tb.b wakes 3 5`.

use crate::active::{ActiveRun, newly_active};
use crate::posts::Posts;
use crate::reads::Reads;
use crate::taken::{action_of, choice_at};
use basis::NoMemory;
use itoa::Buffer;
use plain_steps::State;
use sched_core::Member;
use std::alloc::Global;
use trace_text::Origins;
use vdesign::design::Design;
use vmachine::Machine;
use vmodel::choice::Choice;
use vmodel::effect::Effect;

fn put_number(text: &mut Vec<u8>, n: u64) -> Result<(), NoMemory> {
    let mut buffer = Buffer::new();
    text.extend_from_slice(buffer.format(n).as_bytes())?;
    Ok(())
}

// ` of FILE:LINE:COLUMN`, the place of a `<=`, if it is known; the column from 1.
fn put_update(
    text: &mut Vec<u8>,
    origins: &Origins,
    action: Option<usize>,
) -> Result<(), NoMemory> {
    let Some(action) = action else {
        return Ok(());
    };
    let Some(place) = origins.place(action) else {
        return Ok(());
    };
    text.extend_from_slice(b" of ")?;
    put_number(text, place.file as u64)?;
    text.push(b':')?;
    put_number(text, place.line as u64)?;
    text.push(b':')?;
    put_number(text, (place.column as u64).saturating_add(1))
}

// A blank, and the name of the variable of this number.
fn put_variable(text: &mut Vec<u8>, design: &Design, number: u32) -> Result<(), NoMemory> {
    if let Some(variable) = design.variables.get(number as usize) {
        text.push(b' ')?;
        text.extend_from_slice(&variable.name)?;
    }
    Ok(())
}

// ` reads NAME NAME`, if it reads any.
fn put_reads(text: &mut Vec<u8>, design: &Design, reads: &[u32]) -> Result<(), NoMemory> {
    if !reads.is_empty() {
        text.extend_from_slice(b" reads")?;
    }
    for number in reads {
        put_variable(text, design, *number)?;
    }
    Ok(())
}

// ` wakes P P`, if it wakes any.
fn put_woken(text: &mut Vec<u8>, woken: &[u32]) -> Result<(), NoMemory> {
    if !woken.is_empty() {
        text.extend_from_slice(b" wakes")?;
    }
    for process in woken {
        text.push(b' ')?;
        put_number(text, u64::from(*process))?;
    }
    Ok(())
}

/// A run on its way, of which each step is told.
#[derive(Drop)]
pub struct DetailedRun<'a> {
    alloc: Global,
    machine: &'a Machine,
    origins: &'a Origins,
    members: &'a [Member],
    step: u32,
    state: State,
    shadow: ActiveRun,
    active: Vec<u32>,
    posts: Posts,
}

impl<'a> DetailedRun<'a> {
    /// The run under a log of these members, before its first step.
    pub fn new(
        alloc: Global,
        machine: &'a Machine,
        origins: &'a Origins,
        members: &'a [Member],
    ) -> Result<DetailedRun<'a>, NoMemory> {
        let shadow = ActiveRun::new(alloc, machine)?;
        let active = shadow.active(alloc)?;
        Ok(DetailedRun {
            alloc,
            machine,
            origins,
            members,
            step: 0,
            state: machine.opening_state()?,
            shadow,
            active,
            posts: Posts::new(alloc),
        })
    }

    // Whom the step of this choice wakes: who is active after it and wasn't before.
    fn processes_woken_by(&mut self, choice: Choice) -> Result<Vec<u32>, NoMemory> {
        self.shadow.take(self.machine.design(), choice)?;
        let active = self.shadow.active(self.alloc)?;
        let woken = newly_active(self.alloc, &self.active, &active)?;
        self.active = active;
        Ok(woken)
    }

    // What a step of the action at this place read.
    fn reads(&self, action: Option<usize>, effect: &Effect) -> Result<Reads, NoMemory> {
        let mut reads = Reads::new(self.alloc);
        let Some(place) = action else {
            return Ok(reads);
        };
        if let Some(action) = self.machine.design().actions.get(place) {
            reads.put_action(action, effect.held().is_some())?;
        }
        Ok(reads)
    }

    // What a step posted by the action at this place.
    fn post(&mut self, time: u64, action: Option<usize>, effect: &Effect) -> Result<(), NoMemory> {
        match (action, effect.posted()) {
            (Some(place), Some(post)) => self.posts.post(time, post.after, place),
            _ => Ok(()),
        }
    }

    // The `<=` of the update that the choice writes at this time, if it writes one; after an advance the time is that of the state.
    fn update(&mut self, choice: Choice, time: u64) -> Result<Option<usize>, NoMemory> {
        match choice {
            Choice::Run(_) => Ok(None),
            Choice::Update => Ok(self.posts.write(time)),
            Choice::Advance => {
                self.posts.advance(self.state.time())?;
                Ok(None)
            }
        }
    }

    // Takes the step of this choice, and puts what is told of it.
    fn put_step(&mut self, text: &mut Vec<u8>, index: u32, choice: Choice) -> Result<(), NoMemory> {
        let (time, action) = (self.state.time(), action_of(&self.state, choice));
        let mut monitors = Vec::new(self.alloc);
        let effect = self
            .state
            .step(self.machine.design(), index, &mut monitors)?;
        self.post(time, action, &effect)?;
        let update = self.update(choice, time)?;
        put_update(text, self.origins, update)?;
        let reads = self.reads(action, &effect)?;
        put_reads(text, self.machine.design(), reads.as_slice())?;
        let woken = self.processes_woken_by(choice)?;
        put_woken(text, &woken)
    }

    /// Takes the next step, if there is one, and puts what is told of it.
    pub fn put_next(&mut self, text: &mut Vec<u8>) -> Result<(), NoMemory> {
        let index = choice_at(self.members, self.step);
        self.step = self.step.saturating_add(1);
        match self.state.choice(index) {
            None => Ok(()),
            Some(choice) => self.put_step(text, index, choice),
        }
    }
}
