// A run under a log and its parent, the one under the same log without its last member.

use crate::columns::columns_of;
use crate::steps::{Looked, Steps};
use crate::walk::Walk;
use crate::waves::Waves;
use basis::NoMemory;
use sched_core::{Log, Member};
use std::alloc::Global;
use vmachine::Machine;

/// What a page shows of a run: its slots round a time, and its steps from one on.
pub struct Seen {
    pub log: Log,
    pub waves: Waves,
    pub steps: Steps,
}

impl Drop for Seen {
    fn drop(self) {
        let Seen {
            log: _,
            waves: _,
            steps: _,
        } = self;
    }
}

/// What a page shows of both runs: of each its slots and steps, the times of the slots, and the one in which they differ first.
pub struct Runs {
    pub parent: Seen,
    pub departed: Seen,
    pub columns: Vec<u64>,
    pub time: u64,
}

impl Drop for Runs {
    fn drop(self) {
        let Runs {
            parent: _,
            departed: _,
            columns: _,
            time: _,
        } = self;
    }
}

// Puts the member last, as far as the log stays one.
fn put_member(log: &mut Log, member: Member) -> Result<(), NoMemory> {
    if log.takes(member) {
        log.push(member.0, member.1)?;
    }
    Ok(())
}

/// The log without its last member.
pub(crate) fn parent_log(alloc: Global, log: &Log) -> Result<Log, NoMemory> {
    let mut parent = Log::new(alloc);
    let front = log.members().len().saturating_sub(1);
    for member in log.members().iter().take(front) {
        put_member(&mut parent, *member)?;
    }
    Ok(parent)
}

/// The steps that are listed in any case, in the run under the log, or in its parent.
#[derive(Clone, Copy)]
pub struct Marked {
    pub one: Option<u32>,
    pub other: Option<u32>,
}

// The step at which the run under the log parts from its parent.
fn parting_step(log: &Log) -> u32 {
    match log.members().last() {
        None => 0,
        Some(member) => member.0,
    }
}

// How many steps the run under the log takes to the end of the slot of this one.
fn slot_end(machine: &Machine, log: &Log, from: u32, steps: u32) -> Result<u32, NoMemory> {
    let mut walk = Walk::new(machine, log, steps)?;
    for _ in 0..=steps {
        if walk.step() > from && walk.mark().is_some() {
            return Ok(walk.step());
        }
        if !walk.go_on()? {
            return Ok(walk.step());
        }
    }
    Ok(walk.step())
}

// The steps of the run under the log that are looked at: from this one on to the end of its slot.
fn looked_at(
    machine: &Machine,
    log: &Log,
    from: u32,
    marked: Marked,
    steps: u32,
) -> Result<Looked, NoMemory> {
    Ok(Looked {
        from,
        to: slot_end(machine, log, from, steps)?,
        one: marked.one,
        other: marked.other,
    })
}

// The time at which the run under the log ends.
fn end_of(machine: &Machine, log: &Log, steps: u32) -> Result<u64, NoMemory> {
    let mut walk = Walk::new(machine, log, steps)?;
    let mut last = 0;
    for _ in 0..=steps {
        match walk.next_mark()? {
            None => return Ok(last),
            Some(time) => last = time,
        }
    }
    Ok(last)
}

// The time at which the first of both runs ends.
fn first_end(machine: &Machine, log: &Log, parent: &Log, steps: u32) -> Result<u64, NoMemory> {
    let end = end_of(machine, log, steps)?;
    Ok(end.min(end_of(machine, parent, steps)?))
}

// Goes along the run under the log, as far as it is looked at.
fn follow(
    alloc: Global,
    machine: &Machine,
    log: &Log,
    waves: &mut Waves,
    listed: &mut Steps,
    steps: u32,
) -> Result<(), NoMemory> {
    let mut walk = Walk::new(machine, log, steps)?;
    for _ in 0..=steps {
        if let Some(time) = walk.mark() {
            waves.see(alloc, &walk, time)?;
            listed.end_slot(&walk, time);
        }
        if waves.is_whole() {
            return Ok(());
        }
        if !listed.go_on(alloc, &mut walk)? {
            waves.end();
            return Ok(());
        }
    }
    Ok(())
}

// What is shown of the run under the log, round the time.
fn seen_of(
    alloc: Global,
    machine: &Machine,
    log: Log,
    looked: Looked,
    around: u64,
    steps: u32,
) -> Result<Seen, NoMemory> {
    let mut waves = Waves::new(alloc, around);
    let mut listed = Steps::new(alloc, looked);
    follow(alloc, machine, &log, &mut waves, &mut listed, steps)?;
    Ok(Seen {
        log,
        waves,
        steps: listed,
    })
}

impl Runs {
    /// What is shown of the run under the log and of its parent, each of which is followed for at most so many steps: the slots round this
    /// time, or where none is known round the one at which the first of them ends, and the steps from where they part.
    pub fn new(
        alloc: Global,
        machine: &Machine,
        log: &Log,
        time: Option<u64>,
        in_run: Marked,
        in_parent: Marked,
        steps: u32,
    ) -> Result<Runs, NoMemory> {
        let first = parent_log(alloc, log)?;
        let time = match time {
            Some(time) => time,
            None => first_end(machine, log, &first, steps)?,
        };
        let looked = looked_at(machine, &first, parting_step(log), in_parent, steps)?;
        let parent = seen_of(alloc, machine, first, looked, time, steps)?;
        let looked = looked_at(machine, log, parting_step(log), in_run, steps)?;
        let departed = seen_of(alloc, machine, log.copy()?, looked, time, steps)?;
        let columns = columns_of(alloc, &parent.waves, &departed.waves)?;
        Ok(Runs {
            parent,
            departed,
            columns,
            time,
        })
    }

    /// Whether the variable has other values in both runs at the time.
    pub fn differs(&self, variable: usize, time: u64) -> bool {
        let one = self.parent.waves.value_at(variable, time);
        let other = self.departed.waves.value_at(variable, time);
        match (one, other) {
            (Some(one), Some(other)) => one.planes() != other.planes(),
            _ => false,
        }
    }

    /// Whether it has at one of the times.
    pub fn differs_somewhere(&self, variable: usize) -> bool {
        for time in &self.columns {
            if self.differs(variable, *time) {
                return true;
            }
        }
        false
    }
}
