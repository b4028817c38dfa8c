// The steps of a run, from the one at which it parts from another one to the end of their slot.

use crate::walk::Walk;
use basis::NoMemory;
use std::alloc::Global;
use vbits::Vec4;

// How many of the first steps are listed, and how many of the last ones; besides, those that race are.
const FIRST: usize = 24;

const LAST: u32 = 8;

// How many of the variables that a step changes are named.
const CHANGES: usize = 3;

/// A variable that a step changes.
#[derive(Clone, Copy)]
pub struct Change {
    pub variable: usize,
    pub before: Vec4,
    pub after: Vec4,
}

/// A step: how many before it aren't listed, its number, the place of its action if it has one, whether it is one of the two that race,
/// the first variables that it changes, and how many more they are.
pub struct Row {
    pub gap: u64,
    pub number: u32,
    pub action: Option<usize>,
    pub races: bool,
    pub changes: Vec<Change>,
    pub more: u64,
}

impl Drop for Row {
    fn drop(self) {
        let Row {
            gap: _,
            number: _,
            action: _,
            races: _,
            changes: _,
            more: _,
        } = self;
    }
}

/// Which steps are looked at: from this one on and before the other one, and among them those that race.
#[derive(Clone, Copy)]
pub struct Looked {
    pub from: u32,
    pub to: u32,
    pub one: Option<u32>,
    pub other: Option<u32>,
}

/// Steps that are listed, in order, and the time of their slot, if it has an end.
pub struct Steps {
    pub rows: Vec<Row>,
    pub time: Option<u64>,
    looked: Looked,
    gap: u64,
}

impl Drop for Steps {
    fn drop(self) {
        let Steps {
            rows: _,
            time: _,
            looked: _,
            gap: _,
        } = self;
    }
}

impl Looked {
    // Whether the step is one of the two that race.
    fn races(&self, step: u32) -> bool {
        self.one == Some(step) || self.other == Some(step)
    }

    // Whether the step is one of the last ones.
    fn is_late(&self, step: u32) -> bool {
        step.saturating_add(LAST) >= self.to
    }
}

impl Row {
    // Whether the step gives the variable another value.
    fn see(&mut self, variable: usize, before: Vec4, after: Vec4) -> Result<(), NoMemory> {
        if before.planes() == after.planes() {
            return Ok(());
        }
        if self.changes.len() < CHANGES {
            self.changes.push(Change {
                variable,
                before,
                after,
            })?;
        } else {
            self.more = self.more.saturating_add(1);
        }
        Ok(())
    }

    // What the step changes.
    fn see_all(&mut self, before: &[Vec4], after: &[Vec4]) -> Result<(), NoMemory> {
        for (variable, value) in before.iter().enumerate() {
            if let Some(new) = after.get(variable) {
                self.see(variable, *value, *new)?;
            }
        }
        Ok(())
    }
}

impl Steps {
    /// No step yet.
    pub(crate) fn new(alloc: Global, looked: Looked) -> Steps {
        Steps {
            rows: Vec::new(alloc),
            time: None,
            looked,
            gap: 0,
        }
    }

    /// Here the slot of this time ends: if it was that of the first of these steps, no more of them come.
    pub(crate) fn end_slot(&mut self, walk: &Walk<'_>, time: u64) {
        if walk.step() > self.looked.from && self.time.is_none() {
            self.time = Some(time);
        }
    }

    // The row of the next step, of which it isn't known yet what it changes.
    fn row_of(&self, alloc: Global, walk: &Walk<'_>) -> Row {
        Row {
            gap: self.gap,
            number: walk.step(),
            action: walk.action(),
            races: self.looked.races(walk.step()),
            changes: Vec::new(alloc),
            more: 0,
        }
    }

    // Takes the next step, if there is one, and lists it.
    fn list(&mut self, alloc: Global, walk: &mut Walk<'_>) -> Result<bool, NoMemory> {
        let mut row = self.row_of(alloc, walk);
        let before = Vec::from_slice(alloc, walk.values())?;
        if !walk.go_on()? {
            return Ok(false);
        }
        row.see_all(&before, walk.values())?;
        self.rows.push(row)?;
        self.gap = 0;
        Ok(true)
    }

    // Takes the next step, if there is one, and counts it.
    fn count(&mut self, walk: &mut Walk<'_>) -> Result<bool, NoMemory> {
        let taken = walk.go_on()?;
        if taken {
            self.gap = self.gap.saturating_add(1);
        }
        Ok(taken)
    }

    /// Takes the next step, if there is one; lists it where it is looked at.
    pub(crate) fn go_on(&mut self, alloc: Global, walk: &mut Walk<'_>) -> Result<bool, NoMemory> {
        let step = walk.step();
        if self.time.is_some() || step < self.looked.from {
            return walk.go_on();
        }
        if self.rows.len() < FIRST || self.looked.is_late(step) || self.looked.races(step) {
            self.list(alloc, walk)
        } else {
            self.count(walk)
        }
    }
}
