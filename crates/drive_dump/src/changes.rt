// What changes at the inputs of a module, slot by slot of a dump.

use crate::columns::InputColumns;
use crate::dump::OpenDump;
use crate::fault::DriveFault;
use crate::module::{DrivenModule, is_among};
use basis::NoMemory;
use drive_ports::Edges;
use drive_text::{Change, MOST_BYTES, Role};
use std::alloc::Global;
use vbits::Vec4;

// The fewest bytes of a change in a testbench.
const FEWEST: usize = 12;

/// An input that a process hears as a reset, and a clock: they change at one time.
#[derive(Clone, Copy)]
pub struct Collision {
    pub input: usize,
    pub clock: usize,
    pub time: u64,
}

/// What was read of a dump: the changes, the first and the last time, and which resets change with a clock.
#[derive(Drop)]
pub struct Recording {
    pub changes: Vec<Change>,
    pub first: u64,
    pub last: u64,
    pub collisions: Vec<Collision>,
    /// The clocks whose first value isn't written.
    pub unwritten: Vec<usize>,
    known: Vec<Option<Vec4>>,
    is_begun: bool,
}

// Whether all its letters are x.
fn is_all_x(value: Vec4) -> bool {
    value.with_sign(false) == Vec4::all_x(value.len())
}

// Whether to begin with this value would be an edge that is heard: to 0 or to 1 from x.
fn is_heard(edges: Edges, value: Vec4) -> bool {
    match value.to_u64() {
        Some(0) => edges.fall,
        Some(1) => edges.rise,
        _ => edges.are_of_clock(),
    }
}

impl Recording {
    // Nothing, of so many ports.
    fn none(alloc: Global, count: usize, first: u64) -> Result<Recording, NoMemory> {
        let mut known = Vec::new(alloc);
        known.resize(count, None)?;
        Ok(Recording {
            changes: Vec::new(alloc),
            first,
            last: first,
            collisions: Vec::new(alloc),
            unwritten: Vec::new(alloc),
            known,
            is_begun: false,
        })
    }

    // What the port is worth from now on, where that is known and news.
    fn news(&mut self, port: usize, value: Option<Vec4>) -> Option<Vec4> {
        let known = self.known.get_mut(port)?;
        let value = value?;
        if *known == Some(value) {
            return None;
        }
        *known = Some(value);
        Some(value)
    }

    // A change more.
    fn put(&mut self, change: Change) -> Result<(), NoMemory> {
        self.changes.push(change)?;
        Ok(())
    }

    // The same, where there may be one more.
    fn push(&mut self, time: u64, port: usize, value: Vec4) -> Result<(), DriveFault> {
        if self.changes.len() >= MOST_BYTES / FEWEST {
            return Err(DriveFault::TooLong);
        }
        self.put(Change { time, port, value })?;
        Ok(())
    }

    // A clock whose first value isn't written.
    fn leave(&mut self, clock: usize) -> Result<(), NoMemory> {
        self.unwritten.push(clock)?;
        Ok(())
    }

    // Takes what is shown as what inputs are worth.
    fn note(&mut self, dump: &OpenDump, columns: &[InputColumns]) {
        for (port, column) in columns.iter().enumerate() {
            let _ = self.news(port, column.value(dump));
        }
    }

    // The first value of a port: it is declared, or a change at the first time.
    fn begin_port(
        &mut self,
        module: &mut DrivenModule,
        port: usize,
        declared: &[&str],
    ) -> Result<(), DriveFault> {
        let (Some(Some(value)), Some(driven)) = (
            self.known.get(port).copied(),
            module.ports.get_mut(port),
        ) else {
            return Ok(());
        };
        if is_all_x(value) {
            return Ok(());
        }
        let is_declared = is_among(declared, &driven.name);
        let is_clock = driven.role == Role::Clock;
        let is_edge = match module.edges.get(port) {
            Some(edges) => is_heard(*edges, value),
            None => false,
        };
        if is_clock && !is_declared && is_edge {
            self.leave(port)?;
            return Ok(());
        }
        if is_clock || is_declared {
            driven.start = Some(value);
            return Ok(());
        }
        self.push(self.first, port, value)
    }

    // The first values of all ports.
    fn begin(&mut self, module: &mut DrivenModule, declared: &[&str]) -> Result<(), DriveFault> {
        if self.is_begun {
            return Ok(());
        }
        self.is_begun = true;
        for port in 0..module.ports.len() {
            self.begin_port(module, port, declared)?;
        }
        Ok(())
    }

    // The changes of clocks at this time, or those of the others.
    fn take(
        &mut self,
        dump: &OpenDump,
        module: &DrivenModule,
        columns: &[InputColumns],
        time: u64,
        are_clocks: bool,
    ) -> Result<(), DriveFault> {
        for (port, column) in columns.iter().enumerate() {
            if module.has_role(port, are_clocks) {
                if let Some(value) = self.news(port, column.value(dump)) {
                    self.push(time, port, value)?;
                }
            }
        }
        Ok(())
    }

    // The first of the changes from this place on that is an edge of a clock.
    fn clock_from(&self, module: &DrivenModule, from: usize) -> Option<usize> {
        for at in from..self.changes.len() {
            let change = self.changes[at];
            let (Some(port), Some(edges)) = (
                module.ports.get(change.port),
                module.edges.get(change.port),
            ) else {
                return None;
            };
            if port.role == Role::Clock
                && (is_heard(*edges, change.value) || !edges.are_of_clock())
            {
                return Some(change.port);
            }
        }
        None
    }

    // When the port changes first.
    fn first_change(&self, port: usize) -> Option<u64> {
        for change in &self.changes {
            if change.port == port {
                return Some(change.time);
            }
        }
        None
    }

    /// Whether the port at this place ever had a value.
    pub fn has_value(&self, port: usize) -> bool {
        match self.known.get(port) {
            Some(Some(_)) => true,
            _ => false,
        }
    }

    /// From when on each input is as the dump has it: a clock whose first value isn't written is x up to its first change. None: never.
    pub fn settled(&self) -> Option<u64> {
        let mut settled = self.first;
        for clock in &self.unwritten {
            settled = settled.max(self.first_change(*clock)?);
        }
        Some(settled)
    }

    // Whether such a collision is known of the input.
    fn has_collision(&self, input: usize) -> bool {
        for collision in &self.collisions {
            if collision.input == input {
                return true;
            }
        }
        false
    }

    // The resets that change with a clock, among the changes from this place on.
    fn collide(&mut self, module: &DrivenModule, from: usize) -> Result<(), NoMemory> {
        let Some(clock) = self.clock_from(module, from) else {
            return Ok(());
        };
        for at in from..self.changes.len() {
            let change = self.changes[at];
            if module.is_posted_reset(change.port) && !self.has_collision(change.port) {
                self.collisions.push(Collision {
                    input: change.port,
                    clock,
                    time: change.time,
                })?;
            }
        }
        Ok(())
    }

    // The slot that is shown, at this time.
    fn take_slot(
        &mut self,
        dump: &OpenDump,
        module: &mut DrivenModule,
        columns: &[InputColumns],
        time: u64,
        declared: &[&str],
    ) -> Result<(), DriveFault> {
        self.last = time;
        if time <= self.first {
            self.note(dump, columns);
            return Ok(());
        }
        self.begin(module, declared)?;
        let from = self.changes.len();
        self.take(dump, module, columns, time, true)?;
        self.take(dump, module, columns, time, false)?;
        self.collide(module, from)?;
        Ok(())
    }
}

/// The times of a dump that are driven, as they are shown; and which inputs are declared with their first values.
#[derive(Clone, Copy)]
pub struct Window<'a> {
    pub from: u64,
    pub to: u64,
    pub declared: &'a [&'a str],
}

/// What changes at the inputs of a module within a window of a dump, of which nothing is shown yet; none where the dump has no time.
pub fn record(
    alloc: Global,
    dump: &mut OpenDump,
    module: &mut DrivenModule,
    columns: &[InputColumns],
    window: Window<'_>,
) -> Result<Option<Recording>, DriveFault> {
    let Some(first) = dump.next_time() else {
        return Ok(None);
    };
    let mut recording = Recording::none(alloc, columns.len(), first.max(window.from))?;
    recording.last = first;
    for _ in 0..u64::MAX {
        let time = match dump.next_time() {
            Some(time) if time <= window.to => time,
            _ => {
                recording.begin(module, window.declared)?;
                return Ok(Some(recording));
            }
        };
        dump.advance(alloc)?;
        recording.take_slot(dump, module, columns, time, window.declared)?;
    }
    Ok(Some(recording))
}
