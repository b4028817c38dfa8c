// What is told of races: differences, by their causes.

ghost use Rattle.std.specs.Prelude.{OnErr, OnOk};
ghost use Rattle.race_groups.specs.Inner.{Follows, IsUntouched};
ghost use Rattle.race_groups.specs.Times.{IsTimeOf, IsTimeOfEnds};

use basis::NoMemory;
use cause::Cause;
use explore::{FoundMark, RankedFindings};
use racebook::{LineRace, Race};
use sched_core::Log;
use vmachine::{Machine, MachineState};

/// Which differences are told.
#[derive(Clone, Copy)]
pub struct Scope {
    /// Those of slots before this time are only counted.
    pub from: u64,
    /// How many of those that follow a group's first are kept by name.
    pub names: usize,
}

/// What runs differ in.
pub enum Difference {
    /// A variable is shown with two or more values at the end of a slot.
    Values(Race),
    /// Different lines are shown at the end of a slot.
    Lines(LineRace),
    /// Two states in which runs end, and which differ in time, cause, values, or the lines of the last slot. They are told only
    /// where no values and no lines differ.
    Ends(Vec<FoundMark<MachineState>>),
}

impl Drop for Difference {
    fn drop(self) {
        match self {
            Difference::Values(_) => {}
            Difference::Lines(_) => {}
            Difference::Ends(_) => {}
        }
    }
}

/// A difference by its name: a variable at a time or, where it is of none, the lines of a time.
#[derive(Clone, Copy)]
pub struct Name {
    pub time: u64,
    pub variable: Option<usize>,
}

/// Differences that one cause explains.
pub struct Group {
    /// The cause of the run under the log; none where none was found.
    pub cause: Option<Cause>,
    /// The log of a side of the first difference.
    pub log: Log,
    /// The first difference, whole.
    pub first: Difference,
    /// The next ones by name, as many as the scope says, in the order of time.
    pub next: Vec<Name>,
    /// How many follow the first, those of `next` too.
    pub more: u64,
    /// The time of the last of them; where none follows, that of the first.
    pub last: u64,
}

impl Drop for Group {
    fn drop(self) {
        let Group {
            cause: _,
            log: _,
            first: _,
            next: _,
            more: _,
            last: _,
        } = self;
    }
}

/// What a search for races found, and how far it came.
#[derive(Drop)]
pub struct Races {
    /// In the order of the times of their first differences.
    pub groups: Vec<Group>,
    /// How many differences there were before the time from which on they are told.
    pub ignored: u64,
    /// Where all runs end alike, but a slot that `$finish` or `$stop` cuts leaves different values: two such ends, one of the fewest
    /// departures first. Else none.
    pub cut_ends: Vec<FoundMark<MachineState>>,
    /// Whether a run ended, at whichever time.
    pub ended: bool,
    /// Whether a run ended by the time limit.
    pub cut_runs: bool,
    /// The want of memory, if it was met while the differences of a slot were put into groups: these may count some of that slot then,
    /// which isn't closed.
    pub refused: Option<NoMemory>,
    pub search: RankedFindings,
}

// The time at which a run ends that ends in the first of these states.
fn time_of_ends(machine: &Machine, ends: &[FoundMark<MachineState>]) -> u64
    ensures { IsTimeOfEnds machine.now ends.now result }
{
    match ends.first() {
        None => 0,
        Some(found) => match machine.end_of(&found.state) {
            None => 0,
            Some(end) => end.time,
        },
    }
}

impl Difference {
    /// Its time: that of its slot; of ends that of the first, in the machine whose runs they are of.
    pub fn time(&self, machine: &Machine) -> u64
        ensures { IsTimeOf machine.now self.now result }
    {
        match self {
            Difference::Values(race) => race.time,
            Difference::Lines(race) => race.time,
            Difference::Ends(ends) => time_of_ends(machine, ends),
        }
    }
}

impl Group {
    /// One difference more.
    pub(crate) fn follow(&mut self, name: Name, names: usize) -> Result<(), NoMemory>
        ensures ok { OnOk result (Follows names name self.old self.new) }
        ensures err { OnErr result (IsUntouched self.old self.new) }
    {
        if self.next.len() < names {
            self.next.push(name)?;
        }
        self.more = self.more.saturating_add(1);
        self.last = name.time;
        Ok(())
    }
}
