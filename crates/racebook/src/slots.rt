// What is kept of slots that are closed.

ghost use Rattle.std.specs.Prelude.{◌≡◌, [], IfOk, OnErr, OnOk};
ghost use Rattle.explore.specs.Ranked.{pairs_of};
ghost use Rattle.racebook.specs.Inner.{AreEndsOf, GoesOnByEnd, IsFoundIn, IsPutBehind, KeepsSame, KeepsSlots};

use crate::book::{line_races_in, races_in};
use crate::line_race::LineRace;
use crate::race::Race;
use crate::slot_state::states_of_marks;
use basis::NoMemory;
use explore::{Collector, FoundMark, RankMarks};
use std::alloc::Global;
use vmachine::{Machine, MachineState};

/// The races, the races of lines and the ends of the slots that are closed. All slot ends of one time stand in one rank, so each
/// rank's races are made from its marks alone, which are then forgotten.
#[derive(Drop)]
pub struct ClosedSlots<'m> {
    pub alloc: Global,
    pub machine: &'m Machine,
    pub races: Vec<Race>,
    pub line_races: Vec<LineRace>,
    pub ends: Vec<FoundMark<MachineState>>,
}

/// What one slot gave: its races, its races of lines and the states in which runs end.
#[derive(Drop)]
pub struct FoundInSlot {
    pub races: Vec<Race>,
    pub line_races: Vec<LineRace>,
    pub ends: Vec<FoundMark<MachineState>>,
}

impl<'m> ClosedSlots<'m> {
    /// None yet.
    pub fn new(alloc: Global, machine: &'m Machine) -> ClosedSlots<'m>
        ensures machine { result.machine.now ≡ machine.now }
        ensures none { KeepsSlots machine.now result [] }
    {
        ClosedSlots {
            alloc,
            machine,
            races: Vec::new(alloc),
            line_races: Vec::new(alloc),
            ends: Vec::new(alloc),
        }
    }

    // Puts what a slot gave last; after want of memory nothing of it.
    fn put(&mut self, mut found: FoundInSlot) -> Result<(), NoMemory>
        ensures ok { OnOk result (IsPutBehind self.old found self.new) }
        ensures err { OnErr result (KeepsSame self.old self.new) }
    {
        self.races.reserve(found.races.len())?;
        self.line_races.reserve(found.line_races.len())?;
        self.ends.reserve(found.ends.len())?;
        self.races.append(&mut found.races)?;
        self.line_races.append(&mut found.line_races)?;
        self.ends.append(&mut found.ends)?;
        Ok(())
    }
}

// Puts the mark last, if a run ends there.
fn put_end(
    machine: &Machine,
    ends: &mut Vec<FoundMark<MachineState>>,
    found: FoundMark<MachineState>,
) -> Result<(), NoMemory>
    ensures { OnOk result (GoesOnByEnd machine.now found ends.old.items ends.new.items) }
{
    match machine.end_of(&found.state) {
        None => Ok(()),
        Some(_) => {
            ends.push(found)?;
            Ok(())
        }
    }
}

// The marks in which runs end.
fn ends_among(
    alloc: Global,
    machine: &Machine,
    marks: Vec<FoundMark<MachineState>>,
) -> Result<Vec<FoundMark<MachineState>>, NoMemory>
    ensures { IfOk result (λ ends. AreEndsOf machine.now (pairs_of marks.items) (pairs_of ends.items)) }
{
    let mut ends = Vec::new(alloc);
    for found in marks {
        put_end(machine, &mut ends, found)?;
    }
    Ok(ends)
}

/// What these marks of one slot give. E901 is the only refusal.
pub fn found_in(
    alloc: Global,
    machine: &Machine,
    marks: Vec<FoundMark<MachineState>>,
) -> Result<FoundInSlot, NoMemory>
    ensures { IfOk result (IsFoundIn machine.now (pairs_of marks.items)) }
{
    let slot_states = states_of_marks(alloc, machine, &marks)?;
    let line_races = line_races_in(alloc, &slot_states)?;
    let races = races_in(alloc, slot_states, machine.design().variables.len())?;
    let ends = ends_among(alloc, machine, marks)?;
    Ok(FoundInSlot {
        races,
        line_races,
        ends,
    })
}

/// After want of memory nothing of the slot is kept.
impl<'m> Collector<MachineState> for ClosedSlots<'m> {
    ghost use Rattle.explore.specs.Ranked.{CollectsMore, StaysAs, closing_of};
    ghost use Rattle.racebook.specs.Inner.{CollectsSlots, collects_nothing};

    ghost collects = { CollectsSlots };

    fn collect(&mut self, closed: RankMarks<MachineState>) -> Result<(), NoMemory>
        ensures ok { OnOk result (CollectsMore CollectsSlots self.old (closing_of closed) self.new) }
        ensures err { OnErr result (StaysAs CollectsSlots self.old self.new) }
    {
        let found = found_in(self.alloc, self.machine, closed.marks)?;
        self.put(found)
    }

    fn found_count(&self) -> usize {
        self.races.len().saturating_add(self.line_races.len())
    }

    ghost none = { collects_nothing };
}
