// What runs differ in, as plain data.

use crate::apart::{apart_in, apart_of};
use crate::replayed::values_at_start;
use basis::NoMemory;
use explore::FoundMark;
use race_findings::{Apart, Aspect, Difference, Evidence, RunEnd, Side};
use race_groups::Difference as Found;
use racebook::{LineRace, Race};
use sched_core::bag::Bag;
use std::alloc::Global;
use vmachine::{Machine, MachineState};

// Puts the sides of the default run, or the others, of a race of a variable.
fn put_values(sides: &mut Vec<Side>, race: &Race, default: bool) -> Result<(), NoMemory> {
    for witness in &race.values {
        if witness.log.members().is_empty() == default {
            sides.push(Side {
                log: witness.log.copy()?,
                evidence: Evidence::Value(witness.value),
            })?;
        }
    }
    Ok(())
}

// The same of a race of lines.
fn put_lines(
    alloc: Global,
    sides: &mut Vec<Side>,
    race: &LineRace,
    default: bool,
) -> Result<(), NoMemory> {
    for side in &race.sides {
        if side.log.members().is_empty() == default {
            sides.push(Side {
                log: side.log.copy()?,
                evidence: Evidence::Lines(side.lines.copy(alloc)?),
            })?;
        }
    }
    Ok(())
}

// The lines that a state of the machine has printed, if they are looked at.
fn lines_of(
    alloc: Global,
    machine: &Machine,
    state: &MachineState,
) -> Result<Option<Bag>, NoMemory> {
    match machine.printed(state) {
        None => Ok(None),
        Some(lines) => Ok(Some(lines.copy(alloc)?)),
    }
}

/// Where a run ends, and what is so in this state of the machine.
pub fn run_end(alloc: Global, machine: &Machine, state: &MachineState) -> Result<RunEnd, NoMemory> {
    Ok(RunEnd {
        end: machine.end_of(state),
        values: Vec::from_slice(alloc, machine.values(state))?,
        lines: lines_of(alloc, machine, state)?,
    })
}

// The same of ends.
fn put_ends(
    alloc: Global,
    sides: &mut Vec<Side>,
    machine: &Machine,
    ends: &[FoundMark<MachineState>],
    default: bool,
) -> Result<(), NoMemory> {
    for found in ends {
        if found.log.members().is_empty() == default {
            sides.push(Side {
                log: found.log.copy()?,
                evidence: Evidence::End(run_end(alloc, machine, &found.state)?),
            })?;
        }
    }
    Ok(())
}

// The sides, that of the default run first, if one is its.
fn value_sides(alloc: Global, race: &Race) -> Result<Vec<Side>, NoMemory> {
    let mut sides = Vec::new(alloc);
    put_values(&mut sides, race, true)?;
    put_values(&mut sides, race, false)?;
    Ok(sides)
}

// The same of lines.
fn line_sides(alloc: Global, race: &LineRace) -> Result<Vec<Side>, NoMemory> {
    let mut sides = Vec::new(alloc);
    put_lines(alloc, &mut sides, race, true)?;
    put_lines(alloc, &mut sides, race, false)?;
    Ok(sides)
}

// The same of ends.
fn end_sides(
    alloc: Global,
    machine: &Machine,
    ends: &[FoundMark<MachineState>],
) -> Result<Vec<Side>, NoMemory> {
    let mut sides = Vec::new(alloc);
    put_ends(alloc, &mut sides, machine, ends, true)?;
    put_ends(alloc, &mut sides, machine, ends, false)?;
    Ok(sides)
}

// Of these variables those of which two runs have the same value where the slot of this time begins.
fn alike_at_start(
    alloc: Global,
    machine: &Machine,
    one: &FoundMark<MachineState>,
    other: &FoundMark<MachineState>,
    time: u64,
    variables: &[usize],
) -> Result<Vec<usize>, NoMemory> {
    let values = values_at_start(alloc, machine, &one.log, time)?;
    let others = values_at_start(alloc, machine, &other.log, time)?;
    let mut alike = Vec::new(alloc);
    for number in variables {
        if values.get(*number) == others.get(*number) {
            alike.push(*number)?;
        }
    }
    Ok(alike)
}

// What two ends differ in by their last slot alone.
fn cut_apart(
    alloc: Global,
    machine: &Machine,
    one: &FoundMark<MachineState>,
    other: &FoundMark<MachineState>,
    time: u64,
) -> Result<Apart, NoMemory> {
    let apart = apart_in(alloc, machine, &one.state, &other.state)?;
    Ok(Apart {
        in_end: false,
        variables: alike_at_start(alloc, machine, one, other, time, &apart.variables)?,
        in_lines: false,
    })
}

/// Where all runs end alike, but for the values that a cut slot leaves: the variables of which two of these ends have different values that
/// come about in that slot. None where there are no such ends or variables.
pub fn cut_values_of(
    alloc: Global,
    machine: &Machine,
    ends: &[FoundMark<MachineState>],
) -> Result<Option<Difference>, NoMemory> {
    let (Some(one), Some(other)) = (ends.get(0), ends.get(1)) else {
        return Ok(None);
    };
    let Some(end) = machine.end_of(&one.state) else {
        return Ok(None);
    };
    let apart = cut_apart(alloc, machine, one, other, end.time)?;
    if apart.variables.is_empty() {
        return Ok(None);
    }
    Ok(Some(Difference {
        time: end.time,
        aspect: Aspect::Ends(apart),
        sides: end_sides(alloc, machine, ends)?,
    }))
}

/// The difference of the machine's runs, with its sides, that of the default run first, if one is its.
pub fn difference_of(
    alloc: Global,
    machine: &Machine,
    found: &Found,
) -> Result<Difference, NoMemory> {
    let (aspect, sides) = match found {
        Found::Values(race) => (Aspect::Variable(race.variable), value_sides(alloc, race)?),
        Found::Lines(race) => (Aspect::Lines, line_sides(alloc, race)?),
        Found::Ends(ends) => (
            Aspect::Ends(apart_of(alloc, machine, ends)?),
            end_sides(alloc, machine, ends)?,
        ),
    };
    Ok(Difference {
        time: found.time(machine),
        aspect,
        sides,
    })
}
