// The races of one slot.

ghost use Rattle.std.specs.Prelude.{◌≡◌, IfOk, OnOk};
ghost use Rattle.racebook.specs.Inner.{AreWide, GoesThrough, GoesThroughLines, HavePrinted, HaveValue, TellsLineRace, TellsRace, rows_of, rows_of_lines};

use crate::line_race::LineRace;
use crate::lines::{differ_in_lines, sides_of};
use crate::race::Race;
use crate::slot_state::SlotState;
use crate::values::{differ, values_of};
use basis::NoMemory;
use std::alloc::Global;

// The race of the variable in the slot, if there is one. Where it has one value only no memory is taken.
fn race_of(
    alloc: Global,
    slot: &[SlotState],
    time: u64,
    variable: usize,
) -> Result<Option<Race>, NoMemory>
    requires { HaveValue variable slot.now }
    ensures { IfOk result (TellsRace (rows_of variable slot.now) time variable) }
{
    if !differ(slot, variable) {
        return Ok(None);
    }
    Ok(Some(Race {
        time,
        variable,
        values: values_of(alloc, slot, variable)?,
    }))
}

/// Puts the races of the slot last, in the order of variables.
pub fn put_races(
    alloc: Global,
    races: &mut Vec<Race>,
    slot: &[SlotState],
    time: u64,
    count: usize,
) -> Result<(), NoMemory>
    requires wide { AreWide count slot.now }
    ensures { OnOk result (GoesThrough time count slot.now races.old.items races.new.items) }
{
    for variable in 0..count {
        if let Some(race) = race_of(alloc, slot, time, variable)? {
            races.push(race)?;
        }
    }
    Ok(())
}

// The race of lines in the slot, if there is one. Where its lines are the same no memory is taken.
fn line_race_of(alloc: Global, slot: &[SlotState], time: u64) -> Result<Option<LineRace>, NoMemory>
    requires { HavePrinted slot.now }
    ensures { IfOk result (TellsLineRace (rows_of_lines slot.now) time) }
{
    if !differ_in_lines(slot) {
        return Ok(None);
    }
    Ok(Some(LineRace {
        time,
        sides: sides_of(alloc, slot)?,
    }))
}

/// Puts the race of lines of the slot last, if there is one.
pub fn put_line_race(
    alloc: Global,
    races: &mut Vec<LineRace>,
    slot: &[SlotState],
    time: u64,
) -> Result<(), NoMemory>
    requires { HavePrinted slot.now }
    ensures { OnOk result (GoesThroughLines time slot.now races.old.items races.new.items) }
{
    if let Some(race) = line_race_of(alloc, slot, time)? {
        races.push(race)?;
    }
    Ok(())
}
