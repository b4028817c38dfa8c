// What is shown at the time of a slot: by the marks of the slot, and by those that still stand.

ghost use Rattle.std.specs.Prelude.{◌≡◌, [], IfOk, OnOk, length, option_map};
ghost use Rattle.explore.specs.Ranked.{pairs_of};
ghost use Rattle.racebook.specs.Inner.{AreWide};
ghost use Rattle.race_groups.specs.Standing.{AreStatesShown, GoesOnByAllStill, GoesOnByStill, IsFoundAt};
ghost use Rattle.race_groups.specs.Shown.{no_lines};

use crate::standing::{Parted, Standing, part};
use basis::NoMemory;
use explore::FoundMark;
use racebook::{FoundInSlot, SlotState, line_races_in, races_in, slot_state_of, states_of_marks};
use sched_core::bag::Bag;
use std::alloc::Global;
use vmachine::{Machine, MachineState};

/// What a slot gave, and the marks of it from which runs go on.
#[derive(Drop)]
pub(crate) struct FoundAt {
    pub(crate) found: FoundInSlot,
    pub(crate) going_on: Vec<Standing>,
}

// The bag without a line, where lines are looked at.
fn nothing_printed<'f>(printed: Option<&Bag>, none: &'f Bag) -> Option<&'f Bag>
    requires { none.now ≡ [] }
    ensures { option_map (λ bag. bag.now) result ≡ no_lines (option_map (λ bag. bag.now) printed.entry) }
{
    match printed {
        None => None,
        Some(_) => Some(none),
    }
}

// Puts last what the mark shows at the time, if it stands past it and is the end of a slot.
fn put_still<'f>(
    machine: &Machine,
    slot_states: &mut Vec<SlotState<'f>>,
    time: u64,
    standing: &'f Standing,
    none: &'f Bag,
) -> Result<(), NoMemory>
    requires { none.now ≡ [] }
    ensures { OnOk result (GoesOnByStill machine.now time standing.now slot_states.old.items slot_states.new.items) }
{
    if standing.next <= time {
        return Ok(());
    }
    if let Some(seen) = slot_state_of(machine, &standing.found.state, &standing.found.log) {
        slot_states.push(SlotState {
            time,
            values: seen.values,
            printed: nothing_printed(seen.printed, none),
            log: seen.log,
        })?;
    }
    Ok(())
}

// Puts last what these show.
fn put_all_still<'f>(
    machine: &Machine,
    slot_states: &mut Vec<SlotState<'f>>,
    time: u64,
    standing: &'f [Standing],
    none: &'f Bag,
) -> Result<(), NoMemory>
    requires { none.now ≡ [] }
    ensures { OnOk result (GoesOnByAllStill machine.now time standing.now slot_states.old.items slot_states.new.items) }
{
    for place in 0..standing.len() {
        put_still(machine, slot_states, time, &standing[place], none)?;
    }
    Ok(())
}

// All that is shown at the time of these marks; nothing where none of them is the end of a slot.
fn states_shown<'f>(
    alloc: Global,
    machine: &Machine,
    time: u64,
    marks: &'f [FoundMark<MachineState>],
    standing: &'f [Standing],
    none: &'f Bag,
) -> Result<Vec<SlotState<'f>>, NoMemory>
    requires { none.now ≡ [] }
    ensures shown { IfOk result (λ states. AreStatesShown machine.now time (pairs_of marks.now) standing.now states.items) }
    ensures wide { IfOk result (λ states. AreWide (length machine.now.design.variables) states.items) }
{
    let mut slot_states = states_of_marks(alloc, machine, marks)?;
    if slot_states.is_empty() {
        return Ok(slot_states);
    }
    put_all_still(machine, &mut slot_states, time, standing, none)?;
    Ok(slot_states)
}

/// What these marks of one slot give beside those that stand: E901 is the only refusal.
pub(crate) fn found_at(
    alloc: Global,
    machine: &Machine,
    time: u64,
    marks: Vec<FoundMark<MachineState>>,
    standing: &[Standing],
) -> Result<FoundAt, NoMemory>
    ensures { IfOk result (IsFoundAt machine.now time (pairs_of marks.items) standing.now) }
{
    let none = Bag::new(alloc);
    let slot_states = states_shown(alloc, machine, time, &marks, standing, &none)?;
    let line_races = line_races_in(alloc, &slot_states)?;
    let races = races_in(alloc, slot_states, machine.design().variables.len())?;
    let Parted { ends, going_on } = part(alloc, machine, marks)?;
    Ok(FoundAt {
        found: FoundInSlot {
            races,
            line_races,
            ends,
        },
        going_on,
    })
}
