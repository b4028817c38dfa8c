// What is seen of a mark that is the end of a slot.

ghost use Rattle.std.specs.Prelude.{◌≡◌, IfSome, IfNone, IfOk, OnOk};
ghost use Rattle.explore.specs.Ranked.{pairs_of};
ghost use Rattle.racebook.specs.Inner.{AreSlotStates, AreSlotStatesOf, GoesOnBy, HaveAllValues, IsSlotState, IsNoSlot, printing_among};

use basis::NoMemory;
use explore::{Findings, FoundMark};
use sched_core::Log;
use sched_core::bag::Bag;
use std::alloc::Global;
use vbits::Vec4;
use vmachine::{Machine, MachineState};

/// The state at the end of a slot: its time, the values of all variables there, the lines that the slot printed, where lines
/// are looked at, and the departures of a run that comes to it.
#[derive(Clone, Copy)]
pub struct SlotState<'f> {
    pub time: u64,
    pub values: &'f [Vec4],
    pub printed: Option<&'f Bag>,
    pub log: &'f Log,
}

/// What is seen of one mark. A state of another machine, with other variables, is passed over.
pub fn slot_state_of<'f>(
    machine: &Machine,
    machine_state: &'f MachineState,
    log: &'f Log,
) -> Option<SlotState<'f>>
    ensures some { IfSome result (IsSlotState machine.now (machine_state.now, log.now)) }
    ensures none { IfNone result (IsNoSlot machine.now machine_state.now) }
{
    let time = machine.slot_of(machine_state)?;
    let values = machine.values(machine_state);
    if values.len() != machine.design().variables.len() {
        return None;
    }
    let printed = machine.printed(machine_state);
    Some(SlotState {
        time,
        values,
        printed,
        log,
    })
}

// Puts what is seen of the mark last, if it is the end of a slot.
fn put_slot_state<'f>(
    machine: &Machine,
    slot_states: &mut Vec<SlotState<'f>>,
    machine_state: &'f MachineState,
    log: &'f Log,
) -> Result<(), NoMemory>
    ensures { OnOk result (GoesOnBy machine.now (machine_state.now, log.now) slot_states.old.items slot_states.new.items) }
{
    if let Some(slot_state) = slot_state_of(machine, machine_state, log) {
        slot_states.push(slot_state)?;
    }
    Ok(())
}

/// What is seen of the findings' marks that are ends of slots.
pub fn states_of_findings<'f>(
    alloc: Global,
    machine: &Machine,
    findings: &'f Findings<MachineState>,
) -> Result<Vec<SlotState<'f>>, NoMemory>
    ensures of { IfOk result (λ slot_states. AreSlotStatesOf machine.now findings.now slot_states.items) }
    ensures wide { IfOk result (λ slot_states. HaveAllValues machine.now slot_states.items) }
{
    let mut slot_states = Vec::new(alloc);
    for place in 0..findings.marks.len() {
        if let Some((machine_state, log)) = findings.marks.get_index(place) {
            put_slot_state(machine, &mut slot_states, machine_state, log)?;
        }
    }
    Ok(slot_states)
}

/// What is seen of these marks that are ends of slots.
pub fn states_of_marks<'f>(
    alloc: Global,
    machine: &Machine,
    marks: &'f [FoundMark<MachineState>],
) -> Result<Vec<SlotState<'f>>, NoMemory>
    ensures of { IfOk result (λ slot_states. AreSlotStates machine.now (pairs_of marks.now) slot_states.items) }
    ensures wide { IfOk result (λ slot_states. HaveAllValues machine.now slot_states.items) }
{
    let mut slot_states = Vec::new(alloc);
    for place in 0..marks.len() {
        let found = &marks[place];
        put_slot_state(machine, &mut slot_states, &found.state, &found.log)?;
    }
    Ok(slot_states)
}

/// Those that have lines.
pub fn printing_of<'f>(
    alloc: Global,
    slot_states: &[SlotState<'f>],
) -> Result<Vec<SlotState<'f>>, NoMemory>
    ensures { IfOk result (λ printing. printing.items ≡ printing_among slot_states.now) }
{
    let mut printing = Vec::new(alloc);
    for place in 0..slot_states.len() {
        let slot_state = slot_states[place];
        if slot_state.printed.is_some() {
            printing.push(slot_state)?;
        }
    }
    Ok(printing)
}
