// The different values of one variable in one slot, each with the fewest departures that lead to it.

ghost use Rattle.std.specs.Prelude.{◌≡◌, ◌+◌, ◌<◌, IfOk, OnOk, Some, length, slice_get};
ghost use Rattle.racebook.specs.Order.{AreInTextOrder};
ghost use Rattle.racebook.specs.Inner.{AreBest, HaveValue, KeepsBest, IsBestBelow, TellsTwo, key_cmp, key_of, rows_of, value_in};

use crate::key::{Key, key};
use crate::race::Witness;
use crate::slot_state::SlotState;
use basis::NoMemory;
use std::alloc::Global;
use std::collections::BTreeMap;
use vbits::Vec4;

// The variable's value in the slot state.
fn value_at(slot_state: &SlotState, variable: usize) -> Vec4
    requires { variable < length slot_state.now.values.now }
    ensures { result ≡ value_in variable slot_state.now }
{
    let values = slot_state.values;
    values[variable]
}

/// The slot state at a place of the slot.
pub fn slot_state_at<'s, 'f>(slot: &'s [SlotState<'f>], place: usize) -> &'s SlotState<'f>
    requires { place < length slot.now }
    ensures { slice_get slot.now place ≡ Some result.now }
{
    &slot[place]
}

/// How many departures lead to the slot state.
pub fn departures(slot_state: &SlotState) -> usize
    ensures { result ≡ length slot_state.now.log.now }
{
    slot_state.log.members().len()
}

/// Whether two slot states of the slot have different values of the variable.
pub fn differ(slot: &[SlotState], variable: usize) -> bool
    requires { HaveValue variable slot.now }
    ensures { TellsTwo (rows_of variable slot.now) result }
{
    if slot.is_empty() {
        return false;
    }
    let first = value_at(&slot[0], variable);
    for slot_state in slot {
        if value_at(slot_state, variable) != first {
            return true;
        }
    }
    false
}

// Notes the place by its value, unless one of no more departures is noted for it.
fn note(
    best: &mut BTreeMap<Key, usize>,
    slot: &[SlotState],
    variable: usize,
    place: usize,
) -> Result<(), NoMemory>
    requires have { HaveValue variable slot.now }
    requires within { place < length slot.now }
    requires best { IsBestBelow key_of key_cmp (rows_of variable slot.now) place best.old }
    ensures { OnOk result (IsBestBelow key_of key_cmp (rows_of variable slot.now) (place + 1) best.new) }
{
    let slot_state = slot_state_at(slot, place);
    let key = key(value_at(slot_state, variable));
    if let Some(noted) = best.get(&key).copied() {
        let other = slot_state_at(slot, noted);
        if departures(other) <= departures(slot_state) {
            return Ok(());
        }
    }
    best.insert(key, place)?;
    Ok(())
}

// For each value that the variable has, the first place of the fewest departures.
fn best_of(
    alloc: Global,
    slot: &[SlotState],
    variable: usize,
) -> Result<BTreeMap<Key, usize>, NoMemory>
    requires { HaveValue variable slot.now }
    ensures { IfOk result (KeepsBest key_of key_cmp (rows_of variable slot.now)) }
{
    let mut best = BTreeMap::new(alloc);
    for place in 0..slot.len() {
        note(&mut best, slot, variable, place)?;
    }
    Ok(best)
}

// The rows that the entries name, in the order of their keys.
fn list_of(
    alloc: Global,
    slot: &[SlotState],
    variable: usize,
    best: &BTreeMap<Key, usize>,
) -> Result<Vec<Witness>, NoMemory>
    requires have { HaveValue variable slot.now }
    requires best { KeepsBest key_of key_cmp (rows_of variable slot.now) best.now }
    ensures { IfOk result (λ values. AreBest AreInTextOrder (rows_of variable slot.now) values.items) }
{
    let mut values = Vec::new(alloc);
    for (_key, place) in best.iter() {
        let slot_state = slot_state_at(slot, *place);
        values.push(Witness {
            value: value_at(slot_state, variable),
            log: slot_state.log.copy()?,
        })?;
    }
    Ok(values)
}

/// The different values of the variable in the slot, each with the log of the fewest departures, in the order of their
/// texts.
pub fn values_of(
    alloc: Global,
    slot: &[SlotState],
    variable: usize,
) -> Result<Vec<Witness>, NoMemory>
    requires { HaveValue variable slot.now }
    ensures { IfOk result (λ values. AreBest AreInTextOrder (rows_of variable slot.now) values.items) }
{
    let best = best_of(alloc, slot, variable)?;
    list_of(alloc, slot, variable, &best)
}
