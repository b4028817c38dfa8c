// The different lines that one slot printed, each with the fewest departures that lead to them.

ghost use Rattle.std.specs.Prelude.{◌≡◌, ◌+◌, ◌<◌, IfOk, OnOk, length};
ghost use Rattle.std.specs.Option.{IsSome};
ghost use Rattle.sched_core.specs.Bags.{bag_cmp};
ghost use Rattle.racebook.specs.LineRaces.{AreSidesInOrder};
ghost use Rattle.racebook.specs.Inner.{AreBest, HavePrinted, IsBestBelow, KeepsBest, TellsTwo, lines_in, rows_of_lines, themselves};

use crate::line_race::Side;
use crate::slot_state::SlotState;
use crate::values::{departures, slot_state_at};
use basis::NoMemory;
use sched_core::bag::Bag;
use std::alloc::Global;
use std::collections::BTreeMap;

// The lines of the slot state.
fn lines_at<'f>(slot_state: &SlotState<'f>) -> &'f Bag
    requires { IsSome slot_state.now.printed }
    ensures { result.now ≡ lines_in slot_state.now }
{
    match slot_state.printed {
        Some(lines) => lines,
        None => unreachable!(),
    }
}

/// Whether two slot states of the slot have different lines.
pub fn differ_in_lines(slot: &[SlotState]) -> bool
    requires { HavePrinted slot.now }
    ensures { TellsTwo (rows_of_lines slot.now) result }
{
    if slot.is_empty() {
        return false;
    }
    let first = lines_at(&slot[0]);
    for slot_state in slot {
        if lines_at(slot_state) != first {
            return true;
        }
    }
    false
}

// Notes the place by its lines, unless one of no more departures is noted for them.
fn note(
    alloc: Global,
    best: &mut BTreeMap<Bag, usize>,
    slot: &[SlotState],
    place: usize,
) -> Result<(), NoMemory>
    requires have { HavePrinted slot.now }
    requires within { place < length slot.now }
    requires best { IsBestBelow themselves bag_cmp (rows_of_lines slot.now) place best.old }
    ensures { OnOk result (IsBestBelow themselves bag_cmp (rows_of_lines slot.now) (place + 1) best.new) }
{
    let slot_state = slot_state_at(slot, place);
    let lines = lines_at(slot_state);
    if let Some(noted) = best.get(lines).copied() {
        let other = slot_state_at(slot, noted);
        if departures(other) <= departures(slot_state) {
            return Ok(());
        }
    }
    best.insert(lines.copy(alloc)?, place)?;
    Ok(())
}

// For all lines that the slot printed, the first place of the fewest departures.
fn best_of(alloc: Global, slot: &[SlotState]) -> Result<BTreeMap<Bag, usize>, NoMemory>
    requires { HavePrinted slot.now }
    ensures { IfOk result (KeepsBest themselves bag_cmp (rows_of_lines slot.now)) }
{
    let mut best = BTreeMap::new(alloc);
    for place in 0..slot.len() {
        note(alloc, &mut best, slot, place)?;
    }
    Ok(best)
}

// The rows that the entries name, in the order of their lines.
fn list_of(
    alloc: Global,
    slot: &[SlotState],
    best: BTreeMap<Bag, usize>,
) -> Result<Vec<Side>, NoMemory>
    requires { KeepsBest themselves bag_cmp (rows_of_lines slot.now) best }
    ensures { IfOk result (λ sides. AreBest AreSidesInOrder (rows_of_lines slot.now) sides.items) }
{
    let mut sides = Vec::new(alloc);
    for (lines, place) in best {
        let slot_state = slot_state_at(slot, place);
        sides.push(Side {
            lines,
            log: slot_state.log.copy()?,
        })?;
    }
    Ok(sides)
}

/// The different lines that the slot printed, each with the log of the fewest departures, in the order of lines.
pub fn sides_of(alloc: Global, slot: &[SlotState]) -> Result<Vec<Side>, NoMemory>
    requires { HavePrinted slot.now }
    ensures { IfOk result (λ sides. AreBest AreSidesInOrder (rows_of_lines slot.now) sides.items) }
{
    let best = best_of(alloc, slot)?;
    list_of(alloc, slot, best)
}
