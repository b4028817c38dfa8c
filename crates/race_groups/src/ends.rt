// The states in which runs end: whether all are alike.

ghost use Rattle.std.specs.Prelude.{◌≡◌, ◌<◌, ◌&&◌, ◌∷◌, [], Decides, OnOk, false, length, option_map};
ghost use Rattle.vmodel.specs.State.{State};
ghost use Rattle.vmachine.specs.Machines.{Stands};
ghost use Rattle.std.specs.Bool.{MatchBool};
ghost use Rattle.explore.specs.Ranked.{pairs_of};
ghost use Rattle.race_groups.specs.Inner.{AreAlike, AreCutAlike, AreCutUnlike, AreUncut, AreUnlike, BeginsWithFewest, GrowsTo, IsUncut};
ghost use Rattle.race_groups.specs.Inner.{KeepsFirst, PutsCut, SumsUp, SumsUpCuts, compared_end, cut_lines_in, cut_values_in, is_in_cut};

use basis::NoMemory;
use explore::FoundMark;
use sched_core::bag::Bag;
use sched_core::end::{Cause, End};
use vbits::Vec4;
use vmachine::{Machine, MachineState, machine_law};

// Whether two ends are the same.
fn is_same_end(one: Option<End>, other: Option<End>) -> bool
    ensures { Decides result (one ≡ other) }
{
    match (one, other) {
        (None, None) => true,
        (Some(one), Some(other)) => one.time == other.time && one.cause == other.cause,
        _ => false,
    }
}

// Whether both are of the same lines.
fn is_same_bag(one: &Bag, other: &Bag) -> bool
    ensures { Decides result (one.now ≡ other.now) }
{
    one == other
}

// Whether the same lines were printed.
fn is_same_print(one: Option<&Bag>, other: Option<&Bag>) -> bool
    ensures { Decides result (option_map (λ bag. bag.now) one.entry ≡ option_map (λ bag. bag.now) other.entry) }
{
    match (one, other) {
        (None, None) => true,
        (Some(one), Some(other)) => is_same_bag(one, other),
        _ => false,
    }
}

fn both(one: bool, other: bool) -> bool
    ensures { result ≡ (one && other) }
{
    one && other
}

// The end as it is compared: none where the time limit cut the run.
fn compared(end: Option<End>) -> Option<End>
    ensures { result ≡ compared_end end }
{
    match end {
        None => None,
        Some(end) => match end.cause {
            Cause::Limit => None,
            Cause::Finish => Some(end),
            Cause::Stop => Some(end),
            Cause::Quiet => Some(end),
        },
    }
}

// Whether the run ended in the middle of a slot (17.4).
fn cuts_slot(end: Option<End>) -> bool
    ensures { result ≡ is_in_cut end }
{
    match end {
        None => false,
        Some(end) => match end.cause {
            Cause::Limit => false,
            Cause::Finish => true,
            Cause::Stop => true,
            Cause::Quiet => false,
        },
    }
}

// The lines that a cut slot printed, where lines are looked at.
fn cut_lines<'s>(machine: &Machine, state: &'s MachineState) -> Option<&'s Bag>
    ensures { (t : State) → Stands machine.now state.now t → option_map (λ bag. bag.now) result ≡ cut_lines_in t }
{
    if cuts_slot(machine.end_of(state)) {
        machine.printed(state)
    } else {
        None
    }
}

// The values that a cut slot leaves.
fn cut_values<'s>(machine: &Machine, state: &'s MachineState) -> &'s [Vec4]
    ensures { (t : State) → Stands machine.now state.now t → result.now ≡ cut_values_in t }
{
    if cuts_slot(machine.end_of(state)) {
        machine.values(state)
    } else {
        &[]
    }
}

// Whether runs that end in these two states end alike.
fn are_alike(machine: &Machine, one: &MachineState, other: &MachineState) -> bool
    ensures { MatchBool result (AreAlike machine.now one.now other.now) (AreUnlike machine.now one.now other.now) }
{
    let same_end = is_same_end(
        compared(machine.end_of(one)),
        compared(machine.end_of(other)),
    );
    let same_print = is_same_print(cut_lines(machine, one), cut_lines(machine, other));
    both(same_end, same_print)
}

fn are_same_values(one: &[Vec4], other: &[Vec4]) -> bool
    ensures { Decides result (one.now ≡ other.now) }
{
    one == other
}

// Whether they leave a cut slot with the same values.
fn are_cut_alike(machine: &Machine, one: &MachineState, other: &MachineState) -> bool
    ensures { MatchBool result (AreCutAlike machine.now one.now other.now) (AreCutUnlike machine.now one.now other.now) }
{
    are_same_values(cut_values(machine, one), cut_values(machine, other))
}

// Whether a run was cut there by the time limit.
fn is_cut(machine: &Machine, state: &MachineState) -> bool
    ensures { result ≡ false → IsUncut machine.now state.now }
{
    match machine.end_of(state) {
        None => false,
        Some(end) => end.cause == Cause::Limit,
    }
}

/// Whether a run was cut in one of these by the time limit.
pub(crate) fn some_is_cut(machine: &Machine, ends: &[FoundMark<MachineState>]) -> bool
    ensures { result ≡ false → AreUncut machine.now (pairs_of ends.now) }
{
    for found in ends {
        if is_cut(machine, &found.state) {
            return true;
        }
    }
    false
}

// Keeps the state, which is like the first that is kept, where a cut slot leaves other values there, and none such is kept.
fn put_cut(
    machine: &Machine,
    first: &MachineState,
    cuts: &mut Vec<FoundMark<MachineState>>,
    found: FoundMark<MachineState>,
) -> Result<(), NoMemory>
    ensures puts { OnOk result (PutsCut machine.now first.now found cuts.old.items cuts.new.items) }
    ensures grows { GrowsTo cuts.old.items cuts.new.items }
{
    if !cuts.is_empty() {
        return Ok(());
    }
    if are_cut_alike(machine, first, &found.state) {
        return Ok(());
    }
    cuts.push(found)?;
    Ok(())
}

// Keeps the state, where one or more are kept: where it is the first that isn't like the first of them; or, in the other list, the first
// that is, but for the values of a cut slot.
fn put_next(
    machine: &Machine,
    kept: &mut Vec<FoundMark<MachineState>>,
    cuts: &mut Vec<FoundMark<MachineState>>,
    found: FoundMark<MachineState>,
) -> Result<(), NoMemory>
    requires { 0 < length kept.old.items }
    ensures sums { OnOk result (SumsUp machine.now (pairs_of (found ∷ [])) (pairs_of kept.old.items) (pairs_of kept.new.items)) }
    ensures sums_cuts { OnOk result (SumsUpCuts machine.now (pairs_of (found ∷ [])) (pairs_of kept.old.items) (pairs_of kept.new.items)
        (pairs_of cuts.old.items) (pairs_of cuts.new.items)) }
    ensures grows { GrowsTo kept.old.items kept.new.items }
    ensures cuts_grow { GrowsTo cuts.old.items cuts.new.items }
{
    let first = &kept[0].state;
    if are_alike(machine, first, &found.state) {
        return put_cut(machine, first, cuts, found);
    }
    if kept.len() > 1 {
        return Ok(());
    }
    kept.push(found)?;
    Ok(())
}

// Keeps the state where it is the first, or tells more than those that are kept.
fn put_end(
    machine: &Machine,
    kept: &mut Vec<FoundMark<MachineState>>,
    cuts: &mut Vec<FoundMark<MachineState>>,
    found: FoundMark<MachineState>,
) -> Result<(), NoMemory>
    ensures sums { OnOk result (SumsUp machine.now (pairs_of (found ∷ [])) (pairs_of kept.old.items) (pairs_of kept.new.items)) }
    ensures sums_cuts { OnOk result (SumsUpCuts machine.now (pairs_of (found ∷ [])) (pairs_of kept.old.items) (pairs_of kept.new.items)
        (pairs_of cuts.old.items) (pairs_of cuts.new.items)) }
    ensures grows { GrowsTo kept.old.items kept.new.items }
    ensures cuts_grow { GrowsTo cuts.old.items cuts.new.items }
{
    machine_law();
    if kept.len() > 0 {
        return put_next(machine, kept, cuts, found);
    }
    kept.push(found)?;
    Ok(())
}

// How many departures the log of a state names.
fn departure_count(found: &FoundMark<MachineState>) -> usize
    ensures { result ≡ length found.now.log }
{
    found.log.members().len()
}

// Keeps of these states what tells whether all are alike: the first, and the first that isn't like it; and whether a cut slot leaves the
// same values in those that are.
fn put_in_turn(
    machine: &Machine,
    kept: &mut Vec<FoundMark<MachineState>>,
    cuts: &mut Vec<FoundMark<MachineState>>,
    ends: Vec<FoundMark<MachineState>>,
) -> Result<(), NoMemory>
    ensures sums { OnOk result (SumsUp machine.now (pairs_of ends.items) (pairs_of kept.old.items) (pairs_of kept.new.items)) }
    ensures sums_cuts { OnOk result (SumsUpCuts machine.now (pairs_of ends.items) (pairs_of kept.old.items) (pairs_of kept.new.items)
        (pairs_of cuts.old.items) (pairs_of cuts.new.items)) }
    ensures first { OnOk result (KeepsFirst (pairs_of ends.items) (pairs_of kept.old.items) (pairs_of kept.new.items)) }
    ensures grows { GrowsTo kept.old.items kept.new.items }
    ensures cuts_grow { GrowsTo cuts.old.items cuts.new.items }
{
    for found in ends {
        put_end(machine, kept, cuts, found)?;
    }
    Ok(())
}

/// Keeps of these states what tells whether all are alike: one of the fewest departures, and the next that isn't like it. So where the
/// default run ends among them, the one that is kept beside it is of a run that ends otherwise. Of those that are like it, `cuts` keeps
/// the first in which a cut slot leaves other values.
pub(crate) fn put_ends(
    machine: &Machine,
    kept: &mut Vec<FoundMark<MachineState>>,
    cuts: &mut Vec<FoundMark<MachineState>>,
    mut ends: Vec<FoundMark<MachineState>>,
) -> Result<(), NoMemory>
    ensures sums { OnOk result (SumsUp machine.now (pairs_of ends.items) (pairs_of kept.old.items) (pairs_of kept.new.items)) }
    ensures sums_cuts { OnOk result (SumsUpCuts machine.now (pairs_of ends.items) (pairs_of kept.old.items) (pairs_of kept.new.items)
        (pairs_of cuts.old.items) (pairs_of cuts.new.items)) }
    ensures fewest { OnOk result (BeginsWithFewest (pairs_of ends.items) (pairs_of kept.old.items) (pairs_of kept.new.items)) }
    ensures grows { GrowsTo kept.old.items kept.new.items }
    ensures cuts_grow { GrowsTo cuts.old.items cuts.new.items }
{
    ends.sort_by_key(|found| departure_count(found))?;
    put_in_turn(machine, kept, cuts, ends)
}
