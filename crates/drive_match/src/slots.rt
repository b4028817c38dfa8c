// The default order of a machine beside a dump, slot by slot.

use crate::asked::Bounds;
use crate::differences::Differences;
use basis::{NoMemory, OrMemory};
use dump_match::DumpReference;
use matching::Reference;
use sched_core::{Ranked, Space};
use scope_names::RenamedDump;
use std::time::Instant;
use vcd_read::VcdFault;
use vmachine::{Machine, MachineState};

// The clock is looked at once in so many steps.
const STEPS_A_LOOK: u64 = 1_024;

/// How far a run was compared.
#[derive(Clone, Copy)]
pub enum Extent {
    /// To its end.
    Whole,
    /// It ends at this time, before the dump does.
    Ended(u64),
    /// Up to this time, as it took all steps that it may.
    Steps(u64),
    /// Up to this time, as it took all seconds that it may.
    Seconds(u64),
    /// Up to this time, as the dump doesn't go on: at this line, where one is to blame.
    Dump(u64, Option<u64>),
}

// The dump of which one scope is the instance.
type Shown<'m> = DumpReference<'m, RenamedDump>;

// Compares what is shown with the end of a slot.
fn compare_at(
    shown: &Shown<'_>,
    state: &MachineState,
    time: u64,
    bounds: Bounds,
    differences: &mut Differences,
) -> Result<(), NoMemory> {
    if time < bounds.from || shown.count_differences(state) == 0 {
        return Ok(());
    }
    let all = shown.differing(state)?;
    differences.put_all(time, &all, bounds)
}

// Compares what is shown from now on, before this time, with the end of a slot.
fn compare_before(
    shown: &mut Shown<'_>,
    state: &MachineState,
    later: u64,
    bounds: Bounds,
    differences: &mut Differences,
) -> Result<(), OrMemory<VcdFault>> {
    for _ in 0..u64::MAX {
        match shown.next_time() {
            Some(next) if next < later => {
                shown.advance()?;
                compare_at(shown, state, next, bounds, differences)?;
            }
            _ => return Ok(()),
        }
    }
    Ok(())
}

// Whether all that the dump shows was compared before this time.
fn is_done(shown: &Shown<'_>, time: u64) -> bool {
    shown.next_time().is_none() && shown.time() < time
}

// Compares what is shown from the end of a slot on with it, up to the next slot.
fn compare_slot(
    shown: &mut Shown<'_>,
    state: &MachineState,
    slot: u64,
    later: u64,
    bounds: Bounds,
    differences: &mut Differences,
) -> Result<(), OrMemory<VcdFault>> {
    if is_done(shown, slot) {
        return Ok(());
    }
    if let Some(next) = shown.next_time() {
        if next <= slot {
            shown.advance()?;
        }
    }
    compare_at(shown, state, slot, bounds, differences)?;
    compare_before(shown, state, later, bounds, differences)
}

// Takes a step, and where that leaves the end of a slot, compares it.
fn go_on(
    machine: &Machine,
    shown: &mut Shown<'_>,
    state: &mut MachineState,
    bounds: Bounds,
    differences: &mut Differences,
) -> Result<(), OrMemory<VcdFault>> {
    if machine.width(state) == 0 {
        return Ok(());
    }
    let Some(slot) = machine.slot_of(state) else {
        machine.step(state, 0)?;
        return Ok(());
    };
    let before = machine.copy(state)?;
    machine.step(state, 0)?;
    let later = machine.rank(state);
    compare_slot(shown, &before, slot, later, bounds, differences)
}

// Seconds since then; without a clock more than are ever allowed.
fn seconds_since(rt: &HostRuntime, begun: Option<Instant>) -> u64 {
    let Some(begun) = begun else {
        return u64::MAX;
    };
    match begun.elapsed(rt) {
        Ok(passed) => passed.as_secs(),
        Err(_) => u64::MAX,
    }
}

// How far a run was compared that has ended.
fn extent_of(machine: &Machine, state: &MachineState, bounds: Bounds) -> Extent {
    let time = machine.rank(state);
    if time <= bounds.last {
        Extent::Ended(time)
    } else {
        Extent::Whole
    }
}

// How far it was compared where the dump has this fault.
fn extent_at(time: u64, fault: OrMemory<VcdFault>) -> Result<Extent, NoMemory> {
    match fault {
        OrMemory::Memory(refused) => Err(refused),
        OrMemory::Fault(VcdFault::NoDump { line, flaw: _ }) => Ok(Extent::Dump(time, Some(line))),
        OrMemory::Fault(_) => Ok(Extent::Dump(time, None)),
    }
}

/// Takes the steps of the default order, and compares the end of each slot with the dump.
pub(crate) fn compare_slots(
    rt: &HostRuntime,
    machine: &Machine,
    shown: &mut Shown<'_>,
    bounds: Bounds,
    differences: &mut Differences,
) -> Result<Extent, NoMemory> {
    let begun = Instant::now(rt).ok();
    let mut state = machine.root()?;
    for step in 0..bounds.steps {
        if machine.width(&state) == 0 {
            return Ok(extent_of(machine, &state, bounds));
        }
        if step % STEPS_A_LOOK == 0 && seconds_since(rt, begun) >= bounds.seconds {
            return Ok(Extent::Seconds(machine.rank(&state)));
        }
        if let Err(fault) = go_on(machine, shown, &mut state, bounds, differences) {
            return extent_at(machine.rank(&state), fault);
        }
    }
    Ok(Extent::Steps(machine.rank(&state)))
}
