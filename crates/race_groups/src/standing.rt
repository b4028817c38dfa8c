// Marks that stand until the next slot of their run.

ghost use Rattle.std.specs.Prelude.{◌≡◌, ◌++◌, IfOk, OnErr, OnOk};
ghost use Rattle.explore.specs.Ranked.{pairs_of};
ghost use Rattle.racebook.specs.Inner.{AreEndsOf, GoesOnByEnd};
ghost use Rattle.race_groups.specs.Standing.{GoOn, GoesOnByNext, IsNextOf, standing_past};

use basis::NoMemory;
use explore::FoundMark;
use sched_core::{Ranked, Space};
use std::alloc::Global;
use vmachine::{Machine, MachineState, machine_law};

/// A mark from which a run goes on, and the time of the slot that is next. Until then the run shows what the mark does.
#[derive(Drop)]
pub(crate) struct Standing {
    pub(crate) found: FoundMark<MachineState>,
    pub(crate) next: u64,
}

/// The marks of a slot: those in which runs end, and those from which they go on.
#[derive(Drop)]
pub(crate) struct Parted {
    pub(crate) ends: Vec<FoundMark<MachineState>>,
    pub(crate) going_on: Vec<Standing>,
}

// The time to which a run goes on from the state of a mark, if it goes on.
fn next_time(machine: &Machine, state: &MachineState) -> Result<Option<u64>, NoMemory>
    ensures { IfOk result (IsNextOf machine.now state.now) }
{
    if machine.width(state) == 0 {
        return Ok(None);
    }
    let mut ahead = machine.copy(state)?;
    machine.step(&mut ahead, 0)?;
    Ok(Some(machine.rank(&ahead)))
}

// Puts the mark where it belongs.
fn put_mark(
    machine: &Machine,
    parted: &mut Parted,
    found: FoundMark<MachineState>,
) -> Result<(), NoMemory>
    ensures ends { OnOk result (GoesOnByEnd machine.now found parted.old.ends.items parted.new.ends.items) }
    ensures going_on { OnOk result (GoesOnByNext machine.now found parted.old.going_on.items parted.new.going_on.items) }
{
    machine_law();
    match next_time(machine, &found.state)? {
        None => {
            parted.ends.push(found)?;
            Ok(())
        }
        Some(next) => {
            parted.going_on.push(Standing { found, next })?;
            Ok(())
        }
    }
}

/// Parts these marks.
pub(crate) fn part(
    alloc: Global,
    machine: &Machine,
    marks: Vec<FoundMark<MachineState>>,
) -> Result<Parted, NoMemory>
    ensures ends { IfOk result (λ parted. AreEndsOf machine.now (pairs_of marks.items) (pairs_of parted.ends.items)) }
    ensures going_on { IfOk result (λ parted. GoOn machine.now (pairs_of marks.items) parted.going_on.items) }
{
    let mut parted = Parted {
        ends: Vec::new(alloc),
        going_on: Vec::new(alloc),
    };
    for found in marks {
        put_mark(machine, &mut parted, found)?;
    }
    Ok(parted)
}

/// Of what stood and of these, what stands past the time. After want of memory it is as it was.
pub(crate) fn stand_past(
    standing: &mut Vec<Standing>,
    time: u64,
    mut more: Vec<Standing>,
) -> Result<(), NoMemory>
    ensures ok { OnOk result (standing.new.items ≡ standing_past time (standing.old.items ++ more.items)) }
    ensures err { OnErr result (standing.new.items ≡ standing.old.items) }
{
    standing.append(&mut more)?;
    standing.retain(|mark| mark.next > time);
    Ok(())
}
