// The call.

use crate::asked::Asked;
use crate::differences::{Difference, Differences};
use crate::slots::{Extent, compare_slots};
use basis::{NoMemory, OrMemory, Span};
use byte_sinks::Metered;
use dump_match::DumpReference;
use sched_core::setting::Grain;
use scope_names::{RenamedDump, Renaming, renaming_of};
use std::alloc::Global;
use std::fs::File;
use vcd_read::VcdFault;
use vmachine::Machine;
use vrace::{Fault, Options, PlacedMachine, machine_of_files};

// The most variables that are told.
const TOLD: usize = 3;

// The latest time that there is.
const LAST_TIME: u64 = 4_611_686_018_427_387_903;

/// Why nothing is compared.
#[derive(Clone, Copy)]
pub enum NotCompared {
    /// The dump can't be read twice, as it is no file.
    Pipe,
    /// The path of the scope can't be written as one.
    Path,
    /// The files with the testbench are refused.
    Refused,
    /// The dump counts in this unit, and files with the usual timescale are compared in theirs.
    Unit(Span),
    /// The dump can't be read once more.
    Unread,
    /// No variable of the instance has a value in the dump.
    Nothing,
}

/// What was compared: the first variables that differ, how many others do, and how far it was compared.
#[derive(Drop)]
pub struct Compared {
    pub told: Vec<Difference>,
    pub others: usize,
    pub extent: Extent,
}

/// What came of a comparison.
#[derive(Drop)]
pub enum Answer {
    Compared(Compared),
    Not(NotCompared),
}

// The scope as the instance.
fn renaming_for(alloc: Global, asked: &Asked<'_>) -> Result<Option<Renaming>, NoMemory> {
    let mut word = Vec::from_slice(alloc, asked.scope)?;
    word.push(b'=')?;
    word.extend_from_slice(asked.top)?;
    word.push(b'.')?;
    word.extend_from_slice(asked.instance)?;
    match str::from_utf8(&word) {
        Err(_) => Ok(None),
        Ok(word) => renaming_of(alloc, word),
    }
}

// The unit of a dump that files without a timescale aren't compared in: their times count in theirs.
fn other_unit(placed: &PlacedMachine, unit: Option<Span>) -> Option<Span> {
    let unit = unit?;
    let precision = placed.machine.design().scale.precision;
    let is_same = unit.femtoseconds() == precision.femtoseconds();
    if is_same || placed.timed {
        None
    } else {
        Some(unit)
    }
}

// The dump, of which nothing is shown yet.
fn open_dump<'m>(
    rt: &HostRuntime,
    placed: &'m PlacedMachine,
    dump: &str,
    renaming: Renaming,
) -> Result<DumpReference<'m, RenamedDump>, OrMemory<VcdFault>> {
    let Ok(file) = File::open(rt, dump) else {
        return Err(OrMemory::Fault(VcdFault::Read));
    };
    let reader = RenamedDump::new(rt.alloc(), file, Some(renaming));
    DumpReference::open(
        rt.alloc(),
        &placed.machine,
        placed.timed,
        Metered::new(reader),
    )
}

// Compares the machine's default order with the dump.
fn compare_machine(
    rt: &HostRuntime,
    placed: &PlacedMachine,
    asked: &Asked<'_>,
    renaming: Renaming,
) -> Result<Answer, NoMemory> {
    let (alloc, machine) = (rt.alloc(), &placed.machine);
    let mut shown = match open_dump(rt, placed, asked.dump, renaming) {
        Ok(shown) => shown,
        Err(OrMemory::Memory(refused)) => return Err(refused),
        Err(OrMemory::Fault(_)) => return Ok(Answer::Not(NotCompared::Unread)),
    };
    let design = machine.design();
    if let Some(unit) = other_unit(placed, shown.unit()) {
        return Ok(Answer::Not(NotCompared::Unit(unit)));
    }
    let mut differences = Differences::none(alloc, design.variables.len())?;
    let extent = compare_slots(rt, machine, &mut shown, asked.bounds, &mut differences)?;
    if shown.compared_count() == 0 {
        return Ok(Answer::Not(NotCompared::Nothing));
    }
    let told = differences.told(alloc, design, TOLD)?;
    let others = differences.len().saturating_sub(told.len());
    Ok(Answer::Compared(Compared {
        told,
        others,
        extent,
    }))
}

// The machine of the files; none where they are refused.
fn machine_of(alloc: Global, asked: &Asked<'_>) -> Result<Option<PlacedMachine>, NoMemory> {
    let Ok(options) = Options::new(Some(asked.top), LAST_TIME, 0, 1, 1, Grain::Process) else {
        return Ok(None);
    };
    match machine_of_files(alloc, asked.texts, &options) {
        Ok(placed) => Ok(Some(placed)),
        Err(Fault::Memory(refused)) => Err(refused),
        Err(_) => Ok(None),
    }
}

/// Compares the default order of the files with the dump: what each variable of the instance is at the end of each slot.
pub fn compare(rt: &HostRuntime, asked: &Asked<'_>) -> Result<Answer, NoMemory> {
    let Some(renaming) = renaming_for(rt.alloc(), asked)? else {
        return Ok(Answer::Not(NotCompared::Path));
    };
    match machine_of(rt.alloc(), asked)? {
        None => Ok(Answer::Not(NotCompared::Refused)),
        Some(placed) => compare_machine(rt, &placed, asked, renaming),
    }
}
