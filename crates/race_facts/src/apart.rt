// What two ends of runs differ in.

use basis::NoMemory;
use explore::FoundMark;
use race_findings::Apart;
use sched_core::bag::Bag;
use sched_core::end::End;
use std::alloc::Global;
use vbits::Vec4;
use vmachine::{Machine, MachineState};

// Whether two ends are the same.
fn is_same_end(one: Option<End>, other: Option<End>) -> bool {
    match (one, other) {
        (Some(one), Some(other)) => one.time == other.time && one.cause == other.cause,
        (None, None) => true,
        _ => false,
    }
}

// Whether the same lines were printed.
fn is_same_print(one: Option<&Bag>, other: Option<&Bag>) -> bool {
    match (one, other) {
        (Some(one), Some(other)) => one == other,
        (None, None) => true,
        _ => false,
    }
}

// Whether the value stands at the place.
fn stands_at(values: &[Vec4], place: usize, value: &Vec4) -> bool {
    match values.get(place) {
        None => false,
        Some(other) => other == value,
    }
}

// The variables of which values differ.
fn variables_apart(alloc: Global, one: &[Vec4], other: &[Vec4]) -> Result<Vec<usize>, NoMemory> {
    let mut apart = Vec::new(alloc);
    for (place, value) in one.iter().enumerate() {
        if !stands_at(other, place, value) {
            apart.push(place)?;
        }
    }
    Ok(apart)
}

/// What the states of two ends differ in.
pub fn apart_in(
    alloc: Global,
    machine: &Machine,
    one: &MachineState,
    other: &MachineState,
) -> Result<Apart, NoMemory> {
    Ok(Apart {
        in_end: !is_same_end(machine.end_of(one), machine.end_of(other)),
        variables: variables_apart(alloc, machine.values(one), machine.values(other))?,
        in_lines: !is_same_print(machine.printed(one), machine.printed(other)),
    })
}

/// What the first two of these ends differ in; where there are no two, in their time or cause alone.
pub fn apart_of(
    alloc: Global,
    machine: &Machine,
    ends: &[FoundMark<MachineState>],
) -> Result<Apart, NoMemory> {
    match (ends.get(0), ends.get(1)) {
        (Some(one), Some(other)) => apart_in(alloc, machine, &one.state, &other.state),
        _ => Ok(Apart {
            in_end: true,
            variables: Vec::new(alloc),
            in_lines: false,
        }),
    }
}
