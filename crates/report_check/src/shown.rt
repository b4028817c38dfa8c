// The claims that the runs under their logs show, each log run once.
//
// The order of the places and how they are grouped only save time: a claim that isn't found here has a run of its own.

ghost use Rattle.std.specs.Prelude.{◌≡◌, [], ◌<◌, ◌≤◌, length, All, IsTrue, IfOk, OnOk};
ghost use Rattle.std.specs.List.{Contains};
ghost use Rattle.report_check.specs.Claims.{ComesTo, IsTrueAt};

use crate::claim::{Place, claim_at, claim_count, race_count, shows};
use basis::NoMemory;
use report_text::Report;
use sched_core::{Log, Member, Space, next_choice};
use std::alloc::Global;
use vmachine::{Machine, MachineState, machine_law};

// The members of the log of the claim at this place.
fn members_at(report: &Report, place: Place) -> &[Member] {
    match claim_at(report, place) {
        Some(claim) => claim.log.members(),
        None => &[],
    }
}

// Puts the places of so many claims of a race last.
fn push_places(places: &mut Vec<Place>, race: usize, count: usize) -> Result<(), NoMemory> {
    for place in 0..count {
        places.push((race, place))?;
    }
    Ok(())
}

// The places of all claims, those of one log together, in the order of the report.
fn places_by_log(alloc: Global, report: &Report) -> Result<Vec<Place>, NoMemory> {
    let mut places = Vec::new(alloc);
    for race in 0..race_count(report) {
        push_places(&mut places, race, claim_count(report, race))?;
    }
    places.sort_by(|a, b| members_at(report, *a).cmp(&members_at(report, *b)))?;
    Ok(places)
}

// How many places at the front have claims of one log.
fn group_len(report: &Report, places: &[Place]) -> usize
    requires { 0 < length places.now }
    ensures some { 0 < result }
    ensures within { result ≤ length places.now }
{
    let members = members_at(report, places[0]);
    for count in 1..places.len() {
        if members_at(report, places[count]) != members {
            return count;
        }
    }
    places.len()
}

// Whether the time of the claim at this place is later.
fn is_later(report: &Report, place: Place, time: u64) -> bool {
    match claim_at(report, place) {
        Some(claim) => claim.time > time,
        None => false,
    }
}

// Whether the logs are equal.
fn are_equal(log: &Log, other: &Log) -> bool
    ensures { IsTrue result → log.now ≡ other.now }
{
    log.members() == other.members()
}

// Whether the claim at this place is shown here, in the run under its log, which is this one.
fn is_shown(
    alloc: Global,
    machine: &Machine,
    machine_state: &MachineState,
    report: &Report,
    log: &Log,
    place: Place,
) -> Result<bool, NoMemory>
    requires here { ComesTo machine.now report.now log.now machine_state.now }
    ensures { IfOk result (λ is. IsTrue is → IsTrueAt machine.now report.now place) }
{
    let Some(claim) = claim_at(report, place) else {
        return Ok(false);
    };
    if !are_equal(claim.log, log) {
        return Ok(false);
    }
    shows(alloc, machine, machine_state, &claim)
}

// Puts the place last, where the claim there is shown here.
fn note_shown(
    alloc: Global,
    machine: &Machine,
    machine_state: &MachineState,
    report: &Report,
    log: &Log,
    place: Place,
    shown: &mut Vec<Place>,
) -> Result<(), NoMemory>
    requires here { ComesTo machine.now report.now log.now machine_state.now }
    requires shown { All (IsTrueAt machine.now report.now) shown.old.items }
    ensures { OnOk result (All (IsTrueAt machine.now report.now) shown.new.items) }
{
    if !is_shown(alloc, machine, machine_state, report, log, place)? {
        return Ok(());
    }
    shown.push(place)?;
    Ok(())
}

// Where nothing is left of the log and a slot ends here, notes each of the places from `next` on that is shown here, until
// one is of a later time. The answer is the next place to look at.
fn note_all_shown(
    alloc: Global,
    machine: &Machine,
    machine_state: &MachineState,
    report: &Report,
    log: &Log,
    rest: &[Member],
    group: &[Place],
    next: usize,
    shown: &mut Vec<Place>,
) -> Result<usize, NoMemory>
    requires here { rest.now ≡ [] → ComesTo machine.now report.now log.now machine_state.now }
    requires shown { All (IsTrueAt machine.now report.now) shown.old.items }
    ensures { OnOk result (All (IsTrueAt machine.now report.now) shown.new.items) }
{
    if !rest.is_empty() {
        return Ok(next);
    }
    let Some(time) = machine.slot_of(machine_state) else {
        return Ok(next);
    };
    for at in next..group.len() {
        if is_later(report, group[at], time) {
            return Ok(at);
        }
        note_shown(alloc, machine, machine_state, report, log, group[at], shown)?;
    }
    Ok(group.len())
}

// Walks the run under the log, within the limits that the head names, until all places of the group were looked at.
fn run_log(
    alloc: Global,
    machine: &Machine,
    report: &Report,
    log: &Log,
    group: &[Place],
    shown: &mut Vec<Place>,
) -> Result<(), NoMemory>
    requires { All (IsTrueAt machine.now report.now) shown.old.items }
    ensures { OnOk result (All (IsTrueAt machine.now report.now) shown.new.items) }
{
    machine_law();
    if log.members().len() > report.depart as usize {
        return Ok(());
    }
    let mut state = machine.root()?;
    let mut rest = log.members();
    let mut next = 0;
    let mut n = 0;
    'walk: loop {
        next = note_all_shown(
            alloc, machine, &state, report, log, rest, group, next, shown,
        )?;
        if next >= group.len() {
            return Ok(());
        }
        if n == report.steps {
            return Ok(());
        }
        let (choice, later) = next_choice(rest, n);
        if choice >= machine.width(&state) {
            return Ok(());
        }
        machine.step(&mut state, choice)?;
        rest = later;
        n += 1;
    }
}

// Runs the log of the first place, for the places of a group.
fn run_group(
    alloc: Global,
    machine: &Machine,
    report: &Report,
    group: &[Place],
    shown: &mut Vec<Place>,
) -> Result<(), NoMemory>
    requires some { 0 < length group.now }
    requires shown { All (IsTrueAt machine.now report.now) shown.old.items }
    ensures { OnOk result (All (IsTrueAt machine.now report.now) shown.new.items) }
{
    match claim_at(report, group[0]) {
        Some(claim) => run_log(alloc, machine, report, claim.log, group, shown),
        None => Ok(()),
    }
}

/// Places whose claims are true, in their order: those that the run under their log shows once all that the log names is
/// taken. Each log is run once. It takes time linear in the steps of the runs, and n log n in the number of claims.
pub fn shown_places(
    alloc: Global,
    machine: &Machine,
    report: &Report,
) -> Result<Vec<Place>, NoMemory>
    ensures { IfOk result (λ shown. All (IsTrueAt machine.now report.now) shown.items) }
{
    let places = places_by_log(alloc, report)?;
    let mut shown = Vec::new(alloc);
    let mut rest = places.as_slice();
    'groups: while !rest.is_empty() {
        let (group, later) = rest.split_at(group_len(report, rest));
        run_group(alloc, machine, report, group, &mut shown)?;
        rest = later;
    }
    shown.sort_unstable();
    Ok(shown)
}

/// Whether the place is among these, which stand in their order.
pub fn is_among(places: &[Place], place: Place) -> bool
    ensures { IsTrue result → Contains places.now place }
{
    places.binary_search(&place).is_ok()
}
