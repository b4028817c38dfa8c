// What the races of a report say of runs, claim by claim.

ghost use Rattle.std.specs.Prelude.{◌≡◌, ◌+◌, length, option_map, slice_get, IfOk};
ghost use Rattle.report_check.specs.Claims as claims;
ghost use Rattle.report_check.specs.Claims.{HasClaims, HasValue, IsClaimAt, IsSightAt, TellsState, claim_in, lines_claim, sight_of, value_claim};

use crate::printed::is_printed;
use basis::NoMemory;
use report_text::{LineRace, Race, Report};
use sched_core::Log;
use sched_core::bag::Bag;
use std::alloc::Global;
use std::marker::Model;
use vmachine::{Machine, MachineState};
use vreport::text_of_value;

/// What is seen at the end of a slot.
#[derive(Clone, Copy)]
pub enum Seen<'r> {
    /// The variable of this number has the value of these digits.
    Value(usize, &'r [u8]),
    /// The slot printed these lines.
    Lines(&'r Bag),
}

/// What a value of a race says, or a side of a race of lines: that this is seen at the end of the slot of this time, in the run
/// under this log.
#[derive(Drop)]
pub struct Claim<'r> {
    pub time: u64,
    pub seen: Seen<'r>,
    pub log: &'r Log,
}

impl<'r> Model for Claim<'r> {
    ghost use Rattle.report_check.specs.Claims as claims;

    ghost Value = { claims.Claim };

    ghost view = { λ c. record { time = c.time; sight = claims.sight_of c.seen; log = c.log.now } };
}

/// Where a claim stands: the place of its race in the report, races of lines counted on behind those of variables, and its own in the
/// race, from 0.
pub type Place = (usize, usize);

/// How many races the report has, of variables and of lines.
pub fn race_count(report: &Report) -> usize
    ensures { result ≡ length report.now.races + length report.now.line_races }
{
    report.races.len() + report.line_races.len()
}

// What the value at this place of the race claims.
fn value_at(race: &Race, place: usize) -> Option<Claim<'_>>
    ensures { result ≡ option_map (value_claim race.now) (slice_get race.now.values place) }
{
    let Some(witness) = race.values.get(place) else {
        return None;
    };
    Some(Claim {
        time: race.time,
        seen: Seen::Value(race.variable, &witness.value),
        log: &witness.log,
    })
}

// What the side at this place of the race claims.
fn side_at(race: &LineRace, place: usize) -> Option<Claim<'_>>
    ensures { result ≡ option_map (lines_claim race.now) (slice_get race.now.sides place) }
{
    let Some(side) = race.sides.get(place) else {
        return None;
    };
    Some(Claim {
        time: race.time,
        seen: Seen::Lines(&side.lines),
        log: &side.log,
    })
}

/// The claim at this place of the report, if one stands there.
pub fn claim_at(report: &Report, place: Place) -> Option<Claim<'_>>
    ensures { result ≡ claim_in report.now place }
{
    if let Some(race) = report.races.get(place.0) {
        return value_at(race, place.1);
    }
    match report.line_races.get(place.0 - report.races.len()) {
        Some(race) => side_at(race, place.1),
        None => None,
    }
}

/// How many claims the race at this place has.
pub fn claim_count(report: &Report, place: usize) -> usize
    ensures { HasClaims report.now place result }
{
    if let Some(race) = report.races.get(place) {
        return race.values.len();
    }
    match report.line_races.get(place - report.races.len()) {
        Some(race) => race.sides.len(),
        None => 0,
    }
}

// Whether the variable has the value of these digits.
fn has_value(
    alloc: Global,
    machine: &Machine,
    machine_state: &MachineState,
    variable: usize,
    digits: &[u8],
) -> Result<bool, NoMemory>
    ensures { IfOk result
        (TellsState machine.now machine_state.now (HasValue variable digits.now)) }
{
    let Some(value) = machine.values(machine_state).get(variable) else {
        return Ok(false);
    };
    let text = text_of_value(alloc, *value)?;
    Ok(text.as_slice() == digits)
}

// Whether it is seen here.
fn is_seen_here(
    alloc: Global,
    machine: &Machine,
    machine_state: &MachineState,
    seen: Seen<'_>,
) -> Result<bool, NoMemory>
    ensures { IfOk result
        (TellsState machine.now machine_state.now (IsSightAt (sight_of seen.entry))) }
{
    match seen {
        Seen::Value(variable, digits) => {
            has_value(alloc, machine, machine_state, variable, digits)
        }
        Seen::Lines(lines) => Ok(is_printed(machine, machine_state, Some(lines))),
    }
}

/// Whether the slot of the claim's time ends here, and what is claimed of it is seen.
pub fn shows(
    alloc: Global,
    machine: &Machine,
    machine_state: &MachineState,
    claim: &Claim<'_>,
) -> Result<bool, NoMemory>
    ensures { IfOk result (TellsState machine.now machine_state.now (IsClaimAt claim.now)) }
{
    let Some(time) = machine.slot_of(machine_state) else {
        return Ok(false);
    };
    if time != claim.time {
        return Ok(false);
    }
    is_seen_here(alloc, machine, machine_state, claim.seen)
}
