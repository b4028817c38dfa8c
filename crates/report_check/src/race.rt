// Whether a race of a report is true: each of its claims is.

ghost use Rattle.std.specs.Prelude.{◌≡◌, [], true, All, IfOk, Decides};
ghost use Rattle.report_check.specs.Claims.{AreTrueAt, IsClaimAt, IsSeenWithin, IsTrueAt, IsTrueClaim, TellsByNow};

use crate::claim::{Claim, Place, claim_at, claim_count, shows};
use crate::shown::is_among;
use basis::NoMemory;
use report_text::Report;
use sched_core::{Member, Space, next_choice};
use std::alloc::Global;
use vmachine::{Machine, MachineState, machine_law};

// Whether the claim was shown before, or is shown here.
fn shows_by_now(
    alloc: Global,
    machine: &Machine,
    machine_state: &MachineState,
    claim: &Claim<'_>,
    before: bool,
) -> Result<bool, NoMemory>
    ensures { IfOk result
        (TellsByNow before machine.now machine_state.now (IsClaimAt claim.now)) }
{
    if before {
        return Ok(true);
    }
    shows(alloc, machine, machine_state, claim)
}

// Whether the claim was shown and nothing is left of the log.
fn has_all(found: bool, rest: &[Member]) -> bool
    ensures { Decides result ((found ≡ true) × (rest.now ≡ [])) }
{
    if !found {
        return false;
    }
    rest.is_empty()
}

// Walks the run under the claim's log, by at most `steps` steps, until the claim was shown and nothing is left of the log.
fn is_seen(
    alloc: Global,
    machine: &Machine,
    steps: u32,
    claim: &Claim<'_>,
) -> Result<bool, NoMemory>
    ensures { IfOk result (λ is.
        Decides is (IsSeenWithin machine.now steps (IsClaimAt claim.now) claim.now.log)) }
{
    machine_law();
    let mut state = machine.root()?;
    let mut rest = claim.log.members();
    let mut n = 0;
    let mut found = false;
    'walk: loop {
        found = shows_by_now(alloc, machine, &state, claim, found)?;
        if has_all(found, rest) {
            return Ok(true);
        }
        if n == steps {
            return Ok(false);
        }
        let (choice, later) = next_choice(rest, n);
        if choice >= machine.width(&state) {
            return Ok(false);
        }
        machine.step(&mut state, choice)?;
        rest = later;
        n += 1;
    }
}

// Whether the claim is true: the run under its log has no more departures than the head of the report allows, and within the
// steps that the head allows it comes to the end of that slot, shows there what is claimed, and takes all that the log names.
fn is_true_claim(
    alloc: Global,
    machine: &Machine,
    report: &Report,
    claim: &Claim<'_>,
) -> Result<bool, NoMemory>
    ensures { IfOk result (λ is. Decides is (IsTrueClaim machine.now report.now claim.now)) }
{
    if claim.log.members().len() > report.depart as usize {
        return Ok(false);
    }
    is_seen(alloc, machine, report.steps, claim)
}

// Whether the claim at this place is true: it was shown in the run of its log, or else a run of its own shows it.
fn is_true_at(
    alloc: Global,
    machine: &Machine,
    report: &Report,
    place: Place,
    shown: &[Place],
) -> Result<bool, NoMemory>
    requires { All (IsTrueAt machine.now report.now) shown.now }
    ensures { IfOk result (λ is. Decides is (IsTrueAt machine.now report.now place)) }
{
    if is_among(shown, place) {
        return Ok(true);
    }
    match claim_at(report, place) {
        Some(claim) => is_true_claim(alloc, machine, report, &claim),
        None => Ok(true),
    }
}

/// Whether the race at this place of the report is true, races of lines counted on behind those of variables: each of its claims is
/// shown in the run under its log, at the end of that slot. No run is made for the claims that were shown. E901 is the only refusal.
pub fn is_true_race(
    alloc: Global,
    machine: &Machine,
    report: &Report,
    race: usize,
    shown: &[Place],
) -> Result<bool, NoMemory>
    requires { All (IsTrueAt machine.now report.now) shown.now }
    ensures { IfOk result (λ is. Decides is (AreTrueAt machine.now report.now race)) }
{
    for place in 0..claim_count(report, race) {
        if !is_true_at(alloc, machine, report, (race, place), shown)? {
            return Ok(false);
        }
    }
    Ok(true)
}
