// The cause of what a run has and its parent hasn't.

ghost use Rattle.std.specs.Prelude.{◌≡◌, ◌<◌, ◌≤◌, length, IfOk, IfSome, IfNone, slice_get, Some};
ghost use Rattle.sched_core.specs.Logs.{IsLogFrom};
ghost use Rattle.cause.specs.Causes as spec;
ghost use Rattle.cause.specs.Checkpoints.{IsCheckpointOf};
ghost use Rattle.footprints.specs.Swaps.{HasNoSwap};

use crate::behind::statement_behind;
use crate::checkpoint::Checkpoint;
use crate::checkpoints::Checkpoints;
use crate::slot::{Slot, first_step, visits_of_slot};
use basis::NoMemory;
use footprints::index::Index;
use footprints::swap::{first_swap, things_in_both};
use footprints::thing::Things;
use footprints::visit::{Actor, Visit, is_same_visit};
use sched_core::{Log, Member};
use std::alloc::Global;
use vdesign::design::Design;
use vmachine::Machine;

/// One of the two visits: who makes it, the place of its action in the design's table, that of the statement behind it where its action is a
/// port connection, an `assign` or of a block that waits for what it reads, else the same place, and which step it is in both runs, none where it doesn't come.
#[derive(Clone, Copy)]
pub struct Blamed {
    pub actor: Actor,
    pub place: usize,
    pub statement: usize,
    pub in_run: Option<u32>,
    pub in_parent: Option<u32>,
}

/// The first two visits that touch and that both runs take in another order: the one that comes first in the run under the log, and the one
/// that comes first in its parent; the step from which on the runs differ, and what both touch.
pub struct Cause {
    pub step: u32,
    pub first: Blamed,
    pub second: Blamed,
    pub things: Things,
}

impl Drop for Cause {
    fn drop(self) {
        let Cause {
            step: _,
            first: _,
            second: _,
            things: _,
        } = self;
    }
}

// The step that the last member names.
fn last_step(members: &[Member]) -> Option<u32>
    ensures { result ≡ spec.last_step members.now }
{
    let last = members.len().saturating_sub(1);
    match members.get(last) {
        None => None,
        Some(member) => Some(member.0),
    }
}

// The log without its last member.
fn parent_of(members: &[Member]) -> &[Member]
    ensures { result.now ≡ spec.parent_of members.now }
{
    let last = members.len().saturating_sub(1);
    members.split_at(last).0
}

// The step of the same visit, if it comes.
fn step_in(visit: &Visit, visits: &[Visit]) -> Option<u32>
    ensures { result ≡ spec.step_in visit.now visits.now }
{
    for other in visits {
        if is_same_visit(visit, other) {
            return Some(other.step);
        }
    }
    None
}

// What is told of visit i of one of both runs' slots, which is this one.
fn told_of(
    alloc: Global,
    design: &Design,
    run: &[Visit],
    parent: &[Visit],
    own: &Slot,
    i: usize,
    visit: &Visit,
) -> Result<Blamed, NoMemory>
    requires { i < length own.now.visits.items }
    ensures { IfOk result (λ told.
        told ≡ spec.told_of design.now run.now parent.now own.now.earlier.items own.now.visits.items i visit.now) }
{
    Ok(Blamed {
        actor: visit.actor,
        place: visit.place,
        statement: statement_behind(alloc, design, own, i, visit)?,
        in_run: step_in(visit, run),
        in_parent: step_in(visit, parent),
    })
}

// What is told of the first swap of both slots' visits.
fn cause_in(
    alloc: Global,
    design: &Design,
    step: u32,
    run: &Slot,
    parent: &Slot,
) -> Result<Option<Cause>, NoMemory>
    ensures some { IfOk result (λ told. IfSome told
        (spec.IsCauseIn design.now step run.now.earlier.items run.now.visits.items parent.now.earlier.items parent.now.visits.items)) }
    ensures none { IfOk result (λ told. IfNone told (HasNoSwap run.now.visits.items parent.now.visits.items)) }
{
    let ours: &[Visit] = &run.visits;
    let theirs: &[Visit] = &parent.visits;
    let run_index = Index::of(alloc, ours)?;
    let parent_index = Index::of(alloc, theirs)?;
    match first_swap(alloc, &run_index, &parent_index)? {
        None => Ok(None),
        Some(swap) => {
            let one = &ours[swap.in_run];
            let other = &theirs[swap.in_parent];
            Ok(Some(Cause {
                step,
                first: told_of(alloc, design, ours, theirs, run, swap.in_run, one)?,
                second: told_of(alloc, design, ours, theirs, parent, swap.in_parent, other)?,
                things: things_in_both(alloc, &run_index, &parent_index, one, other)?,
            }))
        }
    }
}

/// The cause, where the last member names this step; from a checkpoint on that isn't behind it.
#[tactic(auto, using(crate::proofs::ParentLemmas::same_before))]
pub(crate) fn cause_from(
    alloc: Global,
    machine: &Machine,
    start: Checkpoint,
    members: &[Member],
    step: u32,
    steps: u32,
) -> Result<Option<Cause>, NoMemory>
    requires lawful { IsLogFrom 0 members.now }
    requires named { spec.last_step members.now ≡ Some step }
    requires start { IsCheckpointOf machine.now members.now start }
    requires before { start.step ≤ step }
    ensures cause { IfOk result (λ told. IfSome told (spec.IsCause machine.now members.now)) }
    ensures none { IfOk result (λ told. IfNone told (spec.HasNoCause machine.now members.now steps)) }
{
    let parent_start = start.copy(alloc)?;
    let Some(run) = visits_of_slot(alloc, machine, start, members, step, steps)? else {
        return Ok(None);
    };
    let parent_log = parent_of(members);
    let Some(parent) = visits_of_slot(alloc, machine, parent_start, parent_log, step, steps)? else {
        return Ok(None);
    };
    cause_in(alloc, machine.design(), step, &run, &parent)
}

/// The cause of what the run under the log has, and the run under the log without its last member hasn't. None where no member is named,
/// where a slot of both runs doesn't end before `steps` steps, and where no two visits that touch stand in another order. The checkpoints
/// are extended up to the first member. E901 is the only refusal.
pub fn cause_of(
    alloc: Global,
    checkpoints: &mut Checkpoints<'_>,
    log: &Log,
    steps: u32,
) -> Result<Option<Cause>, NoMemory>
    ensures cause { IfOk result (λ told. IfSome told (spec.IsCause checkpoints.old log.now)) }
    ensures none { IfOk result (λ told. IfNone told (spec.HasNoCause checkpoints.old log.now steps)) }
    ensures same { checkpoints.new ≡ checkpoints.old }
{
    let members = log.members();
    let Some(step) = last_step(members) else {
        return Ok(None);
    };
    let first = first_step(members, step);
    checkpoints.extend(alloc, first.min(steps))?;
    let start = checkpoints.last_before(alloc, first)?;
    cause_from(alloc, checkpoints.machine(), start, members, step, steps)
}
