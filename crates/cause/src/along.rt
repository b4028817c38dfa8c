// The causes of all departures of a run, in one walk along it.

ghost use Rattle.std.specs.Prelude.{◌≡◌, ℕ, ◌+◌, ◌<◌, ◌≤◌, false, Some, List, IfOk, IfSome, IfNone};
ghost use Rattle.sched_core.specs.Logs.{IsLogFrom};
ghost use Rattle.sched_core.specs.Rules.{IsRun};
ghost use Rattle.vmodel.specs.Run.{Setting, rules_of};
ghost use Rattle.cause.specs.Causes.{AreCauses};
ghost use Rattle.cause.specs.Checkpoints.{IsCheckpointOf};
ghost use Rattle.footprints.specs.Visits.{is_in_slot};

use crate::cause::{Cause, cause_from};
use crate::checkpoint::Checkpoint;
use crate::slot::left_at;
use crate::step::take;
use basis::NoMemory;
use footprints::visit::Seen;
use plain_steps::State;
use sched_core::{Log, Member, next_choice};
use std::alloc::Global;
use vmachine::Machine;
use vmodel::choice::Choice;

// The checkpoint before a step: this state, if the step before that, which is of a choice, began a slot, else the one that there is.
#[tactic(auto, using(crate::proofs::CheckpointLemmas::copied_is))]
fn newer(
    alloc: Global,
    newest: Checkpoint,
    choice: Choice,
    step: u32,
    state: &State,
    seen: &Seen,
) -> Result<Checkpoint, NoMemory>
    ensures is { IfOk result (λ found. (setting : Setting) (log : List (ℕ × ℕ)) → IsCheckpointOf setting log newest →
        (is_in_slot (Some choice) ≡ false → IsCheckpointOf setting log (record { step = step; state = state.now; seen = seen.now })) →
        IsCheckpointOf setting log found) }
    ensures before { newest.step ≤ step → IfOk result (λ found. found.step ≤ step) }
{
    match choice {
        Choice::Run(_) => Ok(newest),
        Choice::Update => Ok(newest),
        Choice::Advance => Ok(Checkpoint {
            step,
            state: state.copy(alloc)?,
            seen: seen.copy(alloc)?,
        }),
    }
}

// The last checkpoint of the run under these members that isn't behind a step, from one that isn't; none where the run ends before that step.
fn nearest_to(
    alloc: Global,
    machine: &Machine,
    start: Checkpoint,
    members: &[Member],
    to: u32,
) -> Result<Option<Checkpoint>, NoMemory>
    requires lawful { IsLogFrom 0 members.now }
    requires start { IsCheckpointOf machine.now members.now start }
    requires before { start.step ≤ to }
    ensures is { IfOk result (λ told. IfSome told (IsCheckpointOf machine.now members.now)) }
    ensures before { IfOk result (λ told. IfSome told (λ found. found.step ≤ to)) }
    ensures none { IfOk result (λ told. IfNone told ((n : ℕ) → to < n → IsRun (rules_of machine.now) members.now n → ⊥)) }
{
    let design = machine.design();
    let first = start.step;
    let Checkpoint {
        mut state,
        mut seen,
        ..
    } = start.copy(alloc)?;
    let mut rest = left_at(members, first);
    let mut newest = start;
    for step in first..to {
        let (index, later) = next_choice(rest, step);
        let Some(choice) = state.choice(index) else {
            return Ok(None);
        };
        take(
            alloc, design, &mut state, &mut seen, to, step, index, choice,
        )?;
        newest = newer(alloc, newest, choice, step + 1, &state, &seen)?;
        rest = later;
    }
    Ok(Some(newest))
}

/// For each member of the log the cause of what the run under the log up to that member has, and the run without that member hasn't: as
/// `cause_of` tells it, but in one walk along the run, so that the time grows with the run's length and not with its square. As many as
/// there are members, unless the run ends before a step that the log names. E901 is the only refusal.
pub fn causes_of(
    alloc: Global,
    machine: &Machine,
    log: &Log,
    steps: u32,
) -> Result<Vec<Option<Cause>>, NoMemory>
    ensures { IfOk result (λ causes. AreCauses machine.now log.now steps causes.items) }
{
    let members = log.members();
    let mut start = Checkpoint::open(alloc, machine)?;
    let mut causes = Vec::new(alloc);
    for place in 0..members.len() {
        let step = members[place].0;
        let Some(nearest) = nearest_to(alloc, machine, start, members, step)? else {
            return Ok(causes);
        };
        let front = members.split_at(place + 1).0;
        let cause = cause_from(alloc, machine, nearest.copy(alloc)?, front, step, steps)?;
        causes.push(cause)?;
        start = nearest;
    }
    Ok(causes)
}
