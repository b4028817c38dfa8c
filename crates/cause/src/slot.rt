// The visits of the slot of a step, as a run under a log makes them.

ghost use Rattle.std.specs.Prelude.{◌≡◌, ◌≤◌, ℕ, [], true, false, Some, IfOk, IfSome, IfNone};
ghost use Rattle.sched_core.specs.Logs.{IsLogFrom};
ghost use Rattle.sched_core.proofs.RunLemmas.{IsLeft};
ghost use Rattle.cause.specs.Causes.{AreEarlier, AreVisits, HasNoSlot};
ghost use Rattle.cause.specs.Checkpoints.{IsCheckpointOf};
ghost use Rattle.cause.specs.Stands.{StandsBefore};
ghost use Rattle.footprints.specs.Visits as spec;

use crate::checkpoint::Checkpoint;
use crate::step::take;
use basis::NoMemory;
use footprints::visit::{Seen, Visit};
use plain_steps::State;
use sched_core::{Member, next_choice};
use std::alloc::Global;
use vmachine::Machine;
use vmodel::choice::Choice;

// The choice of a step, if it goes on with the slot.
fn going_on(choice: Option<Choice>) -> Option<Choice>
    ensures some { IfSome result (λ found. (choice ≡ Some found) × (spec.is_in_slot (Some found) ≡ true)) }
    ensures none { IfNone result (spec.is_in_slot choice ≡ false) }
{
    match choice {
        None => None,
        Some(Choice::Run(process)) => Some(Choice::Run(process)),
        Some(Choice::Update) => Some(Choice::Update),
        Some(Choice::Advance) => None,
    }
}

/// The step of the first member, if it comes before this one.
#[tactic(auto, using(crate::proofs::CheckpointLemmas::log_from, crate::proofs::CheckpointLemmas::empty_from))]
pub(crate) fn first_step(members: &[Member], step: u32) -> u32
    ensures before { result ≤ step }
    ensures left { IsLogFrom 0 members.now → IsLogFrom result members.now }
{
    match members.first() {
        None => step,
        Some(member) => { if member.0 < step { member.0 } else { step } }
    }
}

/// The visits of the slot of a step: those that come before that step, and those from it on.
#[derive(Drop)]
pub(crate) struct Slot {
    pub(crate) earlier: Vec<Visit>,
    pub(crate) visits: Vec<Visit>,
}

// The first step of the slot of the next step, behind a step of a choice; where another slot begins the visits are forgotten.
fn begin_after(alloc: Global, choice: Choice, begin: u32, next: u32, seen: &mut Seen) -> u32
    ensures goes { spec.is_in_slot (Some choice) ≡ true → (result ≡ begin) × (seen.new ≡ seen.old) }
    ensures ends { spec.is_in_slot (Some choice) ≡ false →
        (result ≡ next) × (seen.new ≡ record seen.old { visits = []; waits = [] }) }
{
    match choice {
        Choice::Run(_) => begin,
        Choice::Update => begin,
        Choice::Advance => {
            seen.forget_visits(alloc);
            next
        }
    }
}

// What the members name from a step on.
#[tactic(auto, using(crate::proofs::RestLemmas::left_there, crate::proofs::RestLemmas::from_there, crate::proofs::RestLemmas::from_end))]
pub(crate) fn left_at(members: &[Member], step: u32) -> &[Member]
    requires { IsLogFrom 0 members.now }
    ensures { IsLeft members.now result.now step }
{
    for place in 0..members.len() {
        if step <= members[place].0 {
            return members.split_at(place).1;
        }
    }
    members.split_at(members.len()).1
}

// The state of the run under the log of these members before step `from`, what was seen of it, with the visits of its slot up to there, and
// what is left of the log; none where there is no such run.
fn before_step<'a>(
    alloc: Global,
    machine: &Machine,
    start: Checkpoint,
    members: &'a [Member],
    from: u32,
) -> Result<Option<(State, Seen, &'a [Member])>, NoMemory>
    requires lawful { IsLogFrom 0 members.now }
    requires start { IsCheckpointOf machine.now members.now start }
    requires before { start.step ≤ from }
    ensures some { IfOk result (λ told. IfSome told (λ found.
        StandsBefore machine.now members.now from found.2.now found.0 found.1)) }
    ensures none { IfOk result (λ told. IfNone told ((steps : ℕ) → HasNoSlot machine.now members.now from steps)) }
{
    let design = machine.design();
    let Checkpoint {
        step: first,
        mut state,
        mut seen,
    } = start;
    let mut rest = left_at(members, first);
    let mut begin = first;
    for step in first..from {
        let (index, later) = next_choice(rest, step);
        let Some(choice) = state.choice(index) else {
            return Ok(None);
        };
        take(
            alloc, design, &mut state, &mut seen, begin, step, index, choice,
        )?;
        begin = begin_after(alloc, choice, begin, step + 1, &mut seen);
        rest = later;
    }
    Ok(Some((state, seen, rest)))
}

/// The visits of the slot of step `from` in the run under the log of these members, from a checkpoint on that isn't behind that step; none
/// where the slot doesn't end before `steps` steps, or where there is no such run.
pub(crate) fn visits_of_slot(
    alloc: Global,
    machine: &Machine,
    start: Checkpoint,
    members: &[Member],
    from: u32,
    steps: u32,
) -> Result<Option<Slot>, NoMemory>
    requires lawful { IsLogFrom 0 members.now }
    requires start { IsCheckpointOf machine.now members.now start }
    requires before { start.step ≤ from }
    ensures earlier { IfOk result (λ told. IfSome told (λ slot. AreEarlier machine.now members.now from slot.earlier.items)) }
    ensures visits { IfOk result (λ told. IfSome told (λ slot. AreVisits machine.now members.now from slot.visits.items)) }
    ensures none { IfOk result (λ told. IfNone told (HasNoSlot machine.now members.now from steps)) }
{
    if from >= steps {
        return Ok(None);
    }
    let design = machine.design();
    let Some((mut state, kept, left)) = before_step(alloc, machine, start, members, from)? else {
        return Ok(None);
    };
    let (earlier, mut seen) = kept.apart(alloc);
    let mut rest = left;
    for step in from..steps {
        let (index, later) = next_choice(rest, step);
        let Some(choice) = going_on(state.choice(index)) else {
            return Ok(Some(Slot {
                earlier,
                visits: seen.into_visits(),
            }));
        };
        take(
            alloc, design, &mut state, &mut seen, from, step, index, choice,
        )?;
        rest = later;
    }
    Ok(None)
}
