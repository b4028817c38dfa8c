// A step of a run, and what is seen of it.

ghost use Rattle.std.specs.Prelude.{◌≡◌, ◌+◌, ◌≤◌, IfOk, OnOk};
ghost use Rattle.vmodel.specs.Step.{next};
ghost use Rattle.footprints.specs.Keeping.{Keeps};
ghost use Rattle.footprints.specs.Visits as spec;

use basis::NoMemory;
use footprints::visit::{Seen, acting_place};
use plain_steps::State;
use std::alloc::Global;
use vbits::Vec4;
use vdesign::design::Design;
use vmodel::choice::Choice;

// The values before a step, where visits are put.
fn values_from(alloc: Global, state: &State, from: u32, step: u32) -> Result<Vec<Vec4>, NoMemory>
    ensures { IfOk result (λ values. from ≤ step → values.items ≡ state.now.values) }
{
    let mut values = Vec::new(alloc);
    if step >= from {
        values.extend_from_slice(state.values())?;
    }
    Ok(values)
}

// Takes a step of a choice, and sees it.
fn see(
    alloc: Global,
    design: &Design,
    state: &mut State,
    seen: &mut Seen,
    from: u32,
    step: u32,
    index: u32,
    choice: Choice,
) -> Result<(), NoMemory>
    requires few { seen.old.updates ≤ step }
    ensures state { OnOk result (state.new ≡ (next design.now state.old index).state) }
    ensures seen { OnOk result (seen.new ≡ spec.seen_by design.now from step state.old choice
        (next design.now state.old index) seen.old) }
    ensures few { OnOk result (seen.new.updates ≤ step + 1) }
{
    let acting = acting_place(state, choice);
    let place = seen.place_from(state, choice, from, step);
    let time = state.time();
    let before = values_from(alloc, state, from, step)?;
    let mut monitors = Vec::new(alloc);
    let effect = state.step(design, index, &mut monitors)?;
    seen.put(
        alloc, design, from, step, time, choice, acting, place, &before, state, &effect,
    )
}

// After the advance to another time the updates that were due before it are forgotten.
#[tactic(auto, using(crate::proofs::CheckpointLemmas::keeps_all, crate::proofs::CheckpointLemmas::keeps_due))]
fn forget(alloc: Global, choice: Choice, time: u64, seen: &mut Seen) -> Result<(), NoMemory>
    ensures { OnOk result (Keeps time seen.new seen.old) }
{
    match choice {
        Choice::Run(_) => Ok(()),
        Choice::Update => Ok(()),
        Choice::Advance => seen.forget_before(alloc, time),
    }
}

/// Takes a step of a choice, sees it, and keeps of what was seen what can be asked from then on. Visits are put from step `from` on.
#[tactic(auto, using(crate::proofs::CheckpointLemmas::keeps_as))]
pub(crate) fn take(
    alloc: Global,
    design: &Design,
    state: &mut State,
    seen: &mut Seen,
    from: u32,
    step: u32,
    index: u32,
    choice: Choice,
) -> Result<(), NoMemory>
    requires few { seen.old.updates ≤ step }
    ensures state { OnOk result (state.new ≡ (next design.now state.old index).state) }
    ensures seen { OnOk result (Keeps state.new.queue.time seen.new
        (spec.seen_by design.now from step state.old choice (next design.now state.old index) seen.old)) }
    ensures few { OnOk result (seen.new.updates ≤ step + 1) }
{
    see(alloc, design, state, seen, from, step, index, choice)?;
    forget(alloc, choice, state.time(), seen)
}
