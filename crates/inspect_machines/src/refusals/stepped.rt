// The steps of the run that takes choice 0 throughout.

use super::counts::CallCounts;
use basis::NoMemory;
use sched_core::Space;

// Takes the default step, if there is one.
fn step<P: Space>(space: &P, state: &mut P::State) -> Result<(), NoMemory> {
    if space.width(state) > 0 {
        space.step(state, 0)
    } else {
        Ok(())
    }
}

// Takes the default step, once more where it was refused: the state is then as it was before, and what the second call makes of it
// is what a step makes of its copy.
fn take<P: Space>(
    space: &P,
    state: &mut P::State,
    counts: &mut CallCounts,
) -> Result<(), NoMemory> {
    let mut copy = space.copy(state)?;
    let was_refused = step(space, state).is_err();
    if was_refused {
        counts.expect(*state == copy, "a refused step changed the state");
        step(space, state)?;
    }
    step(space, &mut copy)?;
    counts.expect(*state == copy, "a step of a copy made another state");
    counts.count(was_refused);
    Ok(())
}

/// The default run, of at most a thousand steps.
pub fn walks<P: Space>(space: &P) -> Result<CallCounts, NoMemory> {
    let mut counts = CallCounts::new();
    let mut state = space.root()?;
    for _ in 0..1_000u32 {
        if space.width(&state) == 0 {
            return Ok(counts);
        }
        take(space, &mut state, &mut counts)?;
    }
    Ok(counts)
}
