// What a choice makes of an entry: of its log, of the departures left, and of the state at the next station.

ghost use Rattle.std.specs.Prelude.{◌≡◌, ◌≤◌, IfOk};
ghost use Rattle.sched_core.specs.Rules.{NamesBelow};
ghost use Rattle.statebook.specs.ExplorerCore.{budget_after};
ghost use Rattle.statebook.specs.Ways.{Allows, ChoiceGoesPast};
ghost use Rattle.statebook.specs.Inner.Forced.{Follows, GoesOn, IfPast, IfReached, IsFirst, MayBeAdded, log_of};

use crate::entry::Entry;
use crate::limits::Limits;
use crate::way::walk;
use basis::NoMemory;
use sched_core::{Log, Space};

/// The log of a run that goes on by this choice at this step.
pub fn log_after(log: &Log, step: u32, choice: u32) -> Result<Log, NoMemory>
    requires names { NamesBelow log.now step }
    requires step { step ≤ 999999 }
    ensures { IfOk result (λ after. after ≡ log_of log.now step choice) }
{
    let mut after = log.copy()?;
    if choice != 0 {
        after.push(step, choice)?;
    }
    Ok(after)
}

/// The departures left after the choice.
pub fn budget_left(budget: u32, choice: u32) -> u32
    ensures { result ≡ budget_after budget choice }
{
    if choice == 0 {
        budget
    } else {
        budget.saturating_sub(1)
    }
}

/// The entry of the next station after a choice that the entry's budget allows; None where the
/// way there takes more steps than the limit. The state is copied once, and no way is remembered.
pub fn next_entry<P: Space>(
    space: &P,
    limits: &Limits,
    root: &P::State,
    entry: &Entry<P::State>,
    choice: u32,
) -> Result<Option<Entry<P::State>>, NoMemory>
    requires root { IsFirst (P.rules space.now) root.now }
    requires entry { MayBeAdded (P.rules space.now) limits.now entry.now }
    requires choice { Allows (P.rules space.now) entry.now choice }
    ensures follows { IfReached result (Follows (P.rules space.now) entry.now choice) }
    ensures allowed { IfReached result (MayBeAdded (P.rules space.now) limits.now) }
    ensures goes_on { IfReached result (GoesOn entry.now choice) }
    ensures past { IfPast result (ChoiceGoesPast (P.rules space.now) limits.now entry.now choice) }
{
    if entry.steps == limits.steps {
        return Ok(None);
    }
    let log = log_after(&entry.log, entry.steps, choice)?;
    let mut state = space.copy(&entry.state)?;
    space.step(&mut state, choice)?;
    match walk(space, root, &mut state, entry.steps + 1, limits.steps)? {
        Some(steps) => Ok(Some(Entry {
            state,
            budget: budget_left(entry.budget, choice),
            log,
            steps,
        })),
        None => Ok(None),
    }
}
