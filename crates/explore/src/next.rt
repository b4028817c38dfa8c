// The entry of the next station after a choice.

ghost use Rattle.std.specs.Prelude.{◌≡◌, []};
ghost use Rattle.statebook.specs.Ways.{Allows, ChoiceGoesPast};
ghost use Rattle.statebook.specs.Inner.Forced.{Follows, GoesOn, IfPast, IfReached, MayBeAdded};
ghost use Rattle.basis.specs.Reasons.{IfFault};
ghost use Rattle.explore.specs.Inner.Ways.{AllComeTo, AllGoPast, IsSearching, IsTold};

use crate::collector::{Progress, Watcher};
use crate::halt::Halt;
use crate::search::{Checkpoint, Search};
use crate::way::to_station;
use basis::OrMemory;
use sched_core::Space;
use statebook::{Entry, Limits, budget_left, log_after};

/// The entry of the next station after a choice that the entry's budget allows; None where the
/// way there takes more steps than the limit. Each checkpoint on the way leads there too. The state is
/// copied once, each checkpoint's once, and the station's once where it is known from a checkpoint. The watcher may
/// stop a long way short.
pub fn next_entry<P: Space, W: Watcher>(
    space: &P,
    limits: &Limits,
    search: &Search<P::State>,
    entry: &Entry<P::State>,
    choice: u32,
    checkpoints: &mut Vec<Checkpoint<P::State>>,
    watcher: &mut W,
    progress: &Progress,
) -> Result<Option<Entry<P::State>>, OrMemory<Halt>>
    requires searching { IsSearching (P.rules space.now) limits.now search.now }
    requires entry { MayBeAdded (P.rules space.now) limits.now entry.now }
    requires choice { Allows (P.rules space.now) entry.now choice }
    requires none_yet { checkpoints.old.items ≡ [] }
    ensures follows { IfReached result (Follows (P.rules space.now) entry.now choice) }
    ensures allowed { IfReached result (MayBeAdded (P.rules space.now) limits.now) }
    ensures goes_on { IfReached result (GoesOn entry.now choice) }
    ensures past { IfPast result (ChoiceGoesPast (P.rules space.now) limits.now entry.now choice) }
    ensures come { IfReached result (AllComeTo (P.rules space.now) checkpoints.new.items) }
    ensures go_past { IfPast result (AllGoPast (P.rules space.now) checkpoints.new.items limits.now) }
    ensures why { IfFault result (IsTold (W.stopped watcher.new)) }
{
    if entry.steps == limits.steps {
        return Ok(None);
    }
    let log = log_after(&entry.log, entry.steps, choice)?;
    let mut state = space.copy(&entry.state)?;
    space.step(&mut state, choice)?;
    let taken = entry.steps + 1;
    match to_station(
        space,
        limits,
        search,
        &mut state,
        taken,
        checkpoints,
        watcher,
        progress,
    )? {
        Some(steps) => Ok(Some(Entry {
            state,
            budget: budget_left(entry.budget, choice),
            log,
            steps,
        })),
        None => Ok(None),
    }
}
