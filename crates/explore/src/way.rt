// Forced ways, to the next station by what is remembered of them.

ghost use Rattle.std.specs.Prelude.{◌≡◌, ◌≤◌, [], IfOk};
ghost use Rattle.statebook.specs.Ways.{GoesPast};
ghost use Rattle.statebook.specs.Inner.Forced.{ComesTo, IfPast, IfReached};
ghost use Rattle.basis.specs.Reasons.{IfFault};
ghost use Rattle.explore.specs.Inner.Ways.{AllCome, AllGoPast, IsAhead, IsSearching, IsTold};

use crate::collector::{Progress, Watcher};
use crate::halt::Halt;
use crate::search::{Checkpoint, Search};
use crate::ways::onward_from;
use basis::{NoMemory, OrMemory};
use sched_core::Space;
use statebook::{Limits, walk};

/// How far apart the states on a way are that are looked up and remembered, in steps of the run.
const SPACING: u32 = 256;

// What is known of a way from a state on it: it comes to its station after so many steps in all,
// it goes past the limit, or nothing that would decide it.
enum Ahead {
    Station(u32),
    Past,
    Unknown,
}

// Puts the next station in the place of the state where it is known and within the limit.
fn look_ahead<P: Space>(
    space: &P,
    limits: &Limits,
    search: &Search<P::State>,
    state: &mut P::State,
    n: u32,
) -> Result<Ahead, NoMemory>
    requires searching { IsSearching (P.rules space.now) limits.now search.now }
    requires within { n ≤ limits.now.steps }
    ensures ahead { IfOk result (IsAhead (P.rules space.now) state.old n limits.now state.new) }
{
    let Some(onward) = onward_from(&search.ways, state) else {
        return Ok(Ahead::Unknown);
    };
    if onward.steps > limits.steps - n {
        return Ok(Ahead::Past);
    }
    match onward.station {
        Some(place) => {
            *state = space.copy(&search.book.read(place).state)?;
            Ok(Ahead::Station(n + onward.steps))
        }
        None => Ok(Ahead::Unknown),
    }
}

/// Takes forced steps to the next station, the state itself if it is one, and answers how many
/// steps were taken in all; None where that would take more than the limit.
///
/// Each time that the count of steps comes to a multiple of `SPACING` it looks whether it is known how
/// the way goes on. Where that doesn't decide, the state becomes a checkpoint. So at most one step in
/// `SPACING` copies a state, and a way that comes to a remembered state at such a count ends there. At each such
/// count the watcher is asked, too; where it says so the way stops short, and its checkpoints say nothing.
pub fn to_station<P: Space, W: Watcher>(
    space: &P,
    limits: &Limits,
    search: &Search<P::State>,
    state: &mut P::State,
    taken: u32,
    checkpoints: &mut Vec<Checkpoint<P::State>>,
    watcher: &mut W,
    progress: &Progress,
) -> Result<Option<u32>, OrMemory<Halt>>
    requires searching { IsSearching (P.rules space.now) limits.now search.now }
    requires within { taken ≤ limits.now.steps }
    requires none_yet { checkpoints.old.items ≡ [] }
    ensures there { IfReached result (ComesTo (P.rules space.now) state.old taken state.new) }
    ensures limit { IfReached result (λ n. n ≤ limits.now.steps) }
    ensures past { IfPast result (GoesPast (P.rules space.now) state.old taken limits.now.steps) }
    ensures come { IfReached result (AllCome (P.rules space.now) checkpoints.new.items state.new) }
    ensures go_past { IfPast result (AllGoPast (P.rules space.now) checkpoints.new.items limits.now) }
    ensures why { IfFault result (IsTold (W.stopped watcher.new)) }
{
    let root = &search.book.read(0).state;
    let mut n = taken;
    loop {
        let until = limits.steps.min(n + (SPACING - n % SPACING));
        if let Some(reached) = walk(space, root, state, n, until)? {
            return Ok(Some(reached));
        }
        n = until;
        if n == limits.steps {
            return Ok(None);
        }
        if !watcher.go_on(progress) {
            return Err(OrMemory::Fault(Halt::Stopped));
        }
        match look_ahead(space, limits, search, state, n)? {
            Ahead::Station(reached) => return Ok(Some(reached)),
            Ahead::Past => return Ok(None),
            Ahead::Unknown => checkpoints.push(Checkpoint {
                state: space.copy(state)?,
                taken: n,
            })?,
        }
    }
}
