// Forced ways, walked to the next station.

ghost use Rattle.std.specs.Prelude.{◌≡◌, ◌≤◌, ◌-◌};
ghost use Rattle.statebook.specs.Stations.{is_station};
ghost use Rattle.statebook.specs.Ways.{GoesPast};
ghost use Rattle.statebook.specs.Inner.Forced.{ComesTo, IfPast, IfReached, IsFirst, IsForced};

use basis::NoMemory;
use sched_core::Space;

// Whether an explorer stops at the state: at one equal to the opening state, at one of width
// other than 1, and at a mark.
fn stops_at<P: Space>(space: &P, root: &P::State, state: &P::State) -> bool
    requires { IsFirst (P.rules space.now) root.now }
    ensures { result ≡ is_station (P.rules space.now) state.now }
{
    state == root || space.width(state) != 1 || space.is_mark(state)
}

/// Takes forced steps to the next station, the state itself if it is one, and answers how many
/// steps were taken in all; None where there is none up to `limit` steps, and there the state stands.
pub fn walk<P: Space>(
    space: &P,
    root: &P::State,
    state: &mut P::State,
    taken: u32,
    limit: u32,
) -> Result<Option<u32>, NoMemory>
    requires root { IsFirst (P.rules space.now) root.now }
    requires within { taken ≤ limit }
    ensures there { IfReached result (ComesTo (P.rules space.now) state.old taken state.new) }
    ensures limit { IfReached result (λ n. n ≤ limit) }
    ensures past { IfPast result (GoesPast (P.rules space.now) state.old taken limit) }
    ensures on { IfPast result (IsForced (P.rules space.now) state.old (limit - taken) state.new) }
{
    let mut n = taken;
    loop {
        if stops_at(space, root, state) {
            return Ok(Some(n));
        }
        if n == limit {
            return Ok(None);
        }
        space.step(state, 0)?;
        n += 1;
    }
}
