// What is remembered of forced ways.

ghost use Rattle.std.specs.Prelude.{◌≡◌, IfSome, IfNone, OnOk};
ghost use Rattle.explore.specs.Inner.Ways.{AllBefore, HasRoomFor, IsKnownAs, IsUnknown, RemembersAll, RemembersNoMore};

use crate::search::{Checkpoint, Onward, Search};
use basis::NoMemory;
use indexmap::IndexMap;
use std::hash::Hash;

/// How many more states are remembered than there are entries, at most: as many as the longest way has
/// checkpoints, and some.
const ROOM: usize = 4_096;

/// What is known of the state.
pub fn onward_from<S: Eq + Hash>(ways: &IndexMap<S, Onward>, state: &S) -> Option<Onward>
    ensures known { IfSome result (IsKnownAs S.eq ways.now.entries state.now) }
    ensures unknown { IfNone result (IsUnknown S.eq ways.now.entries state.now) }
{
    ways.get(state).copied()
}

/// Remembers of each checkpoint that the way from it goes on to `end` steps in all with no station
/// before, and to the station of the entry at the place, if one is given. Checkpoints for which there is
/// no room are let go.
pub fn remember<S: Eq + Hash + Drop>(
    search: &mut Search<S>,
    mut checkpoints: Vec<Checkpoint<S>>,
    end: u32,
    station: Option<usize>,
) -> Result<(), NoMemory>
    requires before { AllBefore checkpoints.items end }
    requires room { HasRoomFor search.old 0 }
    ensures remembered { RemembersNoMore S.eq search.old checkpoints.items end station search.new }
    ensures all { OnOk result (RemembersAll S.eq search.old checkpoints.items search.new) }
    ensures room { HasRoomFor search.new 0 }
    ensures book { search.new.book ≡ search.old.book }
{
    let most = search.book.len().saturating_add(ROOM);
    while let Some(Checkpoint { state, taken }) = checkpoints.pop() {
        if search.ways.len() < most {
            let steps = end - taken;
            search.ways.insert(state, Onward { steps, station })?;
        }
    }
    Ok(())
}
