// What is handed on as a rank is closed: its marks, each with its log.

ghost use Rattle.std.specs.Prelude.{◌≡◌, IfOk};
ghost use Rattle.explore.specs.Ranked.{pairs_of};

use basis::NoMemory;
use indexmap::IndexMap;
use sched_core::Log;
use std::alloc::Global;
use std::hash::Hash;

/// A mark, with a log of the fewest departures.
#[derive(Drop)]
pub struct FoundMark<S> {
    pub state: S,
    pub log: Log,
}

/// The marks of a rank, each once.
#[derive(Drop)]
pub struct RankMarks<S> {
    pub rank: u64,
    pub marks: Vec<FoundMark<S>>,
}

/// The entries of the map, in its order.
pub fn found_marks<S: Eq + Hash + Drop>(
    alloc: Global,
    marks: IndexMap<S, Log>,
) -> Result<Vec<FoundMark<S>>, NoMemory>
    ensures { IfOk result (λ found. pairs_of found.items ≡ marks.entries) }
{
    let mut found = Vec::with_capacity(alloc, marks.len())?;
    for (state, log) in marks {
        found.push(FoundMark { state, log })?;
    }
    Ok(found)
}
