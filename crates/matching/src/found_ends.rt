// What the search of a slot hands on.

ghost use Rattle.std.specs.Prelude.{◌≡◌, []};

use crate::budgeted_slot::Budgeted;
use basis::NoMemory;
use explore::{Collector, FoundMark, RankMarks};
use std::alloc::Global;

/// The ends of the slot that were found, each with its log; and how many candidates there are already, of which a watcher is told.
#[derive(Drop)]
pub struct FoundEnds<S> {
    pub ends: Vec<FoundMark<Budgeted<S>>>,
    pub candidates: usize,
}

impl<S> FoundEnds<S> {
    /// No ends yet.
    pub fn new(alloc: Global, candidates: usize) -> FoundEnds<S>
        ensures { result.ends.items ≡ [] }
    {
        FoundEnds {
            ends: Vec::new(alloc),
            candidates,
        }
    }
}

/// It keeps them as they come.
impl<S: Drop> Collector<Budgeted<S>> for FoundEnds<S> {
    ghost use Rattle.std.specs.Prelude.{OnErr, OnOk};
    ghost use Rattle.explore.specs.Ranked.{CollectsMore, StaysAs, closing_of};
    ghost use Rattle.matching.specs.Inner.FoundEnds.{CollectsEnds, collects_none};

    ghost collects = { CollectsEnds };

    fn collect(&mut self, closed: RankMarks<Budgeted<S>>) -> Result<(), NoMemory>
        ensures ok { OnOk result (CollectsMore CollectsEnds self.old (closing_of closed) self.new) }
        ensures err { OnErr result (StaysAs CollectsEnds self.old self.new) }
    {
        let mut marks = closed.marks;
        self.ends.append(&mut marks)?;
        Ok(())
    }

    fn found_count(&self) -> usize {
        self.candidates
    }

    ghost none = { collects_none };
}
