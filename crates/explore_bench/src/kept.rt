// A collector that keeps all the marks of a board.

use basis::NoMemory;
use explore::{Collector, RankMarks};
use sched_core::Square;
use std::alloc::Global;

/// The marks that were handed on, rank by rank.
#[derive(Drop)]
pub struct KeptMarks {
    pub ranks: Vec<RankMarks<Square>>,
}

impl KeptMarks {
    /// No marks yet.
    pub fn new(alloc: Global) -> KeptMarks {
        KeptMarks {
            ranks: Vec::new(alloc),
        }
    }
}

/// It keeps them as they come.
impl Collector<Square> for KeptMarks {
    ghost use Rattle.std.specs.Prelude.{OnErr, OnOk};
    ghost use Rattle.explore.specs.Ranked.{CollectsMore, StaysAs, closing_of};
    ghost use Rattle.explore_bench.specs.Kept.{CollectsAll, collects_none};

    ghost collects = { CollectsAll };

    fn collect(&mut self, closed: RankMarks<Square>) -> Result<(), NoMemory>
        ensures ok { OnOk result (CollectsMore CollectsAll self.old (closing_of closed) self.new) }
        ensures err { OnErr result (StaysAs CollectsAll self.old self.new) }
    {
        self.ranks.push(closed)?;
        Ok(())
    }

    fn found_count(&self) -> usize {
        self.ranks.len()
    }

    ghost none = { collects_none };
}
