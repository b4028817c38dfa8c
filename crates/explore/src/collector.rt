// Who takes what a search that goes by rank finds, and who is asked whether it is to go on.

ghost use Rattle.std.specs.Prelude.{◌≡◌, false, List, [], OnOk, OnErr};
ghost use Rattle.explore.specs.Ranked.{Closing, CollectsMore, StaysAs, closing_of};

use crate::rank_marks::RankMarks;
use basis::NoMemory;

/// Takes the marks of one rank after another. It needn't keep them: what it makes of them is its own.
pub trait Collector<S> {
    /// What collecting these, one after another, makes of the collector.
    ghost collects: { Self → List (Closing S) → Self → Type 0 };

    /// Takes the marks of a rank that is closed; after want of memory none of them.
    fn collect(&mut self, closed: RankMarks<S>) -> Result<(), NoMemory>
        ensures ok { OnOk result (CollectsMore collects self.old (closing_of closed) self.new) }
        ensures err { OnErr result (StaysAs collects self.old self.new) };

    /// How much it has found by now; a watcher is shown it.
    fn found_count(&self) -> usize;

    /// To collect nothing changes nothing.
    ghost none: { (me : Self) → collects me [] me };
}

/// How far a search that goes by rank has come: the rank under way, how many entries were opened in all, how
/// many of them are held, those of this rank and those that wait at later ones, how many ranks were closed, and how much
/// the collector found in these.
#[derive(Clone, Copy)]
pub struct Progress {
    pub rank: u64,
    pub entries_opened: usize,
    pub entries_held: usize,
    pub ranks_closed: u64,
    pub found: usize,
}

/// Who watches a search.
pub trait Watcher {
    /// It said that the search is to stop.
    ghost stopped: { Self → Type 0 };

    /// Whether the search is to go on. It is asked once for each entry that is taken, and on a long way between two entries again and again.
    fn go_on(&mut self, progress: &Progress) -> bool
        ensures stops { result ≡ false → stopped self.new };
}

/// How far a search has come of which nobody asks.
pub const NO_PROGRESS: Progress = Progress {
    rank: 0,
    entries_opened: 0,
    entries_held: 0,
    ranks_closed: 0,
    found: 0,
};

/// A watcher that never says that a search is to stop.
#[derive(Drop)]
pub struct Nobody;

impl Watcher for Nobody {
    ghost use Rattle.std.specs.Prelude.{◌≡◌, false};

    ghost stopped = { λ nobody. ⊥ };

    fn go_on(&mut self, _progress: &Progress) -> bool {
        true
    }
}
