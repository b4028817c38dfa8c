// Ranks: numbers of states that no step of a run lowers.

ghost use Rattle.std.specs.Prelude.{◌≡◌, ℕ};
ghost use Rattle.sched_core.specs.Ranks.{IsRanked};

use crate::space::Space;

/// A space whose states have a rank, a number that no step of a run lowers, as the time of a
/// simulation. No run comes back to a rank that it has left, so a search may close a rank for good once
/// every state of it was gone through.
pub trait Ranked: Space {
    ghost ranks: { Self → Self.State → ℕ };

    /// The rank of the state.
    fn rank(&self, s: &Self::State) -> u64
        ensures { result ≡ ranks self.now s.now };

    ghost ranked: { (me : Self) → IsRanked (Self.rules me) (ranks me) };
}
