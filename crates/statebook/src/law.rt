// The laws that exploring rests on.

ghost use Rattle.std.specs.Prelude.{ℕ};
ghost use Rattle.statebook.specs.Books.{no_entries};
ghost use Rattle.statebook.specs.ExplorerCore.{IsSound};
ghost use Rattle.statebook.specs.Laws.{AllowedKeepSound, ClosedCovers, FinishKeepsSound, InsertKeepsSound};

use sched_core::Space;

/// The law that exploring rests on, of every lawful space, every number of workers and seats, and
/// every list of allowed events, dominance in `Add` aside. It does nothing.
pub fn closed_covers<P: Space>(space: &P)
    ensures sound { AllowedKeepSound (P.rules space.now) }
    ensures covered { ClosedCovers (P.rules space.now) }
{}

/// The law of a book that its owner keeps, which is asked for nothing when it meets and finishes
/// entries: one without entries is sound, and it stays so where it meets an entry that `Add`
/// allows, dominance aside, and where an entry is finished as `Finish` asks. So what is read of
/// it is such an entry. It does nothing.
pub fn book_stays_sound<P: Space>(space: &P)
    ensures none { (k limit : ℕ) → IsSound (P.rules space.now) k limit no_entries }
    ensures met { InsertKeepsSound (P.rules space.now) P.State.eq }
    ensures finished { FinishKeepsSound (P.rules space.now) }
{}
