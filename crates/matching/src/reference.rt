// What shows from time to time which states fit.

ghost use Rattle.std.specs.Prelude.{◌≡◌, ◌<◌, ℕ, true, List, [], Option, Some, IsSome, IfSome, IfNone, OnOk};
ghost use Rattle.matching.specs.Explained.{Piece};
ghost use Rattle.matching.specs.Answers.{DiffersAlike, ReadsMore};

use basis::OrMemory;

/// What runs are compared with, as the dump of another simulator: it shows, from one time after another on, how many of the things
/// that are compared differ in a state. What it shows it may read as it goes, and forget.
pub trait Reference<S: Eq> {
    type Fault: Drop;

    /// What is shown now.
    ghost piece: { Self → Piece S };

    /// The time of the next piece, if there is one.
    ghost upcoming: { Self → Option ℕ };

    /// Going on from the first to the second shows these pieces, one after another.
    ghost reads: { Self → List (Piece S) → Self → Type 0 };

    /// Nothing is left.
    ghost done: { Self → Type 0 };

    /// The time of the next piece, later than that of the one that is shown; None where nothing is left.
    fn next_time(&self) -> Option<u64>
        ensures upcoming { result ≡ upcoming self.now }
        ensures later { IfSome result (λ t. (piece self.now).from < t) }
        ensures done { IfNone result (done self.now) };

    /// Goes on to the next piece.
    fn advance(&mut self) -> Result<(), OrMemory<Self::Fault>>
        requires { IsSome (upcoming self.old) }
        ensures time { OnOk result (upcoming self.old ≡ Some (piece self.new).from) }
        ensures reads { OnOk result (ReadsMore reads self.old (piece self.new) self.new) };

    /// How many of the things that are compared differ in the state.
    fn count_differences(&self, s: &S) -> usize
        ensures { result ≡ (piece self.now).differ s.now };

    /// To read nothing shows nothing.
    ghost none: { (me : Self) → reads me [] me };

    ghost alike: { (me : Self) → DiffersAlike (λ s t. S.eq s t ≡ true) (piece me) };
}
