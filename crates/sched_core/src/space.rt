// A space: states with numbered choices, as the calls of a trait.

ghost use Rattle.std.specs.Prelude.{◌≡◌, ◌<◌, true, IfOk, OnOk, OnErr};
ghost use Rattle.sched_core.specs.Rules.{IsAfter, IsLawful, Rules};

use basis::NoMemory;
use std::hash::Hash;

/// States with numbered choices, as an explorer meets them. Choices of a state are numbered from
/// 0, and choice 0 is the default.
///
/// `rules` says what the space means. All is said up to the states' own equality.
pub trait Space {
    type State: Eq + Hash + Drop + Send + Sync;

    ghost rules: { Self → Rules Self.State };

    /// The opening state.
    fn root(&self) -> Result<Self::State, NoMemory>
        ensures { IfOk result (λ s. (rules self.now).same s (rules self.now).first ≡ true) };

    /// An equal state.
    fn copy(&self, s: &Self::State) -> Result<Self::State, NoMemory>
        ensures { IfOk result (λ t. (rules self.now).same t s.now ≡ true) };

    /// How many choices the state has. At 0 the run has ended.
    fn width(&self, s: &Self::State) -> u32
        ensures { result ≡ (rules self.now).width s.now };

    /// Takes the one step of choice `i`. After want of memory the state is as it was.
    fn step(&self, s: &mut Self::State, i: u32) -> Result<(), NoMemory>
        requires { i < (rules self.now).width s.old }
        ensures ok { OnOk result (IsAfter (rules self.now) s.old i s.new) }
        ensures err { OnErr result (s.new ≡ s.old) };

    /// Whether the state is one of those that an explorer lists: an observable state.
    fn is_mark(&self, s: &Self::State) -> bool
        ensures { result ≡ (rules self.now).mark s.now };

    ghost same_is_eq: { (me : Self) (s t : Self.State) → (rules me).same s t ≡ Self.State.eq s t };

    ghost lawful: { (me : Self) → IsLawful (rules me) };
}
