// Marks that a search found, as the calls of a trait, so that one reading of them serves each kind of search.

ghost use Rattle.std.specs.Prelude.{◌≡◌, ℕ, List, length, option_map, slice_get};
ghost use Rattle.std.specs.Map.Iter.{deref_pair};
ghost use Rattle.vmachine.specs.declared.machine_state.MachineState.{MachineState};

use explore::Findings;
use racebook::TimedFindings;
use sched_core::Log;
use vmachine::MachineState;

/// Marks, each with a log that leads to it.
pub trait Marks {
    /// The marks in order, each with its log.
    ghost pairs: { Self → List (MachineState × List (ℕ × ℕ)) };

    /// How many there are.
    fn count(&self) -> usize
        ensures { result ≡ length (pairs self.now) };

    /// The mark at the place.
    fn mark_at(&self, place: usize) -> Option<(&MachineState, &Log)>
        ensures { option_map deref_pair result ≡ slice_get (pairs self.now) place };
}

/// The marks of a search that keeps all of them.
impl Marks for Findings<MachineState> {
    ghost pairs = { λ findings. findings.marks.entries };

    fn count(&self) -> usize {
        self.marks.len()
    }

    fn mark_at(&self, place: usize) -> Option<(&MachineState, &Log)> {
        self.marks.get_index(place)
    }
}

/// The ends that a search by time kept.
impl Marks for TimedFindings {
    ghost use Rattle.explore.specs.Ranked.{pairs_of};

    ghost pairs = { λ found. pairs_of found.ends.items };

    fn count(&self) -> usize {
        self.ends.len()
    }

    fn mark_at(&self, place: usize) -> Option<(&MachineState, &Log)> {
        match self.ends.get(place) {
            Some(end) => Some((&end.state, &end.log)),
            None => None,
        }
    }
}
