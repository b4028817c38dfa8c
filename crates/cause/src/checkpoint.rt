// A checkpoint of a run.

ghost use Rattle.std.specs.Prelude.{◌≡◌, ℕ, List, IfOk};
ghost use Rattle.vmodel.specs.Run.{Setting};
ghost use Rattle.cause.specs.Checkpoints.{IsCheckpoint, IsCheckpointOf};

use basis::NoMemory;
use footprints::visit::Seen;
use plain_steps::State;
use std::alloc::Global;
use vmachine::Machine;

/// The state in which a run stands before the first step of a slot, and what is kept of what was seen of it up to there.
#[derive(Drop)]
pub(crate) struct Checkpoint {
    pub(crate) step: u32,
    pub(crate) state: State,
    pub(crate) seen: Seen,
}

impl Checkpoint {
    /// The beginning of the run.
    #[tactic(auto, using(crate::proofs::CheckpointLemmas::opened_is))]
    pub(crate) fn open(alloc: Global, machine: &Machine) -> Result<Checkpoint, NoMemory>
        ensures is { IfOk result (IsCheckpoint machine.now) }
        ensures first { IfOk result (λ checkpoint. checkpoint.step ≡ 0) }
    {
        Ok(Checkpoint {
            step: 0,
            state: machine.opening_state()?,
            seen: Seen::nothing(alloc),
        })
    }

    /// The same.
    #[tactic(auto, using(crate::proofs::CheckpointLemmas::copied_is))]
    pub(crate) fn copy(&self, alloc: Global) -> Result<Checkpoint, NoMemory>
        ensures is { IfOk result (λ copied. (setting : Setting) (log : List (ℕ × ℕ)) →
            IsCheckpointOf setting log self.now → IsCheckpointOf setting log copied) }
        ensures step { IfOk result (λ copied. copied.step ≡ self.now.step) }
    {
        Ok(Checkpoint {
            step: self.step,
            state: self.state.copy(alloc)?,
            seen: self.seen.copy(alloc)?,
        })
    }
}
