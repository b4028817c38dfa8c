// Want of memory (E901; docs/FAULTS.md), and a fault beside it.

ghost use Rattle.std.specs.Prelude.{◌≡◌};
ghost use Rattle.basis.specs.Reasons.{no_memory};
ghost use Rattle.basis.specs.declared.memory.OrMemory.TheVariants.{Memory};

use std::alloc::{AllocError, AllocFailed};
use std::fmt::Display;
use thiserror::Error;

/// Want of memory: a growth was refused (E901). Its one field is private and its only makers take what a refused growth
/// gave, so that no other crate can answer it without cause.
#[derive(Clone, Copy, Debug, PartialEq, Eq, Error)]
#[error("memory was refused")]
pub struct NoMemory {
    _refused: (),
}

/// A fault of one's own, or want of memory.
#[derive(Clone, Copy, Debug, PartialEq, Eq, Error)]
#[error_bound(F: Display)]
pub enum OrMemory<F> {
    /// The fault.
    #[error(transparent)]
    Fault(F),
    /// A growth was refused (E901).
    #[error(transparent)]
    Memory(NoMemory),
}

impl From<AllocError> for NoMemory {
    ghost from_gives = { λ _ e. e ≡ no_memory };

    fn from(_refused: AllocError) -> NoMemory {
        NoMemory { _refused: () }
    }
}

impl<T: Drop> From<AllocFailed<T>> for NoMemory {
    ghost from_gives = { λ _ e. e ≡ no_memory };

    fn from(_refused: AllocFailed<T>) -> NoMemory {
        NoMemory { _refused: () }
    }
}

impl<F> From<NoMemory> for OrMemory<F> {
    ghost from_gives = { λ m e. e ≡ Memory m };

    fn from(refused: NoMemory) -> OrMemory<F> {
        OrMemory::Memory(refused)
    }
}

impl<F> From<AllocError> for OrMemory<F> {
    ghost from_gives = { λ _ e. e ≡ Memory no_memory };

    fn from(_refused: AllocError) -> OrMemory<F> {
        OrMemory::Memory(NoMemory { _refused: () })
    }
}

impl<F, T: Drop> From<AllocFailed<T>> for OrMemory<F> {
    ghost from_gives = { λ _ e. e ≡ Memory no_memory };

    fn from(_refused: AllocFailed<T>) -> OrMemory<F> {
        OrMemory::Memory(NoMemory { _refused: () })
    }
}
