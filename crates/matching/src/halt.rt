// Why a search isn't gone on with.

ghost use Rattle.std.specs.Prelude.{◌≡◌, OnOk};
ghost use Rattle.basis.specs.Reasons.{IfFault};
ghost use Rattle.basis.specs.declared.memory.OrMemory.TheVariants.{Fault};
ghost use Rattle.explore.specs.declared.ranked_findings.RankedReason.{RankedReason};
ghost use Rattle.explore.specs.declared.ranked_findings.RankedStatus.{RankedStatus};

use basis::{NoMemory, OrMemory};
use explore::{RankedReason, RankedStatus};

/// Why a search stops short, want of memory aside: there are as many entries, or ends of slots, as the limit, a run takes more
/// steps than the limit or than a log can name, or the watcher said so.
#[derive(Clone, Copy)]
pub enum Halt {
    Entries,
    Steps,
    Stopped,
}

/// Nothing, where the search of a slot found all, else why it didn't.
pub fn whole(status: RankedStatus) -> Result<(), OrMemory<Halt>>
    ensures whole { OnOk result (status ≡ RankedStatus.Exhausted) }
    ensures entries { IfFault result (λ halt. halt ≡ Halt.Entries → status ≡ RankedStatus.Cut RankedReason.Entries) }
    ensures steps { IfFault result (λ halt. halt ≡ Halt.Steps → status ≡ RankedStatus.Cut RankedReason.Steps) }
    ensures stopped { IfFault result (λ halt. halt ≡ Halt.Stopped → status ≡ RankedStatus.Cut RankedReason.Stopped) }
{
    match status {
        RankedStatus::Exhausted => Ok(()),
        RankedStatus::Cut(RankedReason::Memory(refused)) => Err(OrMemory::Memory(refused)),
        RankedStatus::Cut(RankedReason::Entries) => Err(OrMemory::Fault(Halt::Entries)),
        RankedStatus::Cut(RankedReason::Steps) => Err(OrMemory::Fault(Halt::Steps)),
        RankedStatus::Cut(RankedReason::Stopped) => Err(OrMemory::Fault(Halt::Stopped)),
    }
}

/// The reason that is told.
pub fn reason_of(halt: OrMemory<Halt>) -> RankedReason
    ensures entries { result ≡ RankedReason.Entries → halt ≡ Fault Halt.Entries }
    ensures steps { result ≡ RankedReason.Steps → halt ≡ Fault Halt.Steps }
    ensures stopped { result ≡ RankedReason.Stopped → halt ≡ Fault Halt.Stopped }
{
    match halt {
        OrMemory::Fault(Halt::Entries) => RankedReason::Entries,
        OrMemory::Fault(Halt::Steps) => RankedReason::Steps,
        OrMemory::Fault(Halt::Stopped) => RankedReason::Stopped,
        OrMemory::Memory(refused) => RankedReason::Memory(refused),
    }
}
