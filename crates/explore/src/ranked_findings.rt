// What a search that goes by rank answers.

use basis::NoMemory;

/// Why a search that goes by rank stopped short: a growth was refused; there were as many entries as the
/// limit before an entry was taken; a run takes more steps than the limit; or the watcher said so.
#[derive(Clone, Copy, PartialEq, Eq)]
pub enum RankedReason {
    Memory(NoMemory),
    Entries,
    Steps,
    Stopped,
}

/// Whether all marks were handed on. It is proved that `Exhausted` is said only where they were.
#[derive(Clone, Copy, PartialEq, Eq)]
pub enum RankedStatus {
    Exhausted,
    Cut(RankedReason),
}

/// Whether all marks were handed on, and up to which rank that is so in any case; None where no rank was closed.
#[derive(Clone, Copy)]
pub struct RankedFindings {
    pub status: RankedStatus,
    pub closed: Option<u64>,
}
