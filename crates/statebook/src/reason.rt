// Why a search stops short.

use basis::NoMemory;

/// Why a search stopped short: a growth was refused; there were as many entries as the limit before
/// a job was taken; or a run takes more steps than the limit. The first of these in this order is told.
///
/// Nobody has a `NoMemory` who wasn't refused a growth; the calls that answer with a reason say what is
/// proved of the other two.
#[derive(Clone, Copy, PartialEq, Eq)]
pub enum Reason {
    Memory(NoMemory),
    Entries,
    Steps,
}
