// What an explorer answers: the marks, and whether they are all.

use indexmap::IndexMap;
use sched_core::Log;
use statebook::Reason;
use std::hash::Hash;

/// Whether the list of marks is whole. It is proved that `Exhausted` is said only where it is.
#[derive(Clone, Copy, PartialEq, Eq)]
pub enum Status {
    Exhausted,
    Cut(Reason),
}

/// The marks that were met, each with a log of the fewest departures that was met with it.
///
/// It is proved of each that it is reached under its log and, where the status is `Exhausted`, that
/// no run reaches it with fewer departures and that no mark of a run within the limit of departures
/// is missing. Those of `explore_alone` are, whatever the status, all the marks of one book that the
/// explorer's events lead to; after `Cut(Steps)` some choice of an entry goes past the limit of steps,
/// and every other leads to an entry or goes past it too.
#[derive(Drop)]
pub struct Findings<S: Eq + Hash> {
    pub marks: IndexMap<S, Log>,
    pub status: Status,
}
