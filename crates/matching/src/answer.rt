// What a search for a run that fits answers.

use explore::RankedReason;
use sched_core::Log;

/// A run: its log, how many steps it takes, and the state at which it stands then.
#[derive(Drop)]
pub struct Explanation<S> {
    pub state: S,
    pub log: Log,
    pub steps: u32,
}

/// Up to which time no run fits. `nearest` is the run that differs least of those that were met at that time: of those that end a
/// slot then or, where there is none, of those that stand between two slots.
#[derive(Drop)]
pub struct Unexplained<S> {
    pub time: u64,
    pub nearest: Option<Explanation<S>>,
}

/// Why the search stopped short, and up to which time some run fits; None where that isn't known of any.
#[derive(Clone, Copy)]
pub struct Cut {
    pub reason: RankedReason,
    pub closed: Option<u64>,
}

/// Whether some run shows what the reference shows.
#[derive(Drop)]
pub enum Matching<S> {
    Explained(Explanation<S>),
    Unexplained(Unexplained<S>),
    Cut(Cut),
}
