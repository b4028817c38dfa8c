// The stratified event queue (IEEE 1364-2005, 11.3). In go processes, updates and monitor events, each for a region of the current
// time or for a future time; out come the choices of the current time, what is taken, the monitor events of a slot that has ended,
// and the next time.
// The law: a queue is the record `Queue` of `vmodel`, and each call is what Choices and Step say of it, however the future is kept.
#![tactic(auto)]

pub mod digest;
pub mod future_time;
pub mod future_times;
mod law;
mod moves;
mod offers;
mod placed;
mod reads;
pub mod regions;
pub mod ring_times;
pub mod settled;
pub mod sorted_times;
mod steps;
pub mod strata;
pub mod taken;

pub use law::strata_law;
pub use strata::Strata;

/// A queue whose future times stand in order, each found by a walk from the first.
pub type PlainStrata = regions::Regions<sorted_times::SortedTimes>;

/// A queue whose near future times are marked, so that each is found at once, as in a ring of 64 slots.
pub type RingStrata = regions::Regions<ring_times::RingTimes>;
