// What steps touch. In go a design's actions, states and choices; out come the footprint of each step (what it reads and changes), the
// visits of the steps of a slot, and of two runs the first two visits that touch and come in another order.
// The law: a footprint is that of specs/Footprints.antt, a swap the first one of specs/Swaps.antt.
#![tactic(auto)]

pub mod footprint;
pub mod index;
pub mod latest;
pub mod swap;
pub mod thing;
pub mod visit;
pub mod wait;

pub use thing::{Awaited, Thing, Things};
pub use visit::Actor;
