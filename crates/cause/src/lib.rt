// Which statements race. In go a machine and a log whose run differs from that of its parent, the same log without its last member;
// out come the two steps to blame, where they stand in both runs, and what both touch.
// The law: what is told is the cause of specs/Causes.antt, of all swaps of the two runs the first.
#![tactic(auto)]

mod along;
mod behind;
mod block;
mod cause;
mod checkpoint;
mod checkpoints;
mod slot;
mod step;

pub use along::causes_of;
pub use cause::{Blamed, Cause, cause_of};
pub use checkpoints::Checkpoints;
