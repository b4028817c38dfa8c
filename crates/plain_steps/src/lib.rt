// Runs of a design, step by step, as IEEE 1364-2005 defines them. In go a design, a time limit, a grain, which departures there are
// and what is looked at; out come states, how many choices each has, and for a choice the next state with what it gives to the history.
// The law: `slow_step` is `Step` of `vmodel`, to the letter. What all runs keep is said by `run_law`.
#![tactic(auto)]

mod choices;
mod continuation;
mod digest;
mod future;
mod holding;
mod law;
mod open;
mod printed;
pub mod process;
pub mod queue;
mod regions;
mod shown;
pub mod state;
mod step;
mod waking;

pub use law::run_law;
pub use open::opening;
pub use shown::{put_front, put_items, put_slot_end};
pub use state::State;
pub use step::{slow_step, slow_width};
