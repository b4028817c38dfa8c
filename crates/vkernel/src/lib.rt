// All of a state of a run but its processes (IEEE 1364-2005, 11.1, 11.3). In goes what steps of processes do: what they write, post and
// print, and what becomes of each process. Out come the choices, the values, the time, and why the run ended.
// The law: in clauses a kernel is the record `State` of `vmodel`, without processes, and each call is what the definitions of `vmodel` say
// of it. Its queue is the ring of `vstrata`.
#![tactic(auto)]

mod choices;
mod digest;
mod holding;
pub mod kernel;
mod moves;
mod opening;
mod printed;
mod shown;
mod steps;
pub mod sums;
mod values;

pub use kernel::Kernel;
pub use shown::{put_front, put_items};
