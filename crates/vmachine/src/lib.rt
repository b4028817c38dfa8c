// The runs of a design as a space of states. In go a design, a time limit and a grain; out come states with numbered
// choices for an explorer, and for a log the items of its run, handed in order to who watches.
// The law: what is told of a machine's states is what the rules of its setting say (`machine_law`); nothing above this
// crate rests on how a state is kept.
#![tactic(auto)]

mod law;
mod machine;
mod machine_state;
mod reads;
mod rest;
mod run;

pub use law::machine_law;
pub use machine::Machine;
pub use machine_state::MachineState;
pub use run::{Run, RunFault};
