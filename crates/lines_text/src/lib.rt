// Histories to printed lines (IEEE 1364-2005, 17.1). In go a design and what its run shows, out come bytes in a byte sink, as the run
// goes, and a fault where they don't.
// The law: the bytes are those of specs/LinesText.antt, and after a fault a prefix of them.
#![tactic(auto)]

mod in_force;
mod sink;

pub use in_force::InForce;
pub use sink::LinesSink;
