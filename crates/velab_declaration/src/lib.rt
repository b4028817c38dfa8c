// What a module declares, in one of its instances: its variables and its parameters (IEEE 1364-2005, clause 4, 12.2); and, of a
// finished design, what actions may do with variables of their kinds and sizes, and what drives the bits of nets (6.1).
// In go a module's tree, what its instance is told, and what is declared so far; out come its names and its variables, or the rule that
// is broken.
// The law: each call gives what the definition of its name says, and each fault is a rule that is broken there.
#![tactic(auto)]

pub mod declared;
pub mod drives;
pub mod names;
pub mod parameter;
pub mod right;
pub mod variable;
pub mod width;
