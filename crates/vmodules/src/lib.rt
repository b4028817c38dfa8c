// The modules of a text, and what it says of each alone: names, ports, parameters, what is connected (IEEE 1364-2005, clause 12).
// In go tokens and trees; out come modules found by name, the top, ports with their whole directions, and connections by name.
// The law: each call answers the definition of its name in `specs/`, and refuses only where that tells a misfit.
#![tactic(auto)]

pub mod blocks;
pub mod connect;
pub mod hierarchy;
pub mod letters;
pub mod misdeclared;
pub mod names;
pub mod parameters;
pub mod ports;
