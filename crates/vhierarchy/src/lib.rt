// The design of a text, by recursion over instances (IEEE 1364-2005, clause 12).
// In go a text's tree and the name of its top module, or none; out comes the design, or the rule that is broken.
// The law: a design is the one that `Elaborates` gives the tree, and each fault is a rule that the tree breaks.
#![tactic(auto)]

mod context;
mod design;
mod grow;
mod instantiation;
pub mod law;
mod own;
mod part;
mod room;
mod select;

pub use design::elaborate;
