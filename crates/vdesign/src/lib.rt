// Designs: what a text stands for once it is elaborated (IEEE 1364-2005, clause 12). In goes nothing: `vhierarchy` builds a `Design`,
// and all that runs reads it. Names are resolved to numbers, and what costs no step is gone.
#![tactic(auto)]

pub mod action;
pub mod design;
pub mod dump;
pub mod expression;
pub mod print;
