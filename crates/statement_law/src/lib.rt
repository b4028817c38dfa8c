// That the actions of a process do what its statements say (IEEE 1364-2005, clause 9).
// Nothing goes in and nothing comes out: the crate has one law.
#![tactic(auto)]

pub mod law;
