// Step code: where each place of a design leads, what its action's operand is worth, and who listens to what (IEEE 1364-2005, clause 9).
// In goes the code of a design, which `vcompile` makes; out come the point that stands behind a place, the value of its operand, and
// those whom a change or an event may wake.
// The law: each call is the definition of its name in specs/Code.antt.
#![tactic(auto)]

pub mod code;
pub mod link;
pub mod listener;
pub mod point;
