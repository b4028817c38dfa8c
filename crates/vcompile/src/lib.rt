// Designs to step code (IEEE 1364-2005, clause 9). In goes a design; out comes its code: where each place leads, what its action's operand
// is worth, and who listens to what. The law: the code is `code_of` the design (specs/CodeOf.antt), and where it is whole the links of a
// process go the way of its continuation, and whoever may wait stands in the lists; the value of an operand's code is the operand's
// (`code_law`).
#![tactic(auto)]

mod counters;
mod design_code;
mod law;
mod links;
mod listening;
mod operands;
mod whole;

pub use design_code::compile;
pub use law::code_law;
