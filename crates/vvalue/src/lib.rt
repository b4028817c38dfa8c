// What expressions of a design are worth (IEEE 1364-2005, clause 5). In go an expression and what is known at a moment; out come
// its size, its sign and its value. The law: each is what the definition of its name in specs/Value.antt says.
#![tactic(auto)]

pub mod asked;
pub mod cases;
pub mod environment;
pub mod flaw;
pub mod operand_rule;
mod operators;
pub mod select;
mod size;
mod size_and_sign;
pub mod target;
mod value;
