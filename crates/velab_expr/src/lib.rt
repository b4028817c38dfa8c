// Names, constants, ranges, expressions, targets and selections of a module's text, lowered to those of a design (IEEE 1364-2005,
// clauses 4 and 5, 12.7).
// In go a part of the text and the scope that it stands in; out comes what it is lowered to, or the rule that is broken.
// The law: each call gives the answer that its definition gives, the lowered part or the first fault with its word.
#![tactic(auto)]

pub mod constant;
pub mod expression;
pub mod fault;
pub mod first;
pub mod number;
pub mod range;
pub mod refusal;
pub mod scope;
pub mod select;
pub mod symbol;
pub mod target;

pub use fault::{ElabFault, Rule};
