// Words to expressions. In: the words of a text. Out: the tree of the expression at their front, or the word at
// which none goes on. The law: reading gives the one tree that has the words, and a refused word is the first that
// no expression has there.
#![tactic(auto)]

pub mod beginning;
mod braces;
mod cursor;
pub mod found;
pub mod law;
mod levels;
mod operators;
mod primary;
mod stop;
mod words;

pub use cursor::{Cursor, Word};
pub use levels::expression;
pub use stop::Stop;
