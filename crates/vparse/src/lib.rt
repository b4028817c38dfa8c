// Tokens to trees. In: the tokens of a text. Out: the tree that derives their words (IEEE 1364-2005, annex A), or where it is
// refused. The law: the tree is the only one, and a refusal stands at the first word that can't follow those before it.
#![tactic(auto)]

mod connections;
mod declarations;
mod fault;
mod heads;
pub mod law;
mod lists;
mod module_items;
mod module_lists;
mod module_trees;
mod ports;
pub mod profile;
mod texts;
mod types;

pub use fault::SyntaxFault;
pub use texts::{parse, stands_outside};
pub use types::LEVELS;
