// The tokens of a statement to its tree. In: a cursor over the tokens, and how many levels there are. Out: the tree that the
// definitions of the crate `vgrammar` read of them, with the cursor after it, or where and why they read none.
#![tactic(auto)]

pub mod amounts;
pub mod arguments;
pub mod assignments;
pub mod blocks;
pub mod branches;
pub mod cases;
pub mod conditions;
pub mod events;
pub mod guarded;
pub mod labels;
pub mod loops;
pub mod paths;
pub mod printing;
pub mod settings;
pub mod statements;
pub mod targets;
pub mod tasks;
pub mod terms;
pub mod values;
pub mod words;

pub use statements::statement;
