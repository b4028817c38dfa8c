// Trees of a Verilog text: `TextTree` is what the grammar makes of the tokens. In goes nothing: the parser builds it, and `vmodules`
// and the crates of elaboration read it. Out come the words that begin statements, and how tightly operators bind. The law:
// `DerivesText` of specs/Modules.antt says which words a tree stands for.
#![tactic(auto)]

pub mod expression;
pub mod keywords;
pub mod module;
pub mod operators;
pub mod statement;
pub mod token;
