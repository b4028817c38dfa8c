// Files to text. In: the bytes of the files, in order. Out: one text, in which directives were obeyed and macros replaced,
// its timescale, and for each byte the place that it comes from. The law: what `expand` gives is the `expansion`
// of the files, and where that has a fault it is that fault.
#![tactic(auto)]

mod conditionals;
mod expanded;
mod fault;
mod files;
mod ignored;
pub mod law;
mod macro_text;
mod macros;
mod output;
mod outside;
mod pieces;
mod refusal;
mod timescale;
mod walk;
mod words;

pub use expanded::{Expanded, Place};
pub use fault::SrcFault;
pub use files::expand;
pub use outside::{block_end, string_end};
