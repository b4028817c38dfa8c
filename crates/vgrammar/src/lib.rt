// The grammar read by descent: what stands at the front of the words of a text, as definitions over lists of words, with the
// laws that make them worth something. In: words. Out: the one tree of them, or the word at which they stop to have one.
#![tactic(auto)]

pub mod source_law;
pub mod start;
pub mod statement_law;
