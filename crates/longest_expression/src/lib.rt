// The longest expression at a token. In: the tokens of a text, and the number of one. Out: the tree of the longest expression that begins
// there, and where it ends, or where reading stops (IEEE 1364-2005, A.8.3).
// The law: the words up to that end are those of the tree and of no other, and no more of them are an expression.
#![tactic(auto)]

mod reading;

pub use reading::parse_expr;
