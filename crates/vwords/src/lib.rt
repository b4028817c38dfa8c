// Words that trees and designs share: names, operators and kinds of `case`. In go bytes and operators; out come whether bytes are a
// name, and types that both the trees of a text and its design are made of. The law: each test is the definition of its name in
// specs/Words.antt.
#![tactic(auto)]

pub mod cases;
pub mod operators;
pub mod words;
