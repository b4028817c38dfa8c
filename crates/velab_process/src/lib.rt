// The processes of an instance: its statements, its continuous assignments and its port connections, lowered to the actions of a design
// (IEEE 1364-2005, clauses 6 and 9, 12.3.9.2, 17.1, 18.1).
// In go the items of a module, the scope that they stand in, and the table of actions so far; out comes the table with theirs, or the
// rule that is broken.
// The law: each call puts in what its definition lowers the text to, and each fault is a rule that is broken there.
#![tactic(auto)]

mod elaborator;
pub mod join;
mod print;
pub mod statement;
mod wait;
