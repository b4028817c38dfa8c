// Formats of printed lines (IEEE 1364-2005, 17.1.1). In go the arguments of a print task, strings as they stand between their quotes
// and expressions; out come the pieces of its line, or that a format has none.
// The law: they are the pieces that specs/Pieces.antt says.
#![tactic(auto)]

mod form;
mod front;
mod letters;
mod printer;

pub use printer::Printer;
