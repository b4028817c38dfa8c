// Printed lines (IEEE 1364-2005, 17.1): in go the pieces of a line and what is known at a moment, out come bytes, put after a text,
// and what a monitor watches. The law: each is the definition of its name in specs/LineText.antt.
#![tactic(auto)]

mod line;

pub use line::{put_pieces, put_watched};
