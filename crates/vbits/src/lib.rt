//! Four-state vectors of 1 to 64 letters 0, 1, x, z with a sign mark, as Verilog's expressions compute with them.
//! In go lengths, letters and numbers; out come vectors, letters and numbers.
//! The law: each call gives what the definition of its name says of the lists of letters (`specs/Vectors.antt`).
//! No call takes memory.
#![tactic(auto)]

mod bit4;
mod planes;
mod reduction;
mod vec4;

pub use bit4::Bit4;
pub use reduction::Reduction;
pub use vec4::Vec4;
