// Values as printed lines show them (IEEE 1364-2005, 17.1.1): binary, octal, hexadecimal, decimal, as a time and as letters, also in a
// width. In go four-state vectors; out come letters, put after a text.
// The law: what is put is the definition of its name in specs/ValueText.antt.
#![tactic(auto)]

mod binary;
mod bits;
mod decimal;
mod digits;
mod letters;
mod places;
mod unknown;

pub use binary::put_binary;
pub use decimal::{put_decimal, put_short_decimal, put_short_time, put_time};
pub use digits::{put_hexadecimal, put_octal, without_zeros};
pub use letters::{put_character, put_letters, put_short_letters};
pub use places::{put_filled, put_right, put_zeros};
