// Values as people write them: those of an `integer` and of a `time` in decimal, wide ones in hexadecimal, others in binary (2.5.1).

use crate::pieces::{Piece, put_all};
use basis::NoMemory;
use value_text::{put_binary, put_hexadecimal, put_short_decimal};
use vbits::Vec4;
use vdesign::design::{Kind, Variable};

// Whether no bit of it is x or z.
fn is_known(value: Vec4) -> bool {
    value.planes().1 == 0
}

// `8'h`, `4'b`.
fn put_base(text: &mut Vec<u8>, value: Vec4, base: &[u8]) -> Result<(), NoMemory> {
    let length = Piece::Number(u64::from(value.len()));
    put_all(text, &[length, Piece::Bytes(base)])
}

/// The value of the variable.
pub fn put_value(text: &mut Vec<u8>, variable: &Variable, value: Vec4) -> Result<(), NoMemory> {
    if value.len() == 1 {
        return put_binary(text, value);
    }
    if !is_known(value) || value.len() <= 4 {
        put_base(text, value, b"'b")?;
        return put_binary(text, value);
    }
    if variable.kind == Kind::Integer || variable.kind == Kind::Time {
        return put_short_decimal(text, value);
    }
    put_base(text, value, b"'h")?;
    put_hexadecimal(text, value)
}
