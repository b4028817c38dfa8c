// What the texts of values are compared by.

ghost use Rattle.std.specs.Prelude.{◌≡◌};
ghost use Rattle.racebook.specs.Order.{digit_of, shape_of, text_number};
ghost use Rattle.racebook.specs.Inner.{key_of};

use vbits::{Bit4, Vec4};

/// The shape of a value and the number that its text spells in base four, leftmost digit first.
pub type Key = (u32, u128);

fn digit(letter: Bit4) -> u128
    ensures { result ≡ digit_of letter }
{
    match letter {
        Bit4::Zero => 0,
        Bit4::One => 1,
        Bit4::X => 2,
        Bit4::Z => 3,
    }
}

fn shape(value: Vec4) -> u32
    ensures { result ≡ shape_of value }
{
    let sign = if value.signed() { 1 } else { 0 };
    2 * value.len() + sign
}

fn number(value: Vec4) -> u128
    ensures { result ≡ text_number value.letters }
{
    let mut number = 0;
    let mut left = value.len();
    'digits: while left > 0 {
        left -= 1;
        number = digit(value.bit(left)) + 4 * number;
    }
    number
}

/// The key of a value; no two values have the same.
pub fn key(value: Vec4) -> Key
    ensures { result ≡ key_of value }
{
    (shape(value), number(value))
}
