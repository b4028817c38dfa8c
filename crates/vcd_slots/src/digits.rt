// Digits of values, as vectors (18.2.2).

ghost use Rattle.std.specs.Prelude.{◌≡◌, ◌+◌, ◌≤◌, ◌∷◌, length, replicate, false};
ghost use Rattle.vbits.specs.Vectors.{filled, single};
ghost use Rattle.std.specs.List.{list_all};
ghost use Rattle.vcd_slots.specs.Slots.{without_extra_zeros, extension, is_zero, letter_of, vector_of, whole_vector};
ghost use Rattle.vcd_slots.specs.Digits.{extend_letter, put_all};

use vbits::{Bit4, Vec4};

// The letter of a digit.
fn letter_of(digit: u8) -> Bit4
    ensures { result ≡ letter_of digit }
{
    if digit == b'0' {
        Bit4::Zero
    } else if digit == b'1' {
        Bit4::One
    } else if digit == b'x' || digit == b'X' {
        Bit4::X
    } else {
        Bit4::Z
    }
}

// So many letters as stand to the left of this one.
fn left_of(letter: Bit4, count: u32) -> Vec4
    requires some { 1 ≤ count }
    requires few { count ≤ 64 }
    ensures { result ≡ filled count (extension letter) }
{
    match letter {
        Bit4::Zero => Vec4::zeros(count),
        Bit4::One => Vec4::zeros(count),
        Bit4::X => Vec4::all_x(count),
        Bit4::Z => Vec4::all_z(count),
    }
}

// The letter, with so many to its left.
fn letter_before(letter: Bit4, more: u32) -> Vec4
    requires { more ≤ 63 }
    ensures { result ≡ extend_letter letter more }
{
    if more == 0 {
        Vec4::of_bit(letter)
    } else {
        left_of(letter, more).concat(Vec4::of_bit(letter))
    }
}

// With the letters of digits to its right.
fn put_all(start: Vec4, digits: &[u8]) -> Vec4
    requires room { length start.letters + length digits.now ≤ 64 }
    requires unsigned { start.signed ≡ false }
    ensures { result ≡ put_all start digits.now }
{
    let mut vector = start;
    for digit in digits {
        vector = vector.concat(Vec4::of_bit(letter_of(*digit)));
    }
    vector
}

// Whether the digit is 0.
fn is_zero(digit: u8) -> bool
    ensures { result ≡ is_zero digit }
{
    digit == b'0'
}

// Whether all are 0.
fn are_zeros(digits: &[u8]) -> bool
    ensures { result ≡ list_all is_zero digits.now }
{
    digits.iter().all(|digit| is_zero(*digit))
}

// Without so many in front, if these are 0.
fn without_zeros(more: usize, digits: &[u8]) -> &[u8]
    requires { more ≤ length digits.now }
    ensures { result.now ≡ without_extra_zeros more digits.now }
{
    if are_zeros(digits.split_at(more).0) {
        digits.split_at(more).1
    } else {
        digits
    }
}

// The value of a variable of so many bits, if the digits are some and no more.
fn whole_vector(width: u32, digits: &[u8]) -> Option<Vec4>
    requires { width ≤ 64 }
    ensures { result ≡ whole_vector width digits.now }
{
    let (first, rest) = digits.split_first()?;
    if digits.len() > width as usize {
        return None;
    }
    let more = width - digits.len() as u32;
    Some(put_all(letter_before(letter_of(*first), more), rest))
}

/// The value of a variable of so many bits, if the digits are some and no more, but zeros in front.
pub(crate) fn vector_of(width: u32, digits: &[u8]) -> Option<Vec4>
    requires { width ≤ 64 }
    ensures { result ≡ vector_of width digits.now }
{
    if digits.len() <= width as usize {
        return whole_vector(width, digits);
    }
    whole_vector(width, without_zeros(digits.len() - width as usize, digits))
}
