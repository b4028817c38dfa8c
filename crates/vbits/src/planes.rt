//! Words as planes: their lowest bits are the bits of the letters.
ghost use Rattle.std.specs.Prelude.{◌≡◌, ◌+◌, ◌-◌, ◌*◌, ◌^◌, ◌<◌, ◌≤◌, unsigned_abs, int_lt};
ghost use Rattle.vbits.specs.Numbers as numbers;
ghost use Rattle.vbits.specs.Planes as planes;

use super::bit4::Bit4;

/// The word whose lowest `len` bits are 1.
pub fn ones(len: u32) -> u64
    requires some { 1 ≤ len }
    requires few { len ≤ 64 }
    ensures { result ≡ 2 ^ len - 1 }
{
    u64::MAX >> (64 - len)
}

/// The word whose lowest `len` bits are this bit.
pub fn fill(len: u32, bit: u64) -> u64
    requires some { 1 ≤ len }
    requires few { len ≤ 64 }
    ensures { result ≡ planes.run bit len }
{
    if bit == 0 { 0 } else { ones(len) }
}

/// What stands above a plane of `len` bits as it is made longer.
pub fn sign_bit(plane: u64, len: u32, signed: bool) -> u64
    requires some { 1 ≤ len }
    requires few { len ≤ 64 }
    ensures { result ≡ planes.sign_bit plane len signed }
{
    if signed { (plane >> (len - 1)) & 1 } else { 0 }
}

/// A plane of `len` bits with copies of a bit above it, up to `wide` bits.
pub fn extend(plane: u64, len: u32, wide: u32, top: u64) -> u64
    requires some { 1 ≤ len }
    requires longer { len ≤ wide }
    requires few { wide ≤ 64 }
    requires within { plane < 2 ^ len }
    ensures { result ≡ planes.run top (wide - len) * 2 ^ len + plane }
{
    if top == 0 {
        plane
    } else {
        plane + (ones(wide) - ones(len))
    }
}

/// The plane with the part's bits in the places from `low` to `high`.
pub fn splice(plane: u64, high: u32, low: u32, part: u64) -> u64
    requires order { low ≤ high }
    requires few { high < 64 }
    requires within { part < 2 ^ (high + 1 - low) }
    ensures { result ≡ planes.splice plane high low part }
{
    let old = (plane >> low) & ones(high + 1 - low);
    plane - (old << low) + (part << low)
}

/// How far a number of `len` bits is from 0, read as signed or not.
pub fn magnitude(plane: u64, len: u32, signed: bool) -> u64
    requires some { 1 ≤ len }
    requires few { len ≤ 64 }
    requires within { plane < 2 ^ len }
    ensures { result ≡ unsigned_abs (numbers.read signed len plane) }
{
    if sign_bit(plane, len, signed) == 0 {
        plane
    } else {
        ones(len) - plane + 1
    }
}

/// The lowest `len` bits of a magnitude or of its negative.
pub fn wrap(negative: bool, magnitude: u64, len: u32) -> u64
    requires some { 1 ≤ len }
    requires few { len ≤ 64 }
    ensures digits { planes.letters_of len result 0 ≡ numbers.wrap len
        (planes.signed_number negative magnitude) }
    ensures within { result < 2 ^ len }
{
    if negative {
        0u64.wrapping_sub(magnitude) & ones(len)
    } else {
        magnitude & ones(len)
    }
}

/// Whether the first number of `len` bits is the lesser, both read as signed or not.
pub fn is_less(left: u64, right: u64, len: u32, signed: bool) -> bool
    requires some { 1 ≤ len }
    requires few { len ≤ 64 }
    requires left_within { left < 2 ^ len }
    requires right_within { right < 2 ^ len }
    ensures { result ≡ int_lt (numbers.read signed len left) (numbers.read signed len right) }
{
    let left_sign = sign_bit(left, len, signed);
    let right_sign = sign_bit(right, len, signed);
    if left_sign == right_sign {
        left < right
    } else {
        right_sign < left_sign
    }
}

/// The letter of a bit of each plane.
pub fn letter(value: u64, unknown: u64) -> Bit4
    ensures { result ≡ planes.letter value unknown }
{
    match (value, unknown) {
        (0, 0) => Bit4::Zero,
        (_, 0) => Bit4::One,
        (0, _) => Bit4::Z,
        (_, _) => Bit4::X,
    }
}
