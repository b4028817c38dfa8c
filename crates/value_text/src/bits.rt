// Bits of a value, from the right.

ghost use Rattle.std.specs.Prelude.{◌≡◌, ◌<◌, ◌≤◌, drop, length, take};
ghost use Rattle.vbits.specs.Letters as letters;

use vbits::{Bit4, Vec4};

/// Whether the bit is 1.
pub(crate) fn is_one(letter: Bit4) -> bool
    ensures { result ≡ letters.is_one letter }
{
    match letter {
        Bit4::Zero => false,
        Bit4::One => true,
        Bit4::X => false,
        Bit4::Z => false,
    }
}

/// So many bits from this one on, counted from the right, or those that there are.
pub(crate) fn group(value: Vec4, low: u32, size: u32) -> Vec4
    requires within { low < length value.letters }
    requires some { 0 < size }
    requires few { size ≤ 8 }
    ensures { result.letters ≡ take size (drop low value.letters) }
{
    let high = (low + (size - 1)).min(value.len() - 1);
    value.select(high, low)
}
