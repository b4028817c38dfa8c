//! `<<`, `>>` and `>>>`.
ghost use Rattle.std.specs.Prelude.{◌≡◌, ◌<◌};
ghost use Rattle.vbits.specs.Planes as planes;
ghost use Rattle.vbits.specs.Numbers as numbers;
ghost use Rattle.vbits.specs.Vectors as vectors;

use super::Vec4;
use crate::planes;

impl Vec4 {
    /// `<<` and `<<<`: zeros come in from the right; all x where the amount is unknown (5.1.12).
    pub fn shl(self, amount: Vec4) -> Vec4
        ensures { result ≡ vectors.shl self amount }
    {
        let Some(places) = amount.to_u64() else {
            return Vec4::unknowns(self.len, self.signed);
        };
        if places >= self.len as u64 {
            return Vec4 {
                value: 0,
                unknown: 0,
                len: self.len,
                signed: self.signed,
            };
        }
        let kept = planes::ones(self.len);
        Vec4 {
            value: (self.value << places) & kept,
            unknown: (self.unknown << places) & kept,
            len: self.len,
            signed: self.signed,
        }
    }

    /// `>>`: zeros come in from the left; all x where the amount is unknown (5.1.12).
    pub fn shr(self, amount: Vec4) -> Vec4
        ensures { result ≡ vectors.shr self amount }
    {
        self.shifted_right(amount, 0, 0)
    }

    /// `>>>`: copies of the leftmost letter come in from the left where the vector is signed, else
    /// zeros; all x where the amount is unknown (5.1.12).
    pub fn ashr(self, amount: Vec4) -> Vec4
        ensures { result ≡ vectors.ashr self amount }
    {
        let value_top = planes::sign_bit(self.value, self.len, self.signed);
        let unknown_top = planes::sign_bit(self.unknown, self.len, self.signed);
        self.shifted_right(amount, value_top, unknown_top)
    }

    fn shifted_right(self, amount: Vec4, value_top: u64, unknown_top: u64) -> Vec4
        requires value_bit { value_top < 2 }
        requires unknown_bit { unknown_top < 2 }
        ensures { let top = planes.letter value_top unknown_top in
            result ≡ record self {
              letters = vectors.shifted_right top self.letters (numbers.number amount.letters);
            } }
    {
        let Some(places) = amount.to_u64() else {
            return Vec4::unknowns(self.len, self.signed);
        };
        if places >= self.len as u64 {
            return Vec4 {
                value: planes::fill(self.len, value_top),
                unknown: planes::fill(self.len, unknown_top),
                len: self.len,
                signed: self.signed,
            };
        }
        let left = self.len - places as u32;
        Vec4 {
            value: planes::extend(self.value >> places, left, self.len, value_top),
            unknown: planes::extend(self.unknown >> places, left, self.len, unknown_top),
            len: self.len,
            signed: self.signed,
        }
    }
}
