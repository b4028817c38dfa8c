//! Vectors made longer or shorter, taken apart and put together.
ghost use Rattle.std.specs.Prelude.{◌≡◌, ◌+◌, ◌-◌, ◌<◌, ◌≤◌, length};
ghost use Rattle.vbits.specs.Vectors as vectors;

use super::Vec4;
use crate::planes;

impl Vec4 {
    /// Made `len` letters long: extended by its own sign (a signed vector by its leftmost letter,
    /// an unsigned one by 0), or cut on the left (5.5.2, 5.5.4).
    pub fn resize(self, len: u32) -> Vec4
        requires some { 1 ≤ len }
        requires few { len ≤ 64 }
        ensures { result ≡ vectors.resize self len }
    {
        if len <= self.len {
            let kept = planes::ones(len);
            return Vec4 {
                value: self.value & kept,
                unknown: self.unknown & kept,
                len,
                signed: self.signed,
            };
        }
        let value_top = planes::sign_bit(self.value, self.len, self.signed);
        let unknown_top = planes::sign_bit(self.unknown, self.len, self.signed);
        Vec4 {
            value: planes::extend(self.value, self.len, len, value_top),
            unknown: planes::extend(self.unknown, self.len, len, unknown_top),
            len,
            signed: self.signed,
        }
    }

    /// The letters from place `low` to place `high`, unsigned (5.2.1).
    pub fn select(self, high: u32, low: u32) -> Vec4
        requires order { low ≤ high }
        requires within { high < length self.letters }
        ensures { result ≡ vectors.select self high low }
    {
        let len = high + 1 - low;
        let kept = planes::ones(len);
        Vec4 {
            value: (self.value >> low) & kept,
            unknown: (self.unknown >> low) & kept,
            len,
            signed: false,
        }
    }

    /// The same vector with the part's letters from place `low` to place `high`.
    pub fn put(self, high: u32, low: u32, part: Vec4) -> Vec4
        requires order { low ≤ high }
        requires within { high < length self.letters }
        requires fits { length part.letters ≡ high + 1 - low }
        ensures { result ≡ vectors.put self high low part }
    {
        Vec4 {
            value: planes::splice(self.value, high, low, part.value),
            unknown: planes::splice(self.unknown, high, low, part.unknown),
            len: self.len,
            signed: self.signed,
        }
    }

    /// `{self, right}`: its letters to the left of the other's, unsigned (5.1.14).
    pub fn concat(self, right: Vec4) -> Vec4
        requires { length self.letters + length right.letters ≤ 64 }
        ensures { result ≡ vectors.concat self right }
    {
        Vec4 {
            value: (self.value << right.len) | right.value,
            unknown: (self.unknown << right.len) | right.unknown,
            len: self.len + right.len,
            signed: false,
        }
    }
}
