//! `==`, `!=`, `===` and `!==`.
ghost use Rattle.std.specs.Prelude.{◌≡◌, length};
ghost use Rattle.vbits.specs.Vectors as vectors;

use super::Vec4;
use crate::bit4::Bit4;

impl Vec4 {
    /// `==`: 0 if two known letters differ, else x if a letter is unknown, else 1 (5.1.8).
    pub fn eq(self, other: Vec4) -> Vec4
        requires { length self.letters ≡ length other.letters }
        ensures { result ≡ vectors.eq self other }
    {
        Vec4::of_bit(self.equality(other))
    }

    /// `!=`: 1 if two known letters differ, else x if a letter is unknown, else 0 (5.1.8).
    pub fn ne(self, other: Vec4) -> Vec4
        requires { length self.letters ≡ length other.letters }
        ensures { result ≡ vectors.ne self other }
    {
        Vec4::of_bit(match self.equality(other) {
            Bit4::Zero => Bit4::One,
            Bit4::One => Bit4::Zero,
            Bit4::X => Bit4::X,
            Bit4::Z => Bit4::X,
        })
    }

    /// `===`: 1 if every letter is the same, x and z too, else 0 (5.1.8).
    pub fn case_eq(self, other: Vec4) -> Vec4
        requires { length self.letters ≡ length other.letters }
        ensures { result ≡ vectors.case_eq self other }
    {
        Vec4::of_bit(if self.is_same(other) {
            Bit4::One
        } else {
            Bit4::Zero
        })
    }

    /// `!==`: 0 if every letter is the same, x and z too, else 1 (5.1.8).
    pub fn case_ne(self, other: Vec4) -> Vec4
        requires { length self.letters ≡ length other.letters }
        ensures { result ≡ vectors.case_ne self other }
    {
        Vec4::of_bit(if self.is_same(other) {
            Bit4::Zero
        } else {
            Bit4::One
        })
    }

    fn equality(self, other: Vec4) -> Bit4
        requires { length self.letters ≡ length other.letters }
        ensures { result ≡ vectors.eq_letter self.letters other.letters }
    {
        let unknown = self.unknown | other.unknown;
        if ((self.value ^ other.value) | unknown) ^ unknown != 0 {
            Bit4::Zero
        } else if unknown != 0 {
            Bit4::X
        } else {
            Bit4::One
        }
    }

    fn is_same(self, other: Vec4) -> bool
        requires { length self.letters ≡ length other.letters }
        ensures { vectors.same_letters self.letters other.letters ≡ result }
    {
        (self.value ^ other.value) | (self.unknown ^ other.unknown) == 0
    }
}
