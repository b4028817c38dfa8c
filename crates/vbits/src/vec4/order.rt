//! `<`, `<=`, `>` and `>=`: x where a letter is unknown (5.1.7).
//! The operands are read as signed where both are signed.
ghost use Rattle.std.specs.Prelude.{◌≡◌, length};
ghost use Rattle.vbits.specs.Vectors as vectors;

use super::Vec4;
use crate::bit4::Bit4;
use crate::planes;

impl Vec4 {
    /// `<`.
    pub fn lt(self, other: Vec4) -> Vec4
        requires { length self.letters ≡ length other.letters }
        ensures { result ≡ vectors.lt self other }
    {
        if self.unknown | other.unknown != 0 {
            return Vec4::of_bit(Bit4::X);
        }
        let signed = self.signed & other.signed;
        Vec4::of_bit(if planes::is_less(self.value, other.value, self.len, signed) {
            Bit4::One
        } else {
            Bit4::Zero
        })
    }

    /// `<=`.
    pub fn le(self, other: Vec4) -> Vec4
        requires { length self.letters ≡ length other.letters }
        ensures { result ≡ vectors.le self other }
    {
        if self.unknown | other.unknown != 0 {
            return Vec4::of_bit(Bit4::X);
        }
        let signed = self.signed & other.signed;
        Vec4::of_bit(if planes::is_less(other.value, self.value, self.len, signed) {
            Bit4::Zero
        } else {
            Bit4::One
        })
    }

    /// `>`.
    pub fn gt(self, other: Vec4) -> Vec4
        requires { length self.letters ≡ length other.letters }
        ensures { result ≡ vectors.gt self other }
    {
        other.lt(self)
    }

    /// `>=`.
    pub fn ge(self, other: Vec4) -> Vec4
        requires { length self.letters ≡ length other.letters }
        ensures { result ≡ vectors.ge self other }
    {
        other.le(self)
    }
}
