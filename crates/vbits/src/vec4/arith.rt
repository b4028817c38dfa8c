//! Binary `-`, `*`, `/` and `%`: all x where a letter is unknown, else wrapped to the length (5.1.5, 4.3.1).
//! The operands are read as signed where both are signed, and so is the result.
ghost use Rattle.std.specs.Prelude.{◌≡◌, length};
ghost use Rattle.vbits.specs.Vectors as vectors;

use super::Vec4;
use crate::planes;

impl Vec4 {
    /// The difference.
    pub fn sub(self, other: Vec4) -> Vec4
        requires { length self.letters ≡ length other.letters }
        ensures { result ≡ vectors.sub self other }
    {
        let signed = self.signed & other.signed;
        if self.unknown | other.unknown != 0 {
            return Vec4::unknowns(self.len, signed);
        }
        Vec4 {
            value: self.value.wrapping_sub(other.value) & planes::ones(self.len),
            unknown: 0,
            len: self.len,
            signed,
        }
    }

    /// The product.
    pub fn mul(self, other: Vec4) -> Vec4
        requires { length self.letters ≡ length other.letters }
        ensures { result ≡ vectors.mul self other }
    {
        let signed = self.signed & other.signed;
        if self.unknown | other.unknown != 0 {
            return Vec4::unknowns(self.len, signed);
        }
        Vec4 {
            value: self.value.wrapping_mul(other.value) & planes::ones(self.len),
            unknown: 0,
            len: self.len,
            signed,
        }
    }

    /// The quotient, towards 0; all x where the divisor is 0. The least number divided by -1 wraps.
    pub fn div(self, other: Vec4) -> Vec4
        requires { length self.letters ≡ length other.letters }
        ensures { result ≡ vectors.div self other }
    {
        let signed = self.signed & other.signed;
        if self.unknown | other.unknown != 0 {
            return Vec4::unknowns(self.len, signed);
        }
        let divisor = planes::magnitude(other.value, self.len, signed);
        if divisor == 0 {
            return Vec4::unknowns(self.len, signed);
        }
        let left_sign = planes::sign_bit(self.value, self.len, signed);
        let right_sign = planes::sign_bit(other.value, self.len, signed);
        let quotient = planes::magnitude(self.value, self.len, signed) / divisor;
        Vec4 {
            value: planes::wrap(left_sign != right_sign, quotient, self.len),
            unknown: 0,
            len: self.len,
            signed,
        }
    }

    /// The remainder, with the sign of the first operand; all x where the divisor is 0.
    pub fn rem(self, other: Vec4) -> Vec4
        requires { length self.letters ≡ length other.letters }
        ensures { result ≡ vectors.rem self other }
    {
        let signed = self.signed & other.signed;
        if self.unknown | other.unknown != 0 {
            return Vec4::unknowns(self.len, signed);
        }
        let divisor = planes::magnitude(other.value, self.len, signed);
        if divisor == 0 {
            return Vec4::unknowns(self.len, signed);
        }
        let left_sign = planes::sign_bit(self.value, self.len, signed);
        let remainder = planes::magnitude(self.value, self.len, signed) % divisor;
        Vec4 {
            value: planes::wrap(left_sign == 1, remainder, self.len),
            unknown: 0,
            len: self.len,
            signed,
        }
    }
}
