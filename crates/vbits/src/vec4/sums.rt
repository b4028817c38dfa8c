//! `+` and unary `-`: all x where a letter is unknown, else wrapped to the length (5.1.5, 4.3.1).
//! The operands are read as signed where both are signed, and so is the result.
ghost use Rattle.std.specs.Prelude.{◌≡◌, length};
ghost use Rattle.vbits.specs.Vectors as vectors;

use super::Vec4;
use crate::planes;

impl Vec4 {
    /// The sum.
    pub fn add(self, other: Vec4) -> Vec4
        requires { length self.letters ≡ length other.letters }
        ensures { result ≡ vectors.add self other }
    {
        let signed = self.signed & other.signed;
        if self.unknown | other.unknown != 0 {
            return Vec4::unknowns(self.len, signed);
        }
        Vec4 {
            value: self.value.wrapping_add(other.value) & planes::ones(self.len),
            unknown: 0,
            len: self.len,
            signed,
        }
    }

    /// The negative of the vector.
    pub fn neg(self) -> Vec4
        ensures { result ≡ vectors.neg self }
    {
        if self.unknown != 0 {
            return Vec4::unknowns(self.len, self.signed);
        }
        Vec4 {
            value: 0u64.wrapping_sub(self.value) & planes::ones(self.len),
            unknown: 0,
            len: self.len,
            signed: self.signed,
        }
    }
}
