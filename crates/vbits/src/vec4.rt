// Vectors of 1 to 64 letters, kept as two planes of bits (IEEE 1364-2005, 4.1, 4.3).

ghost use Rattle.std.specs.Prelude.{◌≡◌, ◌++◌, ◌<◌, ◌≤◌, length, slice_get};
ghost use Rattle.vbits.specs.Numbers as numbers;
ghost use Rattle.vbits.specs.Planes as planes_back;
ghost use Rattle.vbits.specs.Vectors as vectors;

use super::bit4::Bit4;
use super::planes;
use std::hash::{Hash, Hasher};
use std::marker::Model;

mod arith;
mod bitwise;
mod equality;
mod order;
mod parts;
mod reduce;
mod shift;
mod sums;

/// A value: 1 to 64 letters, numbered from the right by 0, and a sign mark (4.1, 4.3).
/// Kept as two words: the letter at place i is bit i of each (`specs/Planes.antt`).
#[derive(Clone, Copy)]
pub struct Vec4 {
    value: u64,
    unknown: u64,
    len: u32,
    signed: bool,
}

impl Model for Vec4 {
    ghost use Rattle.std.specs.Prelude.{length};
    ghost use Rattle.vbits.specs.Vectors.{Vector};
    ghost use Rattle.vbits.specs.Planes.{letters_of, values_of, unknowns_of, Planes};
    ghost use Rattle.vbits.specs.PlanesBack.{length-letters_of, values_of-letters_of, unknowns_of-letters_of};

    ghost Value = { Vector };

    ghost view = { λ v. record { letters = letters_of v.len v.value v.unknown; signed = v.signed } };

    ghost invariant = { λ v. Planes v.len v.value v.unknown };

    ghost inverse = { λ v. record {
      value = values_of v.letters;
      unknown = unknowns_of v.letters;
      len = length v.letters;
      signed = v.signed;
    } };

    ghost inverse_ok = { λ a h. λ i. record {
      value = values_of-letters_of a.len a.value a.unknown h.value_within i;
      unknown = unknowns_of-letters_of a.len a.value a.unknown h.unknown_within i;
      len = length-letters_of a.len a.value a.unknown i;
      signed = a.signed;
    } };
}

/// Two are equal where they have the same letters and the same sign mark.
impl PartialEq for Vec4 {
    ghost use Rattle.std.specs.Cmp.{partial_equiv_from_equiv};
    ghost use Rattle.vbits.specs.Equal.{vectors_equivalent};

    ghost eq = { vectors.vector_same };

    ghost laws = { partial_equiv_from_equiv vectors_equivalent };

    fn eq(&self, other: &Vec4) -> bool {
        let planes = (self.value, self.unknown, self.len, self.signed);
        planes == (other.value, other.unknown, other.len, other.signed)
    }
}

impl Eq for Vec4 {
    ghost use Rattle.vbits.specs.Equal.{vectors_equivalent};

    ghost laws = { vectors_equivalent };
}

/// A hash is fed the two words of letters.
impl Hash for Vec4 {
    ghost use Rattle.std.specs.Hash as fed;
    ghost use Rattle.vbits.specs.Planes.{values_of, unknowns_of};
    ghost use Rattle.vbits.specs.Equal.{fed_alike};

    ghost hash_input = { λ v. fed.u64 (values_of v.letters) ++ fed.u64 (unknowns_of v.letters) };

    ghost respects_eq = { fed_alike };

    fn hash<H: Hasher>(&self, state: &mut H) {
        state.write_u64(self.value);
        state.write_u64(self.unknown);
    }
}

impl Vec4 {
    /// A vector of `len` letters 0, unsigned.
    pub fn zeros(len: u32) -> Vec4
        requires some { 1 ≤ len }
        requires few { len ≤ 64 }
        ensures { result ≡ vectors.filled len Bit4.Zero }
    {
        Vec4 {
            value: 0,
            unknown: 0,
            len,
            signed: false,
        }
    }

    /// A vector of `len` letters x, unsigned.
    pub fn all_x(len: u32) -> Vec4
        requires some { 1 ≤ len }
        requires few { len ≤ 64 }
        ensures { result ≡ vectors.filled len Bit4.X }
    {
        Vec4::unknowns(len, false)
    }

    /// A vector of `len` letters z, unsigned.
    pub fn all_z(len: u32) -> Vec4
        requires some { 1 ≤ len }
        requires few { len ≤ 64 }
        ensures { result ≡ vectors.filled len Bit4.Z }
    {
        Vec4 {
            value: 0,
            unknown: planes::ones(len),
            len,
            signed: false,
        }
    }

    /// The lowest `len` binary digits of `n`, unsigned.
    pub fn from_u64(len: u32, n: u64) -> Vec4
        requires some { 1 ≤ len }
        requires few { len ≤ 64 }
        ensures { result ≡ vectors.of_number len n }
    {
        Vec4 {
            value: n & planes::ones(len),
            unknown: 0,
            len,
            signed: false,
        }
    }

    /// One letter, unsigned.
    pub fn of_bit(letter: Bit4) -> Vec4
        ensures { result ≡ vectors.single letter }
    {
        let (value, unknown) = match letter {
            Bit4::Zero => (0, 0),
            Bit4::One => (1, 0),
            Bit4::X => (1, 1),
            Bit4::Z => (0, 1),
        };
        Vec4 {
            value,
            unknown,
            len: 1,
            signed: false,
        }
    }

    /// `len` letters x with this sign mark.
    fn unknowns(len: u32, signed: bool) -> Vec4
        requires some { 1 ≤ len }
        requires few { len ≤ 64 }
        ensures { result ≡ vectors.with_sign (vectors.filled len Bit4.X) signed }
    {
        let ones = planes::ones(len);
        Vec4 {
            value: ones,
            unknown: ones,
            len,
            signed,
        }
    }

    /// The two words of letters, for a digest: bit i of the first is 1 where letter i is 1 or x, of the second where it is
    /// x or z.
    pub fn planes(self) -> (u64, u64)
        ensures value { result.0 ≡ planes_back.values_of self.letters }
        ensures unknown { result.1 ≡ planes_back.unknowns_of self.letters }
    {
        (self.value, self.unknown)
    }

    /// How many letters it has.
    pub fn len(self) -> u32
        ensures letters { result ≡ length self.letters }
        ensures some { 1 ≤ result }
        ensures few { result ≤ 64 }
    {
        self.len
    }

    /// Its sign mark.
    pub fn signed(self) -> bool
        ensures { result ≡ self.signed }
    {
        self.signed
    }

    /// The letter at place `i`, 0 being the rightmost.
    pub fn bit(self, i: u32) -> Bit4
        requires { i < length self.letters }
        ensures { slice_get self.letters i ≡ Some result }
    {
        planes::letter((self.value >> i) & 1, (self.unknown >> i) & 1)
    }

    /// The number written with its letters, unsigned, or `None` where one is unknown.
    pub fn to_u64(self) -> Option<u64>
        ensures { result ≡ numbers.number self.letters }
    {
        if self.unknown == 0 {
            Some(self.value)
        } else {
            None
        }
    }

    /// The same letters with this sign mark (`$signed` and `$unsigned`, 5.5).
    pub fn with_sign(self, signed: bool) -> Vec4
        ensures { result ≡ vectors.with_sign self signed }
    {
        Vec4 {
            value: self.value,
            unknown: self.unknown,
            len: self.len,
            signed,
        }
    }
}
