//! Operators that work letter by letter.
ghost use Rattle.std.specs.Prelude.{◌≡◌, length};
ghost use Rattle.vbits.specs.Vectors as vectors;

use super::Vec4;
use crate::planes;

impl Vec4 {
    /// `&`: 0 wins, z counts as x (5.1.10).
    pub fn and(self, other: Vec4) -> Vec4
        requires { length self.letters ≡ length other.letters }
        ensures { result ≡ vectors.and self other }
    {
        let value = (self.value | self.unknown) & (other.value | other.unknown);
        Vec4 {
            value,
            unknown: value & (self.unknown | other.unknown),
            len: self.len,
            signed: self.signed & other.signed,
        }
    }

    /// `|`: 1 wins, z counts as x (5.1.10).
    pub fn or(self, other: Vec4) -> Vec4
        requires { length self.letters ≡ length other.letters }
        ensures { result ≡ vectors.or self other }
    {
        let left_ones = (self.value | self.unknown) ^ self.unknown;
        let right_ones = (other.value | other.unknown) ^ other.unknown;
        let ones = left_ones | right_ones;
        Vec4 {
            value: self.value | self.unknown | other.value | other.unknown,
            unknown: ((self.unknown | other.unknown) | ones) ^ ones,
            len: self.len,
            signed: self.signed & other.signed,
        }
    }

    /// `^` (5.1.10).
    pub fn xor(self, other: Vec4) -> Vec4
        requires { length self.letters ≡ length other.letters }
        ensures { result ≡ vectors.xor self other }
    {
        let unknown = self.unknown | other.unknown;
        Vec4 {
            value: (self.value ^ other.value) | unknown,
            unknown,
            len: self.len,
            signed: self.signed & other.signed,
        }
    }

    /// `~^` (5.1.10).
    pub fn xnor(self, other: Vec4) -> Vec4
        requires { length self.letters ≡ length other.letters }
        ensures { result ≡ vectors.xnor self other }
    {
        let unknown = self.unknown | other.unknown;
        Vec4 {
            value: (self.value ^ other.value ^ planes::ones(self.len)) | unknown,
            unknown,
            len: self.len,
            signed: self.signed & other.signed,
        }
    }

    /// What `?:` gives under an unknown condition: equal known letters stay, all others are x,
    /// also where z meets z (5.1.13).
    pub fn join(self, other: Vec4) -> Vec4
        requires { length self.letters ≡ length other.letters }
        ensures { result ≡ vectors.join self other }
    {
        let unknown = (self.value ^ other.value) | self.unknown | other.unknown;
        Vec4 {
            value: self.value | unknown,
            unknown,
            len: self.len,
            signed: self.signed & other.signed,
        }
    }

    /// `~` (5.1.10).
    pub fn not(self) -> Vec4
        ensures { result ≡ vectors.complement self }
    {
        Vec4 {
            value: (self.value ^ planes::ones(self.len)) | self.unknown,
            unknown: self.unknown,
            len: self.len,
            signed: self.signed,
        }
    }
}
