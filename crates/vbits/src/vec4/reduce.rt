//! Reductions to one letter.
ghost use Rattle.std.specs.Prelude.{◌≡◌, fold};
ghost use Rattle.vbits.specs.Letters as letters;
ghost use Rattle.vbits.specs.Vectors as vectors;

use super::Vec4;
use crate::bit4::Bit4;
use crate::planes;
use crate::reduction::Reduction;

impl Vec4 {
    /// All letters under one operator, as one unsigned letter (5.1.11).
    pub fn reduce(self, operator: Reduction) -> Vec4
        ensures { result ≡ vectors.reduce self operator }
    {
        Vec4::of_bit(match operator {
            Reduction::And => self.all(),
            Reduction::Nand => self.all().not(),
            Reduction::Or => self.truth(),
            Reduction::Nor => self.truth().not(),
            Reduction::Xor => self.parity(),
            Reduction::Xnor => self.parity().not(),
        })
    }

    /// Its truth as a condition: 1 if a letter is 1, else x if one is unknown, else 0 (5.1.9).
    pub fn truth(self) -> Bit4
        ensures { result ≡ vectors.truth self }
    {
        if (self.value | self.unknown) ^ self.unknown != 0 {
            Bit4::One
        } else if self.unknown != 0 {
            Bit4::X
        } else {
            Bit4::Zero
        }
    }

    fn all(self) -> Bit4
        ensures { result ≡ fold letters.and_letter Bit4.One self.letters }
    {
        if (self.value | self.unknown) ^ planes::ones(self.len) != 0 {
            Bit4::Zero
        } else if self.unknown != 0 {
            Bit4::X
        } else {
            Bit4::One
        }
    }

    fn parity(self) -> Bit4
        ensures { result ≡ fold letters.xor_letter Bit4.Zero self.letters }
    {
        if self.unknown != 0 {
            Bit4::X
        } else if self.value.count_ones() % 2 == 0 {
            Bit4::Zero
        } else {
            Bit4::One
        }
    }
}
