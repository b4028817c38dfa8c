// The four letters of a value (IEEE 1364-2005, 4.1).

ghost use Rattle.std.specs.Prelude.{◌≡◌};
ghost use Rattle.vbits.specs.Letters as letters;

/// One of the four letters of a value (IEEE 1364-2005, 4.1): 0, 1, unknown, high impedance.
#[derive(Clone, Copy, PartialEq, Eq, Hash)]
pub enum Bit4 {
    Zero,
    One,
    X,
    Z,
}

impl Bit4 {
    /// `~` of one letter (5.1.10).
    pub fn not(self) -> Bit4
        ensures { result ≡ letters.not_letter self }
    {
        match self {
            Bit4::Zero => Bit4::One,
            Bit4::One => Bit4::Zero,
            Bit4::X => Bit4::X,
            Bit4::Z => Bit4::X,
        }
    }

    /// Whether it is x.
    pub fn is_x(self) -> bool
        ensures { result ≡ letters.is_x self }
    {
        match self {
            Bit4::Zero => false,
            Bit4::One => false,
            Bit4::X => true,
            Bit4::Z => false,
        }
    }

    /// Whether it is z.
    pub fn is_z(self) -> bool
        ensures { result ≡ letters.is_z self }
    {
        match self {
            Bit4::Zero => false,
            Bit4::One => false,
            Bit4::X => false,
            Bit4::Z => true,
        }
    }

    /// Whether it is x or z.
    pub fn is_unknown(self) -> bool
        ensures { result ≡ letters.is_unknown self }
    {
        match self {
            Bit4::Zero => false,
            Bit4::One => false,
            Bit4::X => true,
            Bit4::Z => true,
        }
    }
}
