// Units of time (IEEE 1364-2005, 19.8), for the text that names them, the delays that are written in them, and the dump that
// prints them.

ghost use Rattle.std.specs.Prelude.{◌≡◌, ◌<◌, ◌≤◌};
ghost use Rattle.basis.specs.Timescales as spec;
ghost use Rattle.basis.specs.Timescales.{count_number, unit_word};

/// How many units a length of time has.
#[derive(Clone, Copy, PartialEq, Eq)]
pub enum Count {
    /// `1`
    One,
    /// `10`
    Ten,
    /// `100`
    Hundred,
}

impl Count {
    /// The count as a number.
    pub fn number(self) -> u8
        ensures value { result ≡ count_number self }
        ensures some { 0 < result }
        ensures few { result ≤ 100 }
    {
        match self {
            Count::One => 1,
            Count::Ten => 10,
            Count::Hundred => 100,
        }
    }
}

/// A unit of time.
#[derive(Clone, Copy, PartialEq, Eq)]
pub enum Unit {
    /// `s`
    Second,
    /// `ms`
    Millisecond,
    /// `us`
    Microsecond,
    /// `ns`
    Nanosecond,
    /// `ps`
    Picosecond,
    /// `fs`
    Femtosecond,
}

impl Unit {
    /// The unit as a timescale spells it.
    pub fn name(self) -> &'static str
        ensures { result.now ≡ unit_word self }
    {
        match self {
            Unit::Second => "s",
            Unit::Millisecond => "ms",
            Unit::Microsecond => "us",
            Unit::Nanosecond => "ns",
            Unit::Picosecond => "ps",
            Unit::Femtosecond => "fs",
        }
    }

    // Its length in femtoseconds.
    fn femtoseconds(self) -> u64
        ensures value { result ≡ spec.unit_femtoseconds self }
        ensures some { 0 < result }
        ensures few { result ≤ 1000000000000000 }
    {
        match self {
            Unit::Second => 1_000_000_000_000_000,
            Unit::Millisecond => 1_000_000_000_000,
            Unit::Microsecond => 1_000_000_000,
            Unit::Nanosecond => 1_000_000,
            Unit::Picosecond => 1_000,
            Unit::Femtosecond => 1,
        }
    }
}

/// A length of time: 1, 10 or 100 of a unit.
#[derive(Clone, Copy, PartialEq, Eq)]
pub struct Span {
    pub count: Count,
    pub unit: Unit,
}

impl Span {
    /// The length in femtoseconds, 1 to 10^17.
    pub fn femtoseconds(self) -> u64
        ensures value { result ≡ spec.femtoseconds self }
        ensures some { 0 < result }
        ensures few { result ≤ 100000000000000000 }
    {
        u64::from(self.count.number()) * self.unit.femtoseconds()
    }
}

/// The unit that times are written in, and the precision, in units of which time is counted.
#[derive(Clone, Copy, PartialEq, Eq)]
pub struct Timescale {
    pub unit: Span,
    pub precision: Span,
}

impl Timescale {
    /// What holds where no timescale stands: 1 ns and 1 ns.
    pub fn usual() -> Timescale
        ensures { result ≡ spec.usual_timescale }
    {
        let nanosecond = Span {
            count: Count::One,
            unit: Unit::Nanosecond,
        };
        Timescale {
            unit: nanosecond,
            precision: nanosecond,
        }
    }

    /// Whether unit and precision have the same lengths in both.
    pub fn is_like(self, other: Timescale) -> bool
        ensures { result ≡ spec.is_like self other }
    {
        let units = self.unit.femtoseconds() == other.unit.femtoseconds();
        let precisions = self.precision.femtoseconds() == other.precision.femtoseconds();
        units && precisions
    }

    /// How many units of the precision make one in which times are written; at most 10^17.
    pub fn factor(self) -> u64
        ensures value { result ≡ spec.factor self }
        ensures few { result ≤ 100000000000000000 }
    {
        self.unit.femtoseconds() / self.precision.femtoseconds()
    }
}
