// How a run ends (docs/SCHEDULING.md).

ghost use Rattle.std.specs.Prelude.{◌≡◌};
ghost use Rattle.sched_core.specs.Ends.{cause_rank};

/// Why a run ended.
#[derive(Clone, Copy)]
pub enum Cause {
    /// `$finish` was taken (17.4.1).
    Finish,
    /// `$stop` was taken (17.4.2).
    Stop,
    /// No event was left.
    Quiet,
    /// All that was left lies past the time limit.
    Limit,
}

impl Cause {
    // Its number; no two have the same.
    fn rank(&self) -> u8
        ensures { result ≡ cause_rank self.now }
    {
        match self {
            Cause::Finish => 0,
            Cause::Stop => 1,
            Cause::Quiet => 2,
            Cause::Limit => 3,
        }
    }
}

/// Two are equal where they hold the same.
impl PartialEq for Cause {
    ghost use Rattle.std.specs.Cmp.{partial_equiv_from_equiv};
    ghost use Rattle.sched_core.specs.Ends.{cause_same};
    ghost use Rattle.sched_core.specs.Ends.{causes_equivalent};

    ghost eq = { cause_same };

    ghost laws = { partial_equiv_from_equiv causes_equivalent };

    fn eq(&self, other: &Cause) -> bool {
        self.rank() == other.rank()
    }
}

impl Eq for Cause {
    ghost use Rattle.sched_core.specs.Ends.{causes_equivalent};

    ghost laws = { causes_equivalent };
}

/// Where a run ended: the time, in units of the precision, and why.
#[derive(Clone, Copy)]
pub struct End {
    pub time: u64,
    pub cause: Cause,
}
