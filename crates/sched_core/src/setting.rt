// What a setting says beside the design: how finely processes interleave, which departures there are, and what is looked at
// (docs/SCHEDULING.md).

/// How finely processes interleave (11.4.2), the granularity of what is atomic: in grain process one that
/// can go on does so alone, in grain statement any other may come before it.
#[derive(Clone, Copy)]
pub enum Grain {
    Process,
    Statement,
}

/// Two are equal where they hold the same.
impl PartialEq for Grain {
    ghost use Rattle.std.specs.Cmp.{partial_equiv_from_equiv};
    ghost use Rattle.sched_core.specs.Settings.{grain_same};
    ghost use Rattle.sched_core.specs.Settings.{grains_equivalent};

    ghost eq = { grain_same };

    ghost laws = { partial_equiv_from_equiv grains_equivalent };

    fn eq(&self, other: &Grain) -> bool {
        match (self, other) {
            (Grain::Process, Grain::Process) => true,
            (Grain::Statement, Grain::Statement) => true,
            (Grain::Process, Grain::Statement) => false,
            (Grain::Statement, Grain::Process) => false,
        }
    }
}

impl Eq for Grain {
    ghost use Rattle.sched_core.specs.Settings.{grains_equivalent};

    ghost laws = { grains_equivalent };
}

/// Which departures there are (docs/SCHEDULING.md, "Departures that hold back").
#[derive(Clone, Copy, PartialEq, Eq)]
pub enum Departures {
    /// A departure takes another choice first.
    Taking,
    /// It may also hold back the processes that stand before what it takes.
    Holding,
}

/// What is looked at where slots and runs end.
#[derive(Clone, Copy, PartialEq, Eq)]
pub enum Looked {
    /// The values of the variables.
    Values,
    /// These, and the lines that the slot printed.
    Lines,
}
