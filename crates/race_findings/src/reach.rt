// How far a search came.

ghost use Rattle.std.specs.Prelude.{◌≡◌};
ghost use Rattle.race_findings.specs.Status.{left_unseen};

/// By what a search was cut: a growth of memory was refused, there were as many states as the limit, a run takes more steps than the limit,
/// or its watcher said so.
#[derive(Clone, Copy)]
pub enum CutBy {
    Memory,
    Entries,
    Steps,
    Stopped,
}

/// A slot that the default run never leaves: its time, and the action that it comes to again and again.
#[derive(Clone, Copy)]
pub struct EndlessSlot {
    pub time: u64,
    pub action: Option<usize>,
}

/// How far a search came: by what it was cut, if it was; up to which time everything was looked at, if anything was; whether a run ended by the
/// time limit; where no run ends at all, the slot that the default run never leaves; how many differences were passed over; and whether runs
/// may take more steps than a replay of which nothing is said.
#[derive(Clone, Copy)]
pub struct Reach {
    pub cut: Option<CutBy>,
    pub closed: Option<u64>,
    pub cut_runs: bool,
    pub endless: Option<EndlessSlot>,
    pub ignored: u64,
    pub is_long: bool,
}

impl Reach {
    /// Whether something was left unseen.
    pub fn is_cut(&self) -> bool
        ensures { result ≡ left_unseen self.now }
    {
        self.cut_runs || self.cut.is_some() || self.endless.is_some()
    }
}
