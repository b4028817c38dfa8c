// How far an explorer goes.

ghost use Rattle.std.specs.Prelude.{◌≡◌, ◌↔◌, IsSome, IfSome};
ghost use Rattle.statebook.specs.Limits.{AreBounds, AreLimits};

/// How far an explorer goes: at most `depart` departures, 0 to 4; at most `steps` steps of one run, 1 to 1,000,000; and no
/// further job from `entries` entries on.
#[derive(Clone, Copy)]
pub struct Limits {
    pub depart: u32,
    pub steps: u32,
    pub entries: u32,
    ghost within: { AreBounds depart steps entries },
}

const DEPART_MAX: u32 = 4;

const STEPS_MAX: u32 = 1_000_000;

const ENTRIES_MAX: u32 = 1_000_000;

/// No search comes to so many entries.
const ENTRIES_ANY: u32 = 4_294_967_295;

impl Limits {
    /// The limits, if each number is within its own; of entries that is 1 to 1,000,000.
    pub fn new(depart: u32, steps: u32, entries: u32) -> Option<Limits>
        ensures within { IsSome result ↔ AreLimits depart steps entries }
        ensures depart { IfSome result (λ limits. limits.depart ≡ depart) }
        ensures steps { IfSome result (λ limits. limits.steps ≡ steps) }
        ensures entries { IfSome result (λ limits. limits.entries ≡ entries) }
    {
        if depart > DEPART_MAX || steps > STEPS_MAX || entries > ENTRIES_MAX {
            return None;
        }
        if steps == 0 || entries == 0 {
            return None;
        }
        Some(Limits {
            depart,
            steps,
            entries,
        })
    }

    /// The same limits, but that no number of entries cuts a search: for one by rank, which forgets most of them.
    pub fn with_any_entries(self) -> Limits
        ensures depart { result.depart ≡ self.depart }
        ensures steps { result.steps ≡ self.steps }
        ensures entries { result.entries ≡ 4294967295 }
    {
        Limits {
            depart: self.depart,
            steps: self.steps,
            entries: ENTRIES_ANY,
        }
    }
}
