// How a text is run.

ghost use Rattle.std.specs.Prelude.{◌≤◌};

use sched_core::setting::{Departures, Grain, Looked};
use statebook::Limits;

/// How a text is run: its top module, or none where the text has only one; the time limit in units of the precision; how
/// far runs are explored and how many steps one may take; the grain, which departures there are, and what an exploration
/// looks at (docs/SCHEDULING.md).
#[derive(Clone, Copy)]
pub struct Options<'a> {
    pub top: Option<&'a [u8]>,
    pub until: u64,
    pub limits: Limits,
    pub grain: Grain,
    pub departures: Departures,
    pub looked: Looked,
    ghost until_limit: { until ≤ 4611686018427387903 },
}
