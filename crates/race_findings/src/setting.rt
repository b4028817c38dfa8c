// Of which runs it is told.

use sched_core::setting::{Departures, Grain};
use vdesign::design::Design;

/// Of which runs it is told: those of the design up to a time, in units of the precision, of a grain, and with these departures.
#[derive(Clone, Copy)]
pub struct Setting<'a> {
    pub design: &'a Design,
    pub until: u64,
    pub grain: Grain,
    pub departures: Departures,
}
