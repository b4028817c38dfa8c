// What a search that goes by time answers.

use crate::line_race::LineRace;
use crate::race::Race;
use explore::{FoundMark, RankedFindings};
use vmachine::MachineState;

/// What a search that goes by time found: races, races of lines and the states in which runs end, in the order of time; and how
/// far it came.
#[derive(Drop)]
pub struct TimedFindings {
    pub races: Vec<Race>,
    pub line_races: Vec<LineRace>,
    pub ends: Vec<FoundMark<MachineState>>,
    pub search: RankedFindings,
}
