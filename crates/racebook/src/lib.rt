// From an explorer's findings to races. In go a machine and the findings of its exploration; out come the times and
// variables at which two runs differ, each value with the departures of a run that shows it, and the times at which they
// print different lines.
// The law: what is listed is a race; where the findings are all, every race is listed, with the fewest departures.
#![tactic(auto)]

mod book;
mod in_time;
mod key;
mod line_race;
mod lines;
mod race;
mod slot;
mod slot_state;
mod slots;
mod timed_findings;
mod values;

pub use book::{line_races, line_races_in, races, races_in};
pub use in_time::explore_in_time;
pub use line_race::{LineRace, Side};
pub use race::{Race, Witness};
pub use slot_state::{SlotState, slot_state_of, states_of_marks};
pub use slots::{FoundInSlot, found_in};
pub use timed_findings::TimedFindings;
