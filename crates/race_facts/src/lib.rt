// What is told of races and of matches, as plain data (`race_findings`). In go the groups of a search, or the answer of a comparison with a
// dump, and the machine whose runs they are of; out come findings, with what its runs show when they are run again: when two statements
// race, what they change of what is printed, and which action ends a run. No law is claimed: how it is told the cases in tests/cases compare.
#![tactic(auto)]

mod apart;
mod difference;
mod finding;
mod joined;
mod matched;
mod others;
mod places;
mod printed;
mod reach;
mod replayed;
mod statements;

pub use difference::cut_values_of;
pub use finding::findings_of;
pub use matched::{answer_of, compared_of, cut_of, differing_of};
pub use places::{places_of, setting_of};
pub use reach::reach_of;
pub use statements::statements_of;
