// Which races are waived (docs/CI.md, "Waivers"). In go the waivers of a file and the findings of a search; out comes, of each race, the waiver
// that it is waived by, and of each waiver what it matched. No law is claimed: the cases in tests/cases and tests/waivers compare it.
#![tactic(auto)]

mod differing;
mod ends;
mod name_index;
mod waived;
mod waiver_table;

pub use ends::ends_of;
pub use waived::Waived;
