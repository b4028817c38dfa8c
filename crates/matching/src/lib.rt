// In come a lawful space with ranks, whose marks are the ends of slots, limits, and a reference that shows from time to time which
// states fit. Out comes a run that shows what the reference shows at the end of every slot, or the time up to which none does.
// The law: explained means that the run under the log fits throughout, and unexplained that no run within the limit of departures
// in each slot does.
#![tactic(auto)]

mod answer;
mod budgeted_slot;
mod candidates;
mod found_ends;
mod halt;
mod joined;
mod matching_runs;
mod one_slot;
mod reading;
mod reference;
mod search;
mod slot;

pub use answer::{Cut, Explanation, Matching, Unexplained};
pub use matching_runs::match_runs;
pub use reference::Reference;
