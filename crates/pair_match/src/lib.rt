// Two references as one. In come two references, such as the dumps of two simulators, a space with ranks, and limits. Out comes a run that
// shows what both show, up to where either ends; or the time up to which no run does, though each of them may have one of its own.
// The law: a run is explained up to a time by the two exactly if it is explained by each of them.
#![tactic(auto)]

mod pair;
mod parting;

pub use pair::{PairFault, PairReference};
pub use parting::match_both;
