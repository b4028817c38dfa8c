// Times as people write them. In go words, numbers or digits with a unit, and the texts of files; out come times in units of the files'
// precision, or that a word is no time, or one that is later than all times. No law is claimed: tests/run-cases compares what the program
// does.
#![tactic(auto)]

mod bounds;
mod time;

pub use bounds::{Bounds, Times};
pub use time::{LAST_TIME, TIME_FORM, TimeFault, check_time};
