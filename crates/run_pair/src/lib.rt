// A run under a log and its parent, the run under the same log without its last member, side by side. In go a machine and a log; out come
// the values of both round a time and their steps from where they part (for race_page), and one dump of both. The law is that of dumps.
#![tactic(auto)]

mod columns;
mod dump;
mod pair;
mod runs;
mod steps;
mod walk;
mod waves;

pub use dump::write_pair;
pub use runs::{Marked, Runs, Seen};
pub use steps::{Change, Row, Steps};
pub use waves::Waves;
