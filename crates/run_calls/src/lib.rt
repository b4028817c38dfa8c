// The calls `replay`, `explore` and `check` of the program. In go the words behind the command, parsed; out come a dump, lines, steps, a
// report or `ok` on standard output, and the exit status, or what ends the call early. What is written is the contract of the calls of
// `vrace` that these make; no law of their own is claimed: tests/run-cases compares what the program does.
#![tactic(auto)]

mod checking;
mod exploring;
mod replaying;

pub use checking::check_by;
pub use exploring::explore_by;
pub use replaying::replay_by;
