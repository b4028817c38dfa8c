// The trace of a run with what each step reads, whom it wakes, and where the `<=` of an update stands (docs/FORMATS.md, "Traces with
// details"). In go a machine, a log and the places of the statements; out come bytes in a writer, and a fault where they don't.
// No law is claimed: the lines are those of `trace_text`, and what stands behind them the cases of tests/cases compare.
#![tactic(auto)]

mod active;
mod detail;
mod posts;
mod reads;
mod taken;
mod write;

pub use taken::{action_of, choice_at};
pub use write::write_detailed_trace;
