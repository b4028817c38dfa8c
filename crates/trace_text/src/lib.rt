// The trace of a run: a line for each step, a line for each slot end, and a line for the run's end (docs/FORMATS.md,
// "Traces"). In go a machine, a log and the places of the statements; out come bytes in a writer, and a fault where they don't.
// The law: the bytes are those of specs/Traces.antt, and after a fault a prefix of them.
#![tactic(auto)]

mod line;
mod write;

pub use line::Origins;
pub use write::write_trace;
