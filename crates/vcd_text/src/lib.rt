// Histories to the text of a value change dump (IEEE 1364-2005, clause 18). In go a design and what its run shows;
// out come bytes in a byte sink (a writer, a count, a text that is held, or one to compare with), as the run goes,
// and a fault where they don't.
// The law: the bytes are those of specs/DumpText.antt, and after a fault a prefix of them.
#![tactic(auto)]

mod commands;
mod header;
mod law;
mod listed;
mod progress;
mod selected;
mod sink;
mod values;

pub use byte_sinks::{
    ByteSink, Counter, Expected, Full, HELD_BYTES, HeldText, Metered, Never, TooMany, WriteFault,
    expected_is_whole, put,
};
pub use law::{dumps_are_readable, sinks_complete_dumps};
pub use progress::Progress;
pub use sink::DumpSink;
