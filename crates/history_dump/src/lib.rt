// The dump of a history that is kept as a value. In go a design and a history of it; out come bytes in a writer, and a fault where they
// don't (IEEE 1364-2005, clause 18).
// The law: the bytes are those of `vcd` (specs/DumpText.antt of `vcd_text`), and after a fault a prefix of them.
#![tactic(auto)]

mod write;

pub use write::write_vcd;
