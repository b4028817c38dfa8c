// Texts as programs read them that tell no refusal. In: the bytes of a text. Out: its design, or none. No tree leaves this crate, so that
// letting go of one is proved here alone (docs/GATE.md, "Drops"). No law is claimed: what each step answers are the clauses of the crates
// below.
#![tactic(auto)]

mod designs;

pub use designs::design_of;
