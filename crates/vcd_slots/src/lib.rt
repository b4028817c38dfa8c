// What a value change dump shows from time to time (IEEE 1364-2005, 18.2). In goes a dump whose declarations were read, which of its
// variables are followed, and the units in which its times count and are shown; out comes, slot by slot, what each of them is worth at the slot's end, or a refusal with its line.
// The law: that is what the dump shows at this time (specs/Slots.antt).
#![tactic(auto)]

mod column;
mod columns;
mod digits;
mod law;
mod slots;
mod units;

pub use columns::Columns;
pub use law::slots_show_their_time;
pub use slots::DumpSlots;
