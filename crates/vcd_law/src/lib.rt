// What this product's dumps say to a reader of dumps (IEEE 1364-2005, 18.2). Nothing goes in and nothing comes out.
// The law: what is written of a history is read back, slot by slot.
#![tactic(auto)]

mod law;

pub use law::dumps_are_read_back;
