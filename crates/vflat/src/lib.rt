// States kept flat: where each process stands in the code of its design, in place of all that it has left (IEEE 1364-2005, clauses 9
// and 11). In go a design, its code and the kernel of a state in which every process begins; out come flat states, and what a step of one
// does.
// The law: where the code is whole, a flat state that stands for a state of a run does so after the same step, too
// (`specs/Representations.antt`, `proofs/RepresentationLemmas.antt`).
#![tactic(auto)]

mod flat;
mod flat_step;
mod points;
mod row;
mod turns;

pub use flat::Flat;
