// In come a lawful space, limits and a book that threads share; out come its entries, met and finished by
// up to 64 workers, the counts of what they did, and why they stopped short, if they did.
// The law: what was taken, stolen and is left is what was given; opens are the New answers of the book.
#![tactic(auto)]

mod deque;
mod gate;
mod hand;
mod insert;
mod job;
mod ran;
mod ring;
mod room;
mod root;
mod rule;
mod run;
mod sum;
mod tally;
mod work;
mod worker;
mod workers;

pub use deque::{Owner, Thief, ends, settle};
pub use gate::{Gate, OpenGate};
pub use ran::Ran;
pub use ring::{Seat, new_ring, settle_all};
pub use run::run_workers;
pub use statebook::Limits;
pub use tally::{SEATS, Tally, TallySeat};
