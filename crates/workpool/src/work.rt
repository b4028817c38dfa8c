// What a worker holds: its ends of the deques, its seat at the tally, its pass, and what it has counted.

use crate::ring::Seat;
use crate::tally::TallySeat;
use basis::NoMemory;
use shardbook::{BookIdentity, Pass};

// What a worker holds. It counts the jobs that it has given and taken, modulo 2^64, keeps want of
// memory if it met it, and notes whether a way went past the limit of steps.
#[derive(Drop)]
pub(crate) struct Work<B: BookIdentity> {
    pub(crate) seat: Seat,
    pub(crate) tally: TallySeat,
    pub(crate) pass: Pass<B>,
    pub(crate) steals: bool,
    pub(crate) given: u64,
    pub(crate) taken: u64,
    pub(crate) refused: Option<NoMemory>,
    pub(crate) past: bool,
}
