// The counts of all workers together.

ghost use Rattle.std.specs.Prelude.{◌≡◌, None};
ghost use Rattle.workpool.specs.Inner.Joined.{IsSumOf};

use crate::ring::Seat;
use crate::tally::{Tally, TallySeat};
use crate::work::Work;
use basis::NoMemory;
use shardbook::{Book, BookIdentity, Pass, SearchParameters};
use std::hash::Hash;

// What the workers that were joined have counted together.
#[derive(Drop)]
pub(crate) struct Sum<B: BookIdentity> {
    pub(crate) tally: TallySeat,
    pub(crate) pass: Pass<B>,
    pub(crate) given: u64,
    pub(crate) taken: u64,
    pub(crate) refused: Option<NoMemory>,
    pub(crate) past: bool,
}

// The first of two, if there is one.
pub(crate) fn either(one: Option<NoMemory>, other: Option<NoMemory>) -> Option<NoMemory>
    ensures { result ≡ None → (one ≡ None) × (other ≡ None) }
{
    match one {
        Some(refused) => Some(refused),
        None => other,
    }
}

// Takes a worker in, and gives its ends of the deques back.
pub(crate) fn add<S: Eq + Hash + Drop, Q: SearchParameters<S>, B: BookIdentity>(
    book: &Book<S, Q, B>,
    tally: &Tally,
    sum: Sum<B>,
    work: Work<B>,
) -> (Sum<B>, Seat)
    requires here { sum.tally.tally ≡ tally.now }
    requires there { work.tally.tally ≡ tally.now }
    ensures sum { IsSumOf sum work result.0 }
    ensures seat { result.1 ≡ work.seat }
{
    let Sum {
        tally: mut seat,
        pass,
        given,
        taken,
        refused,
        past,
    } = sum;
    tally.join(&mut seat, work.tally);
    let sum = Sum {
        tally: seat,
        pass: book.join(pass, work.pass),
        given: given.wrapping_add(work.given),
        taken: taken.wrapping_add(work.taken),
        refused: either(refused, work.refused),
        past: past || work.past,
    };
    (sum, work.seat)
}
