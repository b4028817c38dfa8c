// What the workers of a search need before they begin.

ghost use Rattle.std.specs.Prelude.{◌<◌, IfOk};
ghost use Rattle.workpool.specs.Inner.Rooms.{IsRoomFor};

use crate::deque::Owner;
use crate::ring::{Seat, new_ring};
use crate::tally::{Tally, TallySeat};
use crate::work::Work;
use basis::NoMemory;
use shardbook::BookIdentity;
use std::alloc::Global;

// A tally, its seat with all parts, a ring of deques, and room for as many workers, and for the
// deques once the workers have ended.
#[derive(Drop)]
pub(crate) struct Room<B: BookIdentity> {
    pub(crate) tally: Tally,
    pub(crate) all: TallySeat,
    pub(crate) ring: Vec<Seat>,
    pub(crate) works: Vec<Work<B>>,
    pub(crate) deques: Vec<Owner>,
}

// Room for so many workers. It is all that is allocated before they begin.
pub(crate) fn make_room<B: BookIdentity>(alloc: Global, count: usize) -> Result<Room<B>, NoMemory>
    requires { 0 < count }
    ensures { IfOk result (IsRoomFor count) }
{
    let ring = new_ring(alloc, count)?;
    let works = Vec::with_capacity(alloc, count)?;
    let deques = Vec::with_capacity(alloc, count)?;
    let (tally, all) = Tally::new(alloc)?;
    Ok(Room {
        tally,
        all,
        ring,
        works,
        deques,
    })
}
