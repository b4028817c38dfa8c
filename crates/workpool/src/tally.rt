// The tally: how many entries were opened and shut, and whether to stop, in three words.

ghost use Rattle.std.specs.Prelude.{◌≡◌, ◌+◌, ◌-◌, ◌%◌, ◌^◌, ◌<◌, ◌≤◌, true, IsTrue, IfOk};
ghost use Rattle.workpool.specs.Tallies.{both};

use crate::rule::{
    Both, Counted, Hears, OneOff, Opens, ReadsOpens, ReadsShuts, Shuts, Stops, Tallied,
};
use atomic_table::{Seat, Table};
use basis::NoMemory;
use std::alloc::Global;
use std::marker::Model;

/// How many parts all seats of a tally have together: one for each of 64 workers, and one for who starts them.
pub const SEATS: u64 = 65;

const OPENS: usize = 0;

const SHUTS: usize = 1;

const STOP: usize = 2;

/// A tally that workers share: the entries opened, the entries shut, and the mark to stop. Each
/// call is one step on one word, without a lock. A clause sees which tally it is.
#[derive(Drop)]
pub struct Tally {
    table: Table<(), Counted, (), Tallied, Global>,
}

impl Model for Tally {
    ghost use Rattle.std.specs.Prelude.{◌≡◌};
    ghost use Rattle.atomic_table.specs.Seated.{TableId, table_id_coded};

    ghost Value = { TableId };

    ghost coded = { table_id_coded };

    ghost view = { λ t. t.table.shared.table_id };

    ghost invariant = { λ t. (t.table.shared.table_id.words ≡ 3) × (t.table.shared.table_id.slots ≡ 0) };
}

/// A worker's seat at a tally. It has no bytes. A clause sees what it has counted.
#[derive(Drop)]
pub struct TallySeat {
    seat: Seat<(), Counted>,
}

impl Model for TallySeat {
    ghost use Rattle.std.specs.Prelude.{◌≡◌, []};
    ghost use Rattle.workpool.specs.Tallies.{Seated};
    ghost use Rattle.workpool.specs.Inner.Rules.{seat_of};

    ghost Value = { Seated };

    ghost view = { λ s. seat_of s.seat.table_id s.seat.me.0 };

    ghost invariant = { λ s. s.seat.me.1 ≡ [] };
}

impl Tally {
    /// A tally of nothing, and the seat with all parts. The error is want of memory, E901.
    pub fn new(alloc: Global) -> Result<(Tally, TallySeat), NoMemory>
        ensures seat { IfOk result (λ made. made.1.tally ≡ made.0) }
        ensures parts { IfOk result (λ made. made.1.parts ≡ SEATS) }
        ensures nothing { IfOk result (λ made. (made.1.opens ≡ 0) × (made.1.shuts ≡ 0)) }
    {
        let (table, seat) = Table::of_words(alloc, &[0, 0, 0], &())?;
        Ok((Tally { table }, TallySeat { seat }))
    }

    /// Counts an entry that was opened.
    pub fn open(&self, seat: &mut TallySeat)
        requires here { seat.old.tally ≡ self.now }
        requires part { 0 < seat.old.parts }
        ensures { seat.new ≡ record seat.old { opens = seat.old.opens + 1 } }
    {
        self.table
            .shared
            .fetch_add::<Opens>(&mut seat.seat, OPENS, 1);
    }
    /// Counts an entry that was shut.
    pub fn shut(&self, seat: &mut TallySeat)
        requires here { seat.old.tally ≡ self.now }
        requires part { 0 < seat.old.parts }
        ensures { seat.new ≡ record seat.old { shuts = seat.old.shuts + 1 } }
    {
        self.table
            .shared
            .fetch_add::<Shuts>(&mut seat.seat, SHUTS, 1);
    }

    /// How many entries were opened so far, modulo 2^64. A seat with all parts finds just what it has
    /// counted.
    pub fn opens(&self, seat: &mut TallySeat) -> u64
        requires { seat.old.tally ≡ self.now }
        ensures same { seat.new ≡ seat.old }
        ensures all { seat.old.parts ≡ SEATS → result ≡ seat.old.opens % 2 ^ 64 }
    {
        self.table.shared.load::<ReadsOpens>(&mut seat.seat, OPENS)
    }

    /// How many entries were shut so far, modulo 2^64. A seat with all parts finds just what it has
    /// counted.
    pub fn shuts(&self, seat: &mut TallySeat) -> u64
        requires { seat.old.tally ≡ self.now }
        ensures same { seat.new ≡ seat.old }
        ensures all { seat.old.parts ≡ SEATS → result ≡ seat.old.shuts % 2 ^ 64 }
    {
        self.table.shared.load::<ReadsShuts>(&mut seat.seat, SHUTS)
    }

    /// Sets the mark to stop.
    pub fn stop(&self, seat: &mut TallySeat)
        requires { seat.old.tally ≡ self.now }
        ensures { seat.new ≡ record seat.old { stopped = true } }
    {
        self.table.shared.store::<Stops>(&mut seat.seat, STOP, 1);
    }

    /// Whether the mark is set. A seat that has set it, or has found it set, finds it so from then on.
    pub fn stopped(&self, seat: &mut TallySeat) -> bool
        requires { seat.old.tally ≡ self.now }
        ensures told { seat.new ≡ record seat.old { stopped = result } }
        ensures stays { seat.old.stopped ≡ true → IsTrue result }
    {
        self.table.shared.load::<Hears>(&mut seat.seat, STOP) > 0
    }

    /// A seat for one more worker, which has counted nothing. It takes one part of this one.
    pub fn split(&self, seat: &mut TallySeat) -> TallySeat
        requires here { seat.old.tally ≡ self.now }
        requires parts { 2 ≤ seat.old.parts }
        ensures left { seat.new ≡ record seat.old { parts = seat.old.parts - 1 } }
        ensures new { result ≡ record seat.old { parts = 1; opens = 0; shuts = 0 } }
    {
        TallySeat {
            seat: self.table.shared.split_seat::<OneOff>(&mut seat.seat),
        }
    }

    /// Takes the other seat in, with its parts and what it has counted.
    pub fn join(&self, seat: &mut TallySeat, other: TallySeat)
        requires here { seat.old.tally ≡ self.now }
        requires there { other.tally ≡ self.now }
        ensures { seat.new ≡ both seat.old other }
    {
        self.table
            .shared
            .join_seat::<Both>(&mut seat.seat, other.seat);
    }

    /// The sums of the opens and of the shuts, modulo 2^64. All seats are joined in this one.
    pub fn totals(self, seat: TallySeat) -> (u64, u64)
        requires here { seat.tally ≡ self }
        requires all { seat.parts ≡ SEATS }
        ensures opens { result.0 ≡ seat.opens % 2 ^ 64 }
        ensures shuts { result.1 ≡ seat.shuts % 2 ^ 64 }
    {
        let closed = self.table.close_with(seat.seat);
        let opens = closed.word(OPENS);
        let shuts = closed.word(SHUTS);
        closed.free();
        (opens, shuts)
    }
}
