// A race of lines: a time whose slot printed different lines in two runs, each under a log.

use sched_core::Log;
use sched_core::bag::Bag;
use std::marker::Model;

/// The lines that the slot printed, and the log of a run in which it did. A clause sees the pair of the lines and the members
/// of the log.
pub struct Side {
    pub lines: Bag,
    pub log: Log,
}

impl Drop for Side {
    fn drop(self) {
        let Side { lines: _, log: _ } = self;
    }
}

impl Model for Side {
    ghost use Rattle.std.specs.Prelude.{ℕ, List};

    ghost Value = { List (List ℕ) × List (ℕ × ℕ) };

    ghost view = { λ side. (side.lines, side.log) };
}

/// A race of lines: two or more sides of the slot of one time, whose lines differ. A clause sees it as the record `LineRace`
/// of specs/LineRaces.antt.
pub struct LineRace {
    pub time: u64,
    pub sides: Vec<Side>,
}

impl Drop for LineRace {
    fn drop(self) {
        let LineRace { time: _, sides: _ } = self;
    }
}

impl Model for LineRace {
    ghost use Rattle.racebook.specs.LineRaces as races;

    ghost Value = { races.LineRace };

    ghost view = { λ race. record { time = race.time; sides = race.sides.items } };
}
