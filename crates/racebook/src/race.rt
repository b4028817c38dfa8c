// A race: a time and a variable that has two values there, each under a log.

use sched_core::Log;
use std::marker::Model;
use vbits::Vec4;

/// A value that a variable has at the end of a slot, and the log of a run that shows it. A clause sees the pair of the
/// value and the members of the log.
pub struct Witness {
    pub value: Vec4,
    pub log: Log,
}

impl Drop for Witness {
    fn drop(self) {
        let Witness { value: _, log: _ } = self;
    }
}

impl Model for Witness {
    ghost use Rattle.std.specs.Prelude.{ℕ, List};
    ghost use Rattle.vbits.specs.Vectors.{Vector};

    ghost Value = { Vector × List (ℕ × ℕ) };

    ghost view = { λ witness. (witness.value, witness.log) };
}

/// A race: two or more values of one variable at the end of the slot of one time. The variable goes by its number in the
/// design. A clause sees it as the record `Race` of specs/Races.antt.
pub struct Race {
    pub time: u64,
    pub variable: usize,
    pub values: Vec<Witness>,
}

impl Drop for Race {
    fn drop(self) {
        let Race {
            time: _,
            variable: _,
            values: _,
        } = self;
    }
}

impl Model for Race {
    ghost use Rattle.racebook.specs.Races as races;

    ghost Value = { races.Race };

    ghost view = { λ race. record { time = race.time; variable = race.variable; values = race.values.items } };
}
