// The times between which runs are looked at.

use crate::time::{LAST_TIME, Time, TimeFault, femtoseconds, time_of, within};
use basis::{Count, OrMemory, Span, Unit};
use std::alloc::Global;
use vsrc::expand;

/// The last time to which runs go, and the first of which differences are told, where they are asked for.
#[derive(Clone, Copy)]
pub struct Times {
    until: Option<Time>,
    from: Option<Time>,
}

/// The same in units of the precision.
#[derive(Clone, Copy)]
pub struct Bounds {
    pub until: u64,
    pub from: u64,
}

// Where nothing is asked for.
const ALL: Bounds = Bounds {
    until: LAST_TIME,
    from: 0,
};

// The precision where no time depends on it.
const ANY: Span = Span {
    count: Count::One,
    unit: Unit::Nanosecond,
};

// The time of a word that needn't be there.
fn optional_time(word: Option<&str>) -> Result<Option<Time>, TimeFault> {
    match word {
        None => Ok(None),
        Some(word) => Ok(Some(time_of(word)?)),
    }
}

// The last whole unit that isn't later; the latest time, where nothing is asked for.
fn at_most(time: Option<Time>, unit: Span) -> Result<u64, TimeFault> {
    match time {
        None => Ok(LAST_TIME),
        Some(Time::Units(units)) => Ok(units),
        Some(Time::Femtoseconds(time)) => {
            within(time.checked_div(femtoseconds(unit)).unwrap_or(0))
        }
    }
}

// The first whole unit that isn't earlier; 0, where nothing is asked for.
fn at_least(time: Option<Time>, unit: Span) -> Result<u64, TimeFault> {
    match time {
        None => Ok(0),
        Some(Time::Units(units)) => Ok(units),
        Some(Time::Femtoseconds(0)) => Ok(0),
        Some(Time::Femtoseconds(time)) => {
            let before = time.saturating_sub(1).checked_div(femtoseconds(unit));
            within(before.unwrap_or(0).saturating_add(1))
        }
    }
}

// Whether the time has a unit of its own.
fn has_unit(time: Option<Time>) -> bool {
    matches!(time, Some(Time::Femtoseconds(_)))
}

impl Times {
    /// What these words say, each where it is there.
    pub fn new(until: Option<&str>, from: Option<&str>) -> Result<Times, TimeFault> {
        Ok(Times {
            until: optional_time(until)?,
            from: optional_time(from)?,
        })
    }

    // The times in such units.
    fn in_units(&self, unit: Span) -> Result<Bounds, TimeFault> {
        Ok(Bounds {
            until: at_most(self.until, unit)?,
            from: at_least(self.from, unit)?,
        })
    }

    /// The times in units of the precision of these files, which are read for it where a time has a unit of its own. Of files that have no
    /// text nothing is asked: they are refused where they are run.
    pub fn bounds(&self, alloc: Global, files: &[Vec<u8>]) -> Result<Bounds, TimeFault> {
        if !has_unit(self.until) && !has_unit(self.from) {
            return self.in_units(ANY);
        }
        match expand(alloc, files) {
            Err(OrMemory::Fault(_)) => Ok(ALL),
            Err(OrMemory::Memory(refused)) => Err(TimeFault::Memory(refused)),
            Ok(text) => self.in_units(text.timescale().precision),
        }
    }
}
