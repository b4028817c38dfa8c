// What runs differ in, and what each of them shows.

use crate::apart::{Apart, Foremost};
use sched_core::Log;
use sched_core::bag::Bag;
use sched_core::end::End;
use vbits::Vec4;

/// What runs differ in: the value of the variable of this number at the end of a slot, the lines that a slot printed, or how they end.
pub enum Aspect {
    Variable(usize),
    Lines,
    Ends(Apart),
}

impl Drop for Aspect {
    fn drop(self) {
        match self {
            Aspect::Variable(_) => {}
            Aspect::Lines => {}
            Aspect::Ends(_) => {}
        }
    }
}

/// Where a run ends, if it does; the values of all variables then, by their numbers; and the lines of the last slot, if they are looked at.
#[derive(Drop)]
pub struct RunEnd {
    pub end: Option<End>,
    pub values: Vec<Vec4>,
    pub lines: Option<Bag>,
}

/// What is so in a side: the value of the variable, the lines of the slot, or how the run ends.
#[derive(Drop)]
pub enum Evidence {
    Value(Vec4),
    Lines(Bag),
    End(RunEnd),
}

/// A side of a difference: the log of a run, and what it shows.
pub struct Side {
    pub log: Log,
    pub evidence: Evidence,
}

impl Drop for Side {
    fn drop(self) {
        let Side {
            log: _,
            evidence: _,
        } = self;
    }
}

/// A difference: its time, which of ends is that of the first, what runs differ in, and its sides, that of the default run first, if one is
/// its.
pub struct Difference {
    pub time: u64,
    pub aspect: Aspect,
    pub sides: Vec<Side>,
}

impl Drop for Difference {
    fn drop(self) {
        let Difference {
            time: _,
            aspect: _,
            sides: _,
        } = self;
    }
}

impl Difference {
    /// What is told of it first: the variable, the lines or, of ends, what they differ in.
    pub fn foremost(&self) -> Foremost {
        match &self.aspect {
            Aspect::Variable(number) => Foremost::Variable(*number),
            Aspect::Lines => Foremost::Lines,
            Aspect::Ends(apart) => apart.foremost(),
        }
    }

    /// What ends differ in, where it is ends that differ.
    pub fn apart(&self) -> Option<&Apart> {
        match &self.aspect {
            Aspect::Ends(apart) => Some(apart),
            Aspect::Variable(_) => None,
            Aspect::Lines => None,
        }
    }

    /// Where the run of the first side ends, where it is ends that differ.
    pub fn end(&self) -> Option<End> {
        match &self.sides.first()?.evidence {
            Evidence::End(run) => run.end,
            Evidence::Value(_) => None,
            Evidence::Lines(_) => None,
        }
    }
}
