// What is told of one cause of differences.

use crate::difference::{Aspect, Difference};
use crate::statements::Statements;
use sched_core::Log;

/// A difference by its name: a variable at a time or, where it is of none, the lines of a time.
#[derive(Clone, Copy)]
pub struct Name {
    pub time: u64,
    pub variable: Option<usize>,
}

/// Differences that one pair of statements explains.
pub struct Finding {
    /// The two statements; none where they weren't found.
    pub statements: Option<Statements>,
    /// When the two race, where they are known.
    pub slot: Option<u64>,
    /// The action that ends the run, where ends are alike in time and cause, and no two statements are known.
    pub ending: Option<usize>,
    /// The log of a side of the earliest difference.
    pub log: Log,
    /// What is told first, whole: the earliest difference; or, where that is of a variable, the first lines in which the run under the log
    /// and its parent differ, or how they end, where there is such a thing.
    pub first: Difference,
    /// The earliest difference, whole, where lines or ends are told before it.
    pub earliest: Option<Difference>,
    /// Those that follow the earliest one by name, as many as are kept, in the order of time.
    pub next: Vec<Name>,
    /// How many follow the earliest, those of `next` too.
    pub more: u64,
    /// What differs beside what is told first, in the order of time: each variable once, where it is kept that it differs, and the lines of
    /// each slot. Of variables that port connections join there is one.
    pub others: Vec<Name>,
    /// The time of the last difference.
    pub last: u64,
}

impl Drop for Finding {
    fn drop(self) {
        let Finding {
            statements: _,
            slot: _,
            ending: _,
            log: _,
            first: _,
            earliest: _,
            next: _,
            more: _,
            others: _,
            last: _,
        } = self;
    }
}

impl Finding {
    /// The time of the earliest difference.
    pub fn earliest_time(&self) -> u64 {
        match &self.earliest {
            None => self.first.time,
            Some(earliest) => earliest.time,
        }
    }

    /// Whether something differs at time 0, before anything has happened.
    pub fn is_at_start(&self) -> bool {
        self.earliest_time() == 0
    }

    /// Whether printed lines or ends are told first, and not a variable.
    pub fn is_verdict(&self) -> bool {
        match &self.first.aspect {
            Aspect::Variable(_) => false,
            Aspect::Lines => true,
            Aspect::Ends(_) => true,
        }
    }

    /// Whether `others` has all that differs: no name was left out.
    pub fn is_whole(&self) -> bool {
        self.next.len() as u64 == self.more
    }

    /// How many different variables, and lines of slots, are known to differ.
    pub fn distinct(&self) -> u64 {
        (self.others.len() as u64).saturating_add(1)
    }
}

/// Whether the finding of this place is the first of those that show at time 0, which stand behind all others.
pub fn is_first_at_start(findings: &[Finding], place: usize) -> bool {
    let before = match place.checked_sub(1) {
        None => None,
        Some(before) => findings.get(before),
    };
    match (before, findings.get(place)) {
        (Some(before), Some(finding)) => finding.is_at_start() && !before.is_at_start(),
        (None, Some(finding)) => finding.is_at_start(),
        _ => false,
    }
}
