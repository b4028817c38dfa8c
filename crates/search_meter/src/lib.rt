// The watcher of a search by time. In go what it may take and, as it goes on, how far it has come; out comes whether it may go on, and on
// standard error what it has found so far. No law is claimed beyond the clauses of `Watcher` and `Budget`: what is shown is compared.
#![tactic(auto)]

use command_line::Allowance;
use explore::{Progress, Watcher};
use std::io::IsTerminal;
use std::time::Instant;
use vreport::{Budget, Spent};

// The clock is looked at once in so many entries.
const ENTRIES_A_LOOK: u64 = 256;

// The same in a search that goes from slot to slot, which is asked less often.
const STATES_A_LOOK: u64 = 16;

// What is shown on the way: of a search for races how many it has, of one that compares slots with a dump how many of its runs have the
// dump's values.
#[derive(Clone, Copy)]
enum Counted {
    Races,
    Runs,
}

// Milliseconds between two lines on standard error where that is a terminal.
const SHOWN_APART: u64 = 500;

// The same in a file or a pipe.
const WRITTEN_APART: u64 = 10_000;

/// Measures what an exploration by time takes, and stops it where that is all that it may take.
#[derive(Drop)]
pub struct Meter<'r> {
    rt: &'r HostRuntime,
    allowance: Allowance,
    counted: Counted,
    is_terminal: bool,
    begun: Option<Instant>,
    entry_bytes: u64,
    asked: u64,
    shown: u64,
    found: usize,
    spent: Spent,
    is_over: bool,
    opened: u64,
    level: u64,
}

impl<'r> Meter<'r> {
    /// Of a search for races or ends, from now on.
    pub fn new(rt: &'r HostRuntime, allowance: Allowance) -> Meter<'r> {
        Meter::of(rt, allowance, Counted::Races)
    }

    /// Of a search that compares slots with a dump, from now on. What it tells of its progress is of the slot that it is at.
    pub fn of_slots(rt: &'r HostRuntime, allowance: Allowance) -> Meter<'r> {
        Meter::of(rt, allowance, Counted::Runs)
    }

    // From now on.
    fn of(rt: &'r HostRuntime, allowance: Allowance, counted: Counted) -> Meter<'r> {
        Meter {
            rt,
            allowance,
            counted,
            is_terminal: rt.stderr().is_terminal(),
            begun: Instant::now(rt).ok(),
            entry_bytes: 0,
            asked: 0,
            shown: 0,
            found: 0,
            spent: Spent::Time,
            is_over: false,
            opened: 0,
            level: 0,
        }
    }

    /// From now on slots are compared with at most so many departures in each.
    pub fn set_level(&mut self, most: u64) {
        self.level = most;
    }

    /// How many entries were opened, as far as it was told.
    pub fn states(&self) -> u64 {
        self.opened
    }

    /// Milliseconds since it was begun; without a clock more than is ever allowed.
    pub fn elapsed(&self) -> u64 {
        let Some(begun) = self.begun else {
            return u64::MAX;
        };
        match begun.elapsed(self.rt) {
            Ok(passed) => u64::try_from(passed.as_millis()).unwrap_or(u64::MAX),
            Err(_) => u64::MAX,
        }
    }

    // Whether the entries that are held take more memory than is allowed.
    fn is_full(&self, progress: &Progress) -> bool {
        let Some(megabytes) = self.allowance.memory else {
            return false;
        };
        let held = self
            .entry_bytes
            .saturating_mul(progress.entries_held as u64);
        held > megabytes.saturating_mul(1_000_000)
    }

    // Whether all the time is over.
    fn is_late(&self, passed: u64) -> bool {
        match self.allowance.seconds {
            None => false,
            Some(seconds) => passed >= seconds.saturating_mul(1_000),
        }
    }

    // Whether the clock is looked at now.
    fn is_to_look(&mut self) -> bool {
        let asked = self.asked;
        self.asked = asked.wrapping_add(1);
        match self.counted {
            Counted::Races => asked % ENTRIES_A_LOOK == 0,
            Counted::Runs => asked % STATES_A_LOOK == 0,
        }
    }

    // Whether all is spent that it may take: memory, of which each entry is asked, or time, after some entries.
    fn has_spent(&mut self, progress: &Progress) -> bool {
        if self.is_full(progress) {
            self.spent = Spent::Memory;
            return true;
        }
        if !self.is_to_look() {
            return false;
        }
        let passed = self.elapsed();
        self.show(passed, progress);
        self.is_late(passed)
    }

    // Milliseconds between two lines.
    fn apart(&self) -> u64 {
        if self.is_terminal {
            SHOWN_APART
        } else {
            WRITTEN_APART
        }
    }

    // Shows how far the exploration has come, unless it did so just before.
    fn show(&mut self, passed: u64, progress: &Progress) {
        if self.allowance.progress && passed >= self.shown.saturating_add(self.apart()) {
            self.show_now(passed, progress);
        }
    }

    // Whether what was found is shown at once.
    fn shows_at_once(&self) -> bool {
        self.allowance.progress && self.is_terminal && matches!(self.counted, Counted::Races)
    }

    // Shows so at once, on a terminal, where races were found since it last looked.
    fn show_found(&mut self, progress: &Progress) {
        if self.shows_at_once() && progress.found > self.found {
            self.found = progress.found;
            let passed = self.elapsed();
            self.show_now(passed, progress);
        }
    }

    // A line on standard error.
    fn show_now(&mut self, passed: u64, progress: &Progress) {
        self.shown = passed;
        let states = match self.counted {
            Counted::Races => progress.entries_opened as u64,
            Counted::Runs => self.asked,
        };
        let pace = states
            .saturating_mul(1_000)
            .checked_div(passed)
            .unwrap_or(0);
        let _ = match self.counted {
            Counted::Races => eprintln!(self.rt;
                "at time {}: {} states, {} a second, races so far: {}",
                progress.rank, states, pace, progress.found
            ),
            Counted::Runs => eprintln!(self.rt;
                "at time {}, departures in a slot up to {}: {} states, {} a second, runs with the dump's values: {}",
                progress.rank, self.level, states, pace, progress.found
            ),
        };
    }
}

impl<'r> Watcher for Meter<'r> {
    ghost use Rattle.std.specs.Prelude.{◌≡◌, true};

    ghost stopped = { λ meter. meter.is_over ≡ true };

    fn go_on(&mut self, progress: &Progress) -> bool {
        self.opened = progress.entries_opened as u64;
        self.show_found(progress);
        self.is_over = self.has_spent(progress);
        !self.is_over
    }
}

impl<'r> Budget for Meter<'r> {
    ghost lacks = { λ meter. meter.spent };

    fn reckon(&mut self, entry_bytes: u64) {
        self.entry_bytes = entry_bytes;
    }

    fn spent(&self) -> Spent {
        self.spent
    }
}
