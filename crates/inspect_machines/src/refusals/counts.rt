// What the calls of one kind left.

use basis::NoMemory;
use std::io;

/// What was found after calls of one kind: how many succeeded, how many were refused, and what was wrong, if anything was.
#[derive(Clone, Copy)]
pub struct CallCounts {
    pub calls: u32,
    pub refused: u32,
    pub wrong: Option<&'static str>,
}

impl CallCounts {
    /// Nothing was called.
    pub fn new() -> CallCounts {
        CallCounts {
            calls: 0,
            refused: 0,
            wrong: None,
        }
    }

    /// Notes that this is wrong unless it holds. The first that is wrong is kept.
    pub fn expect(&mut self, holds: bool, what: &'static str) {
        if !holds && self.wrong.is_none() {
            self.wrong = Some(what);
        }
    }

    /// Notes a call that succeeded, and whether it was refused before.
    pub fn count(&mut self, was_refused: bool) {
        self.calls = self.calls.saturating_add(1);
        if was_refused {
            self.refused = self.refused.saturating_add(1);
        }
    }
}

/// One line: what was wrong, how many calls there were, or that memory was refused elsewhere.
pub fn show(rt: &impl Print, answer: Result<CallCounts, NoMemory>) -> io::Result<()> {
    match answer {
        Err(_) => rt.println("E901"),
        Ok(counts) => match counts.wrong {
            Some(what) => println!(rt; "wrong: {what}"),
            None => println!(rt; "{} calls, {} refused", counts.calls, counts.refused),
        },
    }
}
