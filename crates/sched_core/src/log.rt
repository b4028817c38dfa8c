// The departures of a run, as members (step, index).

ghost use Rattle.std.specs.Prelude.{◌≡◌, ◌↔◌, [], ◌∷◌, ◌++◌, IsTrue, IfOk, OnOk, OnErr};
ghost use Rattle.sched_core.specs.Inner.Reading.{next_from};
ghost use Rattle.sched_core.specs.Logs.{IsLog};

use crate::setting::{Departures, Grain};
use basis::NoMemory;
use std::alloc::Global;
use std::marker::Model;
use thiserror::Error;

/// The last step that a log may name.
const LAST_STEP: u32 = 999_999;

/// A member of a log: a step, from 0 to 999,999, and the index of the choice taken there,
/// from 1 to 4,294,967,295.
pub type Member = (u32, u32);

/// The departures of a run from choice 0, steps strictly rising. A clause sees the list of members.
/// Its length is the number of departures.
#[derive(Drop)]
pub struct Log {
    members: Vec<(u32, u32)>,
}

impl Model for Log {
    ghost use Rattle.std.specs.Prelude.{ℕ, List};
    ghost use Rattle.sched_core.specs.Logs.{IsLog};

    ghost Value = { List (ℕ × ℕ) };

    ghost view = { λ l. l.members.items };

    ghost invariant = { λ l. IsLog l.members.items };
}

/// What the text of a log may name before a slash: the grain, and which departures there are, of the
/// setting that it is a log of.
#[derive(Clone, Copy, PartialEq, Eq)]
pub enum LogHead {
    Plain,
    Named(Grain, Departures),
}

/// Why a text was not read as a log: it is none (E401).
#[derive(Clone, Copy, Debug, PartialEq, Eq, Error)]
pub enum LogFault {
    #[error("the text is that of no log")]
    IllFormed,
}

impl Log {
    /// The empty log, of the run that always takes choice 0.
    pub fn new(alloc: Global) -> Log
        ensures { result ≡ [] }
    {
        Log {
            members: Vec::new(alloc),
        }
    }

    /// The members in order of their steps.
    pub fn members(&self) -> &[Member]
        ensures list { result.now ≡ self.now }
        ensures lawful { IsLog self.now }
    {
        self.members.as_slice()
    }

    /// An equal log. The error is want of memory, E901.
    pub fn copy(&self) -> Result<Log, NoMemory>
        ensures equal { IfOk result (λ copy. copy ≡ self.now) }
        ensures lawful { IsLog self.now }
    {
        Ok(Log {
            members: self.members.clone()?,
        })
    }

    /// Puts one member last. After want of memory, E901, the log is as it was.
    pub fn push(&mut self, step: u32, index: u32) -> Result<(), NoMemory>
        requires { IsLog (self.old ++ (step, index) ∷ []) }
        ensures ok { OnOk result (self.new ≡ self.old ++ (step, index) ∷ []) }
        ensures err { OnErr result (self.new ≡ self.old) }
    {
        self.members.push((step, index))?;
        Ok(())
    }

    // The least step that a further member may name.
    fn next_step(&self) -> u32
        ensures value { result ≡ next_from 0 self.now }
        ensures lawful { IsLog self.now }
    {
        match self.members.last() {
            Some(last) => last.0 + 1,
            None => 0,
        }
    }

    /// Whether the log stays one with this member put last.
    pub fn takes(&self, member: Member) -> bool
        ensures { IsTrue result ↔ IsLog (self.now ++ member ∷ []) }
    {
        if member.0 < self.next_step() {
            return false;
        }
        if member.0 > LAST_STEP {
            return false;
        }
        member.1 >= 1
    }
}
