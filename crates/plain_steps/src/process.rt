// What a process stands at: what it has left, the value that it holds, and where it waits (IEEE 1364-2005, clause 9).

ghost use Rattle.std.specs.Prelude.{◌≡◌, ◌+◌, ◌≤◌, reverse, length, slice_get, vec_len, vec_capacity, IfOk};
ghost use Rattle.vmodel.specs.Step.{frames};
ghost use Rattle.vmodel.specs.Run.{opening_process};

use crate::continuation::Continuation;
use basis::NoMemory;
use std::alloc::Global;
use std::marker::Model;
use vbits::Vec4;
use vmodel::frame::Frame;

/// What a process stands at. A clause sees the frames that are left first one first.
pub struct Process {
    pub(crate) continuation: Continuation,
    pub(crate) held: Option<Vec4>,
    pub(crate) waits: Option<usize>,
}

impl Drop for Process {
    fn drop(self) {
        let Process {
            continuation: _,
            held: _,
            waits: _,
        } = self;
    }
}

impl Model for Process {
    ghost use Rattle.vmodel.specs.State as state;
    ghost use Rattle.plain_steps.specs.InnerContinuation.{IsWhole, continuation_frames};

    ghost Value = { state.Process };

    ghost view = { λ p. record { continuation = continuation_frames p.continuation; held = p.held; waits = p.waits } };

    ghost invariant = { λ p. IsWhole p.continuation };
}

/// Two are equal where they hold the same.
impl PartialEq for Process {
    ghost use Rattle.std.specs.Cmp.{partial_equiv_from_equiv};
    ghost use Rattle.vmodel.specs.Same.{process_same};
    ghost use Rattle.vmodel.specs.SameLaws.{processes_equivalent};

    ghost eq = { process_same };

    ghost laws = { partial_equiv_from_equiv processes_equivalent };

    fn eq(&self, other: &Process) -> bool {
        let held = (&self.held, &self.waits);
        held == (&other.held, &other.waits) && self.continuation.is_like(&other.continuation)
    }
}

impl Eq for Process {
    ghost use Rattle.vmodel.specs.SameLaws.{processes_equivalent};

    ghost laws = { processes_equivalent };
}

impl Process {
    /// A process that begins at these places.
    pub fn at(alloc: Global, places: &[usize]) -> Result<Process, NoMemory>
        ensures { IfOk result (λ process. process ≡ opening_process places.now) }
    {
        Ok(Process {
            continuation: Continuation::at(alloc, places)?,
            held: None,
            waits: None,
        })
    }

    /// What it comes to first, if something is left.
    pub fn first(&self) -> Option<Frame>
        ensures { result ≡ slice_get self.now.continuation 0 }
    {
        self.continuation.first()
    }

    /// A process that stands at the same.
    pub fn copy(&self, alloc: Global) -> Result<Process, NoMemory>
        ensures { IfOk result (λ process. process ≡ self.now) }
    {
        Ok(Process {
            continuation: self.continuation.copy(alloc)?,
            held: self.held,
            waits: self.waits,
        })
    }
}

/// Puts the places before what is left, the first of them first. There is room for them.
pub(crate) fn put_frames(continuation: &mut Vec<Frame>, places: &[usize])
    requires { vec_len continuation.old + length places.now ≤ vec_capacity continuation.old }
    ensures { reverse continuation.new.items ≡ frames places.now (reverse continuation.old.items) }
{
    let mut n = places.len();
    while n > 0 {
        n -= 1;
        continuation.push_reserved(Frame::Executing(places[n]));
    }
}
