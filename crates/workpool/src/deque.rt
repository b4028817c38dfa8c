// A deque of jobs with one owner and one thief.

ghost use Rattle.std.specs.Prelude.{◌≡◌, [], ◌∷◌, ◌++◌, IfOk, IfErr, OnErr, OnOk, IfSome, IfNone};
ghost use Rattle.workpool.specs.Jobs.{IsSettled};

use crate::hand::{Cut, Fair, Hand, Puts, Rest, Takes, Whole};
use basis::NoMemory;
use crossbeam_deque::{Pass, Steal, Stealer, Worker};
use std::alloc::Global;
use std::marker::Model;

// How many jobs a deque has room for at first.
const ROOM: usize = 64;

/// The end of a deque at which its owner puts jobs and takes them, the last one first. A clause
/// sees which deque it is, what was put and what the owner has taken; and where the thief's end was
/// given back to the owner, what that thief has taken too.
#[derive(Drop)]
pub struct Owner {
    worker: Worker<u64, Global, Hand, Fair>,
}

impl Model for Owner {
    ghost use Rattle.std.specs.Prelude.{◌≡◌, ◌<◌};
    ghost use Rattle.crossbeam_deque.specs.Handles.{worker_deque, worker_flavor, worker_view};
    ghost use Rattle.workpool.specs.Jobs.{Owned};

    ghost Value = { Owned };

    ghost view = { λ o. record { deque = worker_deque o.worker; put = (worker_view o.worker).put; taken = (worker_view o.worker).taken } };

    ghost invariant = { λ o. (0 < worker_flavor o.worker) × (0 < (worker_view o.worker).parts) };
}

/// The end of a deque at which its thief takes jobs, the first one first. A clause sees which deque
/// it is, and what the thief has taken.
#[derive(Drop)]
pub struct Thief {
    stealer: Stealer<u64, Global, Hand, Fair>,
    pass: Pass<u64, Hand>,
}

impl Model for Thief {
    ghost use Rattle.std.specs.Prelude.{◌≡◌, []};
    ghost use Rattle.crossbeam_deque.specs.Handles.{IsPassOf, stealer_deque, view as knows};
    ghost use Rattle.workpool.specs.Jobs.{Robbed};

    ghost Value = { Robbed };

    ghost view = { λ t. record { deque = stealer_deque t.stealer; taken = (knows t.pass).taken } };

    ghost invariant = { λ t. IsPassOf (stealer_deque t.stealer) t.pass × ((knows t.pass).parts ≡ 1) × ((knows t.pass).put ≡ []) };
}

/// The two ends of a deque without jobs. The error is want of memory, E901.
pub fn ends(alloc: Global) -> Result<(Owner, Thief), NoMemory>
    ensures one { IfOk result (λ made. made.0.deque ≡ made.1.deque) }
    ensures nothing { IfOk result (λ made. (made.0.put ≡ []) × (made.0.taken ≡ []) ×
        (made.1.taken ≡ [])) }
{
    let mut worker = Worker::lifo_as(alloc, ROOM)?;
    let stealer = worker.stealer()?;
    let pass = worker.another::<Cut>();
    Ok((Owner { worker }, Thief { stealer, pass }))
}

impl Owner {
    /// Puts a job. It is handed back where the deque can't grow.
    pub fn put(&mut self, job: u64) -> Result<(), u64>
        ensures ok { OnOk result (self.new ≡ record self.old { put = self.old.put ++ job ∷ [] }) }
        ensures handed_back { IfErr result (λ back. back ≡ job) }
        ensures err { OnErr result (self.new ≡ self.old) }
    {
        self.worker.push_as::<Puts>(job)
    }

    /// The job that was put last, of those that are left.
    pub fn take(&mut self) -> Option<u64>
        ensures some { IfSome result (λ job.
            self.new ≡ record self.old { taken = self.old.taken ++ job ∷ [] }) }
        ensures none { IfNone result (self.new ≡ self.old) }
    {
        self.worker.pop_as::<Takes>()
    }
}

impl Thief {
    /// The job that was put first, of those that are left. None also where another thread was quicker.
    pub fn steal(&mut self) -> Option<u64>
        ensures some { IfSome result (λ job.
            self.new ≡ record self.old { taken = self.old.taken ++ job ∷ [] }) }
        ensures none { IfNone result (self.new ≡ self.old) }
    {
        match self.stealer.steal_as::<Takes>(&mut self.pass) {
            Steal::Success(job) => Some(job),
            Steal::Empty => None,
            Steal::Retry => None,
        }
    }
}

/// Gives the thief's end back to the owner, once both are in one thread, and answers how many jobs
/// are left: each was put as often as its owner took it, its thief took it or it is left.
pub fn settle(owner: Owner, thief: Thief) -> (Owner, usize)
    requires { owner.deque ≡ thief.deque }
    ensures settled { IsSettled owner thief result.1 }
    ensures back { result.0 ≡ record owner { taken = owner.taken ++ thief.taken } }
{
    let Owner { mut worker } = owner;
    let Thief { stealer, pass } = thief;
    drop(stealer);
    worker.absorb::<Whole>(pass);
    let left = worker.len_as::<Rest>();
    (Owner { worker }, left)
}
