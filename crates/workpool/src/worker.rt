// The loop of one worker.

ghost use Rattle.std.specs.Prelude.{◌≡◌};
ghost use Rattle.workpool.specs.Searches.{AreParametersOf};
ghost use Rattle.statebook.specs.Inner.Forced.{IsFirst};
ghost use Rattle.workpool.specs.Inner.Works.{IsSamePlace};
ghost use Rattle.workpool.specs.Inner.Joined.{IsReady};

use crate::gate::Gate;
use crate::insert::next_job;
use crate::job::run_job;
use crate::tally::{Tally, TallySeat};
use crate::work::Work;
use sched_core::Space;
use shardbook::{Book, BookIdentity, SearchParameters};
use statebook::Limits;
use std::alloc::Global;
use std::sync::Wait;
use std::thread;

// Whether a worker is to end: it is told to stop, there are as many entries as the limit, of which it
// then tells the others, or all that was opened is shut. The shuts are read first, so that nothing can
// be opened between the two.
fn is_over(tally: &Tally, limits: &Limits, seat: &mut TallySeat) -> bool
    requires { seat.old.tally ≡ tally.now }
    ensures { seat.new ≡ record seat.old { stopped = seat.new.stopped } }
{
    if tally.stopped(seat) {
        return true;
    }
    let shuts = tally.shuts(seat);
    let opens = tally.opens(seat);
    if opens >= limits.entries as u64 {
        tally.stop(seat);
        return true;
    }
    shuts == opens
}

// Takes jobs and runs them, until there is nothing left to do or all are to stop. Before it takes one
// it looks whether it is to end, and before it runs one it passes the gate.
pub(crate) fn run_worker<
    P: Space,
    Q: SearchParameters<P::State>,
    B: BookIdentity,
    R: Wait,
    G: Gate,
>(
    alloc: Global,
    rt: &R,
    space: &P,
    limits: &Limits,
    book: &Book<P::State, Q, B>,
    tally: &Tally,
    root: &P::State,
    gate: &G,
    worker: u32,
    work: &mut Work<B>,
)
    requires parameters { AreParametersOf Q.rules Q.depart Q.steps (P.rules space.now) limits.now }
    requires root { IsFirst (P.rules space.now) root.now }
    requires ready { IsReady (P.rules space.now) limits.now tally.now work.old }
    ensures ready { IsReady (P.rules space.now) limits.now tally.now work.new }
    ensures same { IsSamePlace work.old work.new }
{
    for _ in rt.forever() {
        if is_over(tally, limits, &mut work.tally) {
            return;
        }
        match next_job(work) {
            Some(job) => {
                gate.at(worker, job);
                run_job(alloc, rt, space, limits, book, tally, root, work, job);
            }
            None => thread::yield_now(),
        }
    }
}
