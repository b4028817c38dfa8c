// The calls of a stratified event queue (IEEE 1364-2005, 11.3).

ghost use Rattle.std.specs.Prelude.{◌≡◌, ◌<◌, ◌-◌, length, slice_get, Some, None, IfOk, OnOk, OnErr};
ghost use Rattle.std.specs.Option.{ForSome};
ghost use Rattle.vmodel.specs.Choices.{IsWithin};
ghost use Rattle.vmodel.specs.Queue as model;
ghost use Rattle.vmodel.specs.Run.{opening_queue};
ghost use Rattle.vmodel.specs.Same.{queue_same};
ghost use Rattle.vmodel.specs.Step.{deactivate, with_delay, posts_after, with_strobe, with_queue_moves, with_advance};
ghost use Rattle.vstrata.specs.Strata.{slot_choices, IsTaken, IsNumbered, without_taken, with_active, with_last, slot_monitors, monitors_of};
ghost use Rattle.vstrata.specs.Times.{first_time};

use crate::settled::Settled;
use crate::taken::Taken;
use basis::NoMemory;
use sched_core::setting::Grain;
use std::alloc::Global;
use std::hash::Hash;
use vmodel::choice::Choice;
use vmodel::part::Parts;
use vmodel::process_set::ProcessSet;

/// A stratified event queue: the regions of the current time, and the future within the time limit. A clause sees it as the record
/// `Queue` of `vmodel`. Processes go by numbers below 256. `copy`, `later`, `hold`, `post_update` and `post_monitor` may run out of memory
/// (E901), and then the queue is as it was; no other call fails. Equal queues hold the same, and answer alike. A hash is fed one number
/// made of the time, the last process and what the regions and the future hold; the grain, the limit and `beyond` aren't in it.
pub trait Strata: Eq + Hash + Drop {
    ghost queue: { Self → model.Queue };

    /// Time 0, with these processes active and nothing else.
    fn new(alloc: Global, grain: Grain, until: u64, processes: ProcessSet) -> Self
        ensures { queue result ≡ opening_queue processes until grain };

    /// A queue that holds the same. The error is want of memory, E901.
    fn copy(&self) -> Result<Self, NoMemory>
        ensures { IfOk result (λ copied. queue copied ≡ queue self.now) };

    /// The process is active, as the one that made the last step.
    fn activate(&mut self, process: u32)
        requires { process < 256 }
        ensures { queue self.new ≡ with_last process (queue self.old) };

    /// The process becomes active, or stays so.
    fn wake(&mut self, process: u32)
        requires { process < 256 }
        ensures { queue self.new ≡ with_active process (queue self.old) };

    /// The process isn't active any more, and no process goes on as the one that made the last step.
    fn leave(&mut self, process: u32)
        ensures { queue self.new ≡ deactivate process (queue self.old) };

    /// The process sleeps until a time: inactive where it is the current time or before, else in the future, or beyond the limit, where
    /// nothing is kept of it. The error is want of memory, E901.
    fn later(&mut self, at: u128, process: u32) -> Result<(), NoMemory>
        requires { process < 256 }
        ensures ok { OnOk result (queue self.new
            ≡ with_delay (at - (queue self.old).time) (Some process) (queue self.old)) }
        ensures err { OnErr result (queue self.new ≡ queue self.old) };

    /// A time after the current one becomes a future time, with nobody to wake, or is beyond the limit. The error is want of memory, E901.
    fn hold(&mut self, at: u128) -> Result<(), NoMemory>
        ensures ok { OnOk result (queue self.new
            ≡ with_delay (at - (queue self.old).time) None (queue self.old)) }
        ensures err { OnErr result (queue self.new ≡ queue self.old) };

    /// The update is posted behind those posted before for its time: the current one where it isn't later, else a future one, or beyond the
    /// limit, where nothing is kept of it. The error is want of memory, E901.
    fn post_update(&mut self, at: u128, update: Parts) -> Result<(), NoMemory>
        ensures ok { OnOk result (queue self.new
            ≡ posts_after (at - (queue self.old).time) update (queue self.old)) }
        ensures err { OnErr result (queue self.new ≡ queue self.old) };

    /// A monitor event, by the place of its action, stands behind those created before. The error is want of memory, E901.
    fn post_monitor(&mut self, place: usize) -> Result<(), NoMemory>
        ensures ok { OnOk result (queue self.new ≡ with_strobe (Some place) (queue self.old)) }
        ensures err { OnErr result (queue self.new ≡ queue self.old) };

    /// How many choices the current time has: 0 wherever nothing is active, so also before `settle`. It takes no memory.
    fn choices(&self) -> u32
        ensures { result ≡ length (slot_choices (queue self.now)) };

    /// What the choice of this number is, if there is one. A process that is told may be handed back. It takes no memory.
    fn peek(&self, i: u32) -> Option<Choice>
        ensures exact { result ≡ slice_get (slot_choices (queue self.now)) i }
        ensures few { ForSome result IsWithin };

    /// Takes the choice of this number: the process isn't active any more, and may be handed back, or the first activated update is taken
    /// out. It takes no memory.
    fn take(&mut self, i: u32) -> Taken
        requires { i < length (slot_choices (queue self.old)) }
        ensures taken { IsTaken (queue self.old) i result }
        ensures goes { queue self.new ≡ without_taken result (queue self.old) }
        ensures few { IsNumbered result };

    /// The region moves: while something is active it stays; else what is inactive becomes active; else what is posted is activated; else
    /// the slot has ended, and its monitor events are handed out. It takes no memory.
    fn settle(&mut self) -> Settled
        ensures moves { queue self.new ≡ with_queue_moves (queue self.old) }
        ensures monitors { monitors_of result ≡ slot_monitors (queue self.old) };

    /// The time goes on to the next future time, if there is one, which is answered: its processes are active and its updates posted, in the
    /// place of what was active and posted before. So it is for a slot end. It takes no memory.
    fn advance(&mut self) -> Option<u64>
        ensures time { result ≡ first_time (queue self.old).future }
        ensures goes { queue self.new ≡ with_advance (queue self.old).future (queue self.old) };

    /// The next future time within the limit, if there is one. It takes no memory.
    fn next_time(&self) -> Option<u64>
        ensures { result ≡ first_time (queue self.now).future };

    /// Whether something is past the limit. It takes no memory.
    fn beyond(&self) -> bool
        ensures { result ≡ (queue self.now).beyond };

    ghost same_is_eq: { (q r : Self) → Self.eq q r ≡ queue_same (queue q) (queue r) };
}
