// What becomes of a process by its step, and of what it posts, by delays (IEEE 1364-2005, 11.3, 11.4), and region moves that hand their
// monitor events to a list that is there.

ghost use Rattle.std.specs.Prelude.{◌≡◌, ◌<◌, OnOk, OnErr};
ghost use Rattle.std.specs.Option.{ForSome};
ghost use Rattle.vmodel.specs.Inner.{time_after as time_after_of};
ghost use Rattle.vmodel.specs.Queue.{slot_with_sleeper, slot_with_update, later};
ghost use Rattle.vmodel.specs.Step.{with_next_step, with_delay, reschedule, posts_after, with_queue_moves, monitors_in};

use crate::future_times::FutureTimes;
use crate::regions::Regions;
use crate::strata::Strata;
use basis::NoMemory;
use std::mem;
use vmodel::effect::Disposition;
use vmodel::part::Parts;

impl<F: FutureTimes> Regions<F> {
    // The time after a delay, within the limit.
    fn time_after(&self, delay: u128) -> Option<u64>
        ensures { result ≡ time_after_of delay self.now }
    {
        let time = self.times.time();
        if self.until < time || delay > u128::from(self.until - time) {
            return None;
        }
        Some(time + delay as u64)
    }

    // One more process to wake after a delay above 0, or nobody; past the limit nothing is kept but that something is there.
    fn wake_after(&mut self, delay: u128, sleeper: Option<u32>) -> Result<(), NoMemory>
        requires some { 0 < delay }
        requires process { ForSome sleeper (λ p. p < 256) }
        ensures ok { OnOk result (self.new ≡ later delay (slot_with_sleeper sleeper) self.old) }
        ensures err { OnErr result (self.new ≡ self.old) }
    {
        let Some(time) = self.time_after(delay) else {
            self.beyond = true;
            return Ok(());
        };
        self.times.wake_at(time, sleeper)
    }

    // One more update after a delay above 0; past the limit nothing is kept but that something is there.
    fn post_after(&mut self, delay: u128, update: Parts) -> Result<(), NoMemory>
        requires { 0 < delay }
        ensures ok { OnOk result (self.new ≡ later delay (slot_with_update update) self.old) }
        ensures err { OnErr result (self.new ≡ self.old) }
    {
        let Some(time) = self.time_after(delay) else {
            self.beyond = true;
            return Ok(());
        };
        self.times.post_at(time, update)
    }

    /// The process sleeps so long, in units of the precision: it is inactive after a delay of 0, else in the future or beyond the limit.
    /// Where there is none, only the time becomes a future one. The error is want of memory, E901, and leaves the queue as it was.
    pub fn sleep(&mut self, delay: u128, sleeper: Option<u32>) -> Result<(), NoMemory>
        requires { ForSome sleeper (λ p. p < 256) }
        ensures ok { OnOk result (self.new ≡ with_delay delay sleeper self.old) }
        ensures err { OnErr result (self.new ≡ self.old) }
    {
        if delay > 0 {
            return self.wake_after(delay, sleeper);
        }
        if let Some(process) = sleeper {
            self.inactive.insert(process);
        }
        Ok(())
    }

    /// The update is posted for so much later, in units of the precision, behind the others of its time. The error is want of memory,
    /// E901, and leaves the queue as it was.
    pub fn post(&mut self, delay: u128, update: Parts) -> Result<(), NoMemory>
        ensures ok { OnOk result (self.new ≡ posts_after delay update self.old) }
        ensures err { OnErr result (self.new ≡ self.old) }
    {
        if delay > 0 {
            return self.post_after(delay, update);
        }
        self.posted.push_back(update)?;
        Ok(())
    }

    /// The process goes on as the one that made the last step, or has ended, where nothing is left of it.
    pub fn go_on(&mut self, process: u32, goes: Option<u32>)
        requires { ForSome goes (λ p. p < 256) }
        ensures { self.new ≡ with_next_step process goes self.old }
    {
        match goes {
            None => self.leave(process),
            Some(same) => self.last = Some(same),
        }
    }

    /// What becomes of a process by its step. The error is want of memory, E901, and leaves the queue as it was.
    pub fn reschedule(
        &mut self,
        process: u32,
        disposition: Disposition,
        goes: Option<u32>,
    ) -> Result<(), NoMemory>
        requires { ForSome goes (λ p. p < 256) }
        ensures ok { OnOk result (self.new ≡ reschedule process disposition goes self.old) }
        ensures err { OnErr result (self.new ≡ self.old) }
    {
        match disposition {
            Disposition::Runnable => self.go_on(process, goes),
            Disposition::Delayed(delay) => {
                self.sleep(delay, goes)?;
                self.leave(process);
            }
            Disposition::Waiting(_) => self.leave(process),
        }
        Ok(())
    }

    /// The region moves, as `settle` has it. The list is then that of the monitor events that run, in order of creation, and else empty;
    /// its room is used again. It takes no memory.
    pub fn settle_into(&mut self, monitors: &mut Vec<usize>)
        ensures queue { self.new ≡ with_queue_moves self.old }
        ensures monitors { monitors.new.items ≡ monitors_in self.old }
    {
        monitors.clear();
        if !self.active.is_empty() || !self.activated.is_empty() {
            return;
        }
        if !self.inactive.is_empty() {
            mem::swap(&mut self.active, &mut self.inactive);
        } else if !self.posted.is_empty() {
            mem::swap(&mut self.activated, &mut self.posted);
        } else {
            mem::swap(&mut self.strobes, monitors);
        }
    }
}
