// The regions of the current time (IEEE 1364-2005, 11.3), and how processes and updates go from one to another.

ghost use Rattle.std.specs.Prelude.{◌≡◌, ◌<◌, ◌==◌, ◌&&◌, OnOk, OnErr, IfOk, length, slice_get, Some};
ghost use Rattle.std.specs.Option.{ForSome};
ghost use Rattle.vmodel.specs.Queue.{slot_with_sleeper, slot_with_update, later};
ghost use Rattle.vmodel.specs.Inner.{time_after as time_after_of};
ghost use Rattle.vmodel.specs.Step.{deactivate, with_next_step, with_delay, reschedule, posts as posts_update, with_strobe, with_queue_moves, monitors_in, without_update, with_advance};

use crate::future::{copy_future, post_at, wake_at};
use crate::queue::{Future, Queue, copy_updates};
use basis::NoMemory;
use std::alloc::Global;
use std::mem;
use vmodel::effect::{Disposition, Effect, Form, Post};
use vmodel::part::Parts;

impl Queue {
    // The time after a delay, within the limit.
    fn time_after(&self, delay: u128) -> Option<u64>
        ensures { result ≡ time_after_of delay self.now }
    {
        if self.until < self.time || delay > u128::from(self.until - self.time) {
            return None;
        }
        Some(self.time + delay as u64)
    }

    /// One more process to wake after a delay above 0; past the limit nothing is kept but that something is there.
    fn wake_after(&mut self, delay: u128, sleeper: Option<u32>) -> Result<(), NoMemory>
        requires { ForSome sleeper (λ p. p < 256) }
        ensures ok { OnOk result (self.new ≡ later delay (slot_with_sleeper sleeper) self.old) }
        ensures err { OnErr result (self.new ≡ self.old) }
    {
        let Some(time) = self.time_after(delay) else {
            self.beyond = true;
            return Ok(());
        };
        wake_at(&mut self.future, time, sleeper)
    }

    /// One more update after a delay above 0; past the limit nothing is kept but that something is there.
    fn post_after(&mut self, delay: u128, parts: Parts) -> Result<(), NoMemory>
        ensures ok { OnOk result (self.new ≡ later delay (slot_with_update parts) self.old) }
        ensures err { OnErr result (self.new ≡ self.old) }
    {
        let Some(time) = self.time_after(delay) else {
            self.beyond = true;
            return Ok(());
        };
        post_at(&mut self.future, time, parts)
    }

    /// The process isn't active any more.
    fn leave(&mut self, process: u32)
        ensures { self.new ≡ deactivate process self.old }
    {
        self.last = None;
        self.active.remove(process);
    }

    /// The process goes on as the one that made the last step, or has ended, where nothing is left of it.
    fn go_on(&mut self, process: u32, goes: Option<u32>)
        requires { ForSome goes (λ p. p < 256) }
        ensures { self.new ≡ with_next_step process goes self.old }
    {
        match goes {
            None => self.leave(process),
            Some(same) => self.last = Some(same),
        }
    }

    /// The process sleeps: inactive after a delay of 0, else in the future.
    fn sleep(&mut self, delay: u128, sleeper: Option<u32>) -> Result<(), NoMemory>
        requires { ForSome sleeper (λ p. p < 256) }
        ensures ok { OnOk result (self.new ≡ with_delay delay sleeper self.old) }
        ensures err { OnErr result (self.new ≡ self.old) }
    {
        if delay > 0 {
            return self.wake_after(delay, sleeper);
        }
        if let Some(process) = sleeper {
            self.inactive.insert(process);
        }
        Ok(())
    }

    /// What becomes of a process by its step. After want of memory the queue is as it was.
    fn reschedule(
        &mut self,
        process: u32,
        disposition: Disposition,
        goes: Option<u32>,
    ) -> Result<(), NoMemory>
        requires { ForSome goes (λ p. p < 256) }
        ensures ok { OnOk result (self.new ≡ reschedule process disposition goes self.old) }
        ensures err { OnErr result (self.new ≡ self.old) }
    {
        match disposition {
            Disposition::Runnable => self.go_on(process, goes),
            Disposition::Delayed(delay) => {
                self.sleep(delay, goes)?;
                self.leave(process);
            }
            Disposition::Waiting(_) => self.leave(process),
        }
        Ok(())
    }

    /// The update is posted after the others of its time. After want of memory the queue is as it was.
    fn post(&mut self, post: &Post) -> Result<(), NoMemory>
        ensures ok { OnOk result (self.new ≡ posts_update (Some post.now) self.old) }
        ensures err { OnErr result (self.new ≡ self.old) }
    {
        let parts = post.parts.copy()?;
        if post.after > 0 {
            return self.post_after(post.after, parts);
        }
        self.posted.push_back(parts)?;
        Ok(())
    }

    // A monitor event stands behind those created before. After want of memory the queue is as it was.
    fn strobe(&mut self, place: usize) -> Result<(), NoMemory>
        ensures ok { OnOk result (self.new ≡ with_strobe (Some place) self.old) }
        ensures err { OnErr result (self.new ≡ self.old) }
    {
        self.strobes.push(place)?;
        Ok(())
    }

    /// What becomes of a process, of what its step posted and of the monitor event that it created. After want of memory the queue is
    /// as it was.
    pub(crate) fn move_by(
        &mut self,
        process: u32,
        effect: &Effect,
        goes: Option<u32>,
    ) -> Result<(), NoMemory>
        requires { ForSome goes (λ p. p < 256) }
        ensures ok { OnOk result (self.new ≡ reschedule process effect.now.disposition goes
            (posts_update effect.now.posted (with_strobe effect.now.strobed self.old))) }
        ensures err { OnErr result (self.new ≡ self.old) }
    {
        match &effect.form {
            Form::Nothing => self.go_on(process, goes),
            Form::Write(_) => self.go_on(process, goes),
            Form::Drive(_, _) => self.leave(process),
            Form::Post(post) => {
                self.post(post)?;
                self.go_on(process, goes);
            }
            Form::Trigger(_) => self.go_on(process, goes),
            Form::Suspend(disposition) => self.reschedule(process, *disposition, goes)?,
            Form::Hold(_, delay) => self.reschedule(process, Disposition::Delayed(*delay), goes)?,
            Form::Show(_) => self.go_on(process, goes),
            Form::Strobe(place) => {
                self.strobe(*place)?;
                self.go_on(process, goes);
            }
            Form::End(_) => self.go_on(process, goes),
        }
        Ok(())
    }

    /// The region moves (11.4): while something is active it stays, else what is inactive becomes active, else what is
    /// posted is activated, else the slot has ended. The list is then that of the monitor events that run, in order of creation, and
    /// else empty.
    pub(crate) fn settle(&mut self, monitors: &mut Vec<usize>)
        ensures queue { self.new ≡ with_queue_moves self.old }
        ensures monitors { monitors.new.items ≡ monitors_in self.old }
    {
        monitors.clear();
        if !self.active.is_empty() || !self.activated.is_empty() {
            return;
        }
        if !self.inactive.is_empty() {
            mem::swap(&mut self.active, &mut self.inactive);
        } else if !self.posted.is_empty() {
            mem::swap(&mut self.activated, &mut self.posted);
        } else {
            mem::swap(&mut self.strobes, monitors);
        }
    }

    /// Takes the first activated update out, if there is one.
    pub(crate) fn take_update(&mut self) -> Option<Parts>
        ensures taken { result ≡ slice_get self.old.activated 0 }
        ensures goes { self.new ≡ without_update self.old.activated self.old }
    {
        match self.activated.pop_front() {
            None => None,
            Some(update) => {
                self.last = None;
                Some(update)
            }
        }
    }

    /// The time goes on to the next future time, if there is one.
    pub(crate) fn advance(&mut self)
        ensures { self.new ≡ with_advance self.old.future self.old }
    {
        if self.future.is_empty() {
            return;
        }
        let Future {
            time,
            processes,
            updates,
        } = self.future.remove(0);
        self.time = time;
        self.last = None;
        self.active = processes;
        self.posted = updates;
    }

    /// Whether no monitor event waits for the end of the slot (17.1.2).
    pub(crate) fn has_no_strobe(&self) -> bool
        ensures { result ≡ (length self.now.strobes == 0) }
    {
        self.strobes.is_empty()
    }

    /// Whether nothing is active: a slot end, where the run goes on.
    pub(crate) fn is_idle(&self) -> bool
        ensures { result ≡ ((length self.now.active == 0) && (length self.now.activated == 0)) }
    {
        self.active.is_empty() && self.activated.is_empty()
    }

    /// A queue that holds the same.
    pub(crate) fn copy(&self, alloc: Global) -> Result<Queue, NoMemory>
        ensures { IfOk result (λ queue. queue ≡ self.now) }
    {
        Ok(Queue {
            grain: self.grain,
            until: self.until,
            time: self.time,
            last: self.last,
            active: self.active.copy(),
            inactive: self.inactive.copy(),
            activated: copy_updates(alloc, &self.activated)?,
            posted: copy_updates(alloc, &self.posted)?,
            strobes: Vec::from_slice(alloc, &self.strobes)?,
            future: copy_future(alloc, &self.future)?,
            beyond: self.beyond,
        })
    }
}
