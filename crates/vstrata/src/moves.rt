// How processes and updates go from one region to another (IEEE 1364-2005, 11.3, 11.4).

ghost use Rattle.std.specs.Prelude.{◌≡◌, ◌<◌, ◌-◌, length, slice_get, Some, OnOk, OnErr};
ghost use Rattle.std.specs.Option.{ForSome};
ghost use Rattle.vmodel.specs.Choices.{IsWithin};
ghost use Rattle.vmodel.specs.Step.{deactivate, with_delay, posts_after, without_update};
ghost use Rattle.vstrata.specs.Strata.{slot_choices};

use crate::future_time::{FutureTime, copy_updates};
use crate::future_times::FutureTimes;
use crate::offers::{choice_at, choice_count, process_of};
use crate::regions::Regions;
use crate::settled::Settled;
use crate::strata::Strata;
use crate::taken::Taken;
use basis::NoMemory;
use sched_core::setting::Grain;
use std::alloc::Global;
use std::collections::VecDeque;
use std::mem;
use vmodel::choice::Choice;
use vmodel::part::Parts;
use vmodel::process_set::ProcessSet;

/// How many more updates a list may have room for than it has.
const SPARE: usize = 4;

// The list gives back its room, where it is for more than four that aren't there.
fn shrink(updates: &mut VecDeque<Parts>)
    ensures { updates.new.items ≡ updates.old.items }
{
    if updates.capacity() > updates.len().saturating_add(SPARE) {
        updates.shrink_to_fit();
    }
}

impl<F: FutureTimes> Regions<F> {
    // The process sleeps until a time, or nobody does and the time becomes a future one.
    fn sleep_until(&mut self, at: u128, sleeper: Option<u32>) -> Result<(), NoMemory>
        requires { ForSome sleeper (λ p. p < 256) }
        ensures ok { OnOk result (self.new ≡ with_delay (at - self.old.time) sleeper self.old) }
        ensures err { OnErr result (self.new ≡ self.old) }
    {
        if at > u128::from(self.times.time()) {
            return self.sleep_past(at, sleeper);
        }
        if let Some(process) = sleeper {
            self.inactive.insert(process);
        }
        Ok(())
    }

    // The same until a time after the current one.
    fn sleep_past(&mut self, at: u128, sleeper: Option<u32>) -> Result<(), NoMemory>
        requires after { self.old.time < at }
        requires process { ForSome sleeper (λ p. p < 256) }
        ensures ok { OnOk result (self.new ≡ with_delay (at - self.old.time) sleeper self.old) }
        ensures err { OnErr result (self.new ≡ self.old) }
    {
        if at > u128::from(self.until) {
            self.beyond = true;
            return Ok(());
        }
        self.times.wake_at(at as u64, sleeper)
    }

    // The update is posted for a time after the current one.
    fn post_past(&mut self, at: u128, update: Parts) -> Result<(), NoMemory>
        requires { self.old.time < at }
        ensures ok { OnOk result (self.new ≡ posts_after (at - self.old.time) update self.old) }
        ensures err { OnErr result (self.new ≡ self.old) }
    {
        if at > u128::from(self.until) {
            self.beyond = true;
            return Ok(());
        }
        self.times.post_at(at as u64, update)
    }

    // What the choice of this number is.
    fn choice(&self, i: u32) -> Option<Choice>
        ensures exact { result ≡ slice_get (slot_choices self.now) i }
        ensures few { ForSome result IsWithin }
    {
        if let (Grain::Process, Some(last)) = (self.grain, self.last) {
            return if i == 0 {
                Some(Choice::Run(last))
            } else {
                None
            };
        }
        choice_at(self.last, &self.active, &self.activated, i)
    }

    // The process isn't active any more.
    fn deactivate(&mut self, process: u32)
        ensures { self.new ≡ deactivate process self.old }
    {
        self.last = None;
        self.active.remove(process);
    }

    /// The first activated update, if there is one, which is taken out. It takes no memory.
    pub fn take_update(&mut self) -> Option<Parts>
        ensures taken { result ≡ slice_get self.old.activated 0 }
        ensures goes { self.new ≡ without_update self.old.activated self.old }
    {
        match self.activated.pop_front() {
            None => None,
            Some(update) => {
                self.last = None;
                Some(update)
            }
        }
    }

    /// Lists of updates give back their room, where it is for more than four that aren't there; what the queue holds is as it was.
    pub fn shrink_to_fit(&mut self)
        ensures { self.new ≡ self.old }
    {
        shrink(&mut self.activated);
        shrink(&mut self.posted);
    }

    // The first activated update, which is taken out.
    fn first_update(&mut self) -> Parts
        requires { 0 < length self.old.activated }
        ensures taken { slice_get self.old.activated 0 ≡ Some result }
        ensures goes { self.new ≡ without_update self.old.activated self.old }
    {
        match self.take_update() {
            Some(update) => update,
            None => unreachable!(),
        }
    }
}

impl<F: FutureTimes> Strata for Regions<F> {
    ghost use Rattle.std.specs.Prelude.{refl};

    ghost queue = { λ q. q };

    ghost same_is_eq = { λ q r. refl };

    fn new(alloc: Global, grain: Grain, until: u64, processes: ProcessSet) -> Regions<F> {
        Regions {
            grain,
            until,
            last: None,
            beyond: false,
            active: processes,
            inactive: ProcessSet::new(),
            activated: VecDeque::new(alloc),
            posted: VecDeque::new(alloc),
            strobes: Vec::new(alloc),
            times: F::new(alloc),
        }
    }

    fn copy(&self) -> Result<Regions<F>, NoMemory> {
        Ok(Regions {
            grain: self.grain,
            until: self.until,
            last: self.last,
            beyond: self.beyond,
            active: self.active.copy(),
            inactive: self.inactive.copy(),
            activated: copy_updates(&self.activated)?,
            posted: copy_updates(&self.posted)?,
            strobes: Vec::from_slice(*self.strobes.allocator(), &self.strobes)?,
            times: self.times.copy()?,
        })
    }

    fn activate(&mut self, process: u32) {
        self.last = Some(process);
        self.active.insert(process);
    }

    fn wake(&mut self, process: u32) {
        self.active.insert(process);
    }

    fn leave(&mut self, process: u32) {
        self.deactivate(process);
    }

    fn later(&mut self, at: u128, process: u32) -> Result<(), NoMemory> {
        self.sleep_until(at, Some(process))
    }

    fn hold(&mut self, at: u128) -> Result<(), NoMemory> {
        self.sleep_until(at, None)
    }

    fn post_update(&mut self, at: u128, update: Parts) -> Result<(), NoMemory> {
        if at > u128::from(self.times.time()) {
            return self.post_past(at, update);
        }
        self.posted.push_back(update)?;
        Ok(())
    }

    fn post_monitor(&mut self, place: usize) -> Result<(), NoMemory> {
        self.strobes.push(place)?;
        Ok(())
    }

    fn choices(&self) -> u32 {
        if let (Grain::Process, Some(_)) = (self.grain, self.last) {
            return 1;
        }
        choice_count(self.last, &self.active, &self.activated)
    }

    fn peek(&self, i: u32) -> Option<Choice> {
        self.choice(i)
    }

    fn take(&mut self, i: u32) -> Taken {
        match process_of(self.choice(i)) {
            Some(process) => {
                self.deactivate(process);
                Taken::Process(process)
            }
            None => Taken::Update(self.first_update()),
        }
    }

    fn settle(&mut self) -> Settled {
        if !self.active.is_empty() || !self.activated.is_empty() {
            return Settled::Active;
        }
        if !self.inactive.is_empty() {
            mem::swap(&mut self.active, &mut self.inactive);
            return Settled::Active;
        }
        if !self.posted.is_empty() {
            mem::swap(&mut self.activated, &mut self.posted);
            return Settled::Active;
        }
        let none = Vec::new(*self.strobes.allocator());
        Settled::SlotEnd(mem::replace(&mut self.strobes, none))
    }

    fn advance(&mut self) -> Option<u64> {
        let FutureTime {
            time,
            processes,
            updates,
        } = self.times.take_first()?;
        self.last = None;
        self.active = processes;
        self.posted = updates;
        Some(time)
    }

    fn next_time(&self) -> Option<u64> {
        self.times.first_time()
    }

    fn beyond(&self) -> bool {
        self.beyond
    }
}
