// What is read of a queue, beside the calls of every queue: what stands in its regions, and what the choices are among some processes.

ghost use Rattle.std.specs.Prelude.{◌≡◌, ◌==◌, ◌&&◌, ◌<◌, ◌≤◌, not, length, slice_get};
ghost use Rattle.std.specs.Option.{ForSome};
ghost use Rattle.vmodel.specs.Choices.{active_choices, IsWithin};

use crate::future_times::FutureTimes;
use crate::offers::{choice_at, choice_count};
use crate::regions::Regions;
use sched_core::setting::Grain;
use vmodel::choice::Choice;
use vmodel::process_set::ProcessSet;

impl<F: FutureTimes> Regions<F> {
    /// The current time, in units of the precision.
    pub fn time(&self) -> u64
        ensures { result ≡ self.now.time }
    {
        self.times.time()
    }

    /// How finely processes interleave.
    pub fn grain(&self) -> Grain
        ensures { result ≡ self.now.grain }
    {
        self.grain
    }

    /// The process that made the last step, if it may go on as that one.
    pub fn last(&self) -> Option<u32>
        ensures exact { result ≡ self.now.last }
        ensures few { ForSome result (λ p. p < 256) }
    {
        self.last
    }

    /// The active processes.
    pub fn active(&self) -> &ProcessSet
        ensures { result.now ≡ self.now.active }
    {
        &self.active
    }

    /// Whether an update is active.
    pub fn has_update(&self) -> bool
        ensures { (length self.now.activated == 0) ≡ not result }
    {
        !self.activated.is_empty()
    }

    /// Whether nothing is active, no process and no update.
    pub fn is_idle(&self) -> bool
        ensures { result ≡ ((length self.now.active == 0) && (length self.now.activated == 0)) }
    {
        self.active.is_empty() && self.activated.is_empty()
    }

    /// Whether no monitor event waits for the end of the slot (17.1.2).
    pub fn has_no_strobe(&self) -> bool
        ensures { result ≡ (length self.now.strobes == 0) }
    {
        self.strobes.is_empty()
    }

    /// How many choices there would be if these processes were the active ones.
    pub fn count_among(&self, active: &ProcessSet) -> u32
        ensures exact { result ≡ length (active_choices (record self.now { active = active.now })) }
        ensures few { result ≤ 258 }
    {
        choice_count(self.last, active, &self.activated)
    }

    /// Choice `i` of these, if there is one.
    pub fn choice_among(&self, active: &ProcessSet, i: u32) -> Option<Choice>
        ensures exact { result ≡ slice_get (active_choices (record self.now { active = active.now })) i }
        ensures few { ForSome result IsWithin }
    {
        choice_at(self.last, active, &self.activated, i)
    }
}
