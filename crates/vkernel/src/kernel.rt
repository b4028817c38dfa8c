// All of a state of a run but its processes (IEEE 1364-2005, 11.1, 11.3).

ghost use Rattle.std.specs.Prelude.{◌≡◌, ◌==◌, length, slice_get, IfOk, option_map};
ghost use Rattle.std.specs.Option.{ForSome};
ghost use Rattle.vmodel.specs.Choices.{choices as choices_of, IsWithin};
ghost use Rattle.vmodel.specs.Run.{end_of, is_mark};
ghost use Rattle.vmodel.specs.Step.{environment_of};
ghost use Rattle.vmodel.specs.Touched.{is_slot_end};

use crate::choices;
use crate::printed::copy_printed;
use crate::values::Store;
use basis::NoMemory;
use sched_core::bag::Bag;
use sched_core::end::{Cause, End};
use std::alloc::Global;
use std::marker::Model;
use vbits::Vec4;
use vdesign::design::Design;
use vmodel::choice::Choice;
use vmodel::environment_at;
use vmodel::process_set::ProcessSet;
use vstrata::{RingStrata, Strata};
use vvalue::environment::Environment;

/// All of a state of a run but its processes: the values of the variables, the event queue, why the run ended, and, where the setting asks
/// for these, what is held back and the lines of the slot. A clause sees it as the record `State` of vmodel, without processes.
pub struct Kernel {
    pub(crate) values: Store,
    pub(crate) queue: RingStrata,
    pub(crate) cause: Option<Cause>,
    pub(crate) held_back: Option<ProcessSet>,
    pub(crate) printed: Option<Bag>,
}

impl Drop for Kernel {
    fn drop(self) {
        let Kernel {
            values: _,
            queue: _,
            cause: _,
            held_back: _,
            printed: _,
        } = self;
    }
}

impl Model for Kernel {
    ghost use Rattle.std.specs.Prelude.{[]};
    ghost use Rattle.vmodel.specs.State as state;

    ghost Value = { state.State };

    ghost view = { λ k. record {
      values = k.values;
      processes = [];
      queue = k.queue;
      cause = k.cause;
      held_back = k.held_back;
      printed = k.printed;
    } };
}

/// Two are equal where they hold the same.
impl PartialEq for Kernel {
    ghost use Rattle.std.specs.Cmp.{partial_equiv_from_equiv};
    ghost use Rattle.vmodel.specs.Same.{state_same};
    ghost use Rattle.vmodel.specs.SameLaws.{states_equivalent};

    ghost eq = { state_same };

    ghost laws = { partial_equiv_from_equiv states_equivalent };

    fn eq(&self, other: &Kernel) -> bool {
        // What differs most often first.
        let held = (
            &self.values,
            &self.queue,
            &self.held_back,
            &self.printed,
            &self.cause,
        );
        held == (
            &other.values,
            &other.queue,
            &other.held_back,
            &other.printed,
            &other.cause,
        )
    }
}

impl Eq for Kernel {
    ghost use Rattle.vmodel.specs.SameLaws.{states_equivalent};

    ghost laws = { states_equivalent };
}

impl Kernel {
    /// One that is the same. The error is want of memory, E901.
    pub fn copy(&self, alloc: Global) -> Result<Kernel, NoMemory>
        ensures { IfOk result (λ kernel. kernel ≡ self.now) }
    {
        Ok(Kernel {
            values: self.values.copy(alloc)?,
            queue: self.queue.copy()?,
            cause: self.cause,
            held_back: copy_held(&self.held_back),
            printed: copy_printed(alloc, &self.printed)?,
        })
    }

    /// Lists of updates give back their room, where it is for more than four that aren't there; what the kernel holds is as it was.
    pub fn shrink_to_fit(&mut self)
        ensures { self.new ≡ self.old }
    {
        self.queue.shrink_to_fit();
    }

    /// How many choices there are: 0 where the run has ended (11.4.1, 11.4.2).
    pub fn width(&self) -> u32
        ensures { result ≡ length (choices_of self.now) }
    {
        if self.cause.is_some() {
            0
        } else {
            choices::width_by(&self.held_back, &self.queue)
        }
    }

    /// What choice `i` is, if there is one. Nothing changes.
    pub fn choice(&self, i: u32) -> Option<Choice>
        ensures exact { result ≡ slice_get (choices_of self.now) i }
        ensures few { ForSome result IsWithin }
    {
        if self.cause.is_some() {
            None
        } else {
            choices::choice_by(&self.held_back, &self.queue, i)
        }
    }

    /// The processes that are held back, where departures may hold back.
    pub fn held_back(&self) -> Option<&ProcessSet>
        ensures { option_map (λ held. held.now) result ≡ self.now.held_back }
    {
        self.held_back.as_ref()
    }

    /// The lines of the slot so far, where lines are looked at.
    pub fn printed(&self) -> Option<&Bag>
        ensures { option_map (λ bag. bag.now) result ≡ self.now.printed }
    {
        self.printed.as_ref()
    }

    /// Whether a slot has ended here, or the run.
    pub fn is_mark(&self) -> bool
        ensures { result ≡ is_mark self.now }
    {
        self.cause.is_some() || self.queue.is_idle()
    }

    /// Whether a slot has ended here, and the run goes on.
    pub fn is_slot_end(&self) -> bool
        ensures { result ≡ is_slot_end self.now }
    {
        self.cause.is_none() && self.queue.is_idle()
    }

    /// Whether no monitor event waits.
    pub fn has_no_strobe(&self) -> bool
        ensures { result ≡ (length self.now.queue.strobes == 0) }
    {
        self.queue.has_no_strobe()
    }

    /// The time, in units of the precision.
    pub fn time(&self) -> u64
        ensures { result ≡ self.now.queue.time }
    {
        self.queue.time()
    }

    /// The value of each variable, by its number.
    pub fn values(&self) -> &[Vec4]
        ensures { result.now ≡ self.now.values }
    {
        self.values.as_slice()
    }

    /// Why the run ended, where `$finish` or `$stop` was taken (17.4).
    pub fn cause(&self) -> Option<Cause>
        ensures { result ≡ self.now.cause }
    {
        self.cause
    }

    /// The end of a run that ends here: its time, in units of the precision, and why.
    pub fn end(&self) -> End
        ensures { result ≡ end_of self.now }
    {
        let cause = match self.cause {
            Some(cause) => cause,
            None => {
                if self.queue.beyond() {
                    Cause::Limit
                } else {
                    Cause::Quiet
                }
            }
        };
        End {
            time: self.queue.time(),
            cause,
        }
    }

    /// What expressions read in this state: the values, the time, and how the variables are declared.
    pub fn environment<'m>(&'m self, design: &'m Design) -> Environment<'m>
        ensures { result ≡ environment_of design.now self.now }
    {
        environment_at(design, self.values.as_slice(), self.queue.time())
    }
}

fn copy_held(held_back: &Option<ProcessSet>) -> Option<ProcessSet>
    ensures { result ≡ held_back.now }
{
    match held_back {
        None => None,
        Some(held) => Some(held.copy()),
    }
}
