// The state of a run (IEEE 1364-2005, 11.1, 11.3), as the plain step works on it.

ghost use Rattle.std.specs.Prelude.{◌≡◌, length, slice_get, IfOk, IfSome, option_map};
ghost use Rattle.std.specs.Option.{ForSome};
ghost use Rattle.vmodel.specs.Choices.{choices as choices_of, IsWithin};
ghost use Rattle.vmodel.specs.Holding.{held_by_choice};
ghost use Rattle.vmodel.specs.Run.{end_of, is_mark, held_at_first, printed_at_first};
ghost use Rattle.vmodel.specs.Touched.{is_slot_end};

use crate::printed::copy_printed;
use crate::process::Process;
use crate::queue::Queue;
use crate::{choices, holding};
use basis::NoMemory;
use sched_core::bag::Bag;
use sched_core::end::{Cause, End};
use sched_core::setting::{Departures, Looked};
use std::alloc::Global;
use std::marker::Model;
use vbits::Vec4;
use vmodel::choice::Choice;
use vmodel::process_set::ProcessSet;
use vmodel::values::Values;

/// A state: the values of the variables, what each process stands at, the queue, and why the run ended if `$finish` or `$stop`
/// was taken; and what is held back and the lines of the slot, where the setting asks for these. Statements go by their places in the design's table. A clause sees it as the record `State` of
/// specs/State.antt.
pub struct State {
    pub(crate) values: Values,
    pub(crate) processes: Vec<Process>,
    pub(crate) queue: Queue,
    pub(crate) cause: Option<Cause>,
    pub(crate) held_back: Option<ProcessSet>,
    pub(crate) printed: Option<Bag>,
}

impl Drop for State {
    fn drop(self) {
        let State {
            values: _,
            processes: _,
            queue: _,
            cause: _,
            held_back: _,
            printed: _,
        } = self;
    }
}

impl Model for State {
    ghost use Rattle.vmodel.specs.State as state;

    ghost Value = { state.State };

    ghost use Rattle.std.specs.Prelude.{◌≤◌, length};

    ghost view = { λ s. record {
      values = s.values;
      processes = s.processes.items;
      queue = s.queue;
      cause = s.cause;
      held_back = s.held_back;
      printed = s.printed;
    } };

    ghost invariant = { λ s. length s.processes.items ≤ 256 };
}

/// Two are equal where they hold the same.
impl PartialEq for State {
    ghost use Rattle.std.specs.Cmp.{partial_equiv_from_equiv};
    ghost use Rattle.vmodel.specs.Same.{state_same};
    ghost use Rattle.vmodel.specs.SameLaws.{states_equivalent};

    ghost eq = { state_same };

    ghost laws = { partial_equiv_from_equiv states_equivalent };

    fn eq(&self, other: &State) -> bool {
        // What differs most often first: states of one digest mostly have other queues, and processes are long to compare.
        let held = (
            &self.values,
            &self.queue,
            &self.held_back,
            &self.printed,
            &self.processes,
            &self.cause,
        );
        held == (
            &other.values,
            &other.queue,
            &other.held_back,
            &other.printed,
            &other.processes,
            &other.cause,
        )
    }
}

impl Eq for State {
    ghost use Rattle.vmodel.specs.SameLaws.{states_equivalent};

    ghost laws = { states_equivalent };
}

impl State {
    /// A state that is the same.
    pub fn copy(&self, alloc: Global) -> Result<State, NoMemory>
        ensures { IfOk result (λ state. state ≡ self.now) }
    {
        Ok(State {
            values: self.values.copy(alloc)?,
            processes: copy_processes(alloc, &self.processes)?,
            queue: self.queue.copy(alloc)?,
            cause: self.cause,
            held_back: copy_held(&self.held_back),
            printed: copy_printed(alloc, &self.printed)?,
        })
    }

    /// How many choices the state has: 0 where the run has ended (11.4.1, 11.4.2).
    pub fn width(&self) -> u32
        ensures { result ≡ length (choices_of self.now) }
    {
        if self.cause.is_some() {
            0
        } else {
            choices::width_by(&self.held_back, &self.queue)
        }
    }

    /// What choice `i` is, if there is one. Nothing changes.
    pub fn choice(&self, i: u32) -> Option<Choice>
        ensures exact { result ≡ slice_get (choices_of self.now) i }
        ensures few { ForSome result IsWithin }
    {
        if self.cause.is_some() {
            None
        } else {
            choices::choice_by(&self.held_back, &self.queue, i)
        }
    }

    /// The processes that choice `i` holds back: none where it only takes.
    pub fn holding(&self, i: u32) -> ProcessSet
        ensures { result ≡ held_by_choice self.now.held_back self.now.queue i }
    {
        holding::held_by_choice(&self.held_back, &self.queue, i)
    }

    /// The lines of the slot so far, where lines are looked at.
    pub fn printed(&self) -> Option<&Bag>
        ensures { option_map (λ bag. bag.now) result ≡ self.now.printed }
    {
        self.printed.as_ref()
    }

    /// An opening state becomes that of a setting with such departures, in which so much is looked at.
    pub fn look(&mut self, departures: Departures, looked: Looked)
        ensures { self.new ≡ record self.old { held_back = held_at_first departures; printed = printed_at_first looked } }
    {
        let alloc = *self.processes.allocator();
        self.held_back = held_first(departures);
        self.printed = printed_first(alloc, looked);
    }

    /// Whether a slot has ended here, or the run.
    pub fn is_mark(&self) -> bool
        ensures { result ≡ is_mark self.now }
    {
        self.cause.is_some() || self.queue.is_idle()
    }

    /// Whether a slot has ended here, and the run goes on.
    pub fn is_slot_end(&self) -> bool
        ensures { result ≡ is_slot_end self.now }
    {
        self.cause.is_none() && self.queue.is_idle()
    }

    /// The time, in units of the precision.
    pub fn time(&self) -> u64
        ensures { result ≡ self.now.queue.time }
    {
        self.queue.time
    }

    /// The value of each variable, by its number.
    pub fn values(&self) -> &[Vec4]
        ensures { result.now ≡ self.now.values }
    {
        self.values.as_slice()
    }

    /// Why the run ended, where `$finish` or `$stop` was taken (17.4).
    pub fn cause(&self) -> Option<Cause>
        ensures { result ≡ self.now.cause }
    {
        self.cause
    }

    /// The end of a run that ends here: its time, and why.
    pub fn end(&self) -> End
        ensures { result ≡ end_of self.now }
    {
        let cause = match self.cause {
            Some(cause) => cause,
            None => {
                if self.queue.beyond {
                    Cause::Limit
                } else {
                    Cause::Quiet
                }
            }
        };
        End {
            time: self.queue.time,
            cause,
        }
    }
}

// What is held back at first.
fn held_first(departures: Departures) -> Option<ProcessSet>
    ensures { result ≡ held_at_first departures }
{
    match departures {
        Departures::Taking => None,
        Departures::Holding => Some(ProcessSet::new()),
    }
}

// What is printed at first.
fn printed_first(alloc: Global, looked: Looked) -> Option<Bag>
    ensures { result ≡ printed_at_first looked }
{
    match looked {
        Looked::Values => None,
        Looked::Lines => Some(Bag::new(alloc)),
    }
}

fn copy_held(held_back: &Option<ProcessSet>) -> Option<ProcessSet>
    ensures { result ≡ held_back.now }
{
    match held_back {
        None => None,
        Some(held) => Some(held.copy()),
    }
}

fn copy_processes(alloc: Global, processes: &[Process]) -> Result<Vec<Process>, NoMemory>
    ensures { IfOk result (λ copied. copied.items ≡ processes.now) }
{
    let mut copied = Vec::new(alloc);
    copied.reserve(processes.len())?;
    for process in processes {
        copied.push(process.copy(alloc)?)?;
    }
    Ok(copied)
}
