// A step in pieces, for who keeps processes: what becomes of all else (IEEE 1364-2005, 11.3, 11.4).

ghost use Rattle.std.specs.Prelude.{◌≡◌, ◌<◌, option_map, IfSome, OnOk, OnErr};
ghost use Rattle.std.specs.Option.{ForSome};
ghost use Rattle.vdesign.specs.Design.{Design as DesignOf};
ghost use Rattle.vmodel.specs.Choices.{IsWithin};
ghost use Rattle.vmodel.specs.Holding.{held_with as held_with_of, release as released_of};
ghost use Rattle.vmodel.specs.Inner.{variable_of};
ghost use Rattle.vmodel.specs.InnerStep.{transition_to};
ghost use Rattle.vmodel.specs.InnerWaking.{IsChange, with_active};
ghost use Rattle.vmodel.specs.Parts.{write as write_of, with_parts};
ghost use Rattle.vmodel.specs.Printed.{lines_before};
ghost use Rattle.vmodel.specs.Queue.{with_process};
ghost use Rattle.vmodel.specs.Step.{deactivate, first_of, monitors_of, no_transition, posts, posts_after, reschedule, transition_of, with_lines_after, with_moves, with_next_step, with_strobe, without_update};

use crate::holding::{held_with, release};
use crate::kernel::Kernel;
use crate::moves;
use crate::printed::{print_items, print_nothing};
use crate::shown::put_items;
use basis::NoMemory;
use sched_core::end::Cause;
use vdesign::design::Design;
use vmodel::choice::Choice;
use vmodel::effect::{Disposition, Effect};
use vmodel::part::{Part, Parts};
use vmodel::process_set::ProcessSet;
use vmodel::values::Change;
use vstrata::Strata;

impl Kernel {
    /// The queue takes what a step did to it: what becomes of the process, the update that it posted, its monitor event. `goes` is the
    /// process, where something is left of it. The error is want of memory, E901, and leaves all as it was.
    pub fn move_by(
        &mut self,
        process: u32,
        effect: &Effect,
        goes: Option<u32>,
    ) -> Result<(), NoMemory>
        requires { ForSome goes (λ p. p < 256) }
        ensures ok { OnOk result (self.new ≡ record self.old {
          queue = reschedule process effect.now.disposition goes
              (posts effect.now.posted (with_strobe effect.now.strobed self.old.queue));
        }) }
        ensures err { OnErr result (self.new ≡ self.old) }
    {
        moves::move_by(&mut self.queue, process, effect, goes)
    }

    /// The process goes on, or has ended, where nothing is left of it.
    pub fn go_on(&mut self, process: u32, goes: Option<u32>)
        requires { ForSome goes (λ p. p < 256) }
        ensures { self.new ≡ record self.old { queue = with_next_step process goes self.old.queue } }
    {
        self.queue.go_on(process, goes);
    }

    /// The process sleeps so long, in units of the precision. Where nothing is left of it, it has ended, and only the time, where it is later
    /// and within the limit, becomes a future one. The error is want of memory, E901, and leaves all as it was.
    pub fn sleep(&mut self, process: u32, delay: u128, goes: Option<u32>) -> Result<(), NoMemory>
        requires { ForSome goes (λ p. p < 256) }
        ensures ok { OnOk result (self.new ≡ record self.old {
          queue = reschedule process (Disposition.Delayed delay) goes self.old.queue;
        }) }
        ensures err { OnErr result (self.new ≡ self.old) }
    {
        self.queue
            .reschedule(process, Disposition::Delayed(delay), goes)
    }

    /// An update is posted for the current time, behind the others. The error is want of memory, E901, and leaves all as it was.
    pub fn post(&mut self, update: Parts) -> Result<(), NoMemory>
        ensures ok { OnOk result (self.new ≡ record self.old { queue = posts_after 0 update self.old.queue }) }
        ensures err { OnErr result (self.new ≡ self.old) }
    {
        self.queue.post(0, update)
    }

    /// The process isn't active any more.
    pub fn leave(&mut self, process: u32)
        ensures { self.new ≡ record self.old { queue = deactivate process self.old.queue } }
    {
        self.queue.leave(process);
    }

    /// One part is written; a part of no variable writes nothing. The answer is what changed.
    pub fn write_part(&mut self, part: Part) -> Option<Change>
        ensures values { self.new ≡ record self.old { values = write_of part self.old.values } }
        ensures change { IsChange result self.old.values self.new.values }
        ensures variable { IfSome result (λ c. c.variable ≡ variable_of part) }
    {
        self.values.write(part)
    }

    /// Parts are written, from left to right.
    pub fn write_parts(&mut self, parts: &[Part])
        ensures { self.new ≡ record self.old { values = with_parts parts.now self.old.values } }
    {
        self.values.write_all(parts);
    }

    /// One more process is active.
    pub fn activate(&mut self, process: u32)
        requires { process < 256 }
        ensures { self.new ≡ record self.old {
          queue = with_active (with_process process self.old.queue.active) self.old.queue;
        } }
    {
        self.queue.wake(process);
    }

    /// The run ends for a reason, or goes on.
    pub fn end_by(&mut self, cause: Option<Cause>)
        ensures { self.new ≡ record self.old { cause = cause } }
    {
        self.cause = cause;
    }

    /// The first activated update, which is taken out, or nothing where there is none (11.4.1).
    pub fn take_update(&mut self) -> Parts
        ensures first { result ≡ first_of self.old.queue.activated }
        ensures goes { self.new ≡ record self.old {
          queue = without_update self.old.queue.activated self.old.queue;
        } }
    {
        match self.queue.take_update() {
            None => Parts::none(),
            Some(update) => update,
        }
    }

    /// The region moves; after `$finish` and `$stop` there are none. The list is then that of the monitor events that ran in them.
    pub fn close(&mut self, monitors: &mut Vec<usize>)
        ensures state { self.new ≡ with_moves self.old }
        ensures monitors { monitors.new.items ≡ monitors_of self.old }
    {
        if self.cause.is_none() {
            self.queue.settle_into(monitors);
        } else {
            monitors.clear();
        }
    }

    /// Nothing happens.
    pub fn stay(&self, effect: &mut Effect, monitors: &mut Vec<usize>)
        ensures { transition_to self.now effect.new monitors.new.items ≡ no_transition self.now }
    {
        monitors.clear();
        *effect = Effect::none();
    }

    /// The time goes on to the next future time.
    pub fn advance(&mut self, effect: &mut Effect, monitors: &mut Vec<usize>)
        ensures { (design : DesignOf) → transition_of design Choice.Advance self.old
            ≡ transition_to self.new effect.new monitors.new.items }
    {
        self.queue.advance();
        self.close(monitors);
        *effect = Effect::none();
    }

    /// What is held back as choice `i` is taken, which is this one, where departures may hold back.
    pub fn held_with(&self, i: u32, choice: Choice) -> Option<ProcessSet>
        requires { IsWithin choice }
        ensures { result ≡ option_map (λ held. held_with_of held self.now.queue i choice) self.now.held_back }
    {
        match &self.held_back {
            None => None,
            Some(held) => Some(held_with(&self.queue, held, i, choice)),
        }
    }

    /// From here on these are held back, but where nothing else is active.
    pub fn hold(&mut self, held: Option<ProcessSet>)
        ensures { self.new ≡ record self.old { held_back = option_map (released_of self.old.queue) held } }
    {
        self.held_back = match held {
            None => None,
            Some(held) => Some(release(&self.queue, held)),
        };
    }

    /// A step by this choice, which printed nothing: an advance begins a slot.
    pub fn print_nothing(&mut self, choice: Choice)
        ensures { self.new ≡ record self.old { printed = option_map (lines_before choice) self.old.printed } }
    {
        print_nothing(&mut self.printed, choice);
    }

    /// The lines of a step by this choice go into the bag of its slot. The error is want of memory, E901, after which the bag may have some
    /// of them.
    pub fn print(
        &mut self,
        design: &Design,
        choice: Choice,
        effect: &Effect,
        monitors: &[usize],
    ) -> Result<(), NoMemory>
        ensures ok { OnOk result (transition_to self.new effect.now monitors.now
            ≡ with_lines_after design.now self.old choice (transition_to self.old effect.now monitors.now)) }
        ensures err { OnErr result (self.new ≡ record self.old { printed = self.new.printed }) }
    {
        let mut items = Vec::new(self.values.allocator());
        put_items(&mut items, design, self, effect, monitors)?;
        print_items(&mut self.printed, choice, &items)
    }
}
