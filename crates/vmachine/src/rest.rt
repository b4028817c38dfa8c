// All of a machine's state but its processes, as it is kept.

ghost use Rattle.std.specs.Prelude.{◌≡◌, ◌++◌, length, option_map, OnOk, OnErr};
ghost use Rattle.vmodel.specs.Choices.{choices};
ghost use Rattle.vmodel.specs.InnerStep.{transition_to};
ghost use Rattle.vmodel.specs.Run.{end_of, is_mark};
ghost use Rattle.vmodel.specs.Step.{HasFront};
ghost use Rattle.vmodel.specs.Touched.{front_items, is_slot_end};

use basis::NoMemory;
use plain_steps::State;
use sched_core::bag::Bag;
use sched_core::end::{Cause, End};
use std::marker::Model;
use vbits::Vec4;
use vdesign::design::Design;
use vkernel::Kernel;
use vmodel::effect::Effect;
use vmodel::history::Item;

/// What it is kept in.
#[derive(Clone, Copy)]
pub(crate) enum KeptRest<'s> {
    Plain(&'s State),
    Flat(&'s Kernel),
}

/// All of a state but its processes. A clause sees it as the record `State` of `vmodel`.
#[derive(Drop)]
pub(crate) struct Rest<'s> {
    kept: KeptRest<'s>,
}

impl<'s> Model for Rest<'s> {
    ghost use Rattle.vmodel.specs.State as state;
    ghost use Rattle.vmachine.specs.Kept.{state_of_rest};

    ghost Value = { state.State };

    ghost view = { λ r. state_of_rest r.kept };
}

impl<'s> Rest<'s> {
    /// That of a state that is kept as it is; its processes are there, too.
    pub(crate) fn plain(state: &'s State) -> Rest<'s>
        ensures { result ≡ state.now }
    {
        Rest {
            kept: KeptRest::Plain(state),
        }
    }

    /// That of a flat state.
    pub(crate) fn flat(kernel: &'s Kernel) -> Rest<'s>
        ensures { result ≡ kernel.now }
    {
        Rest {
            kept: KeptRest::Flat(kernel),
        }
    }

    /// How many choices there are: 0 where the run has ended.
    pub(crate) fn width(&self) -> u32
        ensures { result ≡ length (choices self.now) }
    {
        match self.kept {
            KeptRest::Plain(state) => state.width(),
            KeptRest::Flat(kernel) => kernel.width(),
        }
    }

    /// Whether a slot has ended here, or the run.
    pub(crate) fn is_mark(&self) -> bool
        ensures { result ≡ is_mark self.now }
    {
        match self.kept {
            KeptRest::Plain(state) => state.is_mark(),
            KeptRest::Flat(kernel) => kernel.is_mark(),
        }
    }

    /// Whether a slot has ended here, and the run goes on.
    pub(crate) fn is_slot_end(&self) -> bool
        ensures { result ≡ is_slot_end self.now }
    {
        match self.kept {
            KeptRest::Plain(state) => state.is_slot_end(),
            KeptRest::Flat(kernel) => kernel.is_slot_end(),
        }
    }

    /// The time, in units of the precision.
    pub(crate) fn time(&self) -> u64
        ensures { result ≡ self.now.queue.time }
    {
        match self.kept {
            KeptRest::Plain(state) => state.time(),
            KeptRest::Flat(kernel) => kernel.time(),
        }
    }

    /// The value of each variable, by its number.
    pub(crate) fn values(&self) -> &'s [Vec4]
        ensures { result.now ≡ self.now.values }
    {
        match self.kept {
            KeptRest::Plain(state) => state.values(),
            KeptRest::Flat(kernel) => kernel.values(),
        }
    }

    /// Why the run ended, where `$finish` or `$stop` was taken (17.4).
    pub(crate) fn cause(&self) -> Option<Cause>
        ensures { result ≡ self.now.cause }
    {
        match self.kept {
            KeptRest::Plain(state) => state.cause(),
            KeptRest::Flat(kernel) => kernel.cause(),
        }
    }

    /// The lines of the slot so far, where lines are looked at.
    pub(crate) fn printed(&self) -> Option<&'s Bag>
        ensures { option_map (λ bag. bag.now) result ≡ self.now.printed }
    {
        match self.kept {
            KeptRest::Plain(state) => state.printed(),
            KeptRest::Flat(kernel) => kernel.printed(),
        }
    }

    /// The end of a run that ends here: its time, and why.
    pub(crate) fn end(&self) -> End
        ensures { result ≡ end_of self.now }
    {
        match self.kept {
            KeptRest::Plain(state) => state.end(),
            KeptRest::Flat(kernel) => kernel.end(),
        }
    }

    /// Puts behind others what a step to here gives to the history before the end of the slot, as `put_front` of `plain_steps` does.
    pub(crate) fn put_front(
        &self,
        items: &mut Vec<Item>,
        design: &Design,
        effect: &Effect,
        monitors: &[usize],
    ) -> Result<(), NoMemory>
        ensures ok { OnOk result (items.new.items
            ≡ items.old.items ++ front_items design.now (transition_to self.now effect.now monitors.now)) }
        ensures front { OnErr result (HasFront items.old.items
            (front_items design.now (transition_to self.now effect.now monitors.now)) items.new.items) }
    {
        match self.kept {
            KeptRest::Plain(state) => plain_steps::put_front(
                items, design, state, effect, monitors,
            ),
            KeptRest::Flat(kernel) => vkernel::put_front(items, design, kernel, effect, monitors),
        }
    }
}
