// What a state of a machine tells of the run that stands there.

ghost use Rattle.std.specs.Prelude.{◌≡◌, option_map, length};
ghost use Rattle.vmodel.specs.Choices.{choices};
ghost use Rattle.vmodel.specs.Run.{end_of};
ghost use Rattle.vmodel.specs.State.{State};
ghost use Rattle.vmachine.specs.Machines.{Stands, state_in};
ghost use Rattle.vmachine.specs.Reads.{end_in, slot_in};

use crate::machine::Machine;
use crate::machine_state::MachineState;
use crate::rest::Rest;
use sched_core::bag::Bag;
use sched_core::end::End;
use vbits::Vec4;

fn end_at(state: &Rest<'_>) -> Option<End>
    ensures { result ≡ end_in state.now }
{
    if state.width() == 0 {
        Some(state.end())
    } else {
        None
    }
}

fn slot_at(state: &Rest<'_>) -> Option<u64>
    ensures { result ≡ slot_in state.now }
{
    if state.is_mark() && state.cause().is_none() {
        Some(state.time())
    } else {
        None
    }
}

impl Machine {
    /// The time and the cause of the run's end, if it ends here.
    pub(crate) fn last_of(&self, s: &MachineState) -> End
        ensures { (t : State) → Stands self.now s.now t → result ≡ end_of t }
    {
        s.rest().end()
    }

    /// The end of the run, where it has ended: its time and why.
    pub fn end_of(&self, s: &MachineState) -> Option<End>
        ensures { (t : State) → Stands self.now s.now t → result ≡ end_in t }
    {
        end_at(&s.rest())
    }

    /// The time of the slot, where it has ended here and the run wasn't finished in it.
    pub fn slot_of(&self, s: &MachineState) -> Option<u64>
        ensures stands { (t : State) → Stands self.now s.now t → result ≡ slot_in t }
        ensures own { result ≡ slot_in (state_in self.now s.now) }
    {
        slot_at(&s.rest())
    }

    /// The value of each variable, by its number.
    pub fn values<'s>(&self, s: &'s MachineState) -> &'s [Vec4]
        ensures stands { (t : State) → Stands self.now s.now t → result.now ≡ t.values }
        ensures own { result.now ≡ (state_in self.now s.now).values }
    {
        s.rest().values()
    }

    /// The lines that the slot has printed so far, in order, where lines are looked at.
    pub fn printed<'s>(&self, s: &'s MachineState) -> Option<&'s Bag>
        ensures { (t : State) → Stands self.now s.now t → option_map (λ bag. bag.now) result ≡ t.printed }
    {
        s.rest().printed()
    }
}
