// Whether the lines of a slot are those that are told.

ghost use Rattle.std.specs.Prelude.{◌≡◌, Decides, option_map};
ghost use Rattle.report_check.specs.Claims.{TellsState};

use sched_core::bag::Bag;
use vmachine::{Machine, MachineState};

// Whether they are the same lines, or there are none in either place.
fn are_same(printed: Option<&Bag>, told: Option<&Bag>) -> bool
    ensures { Decides result
        (option_map (λ bag. bag.now) told.entry ≡ option_map (λ bag. bag.now) printed.entry) }
{
    let Some(lines) = printed else {
        return told.is_none();
    };
    match told {
        Some(told_lines) => *told_lines == *lines,
        None => false,
    }
}

/// Whether the slot has printed these lines so far; without lines, whether none are looked at.
pub fn is_printed(machine: &Machine, machine_state: &MachineState, told: Option<&Bag>) -> bool
    ensures { TellsState machine.now machine_state.now
        (λ t. option_map (λ bag. bag.now) told.entry ≡ t.printed) result }
{
    are_same(machine.printed(machine_state), told)
}
