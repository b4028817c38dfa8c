// Counters of turns: one for each `repeat` of a design (IEEE 1364-2005, 9.6).

ghost use Rattle.std.specs.Prelude.{◌≡◌, ◌<◌, ◌≤◌, length, IfOk};
ghost use Rattle.vcompile.specs.Links as spec;

use basis::NoMemory;
use std::alloc::Global;
use vdesign::action::Action;

fn is_repeat(action: &Action) -> bool
    ensures { result ≡ spec.is_repeat action.now }
{
    match action {
        Action::Repeat { .. } => true,
        _ => false,
    }
}

fn counter_by(repeats: bool, number: u32) -> Option<u32>
    ensures { result ≡ spec.counter_by repeats number }
{
    if repeats { Some(number) } else { None }
}

fn next_counter(repeats: bool, number: u32) -> u32
    requires { number < 4294967295 }
    ensures { result ≡ spec.next_counter repeats number }
{
    if repeats { number + 1 } else { number }
}

/// By place the number of the counter of a `repeat`.
pub(crate) fn counters_of(alloc: Global, actions: &[Action]) -> Result<Vec<Option<u32>>, NoMemory>
    requires { length actions.now ≤ 4294967295 }
    ensures { IfOk result (λ counters. counters.items ≡ spec.counters_from 0 actions.now) }
{
    let mut counters = Vec::new(alloc);
    let mut number = 0;
    for action in actions {
        let repeats = is_repeat(action);
        counters.push(counter_by(repeats, number))?;
        number = next_counter(repeats, number);
    }
    Ok(counters)
}
