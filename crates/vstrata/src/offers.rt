// The choices of the current time, counted and found by their numbers (IEEE 1364-2005, 11.4.1, 11.4.2).

ghost use Rattle.std.specs.Prelude.{◌≡◌, ◌<◌, ◌≤◌, length, slice_get, Some, IfSome};
ghost use Rattle.std.specs.Option.{ForSome};
ghost use Rattle.vmodel.specs.Choices.{in_order, IsWithin};
ghost use Rattle.vstrata.specs.Inner.{choices_among, process_in};

use std::collections::VecDeque;
use vmodel::choice::Choice;
use vmodel::part::Parts;
use vmodel::process_set::ProcessSet;

// How many of these processes there are, the one that made the last step among them.
fn process_count(last: Option<u32>, active: &ProcessSet) -> u32
    ensures exact { result ≡ length (in_order last active.now) }
    ensures few { result ≤ 257 }
{
    match last {
        None => active.len(),
        Some(last) => 1 + active.len_without(last),
    }
}

// The process of this place among these, the one that made the last step first.
fn process_at(last: Option<u32>, active: &ProcessSet, i: u32) -> Option<u32>
    requires { ForSome last (λ p. p < 256) }
    ensures exact { result ≡ slice_get (in_order last active.now) i }
    ensures few { ForSome result (λ p. p < 256) }
{
    match last {
        None => active.get(i),
        Some(last) => {
            if i == 0 {
                return Some(last);
            }
            active.get_without(last, i - 1)
        }
    }
}

/// How many processes and updates may be taken, where these are active.
pub(crate) fn choice_count(
    last: Option<u32>,
    active: &ProcessSet,
    activated: &VecDeque<Parts>,
) -> u32
    ensures exact { result ≡ length (choices_among last active.now activated.now.items) }
    ensures few { result ≤ 258 }
{
    let processes = process_count(last, active);
    if activated.is_empty() {
        processes
    } else {
        processes + 1
    }
}

/// The process or update of this number, where these are active.
pub(crate) fn choice_at(
    last: Option<u32>,
    active: &ProcessSet,
    activated: &VecDeque<Parts>,
    i: u32,
) -> Option<Choice>
    requires { ForSome last (λ p. p < 256) }
    ensures exact { result ≡ slice_get (choices_among last active.now activated.now.items) i }
    ensures few { ForSome result IsWithin }
{
    let processes = process_count(last, active);
    if i < processes {
        return match process_at(last, active, i) {
            None => None,
            Some(process) => Some(Choice::Run(process)),
        };
    }
    if i == processes && !activated.is_empty() {
        return Some(Choice::Update);
    }
    None
}

/// The process that is to make a step, if the choice is one.
pub(crate) fn process_of(choice: Option<Choice>) -> Option<u32>
    ensures exact { result ≡ process_in choice }
    ensures some { IfSome result (λ p. choice ≡ Some (Choice.Run p)) }
{
    match choice {
        None => None,
        Some(Choice::Run(process)) => Some(process),
        Some(Choice::Update) => None,
        Some(Choice::Advance) => None,
    }
}
