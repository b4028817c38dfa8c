// What a departure holds back, and until when (IEEE 1364-2005, 11.4.1, 11.4.2).

ghost use Rattle.std.specs.Prelude.{◌≡◌, ◌<◌, length, take, slice_get};
ghost use Rattle.std.specs.Option.{ForSome};
ghost use Rattle.vmodel.specs.Choices.{order_of, IsWithin};
ghost use Rattle.vmodel.specs.Inner.{with_some_held};
ghost use Rattle.vmodel.specs.Holding as spec;

use crate::choices::{free_among, order_at, order_width};
use crate::queue::Queue;
use vmodel::choice::Choice;
use vmodel::process_set::ProcessSet;

// How many of the order a choice holds back.
fn count_before(order: u32, i: u32) -> u32
    requires { 0 < order }
    ensures { result ≡ spec.count_before order i }
{
    if i < order {
        return 0;
    }
    i - order + 1
}

// Held back with this choice, where it is of a process.
fn hold_one(held: &mut ProcessSet, choice: Choice)
    requires { IsWithin choice }
    ensures { held.new ≡ spec.with_one_held choice held.old }
{
    match choice {
        Choice::Run(process) => held.insert(process),
        Choice::Update => {}
        Choice::Advance => {}
    }
}

// Held back with this choice, if there is one.
fn hold_some(held: &mut ProcessSet, choice: Option<Choice>)
    requires { ForSome choice IsWithin }
    ensures { held.new ≡ with_some_held choice held.old }
{
    match choice {
        None => {}
        Some(one) => hold_one(held, one),
    }
}

// Held back, beside others, with the processes among the first of the order.
fn hold_first(queue: &Queue, held: &ProcessSet, count: u32, others: ProcessSet) -> ProcessSet
    ensures { result ≡ spec.with_held (take count (order_of held.now queue.now)) others }
{
    let mut all = others;
    let mut i = 0;
    while i < count {
        hold_some(&mut all, order_at(queue, held, i));
        i += 1;
    }
    all
}

// Held back, beside others, with the processes that this choice holds back.
fn hold_before(queue: &Queue, held: &ProcessSet, i: u32, others: ProcessSet) -> ProcessSet
    ensures { result ≡ spec.with_held (spec.before_choice (order_of held.now queue.now) i) others }
{
    let order = order_width(queue, held);
    if order == 0 {
        return others;
    }
    hold_first(queue, held, count_before(order, i), others)
}

/// The processes that a choice holds back: none where departures only take.
pub(crate) fn held_by_choice(held_back: &Option<ProcessSet>, queue: &Queue, i: u32) -> ProcessSet
    ensures { result ≡ spec.held_by_choice held_back.now queue.now i }
{
    match held_back {
        None => ProcessSet::new(),
        Some(held) => hold_before(queue, held, i, ProcessSet::new()),
    }
}

// What is taken is held back no more.
fn without_taken(choice: Choice, held: ProcessSet) -> ProcessSet
    ensures { result ≡ spec.without_taken choice held }
{
    let mut left = held;
    if let Choice::Run(process) = choice {
        left.remove(process);
    }
    left
}

/// What is held back as choice `i` is taken, which is this one.
pub(crate) fn held_with(queue: &Queue, held: &ProcessSet, i: u32, choice: Choice) -> ProcessSet
    ensures { result ≡ spec.held_with held.now queue.now i choice }
{
    without_taken(choice, hold_before(queue, held, i, held.copy()))
}

/// What is held back still, where something else is active.
pub(crate) fn release(queue: &Queue, held: ProcessSet) -> ProcessSet
    ensures { result ≡ spec.release queue.now held }
{
    if free_among(held.copy(), &queue.active).is_empty() && queue.activated.is_empty() {
        ProcessSet::new()
    } else {
        held
    }
}
