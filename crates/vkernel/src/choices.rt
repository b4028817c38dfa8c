// The choices of a queue, by what is held back (IEEE 1364-2005, 11.4.1, 11.4.2).

ghost use Rattle.std.specs.Prelude.{◌≡◌, ◌==◌, ◌≤◌, not, length, slice_get, map, Some};
ghost use Rattle.std.specs.Option.{ForSome};
ghost use Rattle.vmodel.specs.Choices.{queue_choices, free_among, order_of, choices_by, IsWithin};
ghost use Rattle.vkernel.specs.Inner.{advance_at};

use sched_core::setting::Grain;
use vmodel::choice::Choice;
use vmodel::process_set::ProcessSet;
use vstrata::{RingStrata, Strata};

// Whether there is a future time within the limit.
fn has_future(queue: &RingStrata) -> bool
    ensures { (length queue.now.future == 0) ≡ not result }
{
    queue.next_time().is_some()
}

// The choice of this number where nothing is active: the advance, if there is a future time.
fn advance_choice(queue: &RingStrata, i: u32) -> Option<Choice>
    ensures exact { result ≡ advance_at queue.now.future i }
    ensures few { ForSome result IsWithin }
{
    if i == 0 && has_future(queue) {
        Some(Choice::Advance)
    } else {
        None
    }
}

// How many choices the queue has where departures only take.
fn width(queue: &RingStrata) -> u32
    ensures { result ≡ length (queue_choices queue.now) }
{
    let active = queue.choices();
    if active > 0 {
        active
    } else if has_future(queue) {
        1
    } else {
        0
    }
}

// The choice of this number where departures only take, if there is one.
fn choice_at(queue: &RingStrata, i: u32) -> Option<Choice>
    ensures exact { result ≡ slice_get (queue_choices queue.now) i }
    ensures few { ForSome result IsWithin }
{
    match queue.peek(i) {
        Some(choice) => Some(choice),
        None => advance_choice(queue, i),
    }
}

// ---- where departures may hold back

/// The processes of the second set that aren't in the first.
pub(crate) fn free_among(held: ProcessSet, active: &ProcessSet) -> ProcessSet
    ensures { result ≡ free_among held active.now }
{
    let mut rest = held;
    let mut free = active.copy();
    while let Some(process) = rest.take_first() {
        free.remove(process);
    }
    free
}

/// How many stand in the order.
pub(crate) fn order_width(queue: &RingStrata, held: &ProcessSet) -> u32
    ensures exact { result ≡ length (order_of held.now queue.now) }
    ensures few { result ≤ 514 }
{
    if let (Grain::Process, Some(_)) = (queue.grain(), queue.last()) {
        return 1;
    }
    queue.count_among(&free_among(held.copy(), queue.active())) + held.len()
}

// The process of this place among those that are held back, if there is one.
fn held_at(held: &ProcessSet, i: u32) -> Option<Choice>
    ensures exact { result ≡ slice_get (map Choice.Run held.now) i }
    ensures few { ForSome result IsWithin }
{
    match held.get(i) {
        None => None,
        Some(process) => Some(Choice::Run(process)),
    }
}

/// What stands at this place in the order, if there is something.
pub(crate) fn order_at(queue: &RingStrata, held: &ProcessSet, i: u32) -> Option<Choice>
    ensures exact { result ≡ slice_get (order_of held.now queue.now) i }
    ensures few { ForSome result IsWithin }
{
    if let (Grain::Process, Some(last)) = (queue.grain(), queue.last()) {
        return if i == 0 {
            Some(Choice::Run(last))
        } else {
            None
        };
    }
    let free = free_among(held.copy(), queue.active());
    let width = queue.count_among(&free);
    if i < width {
        queue.choice_among(&free, i)
    } else {
        held_at(held, i - width)
    }
}

// How many choices the queue has where these are held back.
fn width_holding(queue: &RingStrata, held: &ProcessSet) -> u32
    ensures { result ≡ length (choices_by (Some held.now) queue.now) }
{
    let order = order_width(queue, held);
    if order > 0 {
        2 * order - 1
    } else if has_future(queue) {
        1
    } else {
        0
    }
}

// The choice of this number where these are held back, if there is one.
fn choice_holding(queue: &RingStrata, held: &ProcessSet, i: u32) -> Option<Choice>
    ensures exact { result ≡ slice_get (choices_by (Some held.now) queue.now) i }
    ensures few { ForSome result IsWithin }
{
    let order = order_width(queue, held);
    if order == 0 {
        advance_choice(queue, i)
    } else if i < order {
        order_at(queue, held, i)
    } else {
        order_at(queue, held, i - order + 1)
    }
}

/// How many choices the queue has, by what is held back.
pub(crate) fn width_by(held_back: &Option<ProcessSet>, queue: &RingStrata) -> u32
    ensures { result ≡ length (choices_by held_back.now queue.now) }
{
    match held_back {
        None => width(queue),
        Some(held) => width_holding(queue, held),
    }
}

/// The choice of this number, by what is held back, if there is one.
pub(crate) fn choice_by(
    held_back: &Option<ProcessSet>,
    queue: &RingStrata,
    i: u32,
) -> Option<Choice>
    ensures exact { result ≡ slice_get (choices_by held_back.now queue.now) i }
    ensures few { ForSome result IsWithin }
{
    match held_back {
        None => choice_at(queue, i),
        Some(held) => choice_holding(queue, held, i),
    }
}
