// The choices of a queue, counted and found by their numbers (IEEE 1364-2005, 11.4.1, 11.4.2).

ghost use Rattle.std.specs.Prelude.{◌≡◌, ◌==◌, ◌<◌, ◌≤◌, not, length, slice_get, map, Some};
ghost use Rattle.std.specs.Option.{ForSome};
ghost use Rattle.vmodel.specs.Choices.{in_order, active_choices, queue_choices, free_among, order_of, choices_by, IsWithin};

use crate::queue::Queue;
use sched_core::setting::Grain;
use vmodel::choice::Choice;
use vmodel::process_set::ProcessSet;

// How many of these processes there are, the one that made the last step among them.
fn active_count(last: Option<u32>, active: &ProcessSet) -> u32
    ensures exact { result ≡ length (in_order last active.now) }
    ensures few { result ≤ 257 }
{
    match last {
        None => active.len(),
        Some(last) => 1 + active.len_without(last),
    }
}

// The process of this place among these, the one that made the last step first.
fn active_at(last: Option<u32>, active: &ProcessSet, i: u32) -> Option<u32>
    requires { ForSome last (λ p. p < 256) }
    ensures exact { result ≡ slice_get (in_order last active.now) i }
    ensures few { ForSome result (λ p. p < 256) }
{
    match last {
        None => active.get(i),
        Some(last) => {
            if i == 0 {
                return Some(last);
            }
            active.get_without(last, i - 1)
        }
    }
}

// How many processes and updates may be taken, where these are active.
fn active_width(queue: &Queue, active: &ProcessSet) -> u32
    ensures exact { result ≡ length (active_choices (record queue.now { active = active.now })) }
    ensures few { result ≤ 258 }
{
    let processes = active_count(queue.last, active);
    if queue.activated.is_empty() {
        processes
    } else {
        processes + 1
    }
}

// The process or update of this number, where these are active.
fn active_choice(queue: &Queue, active: &ProcessSet, i: u32) -> Option<Choice>
    ensures exact { result ≡ slice_get (active_choices (record queue.now { active = active.now })) i }
    ensures few { ForSome result IsWithin }
{
    let processes = active_count(queue.last, active);
    if i < processes {
        return match active_at(queue.last, active, i) {
            None => None,
            Some(process) => Some(Choice::Run(process)),
        };
    }
    if i == processes && !queue.activated.is_empty() {
        return Some(Choice::Update);
    }
    None
}

// How many choices the queue has where departures only take.
fn width(queue: &Queue) -> u32
    ensures { result ≡ length (queue_choices queue.now) }
{
    if let (Grain::Process, Some(_)) = (queue.grain, queue.last) {
        return 1;
    }
    let active = active_width(queue, &queue.active);
    if active > 0 {
        active
    } else if queue.future.is_empty() {
        0
    } else {
        1
    }
}

// Whether an update is active.
fn has_update(queue: &Queue) -> bool
    ensures { (length queue.now.activated == 0) ≡ not result }
{
    !queue.activated.is_empty()
}

// Whether there is a future time within the limit.
fn has_future(queue: &Queue) -> bool
    ensures { (length queue.now.future == 0) ≡ not result }
{
    !queue.future.is_empty()
}

// The first choice where departures only take, if there is one.
fn first_choice(queue: &Queue) -> Option<Choice>
    ensures exact { result ≡ slice_get (queue_choices queue.now) 0 }
    ensures few { ForSome result IsWithin }
{
    if let Some(last) = queue.last {
        return Some(Choice::Run(last));
    }
    if let Some(process) = queue.active.first() {
        return Some(Choice::Run(process));
    }
    if has_update(queue) {
        return Some(Choice::Update);
    }
    if has_future(queue) {
        Some(Choice::Advance)
    } else {
        None
    }
}

// The choice of this number where departures only take, if there is one.
fn choice_at(queue: &Queue, i: u32) -> Option<Choice>
    ensures exact { result ≡ slice_get (queue_choices queue.now) i }
    ensures few { ForSome result IsWithin }
{
    if i == 0 {
        return first_choice(queue);
    }
    if let (Grain::Process, Some(_)) = (queue.grain, queue.last) {
        return None;
    }
    if active_width(queue, &queue.active) > 0 {
        active_choice(queue, &queue.active, i)
    } else {
        None
    }
}

// ---- where departures may hold back

/// The processes of the second set that aren't in the first.
pub(crate) fn free_among(held: ProcessSet, active: &ProcessSet) -> ProcessSet
    ensures { result ≡ free_among held active.now }
{
    let mut rest = held;
    let mut free = active.copy();
    while let Some(process) = rest.take_first() {
        free.remove(process);
    }
    free
}

/// How many stand in the order.
pub(crate) fn order_width(queue: &Queue, held: &ProcessSet) -> u32
    ensures exact { result ≡ length (order_of held.now queue.now) }
    ensures few { result ≤ 514 }
{
    if let (Grain::Process, Some(_)) = (queue.grain, queue.last) {
        return 1;
    }
    active_width(queue, &free_among(held.copy(), &queue.active)) + held.len()
}

// The process of this place among those that are held back, if there is one.
fn held_at(held: &ProcessSet, i: u32) -> Option<Choice>
    ensures exact { result ≡ slice_get (map Choice.Run held.now) i }
    ensures few { ForSome result IsWithin }
{
    match held.get(i) {
        None => None,
        Some(process) => Some(Choice::Run(process)),
    }
}

/// What stands at this place in the order, if there is something.
pub(crate) fn order_at(queue: &Queue, held: &ProcessSet, i: u32) -> Option<Choice>
    ensures exact { result ≡ slice_get (order_of held.now queue.now) i }
    ensures few { ForSome result IsWithin }
{
    if let (Grain::Process, Some(last)) = (queue.grain, queue.last) {
        return if i == 0 {
            Some(Choice::Run(last))
        } else {
            None
        };
    }
    let free = free_among(held.copy(), &queue.active);
    let width = active_width(queue, &free);
    if i < width {
        active_choice(queue, &free, i)
    } else {
        held_at(held, i - width)
    }
}

// How many choices the queue has where these are held back.
fn width_holding(queue: &Queue, held: &ProcessSet) -> u32
    ensures { result ≡ length (choices_by (Some held.now) queue.now) }
{
    let order = order_width(queue, held);
    if order > 0 {
        2 * order - 1
    } else if queue.future.is_empty() {
        0
    } else {
        1
    }
}

// The choice of this number where these are held back, if there is one.
fn choice_holding(queue: &Queue, held: &ProcessSet, i: u32) -> Option<Choice>
    ensures exact { result ≡ slice_get (choices_by (Some held.now) queue.now) i }
    ensures few { ForSome result IsWithin }
{
    let order = order_width(queue, held);
    if order == 0 {
        return if i == 0 && !queue.future.is_empty() {
            Some(Choice::Advance)
        } else {
            None
        };
    }
    if i < order {
        order_at(queue, held, i)
    } else {
        order_at(queue, held, i - order + 1)
    }
}

/// How many choices the queue has, by what is held back.
pub(crate) fn width_by(held_back: &Option<ProcessSet>, queue: &Queue) -> u32
    ensures { result ≡ length (choices_by held_back.now queue.now) }
{
    match held_back {
        None => width(queue),
        Some(held) => width_holding(queue, held),
    }
}

/// The choice of this number, by what is held back, if there is one.
pub(crate) fn choice_by(held_back: &Option<ProcessSet>, queue: &Queue, i: u32) -> Option<Choice>
    ensures exact { result ≡ slice_get (choices_by held_back.now queue.now) i }
    ensures few { ForSome result IsWithin }
{
    match held_back {
        None => choice_at(queue, i),
        Some(held) => choice_holding(queue, held, i),
    }
}
