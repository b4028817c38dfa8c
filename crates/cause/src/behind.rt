// The statement behind a port connection, an `assign` or a block that waits for what it reads (IEEE 1364-2005, 6.1, 9.7.5).

ghost use Rattle.std.specs.Prelude.{◌≡◌, ◌+◌, ◌<◌, Some, None, slice_get, length, IfOk, IfSome, IfNone};
ghost use Rattle.cause.specs.Behind as spec;
ghost use Rattle.cause.specs.Inner.{whole};

use crate::block::heard_by_actor;
use crate::slot::Slot;
use basis::NoMemory;
use footprints::thing::{Thing, Things, meet};
use footprints::visit::Visit;
use std::alloc::Global;
use vdesign::action::Action;
use vdesign::design::Design;

// Whether the action at a place of the table is a port connection or an `assign`.
fn is_connection(actions: &[Action], place: usize) -> bool
    ensures { result ≡ spec.is_connection (slice_get actions.now place) }
{
    match actions.get(place) {
        None => false,
        Some(action) => matches!(action, Action::ContinuousAssign { .. }),
    }
}

// What the way back from a visit asks for.
fn asked_of(alloc: Global, design: &Design, visit: &Visit) -> Result<Things, NoMemory>
    ensures { IfOk result (λ things. things ≡ spec.asked_of design.now visit.now) }
{
    if is_connection(&design.actions, visit.place) {
        visit.footprint.reads.copy(alloc)
    } else {
        heard_by_actor(alloc, design, visit.actor)
    }
}

// Visit n of the whole slot.
#[tactic(auto, using(crate::proofs::BehindLemmas::front_at, crate::proofs::BehindLemmas::back_at, crate::proofs::BehindLemmas::past_all))]
fn visit_at(slot: &Slot, n: usize) -> Option<&Visit>
    ensures some { IfSome result (λ visit. slice_get (whole slot.now) n ≡ Some visit.now) }
    ensures none { IfNone result (slice_get (whole slot.now) n ≡ None) }
{
    let before = slot.earlier.len();
    if n < before {
        slot.earlier.get(n)
    } else {
        slot.visits.get(n - before)
    }
}

// Whether visit n changes one of these things.
#[tactic(auto, using(crate::proofs::BehindLemmas::changes_there, crate::proofs::BehindLemmas::changes_nowhere))]
fn changes_one(things: &[Thing], slot: &Slot, n: usize) -> bool
    ensures { result ≡ spec.changes_one things.now (slice_get (whole slot.now) n) }
{
    match visit_at(slot, n) {
        None => false,
        Some(visit) => meet(visit.footprint.changes.as_slice(), things),
    }
}

// The last of the first n visits that changes one of these things.
#[tactic(auto, using(crate::proofs::BehindLemmas::changer_there, crate::proofs::BehindLemmas::changer_before, crate::proofs::BehindLemmas::no_changer))]
fn last_changer(things: &[Thing], slot: &Slot, n: usize) -> Option<usize>
    ensures { result ≡ spec.last_changer things.now (whole slot.now) n }
{
    let mut k = n;
    while k > 0 {
        k -= 1;
        if changes_one(things, slot, k) {
            return Some(k);
        }
    }
    None
}

// The last visit before visit i that changed what the way back from it asks for.
#[tactic(auto, using(crate::proofs::BehindLemmas::source_there, crate::proofs::BehindLemmas::source_nowhere))]
fn source_of(
    alloc: Global,
    design: &Design,
    slot: &Slot,
    i: usize,
) -> Result<Option<usize>, NoMemory>
    ensures { IfOk result (λ found. found ≡ spec.source_of design.now (whole slot.now) i) }
{
    match visit_at(slot, i) {
        None => Ok(None),
        Some(visit) => {
            let asked = asked_of(alloc, design, visit)?;
            Ok(last_changer(asked.as_slice(), slot, i))
        }
    }
}

// The visit behind visit i, by so many goings back at most.
#[tactic(auto, using(crate::proofs::BehindLemmas::behind_none, crate::proofs::BehindLemmas::behind_some, crate::proofs::BehindLemmas::behind_done))]
fn behind(
    alloc: Global,
    design: &Design,
    slot: &Slot,
    most: usize,
    i: usize,
) -> Result<usize, NoMemory>
    ensures { IfOk result (λ found. found ≡ spec.behind design.now (whole slot.now) most i) }
{
    let mut at = i;
    let mut left = most;
    while left > 0 {
        left -= 1;
        match source_of(alloc, design, slot, at)? {
            None => return Ok(at),
            Some(source) => at = source,
        }
    }
    Ok(at)
}

// The visit behind visit i, at which the way back has ended.
fn end_of_way(alloc: Global, design: &Design, slot: &Slot, i: usize) -> Result<usize, NoMemory>
    requires { i < length (whole slot.now) }
    ensures is { IfOk result (λ found. found ≡ spec.behind design.now (whole slot.now) (length (whole slot.now)) i) }
    ensures end { IfOk result (spec.IsEnd design.now (whole slot.now)) }
{
    behind(
        alloc,
        design,
        slot,
        slot.earlier.len() + slot.visits.len(),
        i,
    )
}

/// The place of the statement behind visit i of those that come from the slot's step on, which is this one.
#[tactic(auto, using(crate::proofs::BehindLemmas::behind_there, crate::proofs::BehindLemmas::behind_nowhere))]
pub(crate) fn statement_behind(
    alloc: Global,
    design: &Design,
    slot: &Slot,
    i: usize,
    visit: &Visit,
) -> Result<usize, NoMemory>
    requires { i < length slot.now.visits.items }
    ensures { IfOk result (λ place.
        place ≡ spec.statement_behind design.now (whole slot.now) (length slot.now.earlier.items + i) visit.now) }
{
    let end = end_of_way(alloc, design, slot, slot.earlier.len() + i)?;
    match visit_at(slot, end) {
        None => Ok(visit.place),
        Some(source) => Ok(source.place),
    }
}
