// Which visits two runs take in another order.

ghost use Rattle.std.specs.Prelude.{◌≡◌, ◌⊎◌, ℕ, ◌+◌, ◌<◌, ◌≤◌, true, false, Some, take, length, option_map, slice_get, IfOk, IfSome, IfNone, OnOk};
ghost use Rattle.footprints.specs.Footprints.{touch as touch_each_other};
ghost use Rattle.footprints.specs.declared.footprint.Footprint.{Footprint};
ghost use Rattle.footprints.specs.Latest.{AreClear, Covers, Reaches, ReachesBoth, latest_if, latest_of};
ghost use Rattle.footprints.specs.Swaps.{footprint_in};
ghost use Rattle.footprints.specs.Known.{IsClearedAt, IsKnown, IsPast};
ghost use Rattle.footprints.specs.Swaps as spec;

use crate::footprint::Footprint;
use crate::index::Index;
use crate::latest::Latest;
use crate::thing::{Things, meet, shared_things};
use crate::visit::{Visit, is_same_visit};
use basis::NoMemory;
use std::alloc::Global;

/// Two visits that two runs take in another order: their places in the lists of both runs' visits.
#[derive(Clone, Copy)]
pub struct Swap {
    pub in_run: usize,
    pub in_parent: usize,
}

// Whether one of them changes something that the other reads or changes.
fn touch(one: &Footprint, other: &Footprint) -> bool
    ensures { result ≡ touch_each_other one.now other.now }
{
    let changes = one.changes.as_slice();
    if meet(changes, other.reads.as_slice()) {
        return true;
    }
    if meet(changes, other.changes.as_slice()) {
        return true;
    }
    meet(other.changes.as_slice(), one.reads.as_slice())
}

// The same, where both come.
fn touch_if(one: Option<&Footprint>, other: Option<&Footprint>) -> bool
    ensures { result ≡ spec.touch_if (option_map (λ f. f.now) one.entry) (option_map (λ f. f.now) other.entry) }
{
    match (one, other) {
        (Some(one), Some(other)) => touch(one, other),
        _ => false,
    }
}

// Whether a visit of the run and one of the parent touch in one of them.
fn touch_in_one(run: &Index<'_>, parent: &Index<'_>, one: &Visit, other: &Visit) -> bool
    ensures { result ≡ spec.touch_in_one run.now parent.now one.now other.now }
{
    if touch_if(Some(&one.footprint), run.footprint_of(other)) {
        return true;
    }
    touch_if(parent.footprint_of(one), Some(&other.footprint))
}

// What two share, where both come.
fn shared_if(
    alloc: Global,
    one: Option<&Footprint>,
    other: Option<&Footprint>,
) -> Result<Things, NoMemory>
    ensures { IfOk result (λ things.
        things ≡ spec.shared_if (option_map (λ f. f.now) one.entry) (option_map (λ f. f.now) other.entry)) }
{
    match (one, other) {
        (Some(one), Some(other)) => shared_things(alloc, one, other),
        _ => Ok(Things::none(alloc)),
    }
}

/// The things by which a visit of the run and one of the parent touch.
pub fn things_in_both(
    alloc: Global,
    run: &Index<'_>,
    parent: &Index<'_>,
    one: &Visit,
    other: &Visit,
) -> Result<Things, NoMemory>
    ensures { IfOk result (λ things. things ≡ spec.things_in_both run.now parent.now one.now other.now) }
{
    let mut things = shared_if(alloc, Some(&one.footprint), run.footprint_of(other))?;
    let more = shared_if(alloc, parent.footprint_of(one), Some(&other.footprint))?;
    things.put_all(more.as_slice())?;
    Ok(things)
}

// Whether a visit is among others.
fn has_come(visit: &Visit, visits: &[Visit]) -> bool
    ensures { result ≡ spec.has_come visit.now visits.now }
{
    for other in visits {
        if is_same_visit(visit, other) {
            return true;
        }
    }
    false
}

// The visits up to this one.
#[tactic(auto, using(std::proofs::lemmas::List::take_all))]
fn up_to(visits: &[Visit], i: usize) -> &[Visit]
    ensures { result.now ≡ take (i + 1) visits.now }
{
    if i < visits.len() {
        visits.split_at(i + 1).0
    } else {
        visits
    }
}

// Whether two visits that are such are a swap.
fn are_swapped(
    run: &Index<'_>,
    parent: &Index<'_>,
    i: usize,
    j: usize,
    one: &Visit,
    other: &Visit,
) -> bool
    ensures { result ≡ spec.are_swapped run.now parent.now i j one.now other.now }
{
    if !touch_in_one(run, parent, one, other) {
        return false;
    }
    if has_come(other, up_to(run.visits(), i)) {
        return false;
    }
    !has_come(one, up_to(parent.visits(), j))
}

// Whether these places hold a swap.
fn is_swap(run: &Index<'_>, parent: &Index<'_>, i: usize, j: usize) -> bool
    ensures { result ≡ spec.is_swap run.now parent.now i j }
{
    match run.at(i) {
        None => false,
        Some(one) => match parent.at(j) {
            None => false,
            Some(other) => are_swapped(run, parent, i, j, one, other),
        },
    }
}

// What is known of all visits of two runs before their swaps are looked for: which visits of the run are of no swap, and how late the run makes
// those of the parent, by what they touch.
#[derive(Drop)]
struct Known {
    clear: Vec<bool>,
    latest: Latest,
}

// So many times false.
fn falses(alloc: Global, count: usize) -> Result<Vec<bool>, NoMemory>
    ensures { IfOk result (λ list. (k : ℕ) → slice_get list.items k ≡ Some true → ⊥) }
{
    let mut list = Vec::new(alloc);
    for _ in 0..count {
        list.push(false)?;
    }
    Ok(list)
}

// Whether nothing that a visit of the run touches, in one of both runs, was put with a place behind this one.
fn is_past(latest: &Latest, parent: &Index<'_>, visit: &Visit, place: usize) -> bool
    ensures in_run { result ≡ true → latest_of latest.now visit.now.footprint ≤ place }
    ensures in_parent { result ≡ true → latest_if latest.now (footprint_in visit.now parent.now) ≤ place }
{
    if place < latest.of(&visit.footprint) {
        return false;
    }
    match parent.footprint_of(visit) {
        None => true,
        Some(footprint) => latest.of(footprint) <= place,
    }
}

// Says of the visit at a place of the run that it is of no swap, where nothing that it touches was put with a place behind its own.
fn clear_at(
    clear: &mut Vec<bool>,
    run: &Index<'_>,
    parent: &Index<'_>,
    latest: &Latest,
    place: usize,
)
    ensures { IsClearedAt run.now parent.now latest.now place clear.old.items clear.new.items }
{
    match run.at(place) {
        None => {}
        Some(visit) => {
            if place < clear.len() && is_past(latest, parent, visit, place) {
                clear[place] = true;
            }
        }
    }
}

// One visit of the parent more, which the run makes at this place: what it touches in both runs.
fn put_both(
    latest: &mut Latest,
    run: &Index<'_>,
    visit: &Visit,
    place: usize,
) -> Result<(), NoMemory>
    ensures kept { OnOk result ((n : ℕ) (other : Footprint) → Reaches n latest.old other → Reaches n latest.new other) }
    ensures put { OnOk result (ReachesBoth place latest.new run.now visit.now) }
{
    latest.put(&visit.footprint, place)?;
    match run.footprint_of(visit) {
        None => Ok(()),
        Some(footprint) => {
            latest.put(footprint, place)?;
            Ok(())
        }
    }
}

// Goes through the visits of the parent, each by its place in the run. A visit is of no swap where all that it touches, of what the parent
// makes before it, comes before it in the run, too.
fn known_of(alloc: Global, run: &Index<'_>, parent: &Index<'_>) -> Result<Known, NoMemory>
    ensures clear { IfOk result (λ known. AreClear run.now parent.now known.clear.items) }
    ensures latest { IfOk result (λ known. Covers run.now parent.now (length parent.now) known.latest) }
{
    let mut clear = falses(alloc, run.visits().len())?;
    let mut latest = Latest::new(alloc);
    let theirs = parent.visits();
    for visit in theirs {
        let place = run.place_of(visit);
        clear_at(&mut clear, run, parent, &latest, place);
        put_both(&mut latest, run, visit, place)?;
    }
    Ok(Known { clear, latest })
}

// Whether it is known that a visit of the run is of no swap.
fn is_clear(known: &Known, run: &Index<'_>, parent: &Index<'_>, i: usize) -> bool
    ensures { result ≡ true → IsKnown run.now parent.now known.now i }
{
    match run.at(i) {
        None => true,
        Some(visit) => {
            let said = match known.clear.get(i) {
                None => false,
                Some(clear) => *clear,
            };
            said || is_past(&known.latest, parent, visit, i)
        }
    }
}

// From which visit of the parent on none is a swap with this one of the run, as it has come there.
#[tactic(auto, using(crate::proofs::SwapLemmas::no_visit, crate::proofs::LatestLemmas::behind_found))]
fn end_of(run: &Index<'_>, parent: &Index<'_>, i: usize) -> usize
    ensures within { result ≤ length parent.now }
    ensures none { (l : ℕ) → result ≤ l → spec.is_swap run.now parent.now i l ≡ false }
{
    match run.at(i) {
        None => 0,
        Some(visit) => parent.place_of(visit),
    }
}

// Whether these places hold a swap; it is asked first whether the parent's visit has come in the run.
#[tactic(auto, using(crate::proofs::LatestLemmas::no_other))]
fn is_swap_by(run: &Index<'_>, parent: &Index<'_>, i: usize, j: usize) -> bool
    ensures { result ≡ spec.is_swap run.now parent.now i j }
{
    match parent.at(j) {
        None => false,
        Some(visit) => {
            if i < run.place_of(visit) {
                is_swap(run, parent, i, j)
            } else {
                false
            }
        }
    }
}

// The last visit of the parent with which this one of the run is a swap.
fn second_of(run: &Index<'_>, parent: &Index<'_>, i: usize) -> Option<usize>
    ensures swap { IfSome result (λ j. spec.is_swap run.now parent.now i j ≡ true) }
    ensures last { IfSome result (λ j. (l : ℕ) → spec.is_swap run.now parent.now i l ≡ true → l ≤ j) }
    ensures within { IfSome result (λ j. j < length parent.now) }
    ensures none { IfNone result ((l : ℕ) → spec.is_swap run.now parent.now i l ≡ false) }
{
    let mut j = end_of(run, parent, i);
    while j > 0 {
        j -= 1;
        if is_swap_by(run, parent, i, j) {
            return Some(j);
        }
    }
    None
}

// The same, where it isn't known that there is none.
#[tactic(auto, using(crate::proofs::LatestLemmas::known_no))]
fn second_by(known: &Known, run: &Index<'_>, parent: &Index<'_>, i: usize) -> Option<usize>
    requires clear { AreClear run.now parent.now known.now.clear.items }
    requires latest { Covers run.now parent.now (length parent.now) known.now.latest }
    ensures swap { IfSome result (λ j. spec.is_swap run.now parent.now i j ≡ true) }
    ensures last { IfSome result (λ j. (l : ℕ) → spec.is_swap run.now parent.now i l ≡ true → l ≤ j) }
    ensures within { IfSome result (λ j. j < length parent.now) }
    ensures none { IfNone result ((l : ℕ) → spec.is_swap run.now parent.now i l ≡ false) }
{
    if is_clear(known, run, parent, i) {
        return None;
    }
    second_of(run, parent, i)
}

/// The first swap, if there is one.
pub fn first_swap(
    alloc: Global,
    run: &Index<'_>,
    parent: &Index<'_>,
) -> Result<Option<Swap>, NoMemory>
    ensures some { IfOk result (λ told. IfSome told (λ swap. spec.IsFirstSwap run.now parent.now swap.in_run swap.in_parent)) }
    ensures in_run { IfOk result (λ told. IfSome told (λ swap. swap.in_run < length run.now)) }
    ensures in_parent { IfOk result (λ told. IfSome told (λ swap. swap.in_parent < length parent.now)) }
    ensures none { IfOk result (λ told. IfNone told (spec.HasNoSwap run.now parent.now)) }
{
    let known = known_of(alloc, run, parent)?;
    for i in 0..run.visits().len() {
        match second_by(&known, run, parent, i) {
            None => {}
            Some(j) => {
                return Ok(Some(Swap {
                    in_run: i,
                    in_parent: j,
                }));
            }
        }
    }
    Ok(None)
}
