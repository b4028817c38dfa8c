// The order of work: entry by entry, by their departures.

ghost use Rattle.std.specs.Prelude.{◌≡◌, ℕ, ◌+◌, ◌≤◌, true, false, length, IfOk, OnOk};
ghost use Rattle.basis.specs.Reasons.{IfFault};
ghost use Rattle.explore.specs.BookFindings.{IsBounded};
ghost use Rattle.explore.specs.Inner.Exploring.{AllFinished, AllVisited, BookGrows, CutsShort, FinishedAt, VisitedAt, width_limit};
ghost use Rattle.explore.specs.Inner.Ways.{IsSearching};

use crate::search::Search;
use crate::visit::visit;
use basis::OrMemory;
use sched_core::Space;
use statebook::Limits;
use std::alloc::Global;

/// As a job was to be taken there were as many entries as the limit, or more.
#[derive(Clone, Copy)]
pub struct Full;

// Visits each entry of this budget, those that it adds among them. Answers false where a way
// took more steps than the limit.
fn visit_class<P: Space>(
    alloc: Global,
    space: &P,
    limits: &Limits,
    search: &mut Search<P::State>,
    budget: u32,
) -> Result<bool, OrMemory<Full>>
    requires searching { IsSearching (P.rules space.now) limits.now search.old }
    requires bounded { IsBounded (P.rules space.now) limits.now.entries search.old.book.entries }
    requires few { length search.old.book.entries ≤ limits.now.entries + width_limit }
    ensures finished { IfOk result (λ within. within ≡ true → FinishedAt search.new.book budget) }
    ensures all { OnOk result (VisitedAt (P.rules space.now) limits.now search.new.book budget) }
    ensures past { IfOk result (CutsShort (P.rules space.now) limits.now search.new.book) }
    ensures full { IfFault result (λ _. limits.now.entries ≤ length search.new.book.entries) }
    ensures searching { IsSearching (P.rules space.now) limits.now search.new }
    ensures grows { BookGrows search.old.book search.new.book budget }
    ensures bounded { IsBounded (P.rules space.now) limits.now.entries search.new.book.entries }
    ensures few { length search.new.book.entries ≤ limits.now.entries + width_limit }
{
    let mut within = true;
    let mut place = 0;
    while place < search.book.len() {
        if search.book.read(place).budget == budget {
            if search.book.len() >= limits.entries as usize {
                return Err(OrMemory::Fault(Full));
            }
            if !visit(alloc, space, limits, search, place)? {
                within = false;
            }
        }
        place += 1;
    }
    Ok(within)
}

/// Visits the entries by their departures, those with none first. So of equal states the one with
/// the fewest is mostly met first, and few entries are added that a later one dominates. Answers
/// false where a way took more steps than the limit.
pub fn visit_all<P: Space>(
    alloc: Global,
    space: &P,
    limits: &Limits,
    search: &mut Search<P::State>,
) -> Result<bool, OrMemory<Full>>
    requires searching { IsSearching (P.rules space.now) limits.now search.old }
    requires bounded { IsBounded (P.rules space.now) limits.now.entries search.old.book.entries }
    requires few { length search.old.book.entries ≤ limits.now.entries + width_limit }
    ensures finished { IfOk result (λ within. within ≡ true → AllFinished search.new.book) }
    ensures all { OnOk result (AllVisited (P.rules space.now) limits.now search.new.book) }
    ensures past { IfOk result (CutsShort (P.rules space.now) limits.now search.new.book) }
    ensures full { IfFault result (λ _. limits.now.entries ≤ length search.new.book.entries) }
    ensures searching { IsSearching (P.rules space.now) limits.now search.new }
    ensures bounded { IsBounded (P.rules space.now) limits.now.entries search.new.book.entries }
{
    let mut within = true;
    for departures in 0..limits.depart + 1 {
        if !visit_class(alloc, space, limits, search, limits.depart - departures)? {
            within = false;
        }
    }
    Ok(within)
}
