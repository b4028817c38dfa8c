// The call of one owner: it opens the book, goes through it, and reads the marks from it.

ghost use Rattle.std.specs.Prelude.{◌≡◌, true, false, length, [], ◌∷◌, Ok, None, IfOk};
ghost use Rattle.indexmap.specs.IndexMap.{IsUnique};
ghost use Rattle.explore.specs.Found.{ListsAll, ListsFewest, ListsFound, TellsEntries, TellsSteps};
ghost use Rattle.explore.specs.BookFindings.{TellsOfBook};
ghost use Rattle.explore.specs.Inner.Exploring.{Closes, IsComplete, IsUnderWay, StoppedFull};
ghost use Rattle.explore.specs.Inner.Ways.{IsSearching};

use crate::classes::{Full, visit_all};
use crate::findings::{Findings, Status};
use crate::marks::into_marks;
use crate::search::Search;
use basis::{NoMemory, OrMemory};
use indexmap::IndexMap;
use sched_core::{Log, Space};
use statebook::{Entry, Limits, PlainBook, Reason};
use std::alloc::Global;
use std::hash::Hash;

// Whether all places together close the book.
fn closes<S: Eq + Hash + Drop>(alloc: Global, book: &PlainBook<S>) -> Result<bool, NoMemory>
    ensures closed { IfOk result (λ closed. closed ≡ true → Closes book.now) }
    ensures open { IfOk result (λ closed. closed ≡ false → IsComplete book.now → ⊥) }
{
    let mut all = Vec::with_capacity(alloc, book.len())?;
    for place in 0..book.len() {
        all.push(place)?;
    }
    Ok(book.closed(0, &all))
}

// The book with the root's entry alone.
fn open_book<P: Space>(
    alloc: Global,
    space: &P,
    limits: &Limits,
) -> Result<PlainBook<P::State>, NoMemory>
    ensures under_way { IfOk result (IsUnderWay (P.rules space.now) limits.now) }
    ensures alone { IfOk result (λ book. length book.entries ≡ 1) }
{
    let root = Entry {
        state: space.root()?,
        budget: limits.depart,
        log: Log::new(alloc),
        steps: 0,
    };
    let mut book = PlainBook::new(alloc);
    match book.meet(root) {
        Ok(_) => Ok(book),
        Err((refused, _)) => Err(refused),
    }
}

/// The search with the root's entry alone, which remembers nothing yet.
pub fn open_search<P: Space>(
    alloc: Global,
    space: &P,
    limits: &Limits,
) -> Result<Search<P::State>, NoMemory>
    ensures searching { IfOk result (IsSearching (P.rules space.now) limits.now) }
    ensures alone { IfOk result (λ search. length search.book.entries ≡ 1) }
{
    Ok(Search {
        book: open_book(alloc, space, limits)?,
        ways: IndexMap::new(alloc),
        list: IndexMap::with_capacity(alloc, 1)?,
    })
}

// What is to be said of a book that was gone through: exhausted where a closing scan of all its
// entries answers true.
fn status_of<S: Eq + Hash + Drop>(
    alloc: Global,
    book: &PlainBook<S>,
    visited: Result<bool, OrMemory<Full>>,
) -> Status
    requires { visited ≡ Ok true → IsComplete book.now }
    ensures closed { result ≡ Status.Exhausted → Closes book.now }
    ensures exhausted { result ≡ Status.Exhausted → visited ≡ Ok true }
    ensures entries { result ≡ Status.Cut Reason.Entries → StoppedFull visited }
    ensures steps { result ≡ Status.Cut Reason.Steps → visited ≡ Ok false }
{
    match visited {
        Ok(true) => match closes(alloc, book) {
            Ok(true) => Status::Exhausted,
            Ok(false) => unreachable!(),
            Err(refused) => Status::Cut(Reason::Memory(refused)),
        },
        Ok(false) => Status::Cut(Reason::Steps),
        Err(OrMemory::Fault(_)) => Status::Cut(Reason::Entries),
        Err(OrMemory::Memory(refused)) => Status::Cut(Reason::Memory(refused)),
    }
}

/// Explores the space on the caller's own thread: every run of at most `limits.depart` departures
/// from choice 0. It lists the marks that were met, each once, with a log of the fewest departures
/// that was met with it.
///
/// Proved: each listed mark is reached under its log, by a run within both limits. Where it says
/// `Exhausted`, every mark that a run of at most `limits.depart` departures reaches is listed, after
/// however many steps, and no run at all that reaches a listed mark has fewer departures than its log.
/// Where it says `Cut(Entries)`, there are at least `limits.entries` entries; where `Cut(Steps)`, some
/// run of at most `limits.depart` departures takes more than `limits.steps` steps. Whatever it says,
/// the marks are those of one book that allowed events lead to, each with the log of the entry of the
/// greatest budget. `Cut(Steps)` is said only where some choice of some entry of that book goes past
/// the limit of steps, and then each choice of each entry leads to an entry or goes past that limit,
/// and there are fewer entries than their limit.
///
/// Beside the entries it keeps states on forced ways, one in `SPACING` steps and at most `ROOM` more
/// than there are entries. A way that comes to one of them at such a count of steps isn't walked on.
///
/// The error is want of memory for the root, E901; for the list room is held as the book grows.
pub fn explore_alone<P: Space>(
    alloc: Global,
    space: &P,
    limits: &Limits,
) -> Result<Findings<P::State>, NoMemory>
    ensures found { IfOk result (ListsFound (P.rules space.now) limits.now) }
    ensures distinct { IfOk result (λ findings. IsUnique P.State.eq findings.marks) }
    ensures exhausted { IfOk result (ListsAll (P.rules space.now) limits.now) }
    ensures fewest { IfOk result (ListsFewest (P.rules space.now)) }
    ensures entries { IfOk result (TellsEntries (P.rules space.now) limits.now) }
    ensures steps { IfOk result (TellsSteps (P.rules space.now) limits.now) }
    ensures book { IfOk result (TellsOfBook (P.rules space.now) limits.now) }
{
    let mut search = open_search(alloc, space, limits)?;
    let visited = visit_all(alloc, space, limits, &mut search);
    let Search { book, ways, list } = search;
    drop(ways);
    let status = status_of(alloc, &book, visited);
    let marks = into_marks(space, limits, book, list)?;
    Ok(Findings { marks, status })
}
