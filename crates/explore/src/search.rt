// What an explorer keeps as it goes on.

use indexmap::IndexMap;
use sched_core::Log;
use statebook::PlainBook;
use std::hash::Hash;

/// What is known of a state on a forced way: for so many steps from it there is no station. With a
/// place, the next station stands after them, and it is that of the entry at the place.
#[derive(Clone, Copy)]
pub struct Onward {
    pub steps: u32,
    pub station: Option<usize>,
}

/// A state on the way that is walked, after so many steps of its run.
#[derive(Drop)]
pub struct Checkpoint<S> {
    pub state: S,
    pub taken: u32,
}

/// What an explorer keeps: its book, and what it knows of states on forced ways. Beside them stands the list of marks, which is
/// empty until the search has ended, but has room for as many as there are entries. So a search that memory is refused to has
/// the memory in which to list what it found.
#[derive(Drop)]
pub struct Search<S: Eq + Hash> {
    pub book: PlainBook<S>,
    pub ways: IndexMap<S, Onward>,
    pub list: IndexMap<S, Log>,
}
