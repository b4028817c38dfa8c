// A search that goes from one time to the next.

use crate::answer::Explanation;
use crate::candidates::Way;
use indexmap::IndexMap;
use std::hash::Hash;

/// A run that doesn't fit, and in how many of the things that are compared it differs.
#[derive(Drop)]
pub struct Nearest<S> {
    pub differences: usize,
    pub run: Explanation<S>,
}

/// The candidates at a time; of the runs that were dropped then, the one that differs least of those that end a slot, and of those
/// that stand between two slots.
#[derive(Drop)]
pub struct Search<S: Eq + Hash> {
    pub time: u64,
    pub candidates: IndexMap<S, Way<S>>,
    pub ending: Option<Nearest<S>>,
    pub waiting: Option<Nearest<S>>,
}

/// Whether a run that differs in so many would be the nearest.
pub fn is_nearer<S>(nearest: &Option<Nearest<S>>, differences: usize) -> bool {
    match nearest {
        Some(nearest) => differences < nearest.differences,
        None => true,
    }
}
