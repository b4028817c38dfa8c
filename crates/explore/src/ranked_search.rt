// What a search that goes by rank keeps as it goes on.

use crate::rank_book::RankBook;
use crate::search::Search;
use std::hash::Hash;

/// What a search that goes by rank keeps: the entries of the rank under way, those that wait at later ranks, the next last, and
/// the counts that its watcher is shown. Entries of closed ranks are forgotten. Of the forced ways of the rank it keeps the states
/// that are remembered, and the entries that long ways came to, behind the root's.
#[derive(Drop)]
pub struct RankedSearch<S: Eq + Hash> {
    pub current: RankBook<S>,
    pub later: Vec<RankBook<S>>,
    pub known: Search<S>,
    pub opened: usize,
    pub held: usize,
    pub closed: u64,
}
