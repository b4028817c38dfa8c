// The book of one rank, and those of the ranks that wait.

ghost use Rattle.std.specs.Prelude.{◌≡◌, ◌≤◌, true, false, length, IfOk};
ghost use Rattle.explore.specs.Inner.RankedSearches.{AreAfter, AreFrom, AreInOrder, IsRankAt, IsNoRankAt, Keeps, KeepsAt, Opens};

use basis::NoMemory;
use statebook::{Entry, Met, PlainBook};
use std::alloc::Global;
use std::hash::Hash;

/// The entries of one rank.
#[derive(Drop)]
pub struct RankBook<S: Eq + Hash> {
    pub rank: u64,
    pub book: PlainBook<S>,
}

/// Meets the book with the entry, and answers whether it is new there. After want of memory nothing is said of the book.
pub fn open_in<S: Eq + Hash + Drop>(
    of_rank: &mut RankBook<S>,
    entry: Entry<S>,
) -> Result<bool, NoMemory>
    ensures ok { IfOk result (Opens S.eq of_rank.old entry of_rank.new) }
{
    match of_rank.book.meet(entry) {
        Ok(Met::New(_)) => Ok(true),
        Ok(Met::Known(_)) => Ok(false),
        Err((refused, _)) => Err(refused),
    }
}

// How many books of a higher rank stand before the first that has none. Ranks fall in the list.
fn place_of<S: Eq + Hash>(later: &[RankBook<S>], rank: u64) -> usize
    ensures within { result ≤ length later.now }
    ensures before { AreAfter later.now result rank }
    ensures from { AreFrom later.now result rank }
{
    let mut place = 0;
    for of_rank in later {
        if of_rank.rank <= rank {
            return place;
        }
        place += 1;
    }
    place
}

// Whether the book at the place has this rank.
fn has_rank<S: Eq + Hash>(later: &[RankBook<S>], place: usize, rank: u64) -> bool
    ensures yes { result ≡ true → IsRankAt later.now place rank }
    ensures no { result ≡ false → IsNoRankAt later.now place rank }
{
    match later.get(place) {
        Some(of_rank) => of_rank.rank == rank,
        None => false,
    }
}

// Puts a book with the entry alone at the place.
fn open_rank<S: Eq + Hash + Drop>(
    alloc: Global,
    later: &mut Vec<RankBook<S>>,
    place: usize,
    rank: u64,
    entry: Entry<S>,
) -> Result<bool, NoMemory>
    requires { place ≤ length later.old.items }
    ensures ok { IfOk result (KeepsAt S.eq later.old.items place rank entry later.new.items) }
{
    let mut of_rank = RankBook {
        rank,
        book: PlainBook::new(alloc),
    };
    let is_new = open_in(&mut of_rank, entry)?;
    later.insert(place, of_rank)?;
    Ok(is_new)
}

/// Meets the book of the rank with the entry, which it opens where none has this rank; it answers whether
/// the entry is new there.
pub fn keep_later<S: Eq + Hash + Drop>(
    alloc: Global,
    later: &mut Vec<RankBook<S>>,
    rank: u64,
    entry: Entry<S>,
) -> Result<bool, NoMemory>
    requires { AreInOrder later.old.items }
    ensures ok { IfOk result (Keeps S.eq later.old.items rank entry later.new.items) }
{
    let place = place_of(later, rank);
    if has_rank(later, place, rank) {
        open_in(&mut later[place], entry)
    } else {
        open_rank(alloc, later, place, rank, entry)
    }
}
