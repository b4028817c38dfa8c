// The book of one owner: its entries, each with the places of its successors once it is finished.

ghost use Rattle.std.specs.Prelude.{◌≡◌, ℕ, List, ◌<◌, ◌≤◌, ◌↔◌, true, false, length, slice_get, map, Contains, Some, None, IsTrue, IsSome, IfSome, IfNone, IfOk, IfErr, OnOk, OnErr, option_copied};
ghost use Rattle.statebook.specs.Books.{AllClosed, AllIn, Book, IsClosed, IsClosedAt, IsFinished, IsFoundAt, IsRootAt, IsUndominated, IsUnfinished, Inserts, finish, no_entries, places_of};
ghost use Rattle.statebook.specs.Inner.Kept.{HasNoDominator, HasNoEqual, IsEqualAt};

use crate::entry::Entry;
use basis::NoMemory;
use indexmap::IndexSet;
use std::alloc::Global;
use std::hash::Hash;
use std::marker::Model;

/// What a book answers on meeting an entry, which is an insert into the visited set: the place where
/// it put it, or that of an entry that dominates it.
#[derive(Clone, Copy, PartialEq, Eq)]
pub enum Met {
    New(usize),
    Known(usize),
}

/// What a finished entry met: its place, and for each choice in order the place of the entry that
/// dominates what stood after it.
#[derive(Drop)]
pub struct Done {
    pub entry: usize,
    pub next: Vec<usize>,
}

/// A book of entries for one owner: the visited set of a search. A place is the number of an
/// entry, from 0, in the order of the New answers. A clause sees the list of entries, and beside it,
/// for each, the places of its successors once it is finished.
///
/// Look-ups go by hash of the state and by budget, one for each budget from the entry's to the
/// greatest met. Equal hashes are never taken for equal states.
#[derive(Drop)]
pub struct PlainBook<S: Eq + Hash> {
    entries: IndexSet<Entry<S>>,
    finished: Vec<Option<Vec<usize>>>,
    top: u32,
}

impl<S: Eq + Hash> Model for PlainBook<S> {
    ghost use Rattle.statebook.specs.Books.{Book, book_of};
    ghost use Rattle.statebook.specs.Inner.Kept.{IsKept};

    ghost Value = { Book S };

    ghost view = { λ b. book_of b.entries.keys b.finished.items };

    ghost invariant = { λ b. IsKept S.eq (book_of b.entries.keys b.finished.items) b.top };
}

// The place of the entry that is equal in state and budget.
fn place_of_equal<S: Eq + Hash>(entries: &IndexSet<Entry<S>>, probe: &Entry<S>) -> Option<usize>
    ensures found { IfSome result (IsEqualAt S.eq entries.now.keys probe.now) }
    ensures none { IfNone result (HasNoEqual S.eq entries.now.keys probe.now) }
{
    entries.get_index_of(probe)
}

// The place of an entry that dominates this one, where no budget is over the top. One look-up
// for each budget that would do.
fn dominator<S: Eq + Hash>(
    entries: &IndexSet<Entry<S>>,
    entry: &mut Entry<S>,
    top: u32,
) -> Option<usize>
    ensures same { entry.new ≡ entry.old }
    ensures found { IfSome result (IsFoundAt S.eq entries.now.keys entry.old) }
    ensures none { IfNone result (HasNoDominator S.eq entries.now.keys top entry.old) }
{
    let budget = entry.budget;
    let mut found = place_of_equal(entries, entry);
    while found.is_none() && entry.budget < top {
        entry.budget += 1;
        found = place_of_equal(entries, entry);
    }
    entry.budget = budget;
    found
}

// Whether the place is in the list. In the list of all places it is found at once.
fn is_among(all: &[usize], place: usize) -> bool
    ensures { IsTrue result ↔ Contains all.now place }
{
    all.get(place) == Some(&place) || all.contains(&place)
}

// Whether each of the places is in the list.
fn are_among(all: &[usize], places: &[usize]) -> bool
    ensures { IsTrue result ↔ AllIn all.now places.now }
{
    for place in places {
        if !is_among(all, *place) {
            return false;
        }
    }
    true
}

// Whether the entry at the place is finished, and all that its list names are in the list.
fn is_closed_at(finished: &[Option<Vec<usize>>], all: &[usize], place: usize) -> bool
    ensures { IsTrue result ↔ IsClosedAt (map places_of finished.now) all.now place }
{
    match finished.get(place) {
        Some(Some(places)) => are_among(all, places),
        Some(None) => false,
        None => false,
    }
}

// Whether each place of the list is closed.
fn are_closed(finished: &[Option<Vec<usize>>], all: &[usize]) -> bool
    ensures { IsTrue result ↔ AllClosed (map places_of finished.now) all.now }
{
    for place in all {
        if !is_closed_at(finished, all, *place) {
            return false;
        }
    }
    true
}

impl<S: Eq + Hash + Drop> PlainBook<S> {
    /// A book without entries.
    pub fn new(alloc: Global) -> Self
        ensures { result ≡ no_entries }
    {
        PlainBook {
            entries: IndexSet::new(alloc),
            finished: Vec::new(alloc),
            top: 0,
        }
    }

    /// Its entries, in order; what else the book holds is let go. No entry is dominated by an earlier one.
    pub fn into_entries(self) -> IndexSet<Entry<S>>
        ensures entries { result.keys ≡ self.entries }
        ensures paired { length self.finished ≡ length self.entries }
        ensures undominated { IsUndominated S.eq self.entries }
    {
        self.entries
    }

    /// How many entries the book has. No entry is dominated by an earlier one.
    pub fn len(&self) -> usize
        ensures count { result ≡ length self.now.entries }
        ensures paired { result ≡ length self.now.finished }
        ensures undominated { IsUndominated S.eq self.now.entries }
    {
        self.finished.len()
    }

    /// Inserts the entry into the visited set, only where no entry dominates it; else answers with the
    /// place of one that does, and lets the entry go. After want of memory the entry is handed back.
    pub fn meet(&mut self, mut entry: Entry<S>) -> Result<Met, (NoMemory, Entry<S>)>
        ensures ok { IfOk result (λ met. Inserts S.eq self.old entry met self.new) }
        ensures handed_back { IfErr result (λ refused. refused.1 ≡ entry) }
        ensures err { OnErr result (self.new ≡ self.old) }
    {
        if let Some(place) = dominator(&self.entries, &mut entry, self.top) {
            return Ok(Met::Known(place));
        }
        if let Err(refused) = self.finished.reserve(1) {
            return Err((NoMemory::from(refused), entry));
        }
        if let Err(refused) = self.entries.reserve(1) {
            return Err((NoMemory::from(refused), entry));
        }
        self.top = self.top.max(entry.budget);
        let (place, _) = self.entries.insert_full(entry).unwrap();
        self.finished.push(None).unwrap();
        Ok(Met::New(place))
    }

    /// The entry at the place.
    pub fn read(&self, place: usize) -> &Entry<S>
        requires { place < length self.now.entries }
        ensures { slice_get self.now.entries place ≡ Some result.now }
    {
        self.entries.get_index(place).unwrap()
    }

    /// The place, if an entry stands there.
    pub fn at(&self, place: usize) -> Option<usize>
        ensures within { IsSome result ↔ (place < length self.now.entries) }
        ensures same { IfSome result (λ found. found ≡ place) }
    {
        if place < self.finished.len() {
            Some(place)
        } else {
            None
        }
    }

    /// Notes that the entry is finished, with the places of its successors. Where it is finished
    /// already they are handed back.
    pub fn finish(&mut self, done: Done) -> Result<(), Done>
        requires { done.entry < length self.old.entries }
        ensures ok { OnOk result (self.new ≡ finish self.old done.entry done.next.items) }
        ensures once { OnOk result (IsUnfinished self.old done.entry) }
        ensures handed_back { IfErr result (λ back. back ≡ done) }
        ensures twice { OnErr result (IsFinished self.old done.entry) }
        ensures err { OnErr result (self.new ≡ self.old) }
    {
        if self.finished[done.entry].is_some() {
            return Err(done);
        }
        let Done { entry, next } = done;
        self.finished[entry] = Some(next);
        Ok(())
    }

    // Whether the place is that of a run's first entry, with no departure and no step.
    fn is_root(&self, place: usize) -> bool
        ensures { IsTrue result ↔ IsRootAt self.now.entries place }
    {
        match self.entries.get_index(place) {
            Some(entry) if entry.steps == 0 => entry.log.members().is_empty(),
            _ => false,
        }
    }

    /// Whether the list, as a set of places, closes: it has the root's place, and each member is
    /// finished and names only members. It takes time linear in the list and in what its members
    /// name where the list is of all places in order, else quadratic.
    pub fn closed(&self, root: usize, all: &[usize]) -> bool
        ensures { IsTrue result ↔ IsClosed self.now root all.now }
    {
        if !self.is_root(root) {
            return false;
        }
        if !is_among(all, root) {
            return false;
        }
        are_closed(&self.finished, all)
    }
}
