// The book that workers share: its entries in shards by their codes, each under a lock of its own.

ghost use Rattle.std.specs.Prelude.{◌≡◌, ◌+◌, ◌<◌, ◌^◌, IsTrue, IfSome, IfOk, IfErr, OnErr, OnOk, vec_len};
ghost use Rattle.shardbook.specs.Closing.{Closes};
ghost use Rattle.shardbook.specs.Inserts.{CountsInsert, Shows};
ghost use Rattle.shardbook.specs.Names.{AreNames};
ghost use Rattle.shardbook.specs.EntryRules.{IsWanted};

use crate::audit::lengths;
use crate::code::code_of;
use crate::done::Done;
use crate::entries::Entries;
use crate::met::Met;
use crate::parameters::{BookIdentity, SearchParameters};
use crate::pass::{ALL, Pass};
use crate::scan::{are_done, is_among, is_start};
use crate::seen::Seen;
use crate::shard::{Lock, Shard};
use crate::slots::Slots;
use crate::unopened::Unopened;
use basis::NoMemory;
use crossbeam_utils::CachePadded;
use statebook::Entry;
use std::alloc::Global;
use std::hash::Hash;
use std::sync::ledger::{Share, Total};
use std::sync::{Mutex, Wait};

/// A book of entries that threads share: their visited set. A thread meets entries by a pass of its
/// own, and waits only for the lock of the one shard that an entry belongs to, and for room that
/// another makes in the list of entries; whatever stands in the book is read and finished without a
/// lock. No state is copied, stepped or hashed under a lock.
#[derive(Drop)]
pub struct Book<S: Eq + Hash, Q: SearchParameters<S>, B: BookIdentity> {
    entries: Entries<S, Q>,
    slots: Slots<S, Q, B>,
    shards: Vec<Lock<S, Q, B>>,
    total: Total<B>,
    ghost named: { entries ≡ B.entries },
    ghost some_shards: { 0 < vec_len shards },
    ghost whole: { total.amount ≡ 2 ^ 62 },
    ghost parts: { total.parts ≡ 2 ^ 62 + vec_len shards },
}

// So many shards, each with a part of the share.
fn new_shards<S: Eq + Hash + Drop, Q: SearchParameters<S>, B: BookIdentity>(
    alloc: Global,
    share: &mut Share<B>,
    count: usize,
) -> Result<Vec<Lock<S, Q, B>>, NoMemory>
    requires { share.old.parts ≡ ALL + count }
    ensures len { IfOk result (λ shards. vec_len shards ≡ count) }
    ensures parts { OnOk result (share.new.parts ≡ ALL) }
    ensures amount { share.new.amount ≡ share.old.amount }
{
    let mut shards = Vec::new(alloc);
    for _ in 0..count {
        let part = share.split_off(1, 0);
        shards.push(CachePadded::new(Mutex::new(Shard::new(alloc, part))))?;
    }
    Ok(shards)
}

impl<S: Eq + Hash + Drop, Q: SearchParameters<S>, B: BookIdentity> Book<S, Q, B> {
    /// The book, without entries, and the pass with all parts. The error is want of memory, E901.
    pub fn open(
        alloc: Global,
        unopened: Unopened<S, Q>,
    ) -> Result<(Book<S, Q, B>, Pass<B>), NoMemory>
        requires { AreNames unopened B.entries B.name B.parts }
        ensures parts { IfOk result (λ opened. opened.1.parts ≡ ALL) }
        ensures count { IfOk result (λ opened. opened.1.count ≡ 0) }
    {
        let Unopened {
            entries,
            blank,
            shards: count,
        } = unopened;
        let (mut ledger, mut share) = blank.open::<B>();
        ledger.add(&mut share, ALL);
        let shards = new_shards(alloc, &mut share, count)?;
        let book = Book {
            entries,
            slots: Slots::new(alloc)?,
            shards,
            total: ledger.close(),
        };
        Ok((book, Pass::first(share)))
    }

    /// Inserts the entry into the visited set, only where none of its shard dominates it; else answers
    /// with one that does, and lets the entry go. After want of memory, E901, the entry is handed back.
    pub fn meet<R: Wait>(
        &self,
        rt: &R,
        pass: &mut Pass<B>,
        entry: Entry<S>,
    ) -> Result<Met<S, Q, B>, (NoMemory, Entry<S>)>
        requires { IsWanted Q.rules Q.depart Q.steps entry }
        ensures shown { IfOk result (Shows S.eq entry) }
        ensures counted { IfOk result (λ met. CountsInsert met pass.old pass.new) }
        ensures handed_back { IfErr result (λ refused. refused.1 ≡ entry) }
        ensures uncounted { OnErr result (pass.new ≡ pass.old) }
    {
        let code = code_of(&entry.state);
        let number = code % self.shards.len() as u64;
        let lock: &Mutex<Shard<S, Q, B>> = &self.shards[number as usize];
        let (met, untaken) = lock
            .lock(rt)
            .meet(rt, &self.entries, &self.slots, pass, entry, code)?;
        drop(untaken);
        Ok(met)
    }
}

impl<S: Eq + Hash, Q: SearchParameters<S>, B: BookIdentity> Book<S, Q, B> {
    /// The entry that was seen, the same one for good. It is one that the search may add.
    pub fn read(&self, seen: &Seen<S, Q, B>) -> &Entry<S>
        ensures same { result.now ≡ seen.now.entry }
        ensures wanted { IsWanted Q.rules Q.depart Q.steps result.now }
    {
        &self.entries.kept_at(seen).entry
    }

    /// What shows the entry at the place, if one stands there by now.
    pub fn at(&self, place: usize) -> Option<Seen<S, Q, B>>
        ensures { IfSome result (λ seen. seen.place ≡ place) }
    {
        self.entries.at(place)
    }

    /// Two that show one place show one entry.
    pub fn agree(&self, one: &Seen<S, Q, B>, other: &Seen<S, Q, B>)
        requires { one.now.place ≡ other.now.place }
        ensures { one.now ≡ other.now }
    {
        self.entries.agree(one, other)
    }

    /// Notes that the entry is finished. Where it is, or is being, what it met is handed back.
    pub fn finish(&self, done: Done<S, Q, B>) -> Result<(), Done<S, Q, B>>
        ensures { IfErr result (λ back. back ≡ done) }
    {
        let slot = self.entries.kept_at(done.entry()).slot;
        self.slots.set(slot, done)
    }

    /// Whether the list, as a set of entries, closes: it has the root's entry, and each member is
    /// finished and names only members. It takes time linear in the list and in what its members
    /// name where the list is of all places in order, else quadratic. Where it answers true, these
    /// entries are a sound book that all its places close.
    pub fn closed(&self, root: &Seen<S, Q, B>, all: &[Seen<S, Q, B>]) -> bool
        ensures { IsTrue result → Closes Q.rules Q.depart Q.steps root.now all.now }
    {
        if !is_start(self.read(root)) {
            return false;
        }
        if !is_among(&self.entries, all, root) {
            return false;
        }
        are_done(&self.entries, &self.slots, all)
    }

    /// Whether the shards' lists together are as long as the pass has counted. So they are where
    /// the pass has all parts.
    pub fn audit(&mut self, pass: &mut Pass<B>) -> bool
        ensures whole { pass.old.parts ≡ ALL → IsTrue result }
        ensures same { pass.new ≡ pass.old }
    {
        lengths(&mut self.shards, &mut pass.share, &self.total) == pass.count
    }

    /// One pass in place of two, with the parts and the counts of both.
    pub fn join(&self, one: Pass<B>, other: Pass<B>) -> Pass<B>
        ensures parts { result.parts ≡ one.parts + other.parts }
        ensures count { result.count ≡ one.count + other.count }
    {
        one.join(other, &self.total)
    }
}
