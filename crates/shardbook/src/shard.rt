// A shard: the entries of some codes, in the order of their New answers, under a lock of its own.

ghost use Rattle.std.specs.Prelude.{◌≡◌, ◌<◌, true, [], IfOk, IfErr, OnOk, OnErr, vec_len, vec_capacity};
ghost use Rattle.shardbook.specs.Inserts.{Inserts, CountsInsert};
ghost use Rattle.shardbook.specs.EntryRules.{IsWanted};
ghost use Rattle.shardbook.specs.Inner.Codes.{code_of_writes};

use crate::chains::Chains;
use crate::entries::Entries;
use crate::find::find;
use crate::met::Met;
use crate::parameters::{BookIdentity, Kept, SearchParameters};
use crate::pass::Pass;
use crate::push::refused_growth;
use crate::seen::Seen;
use crate::slots::Slots;
use basis::NoMemory;
use crossbeam_utils::CachePadded;
use statebook::Entry;
use std::alloc::Global;
use std::hash::Hash;
use std::marker::Model;
use std::sync::ledger::Share;
use std::sync::{Mutex, Wait};

// What lies under a shard's lock. A clause sees the list of its entries.
#[derive(Drop)]
pub(crate) struct Shard<S: Eq + Hash, Q: SearchParameters<S>, B: BookIdentity> {
    pub(crate) tokens: Vec<Seen<S, Q, B>>,
    pub(crate) chains: Chains,
    pub(crate) share: Share<B>,
}

// A shard's lock, away from those of others.
pub(crate) type Lock<S, Q, B> = CachePadded<Mutex<Shard<S, Q, B>>>;

impl<S: Eq + Hash, Q: SearchParameters<S>, B: BookIdentity> Model for Shard<S, Q, B> {
    ghost use Rattle.std.specs.Prelude.{List};
    ghost use Rattle.statebook.specs.declared.entry.Entry.{Entry};
    ghost use Rattle.shardbook.specs.StoredEntries.{entries_of};
    ghost use Rattle.shardbook.specs.Inner.Shards.{IsShard};

    ghost Value = { List (Entry S) };

    ghost view = { λ s. entries_of s.tokens.items };

    ghost invariant = { λ s. IsShard S.eq S.hash_input (entries_of s.tokens.items) s.chains.codes s.share.parts s.share.amount };
}

// Makes room for one more entry.
fn make_room<S, Q: SearchParameters<S>, B: BookIdentity>(
    tokens: &mut Vec<Seen<S, Q, B>>,
    chains: &mut Chains,
) -> Result<(), NoMemory>
    ensures tokens { tokens.new.items ≡ tokens.old.items }
    ensures codes { chains.new.codes ≡ chains.old.codes }
    ensures place { OnOk result (vec_len tokens.new < vec_capacity tokens.new) }
    ensures link { OnOk result (chains.new.room ≡ true) }
{
    tokens.reserve(1)?;
    chains.reserve()
}

// Puts the entry into the vector, with an empty slot. It is handed back where memory was refused.
fn store<S: Drop, Q: SearchParameters<S>, B: BookIdentity, R: Wait>(
    rt: &R,
    entries: &Entries<S, Q>,
    slots: &Slots<S, Q, B>,
    entry: Entry<S>,
) -> Result<Seen<S, Q, B>, (NoMemory, Entry<S>)>
    requires named { entries.now ≡ B.entries }
    requires wanted { IsWanted Q.rules Q.depart Q.steps entry }
    ensures ok { IfOk result (λ seen. seen.entry ≡ entry) }
    ensures handed_back { IfErr result (λ refused. refused.1 ≡ entry) }
{
    let slot = match slots.push(rt) {
        Ok(slot) => slot,
        Err(refused) => return Err((refused, entry)),
    };
    match entries.push(rt, Kept { entry, slot }) {
        Ok(seen) => Ok(seen),
        Err((refused, kept)) => Err((refused, kept.entry)),
    }
}

impl<S: Eq + Hash, Q: SearchParameters<S>, B: BookIdentity> Shard<S, Q, B> {
    // No entries. The share has one part, and no amount yet.
    pub(crate) fn new(alloc: Global, share: Share<B>) -> Shard<S, Q, B>
        requires part { share.parts ≡ 1 }
        requires amount { share.amount ≡ 0 }
        ensures { result ≡ [] }
    {
        Shard {
            tokens: Vec::new(alloc),
            chains: Chains::new(alloc),
            share,
        }
    }
}

impl<S: Eq + Hash + Drop, Q: SearchParameters<S>, B: BookIdentity> Shard<S, Q, B> {
    // Takes the entry as a new one, only where none of the shard dominates it; else answers with
    // one that does, and gives the entry back, to be let go without the lock. After want of
    // memory the entry is handed back.
    pub(crate) fn meet<R: Wait>(
        &mut self,
        rt: &R,
        entries: &Entries<S, Q>,
        slots: &Slots<S, Q, B>,
        pass: &mut Pass<B>,
        entry: Entry<S>,
        code: u64,
    ) -> Result<(Met<S, Q, B>, Option<Entry<S>>), (NoMemory, Entry<S>)>
        requires named { entries.now ≡ B.entries }
        requires wanted { IsWanted Q.rules Q.depart Q.steps entry }
        requires code { code ≡ code_of_writes (S.hash_input entry.state) }
        ensures met { IfOk result (λ met. Inserts S.eq self.old entry met.0 self.new) }
        ensures counted { IfOk result (λ met. CountsInsert met.0 pass.old pass.new) }
        ensures handed_back { IfErr result (λ refused. refused.1 ≡ entry) }
        ensures err { OnErr result (self.new ≡ self.old) }
        ensures uncounted { OnErr result (pass.new ≡ pass.old) }
    {
        if let Some(i) = find(entries, &self.tokens, &self.chains, &entry, code) {
            return Ok((Met::Known(self.tokens[i].again()), Some(entry)));
        }
        if !pass.has_room() {
            return Err((refused_growth(*self.tokens.allocator()), entry));
        }
        if let Err(refused) = make_room(&mut self.tokens, &mut self.chains) {
            return Err((refused, entry));
        }
        let seen = store(rt, entries, slots, entry)?;
        self.tokens.push_reserved(seen.again());
        self.chains.push_reserved(code);
        pass.spend(&mut self.share);
        Ok((Met::New(seen), None))
    }
}
