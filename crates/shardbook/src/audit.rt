// The audit of a book: its shards' lists against what the passes have counted.

ghost use Rattle.std.specs.Prelude.{◌≡◌, ◌+◌, ◌^◌, ◌≤◌, vec_len, vec_capacity};
ghost use Rattle.shardbook.specs.Inner.Ledgers.{AddsUp};

use crate::parameters::{BookIdentity, SearchParameters};
use crate::shard::{Lock, Shard};
use crossbeam_utils::CachePadded;
use std::hash::Hash;
use std::sync::Mutex;
use std::sync::ledger::{Share, Total};

// The length of all lists together. Each shard lends its share to `all` until the total is told.
pub(crate) fn lengths<S: Eq + Hash, Q: SearchParameters<S>, B: BookIdentity>(
    shards: &mut Vec<Lock<S, Q, B>>,
    all: &mut Share<B>,
    total: &Total<B>,
) -> u64
    requires few { total.now.amount ≤ 2 ^ 62 }
    requires backed { all.old.parts ≡ 0 → all.old.amount ≡ 0 }
    ensures len { vec_len shards.new ≡ vec_len shards.old }
    ensures capacity { vec_capacity shards.new ≡ vec_capacity shards.old }
    ensures parts { all.new.parts ≡ all.old.parts }
    ensures amount { all.new.amount ≡ all.old.amount }
    ensures bound { all.old.amount + result ≤ total.now.amount }
    ensures whole { AddsUp all.old (vec_len shards.old) result total.now }
{
    let Some(lock) = shards.pop() else {
        total.audit(all);
        return 0;
    };
    let Shard {
        tokens,
        chains,
        mut share,
    } = lock.into_inner().into_inner();
    let len = tokens.len() as u64;
    share.give(all, 1, len);
    let others = lengths(shards, all, total);
    all.give(&mut share, 1, len);
    shards.push_reserved(CachePadded::new(Mutex::new(Shard {
        tokens,
        chains,
        share,
    })));
    len + others
}
