// The look-up of a shard: by code, then by the states themselves.

ghost use Rattle.std.specs.Prelude.{◌≡◌, ◌↔◌, IsTrue, IfSome, IfNone};
ghost use Rattle.statebook.specs.Books.{Dominates, IsFoundAt};
ghost use Rattle.shardbook.specs.StoredEntries.{entries_of};
ghost use Rattle.shardbook.specs.Inserts.{HasNone};
ghost use Rattle.shardbook.specs.Inner.Codes.{code_of_writes, codes_of};

use crate::chains::Chains;
use crate::entries::Entries;
use crate::parameters::{BookIdentity, SearchParameters};
use crate::seen::Seen;
use statebook::Entry;
use std::hash::Hash;

// Whether the entry dominates the other.
fn dominates<S: Eq>(entry: &Entry<S>, other: &Entry<S>) -> bool
    ensures { IsTrue result ↔ Dominates S.eq entry.now other.now.state other.now.budget }
{
    entry.budget >= other.budget && entry.state == other.state
}

// The place, among those that were seen, of an entry that dominates this one. Equal codes are
// never taken for equal states.
pub(crate) fn find<S: Eq + Hash, Q: SearchParameters<S>, B: BookIdentity>(
    entries: &Entries<S, Q>,
    tokens: &[Seen<S, Q, B>],
    chains: &Chains,
    entry: &Entry<S>,
    code: u64,
) -> Option<usize>
    requires named { entries.now ≡ B.entries }
    requires chained { chains.now.codes ≡ codes_of S.hash_input (entries_of tokens.now) }
    requires code { code ≡ code_of_writes (S.hash_input entry.now.state) }
    ensures found { IfSome result (IsFoundAt S.eq (entries_of tokens.now) entry.now) }
    ensures none { IfNone result (HasNone S.eq (entries_of tokens.now) entry.now) }
{
    let mut place = chains.last(code);
    while let Some(i) = place {
        if dominates(&entries.kept_at(&tokens[i]).entry, entry) {
            return Some(i);
        }
        place = chains.before(i);
    }
    None
}
