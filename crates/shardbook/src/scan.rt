// The scan that finds a list of entries closed: each is finished, and names only members.

ghost use Rattle.std.specs.Prelude.{◌≡◌, ◌↔◌, IsTrue};
ghost use Rattle.shardbook.specs.Inner.Scans.{AllAmong, AllDone, IsAmong, IsDone, IsStart};

use crate::entries::Entries;
use crate::parameters::{BookIdentity, SearchParameters};
use crate::seen::Seen;
use crate::slots::Slots;
use statebook::Entry;

// Whether it is the entry of a run that has taken no step.
pub(crate) fn is_start<S>(entry: &Entry<S>) -> bool
    ensures { IsTrue result ↔ IsStart entry.now }
{
    entry.steps == 0 && entry.log.members().is_empty()
}

// Whether one of the list shows the same place, wherever it stands.
fn is_anywhere<S, Q: SearchParameters<S>, B: BookIdentity>(
    entries: &Entries<S, Q>,
    all: &[Seen<S, Q, B>],
    seen: &Seen<S, Q, B>,
) -> bool
    requires { entries.now ≡ B.entries }
    ensures { IsTrue result → IsAmong all.now seen.now }
{
    for one in all {
        if one.place() == seen.place() {
            entries.agree(one, seen);
            return true;
        }
    }
    false
}

// Whether one of the list shows the same place. In the list of all places it is found at once.
pub(crate) fn is_among<S, Q: SearchParameters<S>, B: BookIdentity>(
    entries: &Entries<S, Q>,
    all: &[Seen<S, Q, B>],
    seen: &Seen<S, Q, B>,
) -> bool
    requires { entries.now ≡ B.entries }
    ensures { IsTrue result → IsAmong all.now seen.now }
{
    match all.get(seen.place()) {
        Some(one) if one.place() == seen.place() => {
            entries.agree(one, seen);
            true
        }
        _ => is_anywhere(entries, all, seen),
    }
}

// Whether each of these is in the list.
fn are_among<S, Q: SearchParameters<S>, B: BookIdentity>(
    entries: &Entries<S, Q>,
    all: &[Seen<S, Q, B>],
    these: &[Seen<S, Q, B>],
) -> bool
    requires { entries.now ≡ B.entries }
    ensures { IsTrue result → AllAmong all.now these.now }
{
    for one in these {
        if !is_among(entries, all, one) {
            return false;
        }
    }
    true
}

// Whether the entry is finished, and what it met is in the list.
fn is_done<S, Q: SearchParameters<S>, B: BookIdentity>(
    entries: &Entries<S, Q>,
    slots: &Slots<S, Q, B>,
    all: &[Seen<S, Q, B>],
    seen: &Seen<S, Q, B>,
) -> bool
    requires { entries.now ≡ B.entries }
    ensures { IsTrue result → IsDone Q.rules Q.depart Q.steps all.now seen.now }
{
    let Some(done) = slots.get(entries.kept_at(seen).slot) else {
        return false;
    };
    if done.entry().place() != seen.place() {
        return false;
    }
    entries.agree(done.entry(), seen);
    are_among(entries, all, done.next())
}

// Whether each of the list is finished, and names only members.
pub(crate) fn are_done<S, Q: SearchParameters<S>, B: BookIdentity>(
    entries: &Entries<S, Q>,
    slots: &Slots<S, Q, B>,
    all: &[Seen<S, Q, B>],
) -> bool
    requires { entries.now ≡ B.entries }
    ensures { IsTrue result → AllDone Q.rules Q.depart Q.steps all.now all.now }
{
    for one in all {
        if !is_done(entries, slots, all, one) {
            return false;
        }
    }
    true
}
