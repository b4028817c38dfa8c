// The rule of the tally's words, and what each step on them tells. Only contracts read these types.

ghost use Rattle.std.specs.Prelude.{◌≡◌};
ghost use Rattle.workpool.specs.Inner.Rules.{FindsAll, IsTallied, fresh, with_open, with_shut, with_mark, with_stop, split_left, split_right, join_of, no_counts, StaysHeard};

use atomic_table::{Join, Play, Split, TableRule};

// What a seat has counted, how many parts it has of the right to know the whole, and whether it
// knows of the mark to stop. No value of it is made.
pub struct Counted {
    pub parts: u64,
    pub opens: u64,
    pub shuts: u64,
    pub stopped: bool,
}

// The words are the sums of what all seats have counted, and the mark.
pub struct Tallied;

impl TableRule<(), Counted, ()> for Tallied {
    ghost holds = { λ _ s. IsTallied s.words s.views };

    ghost first = { λ _. fresh 65 };
}

// One entry more was opened.
pub struct Opens;

impl Play<(), Counted> for Opens {
    ghost then = { λ _ me _ after. after ≡ (with_open me.0, me.1) };
}

// One entry more was shut.
pub struct Shuts;

impl Play<(), Counted> for Shuts {
    ghost then = { λ _ me _ after. after ≡ (with_shut me.0, me.1) };
}

// The mark was set.
pub struct Stops;

impl Play<(), Counted> for Stops {
    ghost then = { λ _ me _ after. after ≡ (with_stop me.0, me.1) };
}

// The count of opens was read.
pub struct ReadsOpens;

impl Play<(), Counted> for ReadsOpens {
    ghost then = { λ _ me found after. (after ≡ me) × FindsAll me.0 me.0.opens found };
}

// The count of shuts was read.
pub struct ReadsShuts;

impl Play<(), Counted> for ReadsShuts {
    ghost then = { λ _ me found after. (after ≡ me) × FindsAll me.0 me.0.shuts found };
}

// The mark was read.
pub struct Hears;

impl Play<(), Counted> for Hears {
    ghost then = { λ _ me found after. (after ≡ (with_mark me.0 found, me.1)) × StaysHeard me.0 found };
}

// One part is cut off.
pub struct OneOff;

impl Split<Counted> for OneOff {
    ghost left = { split_left };

    ghost right = { split_right };
}

// Two seats in one.
pub struct Both;

impl Join<Counted> for Both {
    ghost both = { join_of };

    ghost spent = { no_counts };
}
