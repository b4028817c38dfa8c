// What was found, in one number.

ghost use Rattle.std.specs.Prelude.{◌≡◌, is_none};
ghost use Rattle.std.specs.List.{list_any};
ghost use Rattle.race_findings.specs.Status.{is_raced, left_unseen, status_of_dump, status_of_races};

use crate::reach::Reach;

/// What was found under one top module: whether a race isn't waived, and whether something was left unseen.
#[derive(Clone, Copy)]
pub struct TopFound {
    pub raced: bool,
    pub unseen: bool,
}

/// Whether a dump is lawful: some run has its values; none has, as far as runs were searched; or that isn't known.
#[derive(Clone, Copy, PartialEq, Eq)]
pub enum DumpFound {
    Lawful,
    Refuted,
    Open,
}

// Whether one of the races isn't waived.
fn some_is_raced(waived_by: &[Option<usize>]) -> bool
    ensures { result ≡ is_raced waived_by.now }
{
    waived_by.iter().any(|waiver| waiver.is_none())
}

impl TopFound {
    /// Of races, each with the number of the waiver that it is waived by, if there is one, and of how far their search came.
    pub fn new(waived_by: &[Option<usize>], reach: &Reach) -> TopFound
        ensures raced { result.raced ≡ is_raced waived_by.now }
        ensures unseen { result.unseen ≡ left_unseen reach.now }
    {
        TopFound {
            raced: some_is_raced(waived_by),
            unseen: reach.is_cut(),
        }
    }
}

// Whether a race of some top module isn't waived.
fn some_top_is_raced(tops: &[TopFound]) -> bool
    ensures { result ≡ list_any (λ top. top.raced) tops.now }
{
    tops.iter().any(|top| top.raced)
}

// Whether something was left unseen under some top module.
fn some_top_is_unseen(tops: &[TopFound]) -> bool
    ensures { result ≡ list_any (λ top. top.unseen) tops.now }
{
    tops.iter().any(|top| top.unseen)
}

/// The exit status of `races`: 1 where a race isn't waived; else 3 where something was left unseen; else 0.
pub fn races_status(tops: &[TopFound]) -> u8
    ensures { result ≡ status_of_races tops.now }
{
    if some_top_is_raced(tops) {
        return 1;
    }
    if some_top_is_unseen(tops) { 3 } else { 0 }
}

/// The exit status of `match` with one dump: 0 where it is lawful, 1 where it isn't, 3 where that isn't known.
pub fn dump_status(found: DumpFound) -> u8
    ensures { result ≡ status_of_dump found }
{
    match found {
        DumpFound::Lawful => 0,
        DumpFound::Refuted => 1,
        DumpFound::Open => 3,
    }
}
