// What is told of two dumps.

use crate::told::Found;
use vbits::Vec4;

/// What two dumps are: both are explained by one run as far as both go; each by one of its own, up to a time by one of both; the first alone,
/// or the second; neither; or it isn't decided.
#[derive(Clone, Copy, PartialEq, Eq)]
pub enum PairAnswer {
    Agree,
    Part,
    First,
    Second,
    Neither,
    Undecided,
}

/// A variable that has two values at the time at which two dumps part, by its number: its value in the first, and in the second.
#[derive(Clone, Copy)]
pub struct Apart {
    pub variable: usize,
    pub first: Vec4,
    pub second: Vec4,
}

/// What is told of a dump that is compared with another one. `is_own` says that it was searched by itself; else what is told is of the run that
/// explains both.
#[derive(Clone, Copy)]
pub struct OneOfPair<'a> {
    pub found: Found<'a>,
    pub is_own: bool,
}

/// What is told of two dumps: of both as one, and of each. Where they part, `apart` is what differs between them then, and `before` the last
/// time before of which either shows something.
#[derive(Clone, Copy)]
pub struct FoundPair<'a> {
    pub answer: PairAnswer,
    pub joint: Found<'a>,
    pub first: OneOfPair<'a>,
    pub second: OneOfPair<'a>,
    pub apart: &'a [Apart],
    pub before: u64,
}
