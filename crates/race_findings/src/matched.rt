// What a comparison of runs with a dump found.

use crate::reach::CutBy;
use sched_core::Log;
use vbits::Vec4;

/// What of a dump was compared: how many variables; the names of those that stand in the dump or in the files alone, of those that have
/// another width in both, and of those that stand in the dump more than once; and the scope round the top module, where one was left out.
#[derive(Clone, Copy)]
pub struct Compared<'a> {
    pub variables: usize,
    pub only_in_dump: &'a [Vec<u8>],
    pub only_in_files: &'a [Vec<u8>],
    pub of_other_width: &'a [Vec<u8>],
    pub repeated: &'a [Vec<u8>],
    pub left_out: Option<&'a [u8]>,
}

/// A variable that differs, by its number: its value in the dump, and in the run.
#[derive(Clone, Copy)]
pub struct Differing {
    pub variable: usize,
    pub told: Vec4,
    pub value: Vec4,
}

/// A run that was found: its log, and how many steps it has so far.
#[derive(Clone, Copy)]
pub struct FoundRun<'a> {
    pub log: &'a Log,
    pub steps: u32,
}

/// By what a search was cut, and up to which time some run has the values of the dump; none where that isn't known of any.
#[derive(Clone, Copy)]
pub struct SearchCut {
    pub by: CutBy,
    pub closed: Option<u64>,
}

/// Whether some run has the values of the dump: this one; up to this time none, and which one differs least; or the search was cut.
#[derive(Clone, Copy)]
pub enum MatchAnswer<'a> {
    Explained(FoundRun<'a>),
    Unexplained(u64, Option<FoundRun<'a>>),
    Cut(SearchCut),
}
