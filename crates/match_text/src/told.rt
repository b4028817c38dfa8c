// What is told.

use basis::NoMemory;
use finding_text::{Sources, log_text};
use race_findings::{Compared, CutBy, Differing, MatchAnswer, SearchCut, Setting, Statements};
use sched_core::Log;
use sched_core::end::End;
use std::alloc::Global;

/// A departure of the run that explains a dump: its step, the time of its slot, and which two statements come in another order by it,
/// where that is known.
#[derive(Drop)]
pub struct Departure {
    pub step: u32,
    pub time: u64,
    pub statements: Option<Statements>,
}

/// What is told of a comparison: of which runs and files, the name of the dump, what of it was compared, how many departures a slot
/// may have, up to which time the dump was read, and what was found.
///
/// `beyond` is what cut the search with one departure more a slot, where no run explains the dump with `most` of them and more were
/// allowed.
/// `departures` are those of the run that explains the dump; `differing` is what differs in the nearest run, where none explains it, and
/// `end` where that run has ended. `told` is how many variables ever had a value in the dump, and `is_read` says that it was read to its end.
/// `is_top_named` says whether the top module was named in the call, and `stopped_by` by which option the search was stopped, where its
/// watcher stopped it; `full_by` by which one there may be no more states.
#[derive(Clone, Copy)]
pub struct Found<'a> {
    pub setting: Setting<'a>,
    pub sources: &'a Sources<'a>,
    pub dump: &'a str,
    pub compared: Compared<'a>,
    pub most: u32,
    pub last: u64,
    pub answer: MatchAnswer<'a>,
    pub beyond: Option<SearchCut>,
    pub departures: &'a [Departure],
    pub differing: &'a [Differing],
    pub end: Option<End>,
    pub told: usize,
    pub is_read: bool,
    pub is_top_named: bool,
    pub stopped_by: &'static [u8],
    pub full_by: &'static [u8],
}

impl<'a> Found<'a> {
    /// Whether nothing was compared: no variable stands in both, or the dump has a value of none.
    pub fn is_of_nothing(&self) -> bool {
        self.told == 0
    }

    /// By which option a search was cut; `memory` where a growth was refused.
    pub fn cut_by(&self, cut: SearchCut) -> &'static [u8] {
        match cut.by {
            CutBy::Memory => b"memory",
            CutBy::Entries => self.full_by,
            CutBy::Steps => b"--steps",
            CutBy::Stopped => self.stopped_by,
        }
    }

    /// The log as `vrace replay` takes it.
    pub fn log(&self, alloc: Global, log: &Log) -> Result<Vec<u8>, NoMemory> {
        log_text(alloc, self.setting, log)
    }
}
