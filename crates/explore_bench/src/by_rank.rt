// Boards explored by rank, and how far such a search came.

use crate::kept::KeptMarks;
use crate::marks::show_found;
use anyhow::Result;
use explore::{
    Progress, RankMarks, RankedFindings, RankedReason, RankedStatus, Watcher, explore_ranked,
};
use sched_core::{Grid, Square};
use statebook::Limits;
use std::alloc::Global;
use std::io;

// Lets so many entries be taken. It keeps how many were, whether it stopped the search then, the most that were held, and what it was
// shown last.
#[derive(Drop)]
struct Counter {
    most: u32,
    taken: u32,
    is_over: bool,
    held: usize,
    shown: Option<Progress>,
}

impl Watcher for Counter {
    ghost use Rattle.std.specs.Prelude.{◌≡◌, true};

    ghost stopped = { λ counter. counter.is_over ≡ true };

    fn go_on(&mut self, progress: &Progress) -> bool {
        self.held = self.held.max(progress.entries_held);
        self.shown = Some(*progress);
        if self.taken == self.most {
            self.is_over = true;
            return false;
        }
        self.taken = self.taken.saturating_add(1);
        true
    }
}

// How the search ended.
fn status_word(status: RankedStatus) -> &'static str {
    match status {
        RankedStatus::Exhausted => "exhausted",
        RankedStatus::Cut(RankedReason::Entries) => "cut by entries",
        RankedStatus::Cut(RankedReason::Steps) => "cut by steps",
        RankedStatus::Cut(RankedReason::Memory(_)) => "cut by memory",
        RankedStatus::Cut(RankedReason::Stopped) => "stopped",
    }
}

// How many marks were handed on.
fn mark_count(ranks: &[RankMarks<Square>]) -> usize {
    let mut count = 0usize;
    for of_rank in ranks {
        count = count.saturating_add(of_rank.marks.len());
    }
    count
}

// One line: up to which rank all was handed on, how many entries were taken, the most that were held, and what was shown last.
fn show_progress(rt: &impl Print, findings: &RankedFindings, counter: &Counter) -> io::Result<()> {
    match findings.closed {
        Some(rank) => print!(rt; "closed to {rank}, ")?,
        None => print!(rt; "none closed, ")?,
    }
    print!(rt; "{} taken, at most {} held", counter.taken, counter.held)?;
    match &counter.shown {
        Some(last) => println!(rt;
            "; at rank {}: {} opened, {} held, {} closed",
            last.rank, last.entries_opened, last.entries_held, last.ranks_closed
        ),
        None => rt.println(""),
    }
}

/// Explores the board by rank, until so many entries were taken, and shows what was found and how far the search came.
pub fn explore_by_rank(
    rt: &impl Print,
    alloc: Global,
    grid: &Grid,
    limits: &Limits,
    lists: bool,
    most: u32,
) -> Result<()> {
    let mut kept = KeptMarks::new(alloc);
    let mut counter = Counter {
        most,
        taken: 0,
        is_over: false,
        held: 0,
        shown: None,
    };
    let findings = explore_ranked(alloc, grid, limits, &mut kept, &mut counter);
    println!(rt;
        "{} marks, {}",
        mark_count(&kept.ranks),
        status_word(findings.status)
    )?;
    if lists {
        for of_rank in &kept.ranks {
            show_found(rt, &of_rank.marks)?;
        }
    }
    show_progress(rt, &findings, &counter)?;
    Ok(())
}
