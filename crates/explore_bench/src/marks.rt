// Marks of boards, and how a search for them ended.

use explore::{Findings, FoundMark, Reason, Status};
use indexmap::IndexMap;
use sched_core::{Log, Square};
use std::io;

// Shows the mark with how many departures its log has.
fn show_mark(rt: &impl Print, square: &Square, log: &Log) -> io::Result<()> {
    println!(rt; "{} {} {}", square.x, square.y, log.members().len())
}

// Shows each mark of a map.
fn show_marks(rt: &impl Print, marks: &IndexMap<Square, Log>) -> io::Result<()> {
    for (square, log) in marks {
        show_mark(rt, square, log)?;
    }
    Ok(())
}

/// Shows each mark of a rank.
pub fn show_found(rt: &impl Print, marks: &[FoundMark<Square>]) -> io::Result<()> {
    for found in marks {
        show_mark(rt, &found.state, &found.log)?;
    }
    Ok(())
}

// How the search ended.
fn status_word(status: Status) -> &'static str {
    match status {
        Status::Exhausted => "exhausted",
        Status::Cut(Reason::Entries) => "cut by entries",
        Status::Cut(Reason::Steps) => "cut by steps",
        Status::Cut(Reason::Memory(_)) => "cut by memory",
    }
}

/// Shows how many marks a search found and how it ended, and the marks, if they are listed.
pub fn show_findings(rt: &impl Print, findings: &Findings<Square>, lists: bool) -> io::Result<()> {
    println!(rt;
        "{} marks, {}",
        findings.marks.len(),
        status_word(findings.status)
    )?;
    if lists {
        show_marks(rt, &findings.marks)?;
    }
    Ok(())
}
