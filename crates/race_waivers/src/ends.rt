// Two ends of runs, as a waiver names them: `finish:50`.

use basis::NoMemory;
use finding_text::time::put_time;
use race_findings::{Evidence, Finding, Side};
use race_words::pieces::put;
use sched_core::end::{Cause, End};
use std::alloc::Global;
use vdesign::design::Design;

// By what a run ends, in a word.
fn cause_word(cause: Cause) -> &'static [u8] {
    match cause {
        Cause::Finish => b"finish:",
        Cause::Stop => b"stop:",
        Cause::Quiet => b"quiet:",
        Cause::Limit => b"limit:",
    }
}

// `finish:50`, as a waiver names an end.
fn spot_of(alloc: Global, design: &Design, end: End) -> Result<Vec<u8>, NoMemory> {
    let mut spot = Vec::new(alloc);
    put(&mut spot, cause_word(end.cause))?;
    put_time(&mut spot, design, end.time)?;
    Ok(spot)
}

// Where the run of the side ends, if it does.
fn end_of(side: &Side) -> Option<End> {
    match &side.evidence {
        Evidence::End(run) => run.end,
        Evidence::Value(_) => None,
        Evidence::Lines(_) => None,
    }
}

/// The two ends of the finding, where it is of ends: where its first run ends, and its last one.
pub fn ends_of(
    alloc: Global,
    design: &Design,
    finding: &Finding,
) -> Result<Option<(Vec<u8>, Vec<u8>)>, NoMemory> {
    let sides = &finding.first.sides;
    let (Some(first), Some(last)) = (sides.first(), sides.last()) else {
        return Ok(None);
    };
    match (end_of(first), end_of(last)) {
        (Some(one), Some(other)) => Ok(Some((
            spot_of(alloc, design, one)?,
            spot_of(alloc, design, other)?,
        ))),
        _ => Ok(None),
    }
}
