// The command that replays a run, as a shell takes it.

use crate::summary::Findings;
use basis::NoMemory;
use race_findings::Finding;
use race_words::{put, put_files, put_option, put_word};
use std::alloc::Global;

// How far `vrace replay` goes where nothing is said, in units of the precision.
const REPLAY_UNTIL: u64 = 1_000_000;

// The latest time at which a difference is told.
fn last_of(races: &[Finding]) -> u64 {
    let mut last = 0;
    for finding in races {
        last = finding.last.max(last);
    }
    last
}

// Up to which time a replay goes, if that is to be said: to where runs were cut, or as far as was looked at.
fn until_of(findings: &Findings<'_>) -> Option<u64> {
    let reach = findings.reach;
    if reach.cut_runs {
        return Some(findings.setting.until);
    }
    let last = last_of(findings.races).max(reach.closed.unwrap_or(0));
    if reach.cut.is_none() && last <= REPLAY_UNTIL {
        return None;
    }
    Some(last)
}

/// What stands behind the log in the command that replays a run of the top module: which top module, how far it goes, the files.
pub fn behind_log(alloc: Global, findings: &Findings<'_>) -> Result<Vec<u8>, NoMemory> {
    let mut text = Vec::new(alloc);
    if findings.summary.is_top_named {
        let design = findings.setting.design;
        put(&mut text, b" --top")?;
        put_word(&mut text, &design.top)?;
    }
    if let Some(until) = until_of(findings) {
        put_option(&mut text, b" --until ", until)?;
    }
    if findings.reach.is_long {
        put_option(&mut text, b" --steps ", u64::from(findings.summary.steps))?;
    }
    put_files(&mut text, alloc, findings.sources.names)?;
    Ok(text)
}
