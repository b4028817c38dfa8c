// The last lines: how many races there are, what wasn't looked at, and what waivers matched.

use crate::at_end::put_ends;
use crate::told::ToldRace;
use basis::NoMemory;
use finding_text::difference::Subject;
use finding_text::place::Sources;
use finding_text::time::put_time;
use race_findings::{CutBy, Difference, Finding, Reach, Setting};
use race_waivers::Waived;
use race_words::pieces::{Piece, put, put_all, put_count};
use race_words::waivers::Waiver;
use vdesign::design::Design;

/// How many of the differences that follow are named, unless all are.
pub const NAMED: usize = 3;

/// How many of the differences that follow are kept by name, so that different variables can be counted, unless all are.
pub const KEPT: usize = 20_000;

/// What is told beside the races: how many departures a run may have, and how many steps; whether the top module was named in the call; the
/// time before which differences are passed over; whether all that follow are named; how many states were visited, in how many
/// milliseconds; and by which option the search was stopped, where its watcher stopped it.
#[derive(Clone, Copy)]
pub struct SearchSummary {
    pub departures: u32,
    pub steps: u32,
    pub is_top_named: bool,
    pub from: u64,
    pub all: bool,
    pub states: u64,
    pub milliseconds: u64,
    pub stopped_by: &'static [u8],
}

impl SearchSummary {
    /// How many of the differences that follow are named.
    pub fn named_count(&self) -> usize {
        if self.all { usize::MAX } else { NAMED }
    }
}

/// What is told of a top module: of which runs, the files that they are of, the races, the ends that differ in the values alone that a cut slot
/// leaves, how far the search came, what is told beside them, and which of the races are waived.
#[derive(Clone, Copy)]
pub struct Findings<'a> {
    pub setting: Setting<'a>,
    pub sources: &'a Sources<'a>,
    pub races: &'a [Finding],
    pub cut_values: Option<&'a Difference>,
    pub reach: &'a Reach,
    pub summary: &'a SearchSummary,
    pub waivers: &'a [Waiver<'a>],
    pub waived: &'a Waived,
}

impl<'a> Findings<'a> {
    /// The waiver that the race of this place is waived by.
    pub fn waiver(&self, race: usize) -> Option<&'a Waiver<'a>> {
        self.waivers.get(self.waived.by(race)?)
    }

    /// A finding, as what is told of.
    pub fn subject(&self, finding: &'a Finding) -> Subject<'a> {
        Subject {
            setting: self.setting,
            sources: self.sources,
            finding,
        }
    }

    // Whether something was left unseen, or passed over.
    fn is_partial(&self) -> bool {
        self.reach.is_cut() || self.reach.ignored > 0
    }
}

/// `top tb:`
pub fn put_top(text: &mut Vec<u8>, findings: &Findings<'_>) -> Result<(), NoMemory> {
    let design = findings.setting.design;
    put_all(
        text,
        &[
            Piece::Bytes(b"top "),
            Piece::Bytes(&design.top),
            Piece::Bytes(b":"),
        ],
    )
}

// How many different variables, and lines of slots, differ in all.
fn difference_count(races: &[Finding]) -> u64 {
    let mut count = 0u64;
    for finding in races {
        count = count.saturating_add(finding.distinct());
    }
    count
}

// Whether each race has all names of what differs.
fn are_whole(races: &[Finding]) -> bool {
    for finding in races {
        if !finding.is_whole() {
            return false;
        }
    }
    true
}

// How many of the races are waived, as they are told.
fn waived_count(findings: &Findings<'_>, races: &[ToldRace]) -> u64 {
    let mut count = 0u64;
    for race in races {
        if findings.waiver(race.place).is_some() {
            count = count.saturating_add(1);
        }
    }
    count
}

// ` (12 differences)`, where there are more than races.
fn put_differences(text: &mut Vec<u8>, findings: &[Finding], races: u64) -> Result<(), NoMemory> {
    let differences = difference_count(findings);
    if differences <= races {
        return Ok(());
    }
    let opening: &[u8] = if are_whole(findings) {
        b" ("
    } else {
        b" (at least "
    };
    let count = Piece::Count(differences, b"difference");
    put_all(text, &[Piece::Bytes(opening), count, Piece::Bytes(b")")])
}

// `1 race.`; `3 races (12 differences), 1 waived.`
fn put_counts(
    text: &mut Vec<u8>,
    findings: &Findings<'_>,
    races: &[ToldRace],
) -> Result<(), NoMemory> {
    let count = races.len() as u64;
    put_count(text, count, b"race")?;
    put_differences(text, findings.races, count)?;
    let waived = waived_count(findings, races);
    if waived > 0 {
        put_all(
            text,
            &[
                Piece::Bytes(b", "),
                Piece::Number(waived),
                Piece::Bytes(b" waived"),
            ],
        )?;
    }
    put(text, b".")
}

// How many races there are; where there is none, and something wasn't looked at, so much is said.
fn put_found(
    text: &mut Vec<u8>,
    findings: &Findings<'_>,
    races: &[ToldRace],
) -> Result<(), NoMemory> {
    if !races.is_empty() {
        return put_counts(text, findings, races);
    }
    if findings.is_partial() {
        put(text, b"No race was found in what was looked at.")
    } else {
        put(text, b"No race.")
    }
}

// That a run was too long.
const STEPS: &[u8] = b"as a run takes more steps than --steps (a clock without end needs --until)";

// What cut the search.
fn put_reason(text: &mut Vec<u8>, cut: CutBy, stopped_by: &'static [u8]) -> Result<(), NoMemory> {
    match cut {
        CutBy::Memory => put(
            text,
            b"for want of memory (a clock without end needs --until)",
        ),
        CutBy::Entries => put(text, b"by the number of its states"),
        CutBy::Steps => put(text, STEPS),
        CutBy::Stopped => put_all(text, &[Piece::Bytes(b"by "), Piece::Bytes(stopped_by)]),
    }
}

// How far the search came.
fn put_closed(text: &mut Vec<u8>, design: &Design, closed: Option<u64>) -> Result<(), NoMemory> {
    match closed {
        None => put(text, b": nothing was looked at whole"),
        Some(time) => {
            put(text, b": everything up to ")?;
            put_time(text, design, time)?;
            put(text, b" was looked at")
        }
    }
}

// How far it was looked where no run ends.
fn put_last_slot(text: &mut Vec<u8>, design: &Design, closed: Option<u64>) -> Result<(), NoMemory> {
    match closed {
        None => put(text, b"; no slot ends"),
        Some(time) => {
            put(text, b" up to ")?;
            put_time(text, design, time)?;
            put(text, b", where the last slot ends")
        }
    }
}

/// What was looked at.
pub fn put_seen(text: &mut Vec<u8>, findings: &Findings<'_>) -> Result<(), NoMemory> {
    let (setting, reach) = (findings.setting, findings.reach);
    if let Some(cut) = reach.cut {
        put(text, b" The search was cut ")?;
        put_reason(text, cut, findings.summary.stopped_by)?;
        return put_closed(text, setting.design, reach.closed);
    }
    let departures = Piece::Count(u64::from(findings.summary.departures), b"departure");
    put_all(
        text,
        &[Piece::Bytes(b" Nothing was missed within "), departures],
    )?;
    if reach.endless.is_some() {
        return put_last_slot(text, setting.design, reach.closed);
    }
    if !reach.cut_runs {
        return put(text, b", up to the end of all runs");
    }
    put(text, b" up to ")?;
    put_time(text, setting.design, setting.until)?;
    put(
        text,
        b", where --until cut runs: what comes later was not seen",
    )
}

// ` (17 states, 0.01 s).`
fn put_cost(text: &mut Vec<u8>, summary: &SearchSummary) -> Result<(), NoMemory> {
    let (seconds, hundredths) = (
        summary.milliseconds / 1_000,
        summary.milliseconds % 1_000 / 10,
    );
    let point: &[u8] = if hundredths < 10 { b".0" } else { b"." };
    put_all(
        text,
        &[
            Piece::Bytes(b" ("),
            Piece::Count(summary.states, b"state"),
            Piece::Bytes(b", "),
            Piece::Number(seconds),
            Piece::Bytes(point),
            Piece::Number(hundredths),
            Piece::Bytes(b" s).\n"),
        ],
    )
}

/// What a waiver matched: `waiver at line 3 matched 1 race`, or `nothing`.
pub fn put_matched(text: &mut Vec<u8>, waiver: &Waiver<'_>, count: u64) -> Result<(), NoMemory> {
    let matched = if count == 0 {
        Piece::Bytes(b"nothing")
    } else {
        Piece::Count(count, b"race")
    };
    put_all(
        text,
        &[
            Piece::Bytes(b"waiver at line "),
            Piece::Number(waiver.line),
            Piece::Bytes(b" matched "),
            matched,
        ],
    )
}

/// The number at this place of what waivers matched.
pub fn matched_at(matched: &[u64], place: usize) -> u64 {
    matched.get(place).copied().unwrap_or(0)
}

/// What each waiver matched, a line each.
pub fn put_waivers(
    text: &mut Vec<u8>,
    waivers: &[Waiver<'_>],
    matched: &[u64],
) -> Result<(), NoMemory> {
    for (place, waiver) in waivers.iter().enumerate() {
        put_matched(text, waiver, matched_at(matched, place))?;
        put(text, b"\n")?;
    }
    Ok(())
}

// How many differences were passed over, if any were.
fn put_ignored(text: &mut Vec<u8>, findings: &Findings<'_>) -> Result<(), NoMemory> {
    let ignored = findings.reach.ignored;
    if ignored == 0 {
        return Ok(());
    }
    put_all(
        text,
        &[
            Piece::Count(ignored, b"difference"),
            Piece::Bytes(b" before "),
        ],
    )?;
    put_time(text, findings.setting.design, findings.summary.from)?;
    put(text, b" passed over.\n")
}

/// What was passed over, how many races there are, and what wasn't looked at.
pub fn put_summary(
    text: &mut Vec<u8>,
    findings: &Findings<'_>,
    races: &[ToldRace],
) -> Result<(), NoMemory> {
    put_ignored(text, findings)?;
    put_ends(text, findings)?;
    put_found(text, findings, races)?;
    put_seen(text, findings)?;
    put_cost(text, findings.summary)
}
