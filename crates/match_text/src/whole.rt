// The text of an answer.

use crate::compared::put_compared;
use crate::departures::put_departures;
use crate::told::Found;
use basis::NoMemory;
use finding_text::{put_end, put_time};
use race_findings::{Differing, FoundRun, MatchAnswer, SearchCut};
use race_words::{Piece, put, put_all, put_files, put_option, put_value, put_word};
use sched_core::Log;
use sched_core::setting::Grain;
use std::alloc::Global;
use vdesign::design::Design;

/// How many variables are told that differ.
pub(crate) const NAMED: usize = 8;

// How many departures a slot may have at most.
const MOST: u32 = 4;

// Said where no variable stands in both.
const UNRELATED: &[u8] =
    b"not decided: no variable stands in both, with one name and as many bits.\n";

// Said where nothing is known of those that do.
const EMPTY: &[u8] = b"not decided: the dump has a value of no variable that stands in both.\n";

// How many steps `vrace replay` takes at most where nothing is said, and at all.
const REPLAY_STEPS: u32 = 100_000;

const ALL_STEPS: u32 = 1_000_000;

// The command that shows the run, `    vrace replay --trace --log 6:1 tb.v`, up to this time.
fn put_command(
    alloc: Global,
    text: &mut Vec<u8>,
    found: &Found<'_>,
    log: &Log,
    until: u64,
    steps: u32,
) -> Result<(), NoMemory> {
    let log = found.log(alloc, log)?;
    put_all(
        text,
        &[
            Piece::Bytes(b"    vrace replay --trace --log "),
            Piece::Bytes(&log),
        ],
    )?;
    if found.is_top_named {
        let design = found.setting.design;
        put(text, b" --top")?;
        put_word(text, &design.top)?;
    }
    put_option(text, b" --until ", until)?;
    if steps > REPLAY_STEPS {
        put_option(text, b" --steps ", u64::from(steps.min(ALL_STEPS)))?;
    }
    put_files(text, alloc, found.sources.names)?;
    put(text, b"\n")
}

/// The command that shows the run that explains the dump. Where it has more steps than `vrace replay` takes, the run is shown up to its last
/// departure, behind which it goes on by default.
pub(crate) fn put_replay(
    alloc: Global,
    text: &mut Vec<u8>,
    found: &Found<'_>,
    run: FoundRun<'_>,
) -> Result<(), NoMemory> {
    if run.steps <= ALL_STEPS {
        return put_command(alloc, text, found, run.log, found.last, run.steps);
    }
    let until = match found.departures.last() {
        None => 0,
        Some(departure) => departure.time,
    };
    put_all(
        text,
        &[
            Piece::Bytes(b"It has "),
            Piece::Number(u64::from(run.steps)),
            Piece::Bytes(b" steps, more than `vrace replay` takes. Up to its last departure:\n"),
        ],
    )?;
    put_command(alloc, text, found, run.log, until, run.steps)
}

/// How many departures the run has.
pub(crate) fn put_departed(
    text: &mut Vec<u8>,
    departures: usize,
    most: u32,
) -> Result<(), NoMemory> {
    if departures == 0 {
        return put(text, b"It is the default order.\n");
    }
    put_all(
        text,
        &[
            Piece::Bytes(b"It departs from the default order "),
            Piece::Count(departures as u64, b"time"),
            Piece::Bytes(b", at most "),
            Piece::Count(u64::from(most), b"time"),
            Piece::Bytes(b" in a slot:\n"),
        ],
    )
}

// Up to which time a run has the values of the dump, behind the words before.
fn put_shown(
    text: &mut Vec<u8>,
    found: &Found<'_>,
    words: &[u8],
    time: u64,
) -> Result<(), NoMemory> {
    put(text, words)?;
    put_time(text, found.setting.design, time)?;
    put_all(
        text,
        &[
            Piece::Bytes(b" "),
            Piece::Cut(found.dump.as_bytes(), usize::MAX),
            Piece::Bytes(b" shows what these files do in one of their orders.\n"),
        ],
    )
}

// A run has the values of the dump.
fn put_explained(
    alloc: Global,
    text: &mut Vec<u8>,
    found: &Found<'_>,
    run: FoundRun<'_>,
) -> Result<(), NoMemory> {
    put_shown(text, found, b"explained: up to ", found.last)?;
    put_departed(text, found.departures.len(), found.most)?;
    put_departures(alloc, text, found)?;
    put_replay(alloc, text, found, run)
}

// `    tb.q is 1 in the dump, and 0 in this run`
fn put_differing(
    text: &mut Vec<u8>,
    design: &Design,
    differing: &Differing,
) -> Result<(), NoMemory> {
    let Some(variable) = design.variables.get(differing.variable) else {
        return Ok(());
    };
    let name = Piece::Bytes(&variable.name);
    put_all(text, &[Piece::Bytes(b"    "), name, Piece::Bytes(b" is ")])?;
    put_value(text, variable, differing.told)?;
    put(text, b" in the dump, and ")?;
    put_value(text, variable, differing.value)?;
    put(text, b" in this run\n")
}

// The variables that differ, and how many others there are.
fn put_all_differing(
    text: &mut Vec<u8>,
    design: &Design,
    all: &[Differing],
) -> Result<(), NoMemory> {
    for differing in all.iter().take(NAMED) {
        put_differing(text, design, differing)?;
    }
    if all.len() <= NAMED {
        return Ok(());
    }
    let others = Piece::Count(all.len().saturating_sub(NAMED) as u64, b"other variable");
    put_all(
        text,
        &[Piece::Bytes(b"    and "), others, Piece::Bytes(b"\n")],
    )
}

// Where the run has ended: `    It ends by $finish at 45.`
fn put_ended(text: &mut Vec<u8>, found: &Found<'_>) -> Result<(), NoMemory> {
    if found.end.is_none() {
        return Ok(());
    }
    put(text, b"    it ends by ")?;
    put_end(text, found.setting.design, found.end)?;
    put(text, b"\n")
}

// What differs in the run that differs least.
fn put_nearest(
    alloc: Global,
    text: &mut Vec<u8>,
    found: &Found<'_>,
    time: u64,
    run: FoundRun<'_>,
) -> Result<(), NoMemory> {
    put(text, b"The run that differs least:\n")?;
    put_command(alloc, text, found, run.log, time, run.steps)?;
    put_ended(text, found)?;
    put_all_differing(text, found.setting.design, found.differing)
}

// `at 25 no order of these files gives what t.vcd shows, with at most 2 departures in a slot`
fn put_refuted(text: &mut Vec<u8>, found: &Found<'_>, time: u64) -> Result<(), NoMemory> {
    put(text, b"at ")?;
    put_time(text, found.setting.design, time)?;
    put_all(
        text,
        &[
            Piece::Bytes(b" no order of these files gives what "),
            Piece::Cut(found.dump.as_bytes(), usize::MAX),
            Piece::Bytes(b" shows, with at most "),
            Piece::Count(u64::from(found.most), b"departure"),
            Piece::Bytes(b" in a slot"),
        ],
    )
}

// What cut the search with one departure more a slot.
fn put_beyond(text: &mut Vec<u8>, most: u32, reason: &[u8]) -> Result<(), NoMemory> {
    put_all(
        text,
        &[
            Piece::Bytes(b", and with at most "),
            Piece::Number(u64::from(most).saturating_add(1)),
            Piece::Bytes(b" the search was cut by "),
            Piece::Bytes(reason),
        ],
    )
}

// Whether no run has the values of the dump, or it isn't decided; and what of it is sure.
fn put_verdict(text: &mut Vec<u8>, found: &Found<'_>, time: u64) -> Result<(), NoMemory> {
    if let Some(cut) = found.beyond {
        put(text, b"not decided: ")?;
        put_refuted(text, found, time)?;
        put_beyond(text, found.most, found.cut_by(cut))?;
    } else {
        put(text, b"not explained: ")?;
        put_refuted(text, found, time)?;
    }
    let before: &[u8] = if time > 0 {
        b". Before that one does.\n"
    } else {
        b".\n"
    };
    put(text, before)
}

/// What may be tried next where all that is allowed was tried: more departures, or the other grain.
pub(crate) fn put_hints(text: &mut Vec<u8>, found: &Found<'_>) -> Result<(), NoMemory> {
    let more = u64::from(found.most).saturating_add(1);
    let is_coarse = found.setting.grain == Grain::Process;
    if found.beyond.is_some() || (found.most >= MOST && !is_coarse) {
        return Ok(());
    }
    put(text, b"Not tried:")?;
    if found.most < MOST {
        put_option(text, b" --slot-depart ", more)?;
    }
    if is_coarse {
        put(text, b" --grain statement")?;
    }
    put(text, b"\n")
}

// Said where the dump ends at the time at which it isn't explained.
fn put_short(text: &mut Vec<u8>, found: &Found<'_>, time: u64) -> Result<(), NoMemory> {
    if !found.is_read || time != found.last {
        return Ok(());
    }
    put(text, b"At ")?;
    put_time(text, found.setting.design, time)?;
    put_all(
        text,
        &[
            Piece::Bytes(b" "),
            Piece::Cut(found.dump.as_bytes(), usize::MAX),
            Piece::Bytes(b" ends: it may have been cut short there.\n"),
        ],
    )
}

// No run has the values of the dump.
fn put_unexplained(
    alloc: Global,
    text: &mut Vec<u8>,
    found: &Found<'_>,
    time: u64,
    nearest: Option<FoundRun<'_>>,
) -> Result<(), NoMemory> {
    put_verdict(text, found, time)?;
    if let Some(run) = nearest {
        put_nearest(alloc, text, found, time, run)?;
    }
    put_short(text, found, time)?;
    put_hints(text, found)
}

// The search was cut.
fn put_cut(text: &mut Vec<u8>, found: &Found<'_>, cut: SearchCut) -> Result<(), NoMemory> {
    let reason = Piece::Bytes(found.cut_by(cut));
    let words = Piece::Bytes(b"not decided: the search was cut by ");
    put_all(text, &[words, reason, Piece::Bytes(b".\n")])?;
    match cut.closed {
        None => Ok(()),
        Some(time) => put_shown(text, found, b"Up to ", time),
    }
}

// The answer.
fn put_answer(alloc: Global, text: &mut Vec<u8>, found: &Found<'_>) -> Result<(), NoMemory> {
    if found.compared.variables == 0 {
        return put(text, UNRELATED);
    }
    if found.is_of_nothing() {
        return put(text, EMPTY);
    }
    match found.answer {
        MatchAnswer::Explained(run) => put_explained(alloc, text, found, run),
        MatchAnswer::Unexplained(time, nearest) => {
            put_unexplained(alloc, text, found, time, nearest)
        }
        MatchAnswer::Cut(cut) => put_cut(text, found, cut),
    }
}

/// The text of what was found.
pub fn match_words(alloc: Global, found: &Found<'_>) -> Result<Vec<u8>, NoMemory> {
    let mut text = Vec::new(alloc);
    put_answer(alloc, &mut text, found)?;
    put_compared(&mut text, found)?;
    Ok(text)
}
