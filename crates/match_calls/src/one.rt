// One dump, compared with the runs of a machine.

use crate::dumps::Subject;
use crate::searching::{OneTried, find_one};
use crate::told::{facts_of, found_of, scene_of};
use command_line::{MatchWords, Request};
use finding_text::Sources;
use match_text::{Found, match_json, match_words};
use matching::Matching;
use program_base::{Stop, write_out};
use race_findings::{DumpFound, dump_status};
use search_meter::Meter;
use shown_text::shown_text;
use std::process::ExitCode;
use vrace::Budget;

// What the dump is: where nothing of it was compared, that isn't known.
pub(crate) fn dump_found(one: &OneTried<'_>) -> DumpFound {
    if one.reference.compared_count() == 0 {
        return DumpFound::Open;
    }
    match &one.tried.answer {
        Matching::Explained(_) => DumpFound::Lawful,
        Matching::Unexplained(_) if one.tried.beyond.is_none() => DumpFound::Refuted,
        _ => DumpFound::Open,
    }
}

// Writes what was found, in the format that is asked for.
fn write_found(rt: &HostRuntime, found: &Found<'_>, format: Option<&str>) -> Result<(), Stop> {
    let text = match format {
        Some("json") => match_json(rt.alloc(), found)?,
        _ => shown_text(rt.alloc(), &match_words(rt.alloc(), found)?)?,
    };
    write_out(rt, &text)
}

/// Compares the dump with the runs of the machine, and tells what was found.
pub(crate) fn tell_one<'a>(
    rt: &HostRuntime,
    subject: Subject<'a>,
    sources: &'a Sources<'a>,
    request: &Request<'_>,
    words: &'a MatchWords<'a>,
) -> Result<ExitCode, Stop> {
    let machine = subject.machine;
    let mut meter = Meter::of_slots(rt, words.allowance);
    let one = find_one(rt, subject, request, words, words.first, &mut meter)?;
    let facts = facts_of(rt.alloc(), machine, &one.tried, &one.reference)?;
    let scene = scene_of(machine, sources, request, words, meter.spent());
    let last = one.reference.time();
    let found = found_of(
        scene,
        words.first.dump,
        &one.reference,
        &one.tried,
        &facts,
        last,
    );
    write_found(rt, &found, words.format)?;
    Ok(ExitCode::from(dump_status(dump_found(&one))))
}
