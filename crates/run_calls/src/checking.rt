// The truth of a report.

use clap::ArgMatches;
use command_line::{files_of, has_dashed_report, is_in_words, report_of, steps_of, until_of};
use program_base::{DASHED, Stop, read_file, texts, with_words};
use std::process::ExitCode;
use vrace::{Allowed, Fault, check_text};
use written_times::Times;

// Checks the report, if it asks for no more time and steps, against the texts, and says ok where all of it is true.
fn check_texts(
    rt: &HostRuntime,
    texts: &[Vec<u8>],
    report: &[u8],
    times: Times,
    steps: u64,
) -> Result<ExitCode, Stop> {
    let allowed = Allowed::new(times.bounds(rt.alloc(), texts)?.until, steps)?;
    check_text(rt.alloc(), texts, report, allowed)?;
    match println!(rt; "ok") {
        Ok(()) => Ok(ExitCode::SUCCESS),
        Err(_) => Err(Stop::Refused(Fault::Write)),
    }
}

// Checks the report of this file against the files; where these are refused, in words where that is asked for.
fn check(
    rt: &HostRuntime,
    report: &str,
    files: &[&str],
    times: Times,
    steps: u64,
    in_words: bool,
) -> Result<ExitCode, Stop> {
    let report = read_file(rt, report)?;
    let texts = texts(rt, files)?;
    let done = check_texts(rt, &texts, &report, times, steps);
    with_words(rt.alloc(), done, in_words, files, &texts, &[])
}

/// Checks what the words ask for: `ok` goes to standard output where all of the report is true.
pub fn check_by<'a>(rt: &HostRuntime, matches: &ArgMatches<'a>) -> Result<ExitCode, Stop> {
    if has_dashed_report(matches) {
        return Err(Stop::Usage(DASHED));
    }
    let (times, steps) = (Times::new(until_of(matches), None)?, steps_of(matches));
    Allowed::new(0, steps)?;
    let files = files_of(rt.alloc(), matches)?;
    check(
        rt,
        report_of(matches),
        &files,
        times,
        steps,
        is_in_words(matches),
    )
}
