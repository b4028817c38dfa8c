// The run of files under a log.

use byte_sinks::Metered;
use clap::ArgMatches;
use command_line::{
    Request, Wanted, has_dashed_log, has_dashed_top, log_of, request_of, wanted_of,
};
use program_base::{DASHED, ENTRIES, Stop, finish, texts, with_words};
use sched_core::end::{Cause, End};
use sched_core::setting::Looked;
use std::alloc::Global;
use std::io;
use std::io::{BufWriter, Write};
use std::process::ExitCode;
use vrace::{Fault, Options, Show, detailed_trace_text, replay_text, trace_text};
use written_times::Times;

// What stands for the limit of departures, which a replay doesn't read.
const DEPART: u64 = 1;

// Writes the steps of the run, or its dump or its lines, and answers how the run ends.
fn write_run<W: Write>(
    alloc: Global,
    texts: &[Vec<u8>],
    options: &Options<'_>,
    log: &[u8],
    wanted: Wanted,
    writer: &mut Metered<W>,
) -> Result<End, Fault> {
    match wanted {
        Wanted::Dump => replay_text(alloc, texts, options, log, Show::Dump, writer),
        Wanted::Lines => replay_text(alloc, texts, options, log, Show::Lines, writer),
        Wanted::Steps => trace_text(alloc, texts, options, log, writer),
        Wanted::Details => detailed_trace_text(alloc, texts, options, log, writer),
    }
}

// The options of the run up to this time.
fn replay_options<'a>(request: &Request<'a>, until: u64) -> Result<Options<'a>, Fault> {
    let mut options = Options::new(
        request.top.map(|name| name.as_bytes()),
        until,
        DEPART,
        request.steps,
        ENTRIES,
        request.grain,
    )?;
    options.look(request.departures, Looked::Values);
    Ok(options)
}

// Says where the time limit cut the run, if it did: what is shown isn't all that the text does.
fn say_cut(rt: &HostRuntime, end: End, until: u64) {
    if end.cause != Cause::Limit {
        return;
    }
    // Where standard error can't be written nobody is told.
    let _ = eprintln!(rt; "vrace: stopped at {until} by --until; events are left");
}

// Replays the texts up to this time onto standard output.
fn replay_texts(
    rt: &HostRuntime,
    texts: &[Vec<u8>],
    request: &Request<'_>,
    times: Times,
    log: &str,
    wanted: Wanted,
) -> Result<ExitCode, Stop> {
    let until = times.bounds(rt.alloc(), texts)?.until;
    let options = replay_options(request, until)?;
    let Ok(buffered) = BufWriter::new(rt.alloc(), io::writer(rt)) else {
        return Err(Stop::NoMemory);
    };
    let mut writer = Metered::new(buffered);
    let end = write_run(
        rt.alloc(),
        texts,
        &options,
        log.as_bytes(),
        wanted,
        &mut writer,
    )?;
    finish(&mut writer)?;
    say_cut(rt, end, until);
    Ok(ExitCode::SUCCESS)
}

// Replays what is asked for onto standard output.
fn replay(
    rt: &HostRuntime,
    request: &Request<'_>,
    log: &str,
    wanted: Wanted,
) -> Result<ExitCode, Stop> {
    let times = Times::new(request.until, None)?;
    replay_options(request, 0)?;
    let texts = texts(rt, &request.files)?;
    let done = replay_texts(rt, &texts, request, times, log, wanted);
    let tops = request.top.as_slice();
    with_words(
        rt.alloc(),
        done,
        request.in_words,
        &request.files,
        &texts,
        tops,
    )
}

/// Replays what the words ask for: its dump, its printed lines or its steps go to standard output.
pub fn replay_by<'a>(rt: &HostRuntime, matches: &ArgMatches<'a>) -> Result<ExitCode, Stop> {
    if has_dashed_top(matches) || has_dashed_log(matches) {
        return Err(Stop::Usage(DASHED));
    }
    let Some(wanted) = wanted_of(matches) else {
        return Err(Stop::Usage("--lines doesn't go with --trace, nor --details without it"));
    };
    let request = request_of(rt.alloc(), matches)?;
    replay(rt, &request, log_of(matches), wanted)
}
