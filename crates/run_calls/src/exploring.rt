// The schedules of files.

use byte_sinks::Metered;
use clap::ArgMatches;
use command_line::{Allowance, Request, Search, has_dashed_top, request_of, search_of};
use program_base::{DASHED, Stop, finish, options_for, texts, with_words};
use search_meter::Meter;
use std::alloc::Global;
use std::io;
use std::io::{BufWriter, Write};
use std::process::ExitCode;
use std::sync::Wait;
use std::thread::Threads;
use vrace::{
    Fault, Options, Outcome, Status, Timed, explore_text, explore_text_alone, explore_text_in_time,
};
use workpool::OpenGate;
use written_times::Times;

// The exit status that says what a report says.
fn status_code(status: Status) -> ExitCode {
    match status {
        Status::NoRace => ExitCode::SUCCESS,
        Status::Raced(_) => ExitCode::from(1),
        Status::Cut(_) => ExitCode::from(3),
    }
}

// Explores with so many workers; one is this thread alone.
fn write_report<R: Threads + Wait + Sync, W: Write>(
    rt: &R,
    alloc: Global,
    texts: &[Vec<u8>],
    options: &Options<'_>,
    workers: u64,
    writer: &mut Metered<W>,
) -> Result<Status, Fault> {
    if workers == 1 {
        explore_text_alone(alloc, texts, options, writer)
    } else {
        explore_text(rt, alloc, texts, options, workers, &OpenGate, writer)
    }
}

// Explores with so many workers onto the writer.
fn explore_by_workers<R: Threads + Wait + Sync, W: Write>(
    rt: &R,
    alloc: Global,
    texts: &[Vec<u8>],
    options: &Options<'_>,
    workers: u64,
    writer: &mut Metered<W>,
) -> Result<ExitCode, Stop> {
    let status = write_report(rt, alloc, texts, options, workers, writer)?;
    finish(writer)?;
    Ok(status_code(status))
}

// Says up to which time all was looked at, where that isn't all.
fn say_how_far(rt: &HostRuntime, timed: &Timed) {
    if timed.outcome == Outcome::Exhausted {
        return;
    }
    let _ = match timed.search.closed {
        Some(time) => eprintln!(rt; "everything up to {time} was looked at"),
        None => eprintln!(rt; "nothing was looked at whole"),
    };
}

// The exit status that says what a report says of an exploration by time.
fn timed_code(timed: &Timed) -> ExitCode {
    if timed.raced {
        return ExitCode::from(1);
    }
    if timed.outcome == Outcome::Exhausted {
        ExitCode::SUCCESS
    } else {
        ExitCode::from(3)
    }
}

// Explores by time onto the writer.
fn explore_by_time<W: Write>(
    rt: &HostRuntime,
    texts: &[Vec<u8>],
    options: &Options<'_>,
    allowance: Allowance,
    writer: &mut Metered<W>,
) -> Result<ExitCode, Stop> {
    let mut meter = Meter::new(rt, allowance);
    let timed = explore_text_in_time(rt.alloc(), texts, options, &mut meter, writer)?;
    finish(writer)?;
    say_how_far(rt, &timed);
    Ok(timed_code(&timed))
}

// Explores the texts, and writes the report onto standard output.
fn explore_texts<R: Threads + Wait + Sync>(
    rt: &HostRuntime,
    threads: &R,
    texts: &[Vec<u8>],
    request: &Request<'_>,
    search: &Search,
    times: Times,
) -> Result<ExitCode, Stop> {
    let until = times.bounds(rt.alloc(), texts)?.until;
    let options = options_for(request, search, request.top, until)?;
    let Ok(buffered) = BufWriter::new(rt.alloc(), io::writer(rt)) else {
        return Err(Stop::NoMemory);
    };
    let mut writer = Metered::new(buffered);
    match (search.allowance, search.workers) {
        (Some(allowance), 1) => explore_by_time(rt, texts, &options, allowance, &mut writer),
        _ => explore_by_workers(
            threads,
            rt.alloc(),
            texts,
            &options,
            search.workers,
            &mut writer,
        ),
    }
}

// Writes the report of what is asked for onto standard output.
fn explore<R: Threads + Wait + Sync>(
    rt: &HostRuntime,
    threads: &R,
    request: &Request<'_>,
    search: &Search,
) -> Result<ExitCode, Stop> {
    let times = Times::new(request.until, None)?;
    options_for(request, search, request.top, 0)?;
    let texts = texts(rt, &request.files)?;
    let done = explore_texts(rt, threads, &texts, request, search, times);
    let tops = request.top.as_slice();
    with_words(
        rt.alloc(),
        done,
        request.in_words,
        &request.files,
        &texts,
        tops,
    )
}

/// Explores what the words ask for: the report goes to standard output. Workers start threads by the second handle.
pub fn explore_by<'a, R: Threads + Wait + Sync>(
    rt: &HostRuntime,
    threads: &R,
    matches: &ArgMatches<'a>,
) -> Result<ExitCode, Stop> {
    if has_dashed_top(matches) {
        return Err(Stop::Usage(DASHED));
    }
    let search = search_of(matches);
    if search.allowance.is_some() && search.workers > 1 {
        return Err(Stop::Usage(
            "--seconds, --memory and --progress don't go with --workers above 1",
        ));
    }
    let request = request_of(rt.alloc(), matches)?;
    explore(rt, threads, &request, &search)
}
