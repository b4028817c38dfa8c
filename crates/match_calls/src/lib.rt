// The call `match` of the program: which order another simulator took. In go the words behind the command, parsed; the dump that they name
// is compared with the runs of the files, or two dumps are, and so with each other. Out comes what was found, on standard output, and the exit
// status, or what ends the call early.
// What is found is the contract of `dump_match::match_dump` and `match_dumps`; no law of its own is claimed: tests/match and tests/two-dumps
// compare what is told.
#![tactic(auto)]

mod dumps;
mod one;
mod searching;
mod telling;
mod told;
mod two;

use clap::ArgMatches;
use command_line::{
    MatchWords, Request, has_dashed_match, has_dashed_top, has_many_dumps, has_many_scopes,
    match_request_of, match_words_of,
};
use dumps::{Subject, renaming_by};
use finding_text::Sources;
use one::tell_one;
use program_base::{DASHED, Stop, check_limits, texts, with_words};
use race_facts::places_of;
use searching::options_of;
use std::process::ExitCode;
use two::tell_two;
use vrace::machine_of_files;

// Said of more dumps than are compared.
const DUMPS: &str = "match compares two dumps at most: --vcd may be given twice";

// Said of more scopes than dumps.
const MANY_SCOPES: &str = "--scope may be given once, or once for each dump";

// Compares the dumps with the runs of the texts.
fn match_texts(
    rt: &HostRuntime,
    texts: &[Vec<u8>],
    request: &Request<'_>,
    words: &MatchWords<'_>,
) -> Result<ExitCode, Stop> {
    let options = options_of(request, words.entries, words.slot_depart)?;
    let placed = machine_of_files(rt.alloc(), texts, &options)?;
    let places = places_of(rt.alloc(), &placed.machine, &placed.origins)?;
    let sources = Sources {
        names: &request.files,
        texts,
        places: &places,
    };
    let subject = Subject {
        machine: &placed.machine,
        timed: placed.timed,
    };
    match words.second {
        None => tell_one(rt, subject, &sources, request, words),
        Some(second) => tell_two(rt, subject, &sources, request, words, second),
    }
}

// Says which order of the files has the values of the dump at the end of each slot: none of their departures is tried first, then one a
// slot, and so on.
fn tell_match(
    rt: &HostRuntime,
    request: &Request<'_>,
    words: &MatchWords<'_>,
) -> Result<ExitCode, Stop> {
    check_limits(&words.allowance)?;
    renaming_by(rt.alloc(), words.first)?;
    if let Some(second) = words.second {
        renaming_by(rt.alloc(), second)?;
    }
    options_of(request, words.entries, words.slot_depart)?;
    let texts = texts(rt, &request.files)?;
    let done = match_texts(rt, &texts, request, words);
    let tops = request.top.as_slice();
    with_words(rt.alloc(), done, true, &request.files, &texts, tops)
}

// What is wrong with the words of the call, if something is.
fn wrong_words(matches: &ArgMatches<'_>) -> Option<&'static str> {
    if has_dashed_top(matches) || has_dashed_match(matches) {
        Some(DASHED)
    } else if has_many_dumps(matches) {
        Some(DUMPS)
    } else if has_many_scopes(matches) {
        Some(MANY_SCOPES)
    } else {
        None
    }
}

/// Compares the dumps with the runs that the words ask for, and writes what was found to standard output.
pub fn match_by<'a>(rt: &HostRuntime, matches: &ArgMatches<'a>) -> Result<ExitCode, Stop> {
    if let Some(reason) = wrong_words(matches) {
        return Err(Stop::Usage(reason));
    }
    let request = match_request_of(rt.alloc(), matches)?;
    tell_match(rt, &request, &match_words_of(matches))
}
