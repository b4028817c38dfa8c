// Refusals in words, behind their line.

use crate::stop::Stop;
use basis::NoMemory;
use refusal_text::{Files, line_starts, refusal_text};
use shown_text::shown_name;
use std::alloc::Global;
use std::process::ExitCode;
use vrace::{At, Detail, Fault};
use vsrc::Place;

// The names as a terminal may be shown them.
fn shown_names(alloc: Global, names: &[&str]) -> Result<Vec<String>, NoMemory> {
    let mut shown = Vec::new(alloc);
    for name in names {
        shown.push(shown_name(alloc, name)?)?;
    }
    Ok(shown)
}

// The same, as a refusal takes them.
fn borrowed(alloc: Global, names: &[String]) -> Result<Vec<&str>, NoMemory> {
    let mut borrowed = Vec::new(alloc);
    for name in names {
        borrowed.push(name.as_str())?;
    }
    Ok(borrowed)
}

// What is told of a refusal at the place in these files.
fn words_of(
    alloc: Global,
    number: u16,
    place: Option<Place>,
    names: &[&str],
    texts: &[Vec<u8>],
    tops: &[&str],
) -> Result<Vec<u8>, NoMemory> {
    let shown = shown_names(alloc, names)?;
    let names = borrowed(alloc, &shown)?;
    let starts = line_starts(alloc, texts)?;
    let files = Files {
        names: &names,
        texts,
        starts: &starts,
    };
    refusal_text(alloc, number, place, files, tops)
}

// The refusal of these files, with what is told of it in words.
fn refusal_in_words(
    alloc: Global,
    fault: Fault,
    names: &[&str],
    texts: &[Vec<u8>],
    tops: &[&str],
) -> Stop {
    let place = match fault.detail() {
        Detail::Place(At(place)) => place,
        _ => None,
    };
    match words_of(alloc, fault.number(), place, names, texts, tops) {
        Ok(words) => Stop::Told(fault, words),
        Err(_) => Stop::Refused(fault),
    }
}

/// What was done with these files, of which these top modules are asked for; where they were refused, and words are asked for, with
/// what is told of it.
pub fn with_words(
    alloc: Global,
    done: Result<ExitCode, Stop>,
    in_words: bool,
    names: &[&str],
    texts: &[Vec<u8>],
    tops: &[&str],
) -> Result<ExitCode, Stop> {
    match done {
        Ok(code) => Ok(code),
        Err(stop) => Err(match stop.untold() {
            Some(fault) if in_words => refusal_in_words(alloc, fault, names, texts, tops),
            _ => stop,
        }),
    }
}
