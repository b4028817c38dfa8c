//! The program `vrace`. In go words and Verilog; out comes a report, the races of top modules, a value change dump or printed lines on
//! standard output, or one line with the number of a fault on standard error. What an exploration writes is the contract of
//! `vrace::explore_text_alone`, with several workers of `vrace::explore_text`, and by time of `vrace::explore_text_in_time`; what `races`
//! tells is found by `vrace::find_races_in`; what a replay writes is the contract of `vrace::replay_text`.
#![tactic(auto)]

mod races;

use command_line::{
    ParsedWords, Shown, Unparsed, explanation_of, has_joined_letters, parse_words, show, show_all,
};
use drive_calls::drive_by;
use match_calls::match_by;
use program_base::{Stop, say_stop, say_unparsed};
use races::races_by;
use run_calls::{check_by, explore_by, replay_by};
use std::process::ExitCode;
use std::sync::Wait;
use std::thread::Threads;
use std::{env, io};
use vrace::Fault;

// Adds `replay` where there are no words but the program's name.
fn add_command(rt: &HostRuntime, words: &mut Vec<String>) -> Result<(), Stop> {
    if words.len() == 1 {
        let Ok(replay) = String::from_str(rt.alloc(), "replay") else {
            return Err(Stop::NoMemory);
        };
        let Ok(()) = words.push(replay) else {
            return Err(Stop::NoMemory);
        };
    }
    Ok(())
}

// The words, with `replay` where there are none.
fn words_of(rt: &HostRuntime) -> Result<Vec<String>, Stop> {
    let arguments = match env::args(rt) {
        Ok(arguments) => arguments,
        Err(error) => {
            if error.kind() == io::ErrorKind::OutOfMemory {
                return Err(Stop::NoMemory);
            }
            return Err(Stop::Usage("a word isn't text"));
        }
    };
    let Ok(mut words) = arguments.collect::<Vec<String>>(rt.alloc()) else {
        return Err(Stop::NoMemory);
    };
    add_command(rt, &mut words)?;
    Ok(words)
}

// Says what a number of a fault means, or all of them.
fn explain(rt: &HostRuntime, number: Option<&str>) -> Result<ExitCode, Stop> {
    let done = match number {
        None => show_all(rt),
        Some(number) => match explanation_of(number) {
            None => return Err(Stop::Usage("no fault has this number")),
            Some(row) => show(rt, row),
        },
    };
    match done {
        Ok(()) => Ok(ExitCode::SUCCESS),
        Err(_) => Err(Stop::Refused(Fault::Write)),
    }
}

// Prints the help that is asked for.
fn print_help(rt: &HostRuntime, shown: &Shown) -> Result<ExitCode, Stop> {
    match shown.print(rt) {
        Ok(()) => Ok(ExitCode::SUCCESS),
        Err(_) => Err(Stop::Refused(Fault::Write)),
    }
}

// Makes the call that the words name; workers start threads by the second handle.
fn run_call<R: Threads + Wait + Sync>(
    rt: &HostRuntime,
    threads: &R,
    words: &ParsedWords<'_>,
) -> Result<ExitCode, Stop> {
    if let Some(matches) = words.behind("explain") {
        return explain(rt, matches.get_str("NUMBER"));
    }
    if let Some(matches) = words.behind("check") {
        return check_by(rt, matches);
    }
    if let Some(matches) = words.behind("drive") {
        return drive_by(rt, matches);
    }
    if let Some(matches) = words.behind("explore") {
        return explore_by(rt, threads, matches);
    }
    if let Some(matches) = words.behind("match") {
        return match_by(rt, matches);
    }
    if let Some(matches) = words.behind("races") {
        return races_by(rt, matches);
    }
    match words.behind("replay") {
        Some(matches) => replay_by(rt, matches),
        None => Err(Stop::Usage("no command is named")),
    }
}

// Does what the words ask for.
fn run<R: Threads + Wait + Sync>(
    rt: &HostRuntime,
    threads: &R,
    words: &[String],
) -> Result<ExitCode, Stop> {
    if has_joined_letters(words) {
        return Err(Stop::Usage("one dash stands before several letters: an option has two"));
    }
    match parse_words(rt.alloc(), words) {
        Ok(parsed) => run_call(rt, threads, &parsed),
        Err(Unparsed::NoMemory) => Err(Stop::NoMemory),
        Err(Unparsed::Help(shown)) => print_help(rt, &shown),
        Err(Unparsed::Wrong(shown)) => say_unparsed(rt, words, &shown),
    }
}

fn main(rt: HostRuntime) -> ExitCode {
    match words_of(&rt) {
        Err(stop) => say_stop(&rt, &[], &stop),
        Ok(words) => match run(&rt, &rt, &words) {
            Ok(code) => code,
            Err(stop) => say_stop(&rt, &words, &stop),
        },
    }
}
