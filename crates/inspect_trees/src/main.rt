//! Tells what readers make of texts, so that scripts can compare it. In go words, of which the first says what is asked for: `trees` the
//! tree of the text on standard input (`trees.rt`), `readers` what a reader makes of files (`readers.rt`). Out comes what was asked for, or
//! one line that says why there is none. Without words nothing is read. No law is claimed.
#![tactic(auto)]

mod readers;
mod refusal;
mod text;
mod trees;

use std::process::ExitCode;
use std::{env, io};

// The word of this number.
fn word_at(words: &[String], number: usize) -> &str {
    match words.get(number) {
        Some(word) => word.as_str(),
        None => "",
    }
}

fn main(rt: HostRuntime) -> io::Result<ExitCode> {
    let words = env::args(&rt)?.collect::<Vec<String>>(rt.alloc())?;
    let asked = words.get(2..).unwrap_or(&[]);
    match word_at(&words, 1) {
        "trees" => trees::tell(&rt, asked),
        "readers" => readers::tell(&rt, asked),
        _ => Ok(ExitCode::SUCCESS),
    }
}
