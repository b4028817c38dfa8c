//! Tells of the machine and its parts what `vrace` doesn't, so that scripts can compare it. In go words, of which the first says what is
//! asked for: `causes` the cause of a log (`causes.rt`), `steps` the dump of a run in two other ways (`steps.rt`), `codes` figures of step
//! code (`codes.rt`), `refusals` what is left by calls that were refused memory (`refusals.rt`). The first three take a text on standard
//! input. Out comes what was asked for; or one line that says why there is none, with status 2. Without words nothing is done. No law is
//! claimed.
#![tactic(auto)]

mod causes;
mod codes;
mod given;
mod refusals;
mod steps;

use given::{Stop, word_at};
use std::process::ExitCode;
use std::{env, io};

fn main(rt: HostRuntime) -> io::Result<ExitCode> {
    let words = env::args(&rt)?.collect::<Vec<String>>(rt.alloc())?;
    let asked = words.get(2..).unwrap_or(&[]);
    let done = match word_at(&words, 1) {
        "causes" => causes::tell(&rt, asked),
        "steps" => steps::tell(&rt, asked),
        "codes" => codes::tell(&rt, asked),
        "refusals" => refusals::tell(&rt, &rt, asked),
        _ => Ok(()),
    };
    match done {
        Ok(()) => Ok(ExitCode::SUCCESS),
        Err(Stop::Failed(error)) => Err(error),
        Err(Stop::Word(word)) => {
            rt.println(word)?;
            Ok(ExitCode::from(2))
        }
    }
}
