// What a call is given: words, a text, a log; and why it answers nothing.

use basis::{NoMemory, OrMemory};
use sched_core::setting::Grain;
use sched_core::{Log, ReplayFault, read_log};
use std::alloc::Global;
use std::io::{self, Read};
use text_read::design_of;
use vdesign::design::Design;

/// Why there is no answer: one word or two that are written in its place, or that reading or writing failed.
#[derive(Drop)]
pub enum Stop {
    Word(&'static str),
    Failed(io::Error),
}

/// Memory was refused.
pub const NO_MEMORY: &str = "E901";

/// The log names a step that isn't reached or has no such choice.
pub const NO_SUCH_CHOICE: &str = "E402";

/// The run takes more steps than allowed.
pub const TOO_MANY_STEPS: &str = "E403";

impl From<io::Error> for Stop {
    fn from(error: io::Error) -> Stop {
        Stop::Failed(error)
    }
}

impl From<NoMemory> for Stop {
    fn from(_refused: NoMemory) -> Stop {
        Stop::Word(NO_MEMORY)
    }
}

impl From<OrMemory<ReplayFault>> for Stop {
    fn from(fault: OrMemory<ReplayFault>) -> Stop {
        match fault {
            OrMemory::Fault(ReplayFault::NoSuchChoice) => Stop::Word(NO_SUCH_CHOICE),
            OrMemory::Fault(ReplayFault::TooManySteps) => Stop::Word(TOO_MANY_STEPS),
            OrMemory::Memory(_) => Stop::Word(NO_MEMORY),
        }
    }
}

/// The word of this number; none is the empty one.
pub fn word_at(words: &[String], number: usize) -> &str {
    match words.get(number) {
        Some(word) => word.as_str(),
        None => "",
    }
}

/// What the word of this number says as a number; where it says none, the usual one.
pub fn number_at(words: &[String], number: usize, usual: u64) -> u64 {
    word_at(words, number).parse::<u64>().unwrap_or(usual)
}

/// The same of 32 bits.
pub fn small_number_at(words: &[String], number: usize, usual: u32) -> u32 {
    word_at(words, number).parse::<u32>().unwrap_or(usual)
}

/// The grain that the word of this number names.
pub fn grain_at(words: &[String], number: usize) -> Grain {
    if word_at(words, number) == "statement" {
        Grain::Statement
    } else {
        Grain::Process
    }
}

/// The design of the text on standard input, of which this is the top, where it is named.
pub fn design_given(rt: &HostRuntime, top: Option<&String>) -> Result<Design, Stop> {
    let mut text = Vec::new(rt.alloc());
    rt.reader().read_to_end(&mut text)?;
    let top = match top {
        Some(word) => Some(word.as_bytes()),
        None => None,
    };
    match design_of(rt.alloc(), text, top) {
        Some(design) => Ok(design),
        None => Err(Stop::Word("no design")),
    }
}

/// The log that the word of this number is.
pub fn log_at(alloc: Global, words: &[String], number: usize) -> Result<Log, Stop> {
    match read_log(alloc, word_at(words, number).as_bytes()) {
        Ok(log) => Ok(log),
        Err(_) => Err(Stop::Word("no log")),
    }
}
