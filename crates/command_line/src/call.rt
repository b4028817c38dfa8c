// The words of a call, parsed.

use crate::words::commands;
use basis::NoMemory;
use clap::error::ErrorKind;
use clap::{ArgMatches, Error};
use std::alloc::Global;
use std::io;

/// The words of a call as they were parsed: a command, and what stands behind it.
pub struct ParsedWords<'a> {
    matches: ArgMatches<'a>,
}

impl<'a> Drop for ParsedWords<'a> {
    fn drop(self) {
        let ParsedWords { matches: _ } = self;
    }
}

impl<'a> ParsedWords<'a> {
    /// What stands behind this command, if it is the one that is named.
    pub fn behind(&self, command: &str) -> Option<&ArgMatches<'a>> {
        self.matches.subcommand_matches(command)
    }
}

/// What is shown in place of a call: help, or what is wrong with its words.
pub struct Shown {
    error: Error,
}

impl Drop for Shown {
    fn drop(self) {
        let Shown { error: _ } = self;
    }
}

impl Shown {
    /// The text.
    pub fn text(&self, alloc: Global) -> Result<String, NoMemory> {
        Ok(format!(in alloc; "{}", self.error)?)
    }

    /// Shows it where it belongs, help on standard output.
    pub fn print(&self, rt: &HostRuntime) -> io::Result<()> {
        self.error.print(rt)
    }

    /// Whether the value of an option isn't what it has to be.
    pub fn is_of_value(&self) -> bool {
        self.error.kind() == ErrorKind::ValueValidation
    }

    /// Whether a word stands where a command is to stand, and is none.
    pub fn is_of_no_command(&self) -> bool {
        self.error.kind() == ErrorKind::InvalidSubcommand
    }
}

/// Why words name no call.
#[derive(Drop)]
pub enum Unparsed {
    /// A growth was refused.
    NoMemory,
    /// Help or the version is asked for.
    Help(Shown),
    /// A word is wrong.
    Wrong(Shown),
}

// What clap says of words that it doesn't take.
fn unparsed_of(error: Error) -> Unparsed {
    if error.kind() == ErrorKind::OutOfMemory {
        Unparsed::NoMemory
    } else if error.use_stderr() {
        Unparsed::Wrong(Shown { error })
    } else {
        Unparsed::Help(Shown { error })
    }
}

/// The call that these words name, the first one being the program's name.
pub fn parse_words<'a>(alloc: Global, words: &'a [String]) -> Result<ParsedWords<'a>, Unparsed> {
    let Ok(commands) = commands(alloc) else {
        return Err(Unparsed::NoMemory);
    };
    match commands.try_get_matches_from(words) {
        Ok(matches) => Ok(ParsedWords { matches }),
        Err(error) => Err(unparsed_of(error)),
    }
}
