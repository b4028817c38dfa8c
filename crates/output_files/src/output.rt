// One file that is to be written.

use crate::beside::{Fresh, fresh_file};
use crate::complaints::Trouble;
use crate::identity::{is_another, is_own_dump};
use std::io::Write;
use std::{fs, io};

/// What a file may take the place of.
#[derive(Clone, Copy, PartialEq, Eq)]
pub enum Over {
    /// Any file.
    Any,
    /// A dump of the program alone.
    OwnDumps,
}

// How far a file has come.
#[derive(Drop)]
enum Stage {
    // It is as it was.
    Old,
    // Its new text stands in the file of this name.
    Beside(String),
    // It has its new text.
    New,
    // It isn't there any more.
    Gone,
}

/// A file that is to be written: its name, and its text; where there is none, a dump that is there is to go.
#[derive(Drop)]
pub(crate) struct Output<'a> {
    pub name: &'a str,
    text: Option<Vec<u8>>,
    over: Over,
    stage: Stage,
}

// Removes the file, if it is there.
fn remove(rt: &HostRuntime, name: &str) -> Result<(), Trouble> {
    match fs::remove_file(rt, name) {
        Err(error) if error.kind() != io::ErrorKind::NotFound => Err(Trouble::System(error)),
        _ => Ok(()),
    }
}

// Puts a text that stands beside in its place, unless another file has come there meanwhile that it may not be written over.
fn renamed(rt: &HostRuntime, beside: &str, name: &str, over: Over) -> Result<Stage, Trouble> {
    if over == Over::OwnDumps && is_another(rt, name) {
        return Err(Trouble::Another);
    }
    fs::rename(rt, beside, name)?;
    Ok(Stage::New)
}

// Removes a dump of an earlier call, as it would be taken for that of this call; any other file stays.
fn removed(rt: &HostRuntime, name: &str) -> Result<Stage, Trouble> {
    if !is_own_dump(rt, name) {
        return Ok(Stage::Old);
    }
    remove(rt, name)?;
    Ok(Stage::Gone)
}

impl<'a> Output<'a> {
    /// One that is as it was.
    pub fn new(name: &'a str, text: Option<Vec<u8>>, over: Over) -> Output<'a> {
        Output {
            name,
            text,
            over,
            stage: Stage::Old,
        }
    }

    /// Writes the text beside, where there is one.
    pub fn prepare(&mut self, rt: &HostRuntime, names: &[&str]) -> Result<(), Trouble> {
        let Some(text) = &self.text else {
            return Ok(());
        };
        let Fresh { mut file, name } = fresh_file(rt, self.name, names)?;
        self.stage = Stage::Beside(name);
        file.write_all(text)?;
        file.sync_all()?;
        Ok(())
    }

    /// Takes its place, or leaves it where there is no text.
    pub fn take_place(&mut self, rt: &HostRuntime) -> Result<(), Trouble> {
        self.stage = match &self.stage {
            Stage::Beside(beside) => renamed(rt, beside.as_str(), self.name, self.over)?,
            _ => removed(rt, self.name)?,
        };
        Ok(())
    }

    /// Removes a text that still stands beside.
    pub fn clear(&mut self, rt: &HostRuntime) {
        if let Stage::Beside(beside) = &self.stage {
            let _ = fs::remove_file(rt, beside.as_str());
            self.stage = Stage::Old;
        }
    }

    /// What the file is now.
    pub fn state(&self) -> &'static str {
        match self.stage {
            Stage::Old => "is as it was",
            Stage::Beside(_) => "is as it was",
            Stage::New => "is new",
            Stage::Gone => "isn't there any more",
        }
    }
}
