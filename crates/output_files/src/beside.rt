// New files beside those that are to be written.

use crate::complaints::Trouble;
use crate::identity::last_name;
use basis::NoMemory;
use std::alloc::Global;
use std::fs::File;
use std::{fs, io};

// How many names are tried for a new file.
const NAMES: u32 = 100;

/// A file that is open, and its name.
#[derive(Drop)]
pub(crate) struct Fresh {
    pub file: File,
    pub name: String,
}

// The name of so manieth a new file beside that of this name.
fn beside_name(alloc: Global, name: &str, number: u32) -> Result<String, NoMemory> {
    Ok(if number == 0 {
        format!(in alloc; "{name}.new")?
    } else {
        format!(in alloc; "{name}.new{number}")?
    })
}

// Whether one of the files that are to be written may have this name.
fn is_wanted(beside: &str, names: &[&str]) -> bool {
    for name in names {
        if last_name(beside) == last_name(name) {
            return true;
        }
    }
    false
}

// Makes a file of this name, unless something stands there; a link stands there, wherever it leads.
fn made(rt: &HostRuntime, name: &str) -> Result<Option<File>, Trouble> {
    match File::create_new(rt, name) {
        Ok(file) => Ok(Some(file)),
        Err(error) if error.kind() == io::ErrorKind::AlreadyExists => Ok(None),
        Err(error) => Err(Trouble::System(error)),
    }
}

/// Makes a file beside that of this name, whose name nothing has, and none of the files that are to be written is to have.
pub(crate) fn fresh_file(rt: &HostRuntime, name: &str, names: &[&str]) -> Result<Fresh, Trouble> {
    for number in 0..NAMES {
        let beside = beside_name(rt.alloc(), name, number)?;
        if !is_wanted(beside.as_str(), names) {
            if let Some(file) = made(rt, beside.as_str())? {
                return Ok(Fresh { file, name: beside });
            }
        }
    }
    Err(Trouble::Taken)
}

/// Whether a file of this name can be written: one is made beside, and removed.
pub(crate) fn try_file(rt: &HostRuntime, name: &str, names: &[&str]) -> Result<(), Trouble> {
    let fresh = fresh_file(rt, name, names)?;
    fs::remove_file(rt, fresh.name.as_str())?;
    Ok(())
}
