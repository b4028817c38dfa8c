// Texts of files that are read, and texts on standard output.

use crate::stop::Stop;
use basis::NoMemory;
use byte_sinks::Metered;
use complaint_text::{too_long_text, unopened_text, unread_text};
use std::alloc::Global;
use std::fs::File;
use std::io;
use std::io::{BufWriter, Write};
use vrace::{Fault, read_text};

// The refusal with these words.
fn refused(fault: Fault, words: Result<String, NoMemory>) -> Stop {
    match words {
        Ok(words) => Stop::Told(fault, words.into_bytes()),
        Err(_) => Stop::NoMemory,
    }
}

/// The refusal of a file that can't be opened.
pub fn refused_open(alloc: Global, name: &str, error: &io::Error) -> Stop {
    refused(Fault::Read, unopened_text(alloc, name, error))
}

// The refusal of a file that can be opened.
fn refused_read(alloc: Global, name: &str, fault: Fault) -> Stop {
    match fault {
        Fault::Memory(_) => Stop::NoMemory,
        Fault::TooLong => refused(fault, too_long_text(alloc, name)),
        _ => refused(fault, unread_text(alloc, name)),
    }
}

/// The text of one file.
pub fn read_file(rt: &HostRuntime, name: &str) -> Result<Vec<u8>, Stop> {
    let file = match File::open(rt, name) {
        Ok(file) => file,
        Err(error) => return Err(refused_open(rt.alloc(), name, &error)),
    };
    match read_text(rt.alloc(), &mut Metered::new(file)) {
        Ok(text) => Ok(text),
        Err(fault) => Err(refused_read(rt.alloc(), name, fault)),
    }
}

// Keeps a text with the others.
fn keep(texts: &mut Vec<Vec<u8>>, text: Vec<u8>) -> Result<(), NoMemory> {
    texts.push(text)?;
    Ok(())
}

// The text of standard input.
fn read_input(rt: &HostRuntime) -> Result<Vec<u8>, Fault> {
    read_text(rt.alloc(), &mut Metered::new(rt.reader()))
}

/// The texts of the files, or of standard input where there are none.
pub fn texts(rt: &HostRuntime, names: &[&str]) -> Result<Vec<Vec<u8>>, Stop> {
    let mut texts = Vec::new(rt.alloc());
    if names.is_empty() {
        keep(&mut texts, read_input(rt)?)?;
    }
    for name in names {
        keep(&mut texts, read_file(rt, name)?)?;
    }
    Ok(texts)
}

/// Writes out what is held back.
pub fn finish<W: Write>(writer: &mut Metered<W>) -> Result<(), Stop> {
    match writer.flush() {
        Ok(()) => Ok(()),
        Err(_) => Err(Stop::Refused(Fault::Write)),
    }
}

/// Writes a document to standard output.
pub fn write_out(rt: &HostRuntime, text: &[u8]) -> Result<(), Stop> {
    let Ok(buffered) = BufWriter::new(rt.alloc(), io::writer(rt)) else {
        return Err(Stop::NoMemory);
    };
    let mut writer = Metered::new(buffered);
    if writer.write_all(text).is_err() {
        return Err(Stop::Refused(Fault::Write));
    }
    finish(&mut writer)
}
