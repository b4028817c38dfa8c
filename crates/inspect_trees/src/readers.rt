// What the reader of a name makes of files: `expand` and `places` take the files of a source text, `words` those whose tokens are asked
// for, `report` a report, `dump` and `slots` a value change dump. Out comes what was read, as README.md says; or one line that says why
// nothing was. Without words nothing is read.

mod dumps;
mod reports;
mod slots;
mod sources;

use crate::refusal::Refusal;
use basis::OrMemory;
use std::alloc::Global;
use std::fs::File;
use std::io::{self, Read, Write};
use std::process::ExitCode;

// The bytes of the files of these names.
fn files_of(rt: &HostRuntime, names: &[String]) -> io::Result<Vec<Vec<u8>>> {
    let mut files = Vec::new(rt.alloc());
    for name in names {
        let mut bytes = Vec::new(rt.alloc());
        File::open(rt, name.as_str())?.read_to_end(&mut bytes)?;
        files.push(bytes)?;
    }
    Ok(files)
}

// What the reader of this name makes of the files.
fn answer(alloc: Global, name: &str, files: &[Vec<u8>]) -> Result<Vec<u8>, OrMemory<Refusal>> {
    let first: &[u8] = match files.first() {
        None => b"",
        Some(bytes) => bytes,
    };
    match name {
        "expand" => sources::expansion(alloc, files),
        "places" => sources::places(alloc, files),
        "words" => sources::words(alloc, files),
        "report" => Ok(reports::again(alloc, first)?),
        "dump" => Ok(dumps::items(alloc, first)?),
        _ => Ok(slots::slot_lines(alloc, first)?),
    }
}

/// Writes what these words ask for: what the reader of the first makes of the files that the others name.
pub fn tell(rt: &HostRuntime, words: &[String]) -> io::Result<ExitCode> {
    let Some((name, names)) = words.split_first() else {
        return Ok(ExitCode::SUCCESS);
    };
    match answer(rt.alloc(), name.as_str(), &files_of(rt, names)?) {
        Ok(text) => io::writer(rt).write_all(&text)?,
        Err(OrMemory::Fault(Refusal { number, place })) => {
            println!(rt;
                "E{number} at {}:{}:{}",
                place.file, place.line, place.column
            )?
        }
        Err(OrMemory::Memory(_)) => rt.println("E901")?,
    }
    Ok(ExitCode::SUCCESS)
}
