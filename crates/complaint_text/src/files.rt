// What is said of files and of their lines.

use crate::dump_flaws::flaw_words;
use basis::NoMemory;
use refusal_text::line_of;
use shown_text::{put_shown, shown_name};
use std::alloc::Global;
use std::io;
use vcd_read::VcdFlaw;

/// What is said of a file that can't be opened.
pub fn unopened_text(alloc: Global, name: &str, error: &io::Error) -> Result<String, NoMemory> {
    let name = shown_name(alloc, name)?;
    Ok(format!(in alloc; "{name}: can't be opened: {error}\n")?)
}

/// What is said of a file that has too many bytes.
pub fn too_long_text(alloc: Global, name: &str) -> Result<String, NoMemory> {
    let name = shown_name(alloc, name)?;
    Ok(format!(in alloc; "{name}: has over 16,777,216 bytes\n")?)
}

/// What is said of a file that can't be read.
pub fn unread_text(alloc: Global, name: &str) -> Result<String, NoMemory> {
    let name = shown_name(alloc, name)?;
    Ok(format!(in alloc; "{name}: can't be read; is it a folder?\n")?)
}

/// What is said of files that have too many bytes together.
pub const TOO_LONG_TOGETHER: &str = "the files have over 16,777,216 bytes together\n";

// The line as a terminal may be shown it.
fn shown_line(alloc: Global, line: &[u8]) -> Result<String, NoMemory> {
    let mut text = Vec::new(alloc);
    put_shown(&mut text, line, b"\t")?;
    match str::from_utf8(&text) {
        Ok(text) => Ok(String::from_str(alloc, text)?),
        Err(_) => Ok(String::new(alloc)),
    }
}

/// What is said of a line that is no waiver.
pub fn waiver_text(
    alloc: Global,
    name: &str,
    text: &[u8],
    number: u64,
) -> Result<String, NoMemory> {
    let line = shown_line(alloc, line_of(text, number as usize).trim_ascii_end())?;
    let name = shown_name(alloc, name)?;
    Ok(format!(in alloc;
        "{name}:{number}: no waiver\n    {line}\n    instead: write FILE:LINE FILE:LINE # reason, variable PATTERN # reason, or ends TOP CAUSE:TIME CAUSE:TIME # reason\n"
    )?)
}

/// What is said of the line at which a text stops being a dump.
pub fn dump_text(
    alloc: Global,
    name: &str,
    number: u64,
    flaw: VcdFlaw,
) -> Result<String, NoMemory> {
    let (name, reason) = (shown_name(alloc, name)?, flaw_words(flaw));
    Ok(format!(in alloc;
        "{name}:{number}: no value change dump (IEEE 1364-2005, 18.2): {reason}\n"
    )?)
}
