// What a waiver names, as a text that is the same for the race that it is of. No line feed stands in a name of a waiver, so no two things have
// one key.

use crate::escapes::name_of_word;
use crate::patterns::Pattern;
use crate::pieces::{Piece, put_all};
use crate::waivers::{EndPlace, LinePlace, Waiver, WaiverScope};
use basis::NoMemory;
use std::alloc::Global;

/// `FILE:LINE`.
pub fn spot_of(alloc: Global, file: &[u8], line: u64) -> Result<Vec<u8>, NoMemory> {
    let mut spot = Vec::new(alloc);
    put_all(
        &mut spot,
        &[Piece::Bytes(file), Piece::Bytes(b":"), Piece::Number(line)],
    )?;
    Ok(spot)
}

// The kind, and two texts, with line feeds between them.
fn joined<'x>(
    alloc: Global,
    kind: &'x [u8],
    first: &'x [u8],
    second: &'x [u8],
) -> Result<Vec<u8>, NoMemory> {
    let mut key = Vec::new(alloc);
    put_all(
        &mut key,
        &[
            Piece::Bytes(kind),
            Piece::Bytes(b"\n"),
            Piece::Bytes(first),
            Piece::Bytes(b"\n"),
            Piece::Bytes(second),
        ],
    )?;
    Ok(key)
}

// The kind, and both spots, the lesser one first.
fn key_of_two(alloc: Global, kind: &[u8], one: &[u8], other: &[u8]) -> Result<Vec<u8>, NoMemory> {
    if one < other {
        joined(alloc, kind, one, other)
    } else {
        joined(alloc, kind, other, one)
    }
}

/// The key of two statements that begin at these spots, in either order.
pub fn lines_key(alloc: Global, one: &[u8], other: &[u8]) -> Result<Vec<u8>, NoMemory> {
    key_of_two(alloc, b"lines", one, other)
}

// The kind, and a name.
fn key_of_name<'x>(alloc: Global, kind: &'x [u8], name: &'x [u8]) -> Result<Vec<u8>, NoMemory> {
    let mut key = Vec::new(alloc);
    put_all(
        &mut key,
        &[Piece::Bytes(kind), Piece::Bytes(b"\n"), Piece::Bytes(name)],
    )?;
    Ok(key)
}

/// The key of the variable of this name, where nothing else differs.
pub fn variable_key(alloc: Global, name: &[u8]) -> Result<Vec<u8>, NoMemory> {
    key_of_name(alloc, b"variable", name)
}

/// The key of runs of the top module that end at these spots, `finish:50`, in either order.
pub fn ends_key(alloc: Global, top: &[u8], one: &[u8], other: &[u8]) -> Result<Vec<u8>, NoMemory> {
    let kind = key_of_name(alloc, b"ends", top)?;
    key_of_two(alloc, &kind, one, other)
}

// `FILE:LINE`, with the name of the file as it is.
fn spot_of_lines(alloc: Global, place: LinePlace<'_>) -> Result<Vec<u8>, NoMemory> {
    let file = name_of_word(alloc, place.file)?;
    spot_of(alloc, &file, place.line)
}

// `finish:50ns`.
fn spot_of_end(alloc: Global, end: EndPlace<'_>) -> Result<Vec<u8>, NoMemory> {
    let mut spot = spot_of(alloc, end.cause, end.time)?;
    spot.extend_from_slice(end.unit)?;
    Ok(spot)
}

// The key of a pattern: that of its only name, where it has no star.
fn key_of_pattern(alloc: Global, word: &[u8]) -> Result<Vec<u8>, NoMemory> {
    let pattern = Pattern::new(alloc, word)?;
    match pattern.only_name() {
        Some(name) => variable_key(alloc, name),
        None => key_of_name(alloc, b"pattern", &pattern.key(alloc)?),
    }
}

/// The key of what the waiver is of.
pub fn key_of_waiver(alloc: Global, waiver: &Waiver<'_>) -> Result<Vec<u8>, NoMemory> {
    match waiver.scope {
        WaiverScope::Variables(word) => key_of_pattern(alloc, word),
        WaiverScope::Lines(one, other) => {
            let one = spot_of_lines(alloc, one)?;
            lines_key(alloc, &one, &spot_of_lines(alloc, other)?)
        }
        WaiverScope::Ends(ends) => {
            let top = name_of_word(alloc, ends.top)?;
            let one = spot_of_end(alloc, ends.one)?;
            ends_key(alloc, &top, &one, &spot_of_end(alloc, ends.other)?)
        }
    }
}
