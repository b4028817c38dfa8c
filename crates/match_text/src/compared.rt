// What of the dump was compared, and what stands in one of both alone.

use crate::told::Found;
use basis::NoMemory;
use race_words::{Piece, put, put_all};

// How many names are told of a list.
const NAMED: usize = 3;

// `, a, b and 2 more`, behind the words before.
fn put_names(text: &mut Vec<u8>, words: &[u8], names: &[Vec<u8>]) -> Result<(), NoMemory> {
    if names.is_empty() {
        return Ok(());
    }
    put(text, words)?;
    for (place, name) in names.iter().take(NAMED).enumerate() {
        let joint: &[u8] = if place == 0 { b" " } else { b", " };
        put_all(text, &[Piece::Bytes(joint), Piece::Bytes(name)])?;
    }
    if names.len() > NAMED {
        let others = Piece::Count(names.len().saturating_sub(NAMED) as u64, b"other");
        put_all(text, &[Piece::Bytes(b" and "), others])?;
    }
    put(text, b".")
}

// ` All of it stands in the scope TOP.`, where the dump has one around the top module.
fn put_scope(text: &mut Vec<u8>, scope: Option<&[u8]>) -> Result<(), NoMemory> {
    let Some(scope) = scope else {
        return Ok(());
    };
    let name = Piece::Bytes(scope);
    put_all(
        text,
        &[
            Piece::Bytes(b" The dump's scope "),
            name,
            Piece::Bytes(b" is left out."),
        ],
    )
}

/// A line: how many variables were compared, and which stand in one of both alone, or in both with another width.
pub fn put_compared(text: &mut Vec<u8>, found: &Found<'_>) -> Result<(), NoMemory> {
    let compared = found.compared;
    let count = Piece::Count(compared.variables as u64, b"variable");
    put_all(
        text,
        &[Piece::Bytes(b"Compared: "), count, Piece::Bytes(b".")],
    )?;
    put_names(text, b" In the dump alone:", compared.only_in_dump)?;
    put_names(text, b" In the files alone:", compared.only_in_files)?;
    put_names(text, b" Of another width:", compared.of_other_width)?;
    put_names(text, b" More than once in the dump:", compared.repeated)?;
    put_scope(text, compared.left_out)?;
    put(text, b"\n")
}
