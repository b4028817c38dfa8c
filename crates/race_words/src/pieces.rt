// Pieces of a text: numbers, blanks, and bytes that a terminal shows as they are.

use basis::NoMemory;
use shown_text::{put_byte_code, put_shown, whole_letters};
use std::alloc::Global;
use value_text::put_short_decimal;
use vbits::Vec4;

/// A piece of a text.
#[derive(Clone, Copy)]
pub enum Piece<'a> {
    /// These bytes.
    Bytes(&'a [u8]),
    /// A number in decimal.
    Number(u64),
    /// So many of something: `1 race`, `2 races`.
    Count(u64, &'a [u8]),
    /// The bytes, and blanks up to this width.
    Padded(&'a [u8], usize),
    /// The first so many bytes as a terminal may be shown them, and `..` where there are more.
    Cut(&'a [u8], usize),
}

/// These bytes.
pub fn put(text: &mut Vec<u8>, bytes: &[u8]) -> Result<(), NoMemory> {
    text.extend_from_slice(bytes)?;
    Ok(())
}

/// The number in decimal.
pub fn put_number(text: &mut Vec<u8>, n: u64) -> Result<(), NoMemory> {
    put_short_decimal(text, Vec4::from_u64(64, n))
}

/// So many of something: `1 race`, `2 races`.
pub fn put_count(text: &mut Vec<u8>, n: u64, word: &[u8]) -> Result<(), NoMemory> {
    put_number(text, n)?;
    put(text, b" ")?;
    put(text, word)?;
    if n == 1 { Ok(()) } else { put(text, b"s") }
}

/// The bytes, and blanks up to this width.
pub fn put_padded(text: &mut Vec<u8>, bytes: &[u8], width: usize) -> Result<(), NoMemory> {
    put(text, bytes)?;
    for _ in bytes.len()..width {
        put(text, b" ")?;
    }
    Ok(())
}

/// The first so many bytes as a terminal may be shown them, and `..` where there are more. A letter of UTF-8 isn't cut.
pub fn put_cut(text: &mut Vec<u8>, bytes: &[u8], most: usize) -> Result<(), NoMemory> {
    if bytes.len() <= most {
        return put_shown(text, bytes, b"");
    }
    match bytes.get(..whole_letters(bytes, most)) {
        None => {}
        Some(front) => put_shown(text, front, b"")?,
    }
    put(text, b"..")
}

// The piece.
fn put_piece(text: &mut Vec<u8>, piece: Piece<'_>) -> Result<(), NoMemory> {
    match piece {
        Piece::Bytes(bytes) => put(text, bytes),
        Piece::Number(n) => put_number(text, n),
        Piece::Count(n, word) => put_count(text, n, word),
        Piece::Padded(bytes, width) => put_padded(text, bytes, width),
        Piece::Cut(bytes, most) => put_cut(text, bytes, most),
    }
}

/// The pieces, one after another.
pub fn put_all(text: &mut Vec<u8>, pieces: &[Piece<'_>]) -> Result<(), NoMemory> {
    for piece in pieces {
        put_piece(text, *piece)?;
    }
    Ok(())
}

// The letters of an escape, behind a string.
fn put_letters(text: &mut String, letters: &[u8]) -> Result<(), NoMemory> {
    for letter in letters {
        text.push(char::from(*letter))?;
    }
    Ok(())
}

// Puts `\xff` for each of these bytes.
fn put_escaped(alloc: Global, text: &mut String, bytes: &[u8]) -> Result<(), NoMemory> {
    for byte in bytes {
        let mut escape = Vec::new(alloc);
        put_byte_code(&mut escape, *byte)?;
        put_letters(text, &escape)?;
    }
    Ok(())
}

/// The bytes as a string: what is UTF-8 as it is, every other byte as `\xff`.
pub fn string_of(alloc: Global, bytes: &[u8]) -> Result<String, NoMemory> {
    let mut text = String::new(alloc);
    for chunk in bytes.utf8_chunks() {
        text.push_str(chunk.valid())?;
        put_escaped(alloc, &mut text, chunk.invalid())?;
    }
    Ok(text)
}
