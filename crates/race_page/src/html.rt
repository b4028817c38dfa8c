// Pieces of HTML.

use basis::NoMemory;
use itoa::Buffer;
use shown_text::{shown_text, whole_letters};

/// A piece of a page.
#[derive(Clone, Copy)]
pub(crate) enum Piece<'a> {
    /// Marks, and text that has none, as they are.
    Mark(&'a str),
    /// Bytes as text, in which nothing is a mark.
    Text(&'a [u8]),
    /// The same of the first so many bytes, and `..` where there are more.
    Cut(&'a [u8], usize),
    /// A number in decimal.
    Number(u64),
}

/// The text as it is.
pub(crate) fn put(page: &mut Vec<u8>, text: &str) -> Result<(), NoMemory> {
    page.extend_from_slice(text.as_bytes())?;
    Ok(())
}

// The number in decimal.
fn put_number(page: &mut Vec<u8>, n: u64) -> Result<(), NoMemory> {
    let mut digits = Buffer::new();
    put(page, digits.format(n))
}

// The entity of a letter that HTML gives a meaning.
fn entity(byte: u8) -> Option<&'static str> {
    match byte {
        b'<' => Some("&lt;"),
        b'>' => Some("&gt;"),
        b'&' => Some("&amp;"),
        b'"' => Some("&quot;"),
        _ => None,
    }
}

// A byte of what may be shown.
fn put_byte(page: &mut Vec<u8>, byte: u8) -> Result<(), NoMemory> {
    if let Some(text) = entity(byte) {
        return put(page, text);
    }
    page.push(byte)?;
    Ok(())
}

// The bytes as text: what HTML would take for marks is written so that it doesn't, and letters that aren't shown stand by their numbers.
fn put_escaped(page: &mut Vec<u8>, bytes: &[u8]) -> Result<(), NoMemory> {
    let alloc = *page.allocator();
    for byte in shown_text(alloc, bytes)? {
        put_byte(page, byte)?;
    }
    Ok(())
}

/// The bytes as text, of which the first so many are shown, and then `..`.
pub(crate) fn put_cut(page: &mut Vec<u8>, bytes: &[u8], most: usize) -> Result<(), NoMemory> {
    if bytes.len() <= most {
        return put_escaped(page, bytes);
    }
    match bytes.get(..whole_letters(bytes, most)) {
        None => {}
        Some(front) => put_escaped(page, front)?,
    }
    put(page, "..")
}

// The piece.
fn put_piece(page: &mut Vec<u8>, piece: Piece<'_>) -> Result<(), NoMemory> {
    match piece {
        Piece::Mark(mark) => put(page, mark),
        Piece::Text(bytes) => put_escaped(page, bytes),
        Piece::Cut(bytes, most) => put_cut(page, bytes, most),
        Piece::Number(n) => put_number(page, n),
    }
}

/// These pieces, one after another.
pub(crate) fn put_all(page: &mut Vec<u8>, pieces: &[Piece<'_>]) -> Result<(), NoMemory> {
    for piece in pieces {
        put_piece(page, *piece)?;
    }
    Ok(())
}
