// Words of a command line, as a shell takes them.

use crate::pieces::{Piece, put, put_all};
use basis::NoMemory;
use shown_text::{is_shown, put_shown};
use std::alloc::Global;

// Whether a shell takes the byte as it is.
fn is_plain(byte: u8) -> bool {
    byte.is_ascii_alphanumeric()
        || matches!(
            byte,
            b'-' | b'.' | b'_' | b'/' | b':' | b',' | b'=' | b'+' | b'@' | b'%'
        )
}

// Whether a shell takes the word as it is.
fn is_plain_word(word: &[u8]) -> bool {
    for byte in word {
        if !is_plain(*byte) {
            return false;
        }
    }
    !word.is_empty()
}

// The word in quotes.
fn put_quoted(text: &mut Vec<u8>, word: &[u8]) -> Result<(), NoMemory> {
    put(text, b"'")?;
    for byte in word {
        if *byte == b'\'' {
            put(text, b"'\\''")?;
        } else {
            put(text, &[*byte])?;
        }
    }
    put(text, b"'")
}

// The word with a backslash before each quote and backslash.
fn escaped(alloc: Global, word: &[u8]) -> Result<Vec<u8>, NoMemory> {
    let mut escaped = Vec::new(alloc);
    for byte in word {
        if *byte == b'\'' || *byte == b'\\' {
            escaped.push(b'\\')?;
        }
        escaped.push(*byte)?;
    }
    Ok(escaped)
}

// The word as `$'a\x1bb'`, where letters stand by their numbers (POSIX.1-2024, 2.2.4).
fn put_coded(text: &mut Vec<u8>, alloc: Global, word: &[u8]) -> Result<(), NoMemory> {
    put(text, b"$'")?;
    put_shown(text, &escaped(alloc, word)?, b"")?;
    put(text, b"'")
}

/// The word behind a blank, in quotes where a shell would take it for something else. Letters that a terminal isn't shown stand by their
/// numbers there.
pub fn put_word(text: &mut Vec<u8>, word: &[u8]) -> Result<(), NoMemory> {
    put(text, b" ")?;
    if is_plain_word(word) {
        return put(text, word);
    }
    if is_shown(word) {
        return put_quoted(text, word);
    }
    let alloc = *text.allocator();
    put_coded(text, alloc, word)
}

/// An option whose value is a number.
pub fn put_option(text: &mut Vec<u8>, name: &[u8], n: u64) -> Result<(), NoMemory> {
    put_all(text, &[Piece::Bytes(name), Piece::Number(n)])
}

/// The names of the files. One that would be taken for an option is told by its folder, too.
pub fn put_files(text: &mut Vec<u8>, alloc: Global, names: &[&str]) -> Result<(), NoMemory> {
    for name in names {
        let mut word = Vec::new(alloc);
        let folder: &[u8] = if name.as_bytes().starts_with(b"-") {
            b"./"
        } else {
            b""
        };
        put_all(
            &mut word,
            &[Piece::Bytes(folder), Piece::Bytes(name.as_bytes())],
        )?;
        put_word(text, &word)?;
    }
    Ok(())
}
