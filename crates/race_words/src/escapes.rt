// Words of a file of waivers: a backslash before `*`, `#`, a blank or a backslash stands for that letter itself.

use basis::NoMemory;
use std::alloc::Global;

// Whether the byte means something else in a word, unless a backslash stands before it.
fn is_special(byte: u8) -> bool {
    byte == b'*' || byte == b'#' || byte == b'\\' || byte.is_ascii_whitespace()
}

// Where the first blank stands that no backslash stands before; the length where there is none.
fn word_len(text: &[u8]) -> usize {
    let mut is_escaped = false;
    for (place, byte) in text.iter().enumerate() {
        if !is_escaped && byte.is_ascii_whitespace() {
            return place;
        }
        is_escaped = !is_escaped && *byte == b'\\';
    }
    text.len()
}

/// What stands before the place, and from it on.
pub(crate) fn split_at_place(text: &[u8], place: usize) -> (&[u8], &[u8]) {
    match (text.get(..place), text.get(place..)) {
        (Some(front), Some(rest)) => (front, rest),
        _ => (text, &[]),
    }
}

/// The first word, and what follows it.
pub(crate) fn word_of(text: &[u8]) -> (&[u8], &[u8]) {
    let text = text.trim_ascii_start();
    split_at_place(text, word_len(text))
}

// The byte, behind a backslash that it may need.
fn put_byte(name: &mut Vec<u8>, byte: u8, is_escaped: bool) -> Result<(), NoMemory> {
    if is_escaped && !is_special(byte) {
        name.push(b'\\')?;
    }
    name.push(byte)?;
    Ok(())
}

// A star behind the text: the text stands with the others, unless it is empty and stands between two stars.
fn put_star(alloc: Global, texts: &mut Vec<Vec<u8>>, text: Vec<u8>) -> Result<Vec<u8>, NoMemory> {
    if texts.is_empty() || !text.is_empty() {
        texts.push(text)?;
    }
    Ok(Vec::new(alloc))
}

// The texts of a word between its stars; one text where stars are letters.
fn texts_of(alloc: Global, word: &[u8], has_stars: bool) -> Result<Vec<Vec<u8>>, NoMemory> {
    let (mut texts, mut text, mut is_escaped) = (Vec::new(alloc), Vec::new(alloc), false);
    for byte in word {
        if *byte == b'\\' && !is_escaped {
            is_escaped = true;
            continue;
        }
        if *byte == b'*' && has_stars && !is_escaped {
            text = put_star(alloc, &mut texts, text)?;
        } else {
            put_byte(&mut text, *byte, is_escaped)?;
        }
        is_escaped = false;
    }
    if is_escaped {
        text.push(b'\\')?;
    }
    texts.push(text)?;
    Ok(texts)
}

/// The texts between the stars of a pattern, at least one. Stars side by side are one.
pub fn pieces_of_pattern(alloc: Global, word: &[u8]) -> Result<Vec<Vec<u8>>, NoMemory> {
    texts_of(alloc, word, true)
}

/// The name that the word stands for; a star in it is a letter.
pub fn name_of_word(alloc: Global, word: &[u8]) -> Result<Vec<u8>, NoMemory> {
    let mut name = Vec::new(alloc);
    for text in texts_of(alloc, word, false)? {
        name.extend_from_slice(&text)?;
    }
    Ok(name)
}

/// The word that stands for the name.
pub fn put_name_word(text: &mut Vec<u8>, name: &[u8]) -> Result<(), NoMemory> {
    for byte in name {
        if is_special(*byte) {
            text.push(b'\\')?;
        }
        text.push(*byte)?;
    }
    Ok(())
}

/// Whether a word can stand for the name: it has letters, and no line feed.
pub fn has_word(name: &[u8]) -> bool {
    for byte in name {
        if *byte == b'\n' {
            return false;
        }
    }
    !name.is_empty()
}
