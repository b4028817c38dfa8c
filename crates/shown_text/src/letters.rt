// Letters that a terminal would take for a command, as their numbers: `\x1b` a byte, `\u202e` a letter of UTF-8 (RFC 3629) behind ASCII.

use basis::NoMemory;
use std::alloc::Global;

// A letter of UTF-8 that isn't shown: its number, and how many bytes it has.
#[derive(Clone, Copy)]
struct Hidden {
    number: u16,
    len: usize,
}

// The hexadecimal digit of the lowest four bits.
fn digit(number: u16) -> u8 {
    match b"0123456789abcdef".get(usize::from(number & 15)) {
        None => b'0',
        Some(digit) => *digit,
    }
}

/// `\x1b`: the byte by its two hexadecimal digits.
pub fn put_byte_code(text: &mut Vec<u8>, byte: u8) -> Result<(), NoMemory> {
    let number = u16::from(byte);
    text.extend_from_slice(&[b'\\', b'x', digit(number >> 4), digit(number)])?;
    Ok(())
}

// `\u202e`: the letter by four hexadecimal digits.
fn put_letter_code(text: &mut Vec<u8>, number: u16) -> Result<(), NoMemory> {
    text.extend_from_slice(&[
        b'\\',
        b'u',
        digit(number >> 12),
        digit(number >> 8),
        digit(number >> 4),
        digit(number),
    ])?;
    Ok(())
}

// The byte at this place; 0 behind the last.
fn byte_at(bytes: &[u8], at: usize) -> u8 {
    bytes.get(at).copied().unwrap_or(0)
}

// Whether the number is one of these.
fn is_between(number: u16, first: u16, last: u16) -> bool {
    number >= first && number <= last
}

// Whether the letter turns text round.
fn is_turning(number: u16) -> bool {
    is_between(number, 0x200e, 0x200f)
        || is_between(number, 0x202a, 0x202e)
        || is_between(number, 0x2066, 0x2069)
}

// Of the bytes behind 0xe2 the number of the letter, where it turns text round.
fn turning(second: u8, third: u8) -> Option<u16> {
    let number = 0x2000 | (u16::from(second & 63) << 6) | u16::from(third & 63);
    if second >= 0x80 && is_turning(number) {
        Some(number)
    } else {
        None
    }
}

// The letter at this place of UTF-8, where it is a command (U+0080 to U+009F) or turns text round.
fn hidden_at(bytes: &[u8], at: usize) -> Option<Hidden> {
    let second = byte_at(bytes, at.saturating_add(1));
    match byte_at(bytes, at) {
        0xc2 if second < 0xa0 => Some(Hidden {
            number: u16::from(second),
            len: 2,
        }),
        0xd8 if second == 0x9c => Some(Hidden {
            number: 0x61c,
            len: 2,
        }),
        0xe2 => match turning(second, byte_at(bytes, at.saturating_add(2))) {
            None => None,
            Some(number) => Some(Hidden { number, len: 3 }),
        },
        _ => None,
    }
}

// Whether the byte of ASCII is a command, and isn't one of those that stay.
fn is_command(byte: u8, stays: &[u8]) -> bool {
    if byte >= b' ' && byte != 127 {
        return false;
    }
    for other in stays {
        if *other == byte {
            return false;
        }
    }
    true
}

// A byte that is ASCII, or of a letter that is shown.
fn put_byte(text: &mut Vec<u8>, byte: u8, stays: &[u8]) -> Result<(), NoMemory> {
    if is_command(byte, stays) {
        return put_byte_code(text, byte);
    }
    text.push(byte)?;
    Ok(())
}

// Bytes of UTF-8.
fn put_letters(text: &mut Vec<u8>, bytes: &[u8], stays: &[u8]) -> Result<(), NoMemory> {
    let mut passed = 0usize;
    for (at, byte) in bytes.iter().enumerate() {
        if passed > 0 {
            passed = passed.saturating_sub(1);
            continue;
        }
        match hidden_at(bytes, at) {
            None => put_byte(text, *byte, stays)?,
            Some(hidden) => {
                put_letter_code(text, hidden.number)?;
                passed = hidden.len.saturating_sub(1);
            }
        }
    }
    Ok(())
}

// Bytes that are no UTF-8.
fn put_byte_codes(text: &mut Vec<u8>, bytes: &[u8]) -> Result<(), NoMemory> {
    for byte in bytes {
        put_byte_code(text, *byte)?;
    }
    Ok(())
}

/// The bytes as a terminal may be shown them: a byte below 32 or 127, and one that is no UTF-8, as `\x1b`; U+0080 to U+009F, and the marks that
/// turn text round (U+061C, U+200E, U+200F, U+202A to U+202E, U+2066 to U+2069), as `\u202e`. Bytes below 32 that are among `stays` stay.
pub fn put_shown(text: &mut Vec<u8>, bytes: &[u8], stays: &[u8]) -> Result<(), NoMemory> {
    for chunk in bytes.utf8_chunks() {
        put_letters(text, chunk.valid().as_bytes(), stays)?;
        put_byte_codes(text, chunk.invalid())?;
    }
    Ok(())
}

/// A text of lines as a terminal may be shown it: line feeds and tabs stay.
pub fn shown_text(alloc: Global, bytes: &[u8]) -> Result<Vec<u8>, NoMemory> {
    let mut text = Vec::new(alloc);
    put_shown(&mut text, bytes, b"\n\t")?;
    Ok(text)
}

/// A name as a terminal may be shown it, in one line.
pub fn shown_name(alloc: Global, name: &str) -> Result<String, NoMemory> {
    let mut text = Vec::new(alloc);
    put_shown(&mut text, name.as_bytes(), b"")?;
    match str::from_utf8(&text) {
        Err(_) => Ok(String::new(alloc)),
        Ok(text) => Ok(String::from_str(alloc, text)?),
    }
}

// Whether the byte at this place goes on with a letter of UTF-8.
fn goes_on(bytes: &[u8], at: usize) -> bool {
    let byte = byte_at(bytes, at);
    byte >= 128 && byte < 192
}

/// How many of the first so many bytes are whole letters of UTF-8.
pub fn whole_letters(bytes: &[u8], most: usize) -> usize {
    for back in 0..4usize {
        let at = most.saturating_sub(back);
        if !goes_on(bytes, at) {
            return at;
        }
    }
    most
}

// The same of a text that is JSON, where 127 has its number, too.
fn hidden_in_json(bytes: &[u8], at: usize) -> Option<Hidden> {
    if byte_at(bytes, at) == 127 {
        return Some(Hidden {
            number: 127,
            len: 1,
        });
    }
    hidden_at(bytes, at)
}

/// A text of JSON as a terminal may be shown it: each such letter stands in a string there, where `\u202e` is the letter (RFC 8259, 7).
pub fn shown_json(alloc: Global, bytes: &[u8]) -> Result<Vec<u8>, NoMemory> {
    let mut text = Vec::new(alloc);
    let mut passed = 0usize;
    for (at, byte) in bytes.iter().enumerate() {
        if passed > 0 {
            passed = passed.saturating_sub(1);
            continue;
        }
        match hidden_in_json(bytes, at) {
            None => text.push(*byte)?,
            Some(hidden) => {
                put_letter_code(&mut text, hidden.number)?;
                passed = hidden.len.saturating_sub(1);
            }
        }
    }
    Ok(text)
}

// Whether no letter of UTF-8 at some place is hidden.
fn has_none_hidden(bytes: &[u8]) -> bool {
    for (at, byte) in bytes.iter().enumerate() {
        if is_command(*byte, b"") || hidden_at(bytes, at).is_some() {
            return false;
        }
    }
    true
}

/// Whether the bytes are shown as they are.
pub fn is_shown(bytes: &[u8]) -> bool {
    str::from_utf8(bytes).is_ok() && has_none_hidden(bytes)
}
