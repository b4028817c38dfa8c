// Sets of bytes, and how far a run of them goes.

ghost use Rattle.std.specs.Prelude.{◌≡◌, ◌≤◌, true, length, slice_index};
ghost use Rattle.std.specs.List.{prefix_len};
ghost use Rattle.std.specs.Char.{is_ascii_digit};
ghost use Rattle.vlex.specs.Bytes.{is_blank, is_punctuation, is_in, lead_of};

use crate::digits::is_unknown;

/// The bytes that a piece goes on with.
#[derive(Clone, Copy)]
pub enum Set {
    Blanks,
    /// All others.
    Marks,
    Words,
    /// Those of an escaped name.
    Escapes,
    Decimals,
    Binaries,
    Octals,
    Hexadecimals,
    Underscores,
    LineBytes,
}

/// What a byte begins.
#[derive(Clone, Copy)]
pub enum Lead {
    Blank,
    Letter,
    Backslash,
    Dollar,
    Digit,
    Apostrophe,
    Quote,
    Slash,
    Punctuation,
    Other,
}

fn is_punctuation(byte: u8) -> bool
    ensures { result ≡ is_punctuation byte }
{
    b"+-*%&|^~!?:=<>@#()[]{},;.".contains(&byte)
}

fn is_blank(byte: u8) -> bool
    ensures { result ≡ is_blank byte }
{
    byte == b' ' || byte == b'\t' || byte == b'\n' || byte == b'\r' || byte == 12
}

/// Whether the byte is in the set.
pub fn is_in(set: Set, byte: u8) -> bool
    ensures { result ≡ is_in set byte }
{
    match set {
        Set::Blanks => is_blank(byte),
        Set::Marks => !is_blank(byte),
        Set::Words => byte.is_ascii_alphabetic()
            || byte.is_ascii_digit()
            || byte == b'_'
            || byte == b'$',
        Set::Escapes => b'!' <= byte && byte <= b'~' && byte != b'.',
        Set::Decimals => byte.is_ascii_digit() || byte == b'_',
        Set::Binaries => byte == b'0' || byte == b'1' || is_unknown(byte) || byte == b'_',
        Set::Octals => (b'0' <= byte && byte <= b'7') || is_unknown(byte) || byte == b'_',
        Set::Hexadecimals => byte.is_ascii_hexdigit() || is_unknown(byte) || byte == b'_',
        Set::Underscores => byte == b'_',
        Set::LineBytes => byte != b'\n',
    }
}

/// What the byte begins.
pub fn lead_of(byte: u8) -> Lead
    ensures value { result ≡ lead_of byte }
    ensures digit { result ≡ Lead.Digit → is_ascii_digit byte ≡ true }
    ensures quote { result ≡ Lead.Quote → byte ≡ 34 }
    ensures slash { result ≡ Lead.Slash → byte ≡ 47 }
{
    if is_in(Set::Blanks, byte) {
        Lead::Blank
    } else if byte.is_ascii_alphabetic() || byte == b'_' {
        Lead::Letter
    } else if byte == b'\\' {
        Lead::Backslash
    } else if byte == b'$' {
        Lead::Dollar
    } else if byte.is_ascii_digit() {
        Lead::Digit
    } else if byte == b'\'' {
        Lead::Apostrophe
    } else if byte == b'"' {
        Lead::Quote
    } else if byte == b'/' {
        Lead::Slash
    } else if is_punctuation(byte) {
        Lead::Punctuation
    } else {
        Lead::Other
    }
}

/// The byte at the index, and 0 after the last one.
pub fn byte_at(bytes: &[u8], index: usize) -> u8
    ensures { result ≡ slice_index bytes.now index }
{
    if index < bytes.len() { bytes[index] } else { 0 }
}

/// How many bytes at the head are in the set.
pub fn run_len(set: Set, bytes: &[u8]) -> usize
    ensures value { result ≡ prefix_len (is_in set) bytes.now }
    ensures within { result ≤ length bytes.now }
{
    for (at, byte) in bytes.iter().enumerate() {
        if !is_in(set, *byte) {
            return at;
        }
    }
    bytes.len()
}
