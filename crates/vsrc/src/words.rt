// What a directive is read by: blanks, names and the words of directives.

ghost use Rattle.std.specs.Prelude.{◌≡◌, ◌≤◌, ◌+◌, ℕ, length, IfSome};
ghost use Rattle.std.specs.List.{prefix_len};
ghost use Rattle.basis.specs.Letters.{is_in_name};
ghost use Rattle.vsrc.specs.Words.{is_blank, blanks_len, name_len, name_behind, directive_of};
ghost use Rattle.vsrc.specs.Ignored.{ignored_of};
ghost use Rattle.vsrc.specs.Inner.{named_of};

use basis::{begins_name, is_in_name};

/// The word of a directive (IEEE 1364-2005, clause 19).
#[derive(Clone, Copy)]
pub enum Word {
    Define,
    Undef,
    Ifdef,
    Ifndef,
    Elsif,
    Else,
    Endif,
    Timescale,
    DefaultNettype,
    /// One that is passed over.
    Ignored(Ignored),
}

/// A directive that is passed over (IEEE 1364-2005, clause 19).
#[derive(Clone, Copy)]
pub enum Ignored {
    Celldefine,
    Endcelldefine,
    Resetall,
    BeginKeywords,
    EndKeywords,
    Line,
    Pragma,
    UnconnectedDrive,
    NounconnectedDrive,
}

/// Whether the byte is a blank inside a line (3.2).
pub fn is_blank(byte: u8) -> bool
    ensures { result ≡ is_blank byte }
{
    byte == b' ' || byte == b'\t' || byte == b'\r' || byte == 12
}

/// How many bytes at the head are blanks.
pub fn blanks_len(text: &[u8]) -> usize
    ensures value { result ≡ blanks_len text.now }
    ensures within { result ≤ length text.now }
{
    for (at, byte) in text.iter().enumerate() {
        if !is_blank(*byte) {
            return at;
        }
    }
    text.len()
}

/// How many bytes at the head may stand in a name.
pub fn word_len(text: &[u8]) -> usize
    ensures value { result ≡ prefix_len is_in_name text.now }
    ensures within { result ≤ length text.now }
{
    for (at, byte) in text.iter().enumerate() {
        if !is_in_name(*byte) {
            return at;
        }
    }
    text.len()
}

/// How many bytes the name at the head has; 0 where none begins there.
pub fn name_len(text: &[u8]) -> usize
    ensures value { result ≡ name_len text.now }
    ensures within { result ≤ length text.now }
{
    if text.is_empty() || !begins_name(text[0]) {
        return 0;
    }
    word_len(text)
}

/// The name after blanks of the same line, if there is one, and how many bytes both take.
pub fn name_behind(text: &[u8]) -> Option<(&[u8], usize)>
    ensures value { named_of result ≡ name_behind text.now }
    ensures within { IfSome result (λ found. found.1 ≤ length text.now) }
{
    let blanks = blanks_len(text);
    let rest = text.split_at(blanks).1;
    let len = name_len(rest);
    if len == 0 {
        return None;
    }
    Some((rest.split_at(len).0, blanks + len))
}

/// The directive that a name is the word of, if any.
pub fn directive_of(name: &[u8]) -> Option<Word>
    ensures { result ≡ directive_of name.now }
{
    if name == b"define".as_slice() {
        Some(Word::Define)
    } else if name == b"undef".as_slice() {
        Some(Word::Undef)
    } else if name == b"ifdef".as_slice() {
        Some(Word::Ifdef)
    } else if name == b"ifndef".as_slice() {
        Some(Word::Ifndef)
    } else if name == b"elsif".as_slice() {
        Some(Word::Elsif)
    } else if name == b"else".as_slice() {
        Some(Word::Else)
    } else if name == b"endif".as_slice() {
        Some(Word::Endif)
    } else if name == b"timescale".as_slice() {
        Some(Word::Timescale)
    } else if name == b"default_nettype".as_slice() {
        Some(Word::DefaultNettype)
    } else {
        None
    }
}

/// The directive that is passed over whose word the name is, if any.
pub fn ignored_of(name: &[u8]) -> Option<Ignored>
    ensures { result ≡ ignored_of name.now }
{
    if name == b"celldefine".as_slice() {
        Some(Ignored::Celldefine)
    } else if name == b"endcelldefine".as_slice() {
        Some(Ignored::Endcelldefine)
    } else if name == b"resetall".as_slice() {
        Some(Ignored::Resetall)
    } else if name == b"begin_keywords".as_slice() {
        Some(Ignored::BeginKeywords)
    } else if name == b"end_keywords".as_slice() {
        Some(Ignored::EndKeywords)
    } else if name == b"line".as_slice() {
        Some(Ignored::Line)
    } else if name == b"pragma".as_slice() {
        Some(Ignored::Pragma)
    } else if name == b"unconnected_drive".as_slice() {
        Some(Ignored::UnconnectedDrive)
    } else if name == b"nounconnected_drive".as_slice() {
        Some(Ignored::NounconnectedDrive)
    } else {
        None
    }
}
