// Tests of the bytes of words: names, names joined by dots, values; and which of two stands first.

ghost use Rattle.std.specs.Prelude.{◌≡◌, ◌↔◌, IsTrue};
ghost use Rattle.std.specs.List.{list_all};
ghost use Rattle.report_text.specs.WellFormed as well_formed;
ghost use Rattle.vwords.specs.Names as names;

use std::cmp::Ordering;
use vwords::words::are_printable;

/// Whether the word may be a name by its letters; a reserved word counts as well.
pub fn is_name(word: &[u8]) -> bool
    ensures { result ≡ names.has_letters_of_name word.now }
{
    are_printable(word)
}

/// Whether the word may be names joined by dots.
pub fn is_path(word: &[u8]) -> bool
    ensures { result ≡ names.is_path word.now }
{
    are_printable(word)
}

// 0, 1, x or z
fn is_digit(byte: u8) -> bool
    ensures { result ≡ well_formed.is_digit byte }
{
    byte == b'0' || byte == b'1' || byte == b'x' || byte == b'z'
}

// Whether each byte is a digit of a value.
fn are_digits(bytes: &[u8]) -> bool
    ensures { result ≡ list_all well_formed.is_digit bytes.now }
{
    for byte in bytes {
        if !is_digit(*byte) {
            return false;
        }
    }
    true
}

/// Whether the word is a value of this width.
pub fn is_value(width: u32, word: &[u8]) -> bool
    ensures { IsTrue result ↔ well_formed.IsValue width word.now }
{
    word.len() == width as usize && are_digits(word)
}

/// Whether one text stands before another in the order of their bytes.
pub fn is_less(a: &[u8], b: &[u8]) -> bool
    ensures { IsTrue result ↔ well_formed.IsTextLess a.now b.now }
{
    a.cmp(b) == Ordering::Less
}

/// Whether these are the same bytes.
pub fn is_same(a: &[u8], b: &[u8]) -> bool
    ensures { IsTrue result ↔ (a.now ≡ b.now) }
{
    a == b
}
