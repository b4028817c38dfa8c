// Timescales (IEEE 1364-2005, 19.8).

ghost use Rattle.std.specs.Prelude.{◌≡◌, ◌≤◌, length, IfSome};
ghost use Rattle.vsrc.specs.Timescales.{count_of, unit_of, span_behind, slash_behind, timescale_behind};
ghost use Rattle.vsrc.specs.Timescales as spec;
ghost use Rattle.vsrc.specs.Inner.{spanned_of, timed_of};

use crate::words::{blanks_len, word_len};
use basis::{Count, Span, Timescale, Unit, digits_len};

fn count_of(digits: &[u8]) -> Option<Count>
    ensures { result ≡ count_of digits.now }
{
    if digits == b"1".as_slice() {
        Some(Count::One)
    } else if digits == b"10".as_slice() {
        Some(Count::Ten)
    } else if digits == b"100".as_slice() {
        Some(Count::Hundred)
    } else {
        None
    }
}

fn unit_of(word: &[u8]) -> Option<Unit>
    ensures { result ≡ unit_of word.now }
{
    if word == b"s".as_slice() {
        Some(Unit::Second)
    } else if word == b"ms".as_slice() {
        Some(Unit::Millisecond)
    } else if word == b"us".as_slice() {
        Some(Unit::Microsecond)
    } else if word == b"ns".as_slice() {
        Some(Unit::Nanosecond)
    } else if word == b"ps".as_slice() {
        Some(Unit::Picosecond)
    } else if word == b"fs".as_slice() {
        Some(Unit::Femtosecond)
    } else {
        None
    }
}

// The length of time behind blanks, and how many bytes both take.
fn span_behind(text: &[u8]) -> Option<(Span, usize)>
    ensures value { spanned_of result ≡ span_behind text.now }
    ensures within { IfSome result (λ found. found.1 ≤ length text.now) }
{
    let before = blanks_len(text);
    let number = text.split_at(before).1;
    let digits = digits_len(number);
    let behind = number.split_at(digits).1;
    let blanks = blanks_len(behind);
    let word = behind.split_at(blanks).1;
    let len = word_len(word);
    let count = count_of(number.split_at(digits).0)?;
    let unit = unit_of(word.split_at(len).0)?;
    Some((Span { count, unit }, before + digits + blanks + len))
}

// How many bytes a slash takes with the blanks before it, if one stands there.
fn slash_behind(text: &[u8]) -> Option<usize>
    ensures value { result ≡ slash_behind text.now }
    ensures within { IfSome result (λ len. len ≤ length text.now) }
{
    let blanks = blanks_len(text);
    let rest = text.split_at(blanks).1;
    if rest.is_empty() || rest[0] != b'/' {
        return None;
    }
    Some(blanks + 1)
}

// The timescale of these lengths, unless the precision is longer than the unit; and how many bytes it takes.
fn timescale_with(len: usize, unit: Span, precision: Span) -> Option<(Timescale, usize)>
    ensures value { timed_of result ≡ spec.timescale_with len unit precision }
    ensures len { IfSome result (λ found. found.1 ≡ len) }
{
    if unit.femtoseconds() < precision.femtoseconds() {
        return None;
    }
    Some((Timescale { unit, precision }, len))
}

/// The timescale on the rest of the line, and how many bytes it takes.
pub fn timescale_behind(text: &[u8]) -> Option<(Timescale, usize)>
    ensures value { timed_of result ≡ timescale_behind text.now }
    ensures within { IfSome result (λ found. found.1 ≤ length text.now) }
{
    let (unit, first) = span_behind(text)?;
    let slash = slash_behind(text.split_at(first).1)?;
    let (precision, second) = span_behind(text.split_at(first + slash).1)?;
    timescale_with(first + slash + second, unit, precision)
}
