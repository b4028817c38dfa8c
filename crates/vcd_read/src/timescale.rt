// The unit of a dump's times (18.2.3.5).

ghost use Rattle.std.specs.Prelude.{◌≡◌, ◌∷◌, [], ◌<◌, List, IfOk};
ghost use Rattle.vcd_read.specs.Words.{Text};
ghost use Rattle.vcd_read.specs.Bytes.{IsReady, Takes};
ghost use Rattle.vcd_read.specs.Declarations.{HaveNoEnd};
ghost use Rattle.vcd_read.specs.Timescale.{count_of, span_in, span_of, span_of_parts, unit_of};

use crate::fault::VcdFault;
use crate::words::WordReader;
use basis::{Count, OrMemory, Span, Unit, digits_len};
use std::alloc::Global;
use std::io::Read;

fn count_of(number: &[u8]) -> Option<Count>
    ensures { result ≡ count_of number.now }
{
    if number == b"1".as_slice() {
        Some(Count::One)
    } else if number == b"10".as_slice() {
        Some(Count::Ten)
    } else if number == b"100".as_slice() {
        Some(Count::Hundred)
    } else {
        None
    }
}

fn unit_of(word: &[u8]) -> Option<Unit>
    ensures { result ≡ unit_of word.now }
{
    if word == b"s".as_slice() {
        Some(Unit::Second)
    } else if word == b"ms".as_slice() {
        Some(Unit::Millisecond)
    } else if word == b"us".as_slice() {
        Some(Unit::Microsecond)
    } else if word == b"ns".as_slice() {
        Some(Unit::Nanosecond)
    } else if word == b"ps".as_slice() {
        Some(Unit::Picosecond)
    } else if word == b"fs".as_slice() {
        Some(Unit::Femtosecond)
    } else {
        None
    }
}

// The length of time of a number and a unit.
fn span_of_parts(number: &[u8], unit: &[u8]) -> Option<Span>
    ensures { result ≡ span_of_parts (count_of number.now) (unit_of unit.now) }
{
    let count = count_of(number)?;
    let unit = unit_of(unit)?;
    Some(Span { count, unit })
}

// That of one word.
fn span_of(word: &[u8]) -> Option<Span>
    ensures { result ≡ span_of word.now }
{
    let digits = digits_len(word);
    span_of_parts(word.split_at(digits).0, word.split_at(digits).1)
}

// Whether letters stand behind the digits of the word.
fn has_unit(word: &[u8]) -> bool {
    digits_len(word) < word.len()
}

/// The words of a length of time, which must be one.
pub(crate) fn read_span<R: Read + Drop>(
    alloc: Global,
    words: &mut WordReader<R>,
) -> Result<Option<Span>, OrMemory<VcdFault>>
    requires { IsReady words.old.bytes }
    ensures ready { IsReady words.new.bytes }
    ensures span { IfOk result (λ span. Takes R.remaining words.old words.new (λ list. HaveNoEnd list × (span_in list ≡ span))) }
    ensures budget { IfOk result (λ _. words.new.bytes.budget < words.old.bytes.budget) }
{
    let first = words.take_inner(alloc)?;
    if has_unit(&first) {
        return Ok(span_of(&first));
    }
    let second = words.take_inner(alloc)?;
    Ok(span_of_parts(&first, &second))
}
