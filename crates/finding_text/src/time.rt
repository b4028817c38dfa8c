// Times as people write them, with their units (IEEE 1364-2005, 19.8).

use basis::{Count, NoMemory, Span, Unit};
use race_words::pieces::put_number;
use vdesign::design::Design;

// So many times a span.
#[derive(Clone, Copy)]
struct Length {
    number: u64,
    span: Span,
}

// The next greater unit, a thousand times as long.
fn next_unit(unit: Unit) -> Option<Unit> {
    match unit {
        Unit::Femtosecond => Some(Unit::Picosecond),
        Unit::Picosecond => Some(Unit::Nanosecond),
        Unit::Nanosecond => Some(Unit::Microsecond),
        Unit::Microsecond => Some(Unit::Millisecond),
        Unit::Millisecond => Some(Unit::Second),
        Unit::Second => None,
    }
}

// How many times a count makes a thousand.
fn times_to_thousand(count: Count) -> u64 {
    match count {
        Count::One => 1_000,
        Count::Ten => 100,
        Count::Hundred => 10,
    }
}

// The same length in the next greater unit, if it is a whole number of these.
fn in_next_unit(length: Length) -> Option<Length> {
    let unit = next_unit(length.span.unit)?;
    let times = times_to_thousand(length.span.count);
    if length.number.checked_rem(times)? != 0 {
        return None;
    }
    Some(Length {
        number: length.number.checked_div(times)?,
        span: Span {
            count: Count::One,
            unit,
        },
    })
}

// The same length in the greatest unit of which it is a whole number.
fn in_greatest_unit(length: Length) -> Length {
    let mut greatest = length;
    for _ in 0..5 {
        match in_next_unit(greatest) {
            None => return greatest,
            Some(next) => greatest = next,
        }
    }
    greatest
}

// The noughts of a count.
fn noughts(count: Count) -> &'static [u8] {
    match count {
        Count::One => b"",
        Count::Ten => b"0",
        Count::Hundred => b"00",
    }
}

// `5ns`
fn put_length(text: &mut Vec<u8>, length: Length) -> Result<(), NoMemory> {
    put_number(text, length.number)?;
    if length.number > 0 {
        text.extend_from_slice(noughts(length.span.count))?;
    }
    text.extend_from_slice(length.span.unit.name().as_bytes())?;
    Ok(())
}

// Whether a span is 1 ns, as the precision is where nothing is said of it.
fn is_usual(span: Span) -> bool {
    span.count == Count::One && span.unit == Unit::Nanosecond
}

/// A time of the design's runs in the greatest unit of which it is a whole number, as `5ns`; the number alone where a unit of the precision
/// is 1 ns, and of time 0.
pub fn put_time(text: &mut Vec<u8>, design: &Design, time: u64) -> Result<(), NoMemory> {
    let precision = design.scale.precision;
    if time == 0 || is_usual(precision) {
        return put_number(text, time);
    }
    put_length(
        text,
        in_greatest_unit(Length {
            number: time,
            span: precision,
        }),
    )
}

/// The precision, as `100ps`.
pub fn put_precision(text: &mut Vec<u8>, design: &Design) -> Result<(), NoMemory> {
    put_length(
        text,
        Length {
            number: 1,
            span: design.scale.precision,
        },
    )
}
