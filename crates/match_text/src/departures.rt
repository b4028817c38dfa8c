// The departures of a run: when each is, and which two statements it takes the other way.

use crate::told::{Departure, Found};
use basis::NoMemory;
use finding_text::{put_other_order, put_statements, put_time};
use race_findings::RacingStatement;
use race_words::{Piece, put, put_all};
use std::alloc::Global;

// Whether both are told as the same statement: the step of one action, with the same statement behind it.
fn is_told_alike(one: &RacingStatement, other: &RacingStatement) -> bool {
    one.action == other.action
        && one.statement == other.statement
        && one.is_update == other.is_update
}

// Whether both take the same two statements the same way, or of both it isn't known which.
fn is_alike(one: &Departure, other: &Departure) -> bool {
    match (&one.statements, &other.statements) {
        (Some(one), Some(other)) => {
            is_told_alike(&one.first, &other.first) && is_told_alike(&one.second, &other.second)
        }
        (None, None) => true,
        _ => false,
    }
}

// Whether one of these is like it.
fn is_among(told: &[&Departure], departure: &Departure) -> bool {
    for other in told {
        if is_alike(other, departure) {
            return true;
        }
    }
    false
}

// How many of these are like it, and the last of them.
fn count_alike<'d>(later: &'d [Departure], departure: &'d Departure) -> (u64, &'d Departure) {
    let mut count = 0u64;
    let mut last = departure;
    for other in later {
        if is_alike(other, departure) {
            count = count.saturating_add(1);
            last = other;
        }
    }
    (count, last)
}

// `: line 12 first`, and the two statements; the step, where they aren't known.
fn put_both(
    alloc: Global,
    text: &mut Vec<u8>,
    found: &Found<'_>,
    departure: &Departure,
) -> Result<(), NoMemory> {
    let Some(statements) = &departure.statements else {
        let step = Piece::Number(u64::from(departure.step));
        return put_all(
            text,
            &[Piece::Bytes(b", at step "), step, Piece::Bytes(b"\n")],
        );
    };
    put(text, b": ")?;
    put_other_order(text, found.setting.design, found.sources, statements)?;
    put(text, b"\n")?;
    put_statements(alloc, text, found.setting.design, found.sources, statements)
}

// `    and so 27 times more, the last at 115ns`
fn put_again(
    text: &mut Vec<u8>,
    found: &Found<'_>,
    count: u64,
    last: &Departure,
) -> Result<(), NoMemory> {
    if count == 0 {
        return Ok(());
    }
    let times = Piece::Count(count, b"time");
    put_all(
        text,
        &[
            Piece::Bytes(b"    and so "),
            times,
            Piece::Bytes(b" more, the last at "),
        ],
    )?;
    put_time(text, found.setting.design, last.time)?;
    put(text, b"\n")
}

// `departure 1 at 5: line 12 first`, the two statements, and how often they are taken so later on.
fn put_departure(
    alloc: Global,
    text: &mut Vec<u8>,
    found: &Found<'_>,
    place: usize,
    departure: &Departure,
) -> Result<(), NoMemory> {
    let number = place.saturating_add(1);
    let later = found.departures.get(number..).unwrap_or(&[]);
    let (count, last) = count_alike(later, departure);
    put_all(
        text,
        &[
            Piece::Bytes(b"departure "),
            Piece::Number(number as u64),
            Piece::Bytes(b" at "),
        ],
    )?;
    put_time(text, found.setting.design, departure.time)?;
    put_both(alloc, text, found, departure)?;
    put_again(text, found, count, last)
}

/// The departures of the run, in order; those that take the same two statements the same way once, with how often they do.
pub fn put_departures(
    alloc: Global,
    text: &mut Vec<u8>,
    found: &Found<'_>,
) -> Result<(), NoMemory> {
    let mut told = Vec::new(alloc);
    for (place, departure) in found.departures.iter().enumerate() {
        if !is_among(&told, departure) {
            put_departure(alloc, text, found, place, departure)?;
            told.push(departure)?;
        }
    }
    Ok(())
}
