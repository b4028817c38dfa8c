// One time as a word has it.

use basis::{Count, NoMemory, Span, Unit, digits_len};

/// The latest time that there is, in units of the precision.
pub const LAST_TIME: u64 = 4_611_686_018_427_387_903;

/// How a time is written.
pub const TIME_FORM: &str =
    "a time is a number of units of the precision, or digits and a unit, s, ms, us, ns, ps or fs, as 10us or 1.5ns";

/// Why a time isn't taken.
#[derive(Clone, Copy)]
pub enum TimeFault {
    /// A growth was refused.
    Memory(NoMemory),
    /// The word is no time.
    NoTime,
    /// It is later than all times.
    TooLate,
}

/// A time as it is written: in units of the precision, or in femtoseconds, where the greatest number stands for each that is later.
#[derive(Clone, Copy)]
pub(crate) enum Time {
    Units(u64),
    Femtoseconds(u128),
}

// The unit of this name.
fn unit_of(name: &[u8]) -> Option<Unit> {
    if name == b"s".as_slice() {
        Some(Unit::Second)
    } else if name == b"ms".as_slice() {
        Some(Unit::Millisecond)
    } else if name == b"us".as_slice() {
        Some(Unit::Microsecond)
    } else if name == b"ns".as_slice() {
        Some(Unit::Nanosecond)
    } else if name == b"ps".as_slice() {
        Some(Unit::Picosecond)
    } else if name == b"fs".as_slice() {
        Some(Unit::Femtosecond)
    } else {
        None
    }
}

// The number of a digit.
fn value_of(digit: u8) -> u128 {
    u128::from(digit.saturating_sub(b'0'))
}

// The number that digits write, or the greatest.
fn number_of(digits: &[u8]) -> u128 {
    let mut number = 0u128;
    for digit in digits {
        number = number.saturating_mul(10).saturating_add(value_of(*digit));
    }
    number
}

/// The length of a span in femtoseconds.
pub(crate) fn femtoseconds(span: Span) -> u128 {
    u128::from(span.femtoseconds())
}

// The part of a unit that digits behind a point write, if that is whole femtoseconds: of `1.5ns` 500,000.
fn part_of(digits: &[u8], unit: u128) -> Option<u128> {
    let (mut part, mut scale) = (0u128, unit);
    for digit in digits {
        if scale % 10 == 0 {
            scale = scale / 10;
            part = part.saturating_add(value_of(*digit).saturating_mul(scale));
        } else if *digit != b'0' {
            return None;
        }
    }
    Some(part)
}

// The digits behind a point, if one stands there, and what follows them. A point has digits.
fn part_in(rest: &[u8]) -> Option<(&[u8], &[u8])> {
    match rest.split_first() {
        Some((b'.', behind)) => {
            let count = digits_len(behind);
            if count == 0 {
                None
            } else {
                Some(behind.split_at(count))
            }
        }
        _ => Some(rest.split_at(0)),
    }
}

// Digits and a unit, as `10us` or `1.5ns`.
fn with_unit(word: &[u8]) -> Option<u128> {
    let (digits, rest) = word.split_at(digits_len(word));
    if digits.is_empty() {
        return None;
    }
    let (part, name) = part_in(rest)?;
    let (count, unit) = (Count::One, unit_of(name)?);
    let scale = femtoseconds(Span { count, unit });
    let part = part_of(part, scale)?;
    Some(number_of(digits).saturating_mul(scale).saturating_add(part))
}

// Digits alone, behind a `+` or none.
fn without_unit(word: &[u8]) -> Option<u128> {
    let digits = match word.split_first() {
        Some((b'+', digits)) => digits,
        _ => word,
    };
    if digits.is_empty() || digits_len(digits) < digits.len() {
        None
    } else {
        Some(number_of(digits))
    }
}

/// So many units, if there is such a time.
pub(crate) fn within(units: u128) -> Result<u64, TimeFault> {
    match u64::try_from(units) {
        Ok(units) if units <= LAST_TIME => Ok(units),
        _ => Err(TimeFault::TooLate),
    }
}

/// The time that the word is: a number, which is too late where it is past the last time, or digits and a unit.
pub(crate) fn time_of(word: &str) -> Result<Time, TimeFault> {
    if let Some(units) = without_unit(word.as_bytes()) {
        return Ok(Time::Units(within(units)?));
    }
    match with_unit(word.as_bytes()) {
        Some(time) => Ok(Time::Femtoseconds(time)),
        None => Err(TimeFault::NoTime),
    }
}

/// Whether the word is a time, as far as that is known without the precision of the files.
pub fn check_time(word: &str) -> Result<(), TimeFault> {
    time_of(word)?;
    Ok(())
}
