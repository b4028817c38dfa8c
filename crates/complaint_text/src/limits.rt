// What is said of numbers and times that are out of their limits.

use crate::options::value_of;
use basis::{NoMemory, digits_len};
use shown_text::shown_name;
use std::alloc::Global;
use written_times::{LAST_TIME, TIME_FORM, TimeFault, check_time};

// An option whose value is a number, and its limits.
struct Limit {
    option: &'static str,
    least: u64,
    most: u64,
}

const LIMITS: [Limit; 7] = [
    Limit {
        option: "--depart",
        least: 0,
        most: 4,
    },
    Limit {
        option: "--slot-depart",
        least: 0,
        most: 4,
    },
    Limit {
        option: "--steps",
        least: 1,
        most: 1_000_000,
    },
    Limit {
        option: "--entries",
        least: 1,
        most: 1_000_000,
    },
    Limit {
        option: "--workers",
        least: 1,
        most: 64,
    },
    Limit {
        option: "--seconds",
        least: 0,
        most: 1_000_000,
    },
    Limit {
        option: "--memory",
        least: 0,
        most: 1_000_000,
    },
];

// Whether the value is a number of more than 64 bits.
fn is_great(value: &str) -> bool {
    let digits = value.strip_prefix("+").unwrap_or(value).as_bytes();
    digits_len(digits) == digits.len() && !digits.is_empty() && value.parse::<u64>().is_err()
}

// Whether the value is a number out of these limits.
fn is_out(value: &str, limit: &Limit) -> bool {
    match value.parse::<u64>() {
        Ok(number) => number < limit.least || number > limit.most,
        Err(_) => is_great(value),
    }
}

/// Whether a number in these words has more than 64 bits, so that it is out of each limit.
pub fn has_great_number(words: &[String]) -> bool {
    for limit in &LIMITS {
        if let Some(value) = value_of(words, limit.option) {
            if is_great(value) {
                return true;
            }
        }
    }
    false
}

// Says what is wrong with a number, if it is out of its limits.
fn put_limit(text: &mut String, words: &[String], limit: &Limit) -> Result<(), NoMemory> {
    let Some(value) = value_of(words, limit.option) else {
        return Ok(());
    };
    if !is_out(value, limit) {
        return Ok(());
    }
    let alloc = *text.allocator();
    let (option, least, most) = (limit.option, limit.least, limit.most);
    let value = shown_name(alloc, value)?;
    let line = format!(in alloc; "{option} {value}: out of its limits, {least} to {most}\n")?;
    text.push_str(line.as_str())?;
    Ok(())
}

// Says of a value that it is no time.
fn put_no_time(text: &mut String, option: &str, value: &str) -> Result<(), NoMemory> {
    let value = shown_name(*text.allocator(), value)?;
    let line = format!(in *text.allocator(); "{option} {value}: {TIME_FORM}\n")?;
    text.push_str(line.as_str())?;
    Ok(())
}

// Says of a time that it is too late.
fn put_late(text: &mut String, option: &str, value: &str) -> Result<(), NoMemory> {
    let (alloc, last) = (*text.allocator(), LAST_TIME);
    let value = shown_name(alloc, value)?;
    let line = format!(in alloc;
        "{option} {value}: later than the last time, {last} units of the precision\n"
    )?;
    text.push_str(line.as_str())?;
    Ok(())
}

// Says what is wrong with a time, if the option is there and its value is wrong in itself, or each is too late in the precision.
fn put_time(text: &mut String, words: &[String], option: &str, each: bool) -> Result<(), NoMemory> {
    let Some(value) = value_of(words, option) else {
        return Ok(());
    };
    match check_time(value) {
        Err(TimeFault::NoTime) => put_no_time(text, option, value),
        Err(_) => put_late(text, option, value),
        Ok(()) if each => put_late(text, option, value),
        Ok(()) => Ok(()),
    }
}

// The same of each option whose value is a time.
fn put_each_time(text: &mut String, words: &[String], each: bool) -> Result<(), NoMemory> {
    for option in &["--until", "--ignore-before", "--from", "--to"] {
        put_time(text, words, *option, each)?;
    }
    Ok(())
}

// Says which numbers are out of their limits, and which times are wrong in themselves.
fn put_wrong(text: &mut String, words: &[String]) -> Result<(), NoMemory> {
    for limit in &LIMITS {
        put_limit(text, words, limit)?;
    }
    put_each_time(text, words, false)
}

/// What is said of a number that is out of its limit: each such option with its value, and what is allowed. Where there is none it is what
/// the head of a report asks for, or a time that is too late in the precision of the files.
pub fn limits_text(alloc: Global, words: &[String]) -> Result<String, NoMemory> {
    let mut text = String::new(alloc);
    put_wrong(&mut text, words)?;
    if !text.is_empty() {
        return Ok(text);
    }
    if value_of(words, "--report").is_some() {
        text.push_str(
            "the report asks for more time or more steps than --until and --steps allow\n",
        )?;
        return Ok(text);
    }
    put_each_time(&mut text, words, true)?;
    Ok(text)
}
