// The pieces of a report's text, for one who writes it piece by piece: the dumps of the ends stand between them.

ghost use Rattle.std.specs.Prelude.{◌≡◌, ◌++◌, ◌∷◌, [], codes, decimal, slice_get, IfOk, OnOk};
ghost use Rattle.report_text.specs.Inner.Lists.{PutsBytes};
ghost use Rattle.report_text.specs.ReportText as spec;
ghost use Rattle.report_text.specs.declared.report.Version.TheVariants.{Three};

use crate::report::{Column, End, LineRace, PrintedLines, Race, RaceValue, Report, Version};
use crate::words::{
    cause_word, departures_word, grain_word, looked_word, outcome_words, version_number,
};
use basis::NoMemory;
use itoa::Buffer;
use sched_core::append_log;
use sched_core::bag::{Bag, PrintedLine};
use sched_core::setting::Looked;
use std::alloc::Global;

// Puts the word last, and a space.
fn put_word(text: &mut Vec<u8>, word: &[u8]) -> Result<(), NoMemory>
    ensures { OnOk result (text.new.items ≡ text.old.items ++ word.now ++ 32 ∷ []) }
{
    text.extend_from_slice(word)?;
    text.push(b' ')?;
    Ok(())
}

// Puts the number last.
fn put_number(text: &mut Vec<u8>, n: u64) -> Result<(), NoMemory>
    ensures { PutsBytes text.old text.new result (decimal n) }
{
    let mut buffer = Buffer::new();
    text.extend_from_slice(buffer.format(n).as_bytes())?;
    Ok(())
}

// Puts a line of a word and a number last.
fn put_number_line(text: &mut Vec<u8>, word: &[u8], n: u64) -> Result<(), NoMemory>
    ensures { PutsBytes text.old text.new result (spec.number_line word.now n) }
{
    put_word(text, word)?;
    put_number(text, n)?;
    text.push(b'\n')?;
    Ok(())
}

// Puts a line of two words last.
fn put_word_line(text: &mut Vec<u8>, word: &[u8], value: &[u8]) -> Result<(), NoMemory>
    ensures { PutsBytes text.old text.new result (spec.line (spec.joined_by_space word.now value.now)) }
{
    put_word(text, word)?;
    text.extend_from_slice(value)?;
    text.push(b'\n')?;
    Ok(())
}

// Puts a line for each column last.
fn put_columns(text: &mut Vec<u8>, columns: &[Column]) -> Result<(), NoMemory>
    ensures { PutsBytes text.old text.new result (spec.column_lines columns.now) }
{
    for column in columns {
        put_number_line(text, &column.name, column.width as u64)?;
    }
    Ok(())
}

// Puts the line of the grain last, where this version has one.
fn put_grain(text: &mut Vec<u8>, report: &Report) -> Result<(), NoMemory>
    ensures { PutsBytes text.old text.new result
        (spec.grain_lines report.now.version report.now.grain) }
{
    match report.version {
        Version::One => Ok(()),
        Version::Two => put_word_line(text, b"grain", grain_word(report.grain)),
        Version::Three => put_word_line(text, b"grain", grain_word(report.grain)),
    }
}

// Puts the lines last that tell which departures there are and what is looked at.
fn put_named_views(text: &mut Vec<u8>, report: &Report) -> Result<(), NoMemory>
    ensures { PutsBytes text.old text.new result
        (spec.view_lines Three report.now.departures report.now.looked) }
{
    put_word_line(text, b"departures", departures_word(report.departures))?;
    put_word_line(text, b"looked", looked_word(report.looked))
}

// Puts these lines last, where this version has them.
fn put_views(text: &mut Vec<u8>, report: &Report) -> Result<(), NoMemory>
    ensures { PutsBytes text.old text.new result
        (spec.view_lines report.now.version report.now.departures report.now.looked) }
{
    match report.version {
        Version::One => Ok(()),
        Version::Two => Ok(()),
        Version::Three => put_named_views(text, report),
    }
}

/// The lines of the head, and the line that counts the ends. The error is want of memory, E901.
pub fn head_lines(alloc: Global, report: &Report) -> Result<Vec<u8>, NoMemory>
    ensures { IfOk result (λ text.
        text.items ≡ spec.head_text report.now ++ spec.ends_line report.now) }
{
    let mut text = Vec::new(alloc);
    put_number_line(&mut text, b"vrace report", version_number(report.version))?;
    put_word_line(&mut text, b"top", &report.top)?;
    put_number_line(&mut text, b"until", report.until)?;
    put_number_line(&mut text, b"depart", report.depart as u64)?;
    put_number_line(&mut text, b"steps", report.steps as u64)?;
    put_grain(&mut text, report)?;
    put_views(&mut text, report)?;
    put_word_line(&mut text, b"state", outcome_words(report.outcome))?;
    put_number_line(&mut text, b"vars", report.variables.len() as u64)?;
    put_columns(&mut text, &report.variables)?;
    put_number_line(&mut text, b"ends", report.ends.len() as u64)?;
    Ok(text)
}

// Puts these lines last, each by the count of its bytes.
fn put_texts(text: &mut Vec<u8>, lines: &[PrintedLine]) -> Result<(), NoMemory>
    ensures { PutsBytes text.old text.new result (spec.counted_texts lines.now) }
{
    for printed in lines {
        put_number_line(text, b"line", printed.as_bytes().len() as u64)?;
        text.extend_from_slice(printed.as_bytes())?;
    }
    Ok(())
}

// Puts the lines of an end last, where they are looked at.
fn put_printed(text: &mut Vec<u8>, printed: &Option<Bag>) -> Result<(), NoMemory>
    ensures { PutsBytes text.old text.new result (spec.printed_lines printed.now) }
{
    match printed {
        None => Ok(()),
        Some(bag) => {
            put_number_line(text, b"lines", bag.as_slice().len() as u64)?;
            put_texts(text, bag.as_slice())
        }
    }
}

/// The two lines of an end, and where lines are looked at those of its last slot: the dump of its run follows them. The error
/// is want of memory, E901.
pub fn end_lines(alloc: Global, end: &End) -> Result<Vec<u8>, NoMemory>
    ensures { IfOk result (λ text. text.items ≡ spec.end_text end.now) }
{
    let mut text = Vec::new(alloc);
    text.extend_from_slice(b"end ")?;
    put_number(&mut text, end.time)?;
    text.push(b' ')?;
    put_word(&mut text, cause_word(end.cause))?;
    append_log(&mut text, &end.log)?;
    text.push(b' ')?;
    put_number(&mut text, end.bytes)?;
    text.push(b'\n')?;
    text.extend_from_slice(&end.line)?;
    text.push(b'\n')?;
    put_printed(&mut text, &end.printed)?;
    Ok(text)
}

/// The line that counts the races. The error is want of memory, E901.
pub fn race_count_line(alloc: Global, report: &Report) -> Result<Vec<u8>, NoMemory>
    ensures { IfOk result (λ text. text.items ≡ spec.races_line report.now) }
{
    let mut text = Vec::new(alloc);
    put_number_line(&mut text, b"races", report.races.len() as u64)?;
    Ok(text)
}

// Puts a line for each value last.
fn put_values(text: &mut Vec<u8>, values: &[RaceValue]) -> Result<(), NoMemory>
    ensures { PutsBytes text.old text.new result (spec.value_lines values.now) }
{
    for race_value in values {
        put_word(text, &race_value.value)?;
        append_log(text, &race_value.log)?;
        text.push(b'\n')?;
    }
    Ok(())
}

// The name of the variable of this number; of none the empty name.
fn name_at(columns: &[Column], variable: usize) -> &[u8]
    ensures { result.now ≡ spec.name_at (slice_get columns.now variable) }
{
    match columns.get(variable) {
        Some(column) => &column.name,
        None => b"",
    }
}

/// The lines of a race of these variables. The error is want of memory, E901.
pub fn race_lines(alloc: Global, columns: &[Column], race: &Race) -> Result<Vec<u8>, NoMemory>
    ensures { IfOk result (λ text. text.items ≡ spec.race_text columns.now race.now) }
{
    let mut text = Vec::new(alloc);
    text.extend_from_slice(b"race ")?;
    put_number(&mut text, race.time)?;
    text.push(b' ')?;
    put_word(&mut text, name_at(columns, race.variable))?;
    put_number(&mut text, race.values.len() as u64)?;
    text.push(b'\n')?;
    put_values(&mut text, &race.values)?;
    Ok(text)
}

/// The line that counts the races of lines; nothing, where values are looked at. The error is want of memory, E901.
pub fn line_race_count_line(alloc: Global, report: &Report) -> Result<Vec<u8>, NoMemory>
    ensures { IfOk result (λ text.
        text.items ≡ spec.line_races_line report.now.looked report.now.line_races) }
{
    let mut text = Vec::new(alloc);
    match report.looked {
        Looked::Values => {}
        Looked::Lines => {
            put_number_line(&mut text, b"line races", report.line_races.len() as u64)?;
        }
    }
    Ok(text)
}

// Puts a side of a race of lines last.
fn put_side(text: &mut Vec<u8>, side: &PrintedLines) -> Result<(), NoMemory>
    ensures { PutsBytes text.old text.new result (spec.side_text side.now) }
{
    text.extend_from_slice(b"lines ")?;
    put_number(text, side.lines.as_slice().len() as u64)?;
    text.push(b' ')?;
    append_log(text, &side.log)?;
    text.push(b'\n')?;
    put_texts(text, side.lines.as_slice())
}

// Puts these sides last.
fn put_sides(text: &mut Vec<u8>, sides: &[PrintedLines]) -> Result<(), NoMemory>
    ensures { PutsBytes text.old text.new result (spec.side_texts sides.now) }
{
    for side in sides {
        put_side(text, side)?;
    }
    Ok(())
}

/// The lines of a race of lines. The error is want of memory, E901.
pub fn line_race_lines(alloc: Global, race: &LineRace) -> Result<Vec<u8>, NoMemory>
    ensures { IfOk result (λ text. text.items ≡ spec.line_race_text race.now) }
{
    let mut text = Vec::new(alloc);
    text.extend_from_slice(b"line race ")?;
    put_number(&mut text, race.time)?;
    text.push(b' ')?;
    put_number(&mut text, race.sides.len() as u64)?;
    text.push(b'\n')?;
    put_sides(&mut text, &race.sides)?;
    Ok(text)
}
