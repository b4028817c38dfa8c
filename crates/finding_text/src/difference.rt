// What runs differ in, and its sides: what is so in each of them, and the order in which it comes about.

use crate::name::name_of;
use crate::place::Sources;
use crate::statements::{put_other_order, put_usual_order};
use crate::time::put_time;
use basis::NoMemory;
use race_findings::{Aspect, Difference, Evidence, Finding, Foremost, Name, RunEnd, Setting, Side};
use race_words::pieces::{Piece, put, put_all};
use race_words::value::put_value;
use sched_core::bag::Bag;
use sched_core::end::{Cause, End};
use sched_core::{Log, LogHead, write_named_log};
use std::alloc::Global;
use vbits::Vec4;
use vdesign::action::Action;
use vdesign::design::Design;

// How many bytes of a printed line are shown.
const LINE: usize = 60;

/// A side of a difference: the order in which it comes about, what is so then, and the log of a run that shows it, with the name of its
/// setting.
#[derive(Drop)]
pub struct Row {
    order: Vec<u8>,
    value: Vec<u8>,
    log: Vec<u8>,
}

/// What is told of: a finding, of which runs it is, and the files that they are of.
#[derive(Clone, Copy)]
pub struct Subject<'a> {
    pub setting: Setting<'a>,
    pub sources: &'a Sources<'a>,
    pub finding: &'a Finding,
}

// The lines that a slot printed, each in quotes.
fn put_lines(text: &mut Vec<u8>, lines: &Bag) -> Result<(), NoMemory> {
    let lines = lines.as_slice();
    if lines.is_empty() {
        return put(text, b"nothing");
    }
    for (place, line) in lines.iter().enumerate() {
        let opening: &[u8] = if place > 0 { b" and \"" } else { b"\"" };
        let cut = Piece::Cut(line.as_bytes().trim_ascii_end(), LINE);
        put_all(text, &[Piece::Bytes(opening), cut, Piece::Bytes(b"\"")])?;
    }
    Ok(())
}

/// Why a run ends, in words.
pub fn cause_words(cause: Cause) -> &'static [u8] {
    match cause {
        Cause::Finish => b"$finish",
        Cause::Stop => b"$stop",
        Cause::Quiet => b"its last event",
        Cause::Limit => b"the time limit",
    }
}

// ` at 5`
fn put_at(text: &mut Vec<u8>, design: &Design, time: u64) -> Result<(), NoMemory> {
    put(text, b" at ")?;
    put_time(text, design, time)
}

/// `$finish at 10`
pub fn put_end(text: &mut Vec<u8>, design: &Design, end: Option<End>) -> Result<(), NoMemory> {
    let Some(end) = end else {
        return Ok(());
    };
    put(text, cause_words(end.cause))?;
    put_at(text, design, end.time)
}

/// Whether the second log is the first without its last member.
pub fn is_parent(log: &Log, parent: &Log) -> bool {
    match log.members().split_last() {
        None => false,
        Some((_, front)) => front == parent.members(),
    }
}

// In which order the side under this log comes about.
fn put_order(text: &mut Vec<u8>, subject: Subject<'_>, log: &Log) -> Result<(), NoMemory> {
    let (sources, finding) = (subject.sources, subject.finding);
    let design = subject.setting.design;
    match &finding.statements {
        None => {
            if log.members().is_empty() {
                return put(text, b"the default order:");
            }
            put(text, b"another order")?;
        }
        Some(statements) => {
            if log.members() == finding.log.members() {
                put_other_order(text, design, sources, statements)?;
            } else if is_parent(&finding.log, log) {
                put_usual_order(text, design, sources, statements)?;
            } else {
                put(text, b"another order")?;
            }
        }
    }
    if log.members().is_empty() {
        put(text, b" (the default order)")?;
    }
    put(text, b":")
}

/// The text of the log with the name of the setting, so that steps of each run have as many choices.
pub fn named_log(alloc: Global, setting: Setting<'_>, log: &Log) -> Result<Vec<u8>, NoMemory> {
    let head = LogHead::Named(setting.grain, setting.departures);
    write_named_log(alloc, head, log)
}

/// A value of the variable of this number, if there is one.
pub fn put_value_of(
    text: &mut Vec<u8>,
    design: &Design,
    number: usize,
    value: Option<&Vec4>,
) -> Result<(), NoMemory> {
    match (design.variables.get(number), value) {
        (Some(variable), Some(value)) => put_value(text, variable, *value),
        _ => Ok(()),
    }
}

// The lines that were printed in the last slot, if they are looked at.
fn put_printed(text: &mut Vec<u8>, lines: Option<&Bag>) -> Result<(), NoMemory> {
    match lines {
        None => Ok(()),
        Some(lines) => put_lines(text, lines),
    }
}

// What is so where a run ends: of what is told first.
fn put_run_end(
    text: &mut Vec<u8>,
    design: &Design,
    foremost: Foremost,
    run: &RunEnd,
) -> Result<(), NoMemory> {
    match foremost {
        Foremost::End => put_end(text, design, run.end),
        Foremost::Lines => put_printed(text, run.lines.as_ref()),
        Foremost::Variable(number) => put_value_of(text, design, number, run.values.get(number)),
    }
}

// The value, where it is one of a variable that is told.
fn put_told_value(
    text: &mut Vec<u8>,
    design: &Design,
    foremost: Foremost,
    value: &Vec4,
) -> Result<(), NoMemory> {
    match foremost {
        Foremost::Variable(number) => put_value_of(text, design, number, Some(value)),
        Foremost::End => Ok(()),
        Foremost::Lines => Ok(()),
    }
}

// What is so in the side.
fn put_evidence(
    text: &mut Vec<u8>,
    design: &Design,
    foremost: Foremost,
    evidence: &Evidence,
) -> Result<(), NoMemory> {
    match evidence {
        Evidence::Value(value) => put_told_value(text, design, foremost, value),
        Evidence::Lines(lines) => put_lines(text, lines),
        Evidence::End(run) => put_run_end(text, design, foremost, run),
    }
}

// The side, and what is so in it.
fn row_of(alloc: Global, subject: Subject<'_>, side: &Side) -> Result<Row, NoMemory> {
    let (mut order, mut value) = (Vec::new(alloc), Vec::new(alloc));
    put_order(&mut order, subject, &side.log)?;
    let foremost = subject.finding.first.foremost();
    put_evidence(&mut value, subject.setting.design, foremost, &side.evidence)?;
    Ok(Row {
        order,
        value,
        log: named_log(alloc, subject.setting, &side.log)?,
    })
}

/// The sides of the finding's first difference, that of the default run first, if one is its.
pub fn rows_of(alloc: Global, subject: Subject<'_>) -> Result<Vec<Row>, NoMemory> {
    let mut rows = Vec::new(alloc);
    for side in &subject.finding.first.sides {
        rows.push(row_of(alloc, subject, side)?)?;
    }
    Ok(rows)
}

// What comes before the side at this place of so many.
fn joint(place: usize, count: usize) -> &'static [u8] {
    if place == 0 {
        b""
    } else if place.saturating_add(1) == count {
        b" or "
    } else {
        b", "
    }
}

/// The values of the variable of this number in the sides, which are ends: `0 or 1`.
pub fn put_values(
    text: &mut Vec<u8>,
    design: &Design,
    difference: &Difference,
    number: usize,
) -> Result<(), NoMemory> {
    for (place, side) in difference.sides.iter().enumerate() {
        put(text, joint(place, difference.sides.len()))?;
        put_evidence(text, design, Foremost::Variable(number), &side.evidence)?;
    }
    Ok(())
}

// What is so in the sides: `1 or 0`; `1, 0 or x`.
fn put_joined(text: &mut Vec<u8>, rows: &[Row]) -> Result<(), NoMemory> {
    for (place, row) in rows.iter().enumerate() {
        put_all(
            text,
            &[
                Piece::Bytes(joint(place, rows.len())),
                Piece::Bytes(&row.value),
            ],
        )?;
    }
    Ok(())
}

// ` where $finish ends the run at 50`
fn put_where(text: &mut Vec<u8>, design: &Design, end: Option<End>) -> Result<(), NoMemory> {
    let Some(end) = end else {
        return Ok(());
    };
    let cause = Piece::Bytes(cause_words(end.cause));
    put_all(
        text,
        &[
            Piece::Bytes(b" where "),
            cause,
            Piece::Bytes(b" ends the run"),
        ],
    )?;
    put_at(text, design, end.time)
}

// What ends differ in.
fn put_ends(
    text: &mut Vec<u8>,
    design: &Design,
    difference: &Difference,
    rows: &[Row],
) -> Result<(), NoMemory> {
    match difference.foremost() {
        Foremost::End => {
            put(text, b"the run ends by ")?;
            return put_joined(text, rows);
        }
        Foremost::Lines => put(text, b"prints ")?,
        Foremost::Variable(number) => put_all(
            text,
            &[Piece::Bytes(name_of(design, number)), Piece::Bytes(b" is ")],
        )?,
    }
    put_joined(text, rows)?;
    put_where(text, design, difference.end())
}

/// What differs, in one line: `tb.b is 1 or 0 at 5`, `prints "PASS" or "FAIL" at 5`, `the run ends by $finish at 10 or its last event at 7`,
/// `prints "PASS" or nothing where $finish ends the run at 50`.
pub fn put_difference(
    text: &mut Vec<u8>,
    subject: Subject<'_>,
    rows: &[Row],
) -> Result<(), NoMemory> {
    let (design, difference) = (subject.setting.design, &subject.finding.first);
    match &difference.aspect {
        Aspect::Variable(number) => {
            let name = Piece::Bytes(name_of(design, *number));
            put_all(text, &[name, Piece::Bytes(b" is ")])?;
            put_joined(text, rows)?;
            put_at(text, design, difference.time)
        }
        Aspect::Lines => {
            put(text, b"prints ")?;
            put_joined(text, rows)?;
            put_at(text, design, difference.time)
        }
        Aspect::Ends(_) => put_ends(text, design, difference, rows),
    }
}

/// Whether anything differs beside what is told first, or it differs again.
pub fn has_others(finding: &Finding) -> bool {
    finding.last > finding.first.time || !finding.others.is_empty()
}

/// What differs beside what is told first: `3 more differences, up to 9`; where it is the same again, `so again, the last time at 9`.
pub fn put_others(text: &mut Vec<u8>, subject: Subject<'_>) -> Result<(), NoMemory> {
    let finding = subject.finding;
    if finding.others.is_empty() {
        put(text, b"so again, the last time")?;
        return put_at(text, subject.setting.design, finding.last);
    }
    let count = finding.others.len() as u64;
    let least: &[u8] = if finding.is_whole() {
        b""
    } else {
        b"at least "
    };
    put_all(
        text,
        &[
            Piece::Bytes(least),
            Piece::Count(count, b"more difference"),
            Piece::Bytes(b", up to "),
        ],
    )?;
    put_time(text, subject.setting.design, finding.last)
}

/// A difference by its name: `tb.c at 6`, `lines at 6`.
pub fn put_name(text: &mut Vec<u8>, design: &Design, name: &Name) -> Result<(), NoMemory> {
    let words: &[u8] = match name.variable {
        None => b"lines",
        Some(number) => name_of(design, number),
    };
    put(text, words)?;
    put_at(text, design, name.time)
}

// What comes before the value of a side: `tb.b = `.
fn put_left(text: &mut Vec<u8>, subject: Subject<'_>) -> Result<(), NoMemory> {
    let Foremost::Variable(number) = subject.finding.first.foremost() else {
        return Ok(());
    };
    let name = Piece::Bytes(name_of(subject.setting.design, number));
    put_all(text, &[name, Piece::Bytes(b" = ")])
}

// The greatest width of orders, and of values.
fn widths_of(rows: &[Row]) -> (usize, usize) {
    let (mut order, mut value) = (0, 0);
    for row in rows {
        order = row.order.len().max(order);
        value = row.value.len().max(value);
    }
    (order, value)
}

// Whether a run of the design may write a dump.
fn has_dump(design: &Design) -> bool {
    for action in &design.actions {
        if let Action::DumpVars(_) = action {
            return true;
        }
    }
    false
}

// What a replay is asked to show: the lines where they differ; the steps where no dump is written.
fn shown_by_replay(subject: Subject<'_>) -> &'static [u8] {
    match subject.finding.first.foremost() {
        Foremost::Lines => b" --lines",
        _ if has_dump(subject.setting.design) => b"",
        _ => b" --trace",
    }
}

/// A line for each side: the order in which it comes about, what is so then, and the command that replays it, which ends so.
pub fn put_sides<'x>(
    text: &mut Vec<u8>,
    subject: Subject<'_>,
    rows: &'x [Row],
    behind: &'x [u8],
) -> Result<(), NoMemory> {
    let (order, value) = widths_of(rows);
    let shown = shown_by_replay(subject);
    for row in rows {
        put_all(
            text,
            &[
                Piece::Bytes(b"    "),
                Piece::Padded(&row.order, order),
                Piece::Bytes(b"  "),
            ],
        )?;
        put_left(text, subject)?;
        put_all(
            text,
            &[
                Piece::Padded(&row.value, value),
                Piece::Bytes(b"  vrace replay"),
                Piece::Bytes(shown),
                Piece::Bytes(b" --log "),
                Piece::Bytes(&row.log),
                Piece::Bytes(behind),
                Piece::Bytes(b"\n"),
            ],
        )?;
    }
    Ok(())
}
