// The ends of a report and their dumps, read.

ghost use Rattle.std.specs.Prelude.{◌≡◌, ◌↔◌, ℕ, ◌<◌, ◌^◌, List, ◌++◌, map, true, length, IfOk, IfSome, IsTrue, MatchOption, ◌∷◌, flat_map};
ghost use Rattle.sched_core.specs.LogText.{log_text};
ghost use Rattle.sched_core.specs.Logs.{IsLog};
ghost use Rattle.sched_core.specs.declared.end.Cause as causes;
ghost use Rattle.report_text.specs.Inner.Ends as inner;
ghost use Rattle.report_text.specs.Inner.Lists.{Listed};
ghost use Rattle.report_text.specs.Inner.Fronts.{EachRest};
ghost use Rattle.report_text.specs.Inner.Places.{HasSpelled, HasTaken, Stands, TakesEach, TakesSpelled, Took};
ghost use Rattle.report_text.specs.Report as reports;
ghost use Rattle.report_text.specs.ReportText as spelled;
ghost use Rattle.report_text.specs.WellFormed.{IsEnd, IsEndBefore, IsLineOf};

use crate::columns::copy_of;
use crate::front::after;
use crate::letters::{is_less, is_same, is_value};
use crate::lines::{is_printed_less, take_printed};
use crate::reader::Reader;
use crate::report::{Column, End};
use crate::words::{cause_of, cause_word};
use basis::{NoMemory, OrMemory};
use sched_core::end::Cause;
use sched_core::setting::Looked;
use sched_core::{Log, read_log};
use std::alloc::Global;
use std::marker::Model;

/// Reads the word as a log. Where it is none the reader is lost. The error is want of memory, E901.
pub fn take_log(alloc: Global, reader: &mut Reader, word: &[u8]) -> Result<Log, NoMemory>
    ensures rest { IfOk result (λ log. reader.new.rest ≡ reader.old.rest) }
    ensures read { IfOk result (inner.HasLog reader.old reader.new word.now) }
    ensures each { inner.EachLog reader.old reader.new word.now result }
{
    match read_log(alloc, word) {
        Ok(log) => Ok(log),
        Err(OrMemory::Fault(_)) => {
            reader.require(false);
            Ok(Log::new(alloc))
        }
        Err(OrMemory::Memory(refused)) => Err(refused),
    }
}

// Takes a cause and the space behind it.
fn take_cause(reader: &mut Reader) -> Cause
    ensures read { HasTaken reader.old reader.new inner.IsCauseTaken result }
    ensures each { TakesEach reader.old reader.new inner.IsCauseTaken result }
{
    match cause_of(reader.word(b' ')) {
        Some(cause) => cause,
        None => {
            reader.require(false);
            Cause::Quiet
        }
    }
}

// What follows the digits of a value of this width at the front.
fn after_value(text: &[u8], width: u32) -> Option<&[u8]>
    ensures read { IfSome result (λ rest. inner.IsAfterValue width text.now rest.now) }
    ensures each { EachRest (inner.IsAfterValue width text.now) result }
{
    if width as usize > text.len() {
        return None;
    }
    let (value, rest) = text.split_at(width as usize);
    if is_value(width, value) {
        Some(rest)
    } else {
        None
    }
}

// Whether the line tells a value of each of the variables, with one space between.
fn is_line_of(columns: &[Column], line: &[u8]) -> bool
    ensures { IsTrue result ↔ IsLineOf columns.now line.now }
{
    let Some((first, more)) = columns.split_first() else {
        return line.is_empty();
    };
    let Some(mut rest) = after_value(line, first.width) else {
        return false;
    };
    for column in more {
        let Some(next) = after_space(rest, column.width) else {
            return false;
        };
        rest = next;
    }
    rest.is_empty()
}

// What follows a space and the digits of a value of this width at the front.
fn after_space(text: &[u8], width: u32) -> Option<&[u8]>
    ensures read { IfSome result (λ rest. inner.IsAfterSpace width text.now rest.now) }
    ensures each { EachRest (inner.IsAfterSpace width text.now) result }
{
    after_value(after(text, b" ")?, width)
}

// Whether one end stands before another of its time and cause: by values, then by lines.
fn is_shown_less(a: &End, b: &End) -> bool
    ensures { IsTrue result ↔ inner.IsShownLess a.now b.now }
{
    if is_same(&a.line, &b.line) {
        return is_printed_less(&a.printed, &b.printed);
    }
    is_less(&a.line, &b.line)
}

// Whether one end stands before another: by time, then by cause, then by values, then by lines.
fn is_end_before(a: &End, b: &End) -> bool
    ensures { IsTrue result ↔ IsEndBefore a.now b.now }
{
    if a.time != b.time {
        return a.time < b.time;
    }
    let (left, right) = (cause_word(a.cause), cause_word(b.cause));
    if left == right {
        return is_shown_less(a, b);
    }
    is_less(left, right)
}

// Whether the end may follow these.
fn may_follow(ends: &[End], end: &End) -> bool
    ensures { IsTrue result ↔ inner.FollowsLast ends.now end.now }
{
    match ends.last() {
        Some(last) => is_end_before(last, end),
        None => true,
    }
}

// The words of an end, as they stand in a text.
#[derive(Drop)]
struct EndWords<'a> {
    time: u64,
    cause: Cause,
    log: &'a [u8],
    bytes: u64,
    line: &'a [u8],
}

impl<'a> Model for EndWords<'a> {
    ghost use Rattle.report_text.specs.Inner.Ends as inner;

    ghost Value = { inner.EndSpelling };

    ghost view = { λ w. record {
      time = w.time;
      cause = w.cause;
      log = w.log.now;
      bytes = w.bytes;
      line = w.line.now;
    } };
}

// Takes the words of an end.
fn end_words<'a>(reader: &mut Reader<'a>) -> EndWords<'a>
    ensures read { HasSpelled reader.old reader.new inner.IsSpelling inner.spelled_before result }
    ensures each { TakesSpelled reader.old reader.new inner.IsSpelling inner.spelled_before result }
{
    reader.prefix(b"end ");
    let time = reader.number(b' ');
    let cause = take_cause(reader);
    let log = reader.word(b' ');
    let bytes = reader.number(b'\n');
    let line = reader.word(b'\n');
    EndWords {
        time,
        cause,
        log,
        bytes,
        line,
    }
}

// Takes an end and its dump. Where the reader is lost they mean nothing. The error is want of memory, E901.
fn take_end<'a>(
    alloc: Global,
    reader: &mut Reader<'a>,
    columns: &[Column],
    looked: Looked,
) -> Result<(End, &'a [u8]), NoMemory>
    ensures read { IfOk result (λ p.
        HasTaken reader.old reader.new (inner.IsEndedTaken looked columns.now) (p.0, p.1.now)) }
    ensures each { inner.EachEnd looked columns.now reader.old reader.new result }
{
    let words = end_words(reader);
    reader.require(is_line_of(columns, words.line));
    let printed = take_printed(alloc, reader, looked)?;
    let dump = reader.bytes(words.bytes);
    let log = take_log(alloc, reader, words.log)?;
    let line = copy_of(alloc, words.line)?;
    let end = End {
        time: words.time,
        cause: words.cause,
        log,
        bytes: words.bytes,
        line,
        printed,
    };
    Ok((end, dump))
}

/// Takes so many ends with their dumps. Where the reader is lost they mean nothing. The error is want of memory, E901.
pub fn read_ends<'a>(
    alloc: Global,
    reader: &mut Reader<'a>,
    columns: &[Column],
    looked: Looked,
    count: u64,
) -> Result<(Vec<End>, Vec<&'a [u8]>), NoMemory>
    ensures read { IfOk result (λ p.
        inner.HasEnds looked columns.now count reader.old reader.new p.0.items p.1.items) }
    ensures each { inner.EachEnds looked columns.now count reader.old reader.new result }
{
    let mut ends = Vec::new(alloc);
    let mut dumps = Vec::new(alloc);
    for place in 0..count {
        let (end, dump) = take_end(alloc, reader, columns, looked)?;
        reader.require(may_follow(&ends, &end));
        if !reader.is_ok() {
            return Ok((ends, dumps));
        }
        ends.push(end)?;
        dumps.push(dump)?;
    }
    Ok((ends, dumps))
}
