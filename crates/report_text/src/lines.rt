// Printed lines, read.

ghost use Rattle.std.specs.Prelude.{◌↔◌, IfOk, IsTrue};
ghost use Rattle.sched_core.specs.Bags.{IsBagLess};
ghost use Rattle.sched_core.specs.declared.setting.Looked.TheVariants.{Lines};
ghost use Rattle.report_text.specs.Inner.Lines as inner;
ghost use Rattle.report_text.specs.Inner.Places.{HasTaken, TakesEach};
ghost use Rattle.report_text.specs.WellFormed.{IsPrintedLess};

use crate::heading_lines::number_line;
use crate::letters::is_less;
use crate::reader::Reader;
use basis::NoMemory;
use sched_core::bag::{Bag, PrintedLine};
use sched_core::setting::Looked;
use std::alloc::Global;
use std::cmp::Ordering;

// Takes a line by the count of its bytes.
fn take_text<'a>(reader: &mut Reader<'a>) -> &'a [u8]
    ensures read { HasTaken reader.old reader.new inner.IsTextTaken result.now }
    ensures each { TakesEach reader.old reader.new inner.IsTextTaken result.now }
{
    let size = number_line(reader, b"line ", 0, u64::MAX);
    reader.bytes(size)
}

// Whether the line isn't less than one before it.
fn is_not_after(before: &[u8], line: &[u8]) -> bool
    ensures { IsTrue result ↔ inner.IsNotAfter before.now line.now }
{
    !is_less(line, before)
}

// Whether the line may follow these.
fn may_follow_line(lines: &[PrintedLine], line: &[u8]) -> bool
    ensures { IsTrue result ↔ inner.FollowsLine lines.now line.now }
{
    match lines.last() {
        Some(last) => is_not_after(last.as_bytes(), line),
        None => true,
    }
}

/// Takes so many lines. Where the reader is lost they mean nothing. The error is want of memory, E901.
pub fn take_lines(alloc: Global, reader: &mut Reader, count: u64) -> Result<Bag, NoMemory>
    ensures read { IfOk result (HasTaken reader.old reader.new (inner.AreLinesTaken count)) }
    ensures each { IfOk result (TakesEach reader.old reader.new (inner.AreLinesTaken count)) }
{
    let mut bag = Bag::new(alloc);
    for place in 0..count {
        let line = take_text(reader);
        reader.require(may_follow_line(bag.as_slice(), line));
        if !reader.is_ok() {
            return Ok(bag);
        }
        bag.push(line)?;
    }
    Ok(bag)
}

// Takes lines and, before them, the line of their count. Where the reader is lost they mean nothing. The error is want of
// memory, E901.
fn counted_lines(alloc: Global, reader: &mut Reader) -> Result<Option<Bag>, NoMemory>
    ensures read { IfOk result (HasTaken reader.old reader.new (inner.ArePrintedTaken Lines)) }
    ensures each { IfOk result (TakesEach reader.old reader.new (inner.ArePrintedTaken Lines)) }
{
    let count = number_line(reader, b"lines ", 0, u64::MAX);
    let bag = take_lines(alloc, reader, count)?;
    Ok(Some(bag))
}

/// Takes the lines of an end, where they are looked at. Where the reader is lost they mean nothing. The error is want of
/// memory, E901.
pub fn take_printed(
    alloc: Global,
    reader: &mut Reader,
    looked: Looked,
) -> Result<Option<Bag>, NoMemory>
    ensures read { IfOk result (HasTaken reader.old reader.new (inner.ArePrintedTaken looked)) }
    ensures each { IfOk result (TakesEach reader.old reader.new (inner.ArePrintedTaken looked)) }
{
    match looked {
        Looked::Values => Ok(None),
        Looked::Lines => counted_lines(alloc, reader),
    }
}

/// Whether one list of lines stands before another: by the first line in which they differ, a front before the longer.
pub fn is_bag_less(a: &Bag, b: &Bag) -> bool
    ensures { IsTrue result ↔ IsBagLess a.now b.now }
{
    a.cmp(b) == Ordering::Less
}

/// The same of lines that may be there or not.
pub fn is_printed_less(a: &Option<Bag>, b: &Option<Bag>) -> bool
    ensures { IsTrue result ↔ IsPrintedLess a.now b.now }
{
    match (a, b) {
        (Some(left), Some(right)) => is_bag_less(left, right),
        (Some(_), None) => false,
        (None, Some(_)) => false,
        (None, None) => false,
    }
}
