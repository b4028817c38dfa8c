// The races of lines of a report, read.

ghost use Rattle.std.specs.Prelude.{◌↔◌, IfOk, IsTrue};
ghost use Rattle.report_text.specs.Inner.LineRaces as inner;
ghost use Rattle.report_text.specs.Inner.Places.{HasTaken, TakesEach};
ghost use Rattle.sched_core.specs.declared.setting.Looked.TheVariants.{Lines};

use crate::ends::take_log;
use crate::heading_lines::number_line;
use crate::lines::{is_bag_less, take_lines};
use crate::reader::Reader;
use crate::report::{LineRace, PrintedLines};
use basis::NoMemory;
use sched_core::setting::Looked;
use std::alloc::Global;

// Takes a side of a race of lines. Where the reader is lost it means nothing. The error is want of memory, E901.
fn take_side(alloc: Global, reader: &mut Reader) -> Result<PrintedLines, NoMemory>
    ensures read { IfOk result (HasTaken reader.old reader.new inner.IsSideTaken) }
    ensures each { IfOk result (TakesEach reader.old reader.new inner.IsSideTaken) }
{
    reader.prefix(b"lines ");
    let count = reader.number(b' ');
    let word = reader.word(b'\n');
    let log = take_log(alloc, reader, word)?;
    let lines = take_lines(alloc, reader, count)?;
    Ok(PrintedLines { lines, log })
}

// Whether the side may follow these.
fn may_follow_side(sides: &[PrintedLines], side: &PrintedLines) -> bool
    ensures { IsTrue result ↔ inner.FollowsSide sides.now side.now.0 }
{
    match sides.last() {
        Some(last) => is_bag_less(&last.lines, &side.lines),
        None => true,
    }
}

// Takes so many sides. Where the reader is lost they mean nothing. The error is want of memory, E901.
fn take_sides(alloc: Global, reader: &mut Reader, count: u64) -> Result<Vec<PrintedLines>, NoMemory>
    ensures read { IfOk result (λ sides.
        HasTaken reader.old reader.new (inner.AreSidesTaken count) sides.items) }
    ensures each { IfOk result (λ sides.
        TakesEach reader.old reader.new (inner.AreSidesTaken count) sides.items) }
{
    let mut sides = Vec::new(alloc);
    for place in 0..count {
        let side = take_side(alloc, reader)?;
        reader.require(may_follow_side(&sides, &side));
        if !reader.is_ok() {
            return Ok(sides);
        }
        sides.push(side)?;
    }
    Ok(sides)
}

// Takes the first line of a race of lines: its time, and how many sides there are.
fn line_race_line(reader: &mut Reader) -> (u64, u64)
    ensures read { HasTaken reader.old reader.new inner.IsLineRaceLine result }
    ensures each { TakesEach reader.old reader.new inner.IsLineRaceLine result }
{
    reader.prefix(b"line race ");
    let time = reader.number(b' ');
    let count = reader.number(b'\n');
    reader.require(count >= 2);
    (time, count)
}

// Takes a race of lines. Where the reader is lost it means nothing. The error is want of memory, E901.
fn take_line_race(alloc: Global, reader: &mut Reader) -> Result<LineRace, NoMemory>
    ensures read { IfOk result (HasTaken reader.old reader.new inner.IsLineRaceTaken) }
    ensures each { IfOk result (TakesEach reader.old reader.new inner.IsLineRaceTaken) }
{
    let (time, count) = line_race_line(reader);
    let sides = take_sides(alloc, reader, count)?;
    Ok(LineRace { time, sides })
}

// Whether the race of lines may follow these.
fn may_follow_line_race(races: &[LineRace], race: &LineRace) -> bool
    ensures { IsTrue result ↔ inner.FollowsLineRace races.now race.now }
{
    match races.last() {
        Some(last) => last.time < race.time,
        None => true,
    }
}

// Takes so many races of lines. Where the reader is lost they mean nothing. The error is want of memory, E901.
fn take_line_races(
    alloc: Global,
    reader: &mut Reader,
    count: u64,
) -> Result<Vec<LineRace>, NoMemory>
    ensures read { IfOk result (λ races.
        HasTaken reader.old reader.new (inner.AreLineRacesTaken count) races.items) }
    ensures each { IfOk result (λ races.
        TakesEach reader.old reader.new (inner.AreLineRacesTaken count) races.items) }
{
    let mut races = Vec::new(alloc);
    for place in 0..count {
        let race = take_line_race(alloc, reader)?;
        reader.require(may_follow_line_race(&races, &race));
        if !reader.is_ok() {
            return Ok(races);
        }
        races.push(race)?;
    }
    Ok(races)
}

// Takes races of lines and, before them, the line of their count. Where the reader is lost they mean nothing. The error is want
// of memory, E901.
fn counted_line_races(alloc: Global, reader: &mut Reader) -> Result<Vec<LineRace>, NoMemory>
    ensures read { IfOk result (λ races.
        HasTaken reader.old reader.new (inner.AreLastTaken Lines) races.items) }
    ensures each { IfOk result (λ races.
        TakesEach reader.old reader.new (inner.AreLastTaken Lines) races.items) }
{
    let count = number_line(reader, b"line races ", 0, u64::MAX);
    let races = take_line_races(alloc, reader, count)?;
    Ok(races)
}

/// Takes the races of lines, where lines are looked at. Where the reader is lost they mean nothing. The error is want of
/// memory, E901.
pub fn read_line_races(
    alloc: Global,
    reader: &mut Reader,
    looked: Looked,
) -> Result<Vec<LineRace>, NoMemory>
    ensures read { IfOk result (λ races.
        HasTaken reader.old reader.new (inner.AreLastTaken looked) races.items) }
    ensures each { IfOk result (λ races.
        TakesEach reader.old reader.new (inner.AreLastTaken looked) races.items) }
{
    match looked {
        Looked::Values => Ok(Vec::new(alloc)),
        Looked::Lines => counted_line_races(alloc, reader),
    }
}
