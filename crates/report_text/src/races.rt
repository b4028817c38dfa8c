// The races of a report, read.

ghost use Rattle.std.specs.Prelude.{◌≡◌, ◌↔◌, ◌≢◌, ℕ, ◌<◌, List, ◌++◌, map, true, length, slice_get, Some, IfOk, IfSome, IsTrue, MatchOption};
ghost use Rattle.report_text.specs.Inner.Columns.{Differ};
ghost use Rattle.report_text.specs.Inner.Lists.{Listed};
ghost use Rattle.report_text.specs.Inner.Places.{HasTaken, Stands, TakesEach, Took};
ghost use Rattle.report_text.specs.Inner.Races as inner;
ghost use Rattle.report_text.specs.Report as reports;
ghost use Rattle.report_text.specs.ReportText as spelled;
ghost use Rattle.report_text.specs.WellFormed.{EachTwo, Each, IsColumn, IsRaceBefore};

use crate::columns::copy_of;
use crate::ends::take_log;
use crate::letters::{is_less, is_value};
use crate::names::Names;
use crate::reader::Reader;
use crate::report::{Column, Race, RaceValue};
use basis::NoMemory;
use std::alloc::Global;

// Takes the line of a value of this width. Where the reader is lost it means nothing. The error is want of memory, E901.
fn take_race_value(alloc: Global, reader: &mut Reader, width: u32) -> Result<RaceValue, NoMemory>
    ensures read { IfOk result (HasTaken reader.old reader.new (inner.IsShownTaken width)) }
    ensures each { IfOk result (TakesEach reader.old reader.new (inner.IsShownTaken width)) }
{
    let value = reader.word(b' ');
    reader.require(is_value(width, value));
    let word = reader.word(b'\n');
    let log = take_log(alloc, reader, word)?;
    let value = copy_of(alloc, value)?;
    Ok(RaceValue { value, log })
}

// Whether the value may follow these.
fn may_follow_value(values: &[RaceValue], race_value: &RaceValue) -> bool
    ensures { IsTrue result ↔ inner.FollowsShown values.now race_value.now.0 }
{
    match values.last() {
        Some(last) => is_less(&last.value, &race_value.value),
        None => true,
    }
}

// Takes so many lines of values of this width. Where the reader is lost they mean nothing. The error is want of memory, E901.
fn take_values(
    alloc: Global,
    reader: &mut Reader,
    width: u32,
    count: u64,
) -> Result<Vec<RaceValue>, NoMemory>
    ensures read { IfOk result (λ values.
        inner.HasShown width count reader.old reader.new values.items) }
    ensures each { inner.EachShown width count reader.old reader.new result }
{
    let mut values = Vec::new(alloc);
    for place in 0..count {
        let race_value = take_race_value(alloc, reader, width)?;
        reader.require(may_follow_value(&values, &race_value));
        if !reader.is_ok() {
            return Ok(values);
        }
        values.push(race_value)?;
    }
    Ok(values)
}

// The number and the width of the variable of this name.
fn find(columns: &[Column], names: &Names, name: &[u8]) -> Option<(usize, u32)>
    requires shown { names.now ≡ map (λ c. c.name) columns.now }
    requires differ { EachTwo Differ columns.now }
    ensures read { IfSome result (inner.IsFound columns.now name.now) }
    ensures each { inner.EachFound columns.now name.now result }
{
    let variable = names.place(name)?;
    let column = columns.get(variable)?;
    Some((variable, column.width))
}

// The first line of a race: its time, its variable and that one's width, and how many values there are.
#[derive(Clone, Copy)]
struct RaceLine {
    time: u64,
    variable: usize,
    width: u32,
    count: u64,
}

// Takes the first line of a race.
fn race_line(reader: &mut Reader, columns: &[Column], names: &Names) -> RaceLine
    requires shown { names.now ≡ map (λ c. c.name) columns.now }
    requires columns { Listed IsColumn Differ columns.now }
    ensures read { HasTaken reader.old reader.new (inner.IsLineOf columns.now) result }
    ensures each { inner.EachLine columns.now reader.old reader.new result }
{
    reader.prefix(b"race ");
    let time = reader.number(b' ');
    let name = reader.word(b' ');
    let count = reader.number(b'\n');
    reader.require(count >= 2);
    match find(columns, names, name) {
        Some((variable, width)) => RaceLine {
            time,
            variable,
            width,
            count,
        },
        None => {
            reader.require(false);
            RaceLine {
                time,
                variable: 0,
                width: 0,
                count,
            }
        }
    }
}

// Takes a race. Where the reader is lost it means nothing. The error is want of memory, E901.
fn take_race(
    alloc: Global,
    reader: &mut Reader,
    columns: &[Column],
    names: &Names,
) -> Result<Race, NoMemory>
    requires shown { names.now ≡ map (λ c. c.name) columns.now }
    requires columns { Listed IsColumn Differ columns.now }
    ensures read { IfOk result (HasTaken reader.old reader.new (inner.IsRaceTaken columns.now)) }
    ensures each { IfOk result (TakesEach reader.old reader.new (inner.IsRaceTaken columns.now)) }
{
    let line = race_line(reader, columns, names);
    let values = take_values(alloc, reader, line.width, line.count)?;
    Ok(Race {
        time: line.time,
        variable: line.variable,
        values,
    })
}

// Whether the race may follow these.
fn may_follow_race(races: &[Race], race: &Race) -> bool
    ensures { IsTrue result ↔ inner.FollowsRace races.now race.now }
{
    match races.last() {
        Some(last) => last.time < race.time
            || (last.time == race.time && last.variable < race.variable),
        None => true,
    }
}

/// Takes so many races of these variables. Where the reader is lost they mean nothing. The error is want of memory, E901.
pub fn read_races(
    alloc: Global,
    reader: &mut Reader,
    columns: &[Column],
    names: &Names,
    count: u64,
) -> Result<Vec<Race>, NoMemory>
    requires shown { names.now ≡ map (λ c. c.name) columns.now }
    requires columns { Listed IsColumn Differ columns.now }
    ensures read { IfOk result (λ races.
        inner.HasRaces columns.now count reader.old reader.new races.items) }
    ensures each { inner.EachRaces columns.now count reader.old reader.new result }
{
    let mut races = Vec::new(alloc);
    for place in 0..count {
        let race = take_race(alloc, reader, columns, names)?;
        reader.require(may_follow_race(&races, &race));
        if !reader.is_ok() {
            return Ok(races);
        }
        races.push(race)?;
    }
    Ok(races)
}
