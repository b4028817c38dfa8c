// Searches by time that are stopped once so many entries were taken.

use basis::{NoMemory, OrMemory};
use explore::{Progress, RankedReason, RankedStatus, Watcher};
use itoa::Buffer;
use report_text::{End, Race, RaceValue, Report};
use statebook::Limits;
use std::alloc::Global;
use vmachine::Machine;
use vreport::{Budget, Spent, TimedReport, report_in_time};

// Lets so many entries be taken, and keeps whether it stopped the search then.
#[derive(Drop)]
struct Entries {
    left: u32,
    is_over: bool,
}

impl Watcher for Entries {
    ghost use Rattle.std.specs.Prelude.{◌≡◌, true};

    ghost stopped = { λ entries. entries.is_over ≡ true };

    fn go_on(&mut self, _progress: &Progress) -> bool {
        match self.left.checked_sub(1) {
            None => {
                self.is_over = true;
                false
            }
            Some(left) => {
                self.left = left;
                true
            }
        }
    }
}

impl Budget for Entries {
    ghost use Rattle.vreport.specs.declared.timed.Spent.TheVariants.{Time};

    ghost lacks = { λ budget. Time };

    fn reckon(&mut self, _entry_bytes: u64) {}

    fn spent(&self) -> Spent {
        Spent::Time
    }
}

fn put_all(text: &mut Vec<u8>, pieces: &[&[u8]]) -> Result<(), NoMemory> {
    for piece in pieces {
        text.extend_from_slice(piece)?;
    }
    Ok(())
}

fn put_number(text: &mut Vec<u8>, before: &[u8], number: u64) -> Result<(), NoMemory> {
    put_all(text, &[before, Buffer::new().format(number).as_bytes()])
}

// `VALUE/DEPARTURES` of each value of a race.
fn put_values(text: &mut Vec<u8>, values: &[RaceValue]) -> Result<(), NoMemory> {
    for value in values {
        put_all(text, &[b" ", &value.value])?;
        put_number(text, b"/", value.log.members().len() as u64)?;
    }
    put_all(text, &[b"\n"])
}

// A line for each race: its time, the number of its variable, and its values.
fn put_races(text: &mut Vec<u8>, races: &[Race]) -> Result<(), NoMemory> {
    for race in races {
        put_number(text, b"race ", race.time)?;
        put_number(text, b" ", race.variable as u64)?;
        put_values(text, &race.values)?;
    }
    Ok(())
}

// A line for each end: its time, its departures, and its values.
fn put_ends(text: &mut Vec<u8>, ends: &[End]) -> Result<(), NoMemory> {
    for end in ends {
        put_number(text, b"end ", end.time)?;
        put_number(text, b" /", end.log.members().len() as u64)?;
        put_all(text, &[b" ", &end.line, b"\n"])?;
    }
    Ok(())
}

fn status_word(status: RankedStatus) -> &'static [u8] {
    match status {
        RankedStatus::Exhausted => b"exhausted",
        RankedStatus::Cut(RankedReason::Stopped) => b"stopped",
        RankedStatus::Cut(_) => b"cut",
    }
}

// How the search ended, and the last time that was closed.
fn put_search(text: &mut Vec<u8>, told: &TimedReport) -> Result<(), NoMemory> {
    put_all(text, &[status_word(told.search.status)])?;
    match told.search.closed {
        None => put_all(text, &[b" none\n"]),
        Some(time) => {
            put_number(text, b" ", time)?;
            put_all(text, &[b"\n"])
        }
    }
}

/// What a search by time finds that is stopped once so many entries were taken: how it ended, its races and its ends.
pub fn stopped_search(
    alloc: Global,
    machine: &Machine,
    depart: u32,
    entries: u32,
) -> Result<Vec<u8>, NoMemory> {
    let mut text = Vec::new(alloc);
    let Some(limits) = Limits::new(depart, 1_000, 10_000) else {
        return Ok(text);
    };
    let mut budget = Entries {
        left: entries,
        is_over: false,
    };
    match report_in_time(alloc, machine, &limits, &mut budget) {
        Ok(told) => {
            put_search(&mut text, &told)?;
            put_races(&mut text, &told.report.races)?;
            put_ends(&mut text, &told.report.ends)?;
        }
        Err(OrMemory::Fault(_)) => put_all(&mut text, &[b"too long\n"])?,
        Err(OrMemory::Memory(refused)) => return Err(refused),
    }
    Ok(text)
}
