// What is to be known of a testbench, on standard error.

use basis::{NoMemory, Span};
use drive_dump::{DrivenModule, InputColumns, Recording};
use drive_text::Role;
use race_words::pieces::string_of;
use race_words::{Piece, put_all};
use std::alloc::Global;

// The most letters of a name that is told.
const LETTERS: usize = 200;

/// A time, in so many of which units.
#[derive(Clone, Copy)]
pub(crate) struct ToldTime {
    time: u64,
    unit: Span,
}

/// In which unit the times of a recording are shown, and in which longer one, of so many of them, they are told where they are whole.
#[derive(Clone, Copy)]
pub(crate) struct ToldUnits {
    pub shown: Span,
    pub longer: Span,
    pub parts: u64,
}

impl ToldUnits {
    /// The time, in the longer unit where it is a whole number of them.
    pub(crate) fn time(self, time: u64) -> ToldTime {
        if time.checked_rem(self.parts) == Some(0) {
            return ToldTime {
                time: time.checked_div(self.parts).unwrap_or(0),
                unit: self.longer,
            };
        }
        ToldTime {
            time,
            unit: self.shown,
        }
    }
}

impl ToldTime {
    /// As a number of its unit.
    pub(crate) fn number(self) -> u64 {
        self.time
            .saturating_mul(u64::from(self.unit.count.number()))
    }

    /// The word of its unit.
    pub(crate) fn word(self) -> &'static [u8] {
        self.unit.unit.name().as_bytes()
    }
}

// Each input of which the dump has no value.
fn put_missing(
    text: &mut Vec<u8>,
    module: &DrivenModule,
    columns: &[InputColumns],
    recording: &Recording,
) -> Result<(), NoMemory> {
    for (place, port) in module.ports.iter().enumerate() {
        if port.role != Role::Output && !recording.has_value(place) {
            let why: &[u8] = match columns.get(place) {
                Some(column) if column.are_some() => b" has no value in the dump",
                _ => b" isn't in the dump",
            };
            put_all(
                text,
                &[
                    Piece::Cut(&port.name, LETTERS),
                    Piece::Bytes(why),
                    Piece::Bytes(b": it is x throughout\n"),
                ],
            )?;
        }
    }
    Ok(())
}

// Whether the port at this place changes.
fn changes(recording: &Recording, port: usize) -> bool {
    for change in &recording.changes {
        if change.port == port {
            return true;
        }
    }
    false
}

// Each clock that never changes.
fn put_still(
    text: &mut Vec<u8>,
    module: &DrivenModule,
    recording: &Recording,
) -> Result<(), NoMemory> {
    for (place, port) in module.ports.iter().enumerate() {
        if port.role == Role::Clock && !changes(recording, place) {
            put_all(
                text,
                &[
                    Piece::Cut(&port.name, LETTERS),
                    Piece::Bytes(b" is a clock, and never changes\n"),
                ],
            )?;
        }
    }
    Ok(())
}

// Each reset that changes with a clock.
fn put_collisions(
    text: &mut Vec<u8>,
    module: &DrivenModule,
    recording: &Recording,
    units: ToldUnits,
) -> Result<(), NoMemory> {
    for collision in &recording.collisions {
        let time = units.time(collision.time);
        if let (Some(input), Some(clock)) = (
            module.ports.get(collision.input),
            module.ports.get(collision.clock),
        ) {
            put_all(
                text,
                &[
                    Piece::Cut(&input.name, LETTERS),
                    Piece::Bytes(b" changes with "),
                    Piece::Cut(&clock.name, LETTERS),
                    Piece::Bytes(b" at "),
                    Piece::Number(time.number()),
                    Piece::Bytes(time.word()),
                    Piece::Bytes(b", and is written behind it; --async "),
                    Piece::Cut(&input.name, LETTERS),
                    Piece::Bytes(b" has both orders searched\n"),
                ],
            )?;
        }
    }
    Ok(())
}

// That registers are x where the testbench begins.
fn put_begin(text: &mut Vec<u8>, first: ToldTime) -> Result<(), NoMemory> {
    if first.time == 0 {
        return Ok(());
    }
    put_all(
        text,
        &[
            Piece::Bytes(b"driven from "),
            Piece::Number(first.number()),
            Piece::Bytes(first.word()),
            Piece::Bytes(
                b" on: registers are x there, whatever the dump has; a reset is the place to begin\n",
            ),
        ],
    )
}

// That no input is a clock.
fn put_clockless(text: &mut Vec<u8>, module: &DrivenModule) -> Result<(), NoMemory> {
    for port in &module.ports {
        if port.role == Role::Clock {
            return Ok(());
        }
    }
    put_all(
        text,
        &[Piece::Bytes(b"no input is a clock: all are written by <=; --clock NAME names one\n")],
    )
}

/// What is to be known: what was read, in these units, from this time on.
pub(crate) fn notes(
    alloc: Global,
    module: &DrivenModule,
    columns: &[InputColumns],
    recording: &Recording,
    units: ToldUnits,
) -> Result<String, NoMemory> {
    let mut text = Vec::new(alloc);
    put_begin(&mut text, units.time(recording.first))?;
    put_missing(&mut text, module, columns, recording)?;
    put_clockless(&mut text, module)?;
    put_still(&mut text, module, recording)?;
    put_collisions(&mut text, module, recording, units)?;
    string_of(alloc, &text)
}
