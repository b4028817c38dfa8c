// What is told of the default order of a testbench beside the dump that it was made of.

use crate::notes::ToldUnits;
use basis::{NoMemory, Span};
use drive_match::{Answer, Compared, Difference, Extent, NotCompared};
use race_words::pieces::{put_cut, string_of};
use race_words::{Piece, put, put_all};
use std::alloc::Global;

// The most letters of a name that is told.
const LETTERS: usize = 200;

// What may be behind a difference.
const REASON: &[u8] =
    b": the simulator took a race the other way there (--async NAME writes an input by =), or a parameter has another value (--param)";

/// What is compared: the dump, the scope in it, the testbench's module and the instance in it; an input that is posted at time 0, the first time
/// that is compared, and whether all inputs are known from the dump's beginning on; how many of the units that are shown make one of the precision; and the limits.
#[derive(Clone, Copy)]
pub(crate) struct Told<'a> {
    pub dump: &'a str,
    pub scope: &'a [u8],
    pub top: &'a [u8],
    pub instance: &'a [u8],
    pub posted: Option<&'a [u8]>,
    pub from: u64,
    pub knows_all: bool,
    pub parts: u64,
    pub units: ToldUnits,
    pub steps: u64,
    pub seconds: u64,
}

impl Told<'_> {
    // ` at 15ns`, of so many units of the precision.
    fn put_time(&self, text: &mut Vec<u8>, time: u64) -> Result<(), NoMemory> {
        let time = self.units.time(time.saturating_mul(self.parts));
        put_all(
            text,
            &[Piece::Number(time.number()), Piece::Bytes(time.word())],
        )
    }

    // What stands behind the instance's path in the name, with its dot.
    fn inner<'n>(&self, name: &'n [u8]) -> &'n [u8] {
        let outer = self.top.len().saturating_add(self.instance.len());
        let (_, inner) = name.split_at(outer.saturating_add(1).min(name.len()));
        inner
    }

    // `at 15ns tb.dut.q is 8'h00 in theirs.vcd and 8'h11 in the default order`
    fn put_difference(&self, text: &mut Vec<u8>, one: &Difference) -> Result<(), NoMemory> {
        put(text, b"at ")?;
        self.put_time(text, one.time)?;
        put(text, b" ")?;
        put_cut(text, self.scope, LETTERS)?;
        put_cut(text, self.inner(&one.name), LETTERS)?;
        put(text, b" is ")?;
        put(text, &one.told)?;
        put(text, b" in ")?;
        put_cut(text, self.dump.as_bytes(), LETTERS)?;
        put(text, b" and ")?;
        put(text, &one.value)?;
        put(text, b" in the default order")
    }

    // What may be behind the first difference.
    fn put_reason(&self, text: &mut Vec<u8>, one: &Difference) -> Result<(), NoMemory> {
        put(text, REASON)?;
        if !self.knows_all {
            return put(text, b", or it comes of what is x at the beginning");
        }
        match self.posted {
            Some(input) if one.time <= self.from => put_all(
                text,
                &[
                    Piece::Bytes(b", or "),
                    Piece::Cut(input, LETTERS),
                    Piece::Bytes(b" has its first value from the beginning on (--declared "),
                    Piece::Cut(input, LETTERS),
                    Piece::Bytes(b")"),
                ],
            ),
            _ => Ok(()),
        }
    }

    // A line for each, and the reason in the first.
    fn put_differences(&self, text: &mut Vec<u8>, all: &[Difference]) -> Result<(), NoMemory> {
        for (place, one) in all.iter().enumerate() {
            self.put_difference(text, one)?;
            if place == 0 {
                self.put_reason(text, one)?;
            }
            put(text, b"\n")?;
        }
        Ok(())
    }

    // Up to which time it was compared, and why no further.
    fn put_limit(&self, text: &mut Vec<u8>, time: u64, why: &[Piece<'_>]) -> Result<(), NoMemory> {
        put_all(
            text,
            &[
                Piece::Bytes(b"the default order is compared with "),
                Piece::Cut(self.dump.as_bytes(), LETTERS),
                Piece::Bytes(b" up to "),
            ],
        )?;
        self.put_time(text, time)?;
        put_all(text, why)?;
        put(text, b"\n")
    }

    // The same, with a number in the reason.
    fn put_option(
        &self,
        text: &mut Vec<u8>,
        time: u64,
        before: &[u8],
        number: Piece<'_>,
        behind: &[u8],
    ) -> Result<(), NoMemory> {
        let why = [Piece::Bytes(before), number, Piece::Bytes(behind)];
        self.put_limit(text, time, &why)
    }

    // How far it was compared, where that is not to the end.
    fn put_extent(&self, text: &mut Vec<u8>, extent: Extent) -> Result<(), NoMemory> {
        match extent {
            Extent::Whole => Ok(()),
            Extent::Ended(time) => {
                let why: &[u8] = b", where it ends before the dump does";
                self.put_limit(text, time, &[Piece::Bytes(why)])
            }
            Extent::Steps(time) => {
                let steps = Piece::Count(self.steps, b"step");
                self.put_option(text, time, b": it took ", steps, b" (--steps)")
            }
            Extent::Seconds(time) => {
                let seconds = Piece::Count(self.seconds, b"second");
                self.put_option(text, time, b": that took ", seconds, b" (--seconds)")
            }
            Extent::Dump(time, Some(line)) => {
                let line = Piece::Number(line);
                let why: &[u8] = b": a time or a value in line ";
                self.put_option(text, time, why, line, b" fits none of the files")
            }
            Extent::Dump(time, None) => {
                let why: &[u8] = b": the dump can't be read on";
                self.put_limit(text, time, &[Piece::Bytes(why)])
            }
        }
    }

    // What was compared: the first differences, how many other variables differ, and how far.
    fn put_compared(&self, text: &mut Vec<u8>, compared: &Compared) -> Result<(), NoMemory> {
        self.put_differences(text, &compared.told)?;
        if compared.others > 0 {
            let words: &[u8] = if compared.others == 1 {
                b" differs, too\n"
            } else {
                b" differ, too\n"
            };
            let count = Piece::Count(compared.others as u64, b"other variable");
            put_all(text, &[count, Piece::Bytes(words)])?;
        }
        self.put_extent(text, compared.extent)
    }

    // Why nothing was compared.
    fn put_not(&self, text: &mut Vec<u8>, why: NotCompared) -> Result<(), NoMemory> {
        put_all(
            text,
            &[
                Piece::Bytes(b"the default order isn't compared with "),
                Piece::Cut(self.dump.as_bytes(), LETTERS),
            ],
        )?;
        match why {
            NotCompared::Pipe => put(text, b": that is no file, and can't be read twice\n"),
            NotCompared::Path => put(text, b": the path of the scope can't be written\n"),
            NotCompared::Refused => {
                put(
                    text,
                    b": the files are refused with the testbench; vrace races says why\n",
                )
            }
            NotCompared::Unit(unit) => put_unit(text, unit),
            NotCompared::Unread => put(text, b": it can't be read once more\n"),
            NotCompared::Nothing => put(
                text,
                b": it has a value of none of the design's variables\n",
            ),
        }
    }
}

// That a dump of this unit isn't compared with files that say in no unit they count.
fn put_unit(text: &mut Vec<u8>, unit: Span) -> Result<(), NoMemory> {
    put_all(
        text,
        &[
            Piece::Bytes(b": its unit is "),
            Piece::Number(u64::from(unit.count.number())),
            Piece::Bytes(unit.unit.name().as_bytes()),
            Piece::Bytes(b", and the times of files without a timescale are compared in theirs\n"),
        ],
    )
}

/// What is to be told of an answer.
pub(crate) fn answer_words(
    alloc: Global,
    answer: &Answer,
    told: &Told<'_>,
) -> Result<String, NoMemory> {
    let mut text = Vec::new(alloc);
    match answer {
        Answer::Compared(compared) => told.put_compared(&mut text, compared)?,
        Answer::Not(why) => told.put_not(&mut text, *why)?,
    }
    string_of(alloc, &text)
}
