// The units in which the times of a dump count, and those in which a testbench writes its delays.

use basis::{Count, NoMemory, OrMemory, Span, Timescale, Unit};
use drive_text::Change;
use std::alloc::Global;
use vsrc::{SrcFault, expand};

// A nanosecond.
const NANOSECOND: Span = Span {
    count: Count::One,
    unit: Unit::Nanosecond,
};

/// In which unit a dump's times count, in which they are shown, the timescale of the files, and whether they have none written, so that the
/// testbench may choose one.
#[derive(Clone, Copy)]
pub(crate) struct DumpUnits {
    pub told: Span,
    pub shown: Span,
    pub scale: Timescale,
    pub free: bool,
}

/// A timescale for a testbench, or the first time that isn't a whole number of its unit.
#[derive(Clone, Copy)]
pub(crate) enum Written {
    Scale(Timescale),
    Between(u64),
}

// The shorter one.
fn finer(one: Span, other: Span) -> Span {
    if one.femtoseconds() < other.femtoseconds() {
        one
    } else {
        other
    }
}

// How many of the shown units make this one; 1 where they are longer.
fn parts_of(unit: Span, shown: Span) -> u64 {
    unit.femtoseconds()
        .checked_div(shown.femtoseconds())
        .unwrap_or(1)
        .max(1)
}

// The first time of a change that isn't a whole number of so many units.
fn first_between(changes: &[Change], parts: u64) -> Option<u64> {
    for change in changes {
        if change.time.checked_rem(parts).unwrap_or(0) != 0 {
            return Some(change.time);
        }
    }
    None
}

/// Whether a timescale stands in the files.
pub(crate) fn has_timescale(
    alloc: Global,
    texts: &[Vec<u8>],
    scale: Timescale,
) -> Result<bool, NoMemory> {
    if !scale.is_like(Timescale::usual()) {
        return Ok(true);
    }
    let mut all = Vec::new(alloc);
    for text in texts {
        all.push(Vec::from_slice(alloc, text)?)?;
    }
    all.push(Vec::from_slice(alloc, b"`timescale 1fs / 1fs\n")?)?;
    match expand(alloc, &all) {
        Err(OrMemory::Fault(SrcFault::Timescales { .. })) => Ok(true),
        Err(OrMemory::Memory(refused)) => Err(refused),
        _ => Ok(false),
    }
}

impl DumpUnits {
    /// Those of a dump that declares this unit, if it declares one.
    pub(crate) fn of(unit: Option<Span>, scale: Timescale, free: bool) -> DumpUnits {
        let told = unit.unwrap_or(scale.precision);
        DumpUnits {
            told,
            shown: finer(told, scale.precision),
            scale,
            free,
        }
    }

    /// How many of the shown units make one of the files' precision.
    pub(crate) fn of_precision(self) -> u64 {
        parts_of(self.scale.precision, self.shown)
    }

    /// How many of the shown units make one of this timescale's precision.
    pub(crate) fn parts_of_precision(self, scale: Timescale) -> u64 {
        parts_of(scale.precision, self.shown)
    }

    /// How many of the shown units make one of this timescale.
    pub(crate) fn of_unit(self, scale: Timescale) -> u64 {
        parts_of(scale.unit, self.shown)
    }

    // The timescale of files that have none: in nanoseconds where that does, else in the dump's unit.
    fn chosen(self, changes: &[Change]) -> Timescale {
        let is_long = self.told.femtoseconds() >= NANOSECOND.femtoseconds();
        let between = first_between(changes, parts_of(NANOSECOND, self.shown));
        Timescale {
            unit: if is_long || between.is_some() {
                self.told
            } else {
                NANOSECOND
            },
            precision: self.told,
        }
    }

    /// The timescale for a testbench with these changes, whose times are those that are shown.
    pub(crate) fn written(self, changes: &[Change]) -> Written {
        if self.free {
            return Written::Scale(self.chosen(changes));
        }
        match first_between(changes, parts_of(self.scale.unit, self.shown)) {
            Some(time) => Written::Between(time),
            None => Written::Scale(self.scale),
        }
    }
}
