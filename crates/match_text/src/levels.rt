// What is told of a number of departures a slot with which no run has the values of the dump, before more are tried.

use basis::NoMemory;
use finding_text::{put_end, put_time};
use race_findings::Differing;
use race_words::pieces::put_cut;
use race_words::{Piece, put, put_all, put_value};
use sched_core::end::End;
use std::alloc::Global;
use vdesign::design::Design;

/// A number of departures a slot, `most`, with which no run has the values that a dump shows at a time; what differs then in the run that
/// differs least, and where that run has ended, if it has. `of` is the dump's name where there are two of them, or `both`; else nothing. `dump` says
/// which dump has the values that differ.
#[derive(Clone, Copy)]
pub struct Refuted<'a> {
    pub design: &'a Design,
    pub of: &'a str,
    pub dump: &'a str,
    pub most: u32,
    pub time: u64,
    pub differing: &'a [Differing],
    pub end: Option<End>,
}

// `theirs.vcd: `, where there is a name.
fn put_name(text: &mut Vec<u8>, name: &str) -> Result<(), NoMemory> {
    if name.is_empty() {
        return Ok(());
    }
    put_all(
        text,
        &[Piece::Cut(name.as_bytes(), usize::MAX), Piece::Bytes(b": ")],
    )
}

// `not explained with at most 2 departures in a slot: at 105ns `
fn put_level(text: &mut Vec<u8>, refuted: &Refuted<'_>) -> Result<(), NoMemory> {
    let design = refuted.design;
    if refuted.most == 0 {
        put(text, b"not explained without a departure: at ")?;
    } else {
        let most = Piece::Count(u64::from(refuted.most), b"departure");
        let words = Piece::Bytes(b"not explained with at most ");
        put_all(text, &[words, most, Piece::Bytes(b" in a slot: at ")])?;
    }
    put_time(text, design, refuted.time)?;
    put(text, b" ")
}

// `tb.q is 1 in the dump and 0 in the nearest run`
fn put_first(
    text: &mut Vec<u8>,
    design: &Design,
    dump: &str,
    differing: &Differing,
) -> Result<(), NoMemory> {
    let Some(variable) = design.variables.get(differing.variable) else {
        return Ok(());
    };
    put(text, &variable.name)?;
    put(text, b" is ")?;
    put_value(text, variable, differing.told)?;
    put(text, b" in ")?;
    put_cut(text, dump.as_bytes(), usize::MAX)?;
    put(text, b" and ")?;
    put_value(text, variable, differing.value)?;
    put(text, b" in the nearest run")
}

// `, and 3 other variables differ`
fn put_others(text: &mut Vec<u8>, others: usize) -> Result<(), NoMemory> {
    let words: &[u8] = match others {
        0 => return Ok(()),
        1 => b" differs",
        _ => b" differ",
    };
    let count = Piece::Count(others as u64, b"other variable");
    put_all(text, &[Piece::Bytes(b", and "), count, Piece::Bytes(words)])
}

// `the nearest run has ended by $finish at 45`
fn put_ended(text: &mut Vec<u8>, refuted: &Refuted<'_>) -> Result<(), NoMemory> {
    put(text, b"the nearest run has ended by ")?;
    put_end(text, refuted.design, refuted.end)
}

// What differs first.
fn put_differing(text: &mut Vec<u8>, refuted: &Refuted<'_>) -> Result<(), NoMemory> {
    let Some(first) = refuted.differing.first() else {
        return put(text, b"no run is left");
    };
    put_first(text, refuted.design, refuted.dump, first)?;
    put_others(text, refuted.differing.len().saturating_sub(1))
}

/// A line: with how many departures a slot the dump isn't explained, at which time, and what differs there first, or where the run that
/// differs least has ended.
pub fn level_words(alloc: Global, refuted: &Refuted<'_>) -> Result<Vec<u8>, NoMemory> {
    let mut text = Vec::new(alloc);
    put_name(&mut text, refuted.of)?;
    put_level(&mut text, refuted)?;
    if refuted.end.is_some() {
        put_ended(&mut text, refuted)?;
    } else {
        put_differing(&mut text, refuted)?;
    }
    put(&mut text, b"\n")?;
    Ok(text)
}
