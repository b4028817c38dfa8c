// How runs end: that none does, and the values alone that a cut slot leaves.

use crate::summary::Findings;
use basis::NoMemory;
use finding_text::difference::put_values;
use finding_text::name::name_of;
use finding_text::statements::put_place;
use finding_text::time::put_time;
use race_findings::{Apart, Difference, EndlessSlot};
use race_words::pieces::{Piece, put, put_all};
use vdesign::design::Design;

/// `no run ends: the default run never leaves 1 (tb.v:2:10)`
pub fn put_endless(
    text: &mut Vec<u8>,
    findings: &Findings<'_>,
    slot: EndlessSlot,
) -> Result<(), NoMemory> {
    put(text, b"no run ends: the default run never leaves ")?;
    put_time(text, findings.setting.design, slot.time)?;
    if let Some(action) = slot.action {
        put(text, b" (")?;
        put_place(text, findings.sources, action)?;
        put(text, b")")?;
    }
    Ok(())
}

/// A line for each of both, where there is something to tell.
pub fn put_ends(text: &mut Vec<u8>, findings: &Findings<'_>) -> Result<(), NoMemory> {
    if let Some(slot) = findings.reach.endless {
        put_endless(text, findings, slot)?;
        put(text, b"\n")?;
    }
    if let Some(difference) = findings.cut_values {
        put_cut_values(text, findings, difference)?;
        put(text, b"\n")?;
    }
    Ok(())
}

// `tb.clk is 0 or 1`
fn put_variable(
    text: &mut Vec<u8>,
    design: &Design,
    difference: &Difference,
    number: usize,
) -> Result<(), NoMemory> {
    let name = Piece::Bytes(name_of(design, number));
    put_all(text, &[name, Piece::Bytes(b" is ")])?;
    put_values(text, design, difference, number)
}

// The first of the variables, and how many more there are.
fn put_variables(
    text: &mut Vec<u8>,
    design: &Design,
    difference: &Difference,
    apart: &Apart,
    most: usize,
) -> Result<(), NoMemory> {
    for (place, number) in apart.variables.iter().take(most).enumerate() {
        let opening: &[u8] = if place == 0 { b": " } else { b", " };
        put(text, opening)?;
        put_variable(text, design, difference, *number)?;
    }
    if apart.variables.len() <= most {
        return Ok(());
    }
    let more = apart.variables.len().saturating_sub(most) as u64;
    put_all(
        text,
        &[
            Piece::Bytes(b" and "),
            Piece::Number(more),
            Piece::Bytes(b" more"),
        ],
    )
}

/// `The values at the end, 50, depend on the order: tb.clk is 0 or 1.`
pub fn put_cut_values(
    text: &mut Vec<u8>,
    findings: &Findings<'_>,
    difference: &Difference,
) -> Result<(), NoMemory> {
    let Some(apart) = difference.apart() else {
        return Ok(());
    };
    let design = findings.setting.design;
    put(text, b"The values at the end, ")?;
    put_time(text, design, difference.time)?;
    put(text, b", depend on the order")?;
    put_variables(
        text,
        design,
        difference,
        apart,
        findings.summary.named_count(),
    )?;
    put(text, b".")
}
