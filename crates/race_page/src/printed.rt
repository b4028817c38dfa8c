// What both runs print in the slot in which their lines differ.

use crate::html::{Piece, put, put_all};
use crate::time::put_at;
use basis::NoMemory;
use race_findings::{Aspect, Difference, Evidence};
use run_pair::Runs;
use sched_core::Log;
use sched_core::bag::Bag;
use vdesign::design::Design;

// How many bytes of a line are shown.
const LINE: usize = 160;

// The lines that a side shows, if it shows lines.
fn lines_in(evidence: &Evidence) -> Option<&Bag> {
    match evidence {
        Evidence::Value(_) => None,
        Evidence::Lines(lines) => Some(lines),
        Evidence::End(run) => run.lines.as_ref(),
    }
}

// The lines that the slot, or the last one, printed in the run under the log, if that is one of the sides.
fn lines_of<'a>(difference: &'a Difference, log: &Log) -> Option<&'a Bag> {
    for side in &difference.sides {
        if side.log.members() == log.members() {
            return lines_in(&side.evidence);
        }
    }
    None
}

// Whether the lines are those of the other run.
fn are_same(one: Option<&Bag>, other: Option<&Bag>) -> bool {
    match (one, other) {
        (Some(one), Some(other)) => one == other,
        (None, None) => true,
        _ => false,
    }
}

// The lines, one below the other.
fn put_lines(page: &mut Vec<u8>, lines: &Bag) -> Result<(), NoMemory> {
    let mut between = "";
    for line in lines.as_slice() {
        let shown = Piece::Cut(line.as_bytes().trim_ascii_end(), LINE);
        put_all(page, &[Piece::Mark(between), shown])?;
        between = "<br>";
    }
    Ok(())
}

// These lines, if they are known, in a cell.
fn put_cell(page: &mut Vec<u8>, lines: Option<&Bag>) -> Result<(), NoMemory> {
    put(page, "<td>")?;
    match lines {
        None => {}
        Some(lines) if lines.as_slice().is_empty() => put(page, "nothing")?,
        Some(lines) => put_lines(page, lines)?,
    }
    put(page, "</td>")
}

// What stands behind the caption.
const HEADS: &str =
    "</caption>\n<tr><th scope=\"col\">default</th><th scope=\"col\">departed</th></tr>\n<tr class=\"differs\">";

// The front of the table, with the slot in which the lines were printed.
fn put_front(page: &mut Vec<u8>, design: &Design, difference: &Difference) -> Result<(), NoMemory> {
    put(
        page,
        "<div class=\"wide\" tabindex=\"0\"><table>\n<caption>Printed in the ",
    )?;
    match &difference.aspect {
        Aspect::Lines => put_at(page, design, "slot at ", difference.time, HEADS),
        _ => put_all(page, &[Piece::Mark("last slot"), Piece::Mark(HEADS)]),
    }
}

/// Where lines differ in a slot, or in the last one, what it printed in both runs, as a table.
pub(crate) fn put_printed(
    page: &mut Vec<u8>,
    design: &Design,
    difference: &Difference,
    runs: &Runs,
) -> Result<(), NoMemory> {
    let by_default = lines_of(difference, &runs.parent.log);
    let departed = lines_of(difference, &runs.departed.log);
    if are_same(by_default, departed) {
        return Ok(());
    }
    put_front(page, design, difference)?;
    put_cell(page, by_default)?;
    put_cell(page, departed)?;
    put(page, "</tr>\n</table></div>\n")
}
