// The values of both runs at the end of the slot that the race is told of, as a table.

use crate::html::{Piece, put, put_all};
use crate::time::put_at;
use basis::NoMemory;
use race_words::put_value;
use run_pair::{Runs, Waves};
use std::alloc::Global;
use vdesign::design::{Design, Variable};

// The value of the variable in a run, in a cell; nothing where the run has ended.
fn put_cell(
    alloc: Global,
    page: &mut Vec<u8>,
    waves: &Waves,
    variable: &Variable,
    number: usize,
    time: u64,
) -> Result<(), NoMemory> {
    let Some(value) = waves.value_at(number, time) else {
        return put(page, "<td>the run has ended</td>");
    };
    let mut text = Vec::new(alloc);
    put_value(&mut text, variable, value)?;
    put_all(
        page,
        &[
            Piece::Mark("<td>"),
            Piece::Text(&text),
            Piece::Mark("</td>"),
        ],
    )
}

// The row of the variable, marked where its values differ.
fn put_row(
    alloc: Global,
    page: &mut Vec<u8>,
    runs: &Runs,
    variable: &Variable,
    number: usize,
) -> Result<(), NoMemory> {
    let time = runs.time;
    let front = if runs.differs(number, time) {
        "<tr class=\"differs\"><th scope=\"row\">"
    } else {
        "<tr><th scope=\"row\">"
    };
    put_all(
        page,
        &[
            Piece::Mark(front),
            Piece::Text(&variable.name),
            Piece::Mark("</th>"),
        ],
    )?;
    put_cell(alloc, page, &runs.parent.waves, variable, number, time)?;
    put_cell(alloc, page, &runs.departed.waves, variable, number, time)?;
    put(page, "</tr>\n")
}

/// The values of these variables, by number, in both runs.
pub(crate) fn put_table(
    alloc: Global,
    page: &mut Vec<u8>,
    runs: &Runs,
    design: &Design,
    shown: &[usize],
) -> Result<(), NoMemory> {
    put_at(
        page,
        design,
        "<div class=\"wide\" tabindex=\"0\"><table>\n<caption>At the end of the slot at ",
        runs.time,
        "</caption>\n<tr><th scope=\"col\">variable</th><th scope=\"col\">default</th><th scope=\"col\">departed</th></tr>\n",
    )?;
    for number in shown {
        if let Some(variable) = design.variables.get(*number) {
            put_row(alloc, page, runs, variable, *number)?;
        }
    }
    put(page, "</table></div>\n")
}
