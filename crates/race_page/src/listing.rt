// The steps of both runs, side by side.

use crate::files::Files;
use crate::html::{Piece, put, put_all, put_cut};
use crate::time::put_at;
use basis::NoMemory;
use finding_text::{named_log, port_of, put_port};
use race_findings::{Setting, Statements};
use race_words::put_value;
use run_pair::{Change, Row, Runs, Seen, Steps};
use std::alloc::Global;
use vdesign::design::{Design, Variable};
use vsrc::Place;

// How many bytes of a statement are shown.
const SOURCE: usize = 60;

// How many bytes of a value.
const VALUE: usize = 24;

// What steps are told of.
#[derive(Clone, Copy)]
pub(crate) struct Subject<'a> {
    pub(crate) alloc: Global,
    pub(crate) setting: Setting<'a>,
    pub(crate) files: &'a Files<'a>,
    pub(crate) statements: &'a Option<Statements>,
}

// The name of a file without its folders.
fn own_name(path: &[u8]) -> &[u8] {
    for back in 0..path.len() {
        let (front, name) = path.split_at(path.len().saturating_sub(back));
        if front.ends_with(b"/") {
            return name;
        }
    }
    path
}

/// The time of the slot in which the runs part, if that has an end.
pub(crate) fn slot_of(runs: &Runs) -> Option<u64> {
    match runs.parent.steps.time {
        Some(time) => Some(time),
        None => runs.departed.steps.time,
    }
}

// The heading of the steps, with the slot of this time; without one they go to the end of the run.
fn put_heading(page: &mut Vec<u8>, design: &Design, time: Option<u64>) -> Result<(), NoMemory> {
    put(
        page,
        "<h3>The steps from where the runs part to the end of ",
    )?;
    match time {
        None => put(page, "the run</h3>\n"),
        Some(time) => put_at(page, design, "the slot at ", time, "</h3>\n"),
    }
}

/// `tb.v:10`, behind this mark.
pub(crate) fn put_line_of(
    page: &mut Vec<u8>,
    mark: &str,
    files: &Files<'_>,
    place: Place,
) -> Result<(), NoMemory> {
    let name = own_name(files.name(place.file).as_bytes());
    let line = Piece::Number(place.line as u64);
    put(page, mark)?;
    put_all(page, &[Piece::Text(name), Piece::Mark(":"), line])
}

// So many steps that aren't listed.
fn put_gap(page: &mut Vec<u8>, gap: u64) -> Result<(), NoMemory> {
    let what = match gap {
        0 => return Ok(()),
        1 => " step is left out</td></tr>\n",
        _ => " steps are left out</td></tr>\n",
    };
    put_all(
        page,
        &[
            Piece::Mark("<tr><td colspan=\"4\" class=\"gap\">"),
            Piece::Number(gap),
            Piece::Mark(what),
        ],
    )
}

// Behind this mark `tb.a: 0 → 1`, of this variable.
fn put_change<'x>(
    alloc: Global,
    page: &mut Vec<u8>,
    mark: &'x str,
    variable: &'x Variable,
    change: &Change,
) -> Result<(), NoMemory> {
    let (mut before, mut after) = (Vec::new(alloc), Vec::new(alloc));
    put_value(&mut before, variable, change.before)?;
    put_value(&mut after, variable, change.after)?;
    put_all(
        page,
        &[
            Piece::Mark(mark),
            Piece::Text(&variable.name),
            Piece::Mark(": "),
            Piece::Cut(&before, VALUE),
            Piece::Mark(" → "),
            Piece::Cut(&after, VALUE),
        ],
    )
}

impl<'a> Subject<'a> {
    // What the step changes.
    fn put_changes(&self, page: &mut Vec<u8>, row: &Row) -> Result<(), NoMemory> {
        let design = self.setting.design;
        let mut mark = "";
        for change in &row.changes {
            if let Some(variable) = design.variables.get(change.variable) {
                put_change(self.alloc, page, mark, variable, change)?;
            }
            mark = "<br>";
        }
        if row.more == 0 {
            return Ok(());
        }
        put_all(
            page,
            &[
                Piece::Mark("<br>and "),
                Piece::Number(row.more),
                Piece::Mark(" more"),
            ],
        )
    }

    // What the statement of the action says; of a port connection which port of which instance it is: `.d(q) of u1`.
    fn put_source(&self, page: &mut Vec<u8>, action: usize, place: Place) -> Result<(), NoMemory> {
        match port_of(self.setting.design, self.files.sources(), action) {
            None => put_cut(page, self.files.source(place), SOURCE),
            Some(port) => {
                let mut text = Vec::new(self.alloc);
                put_port(&mut text, port)?;
                put_cut(page, &text, SOURCE)
            }
        }
    }

    // Where the statement of the action stands, and what it says.
    fn put_statement(&self, page: &mut Vec<u8>, action: Option<usize>) -> Result<(), NoMemory> {
        let Some(action) = action else {
            return put(page, "<td></td><td>a nonblocking update</td>");
        };
        let Some(place) = self.files.place(action) else {
            return put(page, "<td></td><td></td>");
        };
        put_line_of(page, "<td class=\"line-of\">", self.files, place)?;
        put(page, "</td><td>")?;
        self.put_source(page, action, place)?;
        put(page, "</td>")
    }

    // Whether the step is of one of the two statements that race. A process that went another way is somewhere else there.
    fn races(&self, row: &Row) -> bool {
        match (self.statements, row.action) {
            (Some(both), Some(action)) => {
                row.races && (action == both.first.action || action == both.second.action)
            }
            _ => row.races,
        }
    }

    // A step; one of the two that race is marked.
    fn put_row(&self, page: &mut Vec<u8>, row: &Row) -> Result<(), NoMemory> {
        put_gap(page, row.gap)?;
        let front = if self.races(row) {
            "<tr class=\"races\"><td class=\"number\">"
        } else {
            "<tr><td class=\"number\">"
        };
        put_all(
            page,
            &[
                Piece::Mark(front),
                Piece::Number(u64::from(row.number)),
                Piece::Mark("</td>"),
            ],
        )?;
        self.put_statement(page, row.action)?;
        put(page, "<td>")?;
        self.put_changes(page, row)?;
        put(page, "</td></tr>\n")
    }

    // The steps of a run.
    fn put_steps(&self, page: &mut Vec<u8>, steps: &Steps) -> Result<(), NoMemory> {
        for row in &steps.rows {
            self.put_row(page, row)?;
        }
        Ok(())
    }

    // The name of a run, its log as `--log` takes it, and what the columns of its steps are.
    fn put_front(&self, page: &mut Vec<u8>, name: &str, seen: &Seen) -> Result<(), NoMemory> {
        let log = named_log(self.alloc, self.setting, &seen.log)?;
        put(
            page,
            "<div class=\"wide\" tabindex=\"0\"><table>\n<caption>",
        )?;
        put(page, name)?;
        put_all(
            page,
            &[
                Piece::Mark(": <code>--log "),
                Piece::Text(&log),
                Piece::Mark(
                    "</code></caption>\n<tr><th scope=\"col\">step</th><th scope=\"col\">line</th>",
                ),
                Piece::Mark(
                    "<th scope=\"col\">statement</th><th scope=\"col\">changes</th></tr>\n",
                ),
            ],
        )
    }

    // The steps of a run, under its name.
    fn put_run(&self, page: &mut Vec<u8>, name: &str, seen: &Seen) -> Result<(), NoMemory> {
        self.put_front(page, name, seen)?;
        self.put_steps(page, &seen.steps)?;
        put(page, "</table></div>\n")
    }

    /// The steps of both runs side by side, from the one at which they part to the end of its slot.
    pub(crate) fn put_listing(&self, page: &mut Vec<u8>, runs: &Runs) -> Result<(), NoMemory> {
        put_heading(page, self.setting.design, slot_of(runs))?;
        put(page, "<div class=\"runs\">\n")?;
        self.put_run(page, "default", &runs.parent)?;
        self.put_run(page, "departed", &runs.departed)?;
        put(page, "</div>\n")
    }
}
