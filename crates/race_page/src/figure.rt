// The waveforms of both runs round a slot, as SVG.

use crate::html::{Piece, put, put_all};
use crate::lane::{HEIGHT, WIDTH, column_at, put_lane};
use crate::shape::{Extent, put_rectangle, put_text};
use crate::signals::Signals;
use basis::NoMemory;
use finding_text::put_time;
use run_pair::{Runs, Waves};
use std::alloc::Global;
use vbits::Vec4;
use vdesign::design::{Design, Variable};

// Where the first signal begins.
const TOP: u64 = 30;

// How high a signal is: two lanes, and some room.
const SIGNAL: u64 = 2 * HEIGHT + 10;

// How wide the names of runs are, and names of variables at least and at most.
const RUN: u64 = 72;

const NARROWEST: u64 = 60;

const WIDEST: u64 = 320;

// A figure: what it shows, and where its first column begins.
#[derive(Clone, Copy)]
struct Figure<'a> {
    alloc: Global,
    runs: &'a Runs,
    design: &'a Design,
    left: u64,
}

// How wide the name of the variable is, with some room.
fn width_of(variables: &[Variable], number: usize) -> u64 {
    match variables.get(number) {
        None => 0,
        Some(variable) => (variable.name.len() as u64)
            .saturating_mul(8)
            .saturating_add(16),
    }
}

// Where the first column begins, behind the widest name.
fn left_of(variables: &[Variable], shown: &[usize]) -> u64 {
    let mut widest = NARROWEST;
    for number in shown {
        widest = widest.max(width_of(variables, *number));
    }
    widest.min(WIDEST).saturating_add(RUN)
}

// What the variable is in a run, column by column.
fn values_of(
    alloc: Global,
    waves: &Waves,
    variable: usize,
    columns: &[u64],
) -> Result<Vec<Option<Vec4>>, NoMemory> {
    let mut values = Vec::new(alloc);
    for time in columns {
        values.push(waves.value_at(variable, *time))?;
    }
    Ok(values)
}

impl<'a> Figure<'a> {
    // The place of a column, at this height.
    fn extent(&self, column: usize, y: u64) -> Extent {
        Extent {
            x: column_at(self.left, column),
            y,
            width: WIDTH,
        }
    }

    // A time over its column; the column of the slot that the race is told of is marked.
    fn put_time(
        &self,
        page: &mut Vec<u8>,
        column: usize,
        time: u64,
        height: u64,
    ) -> Result<(), NoMemory> {
        let is_slot = time == self.runs.time;
        if is_slot {
            put_rectangle(page, "slot", self.extent(column, 0), height)?;
        }
        let mut text = Vec::new(self.alloc);
        put_time(&mut text, self.design, time)?;
        let extent = Extent {
            x: column_at(self.left, column).saturating_add(4),
            y: 18,
            width: WIDTH,
        };
        let class = if is_slot { "time now" } else { "time" };
        put_text(page, class, extent, &text)
    }

    // What the numbers over the columns are.
    fn put_axis(&self, page: &mut Vec<u8>) -> Result<(), NoMemory> {
        let extent = Extent {
            x: 4,
            y: 18,
            width: self.left.saturating_sub(8),
        };
        put_text(page, "axis", extent, b"slot at")
    }

    // The times over the columns.
    fn put_times(&self, page: &mut Vec<u8>, height: u64) -> Result<(), NoMemory> {
        self.put_axis(page)?;
        for (column, time) in self.runs.columns.iter().enumerate() {
            self.put_time(page, column, *time, height)?;
        }
        put(page, "\n")
    }

    // Marks the columns in which the variable differs.
    fn put_marks(&self, page: &mut Vec<u8>, variable: usize, y: u64) -> Result<(), NoMemory> {
        for (column, time) in self.runs.columns.iter().enumerate() {
            if self.runs.differs(variable, *time) {
                put_rectangle(page, "differs", self.extent(column, y), 2 * HEIGHT)?;
            }
        }
        Ok(())
    }

    // The name of a run before its lane.
    fn put_run(&self, page: &mut Vec<u8>, name: &[u8], y: u64) -> Result<(), NoMemory> {
        let extent = Extent {
            x: self.left.saturating_sub(RUN),
            y: y.saturating_add(15),
            width: RUN,
        };
        put_text(page, "run", extent, name)
    }

    // The name of the variable, marked where the variable differs.
    fn put_name(
        &self,
        page: &mut Vec<u8>,
        number: usize,
        name: &[u8],
        y: u64,
    ) -> Result<(), NoMemory> {
        let extent = Extent {
            x: 4,
            y: y.saturating_add(15),
            width: self.left.saturating_sub(RUN + 8),
        };
        let differs = self.runs.differs_somewhere(number);
        put_text(
            page,
            if differs { "name odd" } else { "name" },
            extent,
            name,
        )
    }

    // A signal: its name, its lane in the parent, and its lane in the run that departs.
    fn put_signal(
        &self,
        page: &mut Vec<u8>,
        number: usize,
        variable: &Variable,
        y: u64,
    ) -> Result<(), NoMemory> {
        let Figure {
            alloc,
            runs,
            left,
            ..
        } = *self;
        self.put_marks(page, number, y)?;
        self.put_name(page, number, &variable.name, y)?;
        self.put_run(page, b"default", y)?;
        let values = values_of(alloc, &runs.parent.waves, number, &runs.columns)?;
        put_lane(alloc, page, variable, &values, left, y)?;
        let y = y.saturating_add(HEIGHT);
        self.put_run(page, b"departed", y)?;
        let values = values_of(alloc, &runs.departed.waves, number, &runs.columns)?;
        put_lane(alloc, page, variable, &values, left, y)
    }

    // The signals of these numbers, one below the other.
    fn put_signals(&self, page: &mut Vec<u8>, shown: &[usize]) -> Result<(), NoMemory> {
        let design = self.design;
        for (place, number) in shown.iter().enumerate() {
            if let Some(variable) = design.variables.get(*number) {
                let y = TOP.saturating_add(SIGNAL.saturating_mul(place as u64));
                self.put_signal(page, *number, variable, y)?;
            }
        }
        Ok(())
    }
}

// The front of the picture, of this width and height.
fn put_front(page: &mut Vec<u8>, width: u64, height: u64) -> Result<(), NoMemory> {
    put_all(
        page,
        &[
            Piece::Mark(
                "<figure tabindex=\"0\">\n<svg role=\"img\" aria-label=\"waveforms of both runs; ",
            ),
            Piece::Mark("the table below has the values of the marked slot\" width=\""),
            Piece::Number(width),
            Piece::Mark("\" height=\""),
            Piece::Number(height),
            Piece::Mark("\">\n"),
        ],
    )
}

// How many variables that differ aren't shown.
fn put_left_out(page: &mut Vec<u8>, left_out: u64) -> Result<(), NoMemory> {
    let what = match left_out {
        0 => return Ok(()),
        1 => " more variable differs here and is left out.</p>\n",
        _ => " more variables differ here and are left out.</p>\n",
    };
    put_all(
        page,
        &[
            Piece::Mark("<p>"),
            Piece::Number(left_out),
            Piece::Mark(what),
        ],
    )
}

/// The waveforms of both runs round the slot that the race is told of.
pub(crate) fn put_figure(
    alloc: Global,
    page: &mut Vec<u8>,
    runs: &Runs,
    design: &Design,
    signals: &Signals,
) -> Result<(), NoMemory> {
    let left = left_of(&design.variables, &signals.shown);
    let figure = Figure {
        alloc,
        runs,
        design,
        left,
    };
    let rows = SIGNAL.saturating_mul(signals.shown.len() as u64);
    let height = TOP.saturating_add(rows);
    put_front(page, column_at(left, runs.columns.len()), height)?;
    figure.put_times(page, height)?;
    figure.put_signals(page, &signals.shown)?;
    put(page, "</svg>\n</figure>\n")?;
    put_left_out(page, signals.left_out)
}
