// One lane of a figure: what a variable is at each time, in one run.

use crate::html::put;
use crate::shape::{Extent, put_rectangle, put_text};
use basis::NoMemory;
use race_words::put_value;
use std::alloc::Global;
use vbits::Vec4;
use vdesign::design::Variable;

/// How wide a column of a figure is, and how high a lane.
pub(crate) const WIDTH: u64 = 96;

pub(crate) const HEIGHT: u64 = 22;

// How a value is drawn.
#[derive(Clone, Copy, PartialEq, Eq)]
enum Look {
    // One bit: a low or a high line.
    Low,
    High,
    // A vector whose bits are known.
    Number,
    // What has bits that are x, or z.
    Unknown,
}

/// A value that stays for some columns: the first of them, how many, and the value.
#[derive(Clone, Copy)]
struct Span {
    from: usize,
    count: usize,
    value: Vec4,
}

// How the value is drawn.
fn look_of(value: Vec4) -> Look {
    let (ones, unknown) = value.planes();
    if unknown != 0 {
        Look::Unknown
    } else if value.len() > 1 {
        Look::Number
    } else if ones == 0 {
        Look::Low
    } else {
        Look::High
    }
}

// Whether the value is that of the span.
fn is_of(span: Span, value: Vec4) -> bool {
    span.value.planes() == value.planes()
}

// One column more, with this value.
fn put_column(spans: &mut Vec<Span>, column: usize, value: Vec4) -> Result<(), NoMemory> {
    if let Some(last) = spans.last_mut() {
        if is_of(*last, value) {
            last.count = last.count.saturating_add(1);
            return Ok(());
        }
    }
    spans.push(Span {
        from: column,
        count: 1,
        value,
    })?;
    Ok(())
}

// The values, column by column, as spans. A run has no value behind its end.
fn spans_of(alloc: Global, values: &[Option<Vec4>]) -> Result<Vec<Span>, NoMemory> {
    let mut spans = Vec::new(alloc);
    for (column, value) in values.iter().enumerate() {
        if let Some(value) = value {
            put_column(&mut spans, column, *value)?;
        }
    }
    Ok(spans)
}

/// Where the column of this number begins.
pub(crate) fn column_at(left: u64, number: usize) -> u64 {
    left.saturating_add(WIDTH.saturating_mul(number as u64))
}

// Where the span stands in a lane.
fn extent_of(span: Span, left: u64, y: u64) -> Extent {
    Extent {
        x: column_at(left, span.from),
        y,
        width: WIDTH.saturating_mul(span.count as u64),
    }
}

// The extent, so much further down, and so much further to the right.
fn translate(extent: Extent, right: u64, down: u64) -> Extent {
    Extent {
        x: extent.x.saturating_add(right),
        y: extent.y.saturating_add(down),
        width: extent.width.saturating_sub(right),
    }
}

// A box with the value in it.
fn put_box(
    alloc: Global,
    page: &mut Vec<u8>,
    variable: &Variable,
    value: Vec4,
    class: &str,
    extent: Extent,
) -> Result<(), NoMemory> {
    let mut text = Vec::new(alloc);
    put_value(&mut text, variable, value)?;
    put_rectangle(page, class, translate(extent, 0, 3), HEIGHT - 6)?;
    put_text(page, "v", translate(extent, 5, 15), &text)
}

// A value where it stays.
fn put_span(
    alloc: Global,
    page: &mut Vec<u8>,
    variable: &Variable,
    value: Vec4,
    extent: Extent,
) -> Result<(), NoMemory> {
    match look_of(value) {
        Look::Low => put_rectangle(page, "l", translate(extent, 0, HEIGHT - 5), 2),
        Look::High => put_rectangle(page, "l", translate(extent, 0, 3), 2),
        Look::Number => put_box(alloc, page, variable, value, "n", extent),
        Look::Unknown => put_box(alloc, page, variable, value, "x", extent),
    }
}

// Whether the value is a low or a high line.
fn is_line(value: Vec4) -> bool {
    match look_of(value) {
        Look::Low => true,
        Look::High => true,
        Look::Number => false,
        Look::Unknown => false,
    }
}

// The edge between two lines.
fn put_edge(
    page: &mut Vec<u8>,
    before: Option<Vec4>,
    value: Vec4,
    extent: Extent,
) -> Result<(), NoMemory> {
    let Some(before) = before else {
        return Ok(());
    };
    if !is_line(before) || !is_line(value) {
        return Ok(());
    }
    let edge = Extent {
        x: extent.x,
        y: extent.y.saturating_add(3),
        width: 2,
    };
    put_rectangle(page, "l", edge, HEIGHT - 6)
}

/// The lane of the variable, whose values are these, column by column; where there is none the run has ended.
pub(crate) fn put_lane(
    alloc: Global,
    page: &mut Vec<u8>,
    variable: &Variable,
    values: &[Option<Vec4>],
    left: u64,
    y: u64,
) -> Result<(), NoMemory> {
    let mut before = None;
    for span in &spans_of(alloc, values)? {
        let extent = extent_of(*span, left, y);
        put_edge(page, before, span.value, extent)?;
        put_span(alloc, page, variable, span.value, extent)?;
        before = Some(span.value);
    }
    put(page, "\n")
}
