// The two statements that race in their files, with the lines round them.

use crate::files::Files;
use crate::html::{Piece, put, put_all, put_cut};
use crate::time::put_at;
use basis::NoMemory;
use race_findings::{RacingStatement, Statements};
use std::alloc::Global;
use vdesign::design::Design;
use vsrc::Place;

// How many lines before and after a statement are shown.
const ROUND: usize = 2;

// How many bytes of a line are shown before a statement, and from it on.
const LINE: usize = 160;

// Lines of a file, and the places of the statements in them.
#[derive(Drop)]
struct Block {
    file: usize,
    first: usize,
    last: usize,
    places: Vec<Place>,
}

// The earlier of two columns, as far as they are there.
fn earlier(one: Option<usize>, column: usize) -> Option<usize> {
    match one {
        None => Some(column),
        Some(first) => Some(first.min(column)),
    }
}

// How many bytes of the line the statement has that begins it: up to the semicolon outside of parentheses, or to a comment.
fn length_of(text: &[u8]) -> usize {
    let mut open = 0usize;
    for (at, byte) in text.iter().enumerate() {
        match *byte {
            b'(' => open = open.saturating_add(1),
            b')' => open = open.saturating_sub(1),
            b';' if open == 0 => return at.saturating_add(1),
            b'/' if text.get(at.saturating_add(1)) == Some(&b'/') => return at,
            _ => {}
        }
    }
    text.len()
}

// Behind which column the statement ends that begins in this one.
fn end_of(text: &[u8], column: usize) -> usize {
    match text.get(column..) {
        None => text.len(),
        Some(statement) => column.saturating_add(length_of(statement)),
    }
}

impl Block {
    // The lines round a place.
    fn new(alloc: Global, place: Place) -> Result<Block, NoMemory> {
        let mut places = Vec::new(alloc);
        places.push(place)?;
        Ok(Block {
            file: place.file,
            first: place.line.saturating_sub(ROUND).max(1),
            last: place.line.saturating_add(ROUND),
            places,
        })
    }

    // Whether the lines round the place touch these.
    fn is_near(&self, place: Place) -> bool {
        let reach = ROUND + 1;
        place.file == self.file
            && place.line.saturating_add(reach) >= self.first
            && place.line <= self.last.saturating_add(reach)
    }

    // With the lines round one place more.
    fn add(&mut self, place: Place) -> Result<(), NoMemory> {
        self.first = self.first.min(place.line.saturating_sub(ROUND).max(1));
        self.last = self.last.max(place.line.saturating_add(ROUND));
        self.places.push(place)?;
        Ok(())
    }

    // Behind which column of the line its last statement ends.
    fn end(&self, line: usize, text: &[u8]) -> usize {
        let mut end = 0;
        for place in &self.places {
            if place.line == line {
                end = end.max(end_of(text, place.column));
            }
        }
        end
    }

    // The column in which the first statement of the line begins; none where none does.
    fn column(&self, line: usize) -> Option<usize> {
        let mut column = None;
        for place in &self.places {
            if place.line == line {
                column = earlier(column, place.column);
            }
        }
        column
    }
}

// The text of a line, marked from this column on, up to another one.
fn put_marked(page: &mut Vec<u8>, text: &[u8], column: usize, end: usize) -> Result<(), NoMemory> {
    let Some((front, behind)) = text.split_at_checked(end) else {
        return put_cut(page, text, LINE);
    };
    let Some((before, statement)) = front.split_at_checked(column) else {
        return put_cut(page, text, LINE);
    };
    put_all(
        page,
        &[
            Piece::Cut(before, LINE),
            Piece::Mark("<mark>"),
            Piece::Cut(statement.trim_ascii_end(), LINE),
            Piece::Mark("</mark>"),
            Piece::Cut(behind, LINE),
        ],
    )
}

// The text of a line.
fn put_text(page: &mut Vec<u8>, block: &Block, line: usize, text: &[u8]) -> Result<(), NoMemory> {
    match block.column(line) {
        None => put_cut(page, text, LINE),
        Some(column) => put_marked(page, text, column, block.end(line, text)),
    }
}

// A line with its number. Where the file has no such line, that is told if a statement is to stand there.
fn put_line(
    page: &mut Vec<u8>,
    files: &Files<'_>,
    block: &Block,
    line: usize,
) -> Result<(), NoMemory> {
    let text = files.line(block.file, line);
    if text.is_none() && block.column(line).is_none() {
        return Ok(());
    }
    put_all(
        page,
        &[
            Piece::Mark("<span class=\"line\">"),
            Piece::Number(line as u64),
            Piece::Mark("</span>"),
        ],
    )?;
    match text {
        None => put(page, "<mark>the file has no such line</mark>")?,
        Some(text) => put_text(page, block, line, text)?,
    }
    put(page, "\n")
}

// The lines of a block, under the name of the file.
fn put_block(page: &mut Vec<u8>, files: &Files<'_>, block: &Block) -> Result<(), NoMemory> {
    put_all(
        page,
        &[
            Piece::Mark("<p class=\"file\">"),
            Piece::Text(files.name(block.file).as_bytes()),
            Piece::Mark("</p>\n<pre class=\"source\" tabindex=\"0\">"),
        ],
    )?;
    for line in block.first..block.last.saturating_add(1) {
        put_line(page, files, block, line)?;
    }
    put(page, "</pre>\n")
}

// The place, with those that it is near to, or in a block of its own.
fn put_into(alloc: Global, blocks: &mut Vec<Block>, place: Place) -> Result<(), NoMemory> {
    for block in blocks.iter_mut() {
        if block.is_near(place) {
            return block.add(place);
        }
    }
    blocks.push(Block::new(alloc, place)?)?;
    Ok(())
}

// The place of the action, if that is known.
fn put_action(
    alloc: Global,
    blocks: &mut Vec<Block>,
    files: &Files<'_>,
    action: usize,
) -> Result<(), NoMemory> {
    match files.place(action) {
        None => Ok(()),
        Some(place) => put_into(alloc, blocks, place),
    }
}

// The statement, and where it drives a port connection or an `assign`, that one.
fn put_racing(
    alloc: Global,
    blocks: &mut Vec<Block>,
    files: &Files<'_>,
    racing: &RacingStatement,
) -> Result<(), NoMemory> {
    put_action(alloc, blocks, files, racing.statement)?;
    if racing.action == racing.statement {
        return Ok(());
    }
    put_action(alloc, blocks, files, racing.action)
}

/// The heading of both statements, with the time of the slot in which they race, if that is known.
pub(crate) fn put_heading(
    page: &mut Vec<u8>,
    design: &Design,
    slot: Option<u64>,
) -> Result<(), NoMemory> {
    let words = "<h3>The two statements";
    match slot {
        None => put_all(page, &[Piece::Mark(words), Piece::Mark("</h3>\n")]),
        Some(time) => {
            put(page, words)?;
            put_at(page, design, ", in the slot at ", time, "</h3>\n")
        }
    }
}

/// Both statements in their files, in the order of the parent's run, each with the port connection or the `assign` that it
/// drives and that races; what stands close together is one block.
pub(crate) fn put_sources(
    alloc: Global,
    page: &mut Vec<u8>,
    files: &Files<'_>,
    statements: &Statements,
) -> Result<(), NoMemory> {
    let mut blocks = Vec::new(alloc);
    put_racing(alloc, &mut blocks, files, &statements.first)?;
    put_racing(alloc, &mut blocks, files, &statements.second)?;
    for block in &blocks {
        put_block(page, files, block)?;
    }
    Ok(())
}
