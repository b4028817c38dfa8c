// The two statements that race: where they stand, what they say, and what they do to what both touch.

use crate::connection::{port_of, put_port, variable_of};
use crate::name::name_of;
use crate::place::Sources;
use crate::scope::{instance_of, instances_of};
use basis::NoMemory;
use race_findings::{RacingStatement, Statements, Touched};
use race_words::pieces::{Piece, put, put_all, put_cut};
use std::alloc::Global;
use vdesign::action::{Action, Targets};
use vdesign::design::Design;
use vsrc::Place;

/// How many bytes of a statement are shown.
pub const SOURCE: usize = 40;

// Whether one of the targets is of this variable.
fn is_of_variable(targets: &Targets, number: usize) -> bool {
    for target in targets.as_slice() {
        if variable_of(target) as usize == number {
            return true;
        }
    }
    false
}

// Whether one of the targets is of it.
fn is_target(targets: &Targets, thing: Touched) -> bool {
    match thing {
        Touched::Variable(number) => is_of_variable(targets, number),
        Touched::Event => false,
    }
}

// What a statement that assigns does to it.
fn verb_of_targets(targets: &Targets, thing: Touched) -> &'static [u8] {
    if is_target(targets, thing) {
        b"writes"
    } else {
        b"reads"
    }
}

// What a step of the action does to it. A `<=` only reads in its step; its update writes.
fn verb_of(action: &Action, thing: Touched) -> &'static [u8] {
    match action {
        Action::Assign { targets, .. } => verb_of_targets(targets, thing),
        Action::AssignDelayed { targets, .. } => verb_of_targets(targets, thing),
        Action::ContinuousAssign { targets, .. } => verb_of_targets(targets, thing),
        Action::Trigger(_) => b"triggers",
        Action::EventControl { .. } => b"waits for",
        Action::Wait { .. } => b"waits for",
        _ => b"reads",
    }
}

/// What the statement does to it. An update writes.
pub fn verb(design: &Design, racing: &RacingStatement, thing: Touched) -> &'static [u8] {
    match design.actions.get(racing.action) {
        Some(action) if !racing.is_update => verb_of(action, thing),
        _ => b"writes",
    }
}

// Whether what is done to a thing leaves it as it is.
fn is_look(verb: &[u8]) -> bool {
    verb == b"reads".as_slice() || verb == b"waits for".as_slice()
}

/// Two statements of which one writes what both touch, or triggers it, and the other only looks at it.
#[derive(Clone, Copy)]
pub struct Roles<'a> {
    pub writer: &'a RacingStatement,
    pub reader: &'a RacingStatement,
}

/// Which of the two writes what both touch, where the other one only looks at it.
pub fn roles_of<'a>(design: &Design, statements: &'a Statements) -> Option<Roles<'a>> {
    let (first, second) = (&statements.first, &statements.second);
    let thing = *statements.touched.first()?;
    let looks = (
        is_look(verb(design, first, thing)),
        is_look(verb(design, second, thing)),
    );
    match looks {
        (false, true) => Some(Roles {
            writer: first,
            reader: second,
        }),
        (true, false) => Some(Roles {
            writer: second,
            reader: first,
        }),
        _ => None,
    }
}

// The name of a variable; events have none in a design.
fn thing_words(design: &Design, thing: Touched) -> &[u8] {
    match thing {
        Touched::Event => b"a named event",
        Touched::Variable(number) => name_of(design, number),
    }
}

// `writes tb.a`
fn put_verb(
    text: &mut Vec<u8>,
    design: &Design,
    racing: &RacingStatement,
    thing: Touched,
) -> Result<(), NoMemory> {
    let (verb, words) = (verb(design, racing, thing), thing_words(design, thing));
    put_all(
        text,
        &[Piece::Bytes(verb), Piece::Bytes(b" "), Piece::Bytes(words)],
    )
}

// What the statement does where one of the two ends the run before the other prints or writes.
fn verb_at_end(design: &Design, racing: &RacingStatement) -> &'static [u8] {
    match design.actions.get(racing.action) {
        Some(Action::Finish) => b"cuts the slot",
        Some(Action::Stop) => b"cuts the slot",
        Some(Action::Print { .. }) => b"prints",
        _ => b"writes",
    }
}

/// `writes tb.a`, of the first two things that both touch; of none, where they touch as one ends the run, `cuts the slot` and `prints`.
pub fn put_verbs(
    text: &mut Vec<u8>,
    design: &Design,
    racing: &RacingStatement,
    touched: &[Touched],
) -> Result<(), NoMemory> {
    if touched.is_empty() {
        return put(text, verb_at_end(design, racing));
    }
    for (place, thing) in touched.iter().take(2).enumerate() {
        if place > 0 {
            put(text, b", ")?;
        }
        put_verb(text, design, racing, *thing)?;
    }
    Ok(())
}

// A row of the list of statements: where one stands, what it says, and what it does.
#[derive(Drop)]
struct Row {
    place: Vec<u8>,
    source: Vec<u8>,
    verbs: Vec<u8>,
}

/// `FILE:LINE:COLUMN`, the column from 1; `-` where that isn't known.
pub fn put_place(text: &mut Vec<u8>, sources: &Sources<'_>, action: usize) -> Result<(), NoMemory> {
    let Some(place) = sources.place(action) else {
        return put(text, b"-");
    };
    put_all(
        text,
        &[
            Piece::Cut(sources.name(place.file).as_bytes(), usize::MAX),
            Piece::Bytes(b":"),
            Piece::Number(place.line as u64),
            Piece::Bytes(b":"),
            Piece::Number((place.column as u64).saturating_add(1)),
        ],
    )
}

// What stands at the place of an action: a port connection as `.d(q) of u1`, any other as its source.
fn put_source(
    text: &mut Vec<u8>,
    design: &Design,
    sources: &Sources<'_>,
    action: usize,
) -> Result<(), NoMemory> {
    if let Some(port) = port_of(design, sources, action) {
        return put_port(text, port);
    }
    match sources.place(action) {
        None => Ok(()),
        Some(place) => put_cut(text, sources.source(place).trim_ascii_end(), SOURCE),
    }
}

// The row of the statement of an action.
fn row_of(
    alloc: Global,
    design: &Design,
    sources: &Sources<'_>,
    action: usize,
) -> Result<Row, NoMemory> {
    let mut place = Vec::new(alloc);
    put_place(&mut place, sources, action)?;
    let mut source = Vec::new(alloc);
    put_source(&mut source, design, sources, action)?;
    Ok(Row {
        place,
        source,
        verbs: Vec::new(alloc),
    })
}

/// ` in tb.u1`, where the instance is to be named.
pub fn put_instance(text: &mut Vec<u8>, instance: Option<&[u8]>) -> Result<(), NoMemory> {
    match instance {
        None => Ok(()),
        Some(path) => put_all(text, &[Piece::Bytes(b" in "), Piece::Bytes(path)]),
    }
}

// Puts the rows of one of the two: the statement, with its instance where that is to be named, and where it drives a port connection or an
// `assign`, that one.
fn push_rows(
    alloc: Global,
    rows: &mut Vec<Row>,
    design: &Design,
    sources: &Sources<'_>,
    racing: &RacingStatement,
    touched: &[Touched],
    instance: Option<&[u8]>,
) -> Result<(), NoMemory> {
    let mut row = row_of(alloc, design, sources, racing.statement)?;
    put_instance(&mut row.place, instance)?;
    if racing.statement != racing.action {
        put(&mut row.verbs, b"drives:")?;
        rows.push(row)?;
        row = row_of(alloc, design, sources, racing.action)?;
    }
    put_verbs(&mut row.verbs, design, racing, touched)?;
    rows.push(row)?;
    Ok(())
}

// The greatest width of places, and of sources.
fn widths_of(rows: &[Row]) -> (usize, usize) {
    let (mut place, mut source) = (0, 0);
    for row in rows {
        place = row.place.len().max(place);
        source = row.source.len().max(source);
    }
    (place, source)
}

// A line for a row, with places and sources so wide.
fn put_row(text: &mut Vec<u8>, row: &Row, place: usize, source: usize) -> Result<(), NoMemory> {
    put_all(
        text,
        &[
            Piece::Bytes(b"    "),
            Piece::Padded(&row.place, place),
            Piece::Bytes(b"  "),
            Piece::Padded(&row.source, source),
            Piece::Bytes(b"  "),
            Piece::Bytes(&row.verbs),
            Piece::Bytes(b"\n"),
        ],
    )
}

// A line for each row.
fn put_rows(text: &mut Vec<u8>, rows: &[Row]) -> Result<(), NoMemory> {
    let (place, source) = widths_of(rows);
    for row in rows {
        put_row(text, row, place, source)?;
    }
    Ok(())
}

/// The names of the instances of the two statements, where they are to be named.
pub fn named_instances<'a>(
    design: &'a Design,
    sources: &Sources<'_>,
    statements: &Statements,
) -> (Option<&'a [u8]>, Option<&'a [u8]>) {
    match instances_of(design, sources, statements) {
        None => (None, None),
        Some(instances) => (Some(instances.first), Some(instances.second)),
    }
}

/// A line for each of the two statements, in the order of the parent's run: place, source, and what it does to what both touch; with the
/// instance where both stand in one line and in two instances. After one that drives a port connection or an `assign`, a line for that;
/// and where both are one statement of one instance, a line that says so.
pub fn put_statements(
    alloc: Global,
    text: &mut Vec<u8>,
    design: &Design,
    sources: &Sources<'_>,
    statements: &Statements,
) -> Result<(), NoMemory> {
    let mut rows = Vec::new(alloc);
    let touched = statements.touched.as_slice();
    let (one, other) = named_instances(design, sources, statements);
    let (first, second) = (&statements.first, &statements.second);
    push_rows(alloc, &mut rows, design, sources, first, touched, one)?;
    push_rows(alloc, &mut rows, design, sources, second, touched, other)?;
    put_rows(text, &rows)?;
    put_same(text, design, statements)
}

// Whether both are one action, as a statement that a process takes twice is, or one and the update that it posted.
fn are_one_action(statements: &Statements) -> bool {
    let (first, second) = (&statements.first, &statements.second);
    first.statement == second.statement && first.action == second.action
}

// `    both are one statement of tb.u1, taken twice`, where they are.
fn put_same(text: &mut Vec<u8>, design: &Design, statements: &Statements) -> Result<(), NoMemory> {
    if !are_one_action(statements) {
        return Ok(());
    }
    let words: &[u8] = match (statements.first.is_update, statements.second.is_update) {
        (true, true) => b": two updates that it posted\n",
        (false, false) => b", taken twice\n",
        _ => b": when it is taken, and the update that it posted\n",
    };
    put(text, b"    both are one statement")?;
    if let Some(path) = instance_of(design, statements.first.statement) {
        put_all(text, &[Piece::Bytes(b" of "), Piece::Bytes(path)])?;
    }
    put(text, words)
}

/// A line for the statement of an action that ends the run.
pub fn put_ending(
    alloc: Global,
    text: &mut Vec<u8>,
    design: &Design,
    sources: &Sources<'_>,
    action: usize,
) -> Result<(), NoMemory> {
    let mut row = row_of(alloc, design, sources, action)?;
    put(&mut row.verbs, b"ends the run")?;
    let mut rows = Vec::new(alloc);
    rows.push(row)?;
    put_rows(text, &rows)
}

// Which of two places comes first.
fn put_first_place(
    text: &mut Vec<u8>,
    sources: &Sources<'_>,
    here: Place,
    there: Place,
) -> Result<(), NoMemory> {
    let (line, column) = (here.line as u64, (here.column as u64).saturating_add(1));
    if here.file != there.file {
        let name = sources.name(here.file).as_bytes();
        put_all(
            text,
            &[Piece::Bytes(name), Piece::Bytes(b":"), Piece::Number(line)],
        )
    } else if here.line != there.line {
        put_all(text, &[Piece::Bytes(b"line "), Piece::Number(line)])
    } else {
        put_all(text, &[Piece::Bytes(b"column "), Piece::Number(column)])
    }
}

// Which of two actions comes first, by the places of both, where these are two.
fn put_first_of(
    text: &mut Vec<u8>,
    sources: &Sources<'_>,
    one: usize,
    other: usize,
) -> Result<bool, NoMemory> {
    match (sources.place(one), sources.place(other)) {
        (Some(here), Some(there)) if here != there => {
            put_first_place(text, sources, here, there)?;
            Ok(true)
        }
        _ => Ok(false),
    }
}

// That this port connection comes first: `.d(q) of u1`, if it is one.
fn put_first_port(
    text: &mut Vec<u8>,
    design: &Design,
    sources: &Sources<'_>,
    action: usize,
) -> Result<bool, NoMemory> {
    match port_of(design, sources, action) {
        None => Ok(false),
        Some(port) => {
            put_port(text, port)?;
            Ok(true)
        }
    }
}

// Which of two that stand in one place comes first: of two connections that one statement drives, this one; else whether it is the one that is
// listed first.
fn put_first_listed(
    text: &mut Vec<u8>,
    design: &Design,
    sources: &Sources<'_>,
    one: &RacingStatement,
    other: &RacingStatement,
    listed: &[u8],
) -> Result<(), NoMemory> {
    let (action, second) = (one.action, other.action);
    if action != second
        && (put_first_of(text, sources, action, second)?
            || put_first_port(text, design, sources, action)?)
    {
        return Ok(());
    }
    put(text, listed)
}

// Which of the two comes first: `in tb.u1`, where both stand in one line and in two instances; `line 10`; where both stand in one line of one
// instance `column 24`, where they stand in two files `tb.v:10`.
fn put_first(
    text: &mut Vec<u8>,
    design: &Design,
    sources: &Sources<'_>,
    one: &RacingStatement,
    other: &RacingStatement,
    instance: Option<&[u8]>,
    listed: &[u8],
) -> Result<(), NoMemory> {
    if let Some(path) = instance {
        put_all(text, &[Piece::Bytes(b"in "), Piece::Bytes(path)])?;
    } else if !put_first_of(text, sources, one.statement, other.statement)? {
        put_first_listed(text, design, sources, one, other, listed)?;
    }
    put(text, b" first")
}

// What is said of the one that is listed first, and of the other, where nothing tells them apart.
const LISTED_FIRST: &[u8] = b"the one that is listed first comes";

const LISTED_SECOND: &[u8] = b"the one that is listed second comes";

/// That the one comes first which does so in the parent's run.
pub fn put_usual_order(
    text: &mut Vec<u8>,
    design: &Design,
    sources: &Sources<'_>,
    statements: &Statements,
) -> Result<(), NoMemory> {
    let (first, second) = (&statements.first, &statements.second);
    let (one, _) = named_instances(design, sources, statements);
    put_first(text, design, sources, first, second, one, LISTED_FIRST)
}

/// That the other one comes first.
pub fn put_other_order(
    text: &mut Vec<u8>,
    design: &Design,
    sources: &Sources<'_>,
    statements: &Statements,
) -> Result<(), NoMemory> {
    let (first, second) = (&statements.first, &statements.second);
    let (_, other) = named_instances(design, sources, statements);
    put_first(text, design, sources, second, first, other, LISTED_SECOND)
}
