// Where statements stand, as SARIF has it: files by their URIs, columns by code points.

use crate::sarif::message;
use basis::NoMemory;
use finding_text::difference::Subject;
use finding_text::statements::{SOURCE, put_instance, put_verbs, roles_of};
use race_findings::{RacingStatement, Statements, Touched};
use race_words::members::{Items, Members};
use race_words::pieces::{Piece, put, put_all};
use serde_json::Value;
use std::alloc::Global;
use vsrc::Place;

/// The location of a result, and those that go with it.
#[derive(Drop)]
pub struct Locations {
    pub first: Items,
    pub others: Items,
}

// A digit of an escape in a URI.
fn escape_digit(n: u8) -> u8 {
    if n < 10 {
        b'0'.saturating_add(n)
    } else {
        b'A'.saturating_add(n.saturating_sub(10))
    }
}

// Whether the byte stands in a URI as it is (RFC 3986, 2.3), or parts its segments.
fn is_plain(byte: u8) -> bool {
    byte.is_ascii_alphanumeric() || matches!(byte, b'-' | b'.' | b'_' | b'~' | b'/')
}

// The URI of a file: relative where its name is, of the scheme `file` where that begins with `/`.
fn uri_of(alloc: Global, name: &[u8]) -> Result<Vec<u8>, NoMemory> {
    let mut uri = Vec::new(alloc);
    if name.first() == Some(&b'/') {
        uri.extend_from_slice(b"file://")?;
    }
    for byte in name {
        if is_plain(*byte) {
            uri.push(*byte)?;
        } else {
            uri.push(b'%')?;
            uri.push(escape_digit(*byte / 16))?;
            uri.push(escape_digit(*byte % 16))?;
        }
    }
    Ok(uri)
}

// How many code points begin in these bytes.
fn code_points(bytes: &[u8]) -> u64 {
    let mut count = 0u64;
    for byte in bytes {
        if *byte < 128 || *byte >= 192 {
            count = count.saturating_add(1);
        }
    }
    count
}

// The line and column where the statement begins.
fn region(alloc: Global, subject: Subject<'_>, place: Place) -> Result<Value, NoMemory> {
    let before = subject.sources.before(place);
    let mut members = Members::new(alloc);
    members.number("startLine", place.line as u64);
    members.number("startColumn", code_points(before).saturating_add(1));
    members.whole()
}

// A file.
fn artifact(alloc: Global, name: &str) -> Result<Value, NoMemory> {
    let mut members = Members::new(alloc);
    members.made_text("uri", uri_of(alloc, name.as_bytes()));
    members.whole()
}

// A place of a file.
fn physical(alloc: Global, subject: Subject<'_>, place: Place) -> Result<Value, NoMemory> {
    let mut members = Members::new(alloc);
    members.try_value(
        "artifactLocation",
        artifact(alloc, subject.sources.name(place.file)),
    );
    members.try_value("region", region(alloc, subject, place));
    members.whole()
}

// A place, with what is said of it. Each has a number of its own.
fn location(
    alloc: Global,
    subject: Subject<'_>,
    place: Place,
    number: u64,
    text: &[u8],
) -> Result<Value, NoMemory> {
    let mut members = Members::new(alloc);
    members.number("id", number);
    members.try_value("physicalLocation", physical(alloc, subject, place));
    members.try_value("message", message(alloc, text));
    members.whole()
}

// Puts the place of the action, if it is known, with what is said of it.
fn push_location(
    alloc: Global,
    list: &mut Items,
    subject: Subject<'_>,
    action: usize,
    number: u64,
    text: &[u8],
) {
    if let Some(place) = subject.sources.place(action) {
        list.try_value(location(alloc, subject, place, number, text));
    }
}

// The place of an action, if it is known.
fn place_of(subject: Subject<'_>, action: Option<usize>) -> Option<Place> {
    subject.sources.place(action?)
}

// The place of the action that ends the run or, where that isn't known, the first line of the first file.
fn place_of_end(alloc: Global, subject: Subject<'_>) -> Result<Value, NoMemory> {
    let first = Place {
        file: 1,
        line: 1,
        column: 0,
    };
    match place_of(subject, subject.finding.ending) {
        None => location(
            alloc,
            subject,
            first,
            1,
            b"which statements race was not found",
        ),
        Some(place) => location(alloc, subject, place, 1, b"ends the run"),
    }
}

/// Where no two statements are known: the place of the action that ends the run or, where that isn't known, the first line of the first
/// file, as code hosts ask for a place.
pub fn location_of_end(alloc: Global, subject: Subject<'_>) -> Result<Value, NoMemory> {
    let mut list = Items::new(alloc);
    list.try_value(place_of_end(alloc, subject));
    list.whole()
}

// What the statement does to what both touch.
fn verbs(
    alloc: Global,
    subject: Subject<'_>,
    racing: &RacingStatement,
    touched: &[Touched],
) -> Result<Vec<u8>, NoMemory> {
    let mut verbs = Vec::new(alloc);
    put_verbs(&mut verbs, subject.setting.design, racing, touched)?;
    Ok(verbs)
}

// Puts a statement into the first list and, where it drives a port connection or an `assign`, that one into the second.
fn push_statement(
    alloc: Global,
    statements: &mut Items,
    connections: &mut Items,
    subject: Subject<'_>,
    racing: &RacingStatement,
    touched: &[Touched],
    number: u64,
) -> Result<(), NoMemory> {
    let verbs = verbs(alloc, subject, racing, touched)?;
    let (statement, action) = (racing.statement, racing.action);
    if statement == action {
        push_location(alloc, statements, subject, statement, number, &verbs);
    } else {
        let (drives, next) = (b"drives a connection", number.saturating_add(1));
        push_location(alloc, statements, subject, statement, number, drives);
        push_location(alloc, connections, subject, action, next, &verbs);
    }
    Ok(())
}

/// The place of the statement that comes first in the parent's run; and those of the other one, and of connections between them.
pub fn locations_of(
    alloc: Global,
    subject: Subject<'_>,
    statements: &Statements,
) -> Result<Locations, NoMemory> {
    let (mut first, mut others) = (Items::new(alloc), Items::new(alloc));
    let mut ways = Items::new(alloc);
    let touched = statements.touched.as_slice();
    let (one, other) = (&statements.first, &statements.second);
    push_statement(alloc, &mut first, &mut ways, subject, one, touched, 1)?;
    push_statement(alloc, &mut others, &mut ways, subject, other, touched, 3)?;
    others.append(ways);
    Ok(Locations { first, others })
}

/// Puts the place of the statement of a finding that only looks at what the other one writes, with what it does.
pub fn push_reader(
    alloc: Global,
    list: &mut Items,
    subject: Subject<'_>,
    number: u64,
) -> Result<(), NoMemory> {
    let Some(statements) = &subject.finding.statements else {
        return Ok(());
    };
    if let Some(roles) = roles_of(subject.setting.design, statements) {
        let verbs = verbs(alloc, subject, roles.reader, &statements.touched)?;
        push_location(alloc, list, subject, roles.reader.statement, number, &verbs);
    }
    Ok(())
}

// `late.v:3`, if the place of the action is known.
fn put_line(text: &mut Vec<u8>, subject: Subject<'_>, action: usize) -> Result<(), NoMemory> {
    match subject.sources.place(action) {
        None => Ok(()),
        Some(place) => put_all(
            text,
            &[
                Piece::Bytes(subject.sources.name(place.file).as_bytes()),
                Piece::Bytes(b":"),
                Piece::Number(place.line as u64),
            ],
        ),
    }
}

/// What the statement does: `late.v:3 writes tb.a`; by a connection `late.v:3 through late.v:5 writes tb.u.a`; with its instance, where that
/// is to be named, `late.v:3 in tb.u1 writes tb.u1.a`.
pub fn put_deeds(
    text: &mut Vec<u8>,
    subject: Subject<'_>,
    racing: &RacingStatement,
    touched: &[Touched],
    instance: Option<&[u8]>,
) -> Result<(), NoMemory> {
    put_line(text, subject, racing.statement)?;
    put_instance(text, instance)?;
    if racing.statement != racing.action {
        put(text, b" through ")?;
        put_line(text, subject, racing.action)?;
    }
    put(text, b" ")?;
    put_verbs(text, subject.setting.design, racing, touched)
}

// What the statement says and does, with its file, but not with its line, which moves with the text round it.
fn put_known_by(
    text: &mut Vec<u8>,
    subject: Subject<'_>,
    racing: &RacingStatement,
    touched: &[Touched],
) -> Result<(), NoMemory> {
    if let Some(place) = subject.sources.place(racing.statement) {
        put_all(
            text,
            &[
                Piece::Bytes(subject.sources.name(place.file).as_bytes()),
                Piece::Bytes(b": "),
                Piece::Cut(subject.sources.source(place).trim_ascii_end(), SOURCE),
                Piece::Bytes(b" "),
            ],
        )?;
    }
    put_verbs(text, subject.setting.design, racing, touched)
}

/// What a cause is known by from one run to the next: its two statements, in the order of their texts.
pub fn fingerprint(
    alloc: Global,
    subject: Subject<'_>,
    statements: &Statements,
) -> Result<Vec<u8>, NoMemory> {
    let touched = statements.touched.as_slice();
    let (mut one, mut other) = (Vec::new(alloc), Vec::new(alloc));
    put_known_by(&mut one, subject, &statements.first, touched)?;
    put_known_by(&mut other, subject, &statements.second, touched)?;
    let (mut text, last) = if one.as_slice() <= other.as_slice() {
        (one, other)
    } else {
        (other, one)
    };
    put_all(&mut text, &[Piece::Bytes(b" | "), Piece::Bytes(&last)])?;
    Ok(text)
}
