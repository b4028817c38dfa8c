// A statement that races as a JSON object: where it stands, and what it does (docs/FORMATS.md, "Races as JSON").

use crate::connection::port_of;
use crate::place::Sources;
use crate::statements::{SOURCE, verb};
use crate::time::put_precision;
use basis::NoMemory;
use race_findings::{RacingStatement, Touched};
use race_words::members::{Items, Members};
use race_words::pieces::put_cut;
use serde_json::Value;
use std::alloc::Global;
use vdesign::design::Design;

// Which port of which instance it connects, if it is a port connection.
fn put_connected(members: &mut Members, design: &Design, sources: &Sources<'_>, action: usize) {
    if let Some(port) = port_of(design, sources, action) {
        members.text("instance", port.instance);
        members.text("port", port.name);
    }
}

// What the source says, cut where it is long.
fn cut_source(alloc: Global, source: &[u8]) -> Result<Vec<u8>, NoMemory> {
    let mut cut = Vec::new(alloc);
    put_cut(&mut cut, source.trim_ascii_end(), SOURCE)?;
    Ok(cut)
}

// Where the statement of an action stands, and what it says, if that is known.
pub fn place_of(alloc: Global, design: &Design, sources: &Sources<'_>, action: usize) -> Members {
    let mut members = Members::new(alloc);
    if let Some(place) = sources.place(action) {
        members.text("file", sources.name(place.file).as_bytes());
        members.number("line", place.line as u64);
        members.number("column", (place.column as u64).saturating_add(1));
        members.made_text("source", cut_source(alloc, sources.source(place)));
        put_connected(&mut members, design, sources, action);
    }
    members
}

// What the statement does to one thing. An event has no name.
fn effect_on(
    alloc: Global,
    design: &Design,
    racing: &RacingStatement,
    thing: Touched,
) -> Result<Value, NoMemory> {
    let mut members = Members::new(alloc);
    members.text("verb", verb(design, racing, thing));
    if let Touched::Variable(number) = thing {
        if let Some(variable) = design.variables.get(number) {
            members.text("name", &variable.name);
        }
    }
    members.whole()
}

// What the statement does to each thing that both touch.
fn deeds(
    alloc: Global,
    design: &Design,
    racing: &RacingStatement,
    touched: &[Touched],
) -> Result<Value, NoMemory> {
    let mut list = Items::new(alloc);
    for thing in touched {
        list.try_value(effect_on(alloc, design, racing, *thing));
    }
    list.whole()
}

/// One of the two statements, as JSON; with the path of its instance, where that is to be named.
pub fn statement_in(
    alloc: Global,
    design: &Design,
    sources: &Sources<'_>,
    racing: &RacingStatement,
    touched: &[Touched],
    instance: Option<&[u8]>,
) -> Result<Value, NoMemory> {
    let mut statement = place_of(alloc, design, sources, racing.statement);
    if let Some(path) = instance {
        statement.text("scope", path);
    }
    if racing.statement != racing.action {
        let connection = place_of(alloc, design, sources, racing.action);
        statement.try_value("connection", connection.whole());
    }
    statement.try_value("does", deeds(alloc, design, racing, touched));
    statement.whole()
}

/// The precision of times.
pub fn precision_of(alloc: Global, design: &Design) -> Result<Vec<u8>, NoMemory> {
    let mut text = Vec::new(alloc);
    put_precision(&mut text, design)?;
    Ok(text)
}
