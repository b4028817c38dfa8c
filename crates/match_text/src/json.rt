// One JSON document for programs (docs/FORMATS.md, "Matches as JSON").

use crate::told::{Departure, Found};
use basis::NoMemory;
use finding_text::{end_word, named_instances, precision_of, statement_in, value_words};
use race_findings::{Compared, Differing, FoundRun, MatchAnswer, SearchCut};
use race_words::{Items, Members, document};
use serde_json::Value;
use std::alloc::Global;
use vdesign::design::Design;

// Names as strings.
fn names_of(alloc: Global, names: &[Vec<u8>]) -> Result<Value, NoMemory> {
    let mut list = Items::new(alloc);
    for name in names {
        list.text(name);
    }
    list.whole()
}

// What was compared, and what stands in one of both alone.
fn compared_of(alloc: Global, compared: Compared<'_>) -> Result<Value, NoMemory> {
    let mut members = Members::new(alloc);
    members.number("variables", compared.variables as u64);
    members.try_value("only_in_dump", names_of(alloc, compared.only_in_dump));
    members.try_value("only_in_files", names_of(alloc, compared.only_in_files));
    members.try_value("other_width", names_of(alloc, compared.of_other_width));
    members.try_value("repeated", names_of(alloc, compared.repeated));
    if let Some(scope) = compared.left_out {
        members.text("left_out", scope);
    }
    members.whole()
}

// A departure: its step and time, and the two statements, the one first that comes first by default.
fn departure_of(
    alloc: Global,
    found: &Found<'_>,
    departure: &Departure,
) -> Result<Value, NoMemory> {
    let mut members = Members::new(alloc);
    members.number("step", u64::from(departure.step));
    members.number("time", departure.time);
    if let Some(statements) = &departure.statements {
        let (design, touched) = (found.setting.design, statements.touched.as_slice());
        let sources = found.sources;
        let (one, other) = named_instances(design, sources, statements);
        let first = statement_in(alloc, design, sources, &statements.first, touched, one);
        members.try_value("first", first);
        let second = statement_in(alloc, design, sources, &statements.second, touched, other);
        members.try_value("second", second);
    }
    members.whole()
}

// The departures of the run.
fn departures_of(alloc: Global, found: &Found<'_>) -> Result<Value, NoMemory> {
    let mut list = Items::new(alloc);
    for departure in found.departures {
        list.try_value(departure_of(alloc, found, departure));
    }
    list.whole()
}

// A variable that differs.
fn differing_of(alloc: Global, design: &Design, differing: &Differing) -> Result<Value, NoMemory> {
    let mut members = Members::new(alloc);
    if let Some(variable) = design.variables.get(differing.variable) {
        members.text("name", &variable.name);
        members.made_text("dump", value_words(alloc, variable, differing.told));
        members.made_text("run", value_words(alloc, variable, differing.value));
    }
    members.whole()
}

// The variables that differ.
fn all_differing(alloc: Global, found: &Found<'_>) -> Result<Value, NoMemory> {
    let mut list = Items::new(alloc);
    for differing in found.differing {
        list.try_value(differing_of(alloc, found.setting.design, differing));
    }
    list.whole()
}

/// The log of a run.
pub(crate) fn put_log(alloc: Global, members: &mut Members, found: &Found<'_>, run: FoundRun<'_>) {
    members.made_text("log", found.log(alloc, run.log));
    members.number("steps", u64::from(run.steps));
}

/// A run has the values of the dump.
pub(crate) fn put_explained(
    alloc: Global,
    members: &mut Members,
    found: &Found<'_>,
    run: FoundRun<'_>,
) {
    members.text("status", b"explained");
    members.number("time", found.last);
    put_log(alloc, members, found, run);
    members.try_value("departures", departures_of(alloc, found));
}

// No run has.
fn put_unexplained(
    alloc: Global,
    members: &mut Members,
    found: &Found<'_>,
    time: u64,
    nearest: Option<FoundRun<'_>>,
) {
    members.text("status", b"unexplained");
    members.number("time", time);
    if let Some(run) = nearest {
        put_log(alloc, members, found, run);
        members.try_value("differing", all_differing(alloc, found));
    }
    if let Some(end) = found.end {
        members.number("ends_at", end.time);
        members.text("ends_by", end_word(end.cause));
    }
    if let Some(cut) = found.beyond {
        members.text("beyond", found.cut_by(cut));
    }
}

/// The search was cut.
pub(crate) fn put_cut(members: &mut Members, found: &Found<'_>, cut: SearchCut) {
    members.text("status", b"cut");
    members.text("cut_by", found.cut_by(cut));
    members.value("closed", Value::from(cut.closed));
}

// The answer.
fn put_answer(alloc: Global, members: &mut Members, found: &Found<'_>) {
    if found.compared.variables == 0 {
        members.text("status", b"unrelated");
        return;
    }
    if found.is_of_nothing() {
        members.text("status", b"empty");
        return;
    }
    match found.answer {
        MatchAnswer::Explained(run) => put_explained(alloc, members, found, run),
        MatchAnswer::Unexplained(time, nearest) => {
            put_unexplained(alloc, members, found, time, nearest)
        }
        MatchAnswer::Cut(cut) => put_cut(members, found, cut),
    }
}

/// What was found, as an object.
pub(crate) fn object_of(alloc: Global, found: &Found<'_>) -> Result<Value, NoMemory> {
    let design = found.setting.design;
    let mut members = Members::new(alloc);
    members.number("version", 1);
    members.text("dump", found.dump.as_bytes());
    members.text("top", &design.top);
    members.made_text("precision", precision_of(alloc, design));
    members.number("slot_departures", u64::from(found.most));
    members.try_value("compared", compared_of(alloc, found.compared));
    put_answer(alloc, &mut members, found);
    members.whole()
}

/// What was found, as a JSON document.
pub fn match_json(alloc: Global, found: &Found<'_>) -> Result<Vec<u8>, NoMemory> {
    document(alloc, &object_of(alloc, found)?)
}
