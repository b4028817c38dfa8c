// JSON for programs: one document, or a line for each race and one for what was looked at (docs/FORMATS.md, "Races as JSON", "Races as
// lines of JSON").

use crate::summary::{Findings, matched_at};
use crate::told::{ToldRace, told_races};
use basis::NoMemory;
use finding_text::difference::Subject;
use finding_text::json_side::{end_values, next_difference, whole_difference};
use finding_text::json_statement::{place_of, precision_of, statement_in};
use finding_text::statements::named_instances;
use race_findings::{Aspect, CutBy, EndlessSlot, Finding, Name, Statements};
use race_words::members::{Items, Members, document};
use race_words::pieces::put;
use race_words::waivers::Waiver;
use serde_json::Value;
use shown_text::shown_json;
use std::alloc::Global;

// The two statements, in the order of the parent's run.
fn put_both(alloc: Global, members: &mut Members, subject: Subject<'_>, both: &Statements) {
    let (design, sources) = (subject.setting.design, subject.sources);
    let touched = both.touched.as_slice();
    let (one, other) = named_instances(design, sources, both);
    members.try_value(
        "first",
        statement_in(alloc, design, sources, &both.first, touched, one),
    );
    members.try_value(
        "second",
        statement_in(alloc, design, sources, &both.second, touched, other),
    );
}

// The two statements, and when they race; or the one that ends the run.
fn put_statements(alloc: Global, members: &mut Members, subject: Subject<'_>) {
    let finding = subject.finding;
    if let Some(statements) = &finding.statements {
        put_both(alloc, members, subject, statements);
    } else if let Some(action) = finding.ending {
        let ending = place_of(alloc, subject.setting.design, subject.sources, action);
        members.try_value("ending", ending.whole());
    }
    if let Some(slot) = finding.slot {
        members.number("slot", slot);
    }
}

// Whether it is of the lines that are told first.
fn is_told_first(finding: &Finding, name: &Name) -> bool {
    let is_of_lines = match &finding.first.aspect {
        Aspect::Lines => name.variable.is_none(),
        Aspect::Variable(_) => false,
        Aspect::Ends(_) => false,
    };
    is_of_lines && name.time == finding.first.time
}

// The finding's differences that are told: what is told first and the earliest one whole, and then the next ones by name.
fn differences(alloc: Global, subject: Subject<'_>, named: usize) -> Result<Value, NoMemory> {
    let finding = subject.finding;
    let mut list = Items::new(alloc);
    list.try_value(whole_difference(alloc, subject, &finding.first));
    if let Some(earliest) = &finding.earliest {
        list.try_value(whole_difference(alloc, subject, earliest));
    }
    for name in finding.next.iter().take(named) {
        if !is_told_first(finding, name) {
            list.try_value(next_difference(alloc, subject.setting.design, name));
        }
    }
    list.whole()
}

// Whether it is waived, and why.
fn put_waiver(members: &mut Members, waiver: Option<&Waiver<'_>>) {
    members.flag("waived", waiver.is_some());
    if let Some(waiver) = waiver {
        members.text("reason", waiver.reason);
    }
}

// One cause, with what it explains.
fn put_cause(
    alloc: Global,
    members: &mut Members,
    subject: Subject<'_>,
    named: usize,
    waiver: Option<&Waiver<'_>>,
) {
    let finding = subject.finding;
    put_waiver(members, waiver);
    members.number("time", finding.earliest_time());
    members.flag("at_start", finding.is_at_start());
    put_statements(alloc, members, subject);
    members.try_value("differences", differences(alloc, subject, named));
    members.number("count", finding.more.saturating_add(1));
    members.number("distinct", finding.distinct());
    members.number("last", finding.last);
}

// The cause of this place, with these members beside.
fn cause_with(
    alloc: Global,
    findings: &Findings<'_>,
    place: usize,
    finding: &Finding,
    beside: Members,
) -> Result<Value, NoMemory> {
    let mut members = beside;
    let named = findings.summary.named_count();
    let waiver = findings.waiver(place);
    put_cause(
        alloc,
        &mut members,
        findings.subject(finding),
        named,
        waiver,
    );
    members.whole()
}

// Of each finding the number of the race that it is told in, from 1.
fn race_numbers(alloc: Global, findings: &Findings<'_>) -> Result<Vec<u64>, NoMemory> {
    let mut numbers = Vec::new(alloc);
    numbers.resize(findings.races.len(), 0u64)?;
    for (index, race) in told_races(alloc, findings)?.iter().enumerate() {
        put_number(&mut numbers, race, (index as u64).saturating_add(1));
    }
    Ok(numbers)
}

// Puts the number of the race to each of its findings.
fn put_number(numbers: &mut Vec<u64>, race: &ToldRace, number: u64) {
    set_number(numbers, race.place, number);
    for place in &race.beside {
        set_number(numbers, *place, number);
    }
}

// Puts the number at this place.
fn set_number(numbers: &mut Vec<u64>, place: usize, number: u64) {
    if let Some(known) = numbers.get_mut(place) {
        *known = number;
    }
}

// The number of the race in which the finding of this place is told.
fn race_member(alloc: Global, numbers: &[u64], place: usize) -> Members {
    let mut members = Members::new(alloc);
    members.number("race", numbers.get(place).copied().unwrap_or(0));
    members
}

// The causes.
fn causes(alloc: Global, findings: &Findings<'_>) -> Result<Value, NoMemory> {
    let numbers = race_numbers(alloc, findings)?;
    let mut list = Items::new(alloc);
    for (place, finding) in findings.races.iter().enumerate() {
        let beside = race_member(alloc, &numbers, place);
        list.value(cause_with(alloc, findings, place, finding, beside)?);
    }
    list.whole()
}

// The value as one line. Its letters stand as in a document.
fn line(alloc: Global, value: &Value) -> Result<Vec<u8>, NoMemory> {
    let mut text = shown_json(alloc, &value.to_vec(alloc)?)?;
    text.push(b'\n')?;
    Ok(text)
}

/// The causes of a top module, a line each, with the name of the top.
pub fn put_cause_lines(
    alloc: Global,
    text: &mut Vec<u8>,
    findings: &Findings<'_>,
) -> Result<(), NoMemory> {
    let design = findings.setting.design;
    let numbers = race_numbers(alloc, findings)?;
    for (place, finding) in findings.races.iter().enumerate() {
        let mut beside = race_member(alloc, &numbers, place);
        beside.text("top", &design.top);
        let cause = cause_with(alloc, findings, place, finding, beside)?;
        put(text, &line(alloc, &cause)?)?;
    }
    Ok(())
}

// By what the search was cut.
fn cut_words(cut: CutBy, stopped_by: &'static [u8]) -> &'static [u8] {
    match cut {
        CutBy::Memory => b"memory",
        CutBy::Entries => b"entries",
        CutBy::Steps => b"--steps",
        CutBy::Stopped => stopped_by,
    }
}

// Whether the search went to its end, or by what it was cut.
fn put_status(members: &mut Members, cut: Option<CutBy>, stopped_by: &'static [u8]) {
    match cut {
        None => members.text("status", b"exhausted"),
        Some(cut) => {
            members.text("status", b"cut");
            members.text("cut_by", cut_words(cut, stopped_by));
        }
    }
}

// What was looked at.
fn put_seen(members: &mut Members, findings: &Findings<'_>) {
    let (reach, summary) = (findings.reach, findings.summary);
    put_status(members, reach.cut, summary.stopped_by);
    members.value("closed", Value::from(reach.closed));
    members.number("departures", u64::from(summary.departures));
    members.number("states", summary.states);
    members.flag("cut_runs", reach.cut_runs);
    if reach.cut_runs {
        members.number("until", findings.setting.until);
    }
    members.number("from", summary.from);
    members.number("ignored", reach.ignored);
}

// The slot that the default run never leaves: its time, and where the statement stands.
fn endless_of(
    alloc: Global,
    findings: &Findings<'_>,
    slot: EndlessSlot,
) -> Result<Value, NoMemory> {
    let design = findings.setting.design;
    let mut members = match slot.action {
        None => Members::new(alloc),
        Some(action) => place_of(alloc, design, findings.sources, action),
    };
    members.number("time", slot.time);
    members.whole()
}

// How runs end: that none does, or in which values alone.
fn put_ends(alloc: Global, members: &mut Members, findings: &Findings<'_>) {
    if let Some(slot) = findings.reach.endless {
        members.try_value("endless", endless_of(alloc, findings, slot));
    }
    if let Some(difference) = findings.cut_values {
        members.try_value(
            "end_values",
            end_values(alloc, findings.setting, difference),
        );
    }
}

// What is told of a top module but its causes.
fn without_causes(alloc: Global, findings: &Findings<'_>) -> Members {
    let design = findings.setting.design;
    let mut members = Members::new(alloc);
    members.text("top", &design.top);
    members.made_text("precision", precision_of(alloc, design));
    put_seen(&mut members, findings);
    put_ends(alloc, &mut members, findings);
    members
}

/// What was found of a top module.
pub fn top_of(alloc: Global, findings: &Findings<'_>) -> Result<Value, NoMemory> {
    let mut members = without_causes(alloc, findings);
    members.try_value("causes", causes(alloc, findings));
    members.whole()
}

/// The same but its causes.
pub fn seen_of(alloc: Global, findings: &Findings<'_>) -> Result<Value, NoMemory> {
    without_causes(alloc, findings).whole()
}

// A waiver, with how many causes it matched.
fn waiver_of(alloc: Global, waiver: &Waiver<'_>, matched: u64) -> Result<Value, NoMemory> {
    let mut members = Members::new(alloc);
    members.number("line", waiver.line);
    members.text("reason", waiver.reason);
    members.number("matched", matched);
    members.whole()
}

// The waivers.
fn waivers_of(alloc: Global, waivers: &[Waiver<'_>], matched: &[u64]) -> Result<Value, NoMemory> {
    let mut list = Items::new(alloc);
    for (place, waiver) in waivers.iter().enumerate() {
        list.try_value(waiver_of(alloc, waiver, matched_at(matched, place)));
    }
    list.whole()
}

// What is told of each top module, and what waivers matched in all of them.
fn whole_of(
    alloc: Global,
    tops: Items,
    waivers: &[Waiver<'_>],
    matched: &[u64],
) -> Result<Value, NoMemory> {
    let mut members = Members::new(alloc);
    members.number("version", 1);
    members.try_value("tops", tops.whole());
    members.try_value("waivers", waivers_of(alloc, waivers, matched));
    members.whole()
}

/// What was found of each top module, and what waivers matched in all of them, as one JSON document.
pub fn json_of(
    alloc: Global,
    tops: Items,
    waivers: &[Waiver<'_>],
    matched: &[u64],
) -> Result<Vec<u8>, NoMemory> {
    document(alloc, &whole_of(alloc, tops, waivers, matched)?)
}

/// The same as one line, which stands behind those of the causes.
pub fn last_line_of(
    alloc: Global,
    tops: Items,
    waivers: &[Waiver<'_>],
    matched: &[u64],
) -> Result<Vec<u8>, NoMemory> {
    line(alloc, &whole_of(alloc, tops, waivers, matched)?)
}
