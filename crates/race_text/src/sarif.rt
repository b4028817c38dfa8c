// A SARIF 2.1.0 log, for code hosts (docs/FORMATS.md, "Races as SARIF").

use crate::at_end::put_ends;
use crate::sarif_place::{
    Locations, fingerprint, location_of_end, locations_of, push_reader, put_deeds,
};
use crate::summary::{Findings, matched_at, put_matched, put_seen, put_top};
use crate::told::{ToldRace, told_races};
use basis::NoMemory;
use finding_text::difference::{Subject, has_others, put_difference, put_others, rows_of};
use finding_text::statements::named_instances;
use finding_text::time::put_time;
use race_findings::{Finding, Statements};
use race_words::members::{Items, Members, document};
use race_words::pieces::{Piece, put, put_all};
use race_words::waivers::Waiver;
use serde_json::Value;
use std::alloc::Global;

// The schema that a log is of.
const SCHEMA: &[u8] =
    b"https://docs.oasis-open.org/sarif/sarif/v2.1.0/os/schemas/sarif-schema-2.1.0.json";

// The one rule.
const RULE: &[u8] = b"race";

const RULE_MEANS: &[u8] =
    b"Two statements race: the standard leaves open which comes first, and runs differ by it.";

// An object that has a text alone, as messages and descriptions are.
fn text_object(alloc: Global, text: &[u8]) -> Result<Value, NoMemory> {
    let mut members = Members::new(alloc);
    members.text("text", text);
    members.whole()
}

// The bytes, each brace twice.
fn escape_braces(alloc: Global, text: &[u8]) -> Result<Vec<u8>, NoMemory> {
    let mut doubled = Vec::new(alloc);
    for byte in text {
        doubled.push(*byte)?;
        if *byte == b'{' || *byte == b'}' {
            doubled.push(*byte)?;
        }
    }
    Ok(doubled)
}

/// A message. A brace in a message is written twice (SARIF 2.1.0, 3.11.5).
pub fn message(alloc: Global, text: &[u8]) -> Result<Value, NoMemory> {
    text_object(alloc, &escape_braces(alloc, text)?)
}

// The rule, as the tool describes it.
fn rule(alloc: Global) -> Result<Value, NoMemory> {
    let mut members = Members::new(alloc);
    members.text("id", RULE);
    members.try_value("shortDescription", text_object(alloc, RULE_MEANS));
    members.whole()
}

// The rules of the tool.
fn rules(alloc: Global) -> Result<Value, NoMemory> {
    let mut rules = Items::new(alloc);
    rules.try_value(rule(alloc));
    rules.whole()
}

// What runs, with its rules.
fn driver(alloc: Global, version: &str) -> Result<Value, NoMemory> {
    let mut members = Members::new(alloc);
    members.text("name", b"vrace");
    members.text("version", version.as_bytes());
    members.try_value("rules", rules(alloc));
    members.whole()
}

// The tool.
fn tool(alloc: Global, version: &str) -> Result<Value, NoMemory> {
    let mut members = Members::new(alloc);
    members.try_value("driver", driver(alloc, version));
    members.whole()
}

// What the two statements do: `; late.v:3 writes tb.a, late.v:4 reads tb.a`, and when, if it shows later: `, both at 0`.
fn put_both(
    text: &mut Vec<u8>,
    subject: Subject<'_>,
    statements: &Statements,
) -> Result<(), NoMemory> {
    let touched = statements.touched.as_slice();
    let (one, other) = named_instances(subject.setting.design, subject.sources, statements);
    put(text, b"; ")?;
    put_deeds(text, subject, &statements.first, touched, one)?;
    put(text, b", ")?;
    put_deeds(text, subject, &statements.second, touched, other)?;
    match subject.finding.slot {
        Some(slot) if slot != subject.finding.first.time => {
            put(text, b", both at ")?;
            put_time(text, subject.setting.design, slot)
        }
        _ => Ok(()),
    }
}

// `; 36 more statements race with the same write`, where it is so.
fn put_beside_count(text: &mut Vec<u8>, beside: usize) -> Result<(), NoMemory> {
    let words: &[u8] = match beside {
        0 => return Ok(()),
        1 => b" more statement races with the same write",
        _ => b" more statements race with the same write",
    };
    let count = Piece::Number(beside as u64);
    put_all(text, &[Piece::Bytes(b"; "), count, Piece::Bytes(words)])
}

// What is said of a race: what differs, what the two statements do, how many more read it, and what follows.
fn race_words(alloc: Global, subject: Subject<'_>, beside: usize) -> Result<Vec<u8>, NoMemory> {
    let finding = subject.finding;
    let mut text = Vec::new(alloc);
    let rows = rows_of(alloc, subject)?;
    put_difference(&mut text, subject, &rows)?;
    if let Some(statements) = &finding.statements {
        put_both(&mut text, subject, statements)?;
    }
    put_beside_count(&mut text, beside)?;
    if has_others(finding) {
        put(&mut text, b"; ")?;
        put_others(&mut text, subject)?;
    }
    Ok(text)
}

// What the finding is known by from one run to the next.
fn prints(alloc: Global, subject: Subject<'_>, statements: &Statements) -> Result<Value, NoMemory> {
    let mut members = Members::new(alloc);
    let print = fingerprint(alloc, subject, statements);
    members.made_text("causeStatements/v1", print);
    members.whole()
}

// The number of the first place of a finding that is told beside the race; those before are the race's own.
const BESIDE: u64 = 5;

// Puts the places of the statements of findings that are told beside the race.
fn push_readers(
    alloc: Global,
    list: &mut Items,
    findings: &Findings<'_>,
    beside: &[usize],
) -> Result<(), NoMemory> {
    for (index, place) in beside.iter().enumerate() {
        if let Some(finding) = findings.races.get(*place) {
            let number = BESIDE.saturating_add(index as u64);
            push_reader(alloc, list, findings.subject(finding), number)?;
        }
    }
    Ok(())
}

// The race's places, and what it is known by from one run to the next; where no two statements are known, the place of the one that ends
// the run, or the beginning of the first file.
fn put_places(
    alloc: Global,
    members: &mut Members,
    findings: &Findings<'_>,
    subject: Subject<'_>,
    beside: &[usize],
) -> Result<(), NoMemory> {
    let Some(statements) = &subject.finding.statements else {
        members.try_value("locations", location_of_end(alloc, subject));
        return Ok(());
    };
    let Locations { first, mut others } = locations_of(alloc, subject, statements)?;
    push_readers(alloc, &mut others, findings, beside)?;
    members.try_value("locations", first.whole());
    members.try_value("relatedLocations", others.whole());
    members.try_value("partialFingerprints", prints(alloc, subject, statements));
    Ok(())
}

// That the result is waived.
fn suppression(alloc: Global, waiver: &Waiver<'_>) -> Result<Value, NoMemory> {
    let mut members = Members::new(alloc);
    members.text("kind", b"external");
    members.text("status", b"accepted");
    members.text("justification", waiver.reason);
    members.whole()
}

// That the result is waived, if it is. A list stands in each result, as SARIF asks where it stands in one (3.27.23).
fn suppressions(alloc: Global, waiver: Option<&Waiver<'_>>) -> Result<Value, NoMemory> {
    let mut list = Items::new(alloc);
    if let Some(waiver) = waiver {
        list.try_value(suppression(alloc, waiver));
    }
    list.whole()
}

// What is said of a race, as a message.
fn race_message(alloc: Global, subject: Subject<'_>, beside: usize) -> Result<Value, NoMemory> {
    message(alloc, &race_words(alloc, subject, beside)?)
}

// One result: the race that is told of this finding.
fn result_of(
    alloc: Global,
    findings: &Findings<'_>,
    finding: &Finding,
    race: &ToldRace,
) -> Result<Value, NoMemory> {
    let (subject, waiver) = (findings.subject(finding), findings.waiver(race.place));
    let mut members = Members::new(alloc);
    members.text("ruleId", RULE);
    members.number("ruleIndex", 0);
    members.text("level", b"warning");
    members.try_value("message", race_message(alloc, subject, race.beside.len()));
    put_places(alloc, &mut members, findings, subject, &race.beside)?;
    members.try_value("suppressions", suppressions(alloc, waiver));
    members.whole()
}

/// Puts a result for each race of a top module.
pub fn push_results(
    alloc: Global,
    list: &mut Items,
    findings: &Findings<'_>,
) -> Result<(), NoMemory> {
    for race in &told_races(alloc, findings)? {
        if let Some(finding) = findings.races.get(race.place) {
            list.value(result_of(alloc, findings, finding, race)?);
        }
    }
    Ok(())
}

// A notification of the tool.
fn notification(alloc: Global, level: &[u8], text: &[u8]) -> Result<Value, NoMemory> {
    let mut members = Members::new(alloc);
    members.text("level", level);
    members.try_value("message", message(alloc, text));
    members.whole()
}

// What was left unseen, behind the name of the top module where several are told.
fn unseen_text(
    alloc: Global,
    findings: &Findings<'_>,
    is_headed: bool,
) -> Result<Vec<u8>, NoMemory> {
    let mut text = Vec::new(alloc);
    if is_headed {
        put_top(&mut text, findings)?;
    }
    put_seen(&mut text, findings)?;
    put(&mut text, b".")?;
    Ok(text)
}

// A notification of what was left unseen.
fn warning(alloc: Global, findings: &Findings<'_>, is_headed: bool) -> Result<Value, NoMemory> {
    let text = unseen_text(alloc, findings, is_headed)?;
    notification(alloc, b"warning", text.trim_ascii_start())
}

// A notification of how runs end, behind the name of the top module where several are told: that none does, or in which values alone.
fn note_of_ends(
    alloc: Global,
    findings: &Findings<'_>,
    is_headed: bool,
) -> Result<Value, NoMemory> {
    let mut text = Vec::new(alloc);
    if is_headed {
        put_top(&mut text, findings)?;
        put(&mut text, b" ")?;
    }
    put_ends(&mut text, findings)?;
    notification(alloc, b"note", text.trim_ascii_end())
}

/// Puts a notification where something of a top module was left unseen, and one where no run ends, or ends differ in values alone.
pub fn push_unseen(alloc: Global, list: &mut Items, findings: &Findings<'_>, is_headed: bool) {
    if findings.reach.is_cut() {
        list.try_value(warning(alloc, findings, is_headed));
    }
    if findings.reach.endless.is_some() || findings.cut_values.is_some() {
        list.try_value(note_of_ends(alloc, findings, is_headed));
    }
}

// A notification that the waiver matched nothing.
fn note(alloc: Global, waiver: &Waiver<'_>) -> Result<Value, NoMemory> {
    let mut text = Vec::new(alloc);
    put_matched(&mut text, waiver, 0)?;
    notification(alloc, b"note", &text)
}

/// Puts a notification for each waiver that matched nothing.
pub fn push_unmatched(alloc: Global, list: &mut Items, waivers: &[Waiver<'_>], matched: &[u64]) {
    for (place, waiver) in waivers.iter().enumerate() {
        if matched_at(matched, place) == 0 {
            list.try_value(note(alloc, waiver));
        }
    }
}

// The call of the tool.
fn invocation(alloc: Global, notifications: Items) -> Result<Value, NoMemory> {
    let mut members = Members::new(alloc);
    members.flag("executionSuccessful", true);
    members.try_value("toolExecutionNotifications", notifications.whole());
    members.whole()
}

// The calls of the tool.
fn invocations(alloc: Global, notifications: Items) -> Result<Value, NoMemory> {
    let mut list = Items::new(alloc);
    list.try_value(invocation(alloc, notifications));
    list.whole()
}

// The run of the tool.
fn run(
    alloc: Global,
    results: Items,
    notifications: Items,
    version: &str,
) -> Result<Value, NoMemory> {
    let mut members = Members::new(alloc);
    members.try_value("tool", tool(alloc, version));
    members.text("columnKind", b"unicodeCodePoints");
    members.try_value("invocations", invocations(alloc, notifications));
    members.try_value("results", results.whole());
    members.whole()
}

// The log of one run.
fn log_of(alloc: Global, runs: Items) -> Result<Value, NoMemory> {
    let mut members = Members::new(alloc);
    members.text("$schema", SCHEMA);
    members.text("version", b"2.1.0");
    members.try_value("runs", runs.whole());
    members.whole()
}

/// The results and the notifications as a SARIF 2.1.0 log; the version is that of the program.
pub fn sarif_of(
    alloc: Global,
    results: Items,
    notifications: Items,
    version: &str,
) -> Result<Vec<u8>, NoMemory> {
    let mut runs = Items::new(alloc);
    runs.try_value(run(alloc, results, notifications, version));
    document(alloc, &log_of(alloc, runs)?)
}
