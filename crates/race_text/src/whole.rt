// The text of the races of a top module.

use crate::command::behind_log;
use crate::summary::{Findings, NAMED, SearchSummary, put_summary};
use crate::told::{ToldRace, told_races};
use basis::NoMemory;
use finding_text::difference::{
    Row, Subject, cause_words, has_others, put_difference, put_name, put_others, put_sides, rows_of,
};
use finding_text::name::name_of;
use finding_text::scope::instance_of;
use finding_text::start::{START, START_CURE};
use finding_text::statements::{
    Roles, put_ending, put_instance, put_place, put_statements, roles_of,
};
use finding_text::time::put_time;
use race_findings::{Finding, Foremost, Name, is_first_at_start};
use race_words::pieces::{Piece, put, put_all};
use race_words::waivers::Waiver;
use std::alloc::Global;
use vdesign::design::Design;

// The two statements; or the one that ends the run; or that they weren't found.
fn put_both(alloc: Global, text: &mut Vec<u8>, subject: Subject<'_>) -> Result<(), NoMemory> {
    let (design, sources, finding) = (subject.setting.design, subject.sources, subject.finding);
    match (&finding.statements, finding.ending) {
        (Some(statements), _) => put_statements(alloc, text, design, sources, statements),
        (None, Some(action)) => put_ending(alloc, text, design, sources, action),
        (None, None) => put(text, b"    which statements race was not found\n"),
    }
}

// When the two statements race, if it shows later.
fn put_slot(text: &mut Vec<u8>, subject: Subject<'_>) -> Result<(), NoMemory> {
    let Some(slot) = subject.finding.slot else {
        return Ok(());
    };
    if slot != subject.finding.first.time {
        put(text, b"    both at ")?;
        put_time(text, subject.setting.design, slot)?;
        put(text, b"\n")?;
    }
    Ok(())
}

// The first names, in one line.
fn put_names(text: &mut Vec<u8>, design: &Design, names: &[Name]) -> Result<(), NoMemory> {
    for (place, name) in names.iter().take(NAMED).enumerate() {
        put(text, joint(place))?;
        put_name(text, design, name)?;
    }
    Ok(())
}

// What comes before the name at this place of a list.
fn joint(place: usize) -> &'static [u8] {
    if place == 0 { b": " } else { b", " }
}

// All names, a line each.
fn put_all_names(text: &mut Vec<u8>, design: &Design, names: &[Name]) -> Result<(), NoMemory> {
    for name in names {
        put(text, b"        ")?;
        put_name(text, design, name)?;
        put(text, b"\n")?;
    }
    Ok(())
}

// What follows from the same two statements.
fn put_more(text: &mut Vec<u8>, subject: Subject<'_>, all: bool) -> Result<(), NoMemory> {
    let (design, finding) = (subject.setting.design, subject.finding);
    if !has_others(finding) {
        return Ok(());
    }
    put(text, b"    and ")?;
    put_others(text, subject)?;
    if all {
        put(text, b"\n")?;
        return put_all_names(text, design, &finding.others);
    }
    put_names(text, design, &finding.others)?;
    put(text, b"\n")
}

// The names of the first variables, in one line.
fn put_variables(
    text: &mut Vec<u8>,
    design: &Design,
    variables: &[usize],
    most: usize,
) -> Result<(), NoMemory> {
    for (place, number) in variables.iter().take(most).enumerate() {
        put_all(
            text,
            &[
                Piece::Bytes(joint(place)),
                Piece::Bytes(name_of(design, *number)),
            ],
        )?;
    }
    Ok(())
}

// Which variables differ where runs end, beside what is told first.
fn put_end_variables(
    text: &mut Vec<u8>,
    subject: Subject<'_>,
    most: usize,
) -> Result<(), NoMemory> {
    let Some(apart) = subject.finding.first.apart() else {
        return Ok(());
    };
    let others = apart.others();
    if others.is_empty() {
        return Ok(());
    }
    let word: &[u8] = match apart.foremost() {
        Foremost::Lines => b"variable",
        _ => b"more variable",
    };
    let count = Piece::Count(others.len() as u64, word);
    put_all(text, &[Piece::Bytes(b"    and "), count])?;
    put_variables(text, subject.setting.design, others, most)?;
    put(text, b"\n")
}

// How a race at time 0 that shows later is mostly cured. Behind those that show at once it is said of all of them.
fn put_start_cure(text: &mut Vec<u8>, subject: Subject<'_>) -> Result<(), NoMemory> {
    let finding = subject.finding;
    if !finding.is_at_start() && finding.slot == Some(0) {
        put(
            text,
            b"    at time 0: read it after a delay, as in `#1`, or at an edge that comes later; a value in a declaration is an `initial`, too\n",
        )?;
    }
    Ok(())
}

// How ends that differ in their slot alone are cured.
fn put_end_cure(text: &mut Vec<u8>, word: &[u8]) -> Result<(), NoMemory> {
    put_all(
        text,
        &[
            Piece::Bytes(b"    "),
            Piece::Bytes(word),
            Piece::Bytes(
                b" cuts its slot short: what else is to run then, has run or not; put it where nothing else happens, a unit of time later: `#1 ",
            ),
            Piece::Bytes(word),
            Piece::Bytes(b"`\n"),
        ],
    )
}

// Whether ends differ by the order of their last slot: the two statements race in it, or weren't found.
fn is_of_last_slot(finding: &Finding) -> bool {
    let time = finding.first.time;
    match finding.first.apart() {
        None => false,
        Some(apart) => !apart.in_end && finding.slot.unwrap_or(time) == time,
    }
}

// How the race is mostly cured, if that can be said.
fn put_cure(text: &mut Vec<u8>, subject: Subject<'_>) -> Result<(), NoMemory> {
    let finding = subject.finding;
    match finding.first.end() {
        Some(end) if is_of_last_slot(finding) => put_end_cure(text, cause_words(end.cause)),
        _ => put_start_cure(text, subject),
    }
}

// The reason of the waiver, if there is one.
fn put_waiver(text: &mut Vec<u8>, waiver: Option<&Waiver<'_>>) -> Result<(), NoMemory> {
    let Some(waiver) = waiver else {
        return Ok(());
    };
    let reason = Piece::Cut(waiver.reason, usize::MAX);
    put_all(
        text,
        &[Piece::Bytes(b"    waived: "), reason, Piece::Bytes(b"\n")],
    )
}

// What differs in the race of this place, whether it is waived, and which two statements race.
fn put_head(
    alloc: Global,
    text: &mut Vec<u8>,
    waiver: Option<&Waiver<'_>>,
    subject: Subject<'_>,
    place: usize,
    rows: &[Row],
) -> Result<(), NoMemory> {
    let number = Piece::Number((place as u64).saturating_add(1));
    put_all(text, &[Piece::Bytes(b"race "), number, Piece::Bytes(b": ")])?;
    put_difference(text, subject, rows)?;
    put(text, b"\n")?;
    put_waiver(text, waiver)?;
    put_both(alloc, text, subject)?;
    put_slot(text, subject)
}

// The race of this place: its head, in which order each side comes about, and what follows. The commands that replay them end so.
fn text_of(
    alloc: Global,
    summary: SearchSummary,
    waiver: Option<&Waiver<'_>>,
    subject: Subject<'_>,
    place: usize,
    behind: &[u8],
) -> Result<Vec<u8>, NoMemory> {
    let mut text = Vec::new(alloc);
    let rows = rows_of(alloc, subject)?;
    put_head(alloc, &mut text, waiver, subject, place, &rows)?;
    put_sides(&mut text, subject, &rows, behind)?;
    put_end_variables(&mut text, subject, summary.named_count())?;
    put_cure(&mut text, subject)?;
    put_more(&mut text, subject, summary.all)?;
    Ok(text)
}

// The two statements of a finding by what they do.
fn roles_in<'a>(subject: Subject<'a>) -> Option<Roles<'a>> {
    match &subject.finding.statements {
        None => None,
        Some(statements) => roles_of(subject.setting.design, statements),
    }
}

// The other statement of a finding that is told beside a race, its instance, and what differs: `tb.v:12:9 in tb.u1: tb.u1.q is 0 or 1 at 5`.
fn put_reader(alloc: Global, text: &mut Vec<u8>, subject: Subject<'_>) -> Result<(), NoMemory> {
    put(text, b"        ")?;
    if let Some(roles) = roles_in(subject) {
        put_place(text, subject.sources, roles.reader.statement)?;
        put_instance(
            text,
            instance_of(subject.setting.design, roles.reader.statement),
        )?;
        put(text, b": ")?;
    }
    put_difference(text, subject, &rows_of(alloc, subject)?)?;
    put(text, b"\n")
}

// How many findings are told beside the race.
fn put_beside_count(text: &mut Vec<u8>, count: usize) -> Result<(), NoMemory> {
    let words: &[u8] = if count == 1 {
        b" more statement races with the same write:\n"
    } else {
        b" more statements race with the same write:\n"
    };
    put_all(
        text,
        &[
            Piece::Bytes(b"    and "),
            Piece::Number(count as u64),
            Piece::Bytes(words),
        ],
    )
}

// That not all of so many findings beside the race are shown, where it is so.
fn put_rest(text: &mut Vec<u8>, count: usize) -> Result<(), NoMemory> {
    if count <= NAMED {
        return Ok(());
    }
    let rest = Piece::Number(count.saturating_sub(NAMED) as u64);
    put_all(
        text,
        &[
            Piece::Bytes(b"        and "),
            rest,
            Piece::Bytes(b" more; --all tells each as a race\n"),
        ],
    )
}

// The findings that are told beside a race: the first ones, and how many there are.
fn put_beside(
    alloc: Global,
    text: &mut Vec<u8>,
    findings: &Findings<'_>,
    beside: &[usize],
) -> Result<(), NoMemory> {
    if beside.is_empty() {
        return Ok(());
    }
    put_beside_count(text, beside.len())?;
    for place in beside.iter().take(NAMED) {
        if let Some(finding) = findings.races.get(*place) {
            put_reader(alloc, text, findings.subject(finding))?;
        }
    }
    put_rest(text, beside.len())
}

// What is told of the race of this number, from 0, with what is told beside it.
fn race_text(
    alloc: Global,
    findings: &Findings<'_>,
    race: &ToldRace,
    number: usize,
    behind: &[u8],
) -> Result<Vec<u8>, NoMemory> {
    let Some(finding) = findings.races.get(race.place) else {
        return Ok(Vec::new(alloc));
    };
    let (subject, waiver) = (findings.subject(finding), findings.waiver(race.place));
    let mut text = text_of(alloc, *findings.summary, waiver, subject, number, behind)?;
    put_beside(alloc, &mut text, findings, &race.beside)?;
    Ok(text)
}

/// What is told of each of these races of a top module, in their order.
pub fn races_texts(
    alloc: Global,
    findings: &Findings<'_>,
    races: &[ToldRace],
) -> Result<Vec<Vec<u8>>, NoMemory> {
    let behind = behind_log(alloc, findings)?;
    let mut texts = Vec::new(alloc);
    for (number, race) in races.iter().enumerate() {
        texts.push(race_text(alloc, findings, race, number, &behind)?)?;
    }
    Ok(texts)
}

/// How many races there are, and what wasn't looked at.
pub fn summary_text(
    alloc: Global,
    findings: &Findings<'_>,
    races: &[ToldRace],
) -> Result<Vec<u8>, NoMemory> {
    let mut text = Vec::new(alloc);
    put_summary(&mut text, findings, races)?;
    Ok(text)
}

// What stands before the race of this place: a line, where it is the first of those that show at time 0.
fn put_opening(text: &mut Vec<u8>, races: &[Finding], place: usize) -> Result<(), NoMemory> {
    if is_first_at_start(races, place) {
        put_all(text, &[Piece::Bytes(START), Piece::Bytes(b"\n")])?;
    }
    Ok(())
}

// How the races that show at time 0 are mostly cured, where there are such: the last one is.
fn put_closing(text: &mut Vec<u8>, races: &[Finding]) -> Result<(), NoMemory> {
    match races.last() {
        Some(finding) if finding.is_at_start() => {
            put_all(text, &[Piece::Bytes(START_CURE), Piece::Bytes(b"\n")])
        }
        _ => Ok(()),
    }
}

// Puts what is told of a race, behind what stands before it.
fn put_race(
    text: &mut Vec<u8>,
    findings: &[Finding],
    race: &ToldRace,
    words: Option<&Vec<u8>>,
) -> Result<(), NoMemory> {
    put_opening(text, findings, race.place)?;
    match words {
        None => Ok(()),
        Some(words) => put(text, words),
    }
}

/// The races of a top module, each by the statement that writes, and what wasn't looked at. Those that show at time 0 stand in a part of their
/// own.
pub fn put_races(
    alloc: Global,
    text: &mut Vec<u8>,
    findings: &Findings<'_>,
) -> Result<(), NoMemory> {
    let races = told_races(alloc, findings)?;
    let texts = races_texts(alloc, findings, &races)?;
    for (number, race) in races.iter().enumerate() {
        put_race(text, findings.races, race, texts.get(number))?;
    }
    put_closing(text, findings.races)?;
    put_summary(text, findings, &races)
}
