// Two dumps, compared with the runs of a machine and so with each other.

use crate::dumps::{OpenDump, PairStop, Subject, of_second};
use crate::one::dump_found;
use crate::searching::{OneTried, PairTried, find_one, find_pair};
use crate::telling::Tried;
use crate::told::{Facts, Scene, facts_of, found_of, scene_of};
use basis::NoMemory;
use command_line::{DumpWords, MatchWords, Request};
use complaint_text::dump_text;
use finding_text::Sources;
use match_text::{Apart, FoundPair, OneOfPair, PairAnswer, pair_json, pair_words};
use matching::{Matching, Reference};
use program_base::{Stop, write_out};
use race_findings::DumpFound;
use search_meter::Meter;
use shown_text::shown_text;
use std::alloc::Global;
use std::process::ExitCode;
use vbits::Vec4;
use vcd_read::VcdFlaw;
use vmachine::Machine;
use vrace::Budget;

// What was found of both as one, and of each that was searched by itself.
#[derive(Drop)]
struct PairFound<'m> {
    both: PairTried<'m>,
    first: Option<OneTried<'m>>,
    second: Option<OneTried<'m>>,
}

// The facts of these.
#[derive(Drop)]
struct PairFacts {
    both: Facts,
    first: Option<Facts>,
    second: Option<Facts>,
}

// Whether a dump is to be searched by itself: no run explains both, it goes on behind the other's end, or nothing of it was compared.
fn is_left(tried: &Tried, dump: &OpenDump<'_>) -> bool {
    !tried.is_explained() || dump.next_time().is_some() || dump.compared_count() == 0
}

// What is found of the first by itself, where it is to be.
fn find_first<'m>(
    rt: &HostRuntime,
    subject: Subject<'m>,
    request: &Request<'_>,
    words: &MatchWords<'_>,
    both: &PairTried<'m>,
    meter: &mut Meter<'_>,
) -> Result<Option<OneTried<'m>>, PairStop> {
    if !is_left(&both.tried, &both.pair.first) {
        return Ok(None);
    }
    Ok(Some(find_one(rt, subject, request, words, words.first, meter)?))
}

// The same of the second.
fn find_second<'m>(
    rt: &HostRuntime,
    subject: Subject<'m>,
    request: &Request<'_>,
    words: &MatchWords<'_>,
    second: DumpWords<'_>,
    both: &PairTried<'m>,
    meter: &mut Meter<'_>,
) -> Result<Option<OneTried<'m>>, PairStop> {
    if !is_left(&both.tried, &both.pair.second) {
        return Ok(None);
    }
    match find_one(rt, subject, request, words, second, meter) {
        Ok(found) => Ok(Some(found)),
        Err(stop) => Err(of_second(stop)),
    }
}

// All that is found.
fn find_all<'m>(
    rt: &HostRuntime,
    subject: Subject<'m>,
    request: &Request<'_>,
    words: &MatchWords<'_>,
    second: DumpWords<'_>,
    meter: &mut Meter<'_>,
) -> Result<PairFound<'m>, PairStop> {
    let both = find_pair(rt, subject, request, words, second, meter)?;
    let of_first = find_first(rt, subject, request, words, &both, meter)?;
    let of_other = find_second(rt, subject, request, words, second, &both, meter)?;
    Ok(PairFound {
        both,
        first: of_first,
        second: of_other,
    })
}

// What is known of a dump: where it wasn't searched by itself, the run that explains both explains it.
fn found_of_one(one: &Option<OneTried<'_>>) -> DumpFound {
    match one {
        None => DumpFound::Lawful,
        Some(one) => dump_found(one),
    }
}

// What both are, where each is lawful.
fn answer_of_both(tried: &Tried) -> PairAnswer {
    match &tried.answer {
        Matching::Explained(_) => PairAnswer::Agree,
        Matching::Unexplained(_) if tried.beyond.is_none() => PairAnswer::Part,
        _ => PairAnswer::Undecided,
    }
}

// What both are.
fn answer_of(found: &PairFound<'_>) -> PairAnswer {
    match (found_of_one(&found.first), found_of_one(&found.second)) {
        (DumpFound::Lawful, DumpFound::Lawful) => answer_of_both(&found.both.tried),
        (DumpFound::Lawful, DumpFound::Refuted) => PairAnswer::First,
        (DumpFound::Refuted, DumpFound::Lawful) => PairAnswer::Second,
        (DumpFound::Refuted, DumpFound::Refuted) => PairAnswer::Neither,
        _ => PairAnswer::Undecided,
    }
}

// The exit status.
fn code_of(answer: PairAnswer) -> ExitCode {
    match answer {
        PairAnswer::Agree => ExitCode::SUCCESS,
        PairAnswer::Undecided => ExitCode::from(3),
        PairAnswer::Part | PairAnswer::First | PairAnswer::Second | PairAnswer::Neither => {
            ExitCode::from(1)
        }
    }
}

// What a dump shows of each variable of the machine, by their numbers.
fn all_told(
    alloc: Global,
    machine: &Machine,
    dump: &OpenDump<'_>,
) -> Result<Vec<Option<Vec4>>, NoMemory> {
    let mut told = Vec::new(alloc);
    told.resize(machine.design().variables.len(), None)?;
    for pair in dump.comparison().pairs.iter() {
        if let Some(place) = told.get_mut(pair.variable) {
            *place = dump.told(pair);
        }
    }
    Ok(told)
}

// What both show of the variable of this number, where that isn't the same.
fn apart_at(first: Option<&Option<Vec4>>, second: &Option<Vec4>, variable: usize) -> Option<Apart> {
    match (first, second) {
        (Some(Some(first)), Some(second)) if *first != *second => Some(Apart {
            variable,
            first: *first,
            second: *second,
        }),
        _ => None,
    }
}

// The variables of which both show two values.
fn all_apart(
    alloc: Global,
    machine: &Machine,
    first: &OpenDump<'_>,
    second: &OpenDump<'_>,
) -> Result<Vec<Apart>, NoMemory> {
    let told = all_told(alloc, machine, first)?;
    let others = all_told(alloc, machine, second)?;
    let mut list = Vec::new(alloc);
    for (variable, other) in others.iter().enumerate() {
        if let Some(apart) = apart_at(told.get(variable), other, variable) {
            list.push(apart)?;
        }
    }
    Ok(list)
}

// The facts of a dump that was searched by itself.
fn facts_of_one(
    alloc: Global,
    machine: &Machine,
    one: &Option<OneTried<'_>>,
) -> Result<Option<Facts>, NoMemory> {
    match one {
        None => Ok(None),
        Some(one) => Ok(Some(facts_of(alloc, machine, &one.tried, &one.reference)?)),
    }
}

// The facts of all that was found.
fn all_facts(
    alloc: Global,
    machine: &Machine,
    found: &PairFound<'_>,
) -> Result<PairFacts, NoMemory> {
    let both = &found.both;
    Ok(PairFacts {
        both: facts_of(alloc, machine, &both.tried, &both.pair.first)?,
        first: facts_of_one(alloc, machine, &found.first)?,
        second: facts_of_one(alloc, machine, &found.second)?,
    })
}

// What is told of a dump: what was found of it by itself, or of both.
fn one_of<'a>(
    scene: Scene<'a>,
    dump: &'a str,
    shared: &'a OpenDump<'a>,
    both: (&'a Tried, &'a Facts, u64),
    one: &'a Option<OneTried<'a>>,
    facts: &'a Option<Facts>,
) -> OneOfPair<'a> {
    match (one, facts) {
        (Some(one), Some(facts)) => OneOfPair {
            found: found_of(
                scene,
                dump,
                &one.reference,
                &one.tried,
                facts,
                one.reference.time(),
            ),
            is_own: true,
        },
        _ => OneOfPair {
            found: found_of(scene, dump, shared, both.0, both.1, both.2),
            is_own: false,
        },
    }
}

// Up to which time the dumps were read before the one at which no run explains both.
fn before(both: &PairTried<'_>) -> u64 {
    match &both.tried.answer {
        Matching::Unexplained(answer) => both.pair.time_before(answer.time),
        _ => both.pair.time(),
    }
}

// Writes what was found, in the format that is asked for.
fn write_pair(rt: &HostRuntime, found: &FoundPair<'_>, format: Option<&str>) -> Result<(), Stop> {
    let text = match format {
        Some("json") => pair_json(rt.alloc(), found)?,
        _ => shown_text(rt.alloc(), &pair_words(rt.alloc(), found)?)?,
    };
    write_out(rt, &text)
}

// What is told of all that was found.
fn pair_of<'a>(
    scene: Scene<'a>,
    first: &'a str,
    second: &'a str,
    found: &'a PairFound<'a>,
    facts: &'a PairFacts,
    apart: &'a [Apart],
) -> FoundPair<'a> {
    let both = &found.both;
    let shared = (&both.tried, &facts.both, both.pair.time());
    let pair = &both.pair;
    FoundPair {
        answer: answer_of(found),
        joint: found_of(scene, first, &pair.first, shared.0, shared.1, shared.2),
        first: one_of(
            scene,
            first,
            &pair.first,
            shared,
            &found.first,
            &facts.first,
        ),
        second: one_of(
            scene,
            second,
            &pair.second,
            shared,
            &found.second,
            &facts.second,
        ),
        apart,
        before: before(both),
    }
}

// Compares both dumps with the runs of the machine, and tells what was found.
fn tell_found(
    rt: &HostRuntime,
    subject: Subject<'_>,
    sources: &Sources<'_>,
    request: &Request<'_>,
    words: &MatchWords<'_>,
    second: DumpWords<'_>,
) -> Result<ExitCode, PairStop> {
    let machine = subject.machine;
    let mut meter = Meter::of_slots(rt, words.allowance);
    let found = find_all(rt, subject, request, words, second, &mut meter)?;
    let facts = all_facts(rt.alloc(), machine, &found)?;
    let pair = &found.both.pair;
    let apart = all_apart(rt.alloc(), machine, &pair.first, &pair.second)?;
    let scene = scene_of(machine, sources, request, words, meter.spent());
    let told = pair_of(scene, words.first.dump, second.dump, &found, &facts, &apart);
    write_pair(rt, &told, words.format)?;
    Ok(code_of(told.answer))
}

// Says that the second dump is none from this line on. What says so of the first takes the name of the first from the call.
fn say_second(rt: &HostRuntime, dump: &str, line: u64, flaw: VcdFlaw) -> Result<ExitCode, Stop> {
    let text = dump_text(rt.alloc(), dump, line, flaw)?;
    let _ = eprint!(rt; "vrace: E505 at {line}\n{text}");
    Ok(ExitCode::from(2))
}

/// Compares both dumps with the runs of the machine, and tells what was found: whether one run explains both, or where they part.
pub(crate) fn tell_two(
    rt: &HostRuntime,
    subject: Subject<'_>,
    sources: &Sources<'_>,
    request: &Request<'_>,
    words: &MatchWords<'_>,
    second: DumpWords<'_>,
) -> Result<ExitCode, Stop> {
    match tell_found(rt, subject, sources, request, words, second) {
        Ok(code) => Ok(code),
        Err(stop) => {
            let (line, flaw) = stop.of_line()?;
            say_second(rt, second.dump, line, flaw)
        }
    }
}
