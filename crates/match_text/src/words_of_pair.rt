// The text of an answer about two dumps.

use crate::compared::put_compared;
use crate::departures::put_departures;
use crate::pair::{Apart, FoundPair, OneOfPair, PairAnswer};
use crate::told::Found;
use crate::whole::{NAMED, match_words, put_departed, put_hints, put_replay};
use basis::NoMemory;
use finding_text::put_time;
use race_findings::{FoundRun, MatchAnswer, SearchCut};
use race_words::{Piece, put, put_all, put_value};
use std::alloc::Global;
use vdesign::design::Design;

// The name of a dump.
fn put_dump(text: &mut Vec<u8>, found: &Found<'_>) -> Result<(), NoMemory> {
    put_all(text, &[Piece::Cut(found.dump.as_bytes(), usize::MAX)])
}

// A time, behind the words before.
fn put_at(text: &mut Vec<u8>, words: &[u8], found: &Found<'_>, time: u64) -> Result<(), NoMemory> {
    put(text, words)?;
    put_time(text, found.setting.design, time)
}

// The run that explains both.
fn put_run(
    alloc: Global,
    text: &mut Vec<u8>,
    joint: &Found<'_>,
    run: FoundRun<'_>,
) -> Result<(), NoMemory> {
    put_departed(text, joint.departures.len(), joint.most)?;
    put_departures(alloc, text, joint)?;
    put_replay(alloc, text, joint, run)
}

// One run explains both as far as both go.
fn put_agree(alloc: Global, text: &mut Vec<u8>, pair: &FoundPair<'_>) -> Result<(), NoMemory> {
    let words = b"both are lawful, and agree in all that they share: up to ";
    put_at(text, words, &pair.joint, pair.joint.last)?;
    put(text, b" one run explains both.\n")?;
    match pair.joint.answer {
        MatchAnswer::Explained(run) => put_run(alloc, text, &pair.joint, run),
        _ => Ok(()),
    }
}

// `    tb.q is 1 in a.vcd, and 0 in b.vcd`
fn put_variable(
    text: &mut Vec<u8>,
    design: &Design,
    pair: &FoundPair<'_>,
    apart: &Apart,
) -> Result<(), NoMemory> {
    let Some(variable) = design.variables.get(apart.variable) else {
        return Ok(());
    };
    let name = Piece::Bytes(&variable.name);
    put_all(text, &[Piece::Bytes(b"    "), name, Piece::Bytes(b" is ")])?;
    put_value(text, variable, apart.first)?;
    put(text, b" in ")?;
    put_dump(text, &pair.first.found)?;
    put(text, b", and ")?;
    put_value(text, variable, apart.second)?;
    put(text, b" in ")?;
    put_dump(text, &pair.second.found)?;
    put(text, b"\n")
}

// What differs between both where they part.
fn put_apart(text: &mut Vec<u8>, pair: &FoundPair<'_>) -> Result<(), NoMemory> {
    if pair.apart.is_empty() {
        return put(
            text,
            b"    no variable that stands in both has two values then\n",
        );
    }
    for apart in pair.apart.iter().take(NAMED) {
        put_variable(text, pair.joint.setting.design, pair, apart)?;
    }
    if pair.apart.len() <= NAMED {
        return Ok(());
    }
    let more = pair.apart.len().saturating_sub(NAMED) as u64;
    let others = Piece::Count(more, b"other variable");
    put_all(
        text,
        &[Piece::Bytes(b"    and "), others, Piece::Bytes(b"\n")],
    )
}

// Up to which time one run explains both, and from which on none does.
fn put_part(text: &mut Vec<u8>, pair: &FoundPair<'_>, time: u64) -> Result<(), NoMemory> {
    let joint = &pair.joint;
    put_at(text, b"both are lawful, and part at ", joint, time)?;
    put(text, b": ")?;
    if time > 0 {
        put_at(text, b"up to ", joint, pair.before)?;
        put(text, b" one run explains both, ")?;
    }
    put_at(text, b"at ", joint, time)?;
    put_all(
        text,
        &[
            Piece::Bytes(b" none does, with at most "),
            Piece::Count(u64::from(joint.most), b"departure"),
            Piece::Bytes(b" in a slot.\n"),
        ],
    )?;
    put_apart(text, pair)?;
    if pair.apart.is_empty() {
        put_hints(text, joint)?;
    }
    Ok(())
}

// `from 25 on`, the time from which no order gives what a dump shows
fn put_from(text: &mut Vec<u8>, found: &Found<'_>) -> Result<(), NoMemory> {
    let time = match found.answer {
        MatchAnswer::Unexplained(time, _) => time,
        _ => found.last,
    };
    put_at(text, b"from ", found, time)?;
    put(text, b" on ")
}

// One of both is explained, and the other one isn't.
fn put_one(text: &mut Vec<u8>, lawful: &Found<'_>, other: &Found<'_>) -> Result<(), NoMemory> {
    put_dump(text, lawful)?;
    put(text, b" is lawful, ")?;
    put_dump(text, other)?;
    put(text, b" isn't: ")?;
    put_from(text, other)?;
    put(text, b"no order of these files gives what it shows.\n")
}

// Neither is.
fn put_neither(text: &mut Vec<u8>, pair: &FoundPair<'_>) -> Result<(), NoMemory> {
    put(text, b"neither is lawful: ")?;
    put_from(text, &pair.first.found)?;
    put(text, b"no order of these files gives what ")?;
    put_dump(text, &pair.first.found)?;
    put(text, b" shows, and ")?;
    put_from(text, &pair.second.found)?;
    put(text, b"none gives what ")?;
    put_dump(text, &pair.second.found)?;
    put(text, b" shows.\n")
}

// What cut the search for a run that explains both.
fn put_cut(text: &mut Vec<u8>, joint: &Found<'_>, cut: SearchCut) -> Result<(), NoMemory> {
    put_all(
        text,
        &[
            Piece::Bytes(b"The search for one run that explains both was cut by "),
            Piece::Bytes(joint.cut_by(cut)),
            Piece::Bytes(b".\n"),
        ],
    )
}

// It isn't decided.
fn put_undecided(text: &mut Vec<u8>, joint: &Found<'_>) -> Result<(), NoMemory> {
    put(text, b"not decided.\n")?;
    if let Some(cut) = joint.beyond {
        return put_cut(text, joint, cut);
    }
    match joint.answer {
        MatchAnswer::Cut(cut) => put_cut(text, joint, cut),
        _ => Ok(()),
    }
}

// What both are.
fn put_answer(alloc: Global, text: &mut Vec<u8>, pair: &FoundPair<'_>) -> Result<(), NoMemory> {
    let (first, second) = (&pair.first.found, &pair.second.found);
    match pair.answer {
        PairAnswer::Agree => put_agree(alloc, text, pair),
        PairAnswer::Part => match pair.joint.answer {
            MatchAnswer::Unexplained(time, _) => put_part(text, pair, time),
            _ => Ok(()),
        },
        PairAnswer::First => put_one(text, first, second),
        PairAnswer::Second => put_one(text, second, first),
        PairAnswer::Neither => put_neither(text, pair),
        PairAnswer::Undecided => put_undecided(text, &pair.joint),
    }
}

// What was found of one of both; where both agree and it ends with the other, what of it was compared.
fn put_dump_of(
    alloc: Global,
    text: &mut Vec<u8>,
    answer: PairAnswer,
    one: &OneOfPair<'_>,
) -> Result<(), NoMemory> {
    put_dump(text, &one.found)?;
    if answer == PairAnswer::Agree && !one.is_own {
        put(text, b": ")?;
        return put_compared(text, &one.found);
    }
    put(text, b":\n")?;
    put(text, &match_words(alloc, &one.found)?)
}

/// The text of what was found of two dumps.
pub fn pair_words(alloc: Global, pair: &FoundPair<'_>) -> Result<Vec<u8>, NoMemory> {
    let mut text = Vec::new(alloc);
    put_answer(alloc, &mut text, pair)?;
    put_dump_of(alloc, &mut text, pair.answer, &pair.first)?;
    put_dump_of(alloc, &mut text, pair.answer, &pair.second)?;
    Ok(text)
}
