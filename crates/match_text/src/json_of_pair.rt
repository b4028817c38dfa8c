// The JSON document of two dumps (docs/FORMATS.md, "Two dumps").

use crate::json::{object_of, put_cut, put_explained, put_log};
use crate::pair::{Apart, FoundPair, PairAnswer};
use crate::told::Found;
use basis::NoMemory;
use finding_text::value_words;
use race_findings::{FoundRun, MatchAnswer};
use race_words::{Items, Members, document};
use serde_json::Value;
use std::alloc::Global;
use vdesign::design::Design;

// What both are, in a word.
fn word_of(answer: PairAnswer) -> &'static [u8] {
    match answer {
        PairAnswer::Agree => b"agree",
        PairAnswer::Part => b"part",
        PairAnswer::First => b"first",
        PairAnswer::Second => b"second",
        PairAnswer::Neither => b"neither",
        PairAnswer::Undecided => b"undecided",
    }
}

// A variable that has two values where both part.
fn variable_of(alloc: Global, design: &Design, apart: &Apart) -> Result<Value, NoMemory> {
    let mut members = Members::new(alloc);
    if let Some(variable) = design.variables.get(apart.variable) {
        members.text("name", &variable.name);
        members.made_text("first", value_words(alloc, variable, apart.first));
        members.made_text("second", value_words(alloc, variable, apart.second));
    }
    members.whole()
}

// All of them.
fn apart_of(alloc: Global, pair: &FoundPair<'_>) -> Result<Value, NoMemory> {
    let mut list = Items::new(alloc);
    for apart in pair.apart {
        list.try_value(variable_of(alloc, pair.joint.setting.design, apart));
    }
    list.whole()
}

// No run explains both.
fn put_unexplained(
    alloc: Global,
    members: &mut Members,
    joint: &Found<'_>,
    time: u64,
    nearest: Option<FoundRun<'_>>,
) {
    members.text("status", b"unexplained");
    members.number("time", time);
    if let Some(run) = nearest {
        put_log(alloc, members, joint, run);
    }
    if let Some(cut) = joint.beyond {
        members.text("beyond", joint.cut_by(cut));
    }
}

// What was found of both as one.
fn joint_of(alloc: Global, joint: &Found<'_>) -> Result<Value, NoMemory> {
    let mut members = Members::new(alloc);
    members.number("slot_departures", u64::from(joint.most));
    match joint.answer {
        MatchAnswer::Explained(run) => put_explained(alloc, &mut members, joint, run),
        MatchAnswer::Unexplained(time, nearest) => {
            put_unexplained(alloc, &mut members, joint, time, nearest)
        }
        MatchAnswer::Cut(cut) => put_cut(&mut members, joint, cut),
    }
    members.whole()
}

// Where one run explains both as far as both go: how far; and up to which time none does, of both or of the one that isn't explained.
fn time_of(pair: &FoundPair<'_>) -> Option<u64> {
    let found = match pair.answer {
        PairAnswer::Agree => return Some(pair.joint.last),
        PairAnswer::Part => pair.joint,
        PairAnswer::First => pair.second.found,
        PairAnswer::Second => pair.first.found,
        PairAnswer::Neither | PairAnswer::Undecided => return None,
    };
    match found.answer {
        MatchAnswer::Unexplained(time, _) => Some(time),
        _ => None,
    }
}

/// What was found of two dumps, as a JSON document.
pub fn pair_json(alloc: Global, pair: &FoundPair<'_>) -> Result<Vec<u8>, NoMemory> {
    let mut members = Members::new(alloc);
    members.number("version", 1);
    members.text("answer", word_of(pair.answer));
    if let Some(time) = time_of(pair) {
        members.number("time", time);
    }
    if pair.answer == PairAnswer::Part {
        members.number("before", pair.before);
        members.try_value("apart", apart_of(alloc, pair));
    }
    members.try_value("joint", joint_of(alloc, &pair.joint));
    members.try_value("first", object_of(alloc, &pair.first.found));
    members.try_value("second", object_of(alloc, &pair.second.found));
    document(alloc, &members.whole()?)
}
