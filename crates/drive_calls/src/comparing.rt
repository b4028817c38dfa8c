// What of a testbench is compared with the dump that it was made of.

use crate::differing::{Told, answer_words};
use crate::notes::ToldUnits;
use crate::reading::ReadDump;
use crate::stops::is_file;
use basis::{NoMemory, Timescale};
use command_line::DriveWords;
use drive_dump::{DrivenModule, Recording};
use drive_match::{Answer, Asked, Bounds, NotCompared, compare};
use drive_text::Role;
use std::alloc::Global;

/// The names of the testbench's module, of the instance in it and of the scope; an input that is posted at time 0; from when on each input is
/// as the dump has it, and the last time that is driven, in units of the precision, of which each has so many `parts` of those that are
/// shown; and whether all inputs are known from the dump's beginning on.
#[derive(Drop)]
pub(crate) struct ToCompare {
    top: Vec<u8>,
    instance: Vec<u8>,
    scope: Vec<u8>,
    posted: Option<Vec<u8>>,
    settled: Option<u64>,
    last: u64,
    parts: u64,
    knows_all: bool,
}

// Whether the dump has a value of each input.
fn has_each(module: &DrivenModule, recording: &Recording) -> bool {
    for (place, port) in module.ports.iter().enumerate() {
        if port.role != Role::Output && !recording.has_value(place) {
            return false;
        }
    }
    true
}

// An input that is posted at time 0: one that a process hears as a reset, if there is one, else the first.
fn posted_at_first(module: &DrivenModule, recording: &Recording) -> Option<usize> {
    let mut found: Option<usize> = None;
    for change in &recording.changes {
        if change.time > 0 {
            return found;
        }
        if module.is_posted_reset(change.port) {
            return Some(change.port);
        }
        found = found.or(Some(change.port));
    }
    found
}

// The name of that input.
fn posted_name(
    alloc: Global,
    module: &DrivenModule,
    recording: &Recording,
) -> Result<Option<Vec<u8>>, NoMemory> {
    let Some(place) = posted_at_first(module, recording) else {
        return Ok(None);
    };
    match module.ports.get(place) {
        None => Ok(None),
        Some(port) => Ok(Some(Vec::from_slice(alloc, &port.name)?)),
    }
}

// The time in units of so many of these, rounded up.
fn in_parts(time: u64, parts: u64) -> u64 {
    let whole = time.checked_div(parts).unwrap_or(0);
    if time.checked_rem(parts).unwrap_or(0) == 0 {
        whole
    } else {
        whole.saturating_add(1)
    }
}

/// What is compared of a testbench of this timescale.
pub(crate) fn compared_of(
    alloc: Global,
    module: &DrivenModule,
    read: &ReadDump,
    scale: Timescale,
) -> Result<ToCompare, NoMemory> {
    let parts = read.units.parts_of_precision(scale);
    let recording = &read.recording;
    Ok(ToCompare {
        top: Vec::from_slice(alloc, &module.top)?,
        instance: Vec::from_slice(alloc, &module.instance)?,
        scope: Vec::from_slice(alloc, &read.scope)?,
        posted: posted_name(alloc, module, recording)?,
        settled: recording.settled().map(|time| in_parts(time, parts)),
        last: recording.last.checked_div(parts).unwrap_or(0),
        parts,
        knows_all: recording.first == 0 && has_each(module, recording),
    })
}

// The testbench and the files behind it.
fn with_bench(alloc: Global, texts: &[Vec<u8>], bench: &[u8]) -> Result<Vec<Vec<u8>>, NoMemory> {
    let mut all = Vec::new(alloc);
    all.push(Vec::from_slice(alloc, bench)?)?;
    for text in texts {
        all.push(Vec::from_slice(alloc, text)?)?;
    }
    Ok(all)
}

impl ToCompare {
    // What is told of it.
    fn told<'a>(&'a self, words: &DriveWords<'a>, from: u64, units: ToldUnits) -> Told<'a> {
        Told {
            dump: words.dump,
            scope: &self.scope,
            top: &self.top,
            instance: &self.instance,
            posted: self.posted_input(),
            from,
            knows_all: self.knows_all,
            parts: self.parts,
            units,
            steps: words.steps,
            seconds: words.seconds,
        }
    }

    // The input that is posted at time 0, if there is one.
    fn posted_input(&self) -> Option<&[u8]> {
        match &self.posted {
            None => None,
            Some(name) => Some(name),
        }
    }
}

// What came of comparing the testbench and the files behind it, from this time on.
fn answer_of(
    rt: &HostRuntime,
    words: &DriveWords<'_>,
    texts: &[Vec<u8>],
    compared: &ToCompare,
    from: u64,
) -> Result<Answer, NoMemory> {
    if !is_file(rt, words.dump) {
        return Ok(Answer::Not(NotCompared::Pipe));
    }
    let asked = Asked {
        texts,
        top: &compared.top,
        instance: &compared.instance,
        dump: words.dump,
        scope: &compared.scope,
        bounds: Bounds {
            from,
            last: compared.last,
            knows_all: compared.knows_all,
            steps: words.steps,
            seconds: words.seconds,
        },
    };
    compare(rt, &asked)
}

/// What is to be told of the testbench's default order beside the dump: nothing where none of its values differs.
pub(crate) fn compare_bench(
    rt: &HostRuntime,
    words: &DriveWords<'_>,
    texts: &[Vec<u8>],
    bench: &[u8],
    compared: &ToCompare,
    units: ToldUnits,
) -> Result<String, NoMemory> {
    let (Some(from), true) = (compared.settled, words.steps > 0 && words.seconds > 0) else {
        return Ok(String::new(rt.alloc()));
    };
    let all = with_bench(rt.alloc(), texts, bench)?;
    let answer = answer_of(rt, words, &all, compared, from)?;
    answer_words(rt.alloc(), &answer, &compared.told(words, from, units))
}
