// Files of which what can't be read by words is taken out, so that reading goes on behind it.

use crate::find::{Found, What, keep};
use crate::letters::{Flaw, Letters, flaw_of, len_of};
use crate::lines::{Files, from, front, offset_of};
use crate::mistakes::Mistake;
use basis::{NoMemory, OrMemory};
use std::alloc::Global;
use vlex::{LexFault, tokens};
use vsrc::{Place, SrcFault, expand};

// How often something is taken out, and how many bytes are read for it in all.
const TURNS: usize = 256;

const BYTES: usize = 67_108_864;

// With these the beginning of a conditional, or of other reserved words, may be taken out, and then its end is one of those.
const BEGINS: [Mistake; 3] = [
    Mistake::KeywordsVersion,
    Mistake::LateDirective,
    Mistake::NamelessDirective,
];

const ENDS: [Mistake; 2] = [Mistake::ClosedConditional, Mistake::ClosedKeywords];

/// Files, and what was taken out of them.
#[derive(Drop)]
pub(crate) struct Mended<'a> {
    pub(crate) texts: Vec<Vec<u8>>,
    pub(crate) found: Vec<Found<'a>>,
}

// The number of a fault, and its place.
#[derive(Clone, Copy)]
struct Refusal {
    number: u16,
    place: Place,
}

fn refused_source(fault: SrcFault) -> Refusal {
    let (number, place) = match fault {
        SrcFault::Directive { place } => (110, place),
        SrcFault::NoMacro { place } => (111, place),
        SrcFault::Growth { place } => (112, place),
        SrcFault::LeftOpen { place } => (113, place),
        SrcFault::Timescales { place } => (114, place),
    };
    Refusal { number, place }
}

fn refused_words(fault: LexFault) -> Refusal {
    let (number, place) = match fault {
        LexFault::NotEnded { place } => (101, place),
        LexFault::BadToken { place } => (102, place),
    };
    Refusal { number, place }
}

// What the files are refused for before they have words, if they are.
fn refusal_of(alloc: Global, texts: &[Vec<u8>]) -> Result<Option<Refusal>, NoMemory> {
    let source = match expand(alloc, texts) {
        Ok(source) => source,
        Err(OrMemory::Fault(fault)) => return Ok(Some(refused_source(fault))),
        Err(OrMemory::Memory(refused)) => return Err(refused),
    };
    match tokens(alloc, &source) {
        Ok(_) => Ok(None),
        Err(OrMemory::Fault(fault)) => Ok(Some(refused_words(fault))),
        Err(OrMemory::Memory(refused)) => Err(refused),
    }
}

// The letters of the file from this place on.
fn letters_from(texts: &[Vec<u8>], place: Place) -> &[u8] {
    match texts.get(place.file.saturating_sub(1)) {
        None => &[],
        Some(text) => match text.get(offset_of(text, place)..) {
            None => &[],
            Some(rest) => rest,
        },
    }
}

// Puts what the flaw says in the place of its letters; lines stay.
fn take_out(text: &mut Vec<u8>, from: usize, flaw: Flaw) {
    let end = from.saturating_add(flaw.len);
    for (at, letter) in text.iter_mut().enumerate() {
        if at >= from && at < end && *letter != b'\n' {
            *letter = if at == from { flaw.first } else { flaw.other };
        }
    }
}

// The same in the file of the place.
fn take_out_of(texts: &mut Vec<Vec<u8>>, place: Place, flaw: Flaw) {
    for (at, text) in texts.iter_mut().enumerate() {
        if at.saturating_add(1) == place.file {
            let from = offset_of(text, place);
            take_out(text, from, flaw);
        }
    }
}

// Ends the conditional that is open.
fn end_conditional(texts: &mut Vec<Vec<u8>>) -> Result<(), NoMemory> {
    let last = texts.len();
    for (at, text) in texts.iter_mut().enumerate() {
        if at.saturating_add(1) == last {
            text.extend_from_slice(b"\n`endif")?;
        }
    }
    Ok(())
}

// What is told of the flaw: its word is that of the files as they were.
fn finding<'a>(files: Files<'a>, place: Place, flaw: Flaw) -> Found<'a> {
    let rest = letters_from(files.texts, place);
    Found {
        what: flaw.what,
        word: front(from(rest, flaw.before), flaw.word),
        place,
        more: 0,
    }
}

// Whether nothing but blanks stands before the place on its line.
fn is_first(texts: &[Vec<u8>], place: Place) -> bool {
    let Some(text) = texts.get(place.file.saturating_sub(1)) else {
        return false;
    };
    let end = offset_of(text, place);
    let before = from(front(text, end), end.saturating_sub(place.column));
    len_of(Letters::Blanks, before) == before.len()
}

// Whether it is one of these mistakes.
fn is_among(what: What, mistakes: &[Mistake]) -> bool {
    for mistake in mistakes {
        if what == What::Mistake(*mistake) {
            return true;
        }
    }
    false
}

// Whether the flaw comes of what was taken out before it: the beginning of what it ends.
fn follows(all: &[Found<'_>], flaw: Flaw) -> bool {
    if !is_among(flaw.what, &ENDS) {
        return false;
    }
    for found in all {
        if is_among(found.what, &BEGINS) {
            return true;
        }
    }
    false
}

// Takes out what is refused, and keeps what it was. False where reading can't go on.
fn mend<'a>(mended: &mut Mended<'a>, files: Files<'a>, refused: Refusal) -> Result<bool, NoMemory> {
    let rest = letters_from(&mended.texts, refused.place);
    let is_first = is_first(&mended.texts, refused.place);
    let flaw = flaw_of(refused.number, rest, is_first, files.texts);
    if !follows(&mended.found, flaw) {
        keep(&mut mended.found, finding(files, refused.place, flaw))?;
    }
    match refused.number {
        112 => Ok(false),
        113 => {
            end_conditional(&mut mended.texts)?;
            Ok(true)
        }
        _ => {
            take_out_of(&mut mended.texts, refused.place, flaw);
            Ok(true)
        }
    }
}

// A copy of the files, and how many bytes they have.
fn copy_texts(alloc: Global, texts: &[Vec<u8>]) -> Result<Vec<Vec<u8>>, NoMemory> {
    let mut copies = Vec::new(alloc);
    for text in texts {
        copies.push(Vec::from_slice(alloc, text)?)?;
    }
    Ok(copies)
}

// How often something may be taken out.
fn turns_of(texts: &[Vec<u8>]) -> usize {
    let mut size = 1usize;
    for text in texts {
        size = size.saturating_add(text.len());
    }
    TURNS.min(BYTES.checked_div(size).unwrap_or(0).saturating_add(1))
}

/// The files without what can't be read by words, as far as it is taken out, and what it was.
pub(crate) fn mend_files<'a>(alloc: Global, files: Files<'a>) -> Result<Mended<'a>, NoMemory> {
    let mut mended = Mended {
        texts: copy_texts(alloc, files.texts)?,
        found: Vec::new(alloc),
    };
    for _ in 0..turns_of(files.texts) {
        match refusal_of(alloc, &mended.texts)? {
            None => return Ok(mended),
            Some(refused) => {
                if !mend(&mut mended, files, refused)? {
                    return Ok(mended);
                }
            }
        }
    }
    Ok(mended)
}
