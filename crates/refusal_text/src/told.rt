// A refusal in words.

use crate::bounds::opens_range;
use crate::construct::Construct;
use crate::find::{Found, What, construct_at, construct_near, constructs, found_at, is_same};
use crate::grammar_mistakes::{grammar_mistake_of, is_long_name};
use crate::lines::Files;
use crate::mended::{Mended, mend_files};
use crate::message::put_found;
use crate::mistakes::{Mistake, rule_for};
use crate::modules::modules_of;
use crate::ports::mistake_of;
use crate::printed::format_near;
use crate::text::Text;
use crate::tops::{missing_modules, put_none, put_several};
use crate::undeclared::undeclared_names;
use crate::words::{Words, is};
use basis::NoMemory;
use std::alloc::Global;
use vlex::{TokenKind, Tokens, tokens};
use vsrc::{Place, expand};

// The first number of a fault of words; below it are those of letters.
const OF_WORDS: u16 = 200;

// Behind all files.
const END: Place = Place {
    file: usize::MAX,
    line: 0,
    column: 0,
};

// The word that begins at the place; the number of words where none does.
fn word_at<'a>(tokens: &'a Tokens<'a>, place: Place) -> usize {
    for at in 0..tokens.len() {
        if tokens.place(at) == place {
            return at;
        }
    }
    tokens.len()
}

// What was found, if it is this construct.
fn only(found: Option<Found<'_>>, construct: Construct) -> Option<Found<'_>> {
    match found {
        Some(found) if found.what == What::LeftOut(construct) => Some(found),
        _ => None,
    }
}

// What was found, if it is what is taken for an instance of a module that isn't there.
fn only_instance(found: Option<Found<'_>>) -> Option<Found<'_>> {
    match found {
        Some(found) if found.what == What::LeftOut(Construct::Assertion) => Some(found),
        other => only(other, Construct::ThreeState),
    }
}

// A vector of too many bits, or the range whose first word this is.
fn range_at<'a>(tokens: &'a Tokens<'a>, at: usize) -> Option<Found<'a>> {
    if let Some(found) = only(construct_at(tokens, at), Construct::WideVector) {
        return Some(found);
    }
    let words = Words::new(tokens, at);
    if opens_range(words) {
        return Some(found_at(words, Construct::Range, words.word));
    }
    None
}

// Whether the word names an instance that is connected by names: what is told at it is an output on an expression.
fn is_connected_by_names(words: Words<'_>) -> bool {
    is(words.after, "(") && is(words.second_after, ".")
}

// Whether the word is the number of levels of `$dumpvars`, where what is wrong with its paths is told.
fn is_dump_path(tokens: &Tokens<'_>, at: usize) -> bool {
    let words = Words::new(tokens, at);
    words.is(TokenKind::Plain) && is(words.before, "(") && is(words.second_before, "$dumpvars")
}

// A mistake at this word.
fn found_mistake<'a>(words: Words<'a>, mistake: Mistake) -> Found<'a> {
    Found {
        what: What::Mistake(mistake),
        word: words.word,
        place: words.place(),
        more: 0,
    }
}

// The mistake of a port, of a parameter or of an instance that the fault is told by, if it comes of one.
fn declared_at<'a>(tokens: &'a Tokens<'a>, at: usize, number: u16) -> Option<Found<'a>> {
    let mistake = mistake_of(tokens, at, number)?;
    Some(found_mistake(Words::new(tokens, at), mistake))
}

// The mistake of the grammar that the word is refused for, if the words before it tell one.
fn grammar_mistake_at<'a>(tokens: &'a Tokens<'a>, at: usize) -> Option<Found<'a>> {
    let words = Words::new(tokens, at);
    if at > 0 && is_long_name(words.previous()) {
        return Some(found_mistake(words.previous(), Mistake::LongName));
    }
    let mistake = grammar_mistake_of(tokens, at)?;
    Some(found_mistake(words, mistake))
}

// The first that there is.
fn first_of<'a>(one: Option<Found<'a>>, other: Option<Found<'a>>) -> Option<Found<'a>> {
    match one {
        Some(found) => Some(found),
        None => other,
    }
}

// The construct or the mistake that the fault is told by, if it comes of one.
fn cause_of<'a>(tokens: &'a Tokens<'a>, at: usize, number: u16) -> Option<Found<'a>> {
    let words = Words::new(tokens, at);
    match number {
        201 | 202 => first_of(construct_near(tokens, at), grammar_mistake_at(tokens, at)),
        301 => only_instance(construct_at(tokens, at)),
        305 if is_connected_by_names(words) => {
            Some(found_at(words, Construct::OutputExpression, words.word))
        }
        305 if is(words.before, ".") => Some(found_mistake(words, Mistake::NoPort)),
        303 | 310 if is_dump_path(tokens, at) => { Some(found_at(words, Construct::DumpPath, &[])) }
        302 | 303 | 305 => declared_at(tokens, at, number),
        306 => first_of(range_at(tokens, at), declared_at(tokens, at, number)),
        310 => first_of(format_near(words), declared_at(tokens, at, number)),
        _ => None,
    }
}

// The number of the fault that is told; none of a construct.
fn number_of(what: What) -> u16 {
    match what {
        What::LeftOut(_) => 0,
        What::Broken(number) => number,
        What::Mistake(mistake) => match rule_for(mistake) {
            None => 0,
            Some(rule) => rule.number,
        },
    }
}

// What is told, with how often it comes beside.
fn with_count<'a>(told: Found<'a>, all: &[Found<'_>]) -> Found<'a> {
    for found in all {
        if is_same(found, &told) {
            let mut counted = told;
            counted.more = found.more;
            return counted;
        }
    }
    told
}

// Each that was found but for the one that was told.
fn put_others(text: &mut Text, files: Files<'_>, all: &[Found<'_>], told: &Found<'_>) {
    for found in all {
        if !is_same(found, told) {
            put_found(text, files, found);
        }
    }
}

// What is told, with how often it comes beside, and each other that was found.
fn put_with_others(text: &mut Text, files: Files<'_>, told: Found<'_>, all: &[Found<'_>]) {
    put_found(text, files, &with_count(told, all));
    put_others(text, files, all, &told);
}

// A fault of the design for which no module, or none alone, is the top.
fn put_modules<'a>(
    alloc: Global,
    text: &mut Text,
    files: Files<'_>,
    told: Found<'a>,
    tokens: &'a Tokens<'a>,
    at: usize,
) -> Result<(), NoMemory> {
    let modules = modules_of(alloc, tokens)?;
    if is(Words::new(tokens, at).before, "module") {
        return put_several(alloc, text, files, told.place, &modules);
    }
    put_with_others(text, files, told, &missing_modules(alloc, &modules)?);
    Ok(())
}

// The messages of a text with words.
fn put_by_words<'a>(
    alloc: Global,
    text: &mut Text,
    files: Files<'_>,
    number: u16,
    place: Place,
    tokens: &'a Tokens<'a>,
) -> Result<(), NoMemory> {
    let at = word_at(tokens, place);
    let broken = Found {
        what: What::Broken(number),
        word: Words::new(tokens, at).word,
        place,
        more: 0,
    };
    let all = constructs(alloc, tokens)?;
    let told = cause_of(tokens, at, number).unwrap_or(broken);
    match number_of(told.what) {
        301 => put_modules(alloc, text, files, told, tokens, at)?,
        303 => put_with_others(text, files, told, &undeclared_names(alloc, tokens)?),
        _ => put_found(text, files, &with_count(told, &all)),
    }
    put_others(text, files, &all, &told);
    Ok(())
}

// Whether the one stands before the other.
fn is_before(one: Place, other: Place) -> bool {
    if one.file != other.file {
        return one.file < other.file;
    }
    if one.line != other.line {
        return one.line < other.line;
    }
    one.column < other.column
}

// Those from this one on that stand before the place; the answer is the next one.
fn put_before(
    text: &mut Text,
    files: Files<'_>,
    all: &[Found<'_>],
    from: usize,
    place: Place,
) -> usize {
    for (at, found) in all.iter().enumerate() {
        if at >= from {
            if !is_before(found.place, place) {
                return at;
            }
            put_found(text, files, found);
        }
    }
    all.len()
}

// What was found by letters and by words; first what is refused, and then each in its place.
fn put_both(text: &mut Text, files: Files<'_>, by_letters: &[Found<'_>], by_words: &[Found<'_>]) {
    let mut next = 0;
    if let Some(first) = by_letters.first() {
        put_found(text, files, first);
        next = 1;
    }
    for found in by_words {
        next = put_before(text, files, by_letters, next, found.place);
        put_found(text, files, found);
    }
    put_before(text, files, by_letters, next, END);
}

// The constructs of the words of these files; none where they have no words.
fn put_left(
    alloc: Global,
    text: &mut Text,
    files: Files<'_>,
    mended: &Mended<'_>,
) -> Result<(), NoMemory> {
    let Ok(source) = expand(alloc, &mended.texts) else {
        put_both(text, files, &mended.found, &[]);
        return Ok(());
    };
    let Ok(words) = tokens(alloc, &source) else {
        put_both(text, files, &mended.found, &[]);
        return Ok(());
    };
    put_both(text, files, &mended.found, &constructs(alloc, &words)?);
    Ok(())
}

// The messages of files that are refused by their letters: what is refused so, and the constructs of what is left.
fn put_by_letters(
    alloc: Global,
    text: &mut Text,
    files: Files<'_>,
    number: u16,
    place: Place,
) -> Result<(), NoMemory> {
    let mut mended = mend_files(alloc, files)?;
    if mended.found.is_empty() {
        mended.found.push(Found {
            what: What::Broken(number),
            word: &[],
            place,
            more: 0,
        })?;
    }
    put_left(alloc, text, files, &mended)
}

// The messages of a fault at this place.
fn put_at(
    alloc: Global,
    text: &mut Text,
    files: Files<'_>,
    number: u16,
    place: Place,
) -> Result<(), NoMemory> {
    if number < OF_WORDS {
        return put_by_letters(alloc, text, files, number, place);
    }
    let Ok(source) = expand(alloc, files.texts) else {
        return Ok(());
    };
    let Ok(words) = tokens(alloc, &source) else {
        return Ok(());
    };
    put_by_words(alloc, text, files, number, place, &words)
}

// The messages of files none of whose modules is the top.
fn put_without_top(
    alloc: Global,
    text: &mut Text,
    files: Files<'_>,
    tops: &[&str],
) -> Result<(), NoMemory> {
    let Ok(source) = expand(alloc, files.texts) else {
        return Ok(());
    };
    let Ok(words) = tokens(alloc, &source) else {
        return Ok(());
    };
    put_none(alloc, text, &modules_of(alloc, &words)?, tops)
}

/// What is told of a refusal of these files by this number, at this place, with these top modules asked for: where it stands, in words
/// what is refused, the source line with a caret, and what to write in its place; then each construct of the text that the profile
/// leaves out. Of a top module that isn't there, which there are. Nothing where no place is known otherwise. E901 is the only refusal.
pub fn refusal_text(
    alloc: Global,
    number: u16,
    place: Option<Place>,
    files: Files<'_>,
    tops: &[&str],
) -> Result<Vec<u8>, NoMemory> {
    let mut text = Text::new(alloc);
    match place {
        Some(place) => put_at(alloc, &mut text, files, number, place)?,
        None if number == 301 => put_without_top(alloc, &mut text, files, tops)?,
        None => {}
    }
    text.finish()
}
