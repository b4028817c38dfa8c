// A message: where, what, the source line with a caret, and what to write in its place.

use crate::construct::{Row, row_of};
use crate::find::{Found, What};
use crate::lines::{Files, front, put_pointed};
use crate::mistakes::rule_for;
use crate::rules::{Rule, rule_of};
use crate::text::Text;
use itoa::Buffer;
use vsrc::Place;

// How much of a word is shown.
const WORD: usize = 40;

/// The file, the line and the column, from 1.
pub(crate) fn put_place(text: &mut Text, files: Files<'_>, place: Place) {
    let (mut line, mut column) = (Buffer::new(), Buffer::new());
    text.put_all(&[
        files.name(place.file).as_bytes(),
        b":",
        line.format(place.line as u64).as_bytes(),
        b":",
        column
            .format(place.column.saturating_add(1) as u64)
            .as_bytes(),
        b": ",
    ]);
}

/// The source line with its caret, and what to write in its place.
pub(crate) fn put_rest(text: &mut Text, files: Files<'_>, place: Place, instead: &[u8]) {
    put_pointed(text, files.line(place), place.column);
    text.put_advice(instead);
}

// How often it comes later, and the rest.
fn put_end(text: &mut Text, files: Files<'_>, found: &Found<'_>, instead: &[u8]) {
    if found.more > 0 {
        let mut digits = Buffer::new();
        let more = digits.format(found.more as u64).as_bytes();
        text.put_all(&[b" (and ", more, b" more)"]);
    }
    put_rest(text, files, found.place, instead);
}

/// The word as any terminal may be shown it.
pub(crate) fn put_shown(text: &mut Text, word: &[u8]) {
    text.put_letters(front(word, WORD));
    if word.len() > WORD {
        text.put_all(&[b".."]);
    }
}

/// The word in quotes.
pub(crate) fn put_quoted(text: &mut Text, word: &[u8]) {
    text.put_all(&[b"`"]);
    put_shown(text, word);
    text.put_all(&[b"`"]);
}

// What the profile leaves out; of some constructs with the word.
fn put_construct(text: &mut Text, files: Files<'_>, found: &Found<'_>, row: &Row) {
    put_place(text, files, found.place);
    text.put_all(&[b"not in the profile: ", row.what]);
    if row.names_word {
        text.put_all(&[b" "]);
        put_quoted(text, found.word);
    }
    put_end(text, files, found, row.instead);
}

// The rule that is broken: of some with the word, or with the end of the text where there is none.
fn put_rule(text: &mut Text, files: Files<'_>, found: &Found<'_>, rule: &Rule) {
    put_place(text, files, found.place);
    if rule.names_word && found.word.is_empty() {
        text.put_all(&[b"the end of the text "]);
    } else if rule.names_word {
        put_quoted(text, found.word);
        text.put_all(&[b" "]);
    }
    text.put_all(&[rule.what]);
    put_end(text, files, found, rule.instead);
}

/// The message of what was found.
pub(crate) fn put_found(text: &mut Text, files: Files<'_>, found: &Found<'_>) {
    let rule = match found.what {
        What::LeftOut(construct) => {
            return match row_of(construct) {
                None => {}
                Some(row) => put_construct(text, files, found, row),
            };
        }
        What::Broken(number) => rule_of(number),
        What::Mistake(mistake) => rule_for(mistake),
    };
    if let Some(rule) = rule {
        put_rule(text, files, found, rule);
    }
}
