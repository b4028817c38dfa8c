// What is wrong with the arguments of a task that prints: a format takes what stands behind its string (IEEE 1364-2005, 17.1.1).

use crate::construct::Construct;
use crate::find::{Found, What};
use crate::formats::{Format, letters_of, next_format};
use crate::mistakes::Mistake;
use crate::walk::PRINTS;
use crate::words::{Words, is, is_one_of};
use vlex::TokenKind;

// How many words of arguments are looked at.
const FAR: usize = 4_096;

// How many words may stand before the first name, number or string of the arguments.
const FRONT: usize = 128;

// These may stand before it.
const FRONTS: &str = "( { + - ~ ! & | ^ ~& ~| ^~ ~^ $signed $unsigned";

const OPENING: &str = "( [ {";

const CLOSING: &str = ") ] }";

// Arguments up to a word: the string whose format is read and what is left of it, how many brackets are open, whether an argument begins,
// what was wrong.
#[derive(Clone, Copy)]
struct Printed<'a> {
    string: Words<'a>,
    format: &'a [u8],
    open: usize,
    begins: bool,
    wrong: Option<Found<'a>>,
}

// The text, looked at from the first word of a task's arguments, whose first name, number or string this word is.
fn arguments_at<'a>(words: Words<'a>) -> Option<Words<'a>> {
    for fewer in 1usize..FRONT {
        let before = words.word_before(fewer);
        if is(before, "(") && is_one_of(words.word_before(fewer.saturating_add(1)), PRINTS) {
            return Some(words.earlier(fewer.saturating_sub(1)));
        }
        if !is_one_of(before, FRONTS) {
            return None;
        }
    }
    None
}

impl<'a> Printed<'a> {
    // What is wrong with a format of the string.
    fn finding(&self, what: What, format: Format<'a>) -> Found<'a> {
        Found {
            what,
            word: format.word,
            place: self.string.place(),
            more: 0,
        }
    }

    // What is wrong with a format that the profile leaves out.
    fn left_out(&self, format: Format<'a>) -> Found<'a> {
        self.finding(What::LeftOut(Construct::Format), format)
    }

    // What is wrong with the next format where no argument is left.
    fn at_end(&self) -> Option<Found<'a>> {
        let format = next_format(self.format)?;
        if format.form.is_none() {
            return Some(self.left_out(format));
        }
        Some(self.finding(What::Mistake(Mistake::NoArgument), format))
    }

    // What is wrong so, from here on.
    fn with_refusal(&self, wrong: Found<'a>) -> Printed<'a> {
        let mut next = *self;
        next.wrong = Some(wrong);
        next
    }

    // With this left of a format.
    fn left(&self, format: &'a [u8]) -> Printed<'a> {
        let mut next = *self;
        next.format = format;
        next
    }

    // Behind a string that is a format.
    fn at_format(&self, words: Words<'a>) -> Printed<'a> {
        let mut next = self.left(letters_of(words.word));
        next.string = words;
        next
    }

    // Behind a string, which the next format takes.
    fn after_string(&self, format: Format<'a>) -> Printed<'a> {
        if format.form == Some(b's') {
            return self.left(format.behind);
        }
        self.with_refusal(self.finding(What::Mistake(Mistake::FormatOfString), format))
    }

    // Behind an argument that begins with this word, or, where it is left out, ends before it; then it is shown as a string.
    fn after_argument(&self, words: Words<'a>) -> Printed<'a> {
        let is_left_out = is_one_of(words.word, ", )");
        let is_string = words.is(TokenKind::Text) || is_left_out;
        match next_format(self.format) {
            Some(format) if format.form.is_none() => self.with_refusal(self.left_out(format)),
            Some(format) if is_string => self.after_string(format),
            Some(format) => self.left(format.behind),
            None if is_left_out => self.left(&[]),
            None if is_string => self.at_format(words),
            None => self.left(&[]),
        }
    }

    // Behind one more word.
    fn after(&self, words: Words<'a>) -> Printed<'a> {
        let mut next = if self.begins {
            self.after_argument(words)
        } else {
            *self
        };
        let word = words.word;
        next.begins = is(word, ",") && self.open == 0;
        if is_one_of(word, OPENING) {
            next.open = self.open.saturating_add(1);
        }
        if is_one_of(word, CLOSING) {
            next.open = self.open.saturating_sub(1);
        }
        next
    }
}

// What is wrong with the arguments from this word on.
fn wrong_in<'a>(words: Words<'a>) -> Option<Found<'a>> {
    let mut printed = Printed {
        string: words,
        format: &[],
        open: 0,
        begins: true,
        wrong: None,
    };
    for more in 0..FAR {
        let word = words.later(more);
        if printed.wrong.is_some() {
            return printed.wrong;
        }
        if printed.open == 0 && is(word.word, ")") {
            let last = if printed.begins {
                printed.after_argument(word)
            } else {
                printed
            };
            return match last.wrong {
                None => last.at_end(),
                wrong => wrong,
            };
        }
        printed = printed.after(word);
    }
    None
}

/// What is wrong with the formats of a task, of whose arguments this word is the first name, number or string: told at the string that has
/// the format.
pub(crate) fn format_near<'a>(words: Words<'a>) -> Option<Found<'a>> {
    wrong_in(arguments_at(words)?)
}
