// The words of a text, looked at from one of them.

use crate::lines::from;
use memchr::memchr;
use vlex::{TokenKind, Tokens};
use vsrc::Place;
pub(crate) use vwords::words::is_name;
use vwords::words::without_backslash;

/// A word of a text, with the two before and the two after it, and the others by calls. Beyond both ends of the text there are empty words.
#[derive(Clone, Copy)]
pub(crate) struct Words<'a> {
    tokens: &'a Tokens<'a>,
    at: usize,
    pub(crate) second_before: &'a [u8],
    pub(crate) before: &'a [u8],
    pub(crate) word: &'a [u8],
    pub(crate) after: &'a [u8],
    pub(crate) second_after: &'a [u8],
}

// How far a pair of brackets is followed.
const FAR: usize = 64;

/// Whether the word is this one.
pub(crate) fn is(word: &[u8], text: &str) -> bool {
    word == text.as_bytes()
}

// Whether these words, which blanks separate, have this one at the place.
fn stands_at(words: &[u8], at: usize, word: &[u8]) -> bool {
    let begins = match at.checked_sub(1) {
        None => true,
        Some(before) => words.get(before).copied() == Some(b' '),
    };
    let rest = from(words, at);
    begins && rest.starts_with(word) && rest.get(word.len()).copied().unwrap_or(b' ') == b' '
}

/// Whether the word is one of these, which blanks separate. It is asked some forty times of each word of a text: only where its first letter
/// stands more is looked at.
pub(crate) fn is_one_of(word: &[u8], words: &str) -> bool {
    let Some(first) = word.first() else {
        return false;
    };
    let all = words.as_bytes();
    let mut start = 0usize;
    for _ in 0..all.len() {
        let Some(more) = memchr(*first, from(all, start)) else {
            return false;
        };
        let at = start.saturating_add(more);
        if stands_at(all, at, word) {
            return true;
        }
        start = at.saturating_add(1);
    }
    false
}

// The word at the place, empty beyond the end.
fn word_at<'a>(tokens: &'a Tokens<'a>, at: usize) -> &'a [u8] {
    if at < tokens.len() {
        tokens.text(at)
    } else {
        &[]
    }
}

// The word so many places before the place, empty beyond the beginning.
fn word_before<'a>(tokens: &'a Tokens<'a>, at: usize, fewer: usize) -> &'a [u8] {
    match at.checked_sub(fewer) {
        None => &[],
        Some(place) => word_at(tokens, place),
    }
}

// Whether the word at the place is of this kind.
fn is_of(tokens: &Tokens<'_>, at: usize, kind: TokenKind) -> bool {
    at < tokens.len() && tokens.kind(at) == kind
}

impl<'a> Words<'a> {
    /// The text, looked at from the word at this place, from 0.
    pub(crate) fn new(tokens: &'a Tokens<'a>, at: usize) -> Words<'a> {
        Words {
            tokens,
            at,
            second_before: word_before(tokens, at, 2),
            before: word_before(tokens, at, 1),
            word: word_at(tokens, at),
            after: word_at(tokens, at.saturating_add(1)),
            second_after: word_at(tokens, at.saturating_add(2)),
        }
    }

    /// The text, looked at from the next word.
    pub(crate) fn next(self) -> Words<'a> {
        Words::new(self.tokens, self.at.saturating_add(1))
    }

    /// The text, looked at from the word before.
    pub(crate) fn previous(self) -> Words<'a> {
        Words::new(self.tokens, self.at.saturating_sub(1))
    }

    /// The text, looked at from the word so many places later.
    pub(crate) fn later(self, more: usize) -> Words<'a> {
        Words::new(self.tokens, self.at.saturating_add(more))
    }

    /// The text, looked at from the word so many places earlier.
    pub(crate) fn earlier(self, fewer: usize) -> Words<'a> {
        Words::new(self.tokens, self.at.saturating_sub(fewer))
    }

    /// The word so many places later.
    pub(crate) fn word_after(self, more: usize) -> &'a [u8] {
        word_at(self.tokens, self.at.saturating_add(more))
    }

    /// The word so many places earlier.
    pub(crate) fn word_before(self, fewer: usize) -> &'a [u8] {
        word_before(self.tokens, self.at, fewer)
    }

    /// The letters of the name that the word is.
    pub(crate) fn name(self) -> &'a [u8] {
        without_backslash(self.word)
    }

    /// The letters of the name so many places earlier.
    pub(crate) fn name_before(self, fewer: usize) -> &'a [u8] {
        without_backslash(self.word_before(fewer))
    }

    /// Its kind; none beyond the end of the text.
    pub(crate) fn kind(self) -> Option<TokenKind> {
        if self.at < self.tokens.len() {
            Some(self.tokens.kind(self.at))
        } else {
            None
        }
    }

    /// Whether the word is of this kind.
    pub(crate) fn is(self, kind: TokenKind) -> bool {
        is_of(self.tokens, self.at, kind)
    }

    /// Whether the word so many places earlier is a decimal number without size.
    pub(crate) fn is_plain_before(self, fewer: usize) -> bool {
        match self.at.checked_sub(fewer) {
            None => false,
            Some(at) => is_of(self.tokens, at, TokenKind::Plain),
        }
    }

    /// Whether the word so many places later is a decimal number without size.
    pub(crate) fn is_plain_after(self, more: usize) -> bool {
        is_of(self.tokens, self.at.saturating_add(more), TokenKind::Plain)
    }

    /// Where the word stands in the files.
    pub(crate) fn place(self) -> Place {
        let end = self.tokens.len();
        self.tokens.place(if self.at < end { self.at } else { end })
    }

    /// Whether nothing stands between the word before and this one.
    pub(crate) fn adjoins(self) -> bool {
        let Some(before) = self.at.checked_sub(1) else {
            return false;
        };
        if self.at >= self.tokens.len() {
            return false;
        }
        let (left, here) = (self.tokens.place(before), self.place());
        let end = left.column.saturating_add(self.before.len());
        left.file == here.file && left.line == here.line && end == here.column
    }

    /// The second word before the pair of brackets that the word before closes: before the name that the brackets belong to.
    pub(crate) fn before_brackets(self) -> &'a [u8] {
        let mut open = 0usize;
        for fewer in 1..FAR {
            let word = self.word_before(fewer);
            if is(word, "]") {
                open = open.saturating_add(1);
            }
            if is(word, "[") {
                open = open.saturating_sub(1);
                if open == 0 {
                    return self.word_before(fewer.saturating_add(2));
                }
            }
        }
        &[]
    }

    /// The word behind the pair of brackets that this one opens; empty where it isn't closed near.
    pub(crate) fn behind_brackets(self) -> &'a [u8] {
        let mut open = 0usize;
        for more in 0..FAR {
            let word = self.word_after(more);
            if is(word, "[") {
                open = open.saturating_add(1);
            }
            if is(word, "]") {
                open = open.saturating_sub(1);
                if open == 0 {
                    return self.word_after(more.saturating_add(1));
                }
            }
        }
        &[]
    }
}
