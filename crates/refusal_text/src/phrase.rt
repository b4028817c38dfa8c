// Tables of words, by those round them, and the construct that each row tells.

use crate::construct::Construct;
use crate::words::{Words, is_name, is_one_of};

/// Words, and the construct that each of them tells.
pub(crate) struct Keywords {
    pub(crate) words: &'static str,
    pub(crate) construct: Construct,
}

/// What a word may be.
#[derive(Clone, Copy)]
pub(crate) enum Beside {
    Any,
    Name,
    One(&'static str),
    Not(&'static str),
}

/// Words, what may stand before them and what next and then behind them, and the construct that they tell there.
pub(crate) struct Phrase {
    pub(crate) words: &'static str,
    pub(crate) before: Beside,
    pub(crate) next: Beside,
    pub(crate) then: Beside,
    pub(crate) construct: Construct,
}

impl Beside {
    // Whether the word may stand here.
    fn takes(self, word: &[u8]) -> bool {
        match self {
            Beside::Any => true,
            Beside::Name => is_name(word),
            Beside::One(words) => is_one_of(word, words),
            Beside::Not(words) => !is_one_of(word, words),
        }
    }
}

impl Phrase {
    // Whether the words stand here.
    fn stands(&self, words: Words<'_>) -> bool {
        is_one_of(words.word, self.words)
            && self.before.takes(words.before)
            && self.next.takes(words.after)
            && self.then.takes(words.second_after)
    }
}

/// The construct that the word tells, if one of these rows has it.
pub(crate) fn told_alone(word: &[u8], all: &[Keywords]) -> Option<Construct> {
    for row in all {
        if is_one_of(word, row.words) {
            return Some(row.construct);
        }
    }
    None
}

/// The construct of the first of these rows that stands here.
pub(crate) fn told_by(words: Words<'_>, all: &[Phrase]) -> Option<Construct> {
    for row in all {
        if row.stands(words) {
            return Some(row.construct);
        }
    }
    None
}
