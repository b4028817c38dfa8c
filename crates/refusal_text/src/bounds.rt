// Ranges of declarations, as far as numbers tell what they are.

use crate::construct::Construct;
use crate::words::{Words, is, is_name, is_one_of};

// How many numbers of a bound are looked at, and how many signs before the first word of one.
const FAR: usize = 64;

// The widest vector, in bits.
const WIDTH: u64 = 64;

// These may stand before the first word of a bound.
const SIGNS: &str = "( { + - ~ ! & | ^ $signed";

// The value of a bound, and how many words it has.
#[derive(Clone, Copy)]
struct Bound {
    value: u64,
    len: usize,
}

// A sum of products: what stands before its last product, and that.
#[derive(Clone, Copy)]
struct Sum {
    before: u64,
    last: u64,
    is_less: bool,
}

// The number that digits write, or the greatest.
fn number_of(digits: &[u8]) -> u64 {
    let mut number = 0u64;
    for digit in digits {
        if digit.is_ascii_digit() {
            let unit = u64::from(digit.saturating_sub(b'0'));
            number = number.saturating_mul(10).saturating_add(unit);
        }
    }
    number
}

impl Sum {
    // Its value.
    fn whole(&self) -> u64 {
        if self.is_less {
            self.before.saturating_sub(self.last)
        } else {
            self.before.saturating_add(self.last)
        }
    }

    // With one more number behind this sign.
    fn with(&self, sign: &[u8], number: u64) -> Option<Sum> {
        let is_less = is(sign, "-");
        if is(sign, "*") {
            let mut next = *self;
            next.last = self.last.saturating_mul(number);
            return Some(next);
        }
        if is_less || is(sign, "+") {
            return Some(Sum {
                before: self.whole(),
                last: number,
                is_less,
            });
        }
        None
    }
}

// The bound that begins here, where it is a sum of products of numbers.
fn bound_at(words: Words<'_>) -> Option<Bound> {
    let mut sum = Sum {
        before: 0,
        last: number_of(words.word),
        is_less: false,
    };
    for pair in 0usize..FAR {
        let len = pair.saturating_mul(2).saturating_add(1);
        let next = len.saturating_add(1);
        let sign = words.word_after(len);
        if is_one_of(sign, ": ]") {
            let value = sum.whole();
            return Some(Bound { value, len });
        }
        if !words.is_plain_after(next) {
            return None;
        }
        sum = sum.with(sign, number_of(words.word_after(next)))?;
    }
    None
}

// Whether the bracket so many places earlier begins a range, and no select.
fn begins_range(words: Words<'_>, fewer: usize) -> bool {
    let selects = is_name(words.word_before(fewer.saturating_add(1)))
        || is_one_of(words.word_before(fewer.saturating_add(1)), "] ) }");
    is(words.word_before(fewer), "[") && !selects
}

/// Whether the word is the first one of the range of a declaration.
pub(crate) fn opens_range(words: Words<'_>) -> bool {
    for fewer in 1usize..FAR {
        if is(words.word_before(fewer), "[") {
            return begins_range(words, fewer);
        }
        if !is_one_of(words.word_before(fewer), SIGNS) {
            return false;
        }
    }
    false
}

/// The construct of a decimal number without size: the range of a vector of more than 64 bits.
pub(crate) fn by_plain_number(words: Words<'_>) -> Option<Construct> {
    if !begins_range(words, 1) {
        return None;
    }
    let left = bound_at(words)?;
    let behind = words.later(left.len.saturating_add(1));
    if !is(words.word_after(left.len), ":") || !behind.is_plain_after(0) {
        return None;
    }
    let right = bound_at(behind)?;
    if left.value.abs_diff(right.value) < WIDTH || !is(behind.word_after(right.len), "]") {
        return None;
    }
    Some(Construct::WideVector)
}
