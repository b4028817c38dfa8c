// Formats of printed lines (docs/LANGUAGE.md, "Printed lines").

use crate::lines::front;

// The most digits that a width has, beside a 0 in front of them.
const WIDTH_DIGITS: usize = 3;

// The most octal digits of an escape.
const OCTAL_DIGITS: usize = 3;

/// A format of a string: its letters as they are written, the one that says its form, and what stands behind. One that the profile
/// leaves out has no form.
#[derive(Clone, Copy)]
pub(crate) struct Format<'a> {
    pub(crate) word: &'a [u8],
    pub(crate) form: Option<u8>,
    pub(crate) behind: &'a [u8],
}

// A letter of a string, and what stands behind it.
#[derive(Clone, Copy)]
struct Letter<'a> {
    letter: u8,
    behind: &'a [u8],
}

// The digits of a width: how many there are, and how many zeros stand in front of them.
#[derive(Clone, Copy)]
struct Digits {
    len: usize,
    zeros: usize,
}

// What stands behind a percent sign: digits, a letter, and what follows.
#[derive(Clone, Copy)]
struct Parts<'a> {
    digits: Digits,
    last: Letter<'a>,
}

// How many octal digits of an escape stand at the head.
fn octal_len(letters: &[u8]) -> usize {
    for (at, letter) in letters.iter().enumerate() {
        let is_octal = *letter >= b'0' && *letter <= b'7';
        if !is_octal || at >= OCTAL_DIGITS {
            return at;
        }
    }
    letters.len()
}

// The letter that these octal digits write.
fn octal_of(digits: &[u8]) -> u8 {
    let mut letter = 0u8;
    for digit in digits {
        letter = letter
            .saturating_mul(8)
            .saturating_add(digit.saturating_sub(b'0'));
    }
    letter
}

// The letter behind a backslash.
fn escaped_letter(letters: &[u8]) -> Option<Letter<'_>> {
    let octals = octal_len(letters);
    if octals > 0 {
        let (digits, behind) = letters.split_at_checked(octals)?;
        let letter = octal_of(digits);
        return Some(Letter { letter, behind });
    }
    let (first, behind) = letters.split_first()?;
    let letter = if *first == b'n' { b'\n' } else { *first };
    Some(Letter { letter, behind })
}

// The first letter of what stands between the quotes of a string (3.6.3).
fn letter_of(letters: &[u8]) -> Option<Letter<'_>> {
    let (first, behind) = letters.split_first()?;
    if *first == b'\\' {
        return escaped_letter(behind);
    }
    let letter = *first;
    Some(Letter { letter, behind })
}

impl Digits {
    // With one more.
    fn with(&self, digit: u8) -> Digits {
        let is_front = digit == b'0' && self.zeros == self.len;
        Digits {
            len: self.len.saturating_add(1),
            zeros: if is_front {
                self.zeros.saturating_add(1)
            } else {
                self.zeros
            },
        }
    }

    // Whether they are a width: a number without a 0 in front, or a 0 with such a number behind it, or without.
    fn is_width(&self) -> bool {
        self.zeros <= 1 && self.len.saturating_sub(self.zeros) <= WIDTH_DIGITS
    }
}

// Whether it is the letter of a form.
fn is_letter(letter: u8) -> bool {
    match letter.to_ascii_lowercase() {
        b'b' | b'o' | b'h' | b'x' | b'd' | b't' | b'c' | b's' | b'm' => true,
        _ => false,
    }
}

// What stands behind a percent sign; nothing where the string ends before a letter.
fn parts_of(after: &[u8]) -> Option<Parts<'_>> {
    let mut digits = Digits { len: 0, zeros: 0 };
    let mut rest = after;
    for _ in 0..after.len() {
        let last = letter_of(rest)?;
        if !last.letter.is_ascii_digit() {
            return Some(Parts { digits, last });
        }
        digits = digits.with(last.letter);
        rest = last.behind;
    }
    None
}

// What stands behind a width of any form and the letter behind it.
fn behind_other(after: &[u8]) -> &[u8] {
    let mut rest = after;
    for _ in 0..after.len() {
        let Some(next) = letter_of(rest) else {
            return &[];
        };
        let is_in_width = next.letter.is_ascii_digit()
            || next.letter == b'.'
            || next.letter == b'-';
        if !is_in_width {
            return next.behind;
        }
        rest = next.behind;
    }
    rest
}

// What these letters have more than those behind them.
fn without_end<'a>(letters: &'a [u8], behind: &[u8]) -> &'a [u8] {
    front(letters, letters.len().saturating_sub(behind.len()))
}

// The format that these letters begin with, whose percent sign has this behind it.
fn format_at<'a>(letters: &'a [u8], after: &'a [u8]) -> Format<'a> {
    if let Some(parts) = parts_of(after) {
        if parts.digits.is_width() && is_letter(parts.last.letter) {
            return Format {
                word: without_end(letters, parts.last.behind),
                form: Some(parts.last.letter.to_ascii_lowercase()),
                behind: parts.last.behind,
            };
        }
    }
    let behind = behind_other(after);
    Format {
        word: without_end(letters, behind),
        form: None,
        behind,
    }
}

// What stands behind the percent sign that the letters behind another one begin with.
fn behind_percent(after: &[u8]) -> Option<&[u8]> {
    match letter_of(after) {
        Some(next) if next.letter == b'%' => Some(next.behind),
        _ => None,
    }
}

// What stands behind a letter, behind `%%` or behind a format that takes no argument, which the letters begin with; or else their format.
fn pass_letters(letters: &[u8]) -> Option<Result<&[u8], Format<'_>>> {
    let next = letter_of(letters)?;
    if next.letter != b'%' {
        return Some(Ok(next.behind));
    }
    if let Some(behind) = behind_percent(next.behind) {
        return Some(Ok(behind));
    }
    let format = format_at(letters, next.behind);
    if format.form == Some(b'm') {
        return Some(Ok(format.behind));
    }
    Some(Err(format))
}

/// The first format of the letters that takes an argument, or that the profile leaves out.
pub(crate) fn next_format(letters: &[u8]) -> Option<Format<'_>> {
    let mut rest = letters;
    for _ in 0..letters.len() {
        match pass_letters(rest)? {
            Ok(behind) => rest = behind,
            Err(format) => return Some(format),
        }
    }
    None
}

/// The first format of the letters that the profile leaves out.
pub(crate) fn bad_format(letters: &[u8]) -> Option<Format<'_>> {
    let mut rest = letters;
    for _ in 0..letters.len() {
        let format = next_format(rest)?;
        if format.form.is_none() {
            return Some(format);
        }
        rest = format.behind;
    }
    None
}

/// The letters of a string, without its quotes.
pub(crate) fn letters_of(string: &[u8]) -> &[u8] {
    match string.get(1..string.len().saturating_sub(1)) {
        Some(letters) => letters,
        None => &[],
    }
}
