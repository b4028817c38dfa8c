// Forms: what stands after a `%` (17.1.1.2, 17.1.1.3).

ghost use Rattle.std.specs.Prelude.{◌≡◌, ◌++◌, OnOk};
ghost use Rattle.format_text.specs.Formats as spec;

use basis::NoMemory;
use value_text::put_right;
use vdesign::print::{Form, Notation, Width};

/// Whether it is this letter, in either case.
pub(crate) fn is_letter(letter: u8, small: u8, large: u8) -> bool
    ensures { result ≡ spec.is_letter small large letter }
{
    letter == small || letter == large
}

/// What the letter of a form stands for.
pub(crate) fn notation_of(letter: u8) -> Option<Notation>
    ensures { result ≡ spec.notation_of letter }
{
    if is_letter(letter, b'b', b'B') {
        return Some(Notation::Binary);
    }
    if is_letter(letter, b'o', b'O') {
        return Some(Notation::Octal);
    }
    if is_letter(letter, b'h', b'H') {
        return Some(Notation::Hexadecimal);
    }
    if is_letter(letter, b'x', b'X') {
        return Some(Notation::Hexadecimal);
    }
    if is_letter(letter, b'd', b'D') {
        return Some(Notation::Decimal);
    }
    if is_letter(letter, b't', b'T') {
        return Some(Notation::Time);
    }
    if is_letter(letter, b'c', b'C') {
        return Some(Notation::Character);
    }
    if is_letter(letter, b's', b'S') {
        return Some(Notation::Letters);
    }
    None
}

// The number that these digits are, at most 999.
fn places_of(digits: &[u8]) -> Option<u32>
    ensures { result ≡ spec.places_by 0 digits.now }
{
    let mut places = 0;
    for digit in digits {
        if places > 99 {
            return None;
        }
        places = 10 * places + u32::from(digit.saturating_sub(b'0'));
    }
    Some(places)
}

// What digits after a 0 say.
fn zeros_of(digits: &[u8]) -> Option<Width>
    ensures { result ≡ spec.zeros_of digits.now }
{
    let Some((first, _)) = digits.split_first() else {
        return Some(Width::Least);
    };
    if *first == b'0' {
        return None;
    }
    match places_of(digits) {
        None => None,
        Some(places) => Some(Width::Zeros(places)),
    }
}

/// What the digits before the letter say.
pub(crate) fn width_of(digits: &[u8]) -> Option<Width>
    ensures { result ≡ spec.width_of digits.now }
{
    let Some((first, rest)) = digits.split_first() else {
        return Some(Width::Natural);
    };
    if *first == b'0' {
        return zeros_of(rest);
    }
    match places_of(digits) {
        None => None,
        Some(places) => Some(Width::Places(places)),
    }
}

/// A form, where both are known.
pub(crate) fn form_by(width: Option<Width>, notation: Option<Notation>) -> Option<Form>
    ensures { result ≡ spec.form_by width notation }
{
    match width {
        None => None,
        Some(width) => match notation {
            None => None,
            Some(notation) => Some(Form { notation, width }),
        },
    }
}

/// Puts letters in a width.
pub(crate) fn put_in(text: &mut Vec<u8>, width: Width, letters: &[u8]) -> Result<(), NoMemory>
    ensures { OnOk result (text.new.items ≡ text.old.items ++ spec.letters_in width letters.now) }
{
    match width {
        Width::Natural => text.extend_from_slice(letters)?,
        Width::Least => text.extend_from_slice(letters)?,
        Width::Places(places) => put_right(text, places as usize, letters)?,
        Width::Zeros(places) => put_right(text, places as usize, letters)?,
    }
    Ok(())
}
