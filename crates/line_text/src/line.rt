// A line, put together piece by piece.

ghost use Rattle.std.specs.Prelude.{◌≡◌, ◌++◌, OnOk};
ghost use Rattle.line_text.specs.LineText as spec;

use basis::NoMemory;
use value_text::{
    put_binary, put_character, put_decimal, put_filled, put_hexadecimal, put_letters, put_octal,
    put_right, put_short_decimal, put_short_letters, put_short_time, put_time, put_zeros,
    without_zeros,
};
use vbits::Vec4;
use vdesign::expression::Expression;
use vdesign::print::{Form, Notation, Piece, Width};
use vvalue::asked::self_determined_value;
use vvalue::environment::Environment;

// A value in all its digits, or letters (17.1.1.2).
fn put_digits(
    text: &mut Vec<u8>,
    notation: Notation,
    value: Vec4,
    factor: u64,
) -> Result<(), NoMemory>
    ensures { OnOk result (text.new.items ≡ text.old.items ++ spec.digits_of notation factor value) }
{
    match notation {
        Notation::Binary => put_binary(text, value),
        Notation::Octal => put_octal(text, value),
        Notation::Hexadecimal => put_hexadecimal(text, value),
        Notation::Decimal => put_short_decimal(text, value),
        Notation::Time => put_short_time(text, value, factor),
        Notation::Character => put_character(text, value),
        Notation::Letters => put_short_letters(text, value),
    }
}

// A value in as many places as the longest one takes (17.1.1.3).
fn put_natural(
    text: &mut Vec<u8>,
    notation: Notation,
    value: Vec4,
    factor: u64,
) -> Result<(), NoMemory>
    ensures { OnOk result (text.new.items ≡ text.old.items ++ spec.natural_text notation factor value) }
{
    match notation {
        Notation::Binary => put_binary(text, value),
        Notation::Octal => put_octal(text, value),
        Notation::Hexadecimal => put_hexadecimal(text, value),
        Notation::Decimal => put_decimal(text, value),
        Notation::Time => put_time(text, value, factor),
        Notation::Character => put_character(text, value),
        Notation::Letters => put_letters(text, value),
    }
}

// Digits in as few places as they can be (17.1.1.3).
fn least_text(notation: Notation, digits: &[u8]) -> &[u8]
    ensures { result.now ≡ spec.least_text notation digits.now }
{
    match notation {
        Notation::Binary => without_zeros(digits),
        Notation::Octal => without_zeros(digits),
        Notation::Hexadecimal => without_zeros(digits),
        Notation::Decimal => digits,
        Notation::Time => digits,
        Notation::Character => digits,
        Notation::Letters => digits,
    }
}

// Digits in so many places, with zeros before them; letters have blanks before them.
fn put_with_zeros(
    text: &mut Vec<u8>,
    notation: Notation,
    places: usize,
    digits: &[u8],
) -> Result<(), NoMemory>
    ensures { OnOk result (text.new.items ≡ text.old.items ++ spec.zeros_text notation places digits.now) }
{
    match notation {
        Notation::Binary => put_zeros(text, places, digits),
        Notation::Octal => put_zeros(text, places, digits),
        Notation::Hexadecimal => put_zeros(text, places, digits),
        Notation::Decimal => put_zeros(text, places, digits),
        Notation::Time => put_zeros(text, places, digits),
        Notation::Character => put_filled(text, b'0', places, digits),
        Notation::Letters => put_right(text, places, digits),
    }
}

// A value in a form (17.1.1.2, 17.1.1.3).
fn put_value(text: &mut Vec<u8>, form: Form, value: Vec4, factor: u64) -> Result<(), NoMemory>
    ensures { OnOk result (text.new.items ≡ text.old.items ++ spec.shown_as form factor value) }
{
    if form.width == Width::Natural {
        return put_natural(text, form.notation, value, factor);
    }
    let mut digits = Vec::new(*text.allocator());
    put_digits(&mut digits, form.notation, value, factor)?;
    match form.width {
        Width::Natural => {}
        Width::Least => text.extend_from_slice(least_text(form.notation, &digits))?,
        Width::Places(places) => put_right(text, places as usize, &digits)?,
        Width::Zeros(places) => put_with_zeros(text, form.notation, places as usize, &digits)?,
    }
    Ok(())
}

fn put_piece(
    text: &mut Vec<u8>,
    piece: &Piece,
    environment: &Environment<'_>,
) -> Result<(), NoMemory>
    ensures { OnOk result
        (text.new.items ≡ text.old.items ++ spec.piece_text environment.now piece.now) }
{
    match piece {
        Piece::Text(bytes) => {
            text.extend_from_slice(bytes.as_bytes())?;
            Ok(())
        }
        Piece::Value { form, value, .. } => {
            put_value(
                text,
                *form,
                self_determined_value(value, environment),
                environment.factor(),
            )
        }
    }
}

/// Puts the pieces of a printed text after another one, from left to right: what they show at this moment (17.1.1). The error is want
/// of memory, E901; nothing is said of the text then.
pub fn put_pieces(
    text: &mut Vec<u8>,
    pieces: &[Piece],
    environment: &Environment<'_>,
) -> Result<(), NoMemory>
    ensures { OnOk result
        (text.new.items ≡ text.old.items ++ spec.pieces_text environment.now pieces.now) }
{
    for piece in pieces {
        put_piece(text, piece, environment)?;
    }
    Ok(())
}

// The value that a piece shows, where a monitor watches it.
fn put_if_watched(
    values: &mut Vec<Vec4>,
    watched: bool,
    value: &Expression,
    environment: &Environment<'_>,
) -> Result<(), NoMemory>
    ensures { OnOk result
        (values.new.items ≡ values.old.items ++ spec.watched_one environment.now watched value.now) }
{
    if watched {
        values.push(self_determined_value(value, environment))?;
    }
    Ok(())
}

fn put_watched_of(
    values: &mut Vec<Vec4>,
    piece: &Piece,
    environment: &Environment<'_>,
) -> Result<(), NoMemory>
    ensures { OnOk result
        (values.new.items ≡ values.old.items ++ spec.watched_in environment.now piece.now) }
{
    match piece {
        Piece::Text(_) => Ok(()),
        Piece::Value { watched, value, .. } => put_if_watched(values, *watched, value, environment),
    }
}

/// Puts after others the values that a monitor of this line watches: those of all arguments but a bare `$time` (17.1.3). The error is
/// want of memory, E901; nothing is said of the values then.
pub fn put_watched(
    values: &mut Vec<Vec4>,
    pieces: &[Piece],
    environment: &Environment<'_>,
) -> Result<(), NoMemory>
    ensures { OnOk result
        (values.new.items ≡ values.old.items ++ spec.values_watched environment.now pieces.now) }
{
    for piece in pieces {
        put_watched_of(values, piece, environment)?;
    }
    Ok(())
}
