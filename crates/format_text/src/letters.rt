// The letters of a string (3.6.3).

ghost use Rattle.std.specs.Prelude.{◌≡◌, ◌++◌, ◌∷◌, IfOk, OnOk};
ghost use Rattle.format_text.specs.Formats as spec;

use basis::NoMemory;
use std::alloc::Global;

/// How the next letter of a string is read.
#[derive(Clone, Copy)]
pub enum Escape {
    /// Outside of escapes.
    Plain,
    /// Behind a backslash.
    Backslash,
    /// Behind one octal digit, of this value.
    One(u8),
    /// Behind two.
    Two(u8),
}

// The letter that stands behind a backslash, and is no octal digit.
fn escaped_letter(letter: u8) -> u8
    ensures { result ≡ spec.escaped_letter letter }
{
    if letter == b'n' {
        b'\n'
    } else if letter == b't' {
        b'\t'
    } else {
        letter
    }
}

// The number of an octal digit.
fn octal_of(letter: u8) -> Option<u8>
    ensures { result ≡ spec.octal_of letter }
{
    if b'0' <= letter && letter <= b'7' {
        Some(letter - b'0')
    } else {
        None
    }
}

// The number of octal digits with one more behind them.
fn with_octal(value: u8, digit: u8) -> u8
    ensures { result ≡ spec.with_octal value digit }
{
    ((8 * u16::from(value) + u16::from(digit)) % 256) as u8
}

// Puts a letter that stands outside of escapes, unless it begins one.
fn read_plain(text: &mut Vec<u8>, letter: u8) -> Result<Escape, NoMemory>
    ensures text { OnOk result (text.new.items ≡ text.old.items ++ spec.letters_plain letter) }
    ensures next { IfOk result (λ next. next ≡ spec.after_plain letter) }
{
    if letter == b'\\' {
        return Ok(Escape::Backslash);
    }
    text.push(letter)?;
    Ok(Escape::Plain)
}

// Puts the letter of octal digits that no other follows, and the letter behind them.
fn read_behind(text: &mut Vec<u8>, value: u8, letter: u8) -> Result<Escape, NoMemory>
    ensures text { OnOk result
        (text.new.items ≡ text.old.items ++ value ∷ spec.letters_plain letter) }
    ensures next { IfOk result (λ next. next ≡ spec.after_plain letter) }
{
    text.push(value)?;
    read_plain(text, letter)
}

// Puts what is had with a letter more; how the next one is read.
fn read(text: &mut Vec<u8>, escape: Escape, letter: u8) -> Result<Escape, NoMemory>
    ensures text { OnOk result (text.new.items
        ≡ text.old.items ++ spec.letters_read escape (spec.octal_of letter) letter) }
    ensures next { IfOk result (λ next.
        next ≡ spec.after_letter escape (spec.octal_of letter) letter) }
{
    match (escape, octal_of(letter)) {
        (Escape::Plain, _) => read_plain(text, letter),
        (Escape::Backslash, None) => {
            text.push(escaped_letter(letter))?;
            Ok(Escape::Plain)
        }
        (Escape::Backslash, Some(digit)) => Ok(Escape::One(digit)),
        (Escape::One(value), None) => read_behind(text, value, letter),
        (Escape::One(value), Some(digit)) => Ok(Escape::Two(with_octal(value, digit))),
        (Escape::Two(value), None) => read_behind(text, value, letter),
        (Escape::Two(value), Some(digit)) => {
            text.push(with_octal(value, digit))?;
            Ok(Escape::Plain)
        }
    }
}

// Puts what the end of the string leaves.
fn end(text: &mut Vec<u8>, escape: Escape) -> Result<(), NoMemory>
    ensures { OnOk result (text.new.items ≡ text.old.items ++ spec.letters_left escape) }
{
    match escape {
        Escape::Plain => {}
        Escape::Backslash => {}
        Escape::One(value) => text.push(value)?,
        Escape::Two(value) => text.push(value)?,
    }
    Ok(())
}

// The letters of a string, of what stands between its quotes: `\n`, `\t`, `\\`, `\"` and one to three octal digits after a backslash are
// one letter each (3.6.3). E901 is the only refusal.
pub(crate) fn letters_of(alloc: Global, string: &[u8]) -> Result<Vec<u8>, NoMemory>
    ensures { IfOk result (λ text. text.items ≡ spec.letters_of Escape.Plain string.now) }
{
    let mut text = Vec::new(alloc);
    let mut escape = Escape::Plain;
    for letter in string {
        escape = read(&mut text, escape, *letter)?;
    }
    end(&mut text, escape)?;
    Ok(text)
}
