// Values as letters: `%c` and `%s` (17.1.1.2, 17.1.1.7).

ghost use Rattle.std.specs.Prelude.{◌≡◌, ◌≤◌, ◌++◌, OnOk, length};
ghost use Rattle.value_text.specs.ValueText as spec;

use crate::bits::{group, is_one};
use crate::places::put_right;
use basis::NoMemory;
use vbits::{Bit4, Vec4};

// A bit that isn't known counts as 0.
fn known_bit(letter: Bit4) -> u8
    ensures { result ≡ spec.known_bit letter }
{
    if is_one(letter) { 1 } else { 0 }
}

// The number of up to eight bits, of which one that isn't known counts as 0.
fn known_number(bits: Vec4) -> u8
    requires { length bits.letters ≤ 8 }
    ensures { result ≡ spec.known_number bits.letters }
{
    let mut number = 0;
    let mut i = bits.len();
    while i > 0 {
        i -= 1;
        number = known_bit(bits.bit(i)) + 2 * number;
    }
    number
}

// How many bytes a value has, of which the leftmost may have few bits.
fn byte_count(value: Vec4) -> u32
    ensures { result ≡ spec.byte_count value }
{
    (value.len() + 7) / 8
}

// A byte of 0 is a blank, and nothing where no other stands before it.
fn put_letter(text: &mut Vec<u8>, is_behind: bool, byte: u8) -> Result<(), NoMemory>
    ensures { OnOk result (text.new.items ≡ text.old.items ++ spec.letter_of is_behind byte) }
{
    if byte != 0 {
        text.push(byte)?;
    } else if is_behind {
        text.push(b' ')?;
    }
    Ok(())
}

// Whether a byte stands before the next one that isn't 0.
fn has_shown(is_behind: bool, byte: u8) -> bool
    ensures { result ≡ spec.has_shown is_behind byte }
{
    is_behind || byte != 0
}

/// Puts the byte on the right of a value after the text (`%c`). The error is want of memory, E901; nothing is said of the text then.
pub fn put_character(text: &mut Vec<u8>, value: Vec4) -> Result<(), NoMemory>
    ensures { OnOk result (text.new.items ≡ text.old.items ++ spec.character value) }
{
    text.push(known_number(group(value, 0, 8)))?;
    Ok(())
}

/// Puts the bytes of a value after the text, leftmost first: those that are 0 are blanks, and nothing in front of the others (`%0s`).
/// The error is E901, as there.
pub fn put_short_letters(text: &mut Vec<u8>, value: Vec4) -> Result<(), NoMemory>
    ensures { OnOk result (text.new.items ≡ text.old.items ++ spec.short_letters value) }
{
    let mut n = byte_count(value);
    let mut is_behind = false;
    while n > 0 {
        n -= 1;
        let byte = known_number(group(value, 8 * n, 8));
        put_letter(text, is_behind, byte)?;
        is_behind = has_shown(is_behind, byte);
    }
    Ok(())
}

/// The same, on the right of as many places as the value has bytes (`%s`). The error is E901, as there.
pub fn put_letters(text: &mut Vec<u8>, value: Vec4) -> Result<(), NoMemory>
    ensures { OnOk result (text.new.items ≡ text.old.items ++ spec.letters_text value) }
{
    let mut shown = Vec::new(*text.allocator());
    put_short_letters(&mut shown, value)?;
    put_right(text, byte_count(value) as usize, &shown)
}
