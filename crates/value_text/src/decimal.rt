// Decimal numbers and times.

ghost use Rattle.std.specs.Prelude.{◌≡◌, ◌++◌, ℕ, ◌*◌, OnOk, Option, option_map, length};
ghost use Rattle.value_text.specs.ValueText as spec;

use crate::bits::is_one;
use crate::places::put_right;
use crate::unknown::unknown_letter;
use basis::NoMemory;
use itoa::Buffer;
use vbits::Vec4;

#[tactic(auto, using(crate::proofs::LetterLemmas::signed_sign, crate::proofs::LetterLemmas::no_sign))]
fn is_negative(value: Vec4) -> bool
    ensures { result ≡ spec.is_negative value }
{
    if value.signed() {
        is_one(value.bit(value.len() - 1))
    } else {
        false
    }
}

// The number without its sign.
fn amount_of(value: Vec4) -> Option<u64>
    ensures { result ≡ spec.amount_of value }
{
    if is_negative(value) {
        value.neg().to_u64()
    } else {
        value.to_u64()
    }
}

fn put_minus(text: &mut Vec<u8>, negative: bool) -> Result<(), NoMemory>
    ensures { OnOk result (text.new.items ≡ text.old.items ++ spec.minus negative) }
{
    if negative {
        text.push(b'-')?;
    }
    Ok(())
}

// A value in so many units, without blanks before it.
fn put_amount(text: &mut Vec<u8>, value: Vec4, factor: u64) -> Result<(), NoMemory>
    ensures { OnOk result (text.new.items
        ≡ text.old.items ++ spec.amount_text value factor (spec.amount_of value)) }
{
    match amount_of(value) {
        None => text.push(unknown_letter(value))?,
        Some(amount) => {
            let mut digits = Buffer::new();
            put_minus(text, is_negative(value))?;
            let units = u128::from(amount) * u128::from(factor);
            text.extend_from_slice(digits.format(units).as_bytes())?;
        }
    }
    Ok(())
}

// The places of the longest value of this sign and length.
fn places(value: Vec4) -> usize
    ensures { result ≡ length (spec.longest value.signed (length value.letters)) }
{
    let mut digits = Buffer::new();
    if value.signed() {
        digits.format(1u128 << (value.len() - 1)).len() + 1
    } else {
        digits.format((1u128 << value.len()) - 1).len()
    }
}

/// Puts a value after the text, in decimal digits, signed values with a minus; where a bit is unknown it is one letter, as of a
/// hexadecimal digit. The error is want of memory, E901; nothing is said of the text then.
pub fn put_short_decimal(text: &mut Vec<u8>, value: Vec4) -> Result<(), NoMemory>
    ensures { OnOk result (text.new.items ≡ text.old.items ++ spec.short_decimal value) }
{
    put_amount(text, value, 1)
}

/// The same, on the right of as many places as the longest value of this length and sign takes (17.1.1.3). The error is E901, as there.
pub fn put_decimal(text: &mut Vec<u8>, value: Vec4) -> Result<(), NoMemory>
    ensures { OnOk result (text.new.items ≡ text.old.items ++ spec.decimal_text value) }
{
    let mut shown = Vec::new(*text.allocator());
    put_short_decimal(&mut shown, value)?;
    put_right(text, places(value), &shown)
}

/// Puts a time after the text: the value, in units of which `factor` make one of its own. The error is E901, as there.
pub fn put_short_time(text: &mut Vec<u8>, value: Vec4, factor: u64) -> Result<(), NoMemory>
    ensures { OnOk result (text.new.items ≡ text.old.items ++ spec.short_time factor value) }
{
    put_amount(text, value, factor)
}

/// The same, on the right of 20 places (17.3.2). The error is E901, as there.
pub fn put_time(text: &mut Vec<u8>, value: Vec4, factor: u64) -> Result<(), NoMemory>
    ensures { OnOk result (text.new.items ≡ text.old.items ++ spec.time_text factor value) }
{
    let mut shown = Vec::new(*text.allocator());
    put_short_time(&mut shown, value, factor)?;
    put_right(text, 20, &shown)
}
