// The lines that say what variables are worth (18.2.2).

ghost use Rattle.value_text.specs.ValueText.{binary};
ghost use Rattle.std.specs.Prelude.{◌≡◌, ◌<◌, ◌++◌, OnOk, true, false, length, drop, map};
ghost use Rattle.vcd_text.specs.DumpText.{all_lines, unknown_of, change, changes, extension as extension_code, following, is_kept as is_kept_vector, is_news as is_news_of, named_line, short_digits, value_lines};

use basis::NoMemory;
use std::alloc::Global;
use value_text::put_binary;
use vbits::Vec4;

// The code of the next variable, in place.
pub(crate) fn follow(name: &mut Vec<u8>) -> Result<(), NoMemory>
    ensures { OnOk result (name.new.items ≡ following name.old.items) }
{
    for i in 0..name.len() {
        let digit = name[i];
        if digit < b'~' {
            name[i] = digit + 1;
            return Ok(());
        }
        name[i] = b'!';
    }
    name.push(b'!')?;
    Ok(())
}

fn extension(digit: u8) -> u8
    ensures { result ≡ extension_code digit }
{
    if digit == b'1' { b'0' } else { digit }
}

// Whether the extension of the second digit gives the first one back.
fn is_given_back(digits: &[u8]) -> bool
    ensures some { result ≡ true → 1 < length digits.now }
    ensures yes { result ≡ true → short_digits digits.now ≡ short_digits (drop 1 digits.now) }
    ensures no { result ≡ false → short_digits digits.now ≡ digits.now }
{
    digits.len() > 1 && digits[0] == extension(digits[1])
}

// The digits without those on the left that extension gives back.
fn short_form(digits: &[u8]) -> &[u8]
    ensures { result.now ≡ short_digits digits.now }
{
    let mut rest = digits;
    while is_given_back(rest) {
        rest = rest.split_at(1).1;
    }
    rest
}

// One digit and the code, or b, digits, a space and the code.
fn put_change(text: &mut Vec<u8>, digits: &[u8], name: &[u8]) -> Result<(), NoMemory>
    ensures { OnOk result (text.new.items ≡ text.old.items ++ change digits.now name.now) }
{
    if digits.len() > 1 {
        text.push(b'b')?;
        text.extend_from_slice(short_form(digits))?;
        text.push(b' ')?;
    } else {
        text.extend_from_slice(digits)?;
    }
    text.extend_from_slice(name)?;
    Ok(())
}

// The line that says what the variable of this code is worth. The scratch is for its digits.
pub(crate) fn put_value(
    text: &mut Vec<u8>,
    scratch: &mut Vec<u8>,
    value: Vec4,
    name: &[u8],
) -> Result<(), NoMemory>
    ensures { OnOk result (text.new.items ≡ text.old.items ++ named_line name.now value) }
{
    scratch.clear();
    put_binary(scratch, value)?;
    put_change(text, scratch, name)?;
    text.push(b'\n')?;
    Ok(())
}

// The lines of the values that are marked at the end of the text, in the order of the variables.
pub(crate) fn put_values(
    alloc: Global,
    text: &mut Vec<u8>,
    marks: &[bool],
    values: &[Vec4],
) -> Result<(), NoMemory>
    ensures { OnOk result (text.new.items ≡ text.old.items ++ all_lines marks.now values.now) }
{
    let mut scratch = Vec::new(alloc);
    let mut name = Vec::from_slice(alloc, b"!")?;
    let mut rest = marks;
    for value in values {
        let Some((mark, later)) = rest.split_first() else {
            return Ok(());
        };
        if *mark {
            put_value(text, &mut scratch, *value, &name)?;
        }
        follow(&mut name)?;
        rest = later;
    }
    Ok(())
}

// The same of values as wide as these, all x.
pub(crate) fn put_blanks(
    alloc: Global,
    text: &mut Vec<u8>,
    marks: &[bool],
    values: &[Vec4],
) -> Result<(), NoMemory>
    ensures { OnOk result (text.new.items ≡ text.old.items
        ++ all_lines marks.now (map unknown_of values.now)) }
{
    let mut scratch = Vec::new(alloc);
    let mut name = Vec::from_slice(alloc, b"!")?;
    let mut rest = marks;
    for value in values {
        let Some((mark, later)) = rest.split_first() else {
            return Ok(());
        };
        if *mark {
            put_value(text, &mut scratch, Vec4::all_x(value.len()), &name)?;
        }
        follow(&mut name)?;
        rest = later;
    }
    Ok(())
}

// Whether two values have the same letters.
fn is_kept(old: Vec4, new: Vec4) -> bool
    ensures { result ≡ is_kept_vector old new }
{
    if old == new {
        return true;
    }
    if old.len() != new.len() {
        return false;
    }
    match old.case_eq(new).to_u64() {
        Some(one) => one == 1,
        None => false,
    }
}

// Whether the value of a variable that is marked or not has changed, so that it is told.
pub(crate) fn is_news(mark: bool, old: Vec4, new: Vec4) -> bool
    ensures { result ≡ is_news_of mark old new }
{
    if !mark {
        return false;
    }
    !is_kept(old, new)
}

// The lines of the values that are marked and differ from those of an earlier list, in the order of the variables (18.2.1).
pub(crate) fn put_changes(
    alloc: Global,
    text: &mut Vec<u8>,
    marks: &[bool],
    old: &[Vec4],
    new: &[Vec4],
) -> Result<(), NoMemory>
    ensures { OnOk result (text.new.items
        ≡ text.old.items ++ value_lines (changes 0 marks.now old.now new.now)) }
{
    let mut scratch = Vec::new(alloc);
    let mut name = Vec::from_slice(alloc, b"!")?;
    let mut rest = old;
    let mut left = marks;
    for value in new {
        let Some((mark, later)) = left.split_first() else {
            return Ok(());
        };
        let Some((before, after)) = rest.split_first() else {
            return Ok(());
        };
        if is_news(*mark, *before, *value) {
            put_value(text, &mut scratch, *value, &name)?;
        }
        follow(&mut name)?;
        left = later;
        rest = after;
    }
    Ok(())
}
