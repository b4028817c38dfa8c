// The lines of the variables that a list names: no other may have changed (18.2.1).

ghost use Rattle.std.specs.Prelude.{◌≡◌, ◌++◌, ℕ, OnOk, Some, true, false};
ghost use Rattle.vcd_text.specs.DumpText.{changes, code, value_lines};
ghost use Rattle.vcd_text.specs.Listed as spec;
ghost use Rattle.vmodel.specs.Touched.{ChangesOnly, is_in};

use crate::values::{is_news, put_value};
use basis::NoMemory;
use std::alloc::Global;
use vbits::Vec4;

// How many digits there are in codes (18.2.1): `!` to `~`.
const BASE: u64 = 94;

// Whether a number stands from another one on, before the one found, if one was.
fn is_between(from: u64, found: Option<u32>, number: u32) -> bool
    ensures { result ≡ spec.is_between from found number }
{
    match found {
        None => u64::from(number) >= from,
        Some(next) => u64::from(number) >= from && number < next,
    }
}

// The one found or this number, whichever comes first from there on.
fn nearer(from: u64, found: Option<u32>, number: u32) -> Option<u32>
    ensures { result ≡ spec.nearer from found number }
{
    if is_between(from, found, number) {
        Some(number)
    } else {
        found
    }
}

// The least number of the list from this one on; `None` where there is none.
fn next_listed(variables: &[u32], from: u64) -> Option<u32>
    ensures listed { spec.IsListed variables.now from result }
    ensures next { (n : ℕ) → spec.is_between from result n ≡ true → is_in n variables.now ≡ false }
{
    let mut found = None;
    for variable in variables {
        found = nearer(from, found, *variable);
    }
    found
}

// The code of the variable of this number, in place of a name: n + 1 in bijective base 94, the lowest digit first.
fn put_name(name: &mut Vec<u8>, variable: u32) -> Result<(), NoMemory>
    ensures { OnOk result (name.new.items ≡ code variable) }
{
    name.clear();
    let mut left = u64::from(variable) + 1;
    while left > 0 {
        left -= 1;
        name.push(b'!' + (left % BASE) as u8)?;
        left /= BASE;
    }
    Ok(())
}

// The line of one variable, where it is marked and its value differs from the earlier one. The scratch is for its digits and the
// name for its code.
fn put_change_at(
    text: &mut Vec<u8>,
    scratch: &mut Vec<u8>,
    name: &mut Vec<u8>,
    marks: &[bool],
    old: &[Vec4],
    new: &[Vec4],
    variable: u32,
) -> Result<(), NoMemory>
    ensures { OnOk result (text.new.items
        ≡ text.old.items ++ value_lines (spec.change_at variable marks.now old.now new.now)) }
{
    let Some(value) = new.get(variable as usize) else {
        return Ok(());
    };
    let Some(mark) = marks.get(variable as usize) else {
        return Ok(());
    };
    let Some(before) = old.get(variable as usize) else {
        return Ok(());
    };
    if is_news(*mark, *before, *value) {
        put_name(name, variable)?;
        put_value(text, scratch, *value, name)?;
    }
    Ok(())
}

/// The lines of the values that are marked and differ from those of an earlier list, in the order of the variables, where only
/// the variables of this list may differ.
pub(crate) fn put_listed_changes(
    alloc: Global,
    text: &mut Vec<u8>,
    marks: &[bool],
    old: &[Vec4],
    new: &[Vec4],
    variables: &[u32],
) -> Result<(), NoMemory>
    requires { ChangesOnly (Some variables.now) old.now new.now }
    ensures { OnOk result (text.new.items
        ≡ text.old.items ++ value_lines (changes 0 marks.now old.now new.now)) }
{
    let mut scratch = Vec::new(alloc);
    let mut name = Vec::new(alloc);
    let mut from = 0u64;
    while let Some(variable) = next_listed(variables, from) {
        put_change_at(text, &mut scratch, &mut name, marks, old, new, variable)?;
        from = u64::from(variable) + 1;
    }
    Ok(())
}
