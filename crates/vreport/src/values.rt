// Values as a report tells them.

ghost use Rattle.value_text.specs.ValueText.{binary};
ghost use Rattle.std.specs.Prelude.{◌≡◌, ◌++◌, IfOk, OnOk};
ghost use Rattle.vreport.specs.Values.{more_values, values_line};

use basis::NoMemory;
use std::alloc::Global;
use value_text::put_binary;
use vbits::Vec4;

/// The digits of a value, leftmost first.
pub fn text_of_value(alloc: Global, value: Vec4) -> Result<Vec<u8>, NoMemory>
    ensures { IfOk result (λ text. text.items ≡ binary value) }
{
    let mut text = Vec::with_capacity(alloc, value.len() as usize)?;
    put_binary(&mut text, value)?;
    Ok(text)
}

// Puts the values last, each behind a space.
fn put_more(line: &mut Vec<u8>, values: &[Vec4]) -> Result<(), NoMemory>
    ensures { OnOk result (line.new.items ≡ line.old.items ++ more_values values.now) }
{
    for value in values {
        line.push(b' ')?;
        put_binary(line, *value)?;
    }
    Ok(())
}

/// The line of the values of all variables, with one space between.
pub fn line_of_values(alloc: Global, values: &[Vec4]) -> Result<Vec<u8>, NoMemory>
    ensures { IfOk result (λ line. line.items ≡ values_line values.now) }
{
    let mut line = Vec::new(alloc);
    if let Some((first, more)) = values.split_first() {
        put_binary(&mut line, *first)?;
        put_more(&mut line, more)?;
    }
    Ok(line)
}
