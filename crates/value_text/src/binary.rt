// Binary digits.

ghost use Rattle.std.specs.Prelude.{◌≡◌, ◌++◌, OnOk};
ghost use Rattle.value_text.specs.ValueText as spec;

use basis::NoMemory;
use vbits::{Bit4, Vec4};

fn digit(letter: Bit4) -> u8
    ensures { result ≡ spec.binary_digit letter }
{
    match letter {
        Bit4::Zero => b'0',
        Bit4::One => b'1',
        Bit4::X => b'x',
        Bit4::Z => b'z',
    }
}

/// Puts all binary digits of a value after the text, leftmost first, `x` and `z` in lower case (17.1.1.4). The error is want of
/// memory, E901; nothing is said of the text then.
pub fn put_binary(text: &mut Vec<u8>, value: Vec4) -> Result<(), NoMemory>
    ensures { OnOk result (text.new.items ≡ text.old.items ++ spec.binary value) }
{
    let mut i = value.len();
    while i > 0 {
        i -= 1;
        text.push(digit(value.bit(i)))?;
    }
    Ok(())
}
