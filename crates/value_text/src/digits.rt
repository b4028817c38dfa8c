// Hexadecimal and octal digits, and digits without zeros in front.

ghost use Rattle.std.specs.Prelude.{◌≡◌, ◌<◌, ◌++◌, OnOk, length};
ghost use Rattle.value_text.specs.ValueText as spec;

use crate::bits::group;
use crate::unknown::unknown_letter;
use basis::NoMemory;
use vbits::Vec4;

fn digit(n: u64) -> u8
    requires { n < 16 }
    ensures { result ≡ spec.hexadecimal_digit n }
{
    if n < 10 {
        b'0' + n as u8
    } else {
        b'a' + (n - 10) as u8
    }
}

// The digit of up to four bits.
fn digit_of(group: Vec4) -> u8
    requires { length group.letters < 5 }
    ensures { result ≡ spec.digit_of group.letters }
{
    match group.to_u64() {
        Some(n) => digit(n),
        None => unknown_letter(group),
    }
}

/// Puts a value after the text, in hexadecimal digits in lower case, bits taken by fours from the right: a digit of x alone is `x`, of
/// z alone `z`, of some x `X`, else of some z `Z` (17.1.1.4). The error is want of memory, E901; nothing is said of the text then.
pub fn put_hexadecimal(text: &mut Vec<u8>, value: Vec4) -> Result<(), NoMemory>
    ensures { OnOk result (text.new.items ≡ text.old.items ++ spec.hexadecimal value) }
{
    let mut n = (value.len() + 3) / 4;
    while n > 0 {
        n -= 1;
        text.push(digit_of(group(value, 4 * n, 4)))?;
    }
    Ok(())
}

/// The same in octal digits, bits taken by threes. The error is E901, as there.
pub fn put_octal(text: &mut Vec<u8>, value: Vec4) -> Result<(), NoMemory>
    ensures { OnOk result (text.new.items ≡ text.old.items ++ spec.octal value) }
{
    let mut n = (value.len() + 2) / 3;
    while n > 0 {
        n -= 1;
        text.push(digit_of(group(value, 3 * n, 3)))?;
    }
    Ok(())
}

/// The digits without zeros in front of others, as `%0b`, `%0o` and `%0h` show them.
pub fn without_zeros(digits: &[u8]) -> &[u8]
    ensures { result.now ≡ spec.without_zeros digits.now }
{
    let mut rest = digits;
    'zeros: loop {
        let Some((first, behind)) = rest.split_first() else {
            return rest;
        };
        if *first != b'0' || behind.is_empty() {
            return rest;
        }
        rest = behind;
    }
}
