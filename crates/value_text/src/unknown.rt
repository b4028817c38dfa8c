// What stands for letters that aren't known (17.1.1.4).

ghost use Rattle.std.specs.Prelude.{◌≡◌};
ghost use Rattle.std.specs.List.{list_all, list_any};
ghost use Rattle.value_text.specs.ValueText as spec;
ghost use Rattle.vbits.specs.Letters as letters;

use vbits::Vec4;

fn are_x(value: Vec4) -> bool
    ensures { result ≡ list_all letters.is_x value.letters }
{
    for i in 0..value.len() {
        if !value.bit(i).is_x() {
            return false;
        }
    }
    true
}

fn are_z(value: Vec4) -> bool
    ensures { result ≡ list_all letters.is_z value.letters }
{
    for i in 0..value.len() {
        if !value.bit(i).is_z() {
            return false;
        }
    }
    true
}

fn has_x(value: Vec4) -> bool
    ensures { result ≡ list_any letters.is_x value.letters }
{
    for i in 0..value.len() {
        if value.bit(i).is_x() {
            return true;
        }
    }
    false
}

/// The letter for a value not all of whose bits are known.
pub(crate) fn unknown_letter(value: Vec4) -> u8
    ensures { result ≡ spec.unknown_letter value.letters }
{
    if are_x(value) {
        b'x'
    } else if are_z(value) {
        b'z'
    } else if has_x(value) {
        b'X'
    } else {
        b'Z'
    }
}
