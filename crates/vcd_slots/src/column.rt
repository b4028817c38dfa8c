// A variable that is followed.

ghost use Rattle.std.specs.Prelude.{◌≡◌, ◌≤◌, if◌then◌else◌, Some, IfSome};
ghost use Rattle.vcd_slots.specs.Following.{Puts};

use crate::digits::vector_of;
use vbits::Vec4;
use vcd_read::is_same;

/// The code of a variable, and how many bits it has.
#[derive(Drop)]
pub(crate) struct Column {
    code: Vec<u8>,
    width: u32,
}

// What is known, where this was known before.
fn known_value(is_on: bool, before: Option<Vec4>, value: Vec4) -> Option<Vec4>
    ensures { result ≡ (if is_on then Some value else before) }
{
    if is_on { Some(value) } else { before }
}

impl Column {
    /// That of a variable.
    pub(crate) fn new(code: Vec<u8>, width: u32) -> Column
        ensures { result ≡ record { code = code; width = width } }
    {
        Column { code, width }
    }

    /// What it is worth where a code is told to have these digits, in a dump that is on or off; none where the code is this one's and the
    /// digits are none of so many bits.
    pub(crate) fn put(
        &self,
        is_on: bool,
        before: Option<Vec4>,
        code: &[u8],
        digits: &[u8],
    ) -> Option<Option<Vec4>>
        requires { self.now.width ≤ 64 }
        ensures { IfSome result (λ after. Puts self.now is_on before after code.now digits.now) }
    {
        if !is_same(code, &self.code) {
            return Some(before);
        }
        match vector_of(self.width, digits) {
            None => None,
            Some(value) => Some(known_value(is_on, before, value)),
        }
    }
}
