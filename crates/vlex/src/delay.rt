// The number behind a `#` (IEEE 1364-2005, 9.7.1).

ghost use Rattle.std.specs.Prelude.{◌≡◌, ◌<◌, ◌≤◌, length};
ghost use Rattle.vlex.specs.Lexed.{readable, is_delay};

use crate::bytes::{Set, run_len};
use crate::form::Form;

/// What may be read of a text: behind a `#` a number goes no further than to a blank.
pub fn readable(delay: bool, text: &[u8]) -> &[u8]
    ensures { result.now ≡ readable delay text.now }
{
    if !delay || text.is_empty() || !text[0].is_ascii_digit() {
        return text;
    }
    text.split_at(run_len(Set::Marks, text)).0
}

/// Whether `#` is the last token behind a piece.
pub fn is_delay(delay: bool, form: Form, bytes: &[u8]) -> bool
    ensures { result ≡ is_delay delay form bytes.now }
{
    match form {
        Form::Blank => delay,
        Form::Comment => delay,
        Form::Token(_) => bytes == b"#".as_slice(),
    }
}
