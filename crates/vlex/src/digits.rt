// The parts of a number (IEEE 1364-2005, 3.5.1).

ghost use Rattle.std.specs.Prelude.{◌≡◌};
ghost use Rattle.vlex.specs.Bytes.{is_x_digit, is_z_digit, is_unknown};
ghost use Rattle.vlex.specs.Forms.{leading_digits, skip_blanks};

use crate::bytes::{Set, run_len};

/// Whether the byte is the digit `x`, in either case.
pub fn is_x_digit(byte: u8) -> bool
    ensures { result ≡ is_x_digit byte }
{
    byte == b'x' || byte == b'X'
}

/// Whether the byte is the digit `z`, in either case, or `?`, which is another `z`.
pub fn is_z_digit(byte: u8) -> bool
    ensures { result ≡ is_z_digit byte }
{
    byte == b'z' || byte == b'Z' || byte == b'?'
}

/// Whether the byte is one of them.
pub(crate) fn is_unknown(byte: u8) -> bool
    ensures { result ≡ is_unknown byte }
{
    is_x_digit(byte) || is_z_digit(byte)
}

/// The digits at the head.
pub fn leading_digits(bytes: &[u8]) -> &[u8]
    ensures { result.now ≡ leading_digits bytes.now }
{
    bytes.split_at(run_len(Set::Decimals, bytes)).0
}

/// What stands behind the blanks at the head.
pub fn skip_blanks(bytes: &[u8]) -> &[u8]
    ensures { result.now ≡ skip_blanks bytes.now }
{
    bytes.split_at(run_len(Set::Blanks, bytes)).1
}
