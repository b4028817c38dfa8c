// The letters of names (IEEE 1364-2005, 3.7).

ghost use Rattle.std.specs.Prelude.{◌≡◌};
ghost use Rattle.basis.specs.Letters as spec;

/// Whether a name may begin with the byte: a letter or `_`.
pub fn begins_name(byte: u8) -> bool
    ensures { result ≡ spec.begins_name byte }
{
    byte.is_ascii_alphabetic() || byte == b'_'
}

/// Whether the byte may stand in a name: a letter, `_`, a digit or `$`.
pub fn is_in_name(byte: u8) -> bool
    ensures { result ≡ spec.is_in_name byte }
{
    begins_name(byte) || byte.is_ascii_digit() || byte == b'$'
}
