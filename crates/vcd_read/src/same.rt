// Bytes that are the same.

ghost use Rattle.std.specs.Prelude.{◌≡◌, true};
ghost use Rattle.std.specs.Str.{bytes_eq};

/// Whether both have the same bytes.
pub fn is_same(bytes: &[u8], other: &[u8]) -> bool
    ensures value { result ≡ bytes_eq bytes.now other.now }
    ensures same { result ≡ true → bytes.now ≡ other.now }
{
    bytes == other
}
