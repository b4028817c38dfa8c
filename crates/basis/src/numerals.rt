// Numbers as texts, in decimal and without leading zeros.

ghost use Rattle.std.specs.Prelude.{◌≡◌, ℕ, ◌≤◌, length, Some, IfSome, IfNone, true};
ghost use Rattle.std.specs.Char.{is_ascii_digit};
ghost use Rattle.std.specs.List.{prefix_len};
ghost use Rattle.std.specs.Str.{all_ascii_digits};
ghost use Rattle.basis.specs.Numerals.{IsNumber};

/// How many digits stand at the front of the text.
pub fn digits_len(text: &[u8]) -> usize
    ensures value { result ≡ prefix_len is_ascii_digit text.now }
    ensures within { result ≤ length text.now }
{
    for (at, byte) in text.iter().enumerate() {
        if !byte.is_ascii_digit() {
            return at;
        }
    }
    text.len()
}

// The number of 64 bits that is written by these digits, without leading zeros.
fn plain_value(digits: &[u8]) -> Option<u64>
    requires { all_ascii_digits digits.now ≡ true }
    ensures read { IfSome result (λ n. IsNumber digits.now n) }
    ensures none { IfNone result ((n : ℕ) → ¬ IsNumber digits.now n) }
{
    if digits.len() > 1 && digits[0] == b'0' {
        return None;
    }
    match std::str::from_utf8(digits) {
        Ok(text) => text.parse::<u64>().ok(),
        Err(_) => None,
    }
}

/// The number of 64 bits whose decimal, without leading zeros, the word is.
pub fn number_in(word: &[u8]) -> Option<u64>
    ensures read { IfSome result (λ n. IsNumber word.now n) }
    ensures each { (n : ℕ) → IsNumber word.now n → result ≡ Some n }
{
    if digits_len(word) < word.len() {
        return None;
    }
    plain_value(word)
}
