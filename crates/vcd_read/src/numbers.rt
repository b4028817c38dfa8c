// Numbers in a dump (18.2.1).

ghost use Rattle.std.specs.Prelude.{◌≡◌, IfSome, true};
ghost use Rattle.std.specs.Str.{all_ascii_digits};
ghost use Rattle.vcd_read.specs.Numbers.{IsDecimal};

use basis::digits_len;

// The number of 64 bits that these digits are.
fn value_of(digits: &[u8]) -> Option<u64>
    requires { all_ascii_digits digits.now ≡ true }
    ensures { IfSome result (λ n. IsDecimal digits.now n) }
{
    match std::str::from_utf8(digits) {
        Ok(text) => text.parse::<u64>().ok(),
        Err(_) => None,
    }
}

/// The number of 64 bits that the word is in decimal; zeros may stand in front.
pub(crate) fn decimal_in(word: &[u8]) -> Option<u64>
    ensures { IfSome result (λ n. IsDecimal word.now n) }
{
    if digits_len(word) < word.len() {
        return None;
    }
    value_of(word)
}
