// Numbers (IEEE 1364-2005, 3.5.1).

ghost use Rattle.std.specs.Prelude.{◌≡◌, ◌∷◌, ◌++◌, ◌≤◌, ◌==◌, ◌||◌, ◌+◌, ◌*◌, true, not, min, length, slice_index, ◌<◌, ◌^◌};
ghost use Rattle.std.specs.List.{list_all};
ghost use Rattle.std.specs.Char.{is_ascii_digit};
ghost use Rattle.vlex.specs.Bytes.{is_in, lead_of};
ghost use Rattle.vlex.specs.Forms.{digits_from, digits_after, are_digits, is_base_and_digits, is_based, is_size};
ghost use Rattle.vlex.specs.Inner.{Finds, IsAnswer, alone};

use crate::bytes::{Lead, Set, byte_at, is_in, run_len};
use crate::digits::is_unknown;
use crate::form::{Form, Front};
use crate::kind::TokenKind;

/// The number that begins with a digit.
pub fn number(first: u8, rest: &[u8]) -> Front
    requires lead { lead_of first ≡ Lead.Digit }
    requires digit { is_ascii_digit first ≡ true }
    ensures { IsAnswer (first ∷ rest.now) result }
{
    let (digits, after) = rest.split_at(run_len(Set::Decimals, rest));
    let (blanks, behind) = after.split_at(run_len(Set::Blanks, after));
    if byte_at(behind, 0) != b'\'' {
        return Front::Piece(Form::Token(TokenKind::Plain), 1 + digits.len());
    }
    number_with_size(first, digits, blanks, behind.split_at(1).1)
}

// The number with these digits as its size, and blanks behind them, told from what stands behind the apostrophe.
fn number_with_size(first: u8, digits: &[u8], blanks: &[u8], base: &[u8]) -> Front
    requires lead { lead_of first ≡ Lead.Digit }
    requires digit { is_ascii_digit first ≡ true }
    requires digits { list_all (is_in Set.Decimals) digits.now ≡ true }
    requires blanks { list_all (is_in Set.Blanks) blanks.now ≡ true }
    requires short { length digits.now + length blanks.now + 1 + length base.now < 2 ^ 63 }
    ensures { IsAnswer (first ∷ digits.now ++ (blanks.now ++ 39 ∷ base.now)) result }
{
    let Some(len) = based_len(base) else {
        return alone(digits, blanks);
    };
    if !is_size(first, digits) {
        return alone(digits, blanks);
    }
    if !is_ended(base, len) {
        return Front::Bad;
    }
    let before = digits.len() + blanks.len();
    Front::Piece(Form::Token(TokenKind::Based), 2 + before + len)
}

// Digits that are no size of what stands behind the blanks: a number by themselves, where there are blanks.
fn alone(digits: &[u8], blanks: &[u8]) -> Front
    ensures { result ≡ alone (length digits.now) (length blanks.now) }
{
    if blanks.is_empty() {
        return Front::Bad;
    }
    Front::Piece(Form::Token(TokenKind::Plain), 1 + digits.len())
}

/// The number that begins with an apostrophe.
pub fn number_with_base(first: u8, rest: &[u8]) -> Front
    requires { lead_of first ≡ Lead.Apostrophe }
    ensures { IsAnswer (first ∷ rest.now) result }
{
    let Some(len) = based_len(rest) else {
        return Front::Bad;
    };
    if !is_ended(rest, len) {
        return Front::Bad;
    }
    Front::Piece(Form::Token(TokenKind::Based), 1 + len)
}

// Whether no letter, digit, `_` or `$` follows at once.
fn is_ended(bytes: &[u8], len: usize) -> bool
    ensures { result ≡ not (is_in Set.Words (slice_index bytes.now len)) }
{
    !is_in(Set::Words, byte_at(bytes, len))
}

// How far the base and its digits go behind an apostrophe.
fn based_len(bytes: &[u8]) -> Option<usize>
    ensures { Finds is_based bytes.now result }
{
    if !is_sign(byte_at(bytes, 0)) {
        return base_len(bytes);
    }
    let Some(len) = base_len(bytes.split_at(1).1) else {
        return None;
    };
    Some(1 + len)
}

fn is_sign(byte: u8) -> bool
    ensures { result ≡ (byte == 115 || byte == 83) }
{
    byte == b's' || byte == b'S'
}

fn base_len(bytes: &[u8]) -> Option<usize>
    ensures { Finds is_base_and_digits bytes.now result }
{
    if bytes.is_empty() {
        return None;
    }
    let behind = bytes.split_at(1).1;
    let blanks = run_len(Set::Blanks, behind);
    let Some(len) = digits_len(bytes[0], behind.split_at(blanks).1) else {
        return None;
    };
    Some(1 + blanks + len)
}

// How many digits of the base stand at the head, if any.
fn digits_len(base: u8, digits: &[u8]) -> Option<usize>
    ensures { Finds (are_digits base) digits.now result }
{
    if digits.is_empty() {
        return None;
    }
    let Some(set) = digits_after(base, digits[0]) else {
        return None;
    };
    Some(1 + run_len(set, digits.split_at(1).1))
}

// What may stand behind a base letter and a first digit.
fn digits_after(base: u8, first: u8) -> Option<Set>
    ensures { result ≡ digits_after base first }
{
    match base {
        b'b' | b'B' => digits_from(Set::Binaries, first),
        b'o' | b'O' => digits_from(Set::Octals, first),
        b'h' | b'H' => digits_from(Set::Hexadecimals, first),
        b'd' | b'D' if is_unknown(first) => Some(Set::Underscores),
        b'd' | b'D' => digits_from(Set::Decimals, first),
        _ => None,
    }
}

fn digits_from(set: Set, first: u8) -> Option<Set>
    ensures { result ≡ digits_from set first }
{
    if is_in(set, first) && first != b'_' {
        Some(set)
    } else {
        None
    }
}

// Whether the digits spell a size, 1 to 64.
fn is_size(first: u8, digits: &[u8]) -> bool
    requires first { is_ascii_digit first ≡ true }
    requires digits { list_all (is_in Set.Decimals) digits.now ≡ true }
    ensures { result ≡ is_size (first ∷ digits.now) }
{
    let mut size = first - b'0';
    for digit in digits {
        if *digit != b'_' {
            size = more(size, *digit - b'0');
        }
    }
    1 <= size && size <= 64
}

// The size with one more digit; 65 stands for all that is greater.
fn more(size: u8, digit: u8) -> u8
    requires size { size ≤ 65 }
    requires digit { digit ≤ 9 }
    ensures { result ≡ min 65 (10 * size + digit) }
{
    (10 * u16::from(size) + u16::from(digit)).min(65) as u8
}
