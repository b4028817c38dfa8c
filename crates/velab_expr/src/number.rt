// Numbers of the text (3.5.1).
ghost use Rattle.std.specs.Prelude.{◌≡◌, ◌≤◌, ◌+◌, ◌-◌, ◌%◌, ◌^◌, ◌++◌, ◌<◌, IfSome, position, drop, length, min, take, if◌then◌else◌};
ghost use Rattle.vbits.specs.Letters as letters;
ghost use Rattle.vbits.specs.Vectors as vectors;
ghost use Rattle.vlex.specs.Bytes.{is_apostrophe};
ghost use Rattle.vlex.specs.Forms.{with_digit, spelled_number};
ghost use Rattle.velab_expr.specs.Literals as literals;
ghost use Rattle.velab_expr.specs.Inner.{shifted_letters};

use vbits::{Bit4, Vec4};
use vdesign::expression::Constant;
use vlex::digits::{is_x_digit, is_z_digit, leading_digits, skip_blanks};

/// The widest number or variable, in bits.
pub(crate) const WIDEST: u32 = 64;

fn digit_value(c: u8) -> u8
    ensures { result ≡ literals.digit_value c }
{
    if c < b'A' {
        c.saturating_sub(b'0')
    } else if c < b'a' {
        c - b'A' + 10
    } else {
        c - b'a' + 10
    }
}

fn first_byte(text: &[u8]) -> u8
    ensures { result ≡ literals.first_byte text.now }
{
    text.first().copied().unwrap_or(0)
}

// All but the first byte.
fn behind_first(text: &[u8]) -> &[u8]
    ensures { result.now ≡ drop 1 text.now }
{
    if text.is_empty() { text } else { &text[1..] }
}

// One digit more, of which the lowest 64 bits are kept.
fn with_digit(n: u64, c: u8) -> u64
    ensures { result ≡ with_digit n c % 2 ^ 64 }
{
    if c == b'_' {
        return n;
    }
    n.wrapping_mul(10)
        .wrapping_add(u64::from(c.saturating_sub(b'0')))
}

// The lowest 64 bits of the number that decimal digits spell.
fn low_number(digits: &[u8]) -> u64
    ensures { result ≡ spelled_number digits.now % 2 ^ 64 }
{
    let mut n: u64 = 0;
    for c in digits {
        n = with_digit(n, *c);
    }
    n
}

// One digit more, or 64 where that is less.
fn size_with_digit(n: u32, c: u8) -> u32
    requires { n ≤ 64 }
    ensures { result ≡ min 64 (with_digit n c) }
{
    if c == b'_' {
        return n;
    }
    (10 * n + u32::from(c.saturating_sub(b'0'))).min(WIDEST)
}

// The number that decimal digits spell, or 64 where that is less.
fn small_number(digits: &[u8]) -> u32
    ensures { result ≡ min 64 (spelled_number digits.now) }
{
    let mut n: u32 = 0;
    for c in digits {
        n = size_with_digit(n, *c);
    }
    n
}

fn size_of(digits: &[u8]) -> u32
    ensures value { result ≡ literals.size_of digits.now }
    ensures some { 1 ≤ result }
    ensures few { result ≤ 64 }
{
    if digits.is_empty() {
        32
    } else {
        small_number(digits).max(1)
    }
}

// As many copies of the letter that fills these digits on the left.
fn fill_of(size: u32, digits: &[u8]) -> Vec4
    requires some { 1 ≤ size }
    requires few { size ≤ 64 }
    ensures { result ≡ vectors.filled size (literals.filling_letters digits.now) }
{
    let leftmost = first_byte(digits);
    if is_x_digit(leftmost) {
        Vec4::all_x(size)
    } else if is_z_digit(leftmost) {
        Vec4::all_z(size)
    } else {
        Vec4::zeros(size)
    }
}

fn is_unknown(digits: &[u8]) -> bool
    ensures { result ≡ letters.is_unknown (literals.filling_letters digits.now) }
{
    let leftmost = first_byte(digits);
    is_x_digit(leftmost) || is_z_digit(leftmost)
}

fn decimal_value(size: u32, digits: &[u8]) -> Vec4
    requires some { 1 ≤ size }
    requires few { size ≤ 64 }
    ensures { result ≡ literals.decimal_value size digits.now }
{
    if is_unknown(digits) {
        fill_of(size, digits)
    } else {
        Vec4::from_u64(size, low_number(digits))
    }
}

// The letters of one digit.
fn digit(count: u32, c: u8) -> Vec4
    requires some { 1 ≤ count }
    requires few { count ≤ 64 }
    ensures { result.letters ≡ literals.digit_letters count c }
{
    if is_x_digit(c) {
        Vec4::all_x(count)
    } else if is_z_digit(c) {
        Vec4::all_z(count)
    } else {
        Vec4::from_u64(count, u64::from(digit_value(c)))
    }
}

// The letters of one digit more come in on the right, and others are lost on the left.
fn shifted_in(value: Vec4, count: u32, c: u8) -> Vec4
    requires whole { length value.letters ≡ 64 }
    requires some { 1 ≤ count }
    requires few { count ≤ 4 }
    ensures { result.letters ≡ shifted_letters count c value.letters }
{
    if c == b'_' {
        return value;
    }
    value.select(63 - count, 0).concat(digit(count, c))
}

fn lettered_value(size: u32, count: u32, digits: &[u8]) -> Vec4
    requires some { 1 ≤ size }
    requires few { size ≤ 64 }
    requires some_a_digit { 1 ≤ count }
    requires few_a_digit { count ≤ 4 }
    ensures { result ≡ literals.lettered_value size count digits.now }
{
    let mut value = fill_of(WIDEST, digits);
    for c in digits {
        value = shifted_in(value, count, *c);
    }
    value.select(size - 1, 0)
}

fn letters_per_digit(base: u8) -> u32
    ensures count { result ≡ literals.letters_per_digit base }
    ensures some { 1 ≤ result }
    ensures few { result ≤ 4 }
{
    match base {
        b'b' | b'B' => 1,
        b'o' | b'O' => 3,
        _ => 4,
    }
}

fn based_value(size: u32, base: u8, digits: &[u8]) -> Vec4
    requires some { 1 ≤ size }
    requires few { size ≤ 64 }
    ensures { result ≡ literals.based_value size base digits.now }
{
    if base == b'd' || base == b'D' {
        decimal_value(size, digits)
    } else {
        lettered_value(size, letters_per_digit(base), digits)
    }
}

fn is_marked(text: &[u8]) -> bool
    ensures { result ≡ literals.is_marked text.now }
{
    let first = first_byte(text);
    first == b's' || first == b'S'
}

fn without_mark(text: &[u8]) -> &[u8]
    ensures { result.now ≡ literals.without_mark text.now }
{
    if is_marked(text) {
        behind_first(text)
    } else {
        text
    }
}

// Whether the letter at the place is x or z, where there is one.
fn is_unknown_at(value: Vec4, place: u32) -> bool
    ensures { result ≡ literals.is_unknown_at value place }
{
    if place >= value.len() {
        return false;
    }
    match value.bit(place) {
        Bit4::Zero => false,
        Bit4::One => false,
        Bit4::X => true,
        Bit4::Z => true,
    }
}

fn spreads_by(size: &[u8], marked: bool, value: Vec4) -> bool
    ensures { result ≡ literals.spreads_by size.now marked value }
{
    size.is_empty() && !marked && is_unknown_at(value, 31)
}

fn based_constant(size: &[u8], text: &[u8]) -> Constant
    ensures { result ≡ literals.based_constant size.now text.now }
{
    let marked = is_marked(text);
    let behind = without_mark(text);
    let digits = skip_blanks(behind_first(behind));
    let value = based_value(size_of(size), first_byte(behind), digits);
    Constant {
        value: value.with_sign(marked),
        spreads: spreads_by(size, marked, value),
    }
}

fn plain_constant(digits: &[u8]) -> Constant
    ensures { result ≡ literals.plain_constant digits.now }
{
    Constant {
        value: Vec4::from_u64(32, low_number(digits)).with_sign(true),
        spreads: false,
    }
}

// Where the apostrophe of a based number stands.
fn apostrophe(text: &[u8]) -> Option<usize>
    ensures place { result ≡ position is_apostrophe text.now }
    ensures within { IfSome result (λ place. place < length text.now) }
{
    text.iter().position(|c| *c == b'\'')
}

/// What a number of the text stands for, in time linear in its digits.
pub fn constant_of(text: &[u8]) -> Constant
    ensures { result ≡ literals.constant_of text.now }
{
    match apostrophe(text) {
        None => plain_constant(text),
        Some(place) => {
            let size = leading_digits(&text[..place]);
            based_constant(size, &text[place + 1..])
        }
    }
}
