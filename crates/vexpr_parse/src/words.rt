// What words begin and join, by their bytes.

ghost use Rattle.std.specs.Prelude.{◌≡◌, ◌==◌};
ghost use Rattle.std.specs.List.{list_any};
ghost use Rattle.std.specs.Str.{bytes_eq};
ghost use Rattle.vast.specs.Expressions.{unary_word as unary_text, binary_word as binary_text};
ghost use Rattle.vexpr_parse.specs.Words.{by_spelling, begins_among as begins_among_text, beginning_of as beginning_of_text, unary_of as unary_of_text, binary_of as binary_of_text};

use crate::beginning::{Beginning, Round};
use vast::operators::{binary_word, unary_word};
use vwords::operators::{BinaryOperator, UnaryOperator};
use vwords::words::{is_name, is_number};

static UNARY: [UnaryOperator; 11] = [
    UnaryOperator::Plus,
    UnaryOperator::Minus,
    UnaryOperator::Not,
    UnaryOperator::Invert,
    UnaryOperator::And,
    UnaryOperator::Nand,
    UnaryOperator::Or,
    UnaryOperator::Nor,
    UnaryOperator::Xor,
    UnaryOperator::Xnor,
    UnaryOperator::XorNot,
];

static BINARY: [BinaryOperator; 24] = [
    BinaryOperator::Times,
    BinaryOperator::Divide,
    BinaryOperator::Remainder,
    BinaryOperator::Plus,
    BinaryOperator::Minus,
    BinaryOperator::ShiftLeft,
    BinaryOperator::ShiftRight,
    BinaryOperator::ShiftLeftSigned,
    BinaryOperator::ShiftRightSigned,
    BinaryOperator::Less,
    BinaryOperator::LessOrEqual,
    BinaryOperator::Greater,
    BinaryOperator::GreaterOrEqual,
    BinaryOperator::Equal,
    BinaryOperator::NotEqual,
    BinaryOperator::CaseEqual,
    BinaryOperator::CaseNotEqual,
    BinaryOperator::And,
    BinaryOperator::Xor,
    BinaryOperator::Xnor,
    BinaryOperator::XorNot,
    BinaryOperator::Or,
    BinaryOperator::LogicalAnd,
    BinaryOperator::LogicalOr,
];

// The bytes that they begin with.
static BINARY_FIRST: [u8; 13] = [
    b'*', b'/', b'%', b'+', b'-', b'<', b'>', b'=', b'!', b'&', b'^', b'~', b'|',
];

/// Whether both are the same text.
pub fn is(word: &[u8], text: &[u8]) -> bool
    ensures { result ≡ bytes_eq text.now word.now }
{
    text == word
}

fn unary_among(word: &[u8], operators: &[UnaryOperator]) -> Option<UnaryOperator>
    ensures { result ≡ by_spelling unary_text operators.now word.now }
{
    for operator in operators {
        if is(word, unary_word(*operator)) {
            return Some(*operator);
        }
    }
    None
}

/// The operator that is written so before its operand, if one is (A.8.6).
pub fn unary_of(word: &[u8]) -> Option<UnaryOperator>
    ensures { result ≡ unary_of_text word.now }
{
    unary_among(word, &UNARY)
}

fn binary_among(word: &[u8], operators: &[BinaryOperator]) -> Option<BinaryOperator>
    ensures { result ≡ by_spelling binary_text operators.now word.now }
{
    for operator in operators {
        if is(word, binary_word(*operator)) {
            return Some(*operator);
        }
    }
    None
}

fn is_among(byte: u8, bytes: &[u8]) -> bool
    ensures { result ≡ list_any (λ one. one == byte) bytes.now }
{
    bytes.iter().any(|one| *one == byte)
}

fn begins_among(word: &[u8], bytes: &[u8]) -> bool
    ensures { result ≡ begins_among_text bytes.now word.now }
{
    match word.split_first() {
        None => false,
        Some((first, _rest)) => is_among(*first, bytes),
    }
}

/// The operator that is written so between its operands, if one is (A.8.6).
pub fn binary_of(word: &[u8]) -> Option<BinaryOperator>
    ensures { result ≡ binary_of_text word.now }
{
    if begins_among(word, &BINARY_FIRST) {
        binary_among(word, &BINARY)
    } else {
        None
    }
}

/// What an expression's first word begins (A.8.4).
pub fn beginning_of(word: &[u8]) -> Beginning
    ensures { result ≡ beginning_of_text word.now }
{
    if is_name(word) {
        Beginning::Name
    } else if is_number(word) {
        Beginning::Number
    } else if is(word, b"(") {
        Beginning::Round(Round::Parenthesis)
    } else if is(word, b"{") {
        Beginning::Round(Round::Brace)
    } else if is(word, b"$time") {
        Beginning::Time
    } else if is(word, b"$signed") {
        Beginning::Round(Round::Conversion(true))
    } else if is(word, b"$unsigned") {
        Beginning::Round(Round::Conversion(false))
    } else {
        match unary_of(word) {
            None => Beginning::Other,
            Some(operator) => Beginning::Round(Round::Operator(operator)),
        }
    }
}
