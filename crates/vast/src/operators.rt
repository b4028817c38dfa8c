// Operators: how they are written, and how tightly they bind (IEEE 1364-2005, 5.1).

ghost use Rattle.std.specs.Prelude.{◌≡◌, ◌<◌};
ghost use Rattle.vast.specs.Expressions.{unary_word as unary_text, binary_word as binary_text, rank as rank_of_operator};

use vwords::operators::{BinaryOperator, UnaryOperator};

/// The rank of what no binary operator makes, above that of every binary operator.
pub const UNARY_RANK: u32 = 11;

/// What the operator is written as.
pub fn unary_word(operator: UnaryOperator) -> &'static [u8]
    ensures { result.now ≡ unary_text operator }
{
    match operator {
        UnaryOperator::Plus => b"+",
        UnaryOperator::Minus => b"-",
        UnaryOperator::Not => b"!",
        UnaryOperator::Invert => b"~",
        UnaryOperator::And => b"&",
        UnaryOperator::Nand => b"~&",
        UnaryOperator::Or => b"|",
        UnaryOperator::Nor => b"~|",
        UnaryOperator::Xor => b"^",
        UnaryOperator::Xnor => b"~^",
        UnaryOperator::XorNot => b"^~",
    }
}

/// What the operator is written as.
pub fn binary_word(operator: BinaryOperator) -> &'static [u8]
    ensures { result.now ≡ binary_text operator }
{
    match operator {
        BinaryOperator::Times => b"*",
        BinaryOperator::Divide => b"/",
        BinaryOperator::Remainder => b"%",
        BinaryOperator::Plus => b"+",
        BinaryOperator::Minus => b"-",
        BinaryOperator::ShiftLeft => b"<<",
        BinaryOperator::ShiftRight => b">>",
        BinaryOperator::ShiftLeftSigned => b"<<<",
        BinaryOperator::ShiftRightSigned => b">>>",
        BinaryOperator::Less => b"<",
        BinaryOperator::LessOrEqual => b"<=",
        BinaryOperator::Greater => b">",
        BinaryOperator::GreaterOrEqual => b">=",
        BinaryOperator::Equal => b"==",
        BinaryOperator::NotEqual => b"!=",
        BinaryOperator::CaseEqual => b"===",
        BinaryOperator::CaseNotEqual => b"!==",
        BinaryOperator::And => b"&",
        BinaryOperator::Xor => b"^",
        BinaryOperator::Xnor => b"~^",
        BinaryOperator::XorNot => b"^~",
        BinaryOperator::Or => b"|",
        BinaryOperator::LogicalAnd => b"&&",
        BinaryOperator::LogicalOr => b"||",
    }
}

/// How tightly the operator binds, from 1 to 10, the tightest highest (5.1.2, table 5-4).
pub fn rank(operator: BinaryOperator) -> u32
    ensures value { result ≡ rank_of_operator operator }
    ensures few { result < 11 }
{
    match operator {
        BinaryOperator::Times => 10,
        BinaryOperator::Divide => 10,
        BinaryOperator::Remainder => 10,
        BinaryOperator::Plus => 9,
        BinaryOperator::Minus => 9,
        BinaryOperator::ShiftLeft => 8,
        BinaryOperator::ShiftRight => 8,
        BinaryOperator::ShiftLeftSigned => 8,
        BinaryOperator::ShiftRightSigned => 8,
        BinaryOperator::Less => 7,
        BinaryOperator::LessOrEqual => 7,
        BinaryOperator::Greater => 7,
        BinaryOperator::GreaterOrEqual => 7,
        BinaryOperator::Equal => 6,
        BinaryOperator::NotEqual => 6,
        BinaryOperator::CaseEqual => 6,
        BinaryOperator::CaseNotEqual => 6,
        BinaryOperator::And => 5,
        BinaryOperator::Xor => 4,
        BinaryOperator::Xnor => 4,
        BinaryOperator::XorNot => 4,
        BinaryOperator::Or => 3,
        BinaryOperator::LogicalAnd => 2,
        BinaryOperator::LogicalOr => 1,
    }
}
