// Expressions of the whole profile (IEEE 1364-2005, clause 5 and A.8, narrowed to this product's profile).

use crate::token::Token;
use vwords::operators::{BinaryOperator, UnaryOperator};

/// An expression (clause 5), its parentheses kept.
#[derive(Drop)]
pub enum Expression {
    /// `8'hff` (3.5.1)
    Number(Token),
    /// `name` (3.7)
    Name(Token),
    /// `$time` (17.7.1)
    Time(Token),
    /// `name[index]` (5.2.1)
    Bit {
        name: Token,
        index: Box<Expression>,
    },
    /// `name[left:right]` (5.2.1)
    Part {
        name: Token,
        left: Box<Expression>,
        right: Box<Expression>,
    },
    /// `(inner)`
    Parentheses(Box<Expression>),
    /// `{part, ..}` (5.1.14); `at` is the number of its first token
    Concatenation {
        at: u32,
        parts: Vec<Expression>,
    },
    /// `{count{part, ..}}` (5.1.14); `at` is the number of its first token
    Replication {
        at: u32,
        count: Box<Expression>,
        parts: Vec<Expression>,
    },
    /// `$signed(operand)`, or `$unsigned(operand)` (5.5)
    Conversion {
        signed: bool,
        operand: Box<Expression>,
    },
    /// `- operand` (5.1.2)
    Unary {
        operator: UnaryOperator,
        operand: Box<Expression>,
    },
    /// `left + right` (5.1.2)
    Binary {
        operator: BinaryOperator,
        left: Box<Expression>,
        right: Box<Expression>,
    },
    /// `condition ? when_true : when_false` (5.1.13)
    Conditional {
        condition: Box<Expression>,
        when_true: Box<Expression>,
        when_false: Box<Expression>,
    },
}
