// What the first word of an expression begins.

use vwords::operators::UnaryOperator;

/// What the first word of an expression begins (IEEE 1364-2005, A.8.4).
#[derive(Clone, Copy, PartialEq, Eq)]
pub enum Beginning {
    /// A number, and nothing more.
    Number,
    /// A name, or a select of it.
    Name,
    /// `$time`
    Time,
    /// A tree round another.
    Round(Round),
    /// No expression.
    Other,
}

/// What a word begins that stands round an expression.
#[derive(Clone, Copy, PartialEq, Eq)]
pub enum Round {
    /// `(`
    Parenthesis,
    /// `{`
    Brace,
    /// `$signed`, or `$unsigned`
    Conversion(bool),
    /// An operator before its operand.
    Operator(UnaryOperator),
}
