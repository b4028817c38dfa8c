// Operators of expressions (IEEE 1364-2005, 5.1 and A.8.6).

/// An operator before its operand (5.1, A.8.6).
#[derive(Clone, Copy, PartialEq, Eq)]
pub enum UnaryOperator {
    /// `+`
    Plus,
    /// `-`
    Minus,
    /// `!`
    Not,
    /// `~`
    Invert,
    /// `&`
    And,
    /// `~&`
    Nand,
    /// `|`
    Or,
    /// `~|`
    Nor,
    /// `^`
    Xor,
    /// `~^`
    Xnor,
    /// `^~`, the same as `~^`
    XorNot,
}

/// An operator between its operands (5.1, A.8.6).
#[derive(Clone, Copy, PartialEq, Eq)]
pub enum BinaryOperator {
    /// `*`
    Times,
    /// `/`
    Divide,
    /// `%`
    Remainder,
    /// `+`
    Plus,
    /// `-`
    Minus,
    /// `<<`
    ShiftLeft,
    /// `>>`
    ShiftRight,
    /// `<<<`
    ShiftLeftSigned,
    /// `>>>`
    ShiftRightSigned,
    /// `<`
    Less,
    /// `<=`
    LessOrEqual,
    /// `>`
    Greater,
    /// `>=`
    GreaterOrEqual,
    /// `==`
    Equal,
    /// `!=`
    NotEqual,
    /// `===`
    CaseEqual,
    /// `!==`
    CaseNotEqual,
    /// `&`
    And,
    /// `^`
    Xor,
    /// `~^`
    Xnor,
    /// `^~`, the same as `~^`
    XorNot,
    /// `|`
    Or,
    /// `&&`
    LogicalAnd,
    /// `||`
    LogicalOr,
}
