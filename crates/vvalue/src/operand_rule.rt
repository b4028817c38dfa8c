// Operators by what becomes of their operands (IEEE 1364-2005, 5.4.1, table 5-22).

ghost use Rattle.std.specs.Prelude.{◌≡◌};
ghost use Rattle.vvalue.specs.OperandRules as spec;

use vbits::Reduction;
use vwords::operators::{BinaryOperator, UnaryOperator};

/// An operator whose operands have the size and the sign of its result.
#[derive(Clone, Copy)]
pub enum Shared {
    Times,
    Divide,
    Remainder,
    Plus,
    Minus,
    And,
    Or,
    Xor,
    Xnor,
}

/// An operator that compares its operands.
#[derive(Clone, Copy)]
pub enum Compared {
    Less,
    LessOrEqual,
    Greater,
    GreaterOrEqual,
    Equal,
    NotEqual,
    CaseEqual,
    CaseNotEqual,
}

/// An operator of truths.
#[derive(Clone, Copy)]
pub enum Logical {
    And,
    Or,
}

/// A shift.
#[derive(Clone, Copy)]
pub enum Shift {
    Left,
    Right,
    RightSigned,
}

/// What becomes of the operands of an operator that has two.
#[derive(Clone, Copy)]
pub enum OperandRule {
    /// Both have the size and the sign of the result.
    ContextDetermined(Shared),
    /// Both have the greater of their sizes, and are signed where both are; the result is one bit.
    MaxSized(Compared),
    /// Each is by itself; the result is one bit.
    SelfDetermined(Logical),
    /// The left one has the size and the sign of the result, the right one is by itself.
    LeftContextDetermined(Shift),
}

/// What becomes of the operands of this operator.
pub fn operand_rule_of(operator: BinaryOperator) -> OperandRule
    ensures { result ≡ spec.operand_rule operator }
{
    match operator {
        BinaryOperator::Times => OperandRule::ContextDetermined(Shared::Times),
        BinaryOperator::Divide => OperandRule::ContextDetermined(Shared::Divide),
        BinaryOperator::Remainder => OperandRule::ContextDetermined(Shared::Remainder),
        BinaryOperator::Plus => OperandRule::ContextDetermined(Shared::Plus),
        BinaryOperator::Minus => OperandRule::ContextDetermined(Shared::Minus),
        BinaryOperator::ShiftLeft => OperandRule::LeftContextDetermined(Shift::Left),
        BinaryOperator::ShiftRight => OperandRule::LeftContextDetermined(Shift::Right),
        BinaryOperator::ShiftLeftSigned => OperandRule::LeftContextDetermined(Shift::Left),
        BinaryOperator::ShiftRightSigned => OperandRule::LeftContextDetermined(Shift::RightSigned),
        BinaryOperator::Less => OperandRule::MaxSized(Compared::Less),
        BinaryOperator::LessOrEqual => OperandRule::MaxSized(Compared::LessOrEqual),
        BinaryOperator::Greater => OperandRule::MaxSized(Compared::Greater),
        BinaryOperator::GreaterOrEqual => OperandRule::MaxSized(Compared::GreaterOrEqual),
        BinaryOperator::Equal => OperandRule::MaxSized(Compared::Equal),
        BinaryOperator::NotEqual => OperandRule::MaxSized(Compared::NotEqual),
        BinaryOperator::CaseEqual => OperandRule::MaxSized(Compared::CaseEqual),
        BinaryOperator::CaseNotEqual => OperandRule::MaxSized(Compared::CaseNotEqual),
        BinaryOperator::And => OperandRule::ContextDetermined(Shared::And),
        BinaryOperator::Xor => OperandRule::ContextDetermined(Shared::Xor),
        BinaryOperator::Xnor => OperandRule::ContextDetermined(Shared::Xnor),
        BinaryOperator::XorNot => OperandRule::ContextDetermined(Shared::Xnor),
        BinaryOperator::Or => OperandRule::ContextDetermined(Shared::Or),
        BinaryOperator::LogicalAnd => OperandRule::SelfDetermined(Logical::And),
        BinaryOperator::LogicalOr => OperandRule::SelfDetermined(Logical::Or),
    }
}

/// An operator that gives as many bits as its operand has.
#[derive(Clone, Copy)]
pub enum Sign {
    Plus,
    Minus,
    Invert,
}

/// What becomes of the operand of an operator that has one.
#[derive(Clone, Copy)]
pub enum UnaryOperandRule {
    /// It has the size and the sign of the result.
    InContext(Sign),
    /// It is by itself, and its bits are folded to one.
    Reduced(Reduction),
    /// It is by itself, and the result is the opposite of its truth.
    LogicallyNegated,
}

/// What becomes of the operand of this operator.
pub fn unary_operand_rule_of(operator: UnaryOperator) -> UnaryOperandRule
    ensures { result ≡ spec.unary_operand_rule operator }
{
    match operator {
        UnaryOperator::Plus => UnaryOperandRule::InContext(Sign::Plus),
        UnaryOperator::Minus => UnaryOperandRule::InContext(Sign::Minus),
        UnaryOperator::Not => UnaryOperandRule::LogicallyNegated,
        UnaryOperator::Invert => UnaryOperandRule::InContext(Sign::Invert),
        UnaryOperator::And => UnaryOperandRule::Reduced(Reduction::And),
        UnaryOperator::Nand => UnaryOperandRule::Reduced(Reduction::Nand),
        UnaryOperator::Or => UnaryOperandRule::Reduced(Reduction::Or),
        UnaryOperator::Nor => UnaryOperandRule::Reduced(Reduction::Nor),
        UnaryOperator::Xor => UnaryOperandRule::Reduced(Reduction::Xor),
        UnaryOperator::Xnor => UnaryOperandRule::Reduced(Reduction::Xnor),
        UnaryOperator::XorNot => UnaryOperandRule::Reduced(Reduction::Xnor),
    }
}
