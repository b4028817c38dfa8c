// What a right operand is to its operator.

use vbits::Vec4;

/// What a right operand is to its operator: what goes into its operation, or code of its own.
#[derive(Clone, Copy)]
pub enum RightOperand {
    /// A number, already brought to its context.
    Number(Vec4),
    /// The variable of this number, as it is.
    Variable(u32),
    /// Anything else.
    Computed,
}
