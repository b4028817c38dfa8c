// Operations of code, and the code of an expression.

ghost use Rattle.std.specs.Prelude.{◌≡◌};
ghost use Rattle.expression_code.specs.Code.{CodeTree};
ghost use Rattle.expression_code.specs.Operations.{operations_of};

use crate::context::Context;
use std::marker::Model;
use vbits::Vec4;
use vdesign::expression::Bounds;
use vvalue::operand_rule::{OperandRule, UnaryOperandRule};

/// What has no operands.
#[derive(Clone, Copy)]
pub enum Leaf {
    /// A number, already brought to its context.
    Number(Vec4),
    /// The variable of this number, as it is.
    Load(u32),
    /// The variable of this number, brought to a context (5.5.2).
    Extend {
        variable: u32,
        context: Context,
    },
    /// `$time` (17.7.1)
    Time,
    /// `name[left:right]`, of a variable whose bits have the numbers `declared` (5.2.1)
    Part {
        variable: u32,
        declared: Bounds,
        part: Bounds,
    },
    /// The letters of the variable of this number between two places, both with them.
    Slice {
        variable: u32,
        high: u32,
        low: u32,
    },
}

/// What is done with one operand.
#[derive(Clone, Copy)]
pub enum UnaryStep {
    /// `name[operand]`, of a variable whose bits have these numbers (5.2.1)
    Bit { variable: u32, bounds: Bounds },
    /// `name[operand]`, of a parameter of this value (4.10, 5.2.1)
    BitOf { value: Vec4, bounds: Bounds },
    /// It is brought to a context (5.5.2).
    Fit(Context),
    /// `- operand` (5.1)
    Apply(UnaryOperandRule),
    /// `operand + number` (5.1)
    WithNumber { rule: OperandRule, number: Vec4 },
    /// `operand + name`, of a variable that is taken as it is (5.1)
    WithVariable { rule: OperandRule, variable: u32 },
    /// `{count{operand}}` (5.1.14)
    Repeat(u32),
}

/// What is done with two operands.
#[derive(Clone, Copy)]
pub enum BinaryStep {
    /// `left + right` (5.1)
    Combine(OperandRule),
    /// `{left, right}` (5.1.14)
    Join,
}

/// An operation of code, without its operands.
#[derive(Clone, Copy)]
pub enum Operation {
    Leaf(Leaf),
    Unary(UnaryStep),
    Binary(BinaryStep),
    /// `condition ? when_true : when_false` (5.1.13)
    Choose,
}

/// The code of an expression: its operations in a list, each before its operands. A clause sees it as the tree of specs/Code.antt.
pub struct ExpressionCode {
    operations: Vec<Operation>,
}

impl Drop for ExpressionCode {
    fn drop(self) {
        let ExpressionCode { operations: _ } = self;
    }
}

impl Model for ExpressionCode {
    ghost use Rattle.expression_code.specs.Code.{CodeTree};
    ghost use Rattle.std.specs.Prelude.{List};
    ghost use Rattle.std.specs.Coded.{code_by, codes};
    ghost use Rattle.expression_code.specs.declared.operation.Operation.{Operation};
    ghost use Rattle.expression_code.specs.Operations.{IsWhole, operations_of, tree_by, tree_by_operations};

    ghost Value = { CodeTree };

    ghost coded = { code_by (List Operation) (Prim.hlevel codes) operations_of tree_by tree_by_operations };

    ghost view = { λ code. tree_by code.operations.items };

    ghost invariant = { λ code. IsWhole code.operations.items };
}

impl ExpressionCode {
    // The code of these operations.
    pub(crate) fn new(operations: Vec<Operation>) -> ExpressionCode
        requires { (tree : CodeTree) × (operations.items ≡ operations_of tree) }
        ensures { (tree : CodeTree) → operations.items ≡ operations_of tree → result ≡ tree }
    {
        ExpressionCode { operations }
    }

    /// Its operations, each before its operands.
    pub fn operations(&self) -> &[Operation]
        ensures { result.now ≡ operations_of self.now }
    {
        &self.operations
    }
}
