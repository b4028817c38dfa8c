// Expressions of a design (IEEE 1364-2005, clause 5): their names are resolved, and their constants reckoned.

ghost use Rattle.std.specs.Prelude.{◌≡◌};
ghost use Rattle.vdesign.specs.Expressions.{ExpressionTree};
ghost use Rattle.vdesign.specs.Nodes.{nodes_of};

use std::marker::Model;
use vbits::Vec4;
use vwords::operators::{BinaryOperator, UnaryOperator};

/// A number of the text (3.5.1).
#[derive(Clone, Copy)]
pub struct Constant {
    pub value: Vec4,
    /// Whether it is extended by its leftmost letter, x or z, to the size of what it stands in: a number
    /// without size and without `s` whose bit 31 is x or z.
    pub spreads: bool,
}

/// The numbers of the leftmost and of the rightmost bit (4.3.1).
#[derive(Clone, Copy, PartialEq, Eq)]
pub struct Bounds {
    pub left: u32,
    pub right: u32,
}

/// A node of an expression, without its operands.
#[derive(Clone, Copy)]
pub enum Node {
    /// A number.
    Constant(Constant),
    /// The whole variable of this number.
    Variable(u32),
    /// `name[index]`, of the variable of this number (5.2.1)
    Bit(u32),
    /// `name[index]`, of a parameter of this value, whose bits have these numbers (4.10, 5.2.1)
    BitOf { value: Vec4, bounds: Bounds },
    /// `name[left:right]`, of the variable of this number (5.2.1)
    Part { variable: u32, bounds: Bounds },
    /// `$time` (17.7.1)
    Time,
    /// `$signed(operand)`, or `$unsigned(operand)` (5.5)
    Conversion(bool),
    /// `- operand` (5.1)
    Unary(UnaryOperator),
    /// `left + right` (5.1)
    Binary(BinaryOperator),
    /// `condition ? when_true : when_false` (5.1.13)
    Conditional,
    /// `{left, right}` (5.1.14)
    Joined,
    /// `{count{operand}}` (5.1.14)
    Repeated(u32),
}

/// An expression: its nodes in a list, each before its operands. A clause sees it as the tree of specs/Expressions.antt.
#[derive(Drop)]
pub struct Expression {
    nodes: Vec<Node>,
}

impl Model for Expression {
    ghost use Rattle.vdesign.specs.Expressions.{ExpressionTree};
    ghost use Rattle.std.specs.Prelude.{List};
    ghost use Rattle.std.specs.Coded.{code_by, codes};
    ghost use Rattle.vdesign.specs.declared.expression.Node.{Node};
    ghost use Rattle.vdesign.specs.Nodes.{IsWhole, nodes_of, tree_by, tree_by_nodes};

    ghost Value = { ExpressionTree };

    ghost coded = { code_by (List Node) (Prim.hlevel codes) nodes_of tree_by tree_by_nodes };

    ghost view = { λ e. tree_by e.nodes.items };

    ghost invariant = { λ e. IsWhole e.nodes.items };
}

impl Expression {
    /// The expression of these nodes.
    pub fn new(nodes: Vec<Node>) -> Expression
        requires { (tree : ExpressionTree) × (nodes.items ≡ nodes_of tree) }
        ensures { (tree : ExpressionTree) → nodes.items ≡ nodes_of tree → result ≡ tree }
    {
        Expression { nodes }
    }

    /// Its nodes, each before its operands.
    pub fn nodes(&self) -> &[Node]
        ensures { result.now ≡ nodes_of self.now }
    {
        &self.nodes
    }
}
