// What readers of expressions hand on: a tree, and how deep it nests.

ghost use Rattle.std.specs.Prelude.{◌≡◌, ◌∷◌, ◌++◌, List, max, IfOk};
ghost use Rattle.vwords.specs.Words.{Text};
ghost use Rattle.vast.specs.TokenTexts.{token_text};
ghost use Rattle.vast.specs.Expressions.{bit, part, parentheses, conversion, apply, combine};
ghost use Rattle.vast.specs.ExpressionTrees.{tree_of};
ghost use Rattle.vast.specs.Leaves.{leaves_of};
ghost use Rattle.vexpr_parse.specs.Answers.{found_leaves, parts_leaves, IsShallow, IsMade, IsRound, IsRoundBoth, IsChosen, IsJoined, IsRepeated};

use basis::NoMemory;
use std::alloc::Global;
use vast::expression::Expression;
use vast::token::Token;
use vwords::operators::{BinaryOperator, UnaryOperator};

/// An expression that was read, and its depth (docs/LANGUAGE.md, "Depth").
#[derive(Drop)]
pub struct Found {
    pub tree: Expression,
    pub depth: u64,
}

/// The parts of a concatenation, and the greatest of their depths.
#[derive(Drop)]
pub struct Parts {
    pub trees: Vec<Expression>,
    pub depth: u64,
}

/// The larger of the two.
pub fn larger(a: u64, b: u64) -> u64
    ensures { result ≡ max a b }
{
    if a < b { b } else { a }
}

/// A tree round no other.
pub fn leaf(tree: Expression) -> Found
    ensures made { (words : List Text) → IsMade words (tree_of words tree) 1 result }
    ensures kept { found_leaves result ≡ leaves_of tree }
{
    Found { tree, depth: 1 }
}

/// `(inner)`
pub fn in_parentheses(alloc: Global, inner: Found) -> Result<Found, NoMemory>
    requires { IsShallow inner.depth }
    ensures made { (words : List Text) → IfOk result (IsRound words parentheses inner) }
    ensures kept { IfOk result (λ found. found_leaves found ≡ found_leaves inner) }
{
    Ok(Found {
        depth: 1 + inner.depth,
        tree: Expression::Parentheses(Box::new(alloc, inner.tree)?),
    })
}

/// `$signed(operand)`, or `$unsigned(operand)` (5.5)
pub fn conversion_of(alloc: Global, signed: bool, operand: Found) -> Result<Found, NoMemory>
    requires { IsShallow operand.depth }
    ensures made { (words : List Text) → IfOk result (IsRound words (conversion signed) operand) }
    ensures kept { IfOk result (λ found. found_leaves found ≡ found_leaves operand) }
{
    Ok(Found {
        depth: 1 + operand.depth,
        tree: Expression::Conversion {
            signed,
            operand: Box::new(alloc, operand.tree)?,
        },
    })
}

/// An operator before its operand (5.1).
pub fn application_of(
    alloc: Global,
    operator: UnaryOperator,
    operand: Found,
) -> Result<Found, NoMemory>
    requires { IsShallow operand.depth }
    ensures made { (words : List Text) → IfOk result (IsRound words (apply operator) operand) }
    ensures kept { IfOk result (λ found. found_leaves found ≡ found_leaves operand) }
{
    Ok(Found {
        depth: 1 + operand.depth,
        tree: Expression::Unary {
            operator,
            operand: Box::new(alloc, operand.tree)?,
        },
    })
}

/// An operator between its operands (5.1).
pub fn combination_of(
    alloc: Global,
    operator: BinaryOperator,
    left: Found,
    right: Found,
) -> Result<Found, NoMemory>
    requires { IsShallow left.depth × IsShallow right.depth }
    ensures made { (words : List Text) →
        IfOk result (IsRoundBoth words (combine operator) left right) }
    ensures kept { IfOk result (λ found.
        found_leaves found ≡ found_leaves left ++ found_leaves right) }
{
    Ok(Found {
        depth: 1 + larger(left.depth, right.depth),
        tree: Expression::Binary {
            operator,
            left: Box::new(alloc, left.tree)?,
            right: Box::new(alloc, right.tree)?,
        },
    })
}

/// `condition ? when_true : when_false` (5.1.13)
pub fn conditional_of(
    alloc: Global,
    condition: Found,
    when_true: Found,
    when_false: Found,
) -> Result<Found, NoMemory>
    requires { IsShallow condition.depth × IsShallow when_true.depth × IsShallow when_false.depth }
    ensures made { (words : List Text) →
        IfOk result (IsChosen words condition when_true when_false) }
    ensures kept { IfOk result (λ found. found_leaves found ≡
        found_leaves condition ++ (found_leaves when_true ++ found_leaves when_false)) }
{
    Ok(Found {
        depth: 1 + larger(condition.depth, larger(when_true.depth, when_false.depth)),
        tree: Expression::Conditional {
            condition: Box::new(alloc, condition.tree)?,
            when_true: Box::new(alloc, when_true.tree)?,
            when_false: Box::new(alloc, when_false.tree)?,
        },
    })
}

/// `name[index]` (5.2.1)
pub fn bit_select_of(alloc: Global, name: Token, index: Found) -> Result<Found, NoMemory>
    requires { IsShallow index.depth }
    ensures made { (words : List Text) →
        IfOk result (IsRound words (bit (token_text words name)) index) }
    ensures kept { IfOk result (λ found. found_leaves found ≡ name ∷ found_leaves index) }
{
    Ok(Found {
        depth: 1 + index.depth,
        tree: Expression::Bit {
            name,
            index: Box::new(alloc, index.tree)?,
        },
    })
}

/// `name[left:right]` (5.2.1)
pub fn part_select_of(
    alloc: Global,
    name: Token,
    left: Found,
    right: Found,
) -> Result<Found, NoMemory>
    requires { IsShallow left.depth × IsShallow right.depth }
    ensures made { (words : List Text) →
        IfOk result (IsRoundBoth words (part (token_text words name)) left right) }
    ensures kept { IfOk result (λ found.
        found_leaves found ≡ name ∷ (found_leaves left ++ found_leaves right)) }
{
    Ok(Found {
        depth: 1 + larger(left.depth, right.depth),
        tree: Expression::Part {
            name,
            left: Box::new(alloc, left.tree)?,
            right: Box::new(alloc, right.tree)?,
        },
    })
}

/// `{part, ..}` (5.1.14)
pub fn concatenation_of(at: u32, parts: Parts) -> Found
    requires { IsShallow parts.depth }
    ensures made { (words : List Text) → IsJoined words parts result }
    ensures kept { found_leaves result ≡ parts_leaves parts }
{
    Found {
        depth: 1 + parts.depth,
        tree: Expression::Concatenation {
            at,
            parts: parts.trees,
        },
    }
}

/// `{count{part, ..}}` (5.1.14)
pub fn replication_of(alloc: Global, at: u32, count: Found, parts: Parts) -> Result<Found, NoMemory>
    requires { IsShallow count.depth × IsShallow parts.depth }
    ensures made { (words : List Text) → IfOk result (IsRepeated words count parts) }
    ensures kept { IfOk result (λ found.
        found_leaves found ≡ found_leaves count ++ parts_leaves parts) }
{
    Ok(Found {
        depth: 1 + larger(count.depth, parts.depth),
        tree: Expression::Replication {
            at,
            count: Box::new(alloc, count.tree)?,
            parts: parts.trees,
        },
    })
}
