// Expressions (IEEE 1364-2005, clause 5).

ghost use Rattle.std.specs.Prelude.{◌≡◌, ◌-◌, List};
ghost use Rattle.vast.specs.NumberedTrees.{tree_of, trees_of};
ghost use Rattle.vwords.specs.Words.{Text};
ghost use Rattle.module_size.specs.Sizes.{expression_size, expressions_size};

use vast::expression::Expression;

/// What is left behind an expression.
#[cycle(expressions)]
pub fn take_expression(expression: &Expression, left: usize) -> usize
    ensures { (words : List Text) → result ≡ left - expression_size (tree_of words expression.now) }
{
    if left == 0 {
        return 0;
    }
    let left = left - 1;
    match expression {
        Expression::Number(_) => left,
        Expression::Name(_) => left,
        Expression::Time(_) => left,
        Expression::Bit { index, .. } => take_expression(index, left),
        Expression::Part {
            left: first,
            right,
            ..
        } => take_expression(right, take_expression(first, left)),
        Expression::Parentheses(inner) => take_expression(inner, left),
        Expression::Concatenation { parts, .. } => take_expressions(parts, left),
        Expression::Replication { count, parts, .. } => {
            take_expressions(parts, take_expression(count, left))
        }
        Expression::Conversion { operand, .. } => take_expression(operand, left),
        Expression::Unary { operand, .. } => take_expression(operand, left),
        Expression::Binary {
            left: first,
            right,
            ..
        } => take_expression(right, take_expression(first, left)),
        Expression::Conditional {
            condition,
            when_true,
            when_false,
        } => {
            let left = take_expression(condition, left);
            take_expression(when_false, take_expression(when_true, left))
        }
    }
}

/// What is left behind expressions.
#[cycle(expressions)]
pub fn take_expressions(parts: &[Expression], mut left: usize) -> usize
    ensures { (words : List Text) → result ≡ left - expressions_size (trees_of words parts.now) }
{
    for one in parts {
        left = take_expression(one, left);
    }
    left
}
