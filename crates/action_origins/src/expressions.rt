// Expressions (IEEE 1364-2005, clause 5).

ghost use Rattle.std.specs.Prelude.{◌≡◌, ◌-◌, List};
ghost use Rattle.vast.specs.NumberedTrees.{tree_of, trees_of};
ghost use Rattle.vwords.specs.Words.{Text};
ghost use Rattle.action_origins.specs.Lengths.{each_part, expression_length, parts_length, word_where};

use vast::expression::Expression;

/// What is left behind the word that ends a list, where nothing stands in it.
pub fn past_end(is_empty: bool, left: usize) -> usize
    ensures { result ≡ left - word_where is_empty }
{
    if is_empty {
        left.saturating_sub(1)
    } else {
        left
    }
}

/// What is left behind an expression.
#[cycle(expressions)]
pub fn past_expression(expression: &Expression, left: usize) -> usize
    ensures { (words : List Text) → result ≡ left - expression_length (tree_of words expression.now) }
{
    match expression {
        Expression::Number(_) => left.saturating_sub(1),
        Expression::Name(_) => left.saturating_sub(1),
        Expression::Time(_) => left.saturating_sub(1),
        Expression::Bit { index, .. } => past_expression(index, left.saturating_sub(3)),
        Expression::Part {
            left: first,
            right,
            ..
        } => past_expression(right, past_expression(first, left.saturating_sub(4))),
        Expression::Parentheses(inner) => past_expression(inner, left.saturating_sub(2)),
        Expression::Concatenation { parts, .. } => past_parts(parts, left.saturating_sub(1)),
        Expression::Replication { count, parts, .. } => {
            past_parts(parts, past_expression(count, left.saturating_sub(3)))
        }
        Expression::Conversion { operand, .. } => past_expression(operand, left.saturating_sub(3)),
        Expression::Unary { operand, .. } => past_expression(operand, left.saturating_sub(1)),
        Expression::Binary {
            left: first,
            right,
            ..
        } => past_expression(right, past_expression(first, left.saturating_sub(1))),
        Expression::Conditional {
            condition,
            when_true,
            when_false,
        } => {
            let left = past_expression(condition, left.saturating_sub(2));
            past_expression(when_false, past_expression(when_true, left))
        }
    }
}

/// What is left behind parts and the word that ends them.
#[cycle(expressions)]
pub fn past_parts(parts: &[Expression], left: usize) -> usize
    ensures { (words : List Text) → result ≡ left - parts_length (trees_of words parts.now) }
{
    past_each(parts, past_end(parts.is_empty(), left))
}

#[cycle(expressions)]
fn past_each(parts: &[Expression], mut left: usize) -> usize
    ensures { (words : List Text) → result ≡ left - each_part (trees_of words parts.now) }
{
    for one in parts {
        left = past_expression(one, left).saturating_sub(1);
    }
    left
}
