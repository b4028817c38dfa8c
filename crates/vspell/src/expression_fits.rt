// Whether an expression stands as the grammar lets it: names and numbers in their places, operands that hold tightly enough,
// nothing too deep.

ghost use Rattle.std.specs.Prelude.{◌≡◌, List};
ghost use Rattle.vwords.specs.Words.{Text};
ghost use Rattle.vast.specs.Expressions.{is_some_part, rank_of as rank_of_tree};
ghost use Rattle.vast.specs.TokenTexts.{texts};
ghost use Rattle.vast.specs.ExpressionTrees.{tree_of, trees_of};
ghost use Rattle.vast.specs.Modules.{fits_value};
ghost use Rattle.vspell.specs.Within.{stands, all_stand, parts_within};

use vast::expression::Expression;
use vast::operators::{UNARY_RANK, rank};
use vast::token::letters;
use vwords::words::{is_name, is_number, is_time};

/// Whether there is an expression.
pub fn is_some(parts: &[Expression]) -> bool
    ensures { (words : List Text) → result ≡ is_some_part (trees_of words parts.now) }
{
    !parts.is_empty()
}

// Whether the expression fits, and has so many levels at most.
#[cycle(expressions)]
#[tactic(auto, using(crate::proofs::FitLemmas::stands_nowhere))]
fn expression_stands(words: &[&[u8]], expression: &Expression, levels: u32) -> bool
    ensures { result ≡ stands levels (tree_of (texts words.now) expression.now) }
{
    if levels == 0 {
        return false;
    }
    let below = levels - 1;
    match expression {
        Expression::Number(word) => is_number(letters(words, *word)),
        Expression::Name(word) => is_name(letters(words, *word)),
        Expression::Time(word) => is_time(letters(words, *word)),
        Expression::Bit { name, index } => {
            is_name(letters(words, *name)) && expression_stands(words, index, below)
        }
        Expression::Part { name, left, right } => {
            is_name(letters(words, *name))
                && (expression_stands(words, left, below) && expression_stands(words, right, below))
        }
        Expression::Parentheses(inner) => expression_stands(words, inner, below),
        Expression::Concatenation { parts, .. } => {
            is_some(parts) && parts_stand(words, parts, below)
        }
        Expression::Replication { count, parts, .. } => {
            expression_stands(words, count, below)
                && (is_some(parts) && parts_stand(words, parts, below))
        }
        Expression::Conversion { operand, .. } => expression_stands(words, operand, below),
        Expression::Unary { operand, .. } => {
            rank_of(operand) >= UNARY_RANK && expression_stands(words, operand, below)
        }
        Expression::Binary {
            operator,
            left,
            right,
        } => {
            rank(*operator) <= rank_of(left)
                && rank(*operator) < rank_of(right)
                && (expression_stands(words, left, below) && expression_stands(words, right, below))
        }
        Expression::Conditional {
            condition,
            when_true,
            when_false,
        } => {
            rank_of(condition) > 0
                && expression_stands(words, condition, below)
                && (expression_stands(words, when_true, below)
                    && expression_stands(words, when_false, below))
        }
    }
}

#[cycle(expressions)]
fn parts_stand(words: &[&[u8]], parts: &[Expression], levels: u32) -> bool
    ensures { result ≡ all_stand levels (trees_of (texts words.now) parts.now) }
{
    for part in parts {
        if !expression_stands(words, part, levels) {
            return false;
        }
    }
    true
}

/// Whether the expression stands as the grammar lets it, and has so many levels at most.
#[tactic(auto, using(crate::proofs::FitLemmas::stands_is))]
pub fn expression_fits(words: &[&[u8]], expression: &Expression, levels: u32) -> bool
    ensures { result ≡ fits_value levels (tree_of (texts words.now) expression.now) }
{
    expression_stands(words, expression, levels)
}

/// Whether each of these expressions stands so.
#[tactic(auto, using(crate::proofs::FitLemmas::all_stand_is))]
pub fn parts_fit(words: &[&[u8]], parts: &[Expression], levels: u32) -> bool
    ensures { result ≡ parts_within levels (trees_of (texts words.now) parts.now) }
{
    parts_stand(words, parts, levels)
}

/// How tightly an expression holds together: a conditional loosest, what no binary operator makes tightest (5.1.2).
fn rank_of(expression: &Expression) -> u32
    ensures { (words : List Text) → result ≡ rank_of_tree (tree_of words expression.now) }
{
    match expression {
        Expression::Conditional { .. } => 0,
        Expression::Binary { operator, .. } => rank(*operator),
        _ => UNARY_RANK,
    }
}
