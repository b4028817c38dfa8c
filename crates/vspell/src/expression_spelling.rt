// The words of an expression, in order.

ghost use Rattle.std.specs.Prelude.{◌≡◌, ◌∷◌, []};
ghost use Rattle.vast.specs.TokenTexts.{texts};
ghost use Rattle.vast.specs.Expressions.{spell_expression, spell_parts, conversion_word as conversion_text};
ghost use Rattle.vast.specs.ExpressionTrees.{tree_of, trees_of};
ghost use Rattle.vspell.specs.Inner.{Puts, braces_words, doubled_words, range_words};

use crate::spelling::{Spelling, put, put_comma, put_token};
use basis::NoMemory;
use vast::expression::Expression;
use vast::operators::{binary_word, unary_word};

fn conversion_word(signed: bool) -> &'static [u8]
    ensures { result.now ≡ conversion_text signed }
{
    if signed { b"$signed" } else { b"$unsigned" }
}

/// Puts the words of an expression after the others.
#[cycle(spelling)]
pub fn put_expression<'t>(
    out: &mut Vec<Spelling<'t>>,
    words: &[&'t [u8]],
    expression: &Expression,
) -> Result<(), NoMemory>
    ensures { Puts out.old out.new result
        (spell_expression (tree_of (texts words.now) expression.now)) }
{
    match expression {
        Expression::Number(word) => put_token(out, words, *word),
        Expression::Name(word) => put_token(out, words, *word),
        Expression::Time(word) => put_token(out, words, *word),
        Expression::Bit { name, index } => {
            put_token(out, words, *name)?;
            put(out, b"[")?;
            put_expression(out, words, index)?;
            put(out, b"]")
        }
        Expression::Part { name, left, right } => {
            put_token(out, words, *name)?;
            put(out, b"[")?;
            put_expression(out, words, left)?;
            put(out, b":")?;
            put_expression(out, words, right)?;
            put(out, b"]")
        }
        Expression::Parentheses(inner) => {
            put(out, b"(")?;
            put_expression(out, words, inner)?;
            put(out, b")")
        }
        Expression::Concatenation { parts, .. } => put_braces(out, words, parts),
        Expression::Replication { count, parts, .. } => {
            put(out, b"{")?;
            put_expression(out, words, count)?;
            put_doubled(out, words, parts)
        }
        Expression::Conversion { signed, operand } => {
            put(out, conversion_word(*signed))?;
            put(out, b"(")?;
            put_expression(out, words, operand)?;
            put(out, b")")
        }
        Expression::Unary { operator, operand } => {
            put(out, unary_word(*operator))?;
            put_expression(out, words, operand)
        }
        Expression::Binary {
            operator,
            left,
            right,
        } => {
            put_expression(out, words, left)?;
            put(out, binary_word(*operator))?;
            put_expression(out, words, right)
        }
        Expression::Conditional {
            condition,
            when_true,
            when_false,
        } => {
            put_expression(out, words, condition)?;
            put(out, b"?")?;
            put_expression(out, words, when_true)?;
            put(out, b":")?;
            put_expression(out, words, when_false)
        }
    }
}

#[cycle(spelling)]
fn put_braces<'t>(
    out: &mut Vec<Spelling<'t>>,
    words: &[&'t [u8]],
    parts: &[Expression],
) -> Result<(), NoMemory>
    ensures { Puts out.old out.new result (braces_words (trees_of (texts words.now) parts.now)) }
{
    put(out, b"{")?;
    put_parts(out, words, parts)?;
    put(out, b"}")
}

#[cycle(spelling)]
fn put_doubled<'t>(
    out: &mut Vec<Spelling<'t>>,
    words: &[&'t [u8]],
    parts: &[Expression],
) -> Result<(), NoMemory>
    ensures { Puts out.old out.new result (doubled_words (trees_of (texts words.now) parts.now)) }
{
    put(out, b"{")?;
    put_parts(out, words, parts)?;
    put(out, b"}")?;
    put(out, b"}")
}

/// Puts expressions with commas between them.
#[cycle(spelling)]
#[tactic(auto, using(crate::proofs::SpellLemmas::parts_first))]
pub fn put_parts<'t>(
    out: &mut Vec<Spelling<'t>>,
    words: &[&'t [u8]],
    parts: &[Expression],
) -> Result<(), NoMemory>
    ensures { Puts out.old out.new result (spell_parts (trees_of (texts words.now) parts.now)) }
{
    let mut first = true;
    for part in parts {
        put_comma(out, first)?;
        first = false;
        put_expression(out, words, part)?;
    }
    Ok(())
}

/// Puts `[left:right]`.
pub fn put_range<'t>(
    out: &mut Vec<Spelling<'t>>,
    words: &[&'t [u8]],
    left: &Expression,
    right: &Expression,
) -> Result<(), NoMemory>
    ensures { Puts out.old out.new result (range_words
        (tree_of (texts words.now) left.now) (tree_of (texts words.now) right.now)) }
{
    put(out, b"[")?;
    put_expression(out, words, left)?;
    put(out, b":")?;
    put_expression(out, words, right)?;
    put(out, b"]")
}
