// Expressions.

use super::page::Page;
use vast::expression::Expression;
use vast::operators::{binary_word, unary_word};

fn kind(value: &Expression) -> &'static [u8] {
    match value {
        Expression::Number(_) => b"number",
        Expression::Name(_) => b"name",
        Expression::Time(_) => b"time",
        Expression::Bit { .. } => b"bit",
        Expression::Part { .. } => b"part",
        Expression::Parentheses(_) => b"parentheses",
        Expression::Concatenation { .. } => b"concatenation",
        Expression::Replication { .. } => b"replication",
        Expression::Conversion { signed: true, .. } => b"signed",
        Expression::Conversion { signed: false, .. } => b"unsigned",
        Expression::Unary { .. } => b"unary",
        Expression::Binary { .. } => b"binary",
        Expression::Conditional { .. } => b"conditional",
    }
}

// The word that stands before the parts of a node.
fn heading(page: &mut Page<'_>, value: &Expression) {
    match value {
        Expression::Number(digits) => page.token(*digits),
        Expression::Name(name) => page.token(*name),
        Expression::Bit { name, .. } => page.token(*name),
        Expression::Part { name, .. } => page.token(*name),
        Expression::Unary { operator, .. } => page.word(unary_word(*operator)),
        Expression::Binary { operator, .. } => page.word(binary_word(*operator)),
        _ => {}
    }
}

/// An expression.
#[cycle(expressions)]
pub fn expression(page: &mut Page<'_>, value: &Expression) {
    page.open(kind(value));
    heading(page, value);
    match value {
        Expression::Number(_) => {}
        Expression::Name(_) => {}
        Expression::Time(_) => {}
        Expression::Bit { index, .. } => expression(page, index),
        Expression::Part { left, right, .. } => {
            expression(page, left);
            expression(page, right);
        }
        Expression::Parentheses(inner) => expression(page, inner),
        Expression::Concatenation { parts, .. } => expressions(page, parts),
        Expression::Replication { count, parts, .. } => {
            expression(page, count);
            expressions(page, parts);
        }
        Expression::Conversion { operand, .. } => expression(page, operand),
        Expression::Unary { operand, .. } => expression(page, operand),
        Expression::Binary { left, right, .. } => {
            expression(page, left);
            expression(page, right);
        }
        Expression::Conditional {
            condition,
            when_true,
            when_false,
        } => {
            expression(page, condition);
            expression(page, when_true);
            expression(page, when_false);
        }
    }
    page.close();
}

/// Expressions, one behind the other.
#[cycle(expressions)]
pub fn expressions(page: &mut Page<'_>, list: &[Expression]) {
    for value in list {
        expression(page, value);
    }
}

/// An expression if there is one, else a dash.
pub fn optional(page: &mut Page<'_>, value: &Option<Box<Expression>>) {
    match value {
        None => page.word(b"-"),
        Some(value) => expression(page, value),
    }
}
