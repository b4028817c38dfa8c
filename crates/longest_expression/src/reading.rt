// One expression among the tokens (IEEE 1364-2005, A.8.3).

ghost use Rattle.std.specs.Prelude.{◌≡◌, ◌-◌, ◌≤◌, ℕ, drop, length, IfOk};
ghost use Rattle.basis.specs.Reasons.{IfFault};
ghost use Rattle.vexpr_parse.specs.Answers.{ahead};
ghost use Rattle.vexpr_parse.specs.Places.{IsStopped};
ghost use Rattle.vexpr_parse.specs.Readers.{stop};
ghost use Rattle.vexpr_parse.specs.Reading.{expression as expression_of};
ghost use Rattle.vexpr_parse.specs.Texts.{words_of};
ghost use Rattle.longest_expression.specs.LongestExpression.{IsLongest, IsStoppedBy};

use basis::OrMemory;
use std::alloc::Global;
use vast::expression::Expression;
use vexpr_parse::{Cursor, Stop, expression};
use vlex::Tokens;
use vparse::{LEVELS, SyntaxFault, stands_outside};

// How many tokens stand before the place.
fn number_of(tokens: &Tokens<'_>, cursor: &Cursor) -> usize
    ensures count { result ≡ length (words_of tokens.now) - length (ahead tokens.now cursor.now) }
    ensures within { result ≤ length (words_of tokens.now) }
{
    tokens.len().saturating_sub(cursor.left(tokens))
}

// What is wrong at the word where reading stopped that began at a token.
fn fault(tokens: &Tokens<'_>, at: usize, cursor: &Cursor, why: Stop) -> SyntaxFault
    requires read { expression_of 64 0 (drop at (words_of tokens.now)) ≡ stop why (ahead tokens.now cursor.now) }
    requires stopped { IsStopped 64 (drop at (words_of tokens.now)) (ahead tokens.now cursor.now) why }
    ensures { IsStoppedBy tokens.now at result }
{
    let index = number_of(tokens, cursor);
    let place = tokens.place(index);
    match why {
        Stop::TooDeep => SyntaxFault::TooDeep { place },
        Stop::NoTree => {
            if stands_outside(tokens, index) {
                SyntaxFault::Outside { place }
            } else {
                SyntaxFault::NoTree { place }
            }
        }
    }
}

/// The longest expression that begins at the token of this number, from 0, and the number of the token after it (IEEE 1364-2005,
/// A.8.3). It nests 64 levels deep at most, and keeps its names, its numbers and each `$time` by their own numbers. The words are read
/// one by one and never given back: where the first of them that can't follow those before it, or the text's end, comes before an
/// expression ends, as in `a + ;`, it decides of the fault: E203 where it could follow with more levels, else E202 where the word stands
/// outside the profile, and E201 where it doesn't. E901 where a growth was refused.
pub fn parse_expr(
    alloc: Global,
    tokens: &Tokens<'_>,
    at: usize,
) -> Result<(Expression, usize), OrMemory<SyntaxFault>>
    ensures longest { IfOk result (λ read. IsLongest tokens.now at read.1 read.0) }
    ensures reason { IfFault result (IsStoppedBy tokens.now at) }
{
    let mut cursor = Cursor::at(tokens, at);
    match expression(alloc, tokens, &mut cursor, LEVELS) {
        Ok(found) => Ok((found.tree, number_of(tokens, &cursor))),
        Err(OrMemory::Fault(why)) => Err(OrMemory::Fault(fault(tokens, at, &cursor, why))),
        Err(OrMemory::Memory(refused)) => Err(OrMemory::Memory(refused)),
    }
}
