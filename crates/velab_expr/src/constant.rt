// Constants: what bounds, counts and parameters are worth (IEEE 1364-2005, 4.3.1, 4.10, 5.1.14, 5.2.1).

ghost use Rattle.std.specs.Prelude.{◌≡◌, ◌≤◌, List, IfSome};
ghost use Rattle.vbits.specs.Letters as letters;
ghost use Rattle.velab_expr.specs.Constants as spec;
ghost use Rattle.velab_expr.specs.Rules as rules;
ghost use Rattle.vast.specs.NumberedTrees.{tree_of};
ghost use Rattle.vwords.specs.Words.{Text};
ghost use Rattle.velab_expr.specs.FirstWords.{first_in};
ghost use Rattle.velab_expr.specs.Answers.{Gives};

use crate::fault::{ElabFault, Rule};
use crate::first::first_in;
use crate::refusal::refusal;
use basis::OrMemory;
use vast::expression::Expression as Written;
use vbits::{Bit4, Vec4};
use vdesign::expression::{Bounds, Expression};
use vvalue::asked::self_determined_value;
use vvalue::environment::Environment;
use vvalue::flaw::{Flaw, flaw_of};

/// What stands for a bound that is none.
const NO_BOUND: u32 = 65536;
/// The greatest number of a bit.
const GREATEST_BOUND: u64 = 65535;

/// What is known where there are no variables.
pub fn nothing() -> Environment<'static>
    ensures { result ≡ spec.nothing }
{
    Environment::at_zero(&[], &[])
}

/// The rule that is broken where an expression has this flaw.
pub fn rule_of(flaw: Flaw) -> Rule
    ensures { result ≡ rules.rule_of flaw }
{
    match flaw {
        Flaw::NoBits => Rule::Kind,
        Flaw::Size => Rule::Width,
    }
}

/// What a constant expression is worth, which is written so. E306, or E310, where its sizes are wrong, at the first word that is written.
pub fn worth_of(expression: &Expression, written: &Written) -> Result<Vec4, OrMemory<ElabFault>>
    ensures { (words : List Text) → Gives result
        (spec.checked_constant (first_in (tree_of words written.now)) expression.now) }
{
    let environment = nothing();
    match flaw_of(expression, &environment) {
        None => Ok(self_determined_value(expression, &environment)),
        Some(flaw) => { Err(refusal(rule_of(flaw), first_in(written))) }
    }
}

fn is_one(letter: Bit4) -> bool
    ensures { result ≡ letters.is_one letter }
{
    match letter {
        Bit4::Zero => false,
        Bit4::One => true,
        Bit4::X => false,
        Bit4::Z => false,
    }
}

fn is_negative(value: Vec4) -> bool
    ensures { result ≡ spec.is_negative value }
{
    if !value.signed() {
        return false;
    }
    is_one(value.bit(value.len() - 1))
}

/// The number of a bit that a value gives.
pub fn bound_in(value: Vec4) -> Option<u32>
    ensures value { result ≡ spec.bound_in value }
    ensures within { IfSome result (λ n. n ≤ 65535) }
{
    if is_negative(value) {
        return None;
    }
    let n = value.to_u64()?;
    if n <= GREATEST_BOUND {
        Some(n as u32)
    } else {
        None
    }
}

/// The bounds of a part.
pub fn part_bounds(left: Vec4, right: Vec4) -> Bounds
    ensures { result ≡ spec.part_bounds left right }
{
    Bounds {
        left: bound_in(left).unwrap_or(NO_BOUND),
        right: bound_in(right).unwrap_or(NO_BOUND),
    }
}

/// How often a replication repeats.
pub fn count_in(count: Vec4) -> u32
    ensures { result ≡ spec.count_in count }
{
    bound_in(count).unwrap_or(0)
}
