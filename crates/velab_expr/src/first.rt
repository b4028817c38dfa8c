// The tokens by which faults tell where something stands: its first name, number, string or `$time`.

ghost use Rattle.std.specs.Prelude.{◌≡◌, List, map};
ghost use Rattle.vast.specs.NumberedTrees as text;
ghost use Rattle.vwords.specs.Words.{Text};
ghost use Rattle.velab_expr.specs.FirstWords as spec;
ghost use Rattle.velab_expr.specs.Rules.{number_in};

use vast::expression::Expression;
use vast::statement::{Argument, Delay, Target};

/// The number of the first token in an expression that a tree keeps.
#[cycle(first_expressions)]
pub fn first_in(expression: &Expression) -> Option<u32>
    ensures { (words : List Text) →
        result ≡ number_in (spec.first_in (text.tree_of words expression.now)) }
{
    match expression {
        Expression::Number(word) => Some(word.number),
        Expression::Name(word) => Some(word.number),
        Expression::Time(word) => Some(word.number),
        Expression::Bit { name, .. } => Some(name.number),
        Expression::Part { name, .. } => Some(name.number),
        Expression::Parentheses(inner) => first_in(inner),
        Expression::Concatenation { parts, .. } => first_among(parts),
        Expression::Replication { count, parts, .. } => match first_in(count) {
            Some(at) => Some(at),
            None => first_among(parts),
        },
        Expression::Conversion { operand, .. } => first_in(operand),
        Expression::Unary { operand, .. } => first_in(operand),
        Expression::Binary { left, right, .. } => match first_in(left) {
            Some(at) => Some(at),
            None => first_in(right),
        },
        Expression::Conditional {
            condition,
            when_true,
            when_false,
        } => match first_in(condition) {
            Some(at) => Some(at),
            None => match first_in(when_true) {
                Some(at) => Some(at),
                None => first_in(when_false),
            },
        },
    }
}

/// The same of the parts of a concatenation.
#[cycle(first_expressions)]
pub fn first_among(parts: &[Expression]) -> Option<u32>
    ensures { (words : List Text) →
        result ≡ number_in (spec.first_among (text.trees_of words parts.now)) }
{
    for one in parts {
        if let Some(at) = first_in(one) {
            return Some(at);
        }
    }
    None
}

/// The same of what is written.
#[cycle(first_targets)]
pub fn first_target(target: &Target) -> Option<u32>
    ensures { (words : List Text) →
        result ≡ number_in (spec.first_target (text.target_tree words target.now)) }
{
    match target {
        Target::Whole(name) => Some(name.number),
        Target::Bit { name, .. } => Some(name.number),
        Target::Part { name, .. } => Some(name.number),
        Target::Joined { targets, .. } => first_targets(targets),
    }
}

#[cycle(first_targets)]
fn first_targets(targets: &[Target]) -> Option<u32>
    ensures { (words : List Text) →
        result ≡ number_in (spec.first_targets (text.target_trees words targets.now)) }
{
    for one in targets {
        if let Some(at) = first_target(one) {
            return Some(at);
        }
    }
    None
}

/// The same of a delay.
pub fn first_delay(amount: &Delay) -> Option<u32>
    ensures { (words : List Text) →
        result ≡ number_in (spec.first_delay (text.delay_tree words amount.now)) }
{
    match amount {
        Delay::Number(word) => Some(word.number),
        Delay::Name(word) => Some(word.number),
        Delay::Value(value) => first_in(value),
    }
}

fn first_of(argument: &Argument) -> Option<u32>
    ensures { (words : List Text) →
        result ≡ number_in (spec.first_of (text.argument_tree words argument.now)) }
{
    match argument {
        Argument::Text(word) => Some(word.number),
        Argument::Value(value) => first_in(value),
        Argument::LeftOut => None,
    }
}

/// The same of the arguments of a print task.
pub fn first_argument(arguments: &[Argument]) -> Option<u32>
    ensures { (words : List Text) → result ≡
        number_in (spec.first_argument (map (text.argument_tree words) arguments.now)) }
{
    for one in arguments {
        if let Some(at) = first_of(one) {
            return Some(at);
        }
    }
    None
}
