// What actions ask of expressions (IEEE 1364-2005, clause 9).

ghost use Rattle.std.specs.Prelude.{◌≡◌, ◌≤◌};
ghost use Rattle.vdesign.specs.Expressions.{ExpressionTree};
ghost use Rattle.vvalue.specs.Value as spec;

use crate::environment::Environment;
use crate::select::is_one;
use crate::size::self_determined;
use crate::size_and_sign::SizeAndSign;
use crate::value::value_of;
use vbits::Vec4;
use vdesign::expression::Expression;

/// The value of an expression at its own size and sign.
pub fn self_determined_value(expression: &Expression, environment: &Environment<'_>) -> Vec4
    ensures { result ≡ spec.self_determined_value environment.now expression.now }
{
    let nodes = expression.nodes();
    let (there, _) = self_determined(nodes, environment);
    let (value, _) = value_of(nodes, environment, there);
    value
}

/// Whether a condition of this value holds: its truth is 1 (9.4).
#[tactic(auto, unfolding(crate::specs::Value::holds))]
pub fn is_true(value: Vec4) -> bool
    ensures { (now : spec.Environment) (condition : ExpressionTree) → value ≡ spec.self_determined_value now condition →
        result ≡ spec.holds now condition }
{
    is_one(value.truth())
}

/// What so many bits get of an expression that is assigned to them: at the larger of both sizes, extended by its own sign and cut on
/// the left (5.4.1, 5.5.3).
#[tactic(auto, unfolding(crate::specs::Value::right_side))]
pub fn right_side(expression: &Expression, count: u32, environment: &Environment<'_>) -> Vec4
    requires some { 1 ≤ count }
    requires few { count ≤ 64 }
    ensures { result ≡ spec.right_side environment.now count expression.now }
{
    let nodes = expression.nodes();
    let (there, _) = self_determined(nodes, environment);
    let here = SizeAndSign {
        size: count.max(there.size),
        signed: there.signed,
    };
    let (value, _) = value_of(nodes, environment, here);
    value.resize(count)
}

// The number of a delay: extended to 64 bits by its own sign and read as unsigned; an unknown one is 0.
fn amount_of(value: Vec4) -> u64
    ensures { result ≡ spec.amount_in value }
{
    value.resize(64).to_u64().unwrap_or(0)
}

/// How long a delay of this value lasts, in units of the precision (9.7.1, 19.8).
#[tactic(auto, unfolding(crate::specs::Value::delay_of))]
pub fn delay_by(value: Vec4, environment: &Environment<'_>) -> u128
    ensures { (amount : ExpressionTree) → value ≡ spec.self_determined_value environment.now amount →
        result ≡ spec.delay_of environment.now amount }
{
    u128::from(amount_of(value)) * u128::from(environment.factor())
}

/// How long a delay lasts.
pub fn delay_of(amount: &Expression, environment: &Environment<'_>) -> u128
    ensures { result ≡ spec.delay_of environment.now amount.now }
{
    delay_by(self_determined_value(amount, environment), environment)
}
