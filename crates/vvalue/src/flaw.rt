// What is wrong with the sizes of an expression, or with the bits that it asks for (IEEE 1364-2005, 5.1.14, 5.2.1).

ghost use Rattle.std.specs.Prelude.{◌≡◌, ◌≤◌, ◌+◌, ◌-◌, ◌*◌, nat_le, ◌&&◌, length, slice_get};
ghost use Rattle.std.specs.Option.{option_or};
ghost use Rattle.vvalue.specs.Flaws as spec;
ghost use Rattle.vvalue.specs.Fits.{IsWithin};
ghost use Rattle.vvalue.specs.Reads.{IsOfFirst, AreBehindFirst};

use crate::environment::{Environment, bounds_of};
use crate::size::self_determined;
use crate::size_and_sign::SizeAndSign;
use crate::target::{both_fall, targets_size};
use vdesign::action::{Target, Targets};
use vdesign::design::Kind;
use vdesign::expression::{Bounds, Expression, Node};

/// What may be wrong with an expression.
#[derive(Clone, Copy, PartialEq, Eq)]
pub enum Flaw {
    /// A bit or a part is selected of a variable that is no vector and no `integer`.
    NoBits,
    /// More than 64 bits are joined, nothing or more than 64 bits are repeated, or a part has wrong bounds.
    Size,
}

/// The greatest number of a bit.
const GREATEST_BOUND: u32 = 65535;
/// The most bits of a value.
const WIDEST: u32 = 64;

fn unless(right: bool, flaw: Flaw) -> Option<Flaw>
    ensures { result ≡ spec.unless right flaw }
{
    if right { None } else { Some(flaw) }
}

fn kind_has_bits(kind: Kind, ranged: bool) -> bool
    ensures { result ≡ spec.kind_has_bits kind ranged }
{
    match kind {
        Kind::Integer => true,
        Kind::Time => true,
        Kind::Reg => ranged,
        Kind::Wire => ranged,
    }
}

// Whether bits may be selected of the variable of this number.
fn has_bits(environment: &Environment<'_>, variable: u32) -> bool
    ensures { result ≡ spec.has_bits (slice_get environment.now.variables variable) }
{
    match environment.variables.get(variable as usize) {
        Some(declared) => kind_has_bits(declared.kind, declared.bounds.is_some()),
        None => true,
    }
}

// Whether both go from left to right in one order.
fn in_order(declared: Bounds, selected: Bounds) -> bool
    ensures { result ≡ spec.in_order declared selected }
{
    if both_fall(declared, selected) {
        return true;
    }
    declared.left <= declared.right && selected.left <= selected.right
}

/// Whether a part of what is declared so has right bounds (5.2.1).
pub fn is_part(declared: Bounds, selected: Bounds) -> bool
    ensures { result ≡ spec.is_part declared selected }
{
    let (most, least) = (
        selected.left.max(selected.right),
        selected.left.min(selected.right),
    );
    most <= GREATEST_BOUND && (most - least < WIDEST && in_order(declared, selected))
}

// Of a bit, without its index.
fn bit_flaw(environment: &Environment<'_>, variable: u32) -> Option<Flaw>
    ensures { result ≡
        spec.unless (spec.has_bits (slice_get environment.now.variables variable)) Flaw.NoBits }
{
    unless(has_bits(environment, variable), Flaw::NoBits)
}

fn part_flaw(environment: &Environment<'_>, variable: u32, bounds: Bounds) -> Option<Flaw>
    ensures { result ≡ spec.part_flaw environment.now variable bounds }
{
    let right = is_part(bounds_of(environment, variable), bounds);
    bit_flaw(environment, variable).or(unless(right, Flaw::Size))
}

// Of what is joined.
fn joined_flaw(left: SizeAndSign, right: SizeAndSign) -> Option<Flaw>
    requires left { IsWithin left }
    requires right { IsWithin right }
    ensures { result ≡ spec.unless (nat_le (left.size + right.size) 64) Flaw.Size }
{
    unless(left.size + right.size <= WIDEST, Flaw::Size)
}

// Of what is repeated.
fn repeated_flaw(count: u32, operand: SizeAndSign) -> Option<Flaw>
    requires { IsWithin operand }
    ensures { result ≡
        spec.unless (nat_le 1 count && nat_le (count * operand.size) 64) Flaw.Size }
{
    let right = 1 <= count && count.saturating_mul(operand.size) <= WIDEST;
    unless(right, Flaw::Size)
}

// Of the expression that these nodes begin with, and the nodes behind it.
fn flaw_at<'n>(nodes: &'n [Node], environment: &Environment<'_>) -> (Option<Flaw>, &'n [Node])
    ensures exact { IsOfFirst nodes.now (spec.flaw_of environment.now) result.0 }
    ensures rest { AreBehindFirst nodes.now result.1.now }
    ensures fewer { length result.1.now ≤ length nodes.now - 1 }
{
    let Some((node, behind)) = nodes.split_first() else {
        return (None, nodes);
    };
    match node {
        Node::Constant(_) => (None, behind),
        Node::Variable(_) => (None, behind),
        Node::Bit(variable) => {
            let (index, behind) = flaw_at(behind, environment);
            (bit_flaw(environment, *variable).or(index), behind)
        }
        Node::BitOf { .. } => flaw_at(behind, environment),
        Node::Part { variable, bounds } => (part_flaw(environment, *variable, *bounds), behind),
        Node::Time => (None, behind),
        Node::Conversion(_) => flaw_at(behind, environment),
        Node::Unary(_) => flaw_at(behind, environment),
        Node::Binary(_) => {
            let (left, behind) = flaw_at(behind, environment);
            let (right, behind) = flaw_at(behind, environment);
            (left.or(right), behind)
        }
        Node::Conditional => {
            let (condition, behind) = flaw_at(behind, environment);
            let (when_true, behind) = flaw_at(behind, environment);
            let (when_false, behind) = flaw_at(behind, environment);
            (condition.or(when_true.or(when_false)), behind)
        }
        Node::Joined => {
            let (first, next) = self_determined(behind, environment);
            let (second, _) = self_determined(next, environment);
            let (left, behind) = flaw_at(behind, environment);
            let (right, behind) = flaw_at(behind, environment);
            (left.or(right.or(joined_flaw(first, second))), behind)
        }
        Node::Repeated(count) => {
            let (there, _) = self_determined(behind, environment);
            let (operand, behind) = flaw_at(behind, environment);
            (operand.or(repeated_flaw(*count, there)), behind)
        }
    }
}

/// What is wrong with an expression, where something is.
pub fn flaw_of(expression: &Expression, environment: &Environment<'_>) -> Option<Flaw>
    ensures { result ≡ spec.flaw_of environment.now expression.now }
{
    flaw_at(expression.nodes(), environment).0
}

fn target_flaw(target: &Target, environment: &Environment<'_>) -> Option<Flaw>
    ensures { result ≡ spec.target_flaw environment.now target.now }
{
    match target {
        Target::Whole(_) => None,
        Target::Bit { variable, index } => {
            bit_flaw(environment, *variable).or(flaw_of(index, environment))
        }
        Target::Part { variable, bounds } => part_flaw(environment, *variable, *bounds),
    }
}

// Of the first target that is wrong.
fn first_target_flaw(targets: &[Target], environment: &Environment<'_>) -> Option<Flaw>
    ensures { result ≡ spec.first_target_flaw environment.now targets.now }
{
    for target in targets {
        if let Some(flaw) = target_flaw(target, environment) {
            return Some(flaw);
        }
    }
    None
}

/// What is wrong with the targets of an assignment, where something is.
pub fn targets_flaw(targets: &Targets, environment: &Environment<'_>) -> Option<Flaw>
    ensures { result ≡ spec.targets_flaw environment.now targets.now }
{
    let targets = targets.as_slice();
    let fits = targets_size(targets, environment) <= WIDEST;
    first_target_flaw(targets, environment).or(unless(fits, Flaw::Size))
}
