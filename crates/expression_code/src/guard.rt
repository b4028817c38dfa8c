// Code with its guards: which sizes and signs it takes the values of which variables to have (IEEE 1364-2005, 4.3.1, 4.8).

ghost use Rattle.std.specs.Prelude.{◌≡◌, ◌≤◌, ◌∷◌, [], IfOk, OnOk, min};
ghost use Rattle.std.specs.Option.{option_to_list};
ghost use Rattle.vvalue.specs.Targets.{targets_size as size_of_all, target_size as size_of};
ghost use Rattle.expression_code.specs.Guards as spec;
ghost use Rattle.expression_code.specs.Shapes.{declared, reads};

use crate::compile::{compile_expression, compile_right_side};
use crate::context::WIDEST;
use crate::operation::ExpressionCode;
use crate::run::run_expression;
use crate::size::context_of_variable;
use basis::NoMemory;
use std::alloc::Global;
use std::marker::Model;
use vbits::Vec4;
use vdesign::action::Target;
use vdesign::design::Variable;
use vdesign::expression::{Expression, Node};
use vvalue::environment::Environment;
use vvalue::select::part_size;

/// What is asked of the value of a variable: that it has this size, in bits, and this sign.
#[derive(Clone, Copy)]
pub struct Guard {
    pub variable: u32,
    pub size: u32,
    pub signed: bool,
}

/// The code of an expression with its guards: where each of them holds, the code's value is that of the expression. A clause sees it as
/// the record `GuardedCode` of specs/Guards.antt.
pub struct GuardedCode {
    guards: Vec<Guard>,
    code: ExpressionCode,
}

impl Drop for GuardedCode {
    fn drop(self) {
        let GuardedCode { guards: _, code: _ } = self;
    }
}

impl Model for GuardedCode {
    ghost use Rattle.expression_code.specs.Guards as spec;
    ghost use Rattle.expression_code.specs.contracts.operation.ExpressionCode as expression;
    ghost use Rattle.std.specs.Coded.{codes};

    ghost Value = { spec.GuardedCode };

    ghost coded = { Prim.hlevel (codes, expression.the_row.coded) };

    ghost view = { λ g. record { guards = g.guards.items; code = g.code } };
}

// Whether the variable's value has the size and sign that the guard asks for.
fn holds(guard: &Guard, values: &[Vec4]) -> bool
    ensures { result ≡ spec.holds values.now guard.now }
{
    match values.get(guard.variable as usize) {
        None => false,
        Some(value) => value.len() == guard.size && value.signed() == guard.signed,
    }
}

fn all_hold(guards: &[Guard], values: &[Vec4]) -> bool
    ensures { result ≡ spec.all_hold values.now guards.now }
{
    for guard in guards {
        if !holds(guard, values) {
            return false;
        }
    }
    true
}

impl GuardedCode {
    /// The value of the code, where its guards hold; it takes no memory.
    pub fn value(&self, environment: &Environment<'_>) -> Option<Vec4>
        ensures { result ≡ spec.guarded_value environment.now.values environment.now.time self.now }
    {
        if all_hold(&self.guards, environment.values) {
            Some(run_expression(&self.code, environment))
        } else {
            None
        }
    }
}

// The guard of a variable: it asks for what is declared; of no variable, for 0 bits, which no value has.
fn guard_of(variables: &[Variable], variable: u32) -> Guard
    ensures { result ≡ spec.guard_of variables.now variable }
{
    match variables.get(variable as usize) {
        None => Guard {
            variable,
            size: 0,
            signed: false,
        },
        Some(declared) => Guard {
            variable,
            size: declared.length,
            signed: declared.signed,
        },
    }
}

fn is_same(one: &Guard, other: &Guard) -> bool
    ensures { result ≡ spec.is_same_guard one.now other.now }
{
    one.variable == other.variable && (one.size == other.size && one.signed == other.signed)
}

fn is_among(guard: &Guard, guards: &[Guard]) -> bool
    ensures { result ≡ spec.is_among guard.now guards.now }
{
    for other in guards {
        if is_same(guard, other) {
            return true;
        }
    }
    false
}

// Puts a guard behind others, unless it is among them.
fn put_guard(guards: &mut Vec<Guard>, guard: Guard) -> Result<(), NoMemory>
    ensures { OnOk result (guards.new.items ≡ spec.with_guard guard guards.old.items) }
{
    if !is_among(&guard, guards) {
        guards.push(guard)?;
    }
    Ok(())
}

// The variable that a node names, if it names one.
fn named_by(node: &Node) -> Option<u32>
    ensures { spec.named_by node.now ≡ option_to_list result }
{
    match node {
        Node::Variable(variable) => Some(*variable),
        Node::Bit(variable) => Some(*variable),
        Node::Part { variable, .. } => Some(*variable),
        _ => None,
    }
}

// The guard of what a node names, behind others.
fn put_node(guards: &mut Vec<Guard>, variables: &[Variable], node: &Node) -> Result<(), NoMemory>
    ensures { OnOk result
        (guards.new.items ≡ spec.with_guards variables.now (spec.named_by node.now) guards.old.items) }
{
    match named_by(node) {
        None => Ok(()),
        Some(variable) => put_guard(guards, guard_of(variables, variable)),
    }
}

// Puts the guards of what these nodes name behind others.
#[tactic(auto, using(crate::proofs::GuardLemmas::guards_joined))]
fn put_nodes(
    guards: &mut Vec<Guard>,
    variables: &[Variable],
    nodes: &[Node],
) -> Result<(), NoMemory>
    ensures { OnOk result
        (guards.new.items ≡ spec.with_guards variables.now (spec.named_in nodes.now) guards.old.items) }
{
    for node in nodes {
        put_node(guards, variables, node)?;
    }
    Ok(())
}

// Puts the guards of what an expression reads behind others.
#[tactic(auto, using(crate::proofs::GuardLemmas::named_is_read))]
fn put_reads(
    guards: &mut Vec<Guard>,
    variables: &[Variable],
    expression: &Expression,
) -> Result<(), NoMemory>
    ensures { OnOk result
        (guards.new.items ≡ spec.with_guards variables.now (reads expression.now) guards.old.items) }
{
    put_nodes(guards, variables, expression.nodes())
}

// The guard of a variable whose size a target has, behind others.
fn put_target(
    guards: &mut Vec<Guard>,
    variables: &[Variable],
    target: &Target,
) -> Result<(), NoMemory>
    ensures { OnOk result
        (guards.new.items ≡ spec.with_guards variables.now (spec.sized_by (target.now ∷ [])) guards.old.items) }
{
    match target {
        Target::Whole(variable) => put_guard(guards, guard_of(variables, *variable)),
        Target::Bit { .. } => Ok(()),
        Target::Part { .. } => Ok(()),
    }
}

// The guards of the variables whose sizes the targets have.
#[tactic(auto, using(crate::proofs::GuardLemmas::sized_first, crate::proofs::GuardLemmas::guards_joined))]
fn guards_of_targets(
    alloc: Global,
    variables: &[Variable],
    targets: &[Target],
) -> Result<Vec<Guard>, NoMemory>
    ensures { IfOk result
        (λ guards. guards.items ≡ spec.with_guards variables.now (spec.sized_by targets.now) []) }
{
    let mut guards = Vec::new(alloc);
    for target in targets {
        put_target(&mut guards, variables, target)?;
    }
    Ok(guards)
}

// How many bits a target has, as its variable is declared.
fn target_size(variables: &[Variable], target: &Target) -> u32
    ensures exact { result ≡ size_of (declared variables.now) target.now }
    ensures few { result ≤ 64 }
{
    match target {
        Target::Whole(variable) => context_of_variable(variables, *variable).size,
        Target::Bit { .. } => 1,
        Target::Part { bounds, .. } => part_size(*bounds),
    }
}

// How many bits the targets have together, as their variables are declared; at most 64.
fn targets_size(variables: &[Variable], targets: &[Target]) -> u32
    ensures { result ≡ min 64 (size_of_all (declared variables.now) targets.now) }
{
    let mut size = 0;
    for target in targets {
        size = (size + target_size(variables, target)).min(WIDEST);
    }
    size
}

/// The code of an expression by itself, where the variables are declared so, with its guards. E901 is the only refusal.
pub fn guard_expression(
    alloc: Global,
    expression: &Expression,
    variables: &[Variable],
) -> Result<GuardedCode, NoMemory>
    ensures { IfOk result
        (λ guarded. guarded ≡ spec.guarded_expression variables.now expression.now) }
{
    let mut guards = Vec::new(alloc);
    put_reads(&mut guards, variables, expression)?;
    let code = compile_expression(alloc, expression, variables)?;
    Ok(GuardedCode { guards, code })
}

/// The code of the right side of an assignment to these targets, at the bits that they have together, 1 to 64, with its guards (5.5.3).
/// E901 is the only refusal.
pub fn guard_right_side(
    alloc: Global,
    targets: &[Target],
    expression: &Expression,
    variables: &[Variable],
) -> Result<GuardedCode, NoMemory>
    ensures { IfOk result
        (λ guarded. guarded ≡ spec.guarded_right_side variables.now targets.now expression.now) }
{
    let size = targets_size(variables, targets).max(1);
    let mut guards = guards_of_targets(alloc, variables, targets)?;
    put_reads(&mut guards, variables, expression)?;
    let code = compile_right_side(alloc, expression, variables, size)?;
    Ok(GuardedCode { guards, code })
}
