// Whether processes write variables, and continuous assignments nets (6.1, 6.2).
ghost use Rattle.std.specs.Prelude.{◌≡◌, None, OnOk, slice_get};
ghost use Rattle.basis.specs.Reasons.{IfFault};
ghost use Rattle.velab_declaration.specs.ActionFlaws.{table_fault};
ghost use Rattle.velab_declaration.specs.Right as spec;
ghost use Rattle.velab_expr.specs.Rules.{IsBroken};

use crate::width::word_at;
use basis::OrMemory;
use vdesign::action::{Action, Target};
use vdesign::design::{Kind, Variable};
use velab_expr::fault::{ElabFault, Rule};

pub(crate) fn is_net(kind: Kind) -> bool
    ensures { result ≡ spec.is_net kind }
{
    match kind {
        Kind::Reg => false,
        Kind::Integer => false,
        Kind::Time => false,
        Kind::Wire => true,
    }
}

fn is_some_net(variables: &[Variable], number: u32) -> bool
    ensures { result ≡ spec.is_some_net (slice_get variables.now number) }
{
    match variables.get(number as usize) {
        None => false,
        Some(variable) => is_net(variable.kind),
    }
}

fn writes_net(variables: &[Variable], target: &Target) -> bool
    ensures { result ≡ spec.writes_net variables.now target.now }
{
    match target {
        Target::Whole(number) => is_some_net(variables, *number),
        Target::Bit { variable, .. } => is_some_net(variables, *variable),
        Target::Part { variable, .. } => is_some_net(variables, *variable),
    }
}

// Whether a continuous assignment may drive these.
fn writes_nets(variables: &[Variable], targets: &[Target]) -> bool
    ensures { result ≡ spec.writes_nets variables.now targets.now }
{
    for target in targets {
        if !writes_net(variables, target) {
            return false;
        }
    }
    true
}

// Whether a process may write these.
fn writes_variables(variables: &[Variable], targets: &[Target]) -> bool
    ensures { result ≡ spec.writes_variables variables.now targets.now }
{
    for target in targets {
        if writes_net(variables, target) {
            return false;
        }
    }
    true
}

fn writes_rightly(variables: &[Variable], action: &Action) -> bool
    ensures { result ≡ spec.writes_rightly variables.now action.now }
{
    match action {
        Action::Assign { targets, .. } => writes_variables(variables, targets.as_slice()),
        Action::Nonblocking { targets, .. } => writes_variables(variables, targets.as_slice()),
        Action::AssignDelayed { targets, .. } => writes_variables(variables, targets.as_slice()),
        Action::NonblockingDelayed { targets, .. } => writes_variables(
            variables,
            targets.as_slice(),
        ),
        Action::Trigger(_) => true,
        Action::Test { .. } => true,
        Action::Case { .. } => true,
        Action::While { .. } => true,
        Action::Repeat { .. } => true,
        Action::Forever { .. } => true,
        Action::Delay { .. } => true,
        Action::EventControl { .. } => true,
        Action::Wait { .. } => true,
        Action::ContinuousAssign { targets, .. } => writes_nets(variables, targets.as_slice()),
        Action::Print { .. } => true,
        Action::DumpVars(_) => true,
        Action::Dump(_) => true,
        Action::NoOperation => true,
        Action::Finish => true,
        Action::Stop => true,
    }
}

// The first action that doesn't write rightly, told by its word.
fn first_wrong(
    variables: &[Variable],
    actions: &[Action],
    words: &[Option<u32>],
) -> Option<ElabFault>
    ensures { result ≡ table_fault (spec.kind_rule variables.now) actions.now words.now }
{
    for place in 0..actions.len() {
        if !writes_rightly(variables, &actions[place]) {
            return Some(ElabFault {
                rule: Rule::Kind,
                at: word_at(words, place),
            });
        }
    }
    None
}

/// E310 where one of these actions assigns to a net in a process, or drives what is no net; `words` are the numbers of their words.
pub fn check_kinds(
    variables: &[Variable],
    actions: &[Action],
    words: &[Option<u32>],
) -> Result<(), OrMemory<ElabFault>>
    ensures right { OnOk result
        (table_fault (spec.kind_rule variables.now) actions.now words.now ≡ None) }
    ensures err { IfFault result
        (IsBroken (table_fault (spec.kind_rule variables.now) actions.now words.now)) }
{
    match first_wrong(variables, actions, words) {
        None => Ok(()),
        Some(fault) => Err(OrMemory::Fault(fault)),
    }
}
