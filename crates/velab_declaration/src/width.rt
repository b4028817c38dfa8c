// What is wrong with the expressions of actions (IEEE 1364-2005, 5.1.14, 5.2.1).

ghost use Rattle.std.specs.Prelude.{◌≡◌, map, slice_get, unwrap_or, None, IfOk, OnOk};
ghost use Rattle.basis.specs.Reasons.{IfFault};
ghost use Rattle.std.specs.Option.{option_or};
ghost use Rattle.vvalue.specs.Flaws.{flaw_of as spec_flaw_of};
ghost use Rattle.velab_declaration.specs.ActionFlaws as spec;
ghost use Rattle.velab_expr.specs.Rules.{IsBroken};

use basis::{NoMemory, OrMemory};
use std::alloc::Global;
use vbits::Vec4;
use vdesign::action::{Action, Branch, Targets};
use vdesign::design::Variable;
use vdesign::expression::Expression;
use vdesign::print::Piece;
use velab_expr::constant::rule_of;
use velab_expr::fault::ElabFault;
use vvalue::environment::Environment;
use vvalue::flaw::{Flaw, flaw_of, targets_flaw};

// For each variable as many bits as it has.
pub(crate) fn blanks(alloc: Global, variables: &[Variable]) -> Result<Vec<Vec4>, NoMemory>
    ensures { IfOk result (λ values. values.items ≡ map spec.blank variables.now) }
{
    let mut values = Vec::new(alloc);
    for variable in variables {
        values.push(Vec4::all_x(variable.length))?;
    }
    Ok(values)
}

fn branches_flaw(branches: &[Branch], environment: &Environment<'_>) -> Option<Flaw>
    ensures { result ≡ spec.first_flaw (spec.branch_flaw environment.now) branches.now }
{
    for branch in branches {
        if let Some(flaw) = flaw_of(&branch.item, environment) {
            return Some(flaw);
        }
    }
    None
}

fn piece_flaw(piece: &Piece, environment: &Environment<'_>) -> Option<Flaw>
    ensures { result ≡ spec.piece_flaw environment.now piece.now }
{
    match piece {
        Piece::Text(_) => None,
        Piece::Value { value, .. } => flaw_of(value, environment),
    }
}

fn pieces_flaw(pieces: &[Piece], environment: &Environment<'_>) -> Option<Flaw>
    ensures { result ≡ spec.first_flaw (spec.piece_flaw environment.now) pieces.now }
{
    for piece in pieces {
        if let Some(flaw) = piece_flaw(piece, environment) {
            return Some(flaw);
        }
    }
    None
}

// What is wrong with an assignment of either kind: with its targets, or else with its value.
fn assignment_flaw(
    targets: &Targets,
    value: &Expression,
    environment: &Environment<'_>,
) -> Option<Flaw>
    ensures { result ≡ spec.assignment_flaw environment.now targets.now value.now }
{
    targets_flaw(targets, environment).or(flaw_of(value, environment))
}

// The same of one with a delay: with its amount first.
fn delayed_flaw(
    amount: &Expression,
    targets: &Targets,
    value: &Expression,
    environment: &Environment<'_>,
) -> Option<Flaw>
    ensures { result ≡ option_or (spec_flaw_of environment.now amount.now)
        (spec.assignment_flaw environment.now targets.now value.now) }
{
    flaw_of(amount, environment).or(assignment_flaw(targets, value, environment))
}

fn action_flaw(action: &Action, environment: &Environment<'_>) -> Option<Flaw>
    ensures { result ≡ spec.action_flaw environment.now action.now }
{
    match action {
        Action::Assign { targets, value } => assignment_flaw(targets, value, environment),
        Action::Nonblocking { targets, value } => assignment_flaw(targets, value, environment),
        Action::AssignDelayed {
            amount,
            targets,
            value,
        } => delayed_flaw(amount, targets, value, environment),
        Action::NonblockingDelayed {
            amount,
            targets,
            value,
        } => delayed_flaw(amount, targets, value, environment),
        Action::Trigger(_) => None,
        Action::Test { condition, .. } => flaw_of(condition, environment),
        Action::Case {
            value,
            branches,
            ..
        } => match flaw_of(value, environment) {
            Some(flaw) => Some(flaw),
            None => branches_flaw(branches.as_slice(), environment),
        },
        Action::While { condition, .. } => flaw_of(condition, environment),
        Action::Repeat { count, .. } => flaw_of(count, environment),
        Action::Forever { .. } => None,
        Action::Delay { amount, .. } => flaw_of(amount, environment),
        Action::EventControl { .. } => None,
        Action::Wait { condition, .. } => flaw_of(condition, environment),
        Action::ContinuousAssign { targets, value, .. } => assignment_flaw(
            targets,
            value,
            environment,
        ),
        Action::Print { pieces, .. } => pieces_flaw(pieces.as_slice(), environment),
        Action::DumpVars(_) => None,
        Action::Dump(_) => None,
        Action::NoOperation => None,
        Action::Finish => None,
        Action::Stop => None,
    }
}

/// The number of the word at this place, if there is one.
pub fn word_at(words: &[Option<u32>], place: usize) -> Option<u32>
    ensures { result ≡ unwrap_or (slice_get words.now place) None }
{
    match words.get(place) {
        None => None,
        Some(word) => *word,
    }
}

// The first action of which an expression is wrong, told by its word.
fn first_flawed(
    actions: &[Action],
    words: &[Option<u32>],
    environment: &Environment<'_>,
) -> Option<ElabFault>
    ensures { result ≡ spec.table_fault (spec.flaw_rule environment.now) actions.now words.now }
{
    for place in 0..actions.len() {
        if let Some(flaw) = action_flaw(&actions[place], environment) {
            return Some(ElabFault {
                rule: rule_of(flaw),
                at: word_at(words, place),
            });
        }
    }
    None
}

/// E306 or E310 where an expression of one of these actions is wrong; `words` are the numbers of their words.
pub fn check_flaws(
    alloc: Global,
    variables: &[Variable],
    actions: &[Action],
    words: &[Option<u32>],
) -> Result<(), OrMemory<ElabFault>>
    ensures right { OnOk result (spec.table_fault
        (spec.flaw_rule (spec.blank_environment variables.now)) actions.now words.now ≡ None) }
    ensures err { IfFault result (IsBroken (spec.table_fault
        (spec.flaw_rule (spec.blank_environment variables.now)) actions.now words.now)) }
{
    let values = blanks(alloc, variables)?;
    let environment = Environment::at_zero(&values, variables);
    match first_flawed(actions, words, &environment) {
        None => Ok(()),
        Some(fault) => Err(OrMemory::Fault(fault)),
    }
}
