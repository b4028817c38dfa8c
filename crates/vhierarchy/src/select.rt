// Whether the paths of `$dumpvars` are those of scopes (IEEE 1364-2005, 12.5, 18.1.2).

ghost use Rattle.std.specs.Prelude.{◌≡◌, None, OnOk};
ghost use Rattle.basis.specs.Reasons.{IfFault};
ghost use Rattle.velab_declaration.specs.ActionFlaws.{table_fault};
ghost use Rattle.velab_expr.specs.Rules.{IsBroken};
ghost use Rattle.vhierarchy.specs.Instances as spec;

use basis::OrMemory;
use vdesign::action::Action;
use vdesign::dump::Chosen;
use velab_declaration::width::word_at;
use velab_expr::fault::{ElabFault, Rule};
use vmodules::names::Names;

// E303 where there is nothing of this path, E310 where it is a variable's.
fn path_rule(scopes: &Names<'_>, variables: &Names<'_>, path: &[u8]) -> Option<Rule>
    ensures { result ≡ spec.broken_path scopes.now variables.now path.now }
{
    if scopes.place(path).is_some() {
        return None;
    }
    if variables.place(path).is_some() {
        return Some(Rule::Kind);
    }
    Some(Rule::Unknown)
}

// The same of each that is chosen.
fn chosen_rule(scopes: &Names<'_>, variables: &Names<'_>, list: &[Chosen]) -> Option<Rule>
    ensures { result ≡ spec.broken_chosen scopes.now variables.now list.now }
{
    for one in list {
        if let Some(rule) = path_rule(scopes, variables, one.path.as_bytes()) {
            return Some(rule);
        }
    }
    None
}

// The same of an action.
fn action_rule(scopes: &Names<'_>, variables: &Names<'_>, action: &Action) -> Option<Rule>
    ensures { result ≡ spec.broken_selection scopes.now variables.now action.now }
{
    match action {
        Action::DumpVars(selection) => chosen_rule(scopes, variables, selection.as_slice()),
        Action::Assign { .. } => None,
        Action::Nonblocking { .. } => None,
        Action::AssignDelayed { .. } => None,
        Action::NonblockingDelayed { .. } => None,
        Action::Trigger(_) => None,
        Action::Test { .. } => None,
        Action::Case { .. } => None,
        Action::While { .. } => None,
        Action::Repeat { .. } => None,
        Action::Forever { .. } => None,
        Action::Delay { .. } => None,
        Action::EventControl { .. } => None,
        Action::Wait { .. } => None,
        Action::ContinuousAssign { .. } => None,
        Action::Print { .. } => None,
        Action::Dump(_) => None,
        Action::NoOperation => None,
        Action::Finish => None,
        Action::Stop => None,
    }
}

// The first action that selects what is no scope, told by its word.
fn first_wrong(
    scopes: &Names<'_>,
    variables: &Names<'_>,
    actions: &[Action],
    words: &[Option<u32>],
) -> Option<ElabFault>
    ensures { result ≡ table_fault (spec.broken_selection scopes.now variables.now)
        actions.now words.now }
{
    for place in 0..actions.len() {
        if let Some(rule) = action_rule(scopes, variables, &actions[place]) {
            return Some(ElabFault {
                rule,
                at: word_at(words, place),
            });
        }
    }
    None
}

/// E303 where a `$dumpvars` names what isn't there, E310 where it names a variable; `words` are the numbers of the actions' words.
pub fn check_selections(
    scopes: &Names<'_>,
    variables: &Names<'_>,
    actions: &[Action],
    words: &[Option<u32>],
) -> Result<(), OrMemory<ElabFault>>
    ensures right { OnOk result (table_fault (spec.broken_selection scopes.now variables.now)
        actions.now words.now ≡ None) }
    ensures err { IfFault result (IsBroken (table_fault
        (spec.broken_selection scopes.now variables.now) actions.now words.now)) }
{
    match first_wrong(scopes, variables, actions, words) {
        None => Ok(()),
        Some(fault) => Err(OrMemory::Fault(fault)),
    }
}
