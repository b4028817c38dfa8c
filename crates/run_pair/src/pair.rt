// A design that has each scope and variable of another one twice.

ghost use Rattle.std.specs.Prelude.{◌≡◌, ◌++◌, IfOk, OnOk, map};
ghost use Rattle.run_pair.specs.Pairs as spec;

use basis::NoMemory;
use std::alloc::Global;
use vdesign::action::Action;
use vdesign::design::{Design, Scope, Variable};
use vdesign::dump::Selection;

/// The scope of the run that departs less, and that of the other one.
pub(crate) const PARENT: &[u8] = b"default";

pub(crate) const DEPARTED: &[u8] = b"departed";

// The name of something that stands in this scope.
fn name_in(alloc: Global, scope: &[u8], name: &[u8]) -> Result<Vec<u8>, NoMemory>
    ensures { IfOk result (λ whole. whole.items ≡ spec.name_in scope.now name.now) }
{
    let mut whole = Vec::from_slice(alloc, scope)?;
    whole.push(b'.')?;
    whole.extend_from_slice(name)?;
    Ok(whole)
}

// The variable, as it is called in this scope.
fn variable_in(alloc: Global, scope: &[u8], variable: &Variable) -> Result<Variable, NoMemory>
    ensures { IfOk result (λ inner. inner ≡ spec.variable_in scope.now variable.now) }
{
    Ok(Variable {
        name: name_in(alloc, scope, &variable.name)?,
        kind: variable.kind,
        length: variable.length,
        signed: variable.signed,
        start: variable.start,
        bounds: variable.bounds,
    })
}

// The scope, as it stands in this one.
fn scope_in(alloc: Global, around: &[u8], scope: &Scope) -> Result<Scope, NoMemory>
    ensures { IfOk result (λ inner. inner ≡ spec.scope_in around.now scope.now) }
{
    Ok(Scope {
        name: Vec::from_slice(alloc, &scope.name)?,
        path: name_in(alloc, around, &scope.path)?,
        depth: scope.depth.saturating_add(1),
        variables: scope.variables,
    })
}

// A scope of the top that has no variable of its own.
fn top_scope(alloc: Global, name: &[u8]) -> Result<Scope, NoMemory>
    ensures { IfOk result (λ scope. scope ≡ spec.top_scope name.now) }
{
    Ok(Scope {
        name: Vec::from_slice(alloc, name)?,
        path: Vec::from_slice(alloc, name)?,
        depth: 0,
        variables: 0,
    })
}

// Puts the variables into this scope.
fn put_variables(
    alloc: Global,
    all: &mut Vec<Variable>,
    scope: &[u8],
    variables: &[Variable],
) -> Result<(), NoMemory>
    ensures { OnOk result (all.new.items ≡ all.old.items ++ spec.variables_in scope.now variables.now) }
{
    for variable in variables {
        all.push(variable_in(alloc, scope, variable)?)?;
    }
    Ok(())
}

// Puts the scopes into this one.
fn put_inner(
    alloc: Global,
    all: &mut Vec<Scope>,
    around: &[u8],
    scopes: &[Scope],
) -> Result<(), NoMemory>
    ensures { OnOk result (all.new.items ≡ all.old.items ++ map (spec.scope_in around.now) scopes.now) }
{
    for scope in scopes {
        all.push(scope_in(alloc, around, scope)?)?;
    }
    Ok(())
}

// Puts a scope of this name, and the scopes in it.
fn put_scopes(
    alloc: Global,
    all: &mut Vec<Scope>,
    name: &[u8],
    scopes: &[Scope],
) -> Result<(), NoMemory>
    ensures { OnOk result (all.new.items ≡ all.old.items ++ spec.scopes_in name.now scopes.now) }
{
    all.push(top_scope(alloc, name)?)?;
    put_inner(alloc, all, name, scopes)
}

// The variables of both runs.
fn variables_of(alloc: Global, design: &Design) -> Result<Vec<Variable>, NoMemory>
    ensures { IfOk result (λ all. all.items ≡ (spec.pair design.now).variables) }
{
    let mut all = Vec::new(alloc);
    put_variables(alloc, &mut all, PARENT, &design.variables)?;
    put_variables(alloc, &mut all, DEPARTED, &design.variables)?;
    Ok(all)
}

// The scopes of both runs.
fn scopes_of(alloc: Global, design: &Design) -> Result<Vec<Scope>, NoMemory>
    ensures { IfOk result (λ all. all.items ≡ (spec.pair design.now).scopes) }
{
    let mut all = Vec::new(alloc);
    put_scopes(alloc, &mut all, PARENT, &design.scopes)?;
    put_scopes(alloc, &mut all, DEPARTED, &design.scopes)?;
    Ok(all)
}

/// The scopes and variables of the design twice: under the scope `default`, and under `departed`. There is no process; the action of place
/// 0 is a `$dumpvars` of all.
pub(crate) fn pair_of(alloc: Global, design: &Design) -> Result<Design, NoMemory>
    ensures { IfOk result (λ both. both ≡ spec.pair design.now) }
{
    let mut actions = Vec::new(alloc);
    actions.push(Action::DumpVars(Selection::everything(alloc)))?;
    Ok(Design {
        top: Vec::from_slice(alloc, &design.top)?,
        scale: design.scale,
        variables: variables_of(alloc, design)?,
        scopes: scopes_of(alloc, design)?,
        actions,
        processes: Vec::new(alloc),
    })
}
