// What a dump is of: the scopes that `$dumpvars` selects, and their variables (18.1.2).

ghost use Rattle.std.specs.Prelude.{◌≡◌, ◌∷◌, [], ◌++◌, OnOk, IfOk, Some, nat_lt, option_map, replicate};
ghost use Rattle.std.specs.List.{list_any};
ghost use Rattle.byte_sinks.specs.Comparing.{rest_behind};
ghost use Rattle.vcd_text.specs.DumpText as spec;

use basis::NoMemory;
use std::alloc::Global;
use std::marker::Model;
use vdesign::action::Action;
use vdesign::design::{Design, Scope};
use vdesign::dump::{Chosen, DumpCommand};

/// For each variable, or for each scope, whether it is selected. A clause sees the list.
#[derive(Drop)]
pub struct Marks {
    list: Vec<bool>,
}

impl Model for Marks {
    ghost use Rattle.std.specs.Prelude.{Bool, List};

    ghost Value = { List Bool };

    ghost view = { λ marks. marks.list.items };
}

impl Marks {
    /// The marks, as a list.
    pub(crate) fn as_slice(&self) -> &[bool]
        ensures { result.now ≡ self.now }
    {
        &self.list
    }

    // The same mark so many times more.
    fn put(&mut self, mark: bool, count: u32) -> Result<(), NoMemory>
        ensures { OnOk result (self.new ≡ self.old ++ replicate count mark) }
    {
        for _ in 0..count {
            self.list.push(mark)?;
        }
        Ok(())
    }

    // The mark of a scope for each of its variables.
    fn put_scope(&mut self, mark: bool, scope: &Scope) -> Result<(), NoMemory>
        ensures { OnOk result (self.new ≡ self.old ++ replicate scope.now.variables mark) }
    {
        self.put(mark, scope.variables)
    }
}

// How many dots stand in a path.
fn dots(path: &[u8]) -> usize
    ensures { result ≡ spec.dots path.now }
{
    let mut count = 0;
    for c in path {
        if *c == b'.' {
            count += 1;
        }
    }
    count
}

// What stands in a path behind another one that it begins with.
fn behind<'a>(path: &'a [u8], front: &[u8]) -> Option<&'a [u8]>
    ensures { option_map (λ rest. rest.now) result ≡ rest_behind front.now (Some path.now) }
{
    path.strip_prefix(front)
}

// Whether a scope is of so many levels of another one, behind whose path this stands in its own.
fn is_near(levels: u64, rest: &[u8]) -> bool
    ensures { result ≡ spec.is_near levels (Some rest.now) }
{
    match rest.split_first() {
        None => true,
        Some((first, _)) => {
            if *first != b'.' {
                return false;
            }
            levels == 0 || (dots(rest) as u64) < levels
        }
    }
}

// Whether the scope of this path is of the levels of a chosen one.
fn is_chosen(path: &[u8], chosen: &Chosen) -> bool
    ensures { result ≡ spec.is_chosen path.now chosen.now }
{
    match behind(path, chosen.path.as_bytes()) {
        None => false,
        Some(rest) => is_near(chosen.levels, rest),
    }
}

// Whether the scope of this path is of the levels of one of them.
fn is_any_chosen(path: &[u8], selection: &[Chosen]) -> bool
    ensures { result ≡ list_any (spec.is_chosen path.now) selection.now }
{
    for chosen in selection {
        if is_chosen(path, chosen) {
            return true;
        }
    }
    false
}

// Whether a selection has the scope of this path.
fn has_scope(selection: &[Chosen], path: &[u8]) -> bool
    ensures { result ≡ spec.has_scope selection.now path.now }
{
    if selection.is_empty() {
        return true;
    }
    is_any_chosen(path, selection)
}

// Whether the action is a `$dumpvars` that asks for the scope of this path.
fn is_asked_by(action: &Action, path: &[u8]) -> bool
    ensures { result ≡ spec.is_asked_by (Some action.now) path.now }
{
    match action {
        Action::DumpVars(selection) => has_scope(selection.as_slice(), path),
        _ => false,
    }
}

// Whether the command is a `$dumpvars` that asks for the scope of this path.
fn asks_for(actions: &[Action], path: &[u8], command: DumpCommand) -> bool
    ensures { result ≡ spec.asks_for actions.now path.now command }
{
    match command {
        DumpCommand::Vars(place) => match actions.get(place) {
            Some(action) => is_asked_by(action, path),
            None => false,
        },
        DumpCommand::Off => false,
        DumpCommand::On => false,
        DumpCommand::All => false,
    }
}

// Whether one of the commands asks for the scope of this path.
fn is_selected(actions: &[Action], commands: &[DumpCommand], path: &[u8]) -> bool
    ensures { result ≡ spec.is_selected actions.now commands.now path.now }
{
    for command in commands {
        if asks_for(actions, path, *command) {
            return true;
        }
    }
    false
}

// Whether one of the commands asks for the scope.
fn takes_scope(actions: &[Action], commands: &[DumpCommand], scope: &Scope) -> bool
    ensures { result ≡ spec.is_selected actions.now commands.now scope.now.path }
{
    is_selected(actions, commands, &scope.path)
}

// For each scope whether one of the commands asks for it.
fn marks_in(
    alloc: Global,
    actions: &[Action],
    commands: &[DumpCommand],
    scopes: &[Scope],
) -> Result<Marks, NoMemory>
    ensures { IfOk result (λ marks. marks ≡ spec.marks_in actions.now commands.now scopes.now) }
{
    let mut list = Vec::new(alloc);
    for scope in scopes {
        list.push(takes_scope(actions, commands, scope))?;
    }
    Ok(Marks { list })
}

/// For each scope of a design whether these commands select it.
pub(crate) fn scope_marks(
    alloc: Global,
    design: &Design,
    commands: &[DumpCommand],
) -> Result<Marks, NoMemory>
    ensures { IfOk result (λ marks. marks ≡ spec.scope_marks design.now commands.now) }
{
    marks_in(alloc, &design.actions, commands, &design.scopes)
}

/// For each variable whether its scope is marked.
pub(crate) fn spread(alloc: Global, marks: &[bool], scopes: &[Scope]) -> Result<Marks, NoMemory>
    ensures { IfOk result (λ spread. spread ≡ spec.spread marks.now scopes.now) }
{
    let mut spread = Marks {
        list: Vec::new(alloc),
    };
    let mut rest = marks;
    for scope in scopes {
        let Some((mark, later)) = rest.split_first() else {
            return Ok(spread);
        };
        spread.put_scope(*mark, scope)?;
        rest = later;
    }
    Ok(spread)
}

// Whether the scope is deeper.
fn is_deeper(depth: u32, scope: &Scope) -> bool
    ensures { result ≡ nat_lt depth scope.now.depth }
{
    depth < scope.depth
}

/// Whether a scope of this depth has one below it that is selected: of those behind it the deeper ones, up to the first
/// that isn't.
pub(crate) fn is_any_below(depth: u32, marks: &[bool], scopes: &[Scope]) -> bool
    ensures { result ≡ spec.is_any_below depth marks.now scopes.now }
{
    let mut rest = marks;
    for scope in scopes {
        let Some((mark, later)) = rest.split_first() else {
            return false;
        };
        if !is_deeper(depth, scope) {
            return false;
        }
        if *mark {
            return true;
        }
        rest = later;
    }
    false
}
