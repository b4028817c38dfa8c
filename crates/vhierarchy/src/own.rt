// What an instance adds of its own: its names, its variables and its processes (IEEE 1364-2005, 12.1).

ghost use Rattle.std.specs.Prelude.{◌≡◌, ◌<◌, ◌≤◌, ◌+◌, ◌^◌, ◌++◌, ◌∷◌, [], List, None, length, map, IfOk, OnOk};
ghost use Rattle.basis.specs.Reasons.{IfFault};
ghost use Rattle.vast.specs.NumberedTrees.{module_tree};
ghost use Rattle.vast.specs.NumberedWords.{word_of};
ghost use Rattle.vwords.specs.Words.{Text};
ghost use Rattle.vexpr_parse.specs.Texts.{words_of};
ghost use Rattle.module_size.specs.Sizes.{module_size};
ghost use Rattle.vmodules.specs.Placed.{placed_items};
ghost use Rattle.vmodules.specs.Ports.{ports_of};
ghost use Rattle.vmodules.specs.Inner.{port_form};
ghost use Rattle.velab_expr.specs.Inner.{symbols_in};
ghost use Rattle.velab_process.specs.Processes.{lower_items, with_begins_before};
ghost use Rattle.velab_expr.specs.Answers.{Makes, behind};
ghost use Rattle.vhierarchy.specs.Instances as spec;
ghost use Rattle.vhierarchy.specs.Instances.{lower_names};
ghost use Rattle.vhierarchy.specs.Inner.{GivesAs, few, own_part, own_processes, own_variables, context_tree, scope_at_head};

use crate::context::Context;
use crate::part::PartialDesign;
use crate::room::room_for;
use basis::{NoMemory, OrMemory};
use std::alloc::Global;
use vast::module::ModuleTree;
use vast::token::Token;
use vdesign::action::Places;
use vdesign::design::{Scope as Room, Variable};
use velab_declaration::declared::names_declared;
use velab_declaration::parameter::{Growing, add_head, add_items, add_valueless};
use velab_declaration::variable::{put_ports, put_variables};
use velab_expr::fault::{ElabFault, Rule};
use velab_expr::refusal::refusal;
use velab_expr::scope::Scope;
use velab_process::join::put_joins;
use velab_process::statement::{Table, put_port_values, put_processes};
use vlex::Tokens;
use vmodules::letters::letters;
use vmodules::ports::PortForm;

/// The most variables of a design.
const MOST_VARIABLES: usize = 1024;
/// The most processes of a design.
pub const MOST_PROCESSES: usize = 256;
/// The most scopes of a design: the top's, and those of 1,024 instances.
const MOST_SCOPES: usize = 1025;

/// The names of an instance, how many of those that are no variables are known before its first item, and how large the modules of the design
/// are with its own.
#[derive(Drop)]
pub struct Known<'t> {
    pub growing: Growing<'t>,
    pub head: usize,
    pub size: usize,
}

/// The names of an instance. Errors: E302, E303, E306, E307, E309, E310, E901.
pub fn known_names<'t>(
    alloc: Global,
    tokens: &Tokens<'t>,
    part: &PartialDesign,
    context: &Context<'_, 't, '_>,
    ports: &[PortForm<'_>],
) -> Result<Known<'t>, OrMemory<ElabFault>>
    requires { map (port_form (words_of tokens.now)) ports.now ≡
        ports_of (module_tree (words_of tokens.now) context.now.unit.now) }
    ensures gives { GivesAs scope_at_head result
        (lower_names part.now (context_tree (words_of tokens.now) context.now)) }
    ensures small { IfOk result (λ known. known.head
        + length (symbols_in (words_of tokens.now) context.now.unit.now.items.items) < 2 ^ 64) }
    ensures whole { IfOk result (λ known. known.size ≡
        part.now.size + module_size (length context.now.path.now)
        (module_tree (words_of tokens.now) context.now.unit.now)) }
{
    let first = part.variables.len();
    let names = names_declared(alloc, tokens, ports, context.unit)?;
    let variables = names.len();
    if first > MOST_VARIABLES || variables > MOST_VARIABLES - first {
        return Err(refusal(Rule::TooMany, Some(context.name.number)));
    }
    let size = match room_for(tokens, part, context, &names) {
        None => return Err(refusal(Rule::TooMany, Some(context.name.number))),
        Some(size) => size,
    };
    let mut growing = Growing {
        top: context.top,
        names,
        first,
        variables,
        events: part.events,
        others: Vec::new(alloc),
    };
    let items = &context.unit.items;
    add_valueless(tokens, context.overrides, items, &mut growing)?;
    add_head(
        alloc,
        tokens,
        context.overrides,
        &context.unit.parameters,
        &mut growing,
    )?;
    let head = growing.others.len();
    add_items(alloc, tokens, context.overrides, items, &mut growing)?;
    let _whole = growing.others.len();
    Ok(Known {
        growing,
        head,
        size,
    })
}

// The variables of an instance. Errors: E303, E306, E307, E310, E901.
fn put_own_variables(
    alloc: Global,
    tokens: &Tokens<'_>,
    context: &Context<'_, '_, '_>,
    ports: &[PortForm<'_>],
    scope: &Scope<'_, '_>,
    into: &mut Vec<Variable>,
) -> Result<(), OrMemory<ElabFault>>
    requires small { scope.now.known
        + length (symbols_in (words_of tokens.now) context.now.unit.now.items.items) < 2 ^ 64 }
    ensures { Makes result into.new.items (behind into.old.items
        (own_variables (words_of tokens.now) context.now ports.now scope.now)) }
{
    put_ports(
        alloc,
        tokens,
        context.path,
        scope,
        context.unit,
        ports,
        into,
    )?;
    put_variables(alloc, tokens, context.path, scope, context.unit, into)
}

// The processes that a module makes in an instance of this path: those of its ports' values, and those of its items. Errors: E303, E306, E307,
// E310, E901.
fn put_own_items(
    alloc: Global,
    tokens: &Tokens<'_>,
    path: &[u8],
    unit: &ModuleTree,
    scope: &Scope<'_, '_>,
    table: &mut Table,
    into: &mut Vec<Places>,
) -> Result<(), OrMemory<ElabFault>>
    requires small { scope.now.known
        + length (symbols_in (words_of tokens.now) unit.now.items.items) < 2 ^ 64 }
    ensures { Makes result (record { table = table.new; begins = into.new.items })
        (with_begins_before into.old.items (lower_items scope.now table.old
        (placed_items path.now (module_tree (words_of tokens.now) unit.now)))) }
{
    put_port_values(alloc, tokens, scope, &unit.ports, table, into)?;
    put_processes(alloc, tokens, path, scope, &unit.items, table, into)
}

// The processes of an instance: those of its port connections, and its own. Errors: E303, E305, E306, E307, E310, E901.
fn put_own_processes(
    alloc: Global,
    tokens: &Tokens<'_>,
    context: &Context<'_, '_, '_>,
    ports: &[PortForm<'_>],
    scope: &Scope<'_, '_>,
    table: &mut Table,
    into: &mut Vec<Places>,
) -> Result<(), OrMemory<ElabFault>>
    requires small { scope.now.known
        + length (symbols_in (words_of tokens.now) context.now.unit.now.items.items) < 2 ^ 64 }
    ensures { Makes result (record { table = table.new; begins = into.new.items })
        (with_begins_before into.old.items
        (own_processes (words_of tokens.now) context.now ports.now scope.now table.old)) }
{
    let overrides = context.overrides;
    put_joins(
        alloc,
        &overrides.scope,
        scope,
        tokens,
        context.name,
        context.connections,
        ports,
        table,
        into,
    )?;
    put_own_items(
        alloc,
        tokens,
        context.path,
        context.unit,
        scope,
        table,
        into,
    )
}

// The scope of an instance.
fn put_scope(
    alloc: Global,
    name: &[u8],
    path: &[u8],
    depth: u32,
    variables: usize,
    into: &mut Vec<Room>,
) -> Result<(), NoMemory>
    requires { variables ≤ 1024 }
    ensures { OnOk result (into.new.items ≡
        into.old.items ++ record {
          name = name.now;
          path = path.now;
          depth = depth;
          variables = variables;
        } ∷ []) }
{
    let name = Vec::from_slice(alloc, name)?;
    let path = Vec::from_slice(alloc, path)?;
    into.push(Room {
        name,
        path,
        depth,
        variables: variables as u32,
    })?;
    Ok(())
}

// E309, where there are too many processes or scopes.
fn check_counts(begins: &[Places], scopes: &[Room], name: Token) -> Result<(), OrMemory<ElabFault>>
    ensures { (words : List Text) (part : spec.PartialDesign) → Makes result part
        (few (word_of words name) (length begins.now) (length scopes.now) part) }
{
    if begins.len() > MOST_PROCESSES || scopes.len() > MOST_SCOPES {
        return Err(refusal(Rule::TooMany, Some(name.number)));
    }
    Ok(())
}

/// What an instance adds of its own, where its names are right. Errors: E303, E305, E306, E307, E309, E310, E901.
pub fn put_own(
    alloc: Global,
    tokens: &Tokens<'_>,
    context: &Context<'_, '_, '_>,
    ports: &[PortForm<'_>],
    scope: &Scope<'_, '_>,
    size: usize,
    part: &mut PartialDesign,
) -> Result<(), OrMemory<ElabFault>>
    requires small { scope.now.known
        + length (symbols_in (words_of tokens.now) context.now.unit.now.items.items) < 2 ^ 64 }
    requires whole { size ≡
        part.old.size + module_size (length context.now.path.now)
        (module_tree (words_of tokens.now) context.now.unit.now) }
    ensures { Makes result part.new
        (own_part (words_of tokens.now) context.now ports.now scope.now part.old) }
{
    put_own_variables(alloc, tokens, context, ports, scope, &mut part.variables)?;
    put_scope(
        alloc,
        letters(tokens, context.name),
        context.path,
        context.depth,
        scope.variables,
        &mut part.scopes,
    )?;
    put_own_processes(
        alloc,
        tokens,
        context,
        ports,
        scope,
        &mut part.table,
        &mut part.begins,
    )?;
    check_counts(&part.begins, &part.scopes, context.name)?;
    part.events = scope.events;
    part.size = size;
    Ok(())
}
