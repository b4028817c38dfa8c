// Modules, and the instances below them (IEEE 1364-2005, clause 12).

ghost use Rattle.std.specs.Prelude.{◌≡◌, ◌-◌, ◌++◌, List, None, Some, map, IfOk, OnOk};
ghost use Rattle.std.specs.List.{flat_map};
ghost use Rattle.vast.specs.NumberedTrees.{connection_tree, connections_tree, declared_tree, instance_tree, item_tree, module_tree, net_assignment, port_tree, source_tree, tree_of};
ghost use Rattle.vast.specs.NumberedModules.{by_name, by_order};
ghost use Rattle.vast.specs.NumberedWords.{word_of};
ghost use Rattle.vwords.specs.Words.{Text};
ghost use Rattle.vexpr_parse.specs.Texts.{words_of};
ghost use Rattle.vmodules.specs.Names.{first_again};
ghost use Rattle.vmodules.specs.Inner.{named_text, optional_ports, unit_names, unit_tree, units_tree};
ghost use Rattle.vmodules.specs.Ports.{port_declared, ports_declared};
ghost use Rattle.action_origins.specs.Lengths.{item_length, list_length};
ghost use Rattle.action_origins.specs.Origins as spec;
ghost use Rattle.action_origins.specs.Origins.{declared_origins, design_origins, driven_origins, instances_origins, item_origins, items_origins, joined_origins, module_origins, origins_below, top_origins};

use crate::expressions::past_end;
use crate::modules::{
    past_declaration_kind, past_declarations, past_heads, past_instances, past_net_assignment,
    past_net_assignments, past_overrides, past_parameter_type, past_ports, past_settings,
};
use crate::statements::{put, put_statement};
use basis::{NoMemory, OrMemory};
use std::alloc::Global;
use vast::expression::Expression;
use vast::module::{
    Connection, Connections, DeclarationKind, Declared, Instance, ModuleItem, ModuleTree,
    NetAssignment, Port, TextTree,
};
use vast::token::Token;
use vlex::Tokens;
use vmodules::hierarchy::{Modules, modules_of, top_of};
use vmodules::letters::letters;

/// The most levels of instances, the top among them.
const MOST_LEVELS: u32 = 16;

// Puts where names begin that are declared with a value.
fn put_declared(list: &[Declared], into: &mut Vec<usize>) -> Result<(), NoMemory>
    ensures { (words : List Text) → OnOk result (into.new.items ≡
        into.old.items ++ declared_origins (map (declared_tree words) list.now)) }
{
    for one in list {
        if one.value.is_some() {
            into.push(one.name.number as usize)?;
        }
    }
    Ok(())
}

// Puts where ports of a list begin that have a value.
fn put_listed(list: &[Port], into: &mut Vec<usize>) -> Result<(), NoMemory>
    ensures { OnOk result ((words : List Text) → into.new.items ≡ into.old.items
        ++ declared_origins (map port_declared (map (port_tree words) list.now))) }
{
    for one in list {
        if one.value.is_some() {
            into.push(one.name.number as usize)?;
        }
    }
    Ok(())
}

// The same of the ports of a module, where it has a list of them.
fn put_ports(ports: &Option<Vec<Port>>, into: &mut Vec<usize>) -> Result<(), NoMemory>
    ensures { OnOk result ((words : List Text) → into.new.items ≡ into.old.items
        ++ declared_origins (ports_declared (optional_ports words ports.now))) }
{
    match ports {
        None => Ok(()),
        Some(list) => put_listed(list, into),
    }
}

// Puts where the parts of an `assign` begin, from whose first target so many words are left.
fn put_driven(
    tokens: &Tokens<'_>,
    list: &[NetAssignment],
    mut left: usize,
    into: &mut Vec<usize>,
) -> Result<(), NoMemory>
    ensures { OnOk result (into.new.items ≡ into.old.items ++ driven_origins (words_of tokens.now)
        left (map (net_assignment (words_of tokens.now)) list.now)) }
{
    for one in list {
        put(tokens, left, into)?;
        left = past_net_assignment(one, left).saturating_sub(1);
    }
    Ok(())
}

// What is left behind names and the word that ends them.
fn past_names(names: &[Token], left: usize) -> usize
    ensures { (words : List Text) →
        result ≡ left - list_length (λ name. 1) (map (word_of words) names.now) }
{
    let len = names.len();
    past_end(names.is_empty(), left)
        .saturating_sub(len)
        .saturating_sub(len)
}

// Puts where the actions of an item begin, and says what is left behind it.
fn put_item(
    tokens: &Tokens<'_>,
    item: &ModuleItem,
    left: usize,
    into: &mut Vec<usize>,
) -> Result<usize, NoMemory>
    ensures put { OnOk result (into.new.items ≡ into.old.items ++ item_origins (words_of tokens.now)
        left (item_tree (words_of tokens.now) item.now)) }
    ensures past { IfOk result (λ behind. behind ≡
        left - item_length (item_tree (words_of tokens.now) item.now)) }
{
    let inner = left.saturating_sub(1);
    match item {
        ModuleItem::Parameters { kind, settings, .. } => {
            Ok(past_settings(settings, past_parameter_type(kind, inner)))
        }
        ModuleItem::Declaration { kind, declared, .. } => {
            put_declared(declared, into)?;
            Ok(past_declarations(declared, past_declaration_kind(kind, left)))
        }
        ModuleItem::Events { names, .. } => Ok(past_names(names, inner)),
        ModuleItem::Assignments { list, .. } => {
            put_driven(tokens, list, inner, into)?;
            Ok(past_net_assignments(list, inner))
        }
        ModuleItem::Initial { statement, .. } => put_statement(tokens, statement, inner, into),
        ModuleItem::Always { statement, .. } => {
            let behind = put_statement(tokens, statement, inner, into)?;
            put(tokens, left, into)?;
            Ok(behind)
        }
        ModuleItem::Instances {
            overrides,
            instances,
            ..
        } => Ok(past_instances(instances, past_overrides(overrides, inner))),
    }
}

// The same of items.
fn put_items(
    tokens: &Tokens<'_>,
    items: &[ModuleItem],
    mut left: usize,
    into: &mut Vec<usize>,
) -> Result<(), NoMemory>
    ensures { OnOk result (into.new.items ≡ into.old.items ++ items_origins (words_of tokens.now)
        left (map (item_tree (words_of tokens.now)) items.now)) }
{
    for one in items {
        left = put_item(tokens, one, left, into)?;
    }
    Ok(())
}

// How many tokens are left from the first item of a module on.
fn items_left(tokens: &Tokens<'_>, unit: &ModuleTree) -> usize
    ensures { result ≡ spec.items_left (words_of tokens.now)
        (module_tree (words_of tokens.now) unit.now) }
{
    let behind_name = tokens
        .len()
        .saturating_sub(unit.name.number as usize)
        .saturating_sub(1);
    past_ports(&unit.ports, past_heads(&unit.parameters, behind_name)).saturating_sub(1)
}

// Puts a name once for each of these values.
fn put_for_each(name: Token, values: &[Expression], into: &mut Vec<usize>) -> Result<(), NoMemory>
    ensures { (words : List Text) → OnOk result (into.new.items ≡ into.old.items ++ joined_origins
        (word_of words name) (by_order (map (tree_of words) values.now))) }
{
    for _value in values {
        into.push(name.number as usize)?;
    }
    Ok(())
}

// Puts a name once for each of these that has a value.
fn put_for_valued(name: Token, list: &[Connection], into: &mut Vec<usize>) -> Result<(), NoMemory>
    ensures { (words : List Text) → OnOk result (into.new.items ≡ into.old.items ++ joined_origins
        (word_of words name) (by_name (map (connection_tree words) list.now))) }
{
    for one in list {
        if one.value.is_some() {
            into.push(name.number as usize)?;
        }
    }
    Ok(())
}

// Puts where the processes of the ports of an instance begin.
fn put_joined(
    tokens: &Tokens<'_>,
    instance: &Instance,
    into: &mut Vec<usize>,
) -> Result<(), NoMemory>
    ensures { OnOk result (into.new.items ≡ into.old.items ++ joined_origins
        (word_of (words_of tokens.now) instance.now.name)
        (connections_tree (words_of tokens.now) instance.now.connections)) }
{
    match &instance.connections {
        Connections::ByOrder(values) => put_for_each(instance.name, values, into),
        Connections::ByName(list) => put_for_valued(instance.name, list, into),
    }
}

// Puts where the actions of a module and of all below it begin, so many levels deep.
#[cycle(units)]
fn put_module(
    modules: &Modules<'_, '_>,
    levels: u32,
    unit: &ModuleTree,
    into: &mut Vec<usize>,
) -> Result<(), NoMemory>
    ensures { OnOk result (into.new.items ≡ into.old.items ++ module_origins modules.now.words
        levels (units_tree modules.now) (module_tree modules.now.words unit.now)) }
{
    if levels == 0 {
        return Ok(());
    }
    let tokens = modules.tokens();
    put_ports(&unit.ports, into)?;
    put_items(tokens, &unit.items, items_left(tokens, unit), into)?;
    put_below(modules, levels - 1, &unit.items, into)
}

// The same of the instances that items have.
#[cycle(units)]
fn put_below(
    modules: &Modules<'_, '_>,
    levels: u32,
    items: &[ModuleItem],
    into: &mut Vec<usize>,
) -> Result<(), NoMemory>
    ensures { OnOk result (into.new.items ≡ into.old.items ++ flat_map (origins_below
        (module_origins modules.now.words levels (units_tree modules.now)) (units_tree modules.now))
        (map (item_tree modules.now.words) items.now)) }
{
    for one in items {
        put_below_item(modules, levels, one, into)?;
    }
    Ok(())
}

#[cycle(units)]
fn put_below_item(
    modules: &Modules<'_, '_>,
    levels: u32,
    item: &ModuleItem,
    into: &mut Vec<usize>,
) -> Result<(), NoMemory>
    ensures { OnOk result (into.new.items ≡ into.old.items ++ origins_below
        (module_origins modules.now.words levels (units_tree modules.now)) (units_tree modules.now)
        (item_tree modules.now.words item.now)) }
{
    match item {
        ModuleItem::Parameters { .. } => Ok(()),
        ModuleItem::Declaration { .. } => Ok(()),
        ModuleItem::Events { .. } => Ok(()),
        ModuleItem::Assignments { .. } => Ok(()),
        ModuleItem::Initial { .. } => Ok(()),
        ModuleItem::Always { .. } => Ok(()),
        ModuleItem::Instances {
            module,
            instances,
            ..
        } => match modules.module_of(letters(modules.tokens(), *module)) {
            None => Ok(()),
            Some(child) => put_instances(modules, levels, child, instances, into),
        },
    }
}

// The same of instances of a module.
#[cycle(units)]
fn put_instances(
    modules: &Modules<'_, '_>,
    levels: u32,
    child: &ModuleTree,
    list: &[Instance],
    into: &mut Vec<usize>,
) -> Result<(), NoMemory>
    ensures { OnOk result (into.new.items ≡ into.old.items ++ instances_origins
        (module_origins modules.now.words levels (units_tree modules.now))
        (Some (module_tree modules.now.words child.now))
        (map (instance_tree modules.now.words) list.now)) }
{
    for one in list {
        put_joined(modules.tokens(), one, into)?;
        put_module(modules, levels, child, into)?;
    }
    Ok(())
}

// Those of the design whose top this is.
fn put_top(
    modules: &Modules<'_, '_>,
    top: Option<&ModuleTree>,
    into: &mut Vec<usize>,
) -> Result<(), NoMemory>
    ensures { OnOk result (into.new.items ≡ into.old.items ++ top_origins modules.now.words
        (units_tree modules.now) (unit_tree modules.now.words top.entry)) }
{
    match top {
        None => Ok(()),
        Some(unit) => put_module(modules, MOST_LEVELS, unit, into),
    }
}

// Those of the design of modules.
fn origins_in(
    alloc: Global,
    modules: &Modules<'_, '_>,
    top: Option<&[u8]>,
) -> Result<Vec<usize>, NoMemory>
    ensures { IfOk result (λ list. list.items ≡ design_origins modules.now.words
        (units_tree modules.now) (named_text top.entry)) }
{
    let mut list = Vec::new(alloc);
    let unit = top_of(alloc, modules, top)?;
    put_top(modules, unit, &mut list)?;
    Ok(list)
}

/// For each action of the design of a text the number of the token with which its statement begins, in the order of the actions. `top` names
/// the top module; without it the only module that no module instantiates is the top. Errors: E901.
pub fn origins_of(
    alloc: Global,
    tokens: &Tokens<'_>,
    text: &TextTree,
    top: Option<&[u8]>,
) -> Result<Vec<usize>, NoMemory>
    requires once { first_again (unit_names (words_of tokens.now) text.now.modules.items) ≡ None }
    ensures { IfOk result (λ list. list.items ≡ design_origins (words_of tokens.now)
        (source_tree (words_of tokens.now) text.now) (named_text top.entry)) }
{
    match modules_of(alloc, tokens, &text.modules) {
        Ok(modules) => origins_in(alloc, &modules, top),
        Err(OrMemory::Memory(refused)) => Err(refused),
        // of modules no two of which have one name this isn't told
        Err(OrMemory::Fault(_)) => Ok(Vec::new(alloc)),
    }
}
