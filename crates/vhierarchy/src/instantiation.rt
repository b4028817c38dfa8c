// The instances that a module has, with what is said of their parameters and connected to their ports (IEEE 1364-2005, 12.1.2, 12.2.2,
// 12.3).

ghost use Rattle.std.specs.Prelude.{◌≡◌, ◌<◌, ◌+◌, ◌^◌, [], None, length, map, option_map, IfOk, OnOk};
ghost use Rattle.basis.specs.Reasons.{IfFault};
ghost use Rattle.vast.specs.NumberedTrees.{connections_tree, instance_tree, item_tree, module_tree};
ghost use Rattle.vast.specs.NumberedWords.{word_of};
ghost use Rattle.vexpr_parse.specs.Texts.{words_of};
ghost use Rattle.vmodules.specs.Names.{first_again, letters_of};
ghost use Rattle.vmodules.specs.Connected.{misfit_if, misfit, named_connections as spec_named_connections, named_connections_if as spec_named_connections_if, open_names as spec_open_names};
ghost use Rattle.vmodules.specs.Inner.{entries_tree, units_tree, unit_tree};
ghost use Rattle.velab_declaration.specs.Variables.{port_names as spec_port_names};
ghost use Rattle.velab_expr.specs.Inner.{symbols_in};
ghost use Rattle.velab_declaration.specs.Inner.{DoublesIn};
ghost use Rattle.velab_expr.specs.Rules.{IsBroken, broken_at};
ghost use Rattle.velab_expr.specs.Answers.{Makes, behind};
ghost use Rattle.vhierarchy.specs.Instances as spec;
ghost use Rattle.vhierarchy.specs.Inner.{GivesAs, IsOpen, instances_in, instances_listed, instantiation_tree, instantiation_trees};

use basis::OrMemory;
use std::alloc::Global;
use vast::module::{Connections, Instance, ModuleItem, ModuleTree};
use vast::token::Token;
use velab_declaration::declared::port_names;
use velab_expr::fault::{ElabFault, Rule};
use velab_expr::refusal::refusal;
use velab_expr::symbol::symbol_count;
use vlex::Tokens;
use vmodules::connect::{ConnectionMap, named_connections, named_connections_if};
use vmodules::hierarchy::Modules;
use vmodules::letters::letters;
use vmodules::names::Names;
use vmodules::parameters::open_names;
use vmodules::ports::ports_of;

/// An instance of a module: its name, how many names that are no variables stand before it, and, by their names, what is said of its
/// parameters and what its ports are connected to.
#[derive(Drop)]
pub struct Instantiation<'t, 'u> {
    pub child: &'u ModuleTree,
    pub name: Token,
    pub known: usize,
    pub values: ConnectionMap<'t, 'u>,
    pub connections: ConnectionMap<'t, 'u>,
}

/// The most instances of a design below the top.
const MOST_INSTANCES: usize = 1024;

// What is said of a module from outside may speak of these: parameters and ports.
#[derive(Drop)]
struct Open<'t, 'u> {
    child: &'u ModuleTree,
    values: Names<'t>,
    ports: Names<'t>,
}

// The parameters of a module that can be overridden. E302 where two have the same name.
fn values_of<'t>(
    alloc: Global,
    tokens: &Tokens<'t>,
    child: &ModuleTree,
) -> Result<Names<'t>, OrMemory<ElabFault>>
    ensures ok { IfOk result (λ names.
        names ≡ letters_of (spec_open_names (module_tree (words_of tokens.now) child.now))) }
    ensures right { OnOk result
        (first_again (spec_open_names (module_tree (words_of tokens.now) child.now)) ≡ None) }
    ensures err { IfFault result (DoublesIn []
        (spec_open_names (module_tree (words_of tokens.now) child.now))) }
{
    match open_names(alloc, tokens, child) {
        Ok(names) => Ok(names),
        Err(OrMemory::Memory(none)) => Err(OrMemory::Memory(none)),
        Err(OrMemory::Fault(doubled)) => Err(refusal(Rule::Doubled, Some(doubled.at))),
    }
}

// The ports of a module. E302 where two have the same name.
fn ports_for<'t>(
    alloc: Global,
    tokens: &Tokens<'t>,
    child: &ModuleTree,
) -> Result<Names<'t>, OrMemory<ElabFault>>
    ensures ok { IfOk result (λ names.
        names ≡ letters_of (spec_port_names (module_tree (words_of tokens.now) child.now))) }
    ensures right { OnOk result
        (first_again (spec_port_names (module_tree (words_of tokens.now) child.now)) ≡ None) }
    ensures err { IfFault result (DoublesIn []
        (spec_port_names (module_tree (words_of tokens.now) child.now))) }
{
    let ports = ports_of(alloc, tokens, child)?;
    port_names(alloc, tokens, &ports)
}

// What may be spoken of from outside. E302 where two parameters have the same name, or two ports.
fn open_of<'t, 'u>(
    alloc: Global,
    tokens: &Tokens<'t>,
    child: &'u ModuleTree,
) -> Result<Open<'t, 'u>, OrMemory<ElabFault>>
    ensures ok { IfOk result (IsOpen (words_of tokens.now) child.now) }
    ensures right { OnOk result (spec.named_again (module_tree (words_of tokens.now) child.now) ≡ None) }
    ensures err { IfFault result (IsBroken (broken_at Rule.Doubled
        (spec.named_again (module_tree (words_of tokens.now) child.now)))) }
{
    let values = values_of(alloc, tokens, child)?;
    let ports = ports_for(alloc, tokens, child)?;
    Ok(Open {
        child,
        values,
        ports,
    })
}

// What is said of parameters. E305 where it doesn't fit.
fn values_by<'t, 'u>(
    alloc: Global,
    tokens: &Tokens<'t>,
    whose: Token,
    names: &Names<'t>,
    overrides: &'u Option<Connections>,
) -> Result<ConnectionMap<'t, 'u>, OrMemory<ElabFault>>
    ensures ok { IfOk result (λ connections. entries_tree (words_of tokens.now) connections
        ≡ spec_named_connections_if names.now
        (option_map (connections_tree (words_of tokens.now)) overrides.now)) }
    ensures fits { OnOk result (misfit_if (word_of (words_of tokens.now) whose) names.now
        (option_map (connections_tree (words_of tokens.now)) overrides.now) ≡ None) }
    ensures err { IfFault result (IsBroken (broken_at Rule.Ports
        (misfit_if (word_of (words_of tokens.now) whose) names.now
        (option_map (connections_tree (words_of tokens.now)) overrides.now)))) }
{
    match named_connections_if(alloc, tokens, whose, names, overrides) {
        Ok(connections) => Ok(connections),
        Err(OrMemory::Memory(none)) => Err(OrMemory::Memory(none)),
        Err(OrMemory::Fault(misfit)) => Err(refusal(Rule::Ports, Some(misfit.at))),
    }
}

// What ports are connected to. E305 where it doesn't fit.
fn connections_by<'t, 'u>(
    alloc: Global,
    tokens: &Tokens<'t>,
    whose: Token,
    names: &Names<'t>,
    connections: &'u Connections,
) -> Result<ConnectionMap<'t, 'u>, OrMemory<ElabFault>>
    ensures ok { IfOk result (λ map. entries_tree (words_of tokens.now) map ≡
        spec_named_connections names.now (connections_tree (words_of tokens.now) connections.now)) }
    ensures fits { OnOk result (misfit (word_of (words_of tokens.now) whose) names.now
        (connections_tree (words_of tokens.now) connections.now) ≡ None) }
    ensures err { IfFault result (IsBroken (broken_at Rule.Ports
        (misfit (word_of (words_of tokens.now) whose) names.now
        (connections_tree (words_of tokens.now) connections.now)))) }
{
    match named_connections(alloc, tokens, whose, names, connections) {
        Ok(connections) => Ok(connections),
        Err(OrMemory::Memory(none)) => Err(OrMemory::Memory(none)),
        Err(OrMemory::Fault(misfit)) => Err(refusal(Rule::Ports, Some(misfit.at))),
    }
}

// One instance. E305 where what is said of its parameters or connected to its ports doesn't fit.
fn instantiation_by<'t, 'u>(
    alloc: Global,
    tokens: &Tokens<'t>,
    offered: &Open<'t, 'u>,
    known: usize,
    overrides: &'u Option<Connections>,
    one: &'u Instance,
) -> Result<Instantiation<'t, 'u>, OrMemory<ElabFault>>
    requires { IsOpen (words_of tokens.now) offered.now.child.now offered.now }
    ensures { GivesAs (instantiation_tree (words_of tokens.now)) result (spec.lower_instance
        (module_tree (words_of tokens.now) offered.now.child.now) known
        (option_map (connections_tree (words_of tokens.now)) overrides.now)
        (instance_tree (words_of tokens.now) one.now)) }
{
    let values = values_by(alloc, tokens, one.name, &offered.values, overrides)?;
    let connections = connections_by(alloc, tokens, one.name, &offered.ports, &one.connections)?;
    Ok(Instantiation {
        child: offered.child,
        name: one.name,
        known,
        values,
        connections,
    })
}

// The instances of one item, where what may be spoken of is known.
fn put_each<'t, 'u>(
    alloc: Global,
    tokens: &Tokens<'t>,
    offered: &Open<'t, 'u>,
    known: usize,
    overrides: &'u Option<Connections>,
    list: &'u [Instance],
    into: &mut Vec<Instantiation<'t, 'u>>,
) -> Result<(), OrMemory<ElabFault>>
    requires { IsOpen (words_of tokens.now) offered.now.child.now offered.now }
    ensures { Makes result (instantiation_trees (words_of tokens.now) into.new.items)
        (behind (instantiation_trees (words_of tokens.now) into.old.items)
        (instances_listed (words_of tokens.now) offered.now.child.now known overrides.now list.now)) }
{
    for one in list {
        let instantiation = instantiation_by(alloc, tokens, offered, known, overrides, one)?;
        into.push(instantiation)?;
    }
    Ok(())
}

// The instances of a module that an item has, behind others, `name` being the token that names the module. E301 where
// there is no such module, E309 where there are more than 1,024 with those before.
fn put_instances<'t, 'u>(
    alloc: Global,
    tokens: &Tokens<'t>,
    child: Option<&'u ModuleTree>,
    name: Token,
    known: usize,
    overrides: &'u Option<Connections>,
    list: &'u [Instance],
    into: &mut Vec<Instantiation<'t, 'u>>,
) -> Result<(), OrMemory<ElabFault>>
    ensures { Makes result (instantiation_trees (words_of tokens.now) into.new.items)
        (behind (instantiation_trees (words_of tokens.now) into.old.items)
        (spec.lower_instances_of (word_of (words_of tokens.now) name) (length into.old.items) known
        (unit_tree (words_of tokens.now) child.entry)
        (option_map (connections_tree (words_of tokens.now)) overrides.now)
        (map (instance_tree (words_of tokens.now)) list.now))) }
{
    match child {
        None => Err(refusal(Rule::Top, Some(name.number))),
        Some(child) => {
            if into.len() + list.len() > MOST_INSTANCES {
                return Err(refusal(Rule::TooMany, Some(name.number)));
            }
            let offered = open_of(alloc, tokens, child)?;
            put_each(alloc, tokens, &offered, known, overrides, list, into)
        }
    }
}

// The instances of an item.
fn put_item<'t, 'u>(
    alloc: Global,
    modules: &Modules<'t, 'u>,
    known: usize,
    item: &'u ModuleItem,
    into: &mut Vec<Instantiation<'t, 'u>>,
) -> Result<(), OrMemory<ElabFault>>
    ensures { Makes result (instantiation_trees modules.now.words into.new.items)
        (behind (instantiation_trees modules.now.words into.old.items)
        (spec.lower_instances_by (units_tree modules.now) (length into.old.items) known
        (item_tree modules.now.words item.now))) }
{
    match item {
        ModuleItem::Parameters { .. } => Ok(()),
        ModuleItem::Declaration { .. } => Ok(()),
        ModuleItem::Events { .. } => Ok(()),
        ModuleItem::Assignments { .. } => Ok(()),
        ModuleItem::Initial { .. } => Ok(()),
        ModuleItem::Always { .. } => Ok(()),
        ModuleItem::Instances {
            module,
            overrides,
            instances,
        } => {
            let tokens = modules.tokens();
            let child = modules.module_of(letters(tokens, *module));
            put_instances(
                alloc, tokens, child, *module, known, overrides, instances, into,
            )
        }
    }
}

/// The instances of a module, in the order of its items; so many names that are no variables stand before the first. Errors: E301, E302,
/// E305, E309, E901.
pub fn instantiations_in<'t, 'u>(
    alloc: Global,
    modules: &Modules<'t, 'u>,
    known: usize,
    items: &'u [ModuleItem],
) -> Result<Vec<Instantiation<'t, 'u>>, OrMemory<ElabFault>>
    requires small { known + length (symbols_in modules.now.words items.now) < 2 ^ 64 }
    ensures { GivesAs (λ list. instantiation_trees modules.now.words list.items) result
        (instances_in modules.now 0 known items.now) }
{
    let mut list = Vec::new(alloc);
    let mut before = known;
    for item in items {
        put_item(alloc, modules, before, item, &mut list)?;
        before += symbol_count(item);
    }
    Ok(list)
}
