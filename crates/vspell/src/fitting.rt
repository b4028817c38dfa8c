// Whether a tree stands as the grammar lets it: names and numbers in their places, lists that aren't empty, nothing too deep.

ghost use Rattle.std.specs.Prelude.{◌≡◌, map, option_map};
ghost use Rattle.std.specs.List.{list_all};
ghost use Rattle.vast.specs.TokenTexts.{texts};
ghost use Rattle.vast.specs.Modules.{fits_overrides, fits_declaration_kind, fits_item, fits_optional_parameters, fits_optional_ports, fits_module, fits as fits_tree};
ghost use Rattle.vast.specs.ModuleTrees.{port_tree, head_parameter, connections_tree, declaration_kind, item_tree, module_tree, source_tree};

use crate::module_parts_fit::{
    connections_fit, declared_fit, direction_fits, head_parameters_fit, instances_fit,
    net_assignments_fit, parameter_type_fits, ports_fit, settings_fit, type_fits,
};
use crate::statement_fits::statement_fits;
use crate::statement_parts_fit::are_names;
use vast::module::{
    Connections, DeclarationKind, HeadParameter, ModuleItem, ModuleTree, Port, TextTree,
};
use vast::token::letters;
use vwords::words::is_name;

/// The deepest that statements and expressions nest (docs/LANGUAGE.md, "Depth").
pub const DEPTH: u32 = 64;

fn declaration_kind_fits(words: &[&[u8]], kind: &DeclarationKind) -> bool
    ensures { result ≡ fits_declaration_kind 64 (declaration_kind (texts words.now) kind.now) }
{
    match kind {
        DeclarationKind::Variables { kind, .. } => type_fits(words, kind, DEPTH),
        DeclarationKind::Integers { .. } => true,
        DeclarationKind::Directed { direction } => direction_fits(words, direction, DEPTH),
    }
}

fn overrides_fit(words: &[&[u8]], overrides: &Option<Connections>) -> bool
    ensures { result ≡ fits_overrides 64
        (option_map (connections_tree (texts words.now)) overrides.now) }
{
    match overrides {
        None => true,
        Some(overrides) => connections_fit(words, overrides, DEPTH),
    }
}

fn item_fits(words: &[&[u8]], item: &ModuleItem) -> bool
    ensures { result ≡ fits_item 64 (item_tree (texts words.now) item.now) }
{
    match item {
        ModuleItem::Parameters { kind, settings, .. } => {
            parameter_type_fits(words, kind, DEPTH)
                && !settings.is_empty()
                && settings_fit(words, settings, DEPTH)
        }
        ModuleItem::Declaration { kind, declared, .. } => {
            declaration_kind_fits(words, kind)
                && !declared.is_empty()
                && declared_fit(words, declared, DEPTH)
        }
        ModuleItem::Events { names, .. } => !names.is_empty() && are_names(words, names),
        ModuleItem::Assignments { list, .. } => {
            !list.is_empty() && net_assignments_fit(words, list, DEPTH)
        }
        ModuleItem::Initial { statement, .. } => statement_fits(words, statement, DEPTH),
        ModuleItem::Always { statement, .. } => statement_fits(words, statement, DEPTH),
        ModuleItem::Instances {
            module,
            overrides,
            instances,
        } => {
            is_name(letters(words, *module))
                && overrides_fit(words, overrides)
                && !instances.is_empty()
                && instances_fit(words, instances, DEPTH)
        }
    }
}

fn items_fit(words: &[&[u8]], items: &[ModuleItem]) -> bool
    ensures { result ≡ list_all (fits_item 64) (map (item_tree (texts words.now)) items.now) }
{
    for item in items {
        if !item_fits(words, item) {
            return false;
        }
    }
    true
}

fn optional_parameters_fit(words: &[&[u8]], parameters: &Option<Vec<HeadParameter>>) -> bool
    ensures { result ≡ fits_optional_parameters 64
        (option_map (λ list. map (head_parameter (texts words.now)) list.items) parameters.now) }
{
    match parameters {
        None => true,
        Some(list) => head_parameters_fit(words, list, DEPTH),
    }
}

fn optional_ports_fit(words: &[&[u8]], ports: &Option<Vec<Port>>) -> bool
    ensures { result ≡ fits_optional_ports 64
        (option_map (λ list. map (port_tree (texts words.now)) list.items) ports.now) }
{
    match ports {
        None => true,
        Some(list) => ports_fit(words, list, DEPTH),
    }
}

fn module_fits(words: &[&[u8]], unit: &ModuleTree) -> bool
    ensures { result ≡ fits_module 64 (module_tree (texts words.now) unit.now) }
{
    is_name(letters(words, unit.name))
        && optional_parameters_fit(words, &unit.parameters)
        && optional_ports_fit(words, &unit.ports)
        && items_fit(words, &unit.items)
}

fn modules_fit(words: &[&[u8]], modules: &[ModuleTree]) -> bool
    ensures { result ≡ list_all (fits_module 64)
        (map (module_tree (texts words.now)) modules.now) }
{
    for unit in modules {
        if !module_fits(words, unit) {
            return false;
        }
    }
    true
}

/// Whether the tree stands as the grammar lets it, so that it derives the words that it spells: names in their places, operands
/// that hold tightly enough, each `else` after the nearest `if`, one default at most, 64 levels at most. It takes no memory.
pub fn fits(words: &[&[u8]], text: &TextTree) -> bool
    ensures { result ≡ fits_tree 64 (source_tree (texts words.now) text.now) }
{
    modules_fit(words, &text.modules)
}
