// The parameters of a module that can be overridden (IEEE 1364-2005, 4.10.1, 12.2).

ghost use Rattle.std.specs.Prelude.{◌≡◌, [], None, false, IfOk, OnOk};
ghost use Rattle.basis.specs.Reasons.{IfFault};
ghost use Rattle.vast.specs.NumberedTrees.{item_tree, module_tree};
ghost use Rattle.vexpr_parse.specs.Texts.{words_of};
ghost use Rattle.vmodules.specs.Names.{again_behind, first_again, has_double, letters_of};
ghost use Rattle.vmodules.specs.Connected as spec;
ghost use Rattle.vmodules.specs.Connected.{open_by};
ghost use Rattle.vmodules.specs.Inner.{head_names, setting_names, open_settings, open_in, with_words, IsTold};

use crate::letters::letters;
use crate::names::{Doubled, Names};
use basis::OrMemory;
use std::alloc::Global;
use vast::module::{HeadParameter, ModuleItem, ModuleTree, Setting};
use vlex::Tokens;

// Adds the names of settings.
fn add_settings<'t>(
    tokens: &Tokens<'t>,
    settings: &[Setting],
    into: &mut Names<'t>,
) -> Result<(), OrMemory<Doubled>>
    ensures ok { OnOk result (into.new ≡ with_words into.old (setting_names
        (words_of tokens.now) settings.now)) }
    ensures once { OnOk result (again_behind into.old (setting_names
        (words_of tokens.now) settings.now) ≡ None) }
    ensures err { IfFault result (λ doubled.
        IsTold (again_behind into.old (setting_names
        (words_of tokens.now) settings.now)) doubled.at) }
{
    for setting in settings {
        into.add_new(letters(tokens, setting.name), setting.name.number)?;
    }
    Ok(())
}

// Adds the parameters of a module's head.
fn add_head<'t>(
    tokens: &Tokens<'t>,
    list: &[HeadParameter],
    into: &mut Names<'t>,
) -> Result<(), OrMemory<Doubled>>
    ensures ok { OnOk result (into.new ≡ with_words into.old (head_names
        (words_of tokens.now) list.now)) }
    ensures once { OnOk result (again_behind into.old (head_names
        (words_of tokens.now) list.now) ≡ None) }
    ensures err { IfFault result (λ doubled.
        IsTold (again_behind into.old (head_names (words_of tokens.now) list.now)) doubled.at) }
{
    for head in list {
        into.add_new(letters(tokens, head.setting.name), head.setting.name.number)?;
    }
    Ok(())
}

// Adds the names of settings, save of local parameters.
fn add_open<'t>(
    tokens: &Tokens<'t>,
    local: bool,
    settings: &[Setting],
    into: &mut Names<'t>,
) -> Result<(), OrMemory<Doubled>>
    ensures ok { OnOk result (into.new ≡ with_words into.old (open_settings
        (words_of tokens.now) local settings.now)) }
    ensures once { OnOk result (again_behind into.old (open_settings
        (words_of tokens.now) local settings.now) ≡ None) }
    ensures err { IfFault result (λ doubled.
        IsTold (again_behind into.old (open_settings
        (words_of tokens.now) local settings.now)) doubled.at) }
{
    if local {
        Ok(())
    } else {
        add_settings(tokens, settings, into)
    }
}

// Adds the parameters of an item that can be overridden.
fn add_item<'t>(
    tokens: &Tokens<'t>,
    item: &ModuleItem,
    into: &mut Names<'t>,
) -> Result<(), OrMemory<Doubled>>
    ensures ok { OnOk result (into.new ≡ with_words into.old (open_by (item_tree
        (words_of tokens.now) item.now))) }
    ensures once { OnOk result (again_behind into.old (open_by (item_tree
        (words_of tokens.now) item.now)) ≡ None) }
    ensures err { IfFault result (λ doubled.
        IsTold (again_behind into.old (open_by (item_tree
        (words_of tokens.now) item.now))) doubled.at) }
{
    match item {
        ModuleItem::Parameters {
            local,
            settings,
            ..
        } => add_open(tokens, *local, settings, into),
        ModuleItem::Declaration { .. } => Ok(()),
        ModuleItem::Events { .. } => Ok(()),
        ModuleItem::Assignments { .. } => Ok(()),
        ModuleItem::Initial { .. } => Ok(()),
        ModuleItem::Always { .. } => Ok(()),
        ModuleItem::Instances { .. } => Ok(()),
    }
}

// Adds the parameters of items that can be overridden.
fn add_items<'t>(
    tokens: &Tokens<'t>,
    items: &[ModuleItem],
    into: &mut Names<'t>,
) -> Result<(), OrMemory<Doubled>>
    ensures ok { OnOk result (into.new ≡ with_words into.old (open_in
        (words_of tokens.now) items.now)) }
    ensures once { OnOk result (again_behind into.old (open_in
        (words_of tokens.now) items.now) ≡ None) }
    ensures err { IfFault result (λ doubled.
        IsTold (again_behind into.old (open_in (words_of tokens.now) items.now)) doubled.at) }
{
    for item in items {
        add_item(tokens, item, into)?;
    }
    Ok(())
}

// Adds the parameters of a module that can be overridden.
fn add_module<'t>(
    tokens: &Tokens<'t>,
    unit: &ModuleTree,
    into: &mut Names<'t>,
) -> Result<(), OrMemory<Doubled>>
    ensures ok { OnOk result (into.new ≡ with_words into.old (spec.open_names (module_tree
        (words_of tokens.now) unit.now))) }
    ensures once { OnOk result (again_behind into.old (spec.open_names (module_tree
        (words_of tokens.now) unit.now)) ≡ None) }
    ensures err { IfFault result (λ doubled.
        IsTold (again_behind into.old (spec.open_names (module_tree
        (words_of tokens.now) unit.now))) doubled.at) }
{
    match &unit.parameters {
        None => add_items(tokens, &unit.items, into),
        Some(list) => add_head(tokens, list, into),
    }
}

/// The names of the parameters that can be overridden, in the order of the text.
pub fn open_names<'t>(
    alloc: Global,
    tokens: &Tokens<'t>,
    unit: &ModuleTree,
) -> Result<Names<'t>, OrMemory<Doubled>>
    ensures ok { IfOk result (λ names.
        names ≡ letters_of (spec.open_names (module_tree (words_of tokens.now) unit.now))) }
    ensures once { OnOk result
        (first_again (spec.open_names (module_tree (words_of tokens.now) unit.now)) ≡ None) }
    ensures unique { IfOk result (λ names. has_double names ≡ false) }
    ensures err { IfFault result (λ doubled. IsTold
        (first_again (spec.open_names (module_tree (words_of tokens.now) unit.now))) doubled.at) }
{
    let mut names = Names::new(alloc);
    add_module(tokens, unit, &mut names)?;
    let _count = names.len();
    Ok(names)
}
