// The modules of a text by name, and which of them is the top (IEEE 1364-2005, 12.1).

ghost use Rattle.std.specs.Prelude.{◌≡◌, ◌++◌, None, false, not, map, option_map, filter, slice_get, IfOk, OnOk};
ghost use Rattle.std.specs.Option.{option_copied};
ghost use Rattle.std.specs.List.{flat_map};
ghost use Rattle.basis.specs.Reasons.{IfFault};
ghost use Rattle.vwords.specs.Words.{Text};
ghost use Rattle.vast.specs.NumberedTrees.{item_tree, module_tree};
ghost use Rattle.vexpr_parse.specs.Texts.{words_of};
ghost use Rattle.vmodules.specs.Names.{first_again, has_double, is_declared, letters_of};
ghost use Rattle.vmodules.specs.Hierarchy as spec;
ghost use Rattle.vmodules.specs.Hierarchy.{instantiated_names, instantiated_by, only_of, second_of};
ghost use Rattle.vmodules.specs.Inner.{unit_names, unit_tree, units_tree, named_text, second_behind, HoldSame, IsTold};

use crate::letters::letters;
use crate::names::{Doubled, Names};
use basis::{NoMemory, OrMemory};
use std::alloc::Global;
use std::marker::Model;
use vast::module::{ModuleItem, ModuleTree};
use vlex::Tokens;

/// The modules of a text, no two of one name. A module is found by its name, at once.
#[derive(Drop)]
pub struct Modules<'t, 'u> {
    tokens: &'u Tokens<'t>,
    list: &'u [ModuleTree],
    names: Names<'t>,
}

impl<'t, 'u> Model for Modules<'t, 'u> {
    ghost use Rattle.std.specs.Prelude.{◌≡◌};
    ghost use Rattle.vexpr_parse.specs.Texts.{words_of};
    ghost use Rattle.std.specs.Coded.{codes};
    ghost use Rattle.vast.specs.contracts.module.ModuleTree as parsed;
    ghost use Rattle.vmodules.specs.Names.{letters_of};
    ghost use Rattle.vmodules.specs.Inner.{Units, unit_names};

    ghost Value = { Units };

    ghost coded = { Prim.hlevel (codes, parsed.the_row.coded) };

    ghost view = { λ m. record { words = words_of m.tokens.now; list = m.list.now } };

    ghost invariant = { λ m. m.names ≡ letters_of (unit_names (words_of m.tokens.now) m.list.now) };
}

// The module at this place, where the list is long enough.
fn at<'u>(list: &'u [ModuleTree], place: usize) -> Option<&'u ModuleTree>
    ensures { option_copied result ≡ slice_get list.now place }
{
    list.get(place)
}

impl<'t, 'u> Modules<'t, 'u> {
    /// The module of that name.
    pub fn module_of(&self, name: &[u8]) -> Option<&'u ModuleTree>
        ensures { unit_tree self.now.words result ≡ spec.module_of (units_tree self.now) name.now }
    {
        match self.names.place(name) {
            None => None,
            Some(place) => at(self.list, place),
        }
    }

    /// The tokens of the text.
    pub fn tokens(&self) -> &'u Tokens<'t>
        ensures { words_of result.now ≡ self.now.words }
    {
        self.tokens
    }

    /// The modules in the order of the text.
    pub fn list(&self) -> &'u [ModuleTree]
        ensures list { result.now ≡ self.now.list }
        ensures once { has_double (letters_of (unit_names self.now.words self.now.list)) ≡ false }
    {
        let _count = self.names.len();
        self.list
    }
}

// The names of modules, no two alike.
fn names_of<'t>(
    alloc: Global,
    tokens: &Tokens<'t>,
    list: &[ModuleTree],
) -> Result<Names<'t>, OrMemory<Doubled>>
    ensures ok { IfOk result (λ names.
        names ≡ letters_of (unit_names (words_of tokens.now) list.now)) }
    ensures once { OnOk result (first_again (unit_names (words_of tokens.now) list.now) ≡ None) }
    ensures err { IfFault result (λ doubled.
        IsTold (first_again (unit_names (words_of tokens.now) list.now)) doubled.at) }
{
    let mut names = Names::new(alloc);
    for unit in list {
        names.add_new(letters(tokens, unit.name), unit.name.number)?;
    }
    Ok(names)
}

/// The modules of a text by name; the second of one name is refused.
pub fn modules_of<'t, 'u>(
    alloc: Global,
    tokens: &'u Tokens<'t>,
    list: &'u [ModuleTree],
) -> Result<Modules<'t, 'u>, OrMemory<Doubled>>
    ensures ok { IfOk result (λ modules.
        modules ≡ record { words = words_of tokens.now; list = list.now }) }
    ensures once { OnOk result (first_again (unit_names (words_of tokens.now) list.now) ≡ None) }
    ensures err { IfFault result (λ doubled.
        IsTold (first_again (unit_names (words_of tokens.now) list.now)) doubled.at) }
{
    let names = names_of(alloc, tokens, list)?;
    Ok(Modules {
        tokens,
        list,
        names,
    })
}

// Adds the module that an item has instances of.
fn add_item<'t>(
    tokens: &Tokens<'t>,
    item: &ModuleItem,
    into: &mut Names<'t>,
) -> Result<(), NoMemory>
    ensures { OnOk result (HoldSame into.new
        (into.old ++ instantiated_by (item_tree (words_of tokens.now) item.now))) }
{
    match item {
        ModuleItem::Parameters { .. } => Ok(()),
        ModuleItem::Declaration { .. } => Ok(()),
        ModuleItem::Events { .. } => Ok(()),
        ModuleItem::Assignments { .. } => Ok(()),
        ModuleItem::Initial { .. } => Ok(()),
        ModuleItem::Always { .. } => Ok(()),
        ModuleItem::Instances { module, .. } => {
            into.add(letters(tokens, *module))?;
            Ok(())
        }
    }
}

// Adds the modules that items have instances of.
fn add_items<'t>(
    tokens: &Tokens<'t>,
    items: &[ModuleItem],
    into: &mut Names<'t>,
) -> Result<(), NoMemory>
    ensures { OnOk result (HoldSame into.new
        (into.old ++ flat_map instantiated_by (map (item_tree (words_of tokens.now)) items.now))) }
{
    for item in items {
        add_item(tokens, item, into)?;
    }
    Ok(())
}

// The names of the modules that have instances.
fn instantiated_names<'t>(
    alloc: Global,
    tokens: &Tokens<'t>,
    list: &[ModuleTree],
) -> Result<Names<'t>, NoMemory>
    ensures { IfOk result (λ names.
        HoldSame names (instantiated_names (map (module_tree (words_of tokens.now)) list.now))) }
{
    let mut names = Names::new(alloc);
    for unit in list {
        add_items(tokens, &unit.items, &mut names)?;
    }
    Ok(names)
}

// The only module whose name is not among these.
fn only_outside<'u>(
    tokens: &Tokens<'_>,
    list: &'u [ModuleTree],
    names: &Names<'_>,
) -> Option<&'u ModuleTree>
    ensures { unit_tree (words_of tokens.now) result ≡ only_of
        (filter (λ m. not (is_declared names.now m.name.letters))
        (map (module_tree (words_of tokens.now)) list.now)) }
{
    let mut found: Option<&'u ModuleTree> = None;
    for unit in list {
        if names.place(letters(tokens, unit.name)).is_none() {
            if found.is_some() {
                return None;
            }
            found = Some(unit);
        }
    }
    found
}

// The only module that has no instances.
fn only_root<'u>(
    alloc: Global,
    modules: &Modules<'_, 'u>,
) -> Result<Option<&'u ModuleTree>, NoMemory>
    ensures { IfOk result (λ unit.
        unit_tree modules.now.words unit ≡ only_of (spec.roots (units_tree modules.now))) }
{
    let tokens = modules.tokens();
    let list = modules.list();
    let names = instantiated_names(alloc, tokens, list)?;
    Ok(only_outside(tokens, list, &names))
}

/// The module of that name; without a name the only one that has no instances.
pub fn top_of<'u>(
    alloc: Global,
    modules: &Modules<'_, 'u>,
    top: Option<&[u8]>,
) -> Result<Option<&'u ModuleTree>, NoMemory>
    ensures { IfOk result (λ unit. unit_tree modules.now.words unit ≡ spec.top_of
        (units_tree modules.now) (named_text top.entry)) }
{
    match top {
        None => only_root(alloc, modules),
        Some(name) => Ok(modules.module_of(name)),
    }
}

// The token of the name of the second module whose name is not among these.
fn second_outside(tokens: &Tokens<'_>, list: &[ModuleTree], names: &Names<'_>) -> Option<u32>
    ensures { result ≡ option_map (λ w. w.number) (second_of
        (filter (λ m. not (is_declared names.now m.name.letters))
        (map (module_tree (words_of tokens.now)) list.now))) }
{
    let mut has_one = false;
    for unit in list {
        if names.place(letters(tokens, unit.name)).is_none() {
            if has_one {
                return Some(unit.name.number);
            }
            has_one = true;
        }
    }
    None
}

// The token of the name of the second module that has no instances.
fn second_root(alloc: Global, modules: &Modules<'_, '_>) -> Result<Option<u32>, NoMemory>
    ensures { IfOk result (λ at. at ≡
        option_map (λ w. w.number) (second_of (spec.roots (units_tree modules.now)))) }
{
    let tokens = modules.tokens();
    let list = modules.list();
    let names = instantiated_names(alloc, tokens, list)?;
    Ok(second_outside(tokens, list, &names))
}

/// Where no name is asked for: the token of the name of the second module that could be the top.
pub fn rival_of(
    alloc: Global,
    modules: &Modules<'_, '_>,
    top: Option<&[u8]>,
) -> Result<Option<u32>, NoMemory>
    ensures { IfOk result (λ at. at ≡ option_map (λ w. w.number) (spec.rival_of
        (units_tree modules.now) (named_text top.entry))) }
{
    match top {
        None => second_root(alloc, modules),
        Some(_) => Ok(None),
    }
}
