// Names of blocks (IEEE 1364-2005, 9.8.3), which stand among the names of their module (4.11).

ghost use Rattle.std.specs.Prelude.{◌≡◌, ◌++◌, ◌∷◌, List, [], None, true, false, map, option_map, IfOk, OnOk};
ghost use Rattle.std.specs.List.{flat_map};
ghost use Rattle.basis.specs.Reasons.{IfFault};
ghost use Rattle.vast.specs.NumberedWords.{word_of};
ghost use Rattle.vast.specs.NumberedTrees.{branch_tree, branch_trees, declared_tree, head_parameter, instance_tree, item_tree, module_tree, setting_tree, statement_tree, statement_trees};
ghost use Rattle.vexpr_parse.specs.Texts.{words_of};
ghost use Rattle.vmodules.specs.Names.{again_behind, is_declared, letters_of};
ghost use Rattle.vmodules.specs.Ports.{listed_names};
ghost use Rattle.vmodules.specs.Blocks as spec;
ghost use Rattle.vmodules.specs.Inner.{words_told, optional_ports, optional_heads, listed_words, port_trees, head_names, setting_names, declared_words, instance_words, head_named, HoldSame, IsTold};

use crate::letters::letters;
use crate::names::{Doubled, Names};
use basis::{NoMemory, OrMemory};
use std::alloc::Global;
use vast::module::{Declared, HeadParameter, Instance, ModuleItem, ModuleTree, Port, Setting};
use vast::statement::{Branch, Statement};
use vast::token::Token;
use vlex::Tokens;

// ---- what has a name besides blocks

fn add_settings(
    tokens: &Tokens<'_>,
    settings: &[Setting],
    into: &mut Vec<Token>,
) -> Result<(), NoMemory>
    ensures { OnOk result (words_told (words_of tokens.now) into.new.items ≡
        words_told (words_of tokens.now) into.old.items
        ++ setting_names (words_of tokens.now) settings.now) }
{
    for setting in settings {
        into.push(setting.name)?;
    }
    Ok(())
}

fn add_declared(
    tokens: &Tokens<'_>,
    list: &[Declared],
    into: &mut Vec<Token>,
) -> Result<(), NoMemory>
    ensures { OnOk result (words_told (words_of tokens.now) into.new.items ≡
        words_told (words_of tokens.now) into.old.items
        ++ declared_words (words_of tokens.now) list.now) }
{
    for one in list {
        into.push(one.name)?;
    }
    Ok(())
}

fn add_instances(
    tokens: &Tokens<'_>,
    list: &[Instance],
    into: &mut Vec<Token>,
) -> Result<(), NoMemory>
    ensures { OnOk result (words_told (words_of tokens.now) into.new.items ≡
        words_told (words_of tokens.now) into.old.items
        ++ instance_words (words_of tokens.now) list.now) }
{
    for one in list {
        into.push(one.name)?;
    }
    Ok(())
}

// Adds a name.
fn add_name(tokens: &Tokens<'_>, name: &Token, into: &mut Vec<Token>) -> Result<(), NoMemory>
    ensures { OnOk result (words_told (words_of tokens.now) into.new.items ≡
        words_told (words_of tokens.now) into.old.items
        ++ word_of (words_of tokens.now) name.now ∷ []) }
{
    into.push(*name)?;
    Ok(())
}

fn add_events(tokens: &Tokens<'_>, names: &[Token], into: &mut Vec<Token>) -> Result<(), NoMemory>
    ensures { OnOk result (words_told (words_of tokens.now) into.new.items ≡
        words_told (words_of tokens.now) into.old.items
        ++ words_told (words_of tokens.now) names.now) }
{
    into.extend_from_slice(names)?;
    Ok(())
}

fn add_item(tokens: &Tokens<'_>, item: &ModuleItem, into: &mut Vec<Token>) -> Result<(), NoMemory>
    ensures { OnOk result (words_told (words_of tokens.now) into.new.items ≡
        words_told (words_of tokens.now) into.old.items
        ++ spec.named_by (item_tree (words_of tokens.now) item.now)) }
{
    match item {
        ModuleItem::Parameters { settings, .. } => add_settings(tokens, settings, into),
        ModuleItem::Declaration { declared, .. } => add_declared(tokens, declared, into),
        ModuleItem::Events { names, .. } => add_events(tokens, names, into),
        ModuleItem::Assignments { .. } => Ok(()),
        ModuleItem::Initial { .. } => Ok(()),
        ModuleItem::Always { .. } => Ok(()),
        ModuleItem::Instances { instances, .. } => add_instances(tokens, instances, into),
    }
}

fn add_items(
    tokens: &Tokens<'_>,
    items: &[ModuleItem],
    into: &mut Vec<Token>,
) -> Result<(), NoMemory>
    ensures { OnOk result (words_told (words_of tokens.now) into.new.items ≡
        words_told (words_of tokens.now) into.old.items
        ++ flat_map spec.named_by (map (item_tree (words_of tokens.now)) items.now)) }
{
    for item in items {
        add_item(tokens, item, into)?;
    }
    Ok(())
}

fn add_heads(
    tokens: &Tokens<'_>,
    list: &[HeadParameter],
    into: &mut Vec<Token>,
) -> Result<(), NoMemory>
    ensures { OnOk result (words_told (words_of tokens.now) into.new.items ≡
        words_told (words_of tokens.now) into.old.items
        ++ head_names (words_of tokens.now) list.now) }
{
    for head in list {
        into.push(head.setting.name)?;
    }
    Ok(())
}

fn add_ports(tokens: &Tokens<'_>, list: &[Port], into: &mut Vec<Token>) -> Result<(), NoMemory>
    ensures { OnOk result (words_told (words_of tokens.now) into.new.items ≡
        words_told (words_of tokens.now) into.old.items
        ++ listed_words (port_trees (words_of tokens.now) list.now)) }
{
    for port in list {
        into.push(port.name)?;
    }
    Ok(())
}

fn add_optional_heads(
    tokens: &Tokens<'_>,
    heads: &Option<Vec<HeadParameter>>,
    into: &mut Vec<Token>,
) -> Result<(), NoMemory>
    ensures { OnOk result (words_told (words_of tokens.now) into.new.items ≡
        words_told (words_of tokens.now) into.old.items
        ++ spec.heads_named (optional_heads (words_of tokens.now) heads.now)) }
{
    match heads {
        None => Ok(()),
        Some(list) => add_heads(tokens, list, into),
    }
}

fn add_optional_ports(
    tokens: &Tokens<'_>,
    ports: &Option<Vec<Port>>,
    into: &mut Vec<Token>,
) -> Result<(), NoMemory>
    ensures { OnOk result (words_told (words_of tokens.now) into.new.items ≡
        words_told (words_of tokens.now) into.old.items
        ++ listed_names (optional_ports (words_of tokens.now) ports.now)) }
{
    match ports {
        None => Ok(()),
        Some(list) => add_ports(tokens, list, into),
    }
}

// Adds what the head of a module names.
fn add_head(tokens: &Tokens<'_>, unit: &ModuleTree, into: &mut Vec<Token>) -> Result<(), NoMemory>
    ensures { OnOk result (words_told (words_of tokens.now) into.new.items ≡
        words_told (words_of tokens.now) into.old.items
        ++ head_named (words_of tokens.now) unit.now) }
{
    add_optional_heads(tokens, &unit.parameters, into)?;
    add_optional_ports(tokens, &unit.ports, into)
}

fn add_unit(tokens: &Tokens<'_>, unit: &ModuleTree, into: &mut Vec<Token>) -> Result<(), NoMemory>
    ensures { OnOk result (words_told (words_of tokens.now) into.new.items ≡
        words_told (words_of tokens.now) into.old.items
        ++ spec.named_in (module_tree (words_of tokens.now) unit.now)) }
{
    add_head(tokens, unit, into)?;
    add_items(tokens, &unit.items, into)
}

// What has a name in a module besides blocks.
fn named_in(alloc: Global, tokens: &Tokens<'_>, unit: &ModuleTree) -> Result<Vec<Token>, NoMemory>
    ensures { IfOk result (λ list. words_told (words_of tokens.now) list.items ≡
        spec.named_in (module_tree (words_of tokens.now) unit.now)) }
{
    let mut list = Vec::new(alloc);
    add_unit(tokens, unit, &mut list)?;
    Ok(list)
}

// ---- blocks

// Adds the names of blocks in the scope of a statement.
#[cycle(statements)]
fn add_blocks(
    tokens: &Tokens<'_>,
    statement: &Statement,
    into: &mut Vec<Token>,
) -> Result<(), NoMemory>
    ensures { OnOk result (words_told (words_of tokens.now) into.new.items ≡
        words_told (words_of tokens.now) into.old.items
        ++ spec.blocks_in (statement_tree (words_of tokens.now) statement.now)) }
{
    match statement {
        Statement::Empty => Ok(()),
        Statement::Block { name, statements } => add_block(tokens, statements, name, into),
        Statement::Assign { .. } => Ok(()),
        Statement::Nonblocking { .. } => Ok(()),
        Statement::Trigger { .. } => Ok(()),
        Statement::If { body, .. } => add_blocks(tokens, body, into),
        Statement::IfElse { body, other, .. } => {
            add_blocks(tokens, body, into)?;
            add_blocks(tokens, other, into)
        }
        Statement::Case { branches, .. } => add_branches(tokens, branches, into),
        Statement::While { body, .. } => add_blocks(tokens, body, into),
        Statement::Repeat { body, .. } => add_blocks(tokens, body, into),
        Statement::Forever { body, .. } => add_blocks(tokens, body, into),
        Statement::For { body, .. } => add_blocks(tokens, body, into),
        Statement::Wait { body, .. } => add_blocks(tokens, body, into),
        Statement::Delayed { body, .. } => add_blocks(tokens, body, into),
        Statement::OnEvent { body, .. } => add_blocks(tokens, body, into),
        Statement::Task { .. } => Ok(()),
    }
}

#[cycle(statements)]
fn add_block(
    tokens: &Tokens<'_>,
    statements: &[Statement],
    name: &Option<Token>,
    into: &mut Vec<Token>,
) -> Result<(), NoMemory>
    ensures { OnOk result (words_told (words_of tokens.now) into.new.items ≡
        words_told (words_of tokens.now) into.old.items
        ++ spec.block_names (option_map (word_of (words_of tokens.now)) name.now)
        (spec.blocks_in_all (statement_trees (words_of tokens.now) statements.now))) }
{
    match name {
        None => add_all(tokens, statements, into),
        Some(name) => add_name(tokens, name, into),
    }
}

#[cycle(statements)]
fn add_all(
    tokens: &Tokens<'_>,
    statements: &[Statement],
    into: &mut Vec<Token>,
) -> Result<(), NoMemory>
    ensures { OnOk result (words_told (words_of tokens.now) into.new.items ≡
        words_told (words_of tokens.now) into.old.items
        ++ spec.blocks_in_all (statement_trees (words_of tokens.now) statements.now)) }
{
    for statement in statements {
        add_blocks(tokens, statement, into)?;
    }
    Ok(())
}

#[cycle(statements)]
fn add_branch(tokens: &Tokens<'_>, branch: &Branch, into: &mut Vec<Token>) -> Result<(), NoMemory>
    ensures { OnOk result (words_told (words_of tokens.now) into.new.items ≡
        words_told (words_of tokens.now) into.old.items
        ++ spec.blocks_in_branch (branch_tree (words_of tokens.now) branch.now)) }
{
    match branch {
        Branch::Labelled { body, .. } => add_blocks(tokens, body, into),
        Branch::Default { body, .. } => add_blocks(tokens, body, into),
    }
}

#[cycle(statements)]
fn add_branches(
    tokens: &Tokens<'_>,
    branches: &[Branch],
    into: &mut Vec<Token>,
) -> Result<(), NoMemory>
    ensures { OnOk result (words_told (words_of tokens.now) into.new.items ≡
        words_told (words_of tokens.now) into.old.items
        ++ spec.blocks_in_branches (branch_trees (words_of tokens.now) branches.now)) }
{
    for branch in branches {
        add_branch(tokens, branch, into)?;
    }
    Ok(())
}

// Adds the names of the blocks of an item.
fn add_item_blocks(
    tokens: &Tokens<'_>,
    item: &ModuleItem,
    into: &mut Vec<Token>,
) -> Result<(), NoMemory>
    ensures { OnOk result (words_told (words_of tokens.now) into.new.items ≡
        words_told (words_of tokens.now) into.old.items
        ++ spec.blocks_by (item_tree (words_of tokens.now) item.now)) }
{
    match item {
        ModuleItem::Parameters { .. } => Ok(()),
        ModuleItem::Declaration { .. } => Ok(()),
        ModuleItem::Events { .. } => Ok(()),
        ModuleItem::Assignments { .. } => Ok(()),
        ModuleItem::Initial { statement, .. } => add_blocks(tokens, statement, into),
        ModuleItem::Always { statement, .. } => add_blocks(tokens, statement, into),
        ModuleItem::Instances { .. } => Ok(()),
    }
}

// The names of the blocks of items.
fn blocks_of(
    alloc: Global,
    tokens: &Tokens<'_>,
    items: &[ModuleItem],
) -> Result<Vec<Token>, NoMemory>
    ensures { IfOk result (λ list. words_told (words_of tokens.now) list.items ≡
        flat_map spec.blocks_by (map (item_tree (words_of tokens.now)) items.now)) }
{
    let mut list = Vec::new(alloc);
    for item in items {
        add_item_blocks(tokens, item, &mut list)?;
    }
    Ok(list)
}

// ---- a name that stands again

// Adds the name of this token, where it is new.
fn note<'t>(tokens: &Tokens<'t>, token: &Token, into: &mut Names<'t>) -> Result<(), NoMemory>
    ensures { OnOk result (HoldSame into.new (into.old
        ++ (word_of (words_of tokens.now) token.now).letters ∷ [])) }
{
    into.add(letters(tokens, *token))?;
    Ok(())
}

// The names of these tokens.
fn names_of<'t>(alloc: Global, tokens: &Tokens<'t>, list: &[Token]) -> Result<Names<'t>, NoMemory>
    ensures { IfOk result (λ names.
        HoldSame names (letters_of (words_told (words_of tokens.now) list.now))) }
{
    let mut names = Names::new(alloc);
    for token in list {
        note(tokens, token, &mut names)?;
    }
    Ok(names)
}

// Adds a new name, that of this token, after the others.
fn add_token<'t>(
    tokens: &Tokens<'t>,
    token: &Token,
    into: &mut Names<'t>,
) -> Result<(), OrMemory<Doubled>>
    ensures added { OnOk result
        (into.new ≡ into.old ++ (word_of (words_of tokens.now) token.now).letters ∷ []) }
    ensures fresh { OnOk result (is_declared into.old
        (word_of (words_of tokens.now) token.now).letters ≡ false) }
    ensures err { IfFault result (λ doubled. (is_declared into.old
        (word_of (words_of tokens.now) token.now).letters ≡ true)
        × (doubled.at ≡ token.now.number)) }
{
    into.add_new(letters(tokens, *token), token.number)
}

// None of these names stands among the others, or twice.
fn check_new<'t>(
    tokens: &Tokens<'t>,
    list: &[Token],
    names: &mut Names<'t>,
) -> Result<(), OrMemory<Doubled>>
    ensures none { OnOk result
        (again_behind names.old (words_told (words_of tokens.now) list.now) ≡ None) }
    ensures err { IfFault result (λ doubled.
        IsTold (again_behind names.old (words_told (words_of tokens.now) list.now)) doubled.at) }
{
    for token in list {
        add_token(tokens, token, names)?;
    }
    Ok(())
}

/// The names of the blocks of a module: the first that stands again is refused.
pub fn check_blocks(
    alloc: Global,
    tokens: &Tokens<'_>,
    unit: &ModuleTree,
) -> Result<(), OrMemory<Doubled>>
    ensures none { OnOk result
        (spec.doubled_block (module_tree (words_of tokens.now) unit.now) ≡ None) }
    ensures err { IfFault result (λ doubled. IsTold
        (spec.doubled_block (module_tree (words_of tokens.now) unit.now)) doubled.at) }
{
    let named = named_in(alloc, tokens, unit)?;
    let blocks = blocks_of(alloc, tokens, &unit.items)?;
    let mut names = names_of(alloc, tokens, &named)?;
    check_new(tokens, &blocks, &mut names)
}
