// What is wrong with the ports that items declare (IEEE 1364-2005, 12.3.2, 12.3.3), with values of ports (A.2.1.2), or with the names of blocks
// (9.8.3).

ghost use Rattle.std.specs.Prelude.{◌≡◌, ◌++◌, ◌∷◌, List, [], None, Some, true, false, map, option_map, IfOk, OnOk};
ghost use Rattle.basis.specs.Reasons.{IfFault};
ghost use Rattle.vwords.specs.Words.{Text};
ghost use Rattle.vast.specs.NumberedWords.{word_of};
ghost use Rattle.vast.specs.NumberedTrees.{declaration_kind, declared_tree, direction_tree, item_tree, module_tree, tree_of};
ghost use Rattle.vexpr_parse.specs.Texts.{words_of};
ghost use Rattle.vmodules.specs.Names.{is_declared, first_again, letters_of};
ghost use Rattle.vmodules.specs.Ports.{listed_names};
ghost use Rattle.vmodules.specs.Misdeclared as spec;
ghost use Rattle.vmodules.specs.Inner.{units_tree, port_trees, direction_of as way_of, optional_ports, words_told, told_as, listed_words, plain_words as plain_told, again_told, first_not, all_in, stray_told, strays_told, unlisted_told, seconds_told, besides_told, items_told, listed_valued, declared_valued, optional_valued, items_valued, values_told, IsFlaw, IsTold, blocks_told};

use crate::blocks::check_blocks;
use crate::hierarchy::Modules;
use crate::letters::letters;
use crate::names::{Doubled, Names};
use crate::ports::{direction_of, is_plain};
use basis::{NoMemory, OrMemory};
use std::alloc::Global;
use vast::expression::Expression;
use vast::module::{DeclarationKind, Declared, Direction, ModuleItem, ModuleTree, NetKind, Port};
use vast::token::Token;
use vlex::Tokens;

/// What is wrong with a port, or with the name of a block.
#[derive(Clone, Copy, PartialEq, Eq)]
pub enum PortFlaw {
    /// No item declares it, or the list hasn't its name.
    Undeclared,
    /// It is declared already.
    Doubled,
    /// It is an input, and a variable.
    Input,
    /// It has a value, and is no variable that is an output.
    Valued,
}

/// What is wrong, and the number of the token where that shows.
#[derive(Clone, Copy, PartialEq, Eq)]
pub struct Misdeclared {
    pub flaw: PortFlaw,
    pub at: u32,
}

/// As what an item declares names.
#[derive(Clone, Copy, PartialEq, Eq)]
pub enum Declaring {
    Ports,
    /// Ports whose net or variable a word says.
    WholePorts,
    Inputs,
    /// Nets or variables.
    Seconds,
    /// Variables.
    Registers,
}

fn is_whole(direction: &Direction) -> bool
    ensures { (words : List Text) →
        result ≡ spec.is_whole (direction_tree words direction.now) }
{
    match direction {
        Direction::Input { wire, .. } => *wire,
        Direction::Output { net, .. } => net.is_some(),
        Direction::OutputInteger { .. } => true,
    }
}

fn is_input(direction: &Direction) -> bool
    ensures { (words : List Text) →
        result ≡ spec.is_input (direction_tree words direction.now) }
{
    match direction {
        Direction::Input { .. } => true,
        Direction::Output { .. } => false,
        Direction::OutputInteger { .. } => false,
    }
}

fn is_reg(net: NetKind) -> bool
    ensures { result ≡ spec.is_reg net }
{
    match net {
        NetKind::Wire => false,
        NetKind::Reg => true,
    }
}

fn directs(declaring: Declaring, direction: &Direction) -> bool
    ensures { (words : List Text) →
        result ≡ spec.directs declaring (direction_tree words direction.now) }
{
    match declaring {
        Declaring::Ports => true,
        Declaring::WholePorts => is_whole(direction),
        Declaring::Inputs => is_input(direction),
        Declaring::Seconds => false,
        Declaring::Registers => false,
    }
}

fn holds(declaring: Declaring, net: NetKind) -> bool
    ensures { result ≡ spec.holds declaring net }
{
    match declaring {
        Declaring::Ports => false,
        Declaring::WholePorts => false,
        Declaring::Inputs => false,
        Declaring::Seconds => true,
        Declaring::Registers => is_reg(net),
    }
}

fn declares_as(declaring: Declaring, kind: &DeclarationKind) -> bool
    ensures { (words : List Text) →
        result ≡ spec.declares_as declaring (declaration_kind words kind.now) }
{
    match kind {
        DeclarationKind::Variables { net, .. } => holds(declaring, *net),
        DeclarationKind::Integers { .. } => false,
        DeclarationKind::Directed { direction } => directs(declaring, direction),
    }
}

// Adds names that are declared together.
fn add_names(list: &[Declared], into: &mut Vec<Token>) -> Result<(), NoMemory>
    ensures { OnOk result ((words : List Text) → words_told words into.new.items ≡
        words_told words into.old.items ++ map (λ one. one.name) (map (declared_tree words) list.now)) }
{
    for one in list {
        into.push(one.name)?;
    }
    Ok(())
}

// Adds the names that an item declares so.
fn add_item(declaring: Declaring, item: &ModuleItem, into: &mut Vec<Token>) -> Result<(), NoMemory>
    ensures { OnOk result ((words : List Text) → words_told words into.new.items ≡
        words_told words into.old.items ++ spec.words_by declaring (item_tree words item.now)) }
{
    match item {
        ModuleItem::Parameters { .. } => Ok(()),
        ModuleItem::Declaration { kind, declared, .. } => {
            if declares_as(declaring, kind) {
                add_names(declared, into)
            } else {
                Ok(())
            }
        }
        ModuleItem::Events { .. } => Ok(()),
        ModuleItem::Assignments { .. } => Ok(()),
        ModuleItem::Initial { .. } => Ok(()),
        ModuleItem::Always { .. } => Ok(()),
        ModuleItem::Instances { .. } => Ok(()),
    }
}

// The names that items declare so.
fn words_as(
    alloc: Global,
    declaring: Declaring,
    items: &[ModuleItem],
) -> Result<Vec<Token>, NoMemory>
    ensures { IfOk result (λ list. (words : List Text) → words_told words list.items ≡
        told_as words declaring items.now) }
{
    let mut list = Vec::new(alloc);
    for item in items {
        add_item(declaring, item, &mut list)?;
    }
    Ok(list)
}

// The names of ports.
fn port_words(alloc: Global, list: &[Port]) -> Result<Vec<Token>, NoMemory>
    ensures { IfOk result (λ list_of. (words : List Text) → words_told words list_of.items ≡
        listed_words (port_trees words list.now)) }
{
    let mut names = Vec::new(alloc);
    for port in list {
        names.push(port.name)?;
    }
    Ok(names)
}

// The names of a list of names alone.
fn plain_words(alloc: Global, ports: &Option<Vec<Port>>) -> Result<Vec<Token>, NoMemory>
    ensures { IfOk result (λ names. (words : List Text) → words_told words names.items ≡
        plain_told words ports.now) }
{
    match ports {
        None => Ok(Vec::new(alloc)),
        Some(list) => {
            if is_plain(list) {
                port_words(alloc, list)
            } else {
                Ok(Vec::new(alloc))
            }
        }
    }
}

// The name stands among those of ports.
fn is_listed(tokens: &Tokens<'_>, list: &[Port], name: &[u8]) -> bool
    ensures { result ≡ is_declared
        (letters_of (listed_words (port_trees (words_of tokens.now) list.now))) name.now }
{
    for port in list {
        if name == letters(tokens, port.name) {
            return true;
        }
    }
    false
}

fn is_port(tokens: &Tokens<'_>, ports: &Option<Vec<Port>>, name: &[u8]) -> bool
    ensures { result ≡ is_declared (letters_of
        (listed_names (optional_ports (words_of tokens.now) ports.now))) name.now }
{
    match ports {
        None => false,
        Some(list) => is_listed(tokens, list, name),
    }
}

// Adds a new name, that of this token, after the others.
fn add_token<'t>(
    tokens: &Tokens<'t>,
    token: &Token,
    into: &mut Names<'t>,
) -> Result<(), OrMemory<Doubled>>
    ensures added { OnOk result
        (into.new ≡ into.old ++ (word_of (words_of tokens.now) token.now).letters ∷ []) }
    ensures fresh { OnOk result (is_declared into.old
        (word_of (words_of tokens.now) token.now).letters ≡ false) }
    ensures err { IfFault result (λ doubled. (is_declared into.old
        (word_of (words_of tokens.now) token.now).letters ≡ true)
        × (doubled.at ≡ token.now.number)) }
{
    into.add_new(letters(tokens, *token), token.number)
}

// These names, no two alike.
fn once<'t>(
    alloc: Global,
    tokens: &Tokens<'t>,
    list: &[Token],
) -> Result<Names<'t>, OrMemory<Doubled>>
    ensures ok { IfOk result (λ names.
        names ≡ letters_of (words_told (words_of tokens.now) list.now)) }
    ensures once { OnOk result
        (first_again (words_told (words_of tokens.now) list.now) ≡ None) }
    ensures err { IfFault result (λ doubled.
        IsTold (first_again (words_told (words_of tokens.now) list.now)) doubled.at) }
{
    let mut names = Names::new(alloc);
    for token in list {
        add_token(tokens, token, &mut names)?;
    }
    Ok(names)
}

// The same, where a name that stands again is this flaw.
fn once_or<'t>(
    alloc: Global,
    tokens: &Tokens<'t>,
    flaw: PortFlaw,
    list: &[Token],
) -> Result<Names<'t>, OrMemory<Misdeclared>>
    ensures ok { IfOk result (λ names.
        names ≡ letters_of (words_told (words_of tokens.now) list.now)) }
    ensures none { OnOk result (again_told (words_of tokens.now) flaw list.now ≡ None) }
    ensures err { IfFault result (IsFlaw (again_told (words_of tokens.now) flaw list.now)) }
{
    match once(alloc, tokens, list) {
        Ok(names) => Ok(names),
        Err(OrMemory::Memory(none)) => Err(OrMemory::Memory(none)),
        Err(OrMemory::Fault(doubled)) => Err(OrMemory::Fault(Misdeclared {
            flaw,
            at: doubled.at,
        })),
    }
}

// The first that isn't among these names.
fn first_outside(tokens: &Tokens<'_>, names: &Names<'_>, list: &[Token]) -> Option<Token>
    ensures { option_map (word_of (words_of tokens.now)) result ≡
        first_not names.now (words_told (words_of tokens.now) list.now) }
{
    for token in list {
        if names.place(letters(tokens, *token)).is_none() {
            return Some(*token);
        }
    }
    None
}

// Adds those that are among these names.
fn add_among(
    tokens: &Tokens<'_>,
    names: &Names<'_>,
    list: &[Token],
    into: &mut Vec<Token>,
) -> Result<(), NoMemory>
    ensures { OnOk result (words_told (words_of tokens.now) into.new.items ≡
        words_told (words_of tokens.now) into.old.items
        ++ all_in names.now (words_told (words_of tokens.now) list.now)) }
{
    for token in list {
        if names.place(letters(tokens, *token)).is_some() {
            into.push(*token)?;
        }
    }
    Ok(())
}

// What is wrong with a name that the list hasn't.
fn stray(tokens: &Tokens<'_>, ports: &Option<Vec<Port>>, token: Token) -> Misdeclared
    ensures { IsFlaw (stray_told (words_of tokens.now) ports.now token) result }
{
    if is_port(tokens, ports, letters(tokens, token)) {
        Misdeclared {
            flaw: PortFlaw::Doubled,
            at: token.number,
        }
    } else {
        Misdeclared {
            flaw: PortFlaw::Undeclared,
            at: token.number,
        }
    }
}

// Each of these names, which items declare, is one of the list.
fn check_strays(
    tokens: &Tokens<'_>,
    names: &Names<'_>,
    ports: &Option<Vec<Port>>,
    list: &[Token],
) -> Result<(), OrMemory<Misdeclared>>
    ensures ok { OnOk result
        (strays_told (words_of tokens.now) names.now ports.now list.now ≡ None) }
    ensures err { IfFault result
        (IsFlaw (strays_told (words_of tokens.now) names.now ports.now list.now)) }
{
    match first_outside(tokens, names, list) {
        None => Ok(()),
        Some(token) => Err(OrMemory::Fault(stray(tokens, ports, token))),
    }
}

// Each name of the list is one of these.
fn check_listed(
    tokens: &Tokens<'_>,
    names: &Names<'_>,
    list: &[Token],
) -> Result<(), OrMemory<Misdeclared>>
    ensures ok { OnOk result (unlisted_told (words_of tokens.now) names.now list.now ≡ None) }
    ensures err { IfFault result
        (IsFlaw (unlisted_told (words_of tokens.now) names.now list.now)) }
{
    match first_outside(tokens, names, list) {
        None => Ok(()),
        Some(token) => Err(OrMemory::Fault(Misdeclared {
            flaw: PortFlaw::Undeclared,
            at: token.number,
        })),
    }
}

// No name of the list that items declare so is declared so, too.
fn check_seconds(
    alloc: Global,
    tokens: &Tokens<'_>,
    names: &Names<'_>,
    flaw: PortFlaw,
    once: Declaring,
    again: Declaring,
    items: &[ModuleItem],
) -> Result<(), OrMemory<Misdeclared>>
    ensures ok { OnOk result
        (seconds_told (words_of tokens.now) names.now flaw once again items.now ≡ None) }
    ensures err { IfFault result
        (IsFlaw (seconds_told (words_of tokens.now) names.now flaw once again items.now)) }
{
    let mut words = words_as(alloc, once, items)?;
    let others = words_as(alloc, again, items)?;
    add_among(tokens, names, &others, &mut words)?;
    let _names = once_or(alloc, tokens, flaw, &words)?;
    Ok(())
}

// What items declare besides ports of the list.
fn check_again(
    alloc: Global,
    tokens: &Tokens<'_>,
    names: &Names<'_>,
    items: &[ModuleItem],
) -> Result<(), OrMemory<Misdeclared>>
    ensures ok { OnOk result (besides_told (words_of tokens.now) names.now items.now ≡ None) }
    ensures err { IfFault result
        (IsFlaw (besides_told (words_of tokens.now) names.now items.now)) }
{
    check_seconds(
        alloc,
        tokens,
        names,
        PortFlaw::Doubled,
        Declaring::WholePorts,
        Declaring::Seconds,
        items,
    )?;
    check_seconds(
        alloc,
        tokens,
        names,
        PortFlaw::Input,
        Declaring::Inputs,
        Declaring::Registers,
        items,
    )
}

// The names of the list that items declare as ports, each of them once, and nothing else of it amiss.
fn check_items(
    alloc: Global,
    tokens: &Tokens<'_>,
    names: &Names<'_>,
    plain: &[Token],
    unit: &ModuleTree,
) -> Result<(), OrMemory<Misdeclared>>
    ensures ok { OnOk result
        (items_told (words_of tokens.now) names.now plain.now unit.now ≡ None) }
    ensures err { IfFault result
        (IsFlaw (items_told (words_of tokens.now) names.now plain.now unit.now)) }
{
    let ports = words_as(alloc, Declaring::Ports, &unit.items)?;
    check_strays(tokens, names, &unit.ports, &ports)?;
    let declared = once_or(alloc, tokens, PortFlaw::Doubled, &ports)?;
    check_listed(tokens, &declared, plain)?;
    check_again(alloc, tokens, names, &unit.items)
}

// The ports of one module.
fn check_module_ports(
    alloc: Global,
    tokens: &Tokens<'_>,
    unit: &ModuleTree,
) -> Result<(), OrMemory<Misdeclared>>
    ensures ok { OnOk result
        (spec.port_flaw (module_tree (words_of tokens.now) unit.now) ≡ None) }
    ensures err { IfFault result
        (IsFlaw (spec.port_flaw (module_tree (words_of tokens.now) unit.now))) }
{
    let plain = plain_words(alloc, &unit.ports)?;
    let names = once_or(alloc, tokens, PortFlaw::Doubled, &plain)?;
    check_items(alloc, tokens, &names, &plain, unit)
}

// ---- values of ports

// An output that is a variable.
fn is_variable(direction: &Direction) -> bool
    ensures { (words : List Text) →
        result ≡ spec.is_variable (direction_tree words direction.now) }
{
    match direction {
        Direction::Input { .. } => false,
        Direction::Output { net, .. } => match net {
            None => false,
            Some(word) => is_reg(*word),
        },
        Direction::OutputInteger { .. } => true,
    }
}

// The name of a port that goes this way, where it has a value that it may not have.
fn valued_net(
    direction: Option<&Direction>,
    name: Token,
    value: &Option<Box<Expression>>,
) -> Option<Token>
    ensures { (words : List Text) → option_map (word_of words) result ≡ spec.valued_net
        (way_of words direction.entry) (word_of words name)
        (option_map (λ value. tree_of words value.value) value.now) }
{
    match value {
        None => None,
        Some(_) => match direction {
            None => Some(name),
            Some(direction) => {
                if is_variable(direction) {
                    None
                } else {
                    Some(name)
                }
            }
        },
    }
}

// The first port of a list that has a value and may have none.
fn first_listed(list: &[Port]) -> Option<Token>
    ensures { (words : List Text) → option_map (word_of words) result ≡
        listed_valued words None list.now }
{
    let mut direction: Option<&Direction> = None;
    for port in list {
        direction = direction_of(port, direction);
        let found = valued_net(direction, port.name, &port.value);
        if found.is_some() {
            return found;
        }
    }
    None
}

// The first port that an item declares so and gives a value that it may not have.
fn first_declared(direction: &Direction, list: &[Declared]) -> Option<Token>
    ensures { (words : List Text) → option_map (word_of words) result ≡
        declared_valued words direction.now list.now }
{
    for one in list {
        let found = valued_net(Some(direction), one.name, &one.value);
        if found.is_some() {
            return found;
        }
    }
    None
}

// The same of an item.
fn first_by(item: &ModuleItem) -> Option<Token>
    ensures { (words : List Text) → option_map (word_of words) result ≡
        spec.valued_by (item_tree words item.now) }
{
    match item {
        ModuleItem::Parameters { .. } => None,
        ModuleItem::Declaration { kind, declared, .. } => match kind {
            DeclarationKind::Variables { .. } => None,
            DeclarationKind::Integers { .. } => None,
            DeclarationKind::Directed { direction } => first_declared(direction, declared),
        },
        ModuleItem::Events { .. } => None,
        ModuleItem::Assignments { .. } => None,
        ModuleItem::Initial { .. } => None,
        ModuleItem::Always { .. } => None,
        ModuleItem::Instances { .. } => None,
    }
}

// The same of items.
fn first_valued(items: &[ModuleItem]) -> Option<Token>
    ensures { (words : List Text) → option_map (word_of words) result ≡
        items_valued words items.now }
{
    for item in items {
        let found = first_by(item);
        if found.is_some() {
            return found;
        }
    }
    None
}

// The same of the ports of a module's list.
fn first_in_list(ports: &Option<Vec<Port>>) -> Option<Token>
    ensures { (words : List Text) → option_map (word_of words) result ≡
        optional_valued words ports.now }
{
    match ports {
        None => None,
        Some(list) => first_listed(list),
    }
}

// The same of a module.
fn first_of(unit: &ModuleTree) -> Option<Token>
    ensures { (words : List Text) → option_map (word_of words) result ≡
        spec.valued_port (module_tree words unit.now) }
{
    match first_in_list(&unit.ports) {
        Some(token) => Some(token),
        None => first_valued(&unit.items),
    }
}

// The values of its ports.
fn check_module_values(tokens: &Tokens<'_>, unit: &ModuleTree) -> Result<(), OrMemory<Misdeclared>>
    ensures ok { OnOk result (values_told (words_of tokens.now) unit.now ≡ None) }
    ensures err { IfFault result (IsFlaw (values_told (words_of tokens.now) unit.now)) }
{
    match first_of(unit) {
        None => Ok(()),
        Some(token) => Err(OrMemory::Fault(Misdeclared {
            flaw: PortFlaw::Valued,
            at: token.number,
        })),
    }
}

// ---- names of blocks, and all of a module

// The names of its blocks.
fn check_module_blocks(
    alloc: Global,
    tokens: &Tokens<'_>,
    unit: &ModuleTree,
) -> Result<(), OrMemory<Misdeclared>>
    ensures ok { OnOk result (blocks_told (words_of tokens.now) unit.now ≡ None) }
    ensures err { IfFault result (IsFlaw (blocks_told (words_of tokens.now) unit.now)) }
{
    match check_blocks(alloc, tokens, unit) {
        Ok(()) => Ok(()),
        Err(OrMemory::Memory(none)) => Err(OrMemory::Memory(none)),
        Err(OrMemory::Fault(doubled)) => Err(OrMemory::Fault(Misdeclared {
            flaw: PortFlaw::Doubled,
            at: doubled.at,
        })),
    }
}

fn check_unit(
    alloc: Global,
    tokens: &Tokens<'_>,
    unit: &ModuleTree,
) -> Result<(), OrMemory<Misdeclared>>
    ensures ok { OnOk result
        (spec.flaw_of (module_tree (words_of tokens.now) unit.now) ≡ None) }
    ensures err { IfFault result
        (IsFlaw (spec.flaw_of (module_tree (words_of tokens.now) unit.now))) }
{
    check_module_ports(alloc, tokens, unit)?;
    check_module_values(tokens, unit)?;
    check_module_blocks(alloc, tokens, unit)
}

/// The ports and the names of blocks of the modules of a text: the first thing that is wrong with them is refused.
pub fn check_names(alloc: Global, modules: &Modules<'_, '_>) -> Result<(), OrMemory<Misdeclared>>
    ensures ok { OnOk result (spec.first_misdeclared (units_tree modules.now) ≡ None) }
    ensures err { IfFault result (IsFlaw (spec.first_misdeclared (units_tree modules.now))) }
{
    let tokens = modules.tokens();
    let list = modules.list();
    for unit in list {
        check_unit(alloc, tokens, unit)?;
    }
    Ok(())
}
