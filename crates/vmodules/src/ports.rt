// The ports of a module, each with its whole direction (IEEE 1364-2005, 12.3.2 to 12.3.4).

ghost use Rattle.std.specs.Prelude.{◌≡◌, ◌++◌, List, [], map, None, option_map, unwrap_or, IfOk, OnOk};
ghost use Rattle.std.specs.Option.{option_or};
ghost use Rattle.vwords.specs.Words.{Text};
ghost use Rattle.vast.specs.NumberedWords.{word_of};
ghost use Rattle.vast.specs.NumberedTrees.{declaration_kind, declared_tree, direction_tree, item_tree, module_tree, port_tree, type_tree};
ghost use Rattle.vexpr_parse.specs.Texts.{words_of};
ghost use Rattle.vmodules.specs.Ports as spec;
ghost use Rattle.vmodules.specs.Ports.{port_by, ports_behind};
ghost use Rattle.vmodules.specs.Inner.{port_form, direction_of, second_form, ports_as, port_trees, listed_words, alone_words, type_for, HoldSame};
ghost use Rattle.vmodules.specs.Names.{letters_of};

use crate::letters::letters;
use crate::names::Names;
use basis::NoMemory;
use std::alloc::Global;
use vast::module::{
    DeclarationKind, Declared, Direction, ModuleItem, ModuleTree, NetKind, Port, SignAndRange,
};
use vast::token::Token;
use vlex::Tokens;

/// What a port is (IEEE 1364-2005, 12.3.3): a net, or one of three kinds of variables (4.2, 4.8).
#[derive(Clone, Copy)]
pub enum PortKind {
    /// `wire`
    Wire,
    /// `reg`
    Reg,
    /// `integer`
    Integer,
    /// `time`
    Time,
}

/// A net or a variable that an item declares besides a port of its name (12.3.3).
#[derive(Clone, Copy)]
pub struct SecondForm<'u> {
    pub name: Token,
    pub net: NetKind,
    pub sign_and_range: &'u SignAndRange,
}

/// A port: its name, which way it goes, what it is, its sign and range where they are written, and as what an item declares it again.
#[derive(Clone, Copy)]
pub struct PortForm<'u> {
    pub name: Token,
    pub output: bool,
    pub kind: PortKind,
    pub sign_and_range: Option<&'u SignAndRange>,
    pub again: Option<SecondForm<'u>>,
}

// Which way a port goes: as it says, or as the one before it.
pub(crate) fn direction_of<'u>(
    port: &'u Port,
    before: Option<&'u Direction>,
) -> Option<&'u Direction>
    ensures { (words : List Text) → direction_of words result ≡
        option_or (port_tree words port.now).direction (direction_of words before.entry) }
{
    match &port.direction {
        Some(direction) => Some(direction),
        None => before,
    }
}

// `wire`, where no word says what holds the value of an output.
fn net_of(net: Option<NetKind>) -> NetKind
    ensures { result ≡ unwrap_or net NetKind.Wire }
{
    match net {
        None => NetKind::Wire,
        Some(net) => net,
    }
}

// A net or a `reg`, as a port (4.2.1, 4.2.2).
fn kind_of(net: NetKind) -> PortKind
    ensures { result ≡ spec.kind_of net }
{
    match net {
        NetKind::Wire => PortKind::Wire,
        NetKind::Reg => PortKind::Reg,
    }
}

// An `integer`, or where it is the longer one a `time` (4.8).
fn integer_kind(long: bool) -> PortKind
    ensures { result ≡ spec.integer_kind long }
{
    if long {
        PortKind::Time
    } else {
        PortKind::Integer
    }
}

/// The type that stands with a direction: `integer` and `time` have no sign and no range that are written.
pub fn type_in(direction: &Direction) -> Option<&SignAndRange>
    ensures { (words : List Text) → type_for words result ≡
        spec.type_in (direction_tree words direction.now) }
{
    match direction {
        Direction::Input { kind, .. } => Some(kind),
        Direction::Output { kind, .. } => Some(kind),
        Direction::OutputInteger { .. } => None,
    }
}

// A port that goes this way.
fn form_by<'u>(direction: Option<&'u Direction>, name: Token) -> PortForm<'u>
    ensures form { (words : List Text) → port_form words result ≡
        port_by (direction_of words direction.entry) (word_of words name) }
    ensures once { result.again ≡ None }
{
    match direction {
        None => PortForm {
            name,
            output: false,
            kind: PortKind::Wire,
            sign_and_range: None,
            again: None,
        },
        Some(Direction::Input { kind, .. }) => PortForm {
            name,
            output: false,
            kind: PortKind::Wire,
            sign_and_range: Some(kind),
            again: None,
        },
        Some(Direction::Output { net, kind }) => PortForm {
            name,
            output: true,
            kind: kind_of(net_of(*net)),
            sign_and_range: Some(kind),
            again: None,
        },
        Some(Direction::OutputInteger { long }) => PortForm {
            name,
            output: true,
            kind: integer_kind(*long),
            sign_and_range: None,
            again: None,
        },
    }
}

// The ports of a list with directions.
fn ports_of_list<'u>(alloc: Global, list: &'u [Port]) -> Result<Vec<PortForm<'u>>, NoMemory>
    ensures { IfOk result (λ forms. (words : List Text) →
        map (port_form words) forms.items ≡ ports_behind None (map (port_tree words) list.now)) }
{
    let mut forms = Vec::new(alloc);
    let mut direction: Option<&'u Direction> = None;
    for port in list {
        direction = direction_of(port, direction);
        forms.push(form_by(direction, port.name))?;
    }
    Ok(forms)
}

// Whether the name is among those that are declared together.
fn declares(tokens: &Tokens<'_>, list: &[Declared], name: &[u8]) -> bool
    ensures { result ≡ spec.declares (map (declared_tree (words_of tokens.now)) list.now) name.now }
{
    for one in list {
        if letters(tokens, one.name) == name {
            return true;
        }
    }
    false
}

// Which way ports go that are declared so.
fn direction_as<'u>(kind: &'u DeclarationKind) -> Option<&'u Direction>
    ensures { (words : List Text) →
        direction_of words result ≡ spec.direction_as (declaration_kind words kind.now) }
{
    match kind {
        DeclarationKind::Variables { .. } => None,
        DeclarationKind::Integers { .. } => None,
        DeclarationKind::Directed { direction } => Some(direction),
    }
}

// Which way an item says that a port of this name goes.
fn direction_by<'u>(tokens: &Tokens<'_>, item: &'u ModuleItem, name: &[u8]) -> Option<&'u Direction>
    ensures { direction_of (words_of tokens.now) result ≡
        spec.direction_by (item_tree (words_of tokens.now) item.now) name.now }
{
    match item {
        ModuleItem::Parameters { .. } => None,
        ModuleItem::Declaration { kind, declared, .. } => {
            if declares(tokens, declared, name) {
                direction_as(kind)
            } else {
                None
            }
        }
        ModuleItem::Events { .. } => None,
        ModuleItem::Assignments { .. } => None,
        ModuleItem::Initial { .. } => None,
        ModuleItem::Always { .. } => None,
        ModuleItem::Instances { .. } => None,
    }
}

// Which way items say that it goes.
fn direction_for<'u>(
    tokens: &Tokens<'_>,
    items: &'u [ModuleItem],
    name: &[u8],
) -> Option<&'u Direction>
    ensures { direction_of (words_of tokens.now) result ≡
        spec.direction_for (map (item_tree (words_of tokens.now)) items.now) name.now }
{
    for item in items {
        let found = direction_by(tokens, item, name);
        if found.is_some() {
            return found;
        }
    }
    None
}

// As what net or variable this name stands among those that are declared together.
fn second_by_name<'u>(
    tokens: &Tokens<'_>,
    net: NetKind,
    kind: &'u SignAndRange,
    list: &[Declared],
    name: &[u8],
) -> Option<SecondForm<'u>>
    ensures { option_map (second_form (words_of tokens.now)) result ≡ spec.second_named net
        (type_tree (words_of tokens.now) kind.now)
        (map (declared_tree (words_of tokens.now)) list.now) name.now }
{
    for one in list {
        if letters(tokens, one.name) == name {
            return Some(SecondForm {
                name: one.name,
                net,
                sign_and_range: kind,
            });
        }
    }
    None
}

fn second_as<'u>(
    tokens: &Tokens<'_>,
    kind: &'u DeclarationKind,
    list: &[Declared],
    name: &[u8],
) -> Option<SecondForm<'u>>
    ensures { option_map (second_form (words_of tokens.now)) result ≡ spec.second_as
        (declaration_kind (words_of tokens.now) kind.now)
        (map (declared_tree (words_of tokens.now)) list.now) name.now }
{
    match kind {
        DeclarationKind::Variables { net, kind } => second_by_name(tokens, *net, kind, list, name),
        DeclarationKind::Integers { .. } => None,
        DeclarationKind::Directed { .. } => None,
    }
}

// As what net or variable an item declares this name.
fn second_by<'u>(tokens: &Tokens<'_>, item: &'u ModuleItem, name: &[u8]) -> Option<SecondForm<'u>>
    ensures { option_map (second_form (words_of tokens.now)) result ≡
        spec.second_by (item_tree (words_of tokens.now) item.now) name.now }
{
    match item {
        ModuleItem::Parameters { .. } => None,
        ModuleItem::Declaration { kind, declared, .. } => second_as(tokens, kind, declared, name),
        ModuleItem::Events { .. } => None,
        ModuleItem::Assignments { .. } => None,
        ModuleItem::Initial { .. } => None,
        ModuleItem::Always { .. } => None,
        ModuleItem::Instances { .. } => None,
    }
}

// As what net or variable items declare it.
fn second_for<'u>(
    tokens: &Tokens<'_>,
    items: &'u [ModuleItem],
    name: &[u8],
) -> Option<SecondForm<'u>>
    ensures { option_map (second_form (words_of tokens.now)) result ≡
        spec.second_for (map (item_tree (words_of tokens.now)) items.now) name.now }
{
    for item in items {
        let found = second_by(tokens, item, name);
        if found.is_some() {
            return found;
        }
    }
    None
}

// What a port is that may be declared again.
fn kind_with(kind: PortKind, again: Option<SecondForm<'_>>) -> PortKind
    ensures { (words : List Text) →
        result ≡ spec.kind_with kind (option_map (second_form words) again.entry) }
{
    match again {
        None => kind,
        Some(second) => match kind {
            PortKind::Wire => kind_of(second.net),
            PortKind::Reg => kind_of(second.net),
            PortKind::Integer => PortKind::Integer,
            PortKind::Time => PortKind::Time,
        },
    }
}

// A port that may be declared again.
fn with_second<'u>(form: PortForm<'u>, again: Option<SecondForm<'u>>) -> PortForm<'u>
    requires { form.again ≡ None }
    ensures { (words : List Text) → port_form words result ≡
        spec.with_second (port_form words form.entry) (option_map (second_form words) again.entry) }
{
    PortForm {
        name: form.name,
        output: form.output,
        kind: kind_with(form.kind, again),
        sign_and_range: form.sign_and_range,
        again,
    }
}

// A port that items declare.
fn declared_port<'u>(tokens: &Tokens<'_>, items: &'u [ModuleItem], name: Token) -> PortForm<'u>
    ensures { port_form (words_of tokens.now) result ≡ spec.declared_port
        (map (item_tree (words_of tokens.now)) items.now) (word_of (words_of tokens.now) name) }
{
    let text = letters(tokens, name);
    let form = form_by(direction_for(tokens, items, text), name);
    with_second(form, second_for(tokens, items, text))
}

// The ports of a list of names alone.
fn ports_of_names<'u>(
    alloc: Global,
    tokens: &Tokens<'_>,
    items: &'u [ModuleItem],
    list: &[Port],
) -> Result<Vec<PortForm<'u>>, NoMemory>
    ensures { IfOk result (λ forms. map (port_form (words_of tokens.now)) forms.items ≡
        ports_as (words_of tokens.now) items.now (port_trees (words_of tokens.now) list.now)) }
{
    let mut forms = Vec::new(alloc);
    for port in list {
        forms.push(declared_port(tokens, items, port.name))?;
    }
    Ok(forms)
}

/// Whether a list has names alone.
pub fn is_plain(list: &[Port]) -> bool
    ensures { (words : List Text) → result ≡ spec.is_plain (port_trees words list.now) }
{
    match list.split_first() {
        None => false,
        Some((port, _)) => port.direction.is_none(),
    }
}

// Adds the names of ports.
fn add_names<'t>(tokens: &Tokens<'t>, list: &[Port], into: &mut Names<'t>) -> Result<(), NoMemory>
    ensures { OnOk result (HoldSame into.new (into.old
        ++ letters_of (listed_words (port_trees (words_of tokens.now) list.now)))) }
{
    for port in list {
        into.add(letters(tokens, port.name))?;
    }
    Ok(())
}

// The names of ports, where they are names alone; else none.
fn alone_names<'t>(alloc: Global, tokens: &Tokens<'t>, list: &[Port]) -> Result<Names<'t>, NoMemory>
    ensures { IfOk result (λ names. HoldSame names (letters_of
        (alone_words (port_trees (words_of tokens.now) list.now)))) }
{
    let mut names = Names::new(alloc);
    if !is_plain(list) {
        return Ok(names);
    }
    add_names(tokens, list, &mut names)?;
    Ok(names)
}

/// The names of a list that has names alone; else none.
pub fn plain_names<'t>(
    alloc: Global,
    tokens: &Tokens<'t>,
    unit: &ModuleTree,
) -> Result<Names<'t>, NoMemory>
    ensures { IfOk result (λ names. HoldSame names (letters_of
        (spec.plain_names (module_tree (words_of tokens.now) unit.now).ports))) }
{
    match &unit.ports {
        None => Ok(Names::new(alloc)),
        Some(list) => alone_names(alloc, tokens, list),
    }
}

/// Whether the list of a module has names alone.
pub fn is_plain_list(unit: &ModuleTree) -> bool
    ensures { (words : List Text) →
        result ≡ spec.is_plain_list (module_tree words unit.now).ports }
{
    match &unit.ports {
        None => false,
        Some(list) => is_plain(list),
    }
}

/// The ports of a module in their order.
pub fn ports_of<'u>(
    alloc: Global,
    tokens: &Tokens<'_>,
    unit: &'u ModuleTree,
) -> Result<Vec<PortForm<'u>>, NoMemory>
    ensures { IfOk result (λ forms. map (port_form (words_of tokens.now)) forms.items ≡
        spec.ports_of (module_tree (words_of tokens.now) unit.now)) }
{
    match &unit.ports {
        None => Ok(Vec::new(alloc)),
        Some(list) => {
            if is_plain(list) {
                ports_of_names(alloc, tokens, &unit.items, list)
            } else {
                ports_of_list(alloc, list)
            }
        }
    }
}
