// The names of a module's variables: its ports, and what its items declare (IEEE 1364-2005, 3.7, 4.2, 12.3.3).
ghost use Rattle.std.specs.Prelude.{◌≡◌, ◌∷◌, [], None, false, IfOk, OnOk};
ghost use Rattle.basis.specs.Reasons.{IfFault};
ghost use Rattle.vexpr_parse.specs.Texts.{words_of};
ghost use Rattle.vmodules.specs.Names.{again_behind, first_again, has_double, letters_of};
ghost use Rattle.vmodules.specs.Inner.{own_in, with_words};
ghost use Rattle.velab_declaration.specs.Inner.{declared_in, names_of, names_before, names_declared, own_kind, own_texts, own_tree, port_texts, texts_of, DoublesIn};

use crate::names::note;
use basis::OrMemory;
use std::alloc::Global;
use vast::module::{DeclarationKind, Declared, ModuleItem, ModuleTree};
use velab_expr::fault::ElabFault;
use vlex::Tokens;
use vmodules::letters::letters;
use vmodules::names::Names;
use vmodules::ports::{PortForm, plain_names};

// Names that are declared together.
fn add_all<'t>(
    tokens: &Tokens<'t>,
    list: &[Declared],
    into: &mut Names<'t>,
) -> Result<(), OrMemory<ElabFault>>
    ensures ok { OnOk result (into.new ≡ with_words into.old (texts_of
        (words_of tokens.now) list.now)) }
    ensures right { OnOk result (again_behind into.old (texts_of
        (words_of tokens.now) list.now) ≡ None) }
    ensures err { IfFault result (DoublesIn into.old (texts_of (words_of tokens.now) list.now)) }
{
    for one in list {
        note(into, letters(tokens, one.name), one.name.number)?;
    }
    Ok(())
}

// A name that is declared, save where it is one of these ports.
fn add_one<'t>(
    tokens: &Tokens<'t>,
    made: &Names<'_>,
    one: &Declared,
    into: &mut Names<'t>,
) -> Result<(), OrMemory<ElabFault>>
    ensures ok { OnOk result (into.new ≡ with_words into.old (own_texts
        (words_of tokens.now) made.now (one.now ∷ []))) }
    ensures right { OnOk result (again_behind into.old (own_texts
        (words_of tokens.now) made.now (one.now ∷ [])) ≡ None) }
    ensures err { IfFault result (DoublesIn into.old (own_texts
        (words_of tokens.now) made.now (one.now ∷ []))) }
{
    let text = letters(tokens, one.name);
    if made.place(text).is_some() {
        return Ok(());
    }
    note(into, text, one.name.number)
}

// Names that are declared together, without those of these ports.
fn add_own<'t>(
    tokens: &Tokens<'t>,
    made: &Names<'_>,
    list: &[Declared],
    into: &mut Names<'t>,
) -> Result<(), OrMemory<ElabFault>>
    ensures ok { OnOk result (into.new ≡ with_words into.old (own_texts
        (words_of tokens.now) made.now list.now)) }
    ensures right { OnOk result (again_behind into.old (own_texts
        (words_of tokens.now) made.now list.now) ≡ None) }
    ensures err { IfFault result (DoublesIn into.old (own_texts
        (words_of tokens.now) made.now list.now)) }
{
    for one in list {
        add_one(tokens, made, one, into)?;
    }
    Ok(())
}

// The names of the variables of a declaration.
fn add_kind<'t>(
    tokens: &Tokens<'t>,
    made: &Names<'_>,
    kind: &DeclarationKind,
    list: &[Declared],
    into: &mut Names<'t>,
) -> Result<(), OrMemory<ElabFault>>
    ensures ok { OnOk result (into.new ≡ with_words into.old (names_of (own_kind
        (words_of tokens.now) made.now kind.now list.now))) }
    ensures right { OnOk result (again_behind into.old (names_of (own_kind
        (words_of tokens.now) made.now kind.now list.now)) ≡ None) }
    ensures err { IfFault result (DoublesIn into.old (names_of (own_kind
        (words_of tokens.now) made.now kind.now list.now))) }
{
    match kind {
        DeclarationKind::Variables { .. } => add_own(tokens, made, list, into),
        DeclarationKind::Integers { .. } => add_all(tokens, list, into),
        DeclarationKind::Directed { .. } => Ok(()),
    }
}

// The names of an item's variables.
fn add_item<'t>(
    tokens: &Tokens<'t>,
    made: &Names<'_>,
    item: &ModuleItem,
    into: &mut Names<'t>,
) -> Result<(), OrMemory<ElabFault>>
    ensures ok { OnOk result (into.new ≡ with_words into.old (names_of (own_tree
        (words_of tokens.now) made.now item.now))) }
    ensures right { OnOk result (again_behind into.old (names_of (own_tree
        (words_of tokens.now) made.now item.now)) ≡ None) }
    ensures err { IfFault result (DoublesIn into.old (names_of (own_tree
        (words_of tokens.now) made.now item.now))) }
{
    match item {
        ModuleItem::Declaration { kind, declared, .. } => {
            add_kind(tokens, made, kind, declared, into)
        }
        ModuleItem::Parameters { .. } => Ok(()),
        ModuleItem::Events { .. } => Ok(()),
        ModuleItem::Assignments { .. } => Ok(()),
        ModuleItem::Initial { .. } => Ok(()),
        ModuleItem::Always { .. } => Ok(()),
        ModuleItem::Instances { .. } => Ok(()),
    }
}

// The names of ports.
fn add_ports<'t>(
    tokens: &Tokens<'t>,
    ports: &[PortForm<'_>],
    into: &mut Names<'t>,
) -> Result<(), OrMemory<ElabFault>>
    ensures ok { OnOk result (into.new ≡ with_words into.old (port_texts
        (words_of tokens.now) ports.now)) }
    ensures right { OnOk result (again_behind into.old (port_texts
        (words_of tokens.now) ports.now) ≡ None) }
    ensures err { IfFault result (DoublesIn into.old (port_texts (words_of tokens.now) ports.now)) }
{
    for port in ports {
        note(into, letters(tokens, port.name), port.name.number)?;
    }
    Ok(())
}

/// The names of ports alone. E302 where two are alike.
pub fn port_names<'t>(
    alloc: Global,
    tokens: &Tokens<'t>,
    ports: &[PortForm<'_>],
) -> Result<Names<'t>, OrMemory<ElabFault>>
    ensures ok { IfOk result (λ names. names ≡ letters_of (port_texts
        (words_of tokens.now) ports.now)) }
    ensures right { OnOk result (first_again (port_texts (words_of tokens.now) ports.now) ≡ None) }
    ensures once { IfOk result (λ names. has_double names ≡ false) }
    ensures err { IfFault result (DoublesIn [] (port_texts (words_of tokens.now) ports.now)) }
{
    let mut names = Names::new(alloc);
    add_ports(tokens, ports, &mut names)?;
    let _count = names.len();
    Ok(names)
}

// The names that items declare.
fn add_items<'t>(
    tokens: &Tokens<'t>,
    made: &Names<'_>,
    items: &[ModuleItem],
    into: &mut Names<'t>,
) -> Result<(), OrMemory<ElabFault>>
    ensures ok { OnOk result (into.new ≡ with_words into.old (declared_in (own_in
        (words_of tokens.now) made.now items.now))) }
    ensures right { OnOk result (again_behind into.old (declared_in (own_in
        (words_of tokens.now) made.now items.now)) ≡ None) }
    ensures err { IfFault result (DoublesIn into.old (declared_in (own_in
        (words_of tokens.now) made.now items.now))) }
{
    for item in items {
        add_item(tokens, made, item, into)?;
    }
    Ok(())
}

// The names of ports, and behind them those of the variables that items declare, without these ports.
fn all_names<'t>(
    alloc: Global,
    tokens: &Tokens<'t>,
    made: &Names<'_>,
    ports: &[PortForm<'_>],
    items: &[ModuleItem],
) -> Result<Names<'t>, OrMemory<ElabFault>>
    ensures ok { IfOk result (λ names. names ≡ letters_of (names_before
        (words_of tokens.now) made.now ports.now items.now)) }
    ensures right { OnOk result (first_again (names_before
        (words_of tokens.now) made.now ports.now items.now) ≡ None) }
    ensures err { IfFault result (DoublesIn [] (names_before
        (words_of tokens.now) made.now ports.now items.now)) }
{
    let mut names = Names::new(alloc);
    add_ports(tokens, ports, &mut names)?;
    add_items(tokens, made, items, &mut names)?;
    Ok(names)
}

/// The names of ports, and of the variables that items declare, in the order of the text. E302 where two are alike.
pub fn names_declared<'t>(
    alloc: Global,
    tokens: &Tokens<'t>,
    ports: &[PortForm<'_>],
    unit: &ModuleTree,
) -> Result<Names<'t>, OrMemory<ElabFault>>
    ensures ok { IfOk result (λ names. names ≡ letters_of (names_declared
        (words_of tokens.now) ports.now unit.now)) }
    ensures right { OnOk result (first_again (names_declared
        (words_of tokens.now) ports.now unit.now) ≡ None) }
    ensures once { IfOk result (λ names. has_double names ≡ false) }
    ensures err { IfFault result (DoublesIn [] (names_declared
        (words_of tokens.now) ports.now unit.now)) }
{
    let made = plain_names(alloc, tokens, unit)?;
    let names = all_names(alloc, tokens, &made, ports, &unit.items)?;
    let _count = names.len();
    Ok(names)
}
