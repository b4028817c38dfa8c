// Variables and nets: ports, and what a module declares by `reg`, by `integer` and by `wire` (4.2, 4.3, 4.8, 12.3.3).
ghost use Rattle.std.specs.Prelude.{◌≡◌, ◌<◌, ◌≤◌, ◌+◌, ◌^◌, [], ◌++◌, ◌∷◌, List, None, length, map, option_map, IfOk, OnOk};
ghost use Rattle.vast.specs.NumberedTrees.{declaration_kind, module_tree};
ghost use Rattle.vexpr_parse.specs.Texts.{words_of};
ghost use Rattle.velab_declaration.specs.Variables as variables;
ghost use Rattle.velab_declaration.specs.Variables.{lower_kind, lower_declaration, lower_variables, lower_ports, variable_in};
ghost use Rattle.vmodules.specs.Inner.{own_in, port_form, second_form, type_for};
ghost use Rattle.vmodules.specs.Ports.{own_items};
ghost use Rattle.vwords.specs.Words.{Text};
ghost use Rattle.velab_expr.specs.Answers.{Gives, Makes, behind};
ghost use Rattle.velab_expr.specs.Inner.{symbols_in, IsNarrow};
ghost use Rattle.velab_expr.specs.Ranges.{lower_bounds};
ghost use Rattle.velab_declaration.specs.Inner.{own_kind, own_tree, own_variables, formed_variables, variables_by};

use basis::{NoMemory, OrMemory};
use std::alloc::Global;
use vast::module::{DeclarationKind, Declared, ModuleItem, ModuleTree, NetKind, SignAndRange};
use vbits::Vec4;
use vdesign::design::{Kind, Variable};
use vdesign::expression::Bounds;
use velab_expr::fault::{ElabFault, Rule};
use velab_expr::range::{range_bounds, span};
use velab_expr::refusal::refusal;
use velab_expr::scope::Scope;
use velab_expr::symbol::symbol_count;
use vlex::Tokens;
use vmodules::letters::letters;
use vmodules::names::Names;
use vmodules::ports::{PortForm, PortKind, SecondForm, is_plain_list, plain_names, type_in};

/// How names are declared: what a declaration says of each of them.
#[derive(Clone, Copy)]
pub struct Form {
    pub kind: Kind,
    pub signed: bool,
    pub bounds: Option<Bounds>,
}

fn length_of(form: Form) -> u32
    requires { IsNarrow form.bounds }
    ensures { result ≡ variables.length_of form.kind form.bounds }
{
    match form.bounds {
        Some(bounds) => span(bounds),
        None => match form.kind {
            Kind::Reg => 1,
            Kind::Integer => 32,
            Kind::Time => 64,
            Kind::Wire => 1,
        },
    }
}
/// An instance's path or the top's name, a dot and a name.
pub fn dotted_path(alloc: Global, scope: &[u8], name: &[u8]) -> Result<Vec<u8>, NoMemory>
    ensures { IfOk result (λ text. text.items ≡ scope.now ++ 46 ∷ name.now) }
{
    let mut text = Vec::from_slice(alloc, scope)?;
    text.push(b'.')?;
    text.extend_from_slice(name)?;
    Ok(text)
}

fn variable(alloc: Global, path: &[u8], form: Form, name: &[u8]) -> Result<Variable, NoMemory>
    requires { IsNarrow form.bounds }
    ensures { IfOk result (λ v. v ≡ variable_in path.now form name.now) }
{
    let length = length_of(form);
    let name = dotted_path(alloc, path, name)?;
    Ok(Variable {
        name,
        kind: form.kind,
        length,
        signed: form.signed,
        start: Vec4::all_x(length),
        bounds: form.bounds,
    })
}

// A variable for each name, in their order.
fn put_all(
    alloc: Global,
    tokens: &Tokens<'_>,
    path: &[u8],
    form: Form,
    list: &[Declared],
    into: &mut Vec<Variable>,
) -> Result<(), NoMemory>
    requires { IsNarrow form.bounds }
    ensures { OnOk result (into.new.items ≡
        into.old.items ++ variables_by (words_of tokens.now) path.now form list.now) }
{
    for one in list {
        let variable = variable(alloc, path, form, letters(tokens, one.name))?;
        into.push(variable)?;
    }
    Ok(())
}

// The same, save where the name is that of one of these ports.
fn put_one(
    alloc: Global,
    tokens: &Tokens<'_>,
    path: &[u8],
    made: &Names<'_>,
    form: Form,
    one: &Declared,
    into: &mut Vec<Variable>,
) -> Result<(), NoMemory>
    requires { IsNarrow form.bounds }
    ensures { OnOk result (into.new.items ≡ into.old.items
        ++ own_variables (words_of tokens.now) made.now path.now form (one.now ∷ [])) }
{
    let text = letters(tokens, one.name);
    if made.place(text).is_some() {
        return Ok(());
    }
    let variable = variable(alloc, path, form, text)?;
    into.push(variable)?;
    Ok(())
}

// A variable for each name that is none of these ports, in their order.
fn put_own(
    alloc: Global,
    tokens: &Tokens<'_>,
    path: &[u8],
    made: &Names<'_>,
    form: Form,
    list: &[Declared],
    into: &mut Vec<Variable>,
) -> Result<(), NoMemory>
    requires { IsNarrow form.bounds }
    ensures { OnOk result (into.new.items ≡ into.old.items
        ++ own_variables (words_of tokens.now) made.now path.now form list.now) }
{
    for one in list {
        put_one(alloc, tokens, path, made, form, one, into)?;
    }
    Ok(())
}

// What a word declares.
fn kind_of(net: NetKind) -> Kind
    ensures { result ≡ variables.kind_of net }
{
    match net {
        NetKind::Wire => Kind::Wire,
        NetKind::Reg => Kind::Reg,
    }
}

fn integer_kind(long: bool) -> Kind
    ensures { result ≡ variables.integer_kind long }
{
    if long { Kind::Time } else { Kind::Integer }
}

// The bounds of a type, where one is written. E303, E306 or E307 where its range is none.
fn type_bounds(
    alloc: Global,
    scope: &Scope<'_, '_>,
    tokens: &Tokens<'_>,
    kind: Option<&SignAndRange>,
) -> Result<Option<Bounds>, OrMemory<ElabFault>>
    ensures gives { Gives result
        (lower_bounds scope.now (type_for (words_of tokens.now) kind.entry).range) }
    ensures few { IfOk result IsNarrow }
{
    match kind {
        None => Ok(None),
        Some(kind) => range_bounds(alloc, scope, tokens, &kind.range),
    }
}

// Whether a type is signed, where one is written.
fn is_signed(kind: Option<&SignAndRange>) -> bool
    ensures { (words : List Text) → result ≡ (type_for words kind.entry).signed }
{
    match kind {
        None => false,
        Some(kind) => kind.signed,
    }
}

// What a declaration says of each of its names. E303, E306 or E307 where its range is none.
fn form_of(
    alloc: Global,
    scope: &Scope<'_, '_>,
    tokens: &Tokens<'_>,
    kind: &DeclarationKind,
) -> Result<Form, OrMemory<ElabFault>>
    ensures gives { Gives result
        (lower_kind scope.now (declaration_kind (words_of tokens.now) kind.now)) }
    ensures few { IfOk result (λ form. IsNarrow form.bounds) }
{
    match kind {
        DeclarationKind::Variables { net, kind } => {
            let bounds = range_bounds(alloc, scope, tokens, &kind.range)?;
            Ok(Form {
                kind: kind_of(*net),
                signed: kind.signed,
                bounds,
            })
        }
        DeclarationKind::Integers { long } => Ok(Form {
            kind: integer_kind(*long),
            signed: !*long,
            bounds: None,
        }),
        DeclarationKind::Directed { direction } => {
            let kind = type_in(direction);
            let bounds = type_bounds(alloc, scope, tokens, kind)?;
            Ok(Form {
                kind: Kind::Wire,
                signed: is_signed(kind),
                bounds,
            })
        }
    }
}

// The variables of names that are declared in this form.
fn put_formed(
    alloc: Global,
    tokens: &Tokens<'_>,
    path: &[u8],
    made: &Names<'_>,
    form: Form,
    kind: &DeclarationKind,
    list: &[Declared],
    into: &mut Vec<Variable>,
) -> Result<(), NoMemory>
    requires { IsNarrow form.bounds }
    ensures { OnOk result (into.new.items ≡ into.old.items ++ formed_variables
        (words_of tokens.now) made.now path.now form kind.now list.now) }
{
    match kind {
        DeclarationKind::Variables { .. } => {
            put_own(alloc, tokens, path, made, form, list, into)
        }
        DeclarationKind::Integers { .. } => put_all(alloc, tokens, path, form, list, into),
        DeclarationKind::Directed { .. } => Ok(()),
    }
}

// The variables of a declaration.
fn put_names(
    alloc: Global,
    tokens: &Tokens<'_>,
    path: &[u8],
    made: &Names<'_>,
    scope: &Scope<'_, '_>,
    kind: &DeclarationKind,
    list: &[Declared],
    into: &mut Vec<Variable>,
) -> Result<(), OrMemory<ElabFault>>
    ensures { Makes result into.new.items (behind into.old.items (lower_declaration
        path.now scope.now (own_kind (words_of tokens.now) made.now kind.now list.now))) }
{
    let form = form_of(alloc, scope, tokens, kind)?;
    put_formed(alloc, tokens, path, made, form, kind, list, into)?;
    Ok(())
}

// The variables of one item.
fn put_item(
    alloc: Global,
    tokens: &Tokens<'_>,
    path: &[u8],
    made: &Names<'_>,
    scope: &Scope<'_, '_>,
    item: &ModuleItem,
    into: &mut Vec<Variable>,
) -> Result<(), OrMemory<ElabFault>>
    ensures { Makes result into.new.items (behind into.old.items (lower_declaration
        path.now scope.now (own_tree (words_of tokens.now) made.now item.now))) }
{
    match item {
        ModuleItem::Declaration { kind, declared, .. } => {
            put_names(alloc, tokens, path, made, scope, kind, declared, into)
        }
        ModuleItem::Parameters { .. } => Ok(()),
        ModuleItem::Events { .. } => Ok(()),
        ModuleItem::Assignments { .. } => Ok(()),
        ModuleItem::Initial { .. } => Ok(()),
        ModuleItem::Always { .. } => Ok(()),
        ModuleItem::Instances { .. } => Ok(()),
    }
}

// The bounds that a port is declared with, where it is. E303, E306 or E307 where its range is none.
fn port_bounds(
    alloc: Global,
    tokens: &Tokens<'_>,
    scope: &Scope<'_, '_>,
    port: &PortForm<'_>,
) -> Result<Option<Bounds>, OrMemory<ElabFault>>
    ensures gives { Gives result
        (lower_bounds scope.now (port_form (words_of tokens.now) port.now).type.range) }
    ensures few { IfOk result IsNarrow }
{
    match port.sign_and_range {
        None => Ok(None),
        Some(kind) => range_bounds(alloc, scope, tokens, &kind.range),
    }
}

// What a port is declared as.
fn declared_kind(kind: PortKind) -> Kind
    ensures { result ≡ variables.declared_kind kind }
{
    match kind {
        PortKind::Wire => Kind::Wire,
        PortKind::Reg => Kind::Reg,
        PortKind::Integer => Kind::Integer,
        PortKind::Time => Kind::Time,
    }
}

// Whether a port is signed where no word says `integer` or `time`: where it says so, or where it is declared again.
fn type_signed(port: &PortForm<'_>) -> bool
    ensures { (words : List Text) → result ≡ (port_form words port.now).type.signed }
{
    let signed = match port.sign_and_range {
        None => false,
        Some(kind) => kind.signed,
    };
    match port.again {
        None => signed,
        Some(second) => signed || second.sign_and_range.signed,
    }
}

// Whether a port is signed.
fn port_signed(port: &PortForm<'_>) -> bool
    ensures { (words : List Text) → result ≡ variables.port_signed (port_form words port.now) }
{
    match port.kind {
        PortKind::Wire => type_signed(port),
        PortKind::Reg => type_signed(port),
        PortKind::Integer => true,
        PortKind::Time => false,
    }
}

// Whether two ranges are the same, or both are left out.
fn same_bounds(one: Option<Bounds>, other: Option<Bounds>) -> bool
    ensures { result ≡ variables.same_bounds one other }
{
    match one {
        None => other.is_none(),
        Some(one) => match other {
            None => false,
            Some(other) => one.left == other.left && one.right == other.right,
        },
    }
}

// The bounds of a port that may be declared again. E303, E306 or E307 where the range there is none, and E306 where it is another one.
fn whole_bounds(
    alloc: Global,
    tokens: &Tokens<'_>,
    scope: &Scope<'_, '_>,
    again: Option<SecondForm<'_>>,
    bounds: Option<Bounds>,
) -> Result<Option<Bounds>, OrMemory<ElabFault>>
    requires { IsNarrow bounds }
    ensures gives { Gives result (variables.lower_again scope.now
        (option_map (second_form (words_of tokens.now)) again.entry) bounds) }
    ensures few { IfOk result IsNarrow }
{
    match again {
        None => Ok(bounds),
        Some(second) => {
            let other = range_bounds(alloc, scope, tokens, &second.sign_and_range.range)?;
            if same_bounds(bounds, other) {
                Ok(bounds)
            } else {
                Err(refusal(Rule::Width, Some(second.name.number)))
            }
        }
    }
}

// The variable of one port.
fn put_port(
    alloc: Global,
    tokens: &Tokens<'_>,
    path: &[u8],
    scope: &Scope<'_, '_>,
    port: &PortForm<'_>,
    into: &mut Vec<Variable>,
) -> Result<(), OrMemory<ElabFault>>
    ensures { Makes result into.new.items (behind into.old.items
        (lower_ports path.now scope.now (port_form (words_of tokens.now) port.now ∷ []))) }
{
    let own = port_bounds(alloc, tokens, scope, port)?;
    let bounds = whole_bounds(alloc, tokens, scope, port.again, own)?;
    let form = Form {
        kind: declared_kind(port.kind),
        signed: port_signed(port),
        bounds,
    };
    let variable = variable(alloc, path, form, letters(tokens, port.name))?;
    into.push(variable)?;
    Ok(())
}

// The variables of ports, in their order.
fn put_each_port(
    alloc: Global,
    tokens: &Tokens<'_>,
    path: &[u8],
    scope: &Scope<'_, '_>,
    ports: &[PortForm<'_>],
    into: &mut Vec<Variable>,
) -> Result<(), OrMemory<ElabFault>>
    ensures { Makes result into.new.items (behind into.old.items
        (lower_ports path.now scope.now (map (port_form (words_of tokens.now)) ports.now))) }
{
    for port in ports {
        put_port(alloc, tokens, path, scope, port, into)?;
    }
    Ok(())
}

// The scope in which the ports of a module stand: those that items declare behind all of them.
fn port_scope<'s, 't>(unit: &ModuleTree, scope: &Scope<'s, 't>) -> Scope<'s, 't>
    ensures { (words : List Text) →
        result ≡ variables.port_scope (module_tree words unit.now) scope.now }
{
    if is_plain_list(unit) {
        scope.at(scope.others.len())
    } else {
        scope.at(scope.known)
    }
}

/// The variables of the ports of a module, in their order. `scope` is that of the first item. Errors: E303, E306, E307, E310, E901.
pub fn put_ports(
    alloc: Global,
    tokens: &Tokens<'_>,
    path: &[u8],
    scope: &Scope<'_, '_>,
    unit: &ModuleTree,
    ports: &[PortForm<'_>],
    into: &mut Vec<Variable>,
) -> Result<(), OrMemory<ElabFault>>
    ensures { Makes result into.new.items (behind into.old.items (lower_ports path.now
        (variables.port_scope (module_tree (words_of tokens.now) unit.now) scope.now)
        (map (port_form (words_of tokens.now)) ports.now))) }
{
    let here = port_scope(unit, scope);
    put_each_port(alloc, tokens, path, &here, ports, into)
}

// The variables that items declare, in the order of the text, without these ports.
fn put_items(
    alloc: Global,
    tokens: &Tokens<'_>,
    path: &[u8],
    made: &Names<'_>,
    scope: &Scope<'_, '_>,
    items: &[ModuleItem],
    into: &mut Vec<Variable>,
) -> Result<(), OrMemory<ElabFault>>
    requires small { scope.now.known + length (symbols_in (words_of tokens.now) items.now) < 2 ^ 64 }
    ensures { Makes result into.new.items (behind into.old.items
        (lower_variables path.now scope.now (own_in (words_of tokens.now) made.now items.now))) }
{
    let mut known = scope.known;
    for item in items {
        let here = scope.at(known);
        put_item(alloc, tokens, path, made, &here, item, into)?;
        known += symbol_count(item);
    }
    Ok(())
}

/// The variables that the items of a module declare, in the order of the text. `scope` is that of the first item. Errors: E303, E306, E307,
/// E310, E901.
pub fn put_variables(
    alloc: Global,
    tokens: &Tokens<'_>,
    path: &[u8],
    scope: &Scope<'_, '_>,
    unit: &ModuleTree,
    into: &mut Vec<Variable>,
) -> Result<(), OrMemory<ElabFault>>
    requires small { scope.now.known
        + length (symbols_in (words_of tokens.now) unit.now.items.items) < 2 ^ 64 }
    ensures { Makes result into.new.items (behind into.old.items (lower_variables
        path.now scope.now (own_items (module_tree (words_of tokens.now) unit.now)))) }
{
    let made = plain_names(alloc, tokens, unit)?;
    put_items(alloc, tokens, path, &made, scope, &unit.items, into)
}
