// Parameters (IEEE 1364-2005, 4.10, 12.2), their values known to what stands behind them, named events (9.7.3) and instances (12.1.2).

ghost use Rattle.std.specs.Prelude.{◌≡◌, ◌<◌, ◌≤◌, ◌^◌, List, None, map, length, IfOk};
ghost use Rattle.std.specs.Option.{option_or};
ghost use Rattle.vwords.specs.Words.{Text};
ghost use Rattle.vast.specs.NumberedWords.{word_of};
ghost use Rattle.vast.specs.NumberedTrees.{head_parameter, item_tree, parameter_type, setting_tree};
ghost use Rattle.vexpr_parse.specs.Texts.{words_of};
ghost use Rattle.velab_declaration.specs.Parameters as spec;
ghost use Rattle.velab_expr.specs.Symbols.{parameter_symbol, symbols_by, symbols_behind, valueless_by, event_symbol, instance_symbol};
ghost use Rattle.velab_declaration.specs.Parameters.{add_symbol, add_symbols};
ghost use Rattle.velab_expr.specs.Answers.{Gives, Makes};
ghost use Rattle.velab_expr.specs.Inner.{symbols_in, IsNarrow};
ghost use Rattle.velab_declaration.specs.Inner.{symbol_of, symbols_of, event_symbols, instance_symbols, overrides_tree, valueless_in, symbols_at_head, type_of};

use crate::names::note;
use basis::OrMemory;
use std::alloc::Global;
use std::marker::Model;
use vast::module::{HeadParameter, Instance, ModuleItem, ParameterType, Setting};
use vast::token::Token;
use vbits::Vec4;
use vdesign::expression::{Bounds, Expression};
use velab_expr::constant::nothing;
use velab_expr::expression::constant_expression;
use velab_expr::fault::{ElabFault, Rule};
use velab_expr::range::{range_bounds, span};
use velab_expr::refusal::refusal;
use velab_expr::scope::{Meaning, Scope};
use vlex::Tokens;
use vmodules::connect::ConnectionMap;
use vmodules::letters::letters;
use vmodules::names::Names;
use vvalue::asked::{right_side, self_determined_value};

/// The names of an instance so far: those of its variables, and its parameters, named events and instances as far as they are known;
/// the number of its first variable, and that of the next named event; the top's name. A design has at most 1,024 variables and 4,294,967,295 events.
#[derive(Drop)]
pub struct Growing<'t> {
    pub top: &'t [u8],
    pub names: Names<'t>,
    pub first: usize,
    pub variables: usize,
    pub events: usize,
    pub others: Vec<Meaning>,
}

impl<'t> Model for Growing<'t> {
    ghost use Rattle.std.specs.Prelude.{◌≤◌, ◌+◌, length};
    ghost use Rattle.velab_expr.specs.Scopes as scopes;

    ghost Value = { scopes.Scope };

    ghost view = { λ g. record {
      top = g.top.now;
      names = g.names;
      first = g.first;
      variables = g.variables;
      events = g.events;
      others = g.others.items;
      known = length g.others.items;
    } };

    ghost invariant = { λ g. (g.first + g.variables ≤ 1024) × (g.events ≤ 4294967295) };
}

impl<'t> Growing<'t> {
    /// What is known so far.
    pub fn scope(&self) -> Scope<'_, 't>
        ensures same { result ≡ self.now }
        ensures small { result.known < 2 ^ 64 }
    {
        Scope {
            top: self.top,
            names: &self.names,
            first: self.first,
            variables: self.variables,
            events: self.events,
            others: &self.others,
            known: self.others.len(),
        }
    }
}

/// What is said of the parameters of an instance from outside, by their names, and what names mean there (12.2.2).
#[derive(Drop)]
pub struct Overrides<'s, 't, 'u> {
    pub scope: Scope<'s, 't>,
    pub values: &'s ConnectionMap<'t, 'u>,
}

impl<'s, 't, 'u> Model for Overrides<'s, 't, 'u> {
    ghost use Rattle.std.specs.Coded.{codes};
    ghost use Rattle.vast.specs.contracts.expression.Expression as expression;
    ghost use Rattle.velab_declaration.specs.Inner.{OverrideEntries};

    ghost Value = { OverrideEntries };

    ghost coded = { Prim.hlevel (codes, expression.the_row.coded) };

    ghost view = { λ o. record { scope = o.scope; values = o.values.now } };
}

/// The most named events of a design.
pub const MOST_EVENTS: usize = 4_294_967_295;

// The bounds that a parameter is declared with, where it is. E303, E306 or E307 where they are none.
fn bounds_of(
    alloc: Global,
    scope: &Scope<'_, '_>,
    tokens: &Tokens<'_>,
    kind: Option<&ParameterType>,
) -> Result<Option<Bounds>, OrMemory<ElabFault>>
    ensures gives { Gives result
        (spec.lower_type scope.now (type_of (words_of tokens.now) kind.entry)) }
    ensures few { IfOk result IsNarrow }
{
    match kind {
        None => Ok(None),
        Some(ParameterType::Integer { .. }) => Ok(None),
        Some(ParameterType::Typed(kind)) => range_bounds(alloc, scope, tokens, &kind.range),
    }
}

// The value of one with a sign and bounds, or without them.
fn typed_value(signed: bool, bounds: Option<Bounds>, value: &Expression) -> Vec4
    requires { IsNarrow bounds }
    ensures { result ≡ spec.typed_value signed bounds value.now }
{
    match bounds {
        Some(bounds) => right_side(value, span(bounds), &nothing()).with_sign(signed),
        None => {
            let value = self_determined_value(value, &nothing());
            if signed { value.with_sign(true) } else { value }
        }
    }
}

// How many bits an integer has, or where it is the longer one a time.
fn integer_length(long: bool) -> u32
    ensures same { result ≡ spec.integer_length long }
    ensures few { (1 ≤ result) × (result ≤ 64) }
{
    if long { 64 } else { 32 }
}

// The value of a parameter of this type.
fn parameter_by(kind: Option<&ParameterType>, bounds: Option<Bounds>, value: &Expression) -> Vec4
    requires { IsNarrow bounds }
    ensures { (words : List Text) → result ≡
        spec.parameter_by (type_of words kind.entry) bounds value.now }
{
    match kind {
        None => self_determined_value(value, &nothing()),
        Some(ParameterType::Integer { long }) => {
            right_side(value, integer_length(*long), &nothing()).with_sign(!*long)
        }
        Some(ParameterType::Typed(kind)) => typed_value(kind.signed, bounds, value),
    }
}

// What a parameter is worth: by what is said of it from outside, or else by what it is set to. E303, E306 or E307 where either is no
// constant.
fn value_of(
    alloc: Global,
    tokens: &Tokens<'_>,
    overrides: &Overrides<'_, '_, '_>,
    scope: &Scope<'_, '_>,
    setting: &Setting,
) -> Result<Expression, OrMemory<ElabFault>>
    ensures { Gives result (spec.lower_setting (overrides_tree (words_of tokens.now) overrides.now)
        scope.now (setting_tree (words_of tokens.now) setting.now)) }
{
    let own = constant_expression(alloc, scope, tokens, &setting.value)?;
    match overrides.values.value(letters(tokens, setting.name)) {
        Some(value) => constant_expression(alloc, &overrides.scope, tokens, value),
        None => Ok(own),
    }
}

// One parameter more. E302 where its name is declared, E303, E306 or E307 where its range or its value is wrong.
fn add<'t>(
    alloc: Global,
    tokens: &Tokens<'t>,
    overrides: &Overrides<'_, '_, '_>,
    kind: Option<&ParameterType>,
    setting: &Setting,
    into: &mut Growing<'t>,
) -> Result<(), OrMemory<ElabFault>>
    ensures makes { Makes result into.new
        (add_symbol (overrides_tree (words_of tokens.now) overrides.now)
        into.old (symbol_of (words_of tokens.now) kind.entry setting.now)) }
    ensures variables { into.new.variables ≡ into.old.variables }
{
    let scope = into.scope();
    let bounds = bounds_of(alloc, &scope, tokens, kind)?;
    let value = value_of(alloc, tokens, overrides, &scope, setting)?;
    let meaning = Meaning::Parameter {
        value: parameter_by(kind, bounds, &value),
        bounds,
        before: scope.known,
    };
    let name = letters(tokens, setting.name);
    note(&mut into.names, name, setting.name.number)?;
    into.others.push(meaning)?;
    Ok(())
}

// Parameters of one type.
fn add_all<'t>(
    alloc: Global,
    tokens: &Tokens<'t>,
    overrides: &Overrides<'_, '_, '_>,
    kind: &ParameterType,
    list: &[Setting],
    into: &mut Growing<'t>,
) -> Result<(), OrMemory<ElabFault>>
    ensures makes { Makes result into.new
        (add_symbols (overrides_tree (words_of tokens.now) overrides.now)
        into.old (symbols_of (words_of tokens.now) kind.now list.now)) }
    ensures variables { into.new.variables ≡ into.old.variables }
{
    for one in list {
        add(alloc, tokens, overrides, Some(kind), one, into)?;
    }
    Ok(())
}

// A named event. E302 where its name is declared, E309 where there are too many.
fn add_event<'t>(
    tokens: &Tokens<'t>,
    overrides: &Overrides<'_, '_, '_>,
    name: Token,
    into: &mut Growing<'t>,
) -> Result<(), OrMemory<ElabFault>>
    ensures makes { Makes result into.new
        (add_symbol (overrides_tree (words_of tokens.now) overrides.now)
        into.old (event_symbol (word_of (words_of tokens.now) name))) }
    ensures variables { into.new.variables ≡ into.old.variables }
{
    if into.events >= MOST_EVENTS {
        return Err(refusal(Rule::TooMany, Some(name.number)));
    }
    note(&mut into.names, letters(tokens, name), name.number)?;
    into.others.push(Meaning::Event(into.events))?;
    into.events += 1;
    Ok(())
}

// Named events of one item.
fn add_events<'t>(
    tokens: &Tokens<'t>,
    overrides: &Overrides<'_, '_, '_>,
    names: &[Token],
    into: &mut Growing<'t>,
) -> Result<(), OrMemory<ElabFault>>
    ensures makes { Makes result into.new
        (add_symbols (overrides_tree (words_of tokens.now) overrides.now)
        into.old (event_symbols (words_of tokens.now) names.now)) }
    ensures variables { into.new.variables ≡ into.old.variables }
{
    for name in names {
        add_event(tokens, overrides, *name, into)?;
    }
    Ok(())
}

// An instance. E302 where its name is declared.
fn add_instance<'t>(
    tokens: &Tokens<'t>,
    overrides: &Overrides<'_, '_, '_>,
    name: Token,
    into: &mut Growing<'t>,
) -> Result<(), OrMemory<ElabFault>>
    ensures makes { Makes result into.new
        (add_symbol (overrides_tree (words_of tokens.now) overrides.now)
        into.old (instance_symbol (word_of (words_of tokens.now) name))) }
    ensures variables { into.new.variables ≡ into.old.variables }
{
    note(&mut into.names, letters(tokens, name), name.number)?;
    into.others.push(Meaning::Instance)?;
    Ok(())
}

// The instances of one item.
fn add_instances<'t>(
    tokens: &Tokens<'t>,
    overrides: &Overrides<'_, '_, '_>,
    list: &[Instance],
    into: &mut Growing<'t>,
) -> Result<(), OrMemory<ElabFault>>
    ensures makes { Makes result into.new
        (add_symbols (overrides_tree (words_of tokens.now) overrides.now)
        into.old (instance_symbols (words_of tokens.now) list.now)) }
    ensures variables { into.new.variables ≡ into.old.variables }
{
    for one in list {
        add_instance(tokens, overrides, one.name, into)?;
    }
    Ok(())
}

// The parameters that an item declares.
fn add_item<'t>(
    alloc: Global,
    tokens: &Tokens<'t>,
    overrides: &Overrides<'_, '_, '_>,
    item: &ModuleItem,
    into: &mut Growing<'t>,
) -> Result<(), OrMemory<ElabFault>>
    ensures makes { Makes result into.new
        (add_symbols (overrides_tree (words_of tokens.now) overrides.now)
        into.old (symbols_by (item_tree (words_of tokens.now) item.now))) }
    ensures variables { into.new.variables ≡ into.old.variables }
{
    match item {
        ModuleItem::Parameters { kind, settings, .. } => {
            add_all(alloc, tokens, overrides, kind, settings, into)
        }
        ModuleItem::Declaration { .. } => Ok(()),
        ModuleItem::Events { .. } => Ok(()),
        ModuleItem::Assignments { .. } => Ok(()),
        ModuleItem::Initial { .. } => Ok(()),
        ModuleItem::Always { .. } => Ok(()),
        ModuleItem::Instances { .. } => Ok(()),
    }
}

// The named events or instances of an item.
fn add_valueless_of<'t>(
    tokens: &Tokens<'t>,
    overrides: &Overrides<'_, '_, '_>,
    item: &ModuleItem,
    into: &mut Growing<'t>,
) -> Result<(), OrMemory<ElabFault>>
    ensures makes { Makes result into.new
        (add_symbols (overrides_tree (words_of tokens.now) overrides.now)
        into.old (valueless_by (item_tree (words_of tokens.now) item.now))) }
    ensures variables { into.new.variables ≡ into.old.variables }
{
    match item {
        ModuleItem::Parameters { .. } => Ok(()),
        ModuleItem::Declaration { .. } => Ok(()),
        ModuleItem::Events { names, .. } => add_events(tokens, overrides, names, into),
        ModuleItem::Assignments { .. } => Ok(()),
        ModuleItem::Initial { .. } => Ok(()),
        ModuleItem::Always { .. } => Ok(()),
        ModuleItem::Instances { instances, .. } => add_instances(
            tokens, overrides, instances, into,
        ),
    }
}

/// The named events and instances of items, in the order of the text: what has no value. Errors: E302, E309, E901.
pub fn add_valueless<'t>(
    tokens: &Tokens<'t>,
    overrides: &Overrides<'_, '_, '_>,
    items: &[ModuleItem],
    into: &mut Growing<'t>,
) -> Result<(), OrMemory<ElabFault>>
    ensures makes { Makes result into.new
        (add_symbols (overrides_tree (words_of tokens.now) overrides.now)
        into.old (valueless_in (words_of tokens.now) items.now)) }
    ensures variables { into.new.variables ≡ into.old.variables }
{
    for item in items {
        add_valueless_of(tokens, overrides, item, into)?;
    }
    Ok(())
}

/// The parameters that items declare, in the order of the text. Errors: E302, E303, E306, E307, E310, E901.
pub fn add_items<'t>(
    alloc: Global,
    tokens: &Tokens<'t>,
    overrides: &Overrides<'_, '_, '_>,
    items: &[ModuleItem],
    into: &mut Growing<'t>,
) -> Result<(), OrMemory<ElabFault>>
    ensures makes { Makes result into.new
        (add_symbols (overrides_tree (words_of tokens.now) overrides.now)
        into.old (symbols_in (words_of tokens.now) items.now)) }
    ensures variables { into.new.variables ≡ into.old.variables }
{
    for item in items {
        add_item(alloc, tokens, overrides, item, into)?;
    }
    Ok(())
}

// The type of a parameter of a module's head: its own, or that of the one before it.
fn kind_of<'a>(
    head: &'a HeadParameter,
    before: Option<&'a ParameterType>,
) -> Option<&'a ParameterType>
    ensures { (words : List Text) → type_of words result ≡
        option_or (head_parameter words head.now).kind (type_of words before.entry) }
{
    match &head.kind {
        Some(kind) => Some(kind),
        None => before,
    }
}

// Parameters of a module's head.
fn add_listed<'t>(
    alloc: Global,
    tokens: &Tokens<'t>,
    overrides: &Overrides<'_, '_, '_>,
    list: &[HeadParameter],
    into: &mut Growing<'t>,
) -> Result<(), OrMemory<ElabFault>>
    ensures makes { Makes result into.new
        (add_symbols (overrides_tree (words_of tokens.now) overrides.now)
        into.old (symbols_behind None (map (head_parameter (words_of tokens.now)) list.now))) }
    ensures variables { into.new.variables ≡ into.old.variables }
{
    let mut kind: Option<&ParameterType> = None;
    for head in list {
        kind = kind_of(head, kind);
        add(alloc, tokens, overrides, kind, &head.setting, into)?;
    }
    Ok(())
}

/// The parameters of a module's head. Errors: E302, E303, E306, E307, E310, E901.
pub fn add_head<'t>(
    alloc: Global,
    tokens: &Tokens<'t>,
    overrides: &Overrides<'_, '_, '_>,
    list: &Option<Vec<HeadParameter>>,
    into: &mut Growing<'t>,
) -> Result<(), OrMemory<ElabFault>>
    ensures makes { Makes result into.new
        (add_symbols (overrides_tree (words_of tokens.now) overrides.now)
        into.old (symbols_at_head (words_of tokens.now) list.now)) }
    ensures variables { into.new.variables ≡ into.old.variables }
{
    match list {
        None => Ok(()),
        Some(list) => add_listed(alloc, tokens, overrides, list, into),
    }
}
