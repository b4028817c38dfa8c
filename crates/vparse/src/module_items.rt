// What modules hold (IEEE 1364-2005, A.1.4).

ghost use Rattle.std.specs.Prelude.{◌≡◌, ◌∷◌, [], codes, IfOk};
ghost use Rattle.vast.specs.Leaves.{item_leaves};
ghost use Rattle.vast.specs.ModuleTrees.{item_tree};
ghost use Rattle.vast.specs.TokenTexts.{token_text};
ghost use Rattle.vexpr_parse.specs.Answers.{Keeps, KeepsBehind, leaves_ahead};
ghost use Rattle.vexpr_parse.specs.Texts.{words_of};
ghost use Rattle.vstatement_parse.specs.Gives.{Gives, KeepsStatements, ReadsStatements};
ghost use Rattle.vparse.specs.ModuleGives.{ReadsAt, any_item, assignments_at, directed_at, directed_item, events_at, instances_at, instances_item, integers_at, listed_item, optional_local as local_reader, parameters_at, process_item, variables_at, variables_item};
ghost use Rattle.vparse.specs.TextReaders as reading;

use crate::connections::{instances, overrides};
use crate::module_lists::{declared_names, names, net_assignments, settings};
use crate::ports::{direction, is_direction, optional_net};
use crate::types::{parameter_type, sign_and_range};
use basis::OrMemory;
use std::alloc::Global;
use vast::module::{DeclarationKind, ModuleItem, NetKind};
use vast::statement::Statement;
use vast::token::Token;
use vexpr_parse::{Cursor, Stop};
use vlex::Tokens;
use vstatement_parse::words::name_word;

// Behind `parameter` or `localparam`.
fn parameters(
    alloc: Global,
    tokens: &Tokens<'_>,
    cursor: &mut Cursor,
    at: u32,
    local: bool,
) -> Result<ModuleItem, OrMemory<Stop>>
    ensures gives { Gives item_tree (parameters_at local) tokens.now cursor.old cursor.new result }
    ensures kept { IfOk result (Keeps item_leaves tokens.now cursor.old cursor.new) }
{
    let kind = parameter_type(alloc, tokens, cursor)?;
    let settings = settings(alloc, tokens, cursor)?;
    Ok(ModuleItem::Parameters {
        at,
        local,
        kind,
        settings,
    })
}

// Behind `wire` or `reg`.
fn variables(
    alloc: Global,
    tokens: &Tokens<'_>,
    cursor: &mut Cursor,
    at: u32,
    net: NetKind,
) -> Result<ModuleItem, OrMemory<Stop>>
    ensures gives { Gives item_tree (variables_at net) tokens.now cursor.old cursor.new result }
    ensures kept { IfOk result (Keeps item_leaves tokens.now cursor.old cursor.new) }
{
    let kind = sign_and_range(alloc, tokens, cursor)?;
    let declared = declared_names(alloc, tokens, cursor)?;
    Ok(ModuleItem::Declaration {
        at,
        kind: DeclarationKind::Variables { net, kind },
        declared,
    })
}

// Ports that the list of the module names.
fn port_directions(
    alloc: Global,
    tokens: &Tokens<'_>,
    cursor: &mut Cursor,
    at: u32,
) -> Result<ModuleItem, OrMemory<Stop>>
    ensures gives { Gives item_tree directed_at tokens.now cursor.old cursor.new result }
    ensures kept { IfOk result (Keeps item_leaves tokens.now cursor.old cursor.new) }
{
    let direction = direction(alloc, tokens, cursor)?;
    let declared = declared_names(alloc, tokens, cursor)?;
    Ok(ModuleItem::Declaration {
        at,
        kind: DeclarationKind::Directed { direction },
        declared,
    })
}

// Behind `integer`, or `time`.
fn integers(
    alloc: Global,
    tokens: &Tokens<'_>,
    cursor: &mut Cursor,
    at: u32,
    long: bool,
) -> Result<ModuleItem, OrMemory<Stop>>
    ensures gives { Gives item_tree (integers_at long) tokens.now cursor.old cursor.new result }
    ensures kept { IfOk result (Keeps item_leaves tokens.now cursor.old cursor.new) }
{
    let declared = declared_names(alloc, tokens, cursor)?;
    Ok(ModuleItem::Declaration {
        at,
        kind: DeclarationKind::Integers { long },
        declared,
    })
}

// Behind `event`.
fn events(
    alloc: Global,
    tokens: &Tokens<'_>,
    cursor: &mut Cursor,
    at: u32,
) -> Result<ModuleItem, OrMemory<Stop>>
    ensures gives { Gives item_tree events_at tokens.now cursor.old cursor.new result }
    ensures kept { IfOk result (Keeps item_leaves tokens.now cursor.old cursor.new) }
{
    let names = names(alloc, tokens, cursor)?;
    Ok(ModuleItem::Events { at, names })
}

// Behind `assign`.
fn assignments(
    alloc: Global,
    tokens: &Tokens<'_>,
    cursor: &mut Cursor,
    at: u32,
) -> Result<ModuleItem, OrMemory<Stop>>
    ensures gives { Gives item_tree assignments_at tokens.now cursor.old cursor.new result }
    ensures kept { IfOk result (Keeps item_leaves tokens.now cursor.old cursor.new) }
{
    let list = net_assignments(alloc, tokens, cursor)?;
    Ok(ModuleItem::Assignments { at, list })
}

// Behind the name of the module that is taken.
fn instances_of(
    alloc: Global,
    tokens: &Tokens<'_>,
    cursor: &mut Cursor,
    taken: Token,
) -> Result<ModuleItem, OrMemory<Stop>>
    ensures gives { Gives item_tree (instances_at (token_text (words_of tokens.now) taken))
        tokens.now cursor.old cursor.new result }
    ensures kept { IfOk result (KeepsBehind (taken ∷ []) item_leaves
        tokens.now cursor.old cursor.new) }
{
    let overrides = overrides(alloc, tokens, cursor)?;
    let instances = instances(alloc, tokens, cursor)?;
    Ok(ModuleItem::Instances {
        module: taken,
        overrides,
        instances,
    })
}

fn instances_item(
    alloc: Global,
    tokens: &Tokens<'_>,
    cursor: &mut Cursor,
) -> Result<ModuleItem, OrMemory<Stop>>
    ensures gives { Gives item_tree instances_item tokens.now cursor.old cursor.new result }
    ensures kept { IfOk result (Keeps item_leaves tokens.now cursor.old cursor.new) }
{
    let taken = name_word(tokens, cursor)?;
    instances_of(alloc, tokens, cursor, taken)
}

// A process, or instances.
#[tactic(auto, using(crate::proofs::PlainWords::initial_plain, crate::proofs::PlainWords::always_plain))]
fn process_item<F: Fn(&mut Cursor) -> Result<Statement, OrMemory<Stop>>>(
    alloc: Global,
    read: &F,
    tokens: &Tokens<'_>,
    cursor: &mut Cursor,
    at: u32,
) -> Result<ModuleItem, OrMemory<Stop>>
    requires callable { F.IsAlwaysCallable read.now }
    requires reads { ReadsStatements tokens.now 64 (F.post read.now) }
    requires keeps { KeepsStatements tokens.now (F.post read.now) }
    ensures gives { Gives item_tree process_item tokens.now cursor.old cursor.new result }
    ensures kept { IfOk result (Keeps item_leaves tokens.now cursor.old cursor.new) }
{
    if cursor.begins(tokens, b"initial") {
        cursor.pass(tokens);
        let statement = read(cursor)?;
        Ok(ModuleItem::Initial { at, statement })
    } else if cursor.begins(tokens, b"always") {
        cursor.pass(tokens);
        let statement = read(cursor)?;
        Ok(ModuleItem::Always { at, statement })
    } else {
        instances_item(alloc, tokens, cursor)
    }
}

// A list behind one word, or what `process_item` reads.
#[tactic(auto, using(crate::proofs::PlainWords::integer_plain, crate::proofs::PlainWords::time_plain, crate::proofs::PlainWords::event_plain, crate::proofs::PlainWords::assign_plain))]
fn listed_item<F: Fn(&mut Cursor) -> Result<Statement, OrMemory<Stop>>>(
    alloc: Global,
    read: &F,
    tokens: &Tokens<'_>,
    cursor: &mut Cursor,
    at: u32,
) -> Result<ModuleItem, OrMemory<Stop>>
    requires callable { F.IsAlwaysCallable read.now }
    requires reads { ReadsStatements tokens.now 64 (F.post read.now) }
    requires keeps { KeepsStatements tokens.now (F.post read.now) }
    ensures gives { Gives item_tree listed_item tokens.now cursor.old cursor.new result }
    ensures kept { IfOk result (Keeps item_leaves tokens.now cursor.old cursor.new) }
{
    if cursor.begins(tokens, b"integer") {
        cursor.pass(tokens);
        integers(alloc, tokens, cursor, at, false)
    } else if cursor.begins(tokens, b"time") {
        cursor.pass(tokens);
        integers(alloc, tokens, cursor, at, true)
    } else if cursor.begins(tokens, b"event") {
        cursor.pass(tokens);
        events(alloc, tokens, cursor, at)
    } else if cursor.begins(tokens, b"assign") {
        cursor.pass(tokens);
        assignments(alloc, tokens, cursor, at)
    } else {
        process_item(alloc, read, tokens, cursor, at)
    }
}

// Ports, or what `listed_item` reads.
fn directed_item<F: Fn(&mut Cursor) -> Result<Statement, OrMemory<Stop>>>(
    alloc: Global,
    read: &F,
    tokens: &Tokens<'_>,
    cursor: &mut Cursor,
    at: u32,
) -> Result<ModuleItem, OrMemory<Stop>>
    requires callable { F.IsAlwaysCallable read.now }
    requires reads { ReadsStatements tokens.now 64 (F.post read.now) }
    requires keeps { KeepsStatements tokens.now (F.post read.now) }
    ensures gives { Gives item_tree directed_item tokens.now cursor.old cursor.new result }
    ensures kept { IfOk result (Keeps item_leaves tokens.now cursor.old cursor.new) }
{
    if is_direction(tokens, cursor) {
        port_directions(alloc, tokens, cursor, at)
    } else {
        listed_item(alloc, read, tokens, cursor, at)
    }
}

// Nets or variables, or what `directed_item` reads.
fn variables_item<F: Fn(&mut Cursor) -> Result<Statement, OrMemory<Stop>>>(
    alloc: Global,
    read: &F,
    tokens: &Tokens<'_>,
    cursor: &mut Cursor,
    at: u32,
) -> Result<ModuleItem, OrMemory<Stop>>
    requires callable { F.IsAlwaysCallable read.now }
    requires reads { ReadsStatements tokens.now 64 (F.post read.now) }
    requires keeps { KeepsStatements tokens.now (F.post read.now) }
    ensures gives { Gives item_tree variables_item tokens.now cursor.old cursor.new result }
    ensures kept { IfOk result (Keeps item_leaves tokens.now cursor.old cursor.new) }
{
    match optional_net(tokens, cursor) {
        Some(net) => variables(alloc, tokens, cursor, at, net),
        None => directed_item(alloc, read, tokens, cursor, at),
    }
}

// `parameter` or `localparam`, if one stands there: whether it is the latter.
#[tactic(auto, using(crate::proofs::PlainWords::parameter_plain, crate::proofs::PlainWords::localparam_plain))]
fn optional_local(tokens: &Tokens<'_>, cursor: &mut Cursor) -> Option<bool>
    ensures reads { ReadsAt local_reader tokens.now cursor.old cursor.new result }
    ensures kept { leaves_ahead tokens.now cursor.old ≡ leaves_ahead tokens.now cursor.new }
{
    if cursor.begins(tokens, b"parameter") {
        cursor.pass(tokens);
        Some(false)
    } else if cursor.begins(tokens, b"localparam") {
        cursor.pass(tokens);
        Some(true)
    } else {
        None
    }
}

// Parameters, or what `variables_item` reads.
fn any_item<F: Fn(&mut Cursor) -> Result<Statement, OrMemory<Stop>>>(
    alloc: Global,
    read: &F,
    tokens: &Tokens<'_>,
    cursor: &mut Cursor,
    at: u32,
) -> Result<ModuleItem, OrMemory<Stop>>
    requires callable { F.IsAlwaysCallable read.now }
    requires reads { ReadsStatements tokens.now 64 (F.post read.now) }
    requires keeps { KeepsStatements tokens.now (F.post read.now) }
    ensures gives { Gives item_tree any_item tokens.now cursor.old cursor.new result }
    ensures kept { IfOk result (Keeps item_leaves tokens.now cursor.old cursor.new) }
{
    match optional_local(tokens, cursor) {
        Some(local) => parameters(alloc, tokens, cursor, at, local),
        None => variables_item(alloc, read, tokens, cursor, at),
    }
}

// The number of the token here; 0 where none is.
fn number_here(tokens: &Tokens<'_>, cursor: &Cursor) -> u32 {
    match cursor.word(tokens) {
        Some(word) => word.token.number,
        None => 0,
    }
}

/// An item of a module, where this reads statements.
#[tactic(auto, using(crate::proofs::ModuleForms::item_is))]
pub fn item<F: Fn(&mut Cursor) -> Result<Statement, OrMemory<Stop>>>(
    alloc: Global,
    read: &F,
    tokens: &Tokens<'_>,
    cursor: &mut Cursor,
) -> Result<ModuleItem, OrMemory<Stop>>
    requires callable { F.IsAlwaysCallable read.now }
    requires reads { ReadsStatements tokens.now 64 (F.post read.now) }
    requires keeps { KeepsStatements tokens.now (F.post read.now) }
    ensures gives { Gives item_tree reading.item tokens.now cursor.old cursor.new result }
    ensures kept { IfOk result (Keeps item_leaves tokens.now cursor.old cursor.new) }
{
    let at = number_here(tokens, cursor);
    any_item(alloc, read, tokens, cursor, at)
}
