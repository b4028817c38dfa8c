// The words of a tree, in order.

ghost use Rattle.std.specs.Prelude.{◌≡◌, ◌∷◌, [], IfOk, flat_map, map, option_map};
ghost use Rattle.vast.specs.TokenTexts.{token_text, texts};
ghost use Rattle.vast.specs.Statements.{with_commas};
ghost use Rattle.vast.specs.Modules.{spell_overrides, spell_declaration_kind, parameter_word as parameter_text, spell_item, spell_head_parameters, spell_ports, spell_module, spell as spell_tree};
ghost use Rattle.vast.specs.ModuleTrees.{port_tree, head_parameter, connections_tree, declaration_kind, item_tree, module_tree, source_tree};
ghost use Rattle.vspell.specs.Spellings.{texts_of};
ghost use Rattle.vspell.specs.Inner.{Puts, alone};

use crate::module_parts_spelling::{
    integer_word, net_word, put_connections, put_declared, put_direction, put_head_parameters,
    put_instances, put_net_assignments, put_parameter_type, put_ports, put_settings, put_type,
};
use crate::spelling::{Spelling, put, put_comma, put_token};
use crate::statement_spelling::put_statement;
use basis::NoMemory;
use std::alloc::Global;
use vast::module::{
    Connections, DeclarationKind, HeadParameter, ModuleItem, ModuleTree, Port, TextTree,
};
use vast::token::Token;

#[tactic(auto, using(crate::proofs::SpellLemmas::listed_first))]
fn put_names<'t>(
    out: &mut Vec<Spelling<'t>>,
    words: &[&'t [u8]],
    names: &[Token],
) -> Result<(), NoMemory>
    ensures { Puts out.old out.new result
        (with_commas alone (map (token_text (texts words.now)) names.now)) }
{
    let mut first = true;
    for name in names {
        put_comma(out, first)?;
        first = false;
        put_token(out, words, *name)?;
    }
    Ok(())
}

fn put_declaration_kind<'t>(
    out: &mut Vec<Spelling<'t>>,
    words: &[&'t [u8]],
    kind: &DeclarationKind,
) -> Result<(), NoMemory>
    ensures { Puts out.old out.new result
        (spell_declaration_kind (declaration_kind (texts words.now) kind.now)) }
{
    match kind {
        DeclarationKind::Variables { net, kind } => {
            put(out, net_word(*net))?;
            put_type(out, words, kind)
        }
        DeclarationKind::Integers { long } => put(out, integer_word(*long)),
        DeclarationKind::Directed { direction } => put_direction(out, words, direction),
    }
}

fn put_overrides<'t>(
    out: &mut Vec<Spelling<'t>>,
    words: &[&'t [u8]],
    overrides: &Option<Connections>,
) -> Result<(), NoMemory>
    ensures { Puts out.old out.new result
        (spell_overrides (option_map (connections_tree (texts words.now)) overrides.now)) }
{
    match overrides {
        None => Ok(()),
        Some(overrides) => {
            put(out, b"#")?;
            put_connections(out, words, overrides)
        }
    }
}

fn parameter_word(local: bool) -> &'static [u8]
    ensures { result.now ≡ parameter_text local }
{
    if local { b"localparam" } else { b"parameter" }
}

fn put_item<'t>(
    out: &mut Vec<Spelling<'t>>,
    words: &[&'t [u8]],
    item: &ModuleItem,
) -> Result<(), NoMemory>
    ensures { Puts out.old out.new result
        (spell_item (item_tree (texts words.now) item.now)) }
{
    match item {
        ModuleItem::Parameters {
            local,
            kind,
            settings,
            ..
        } => {
            put(out, parameter_word(*local))?;
            put_parameter_type(out, words, kind)?;
            put_settings(out, words, settings)?;
            put(out, b";")
        }
        ModuleItem::Declaration { kind, declared, .. } => {
            put_declaration_kind(out, words, kind)?;
            put_declared(out, words, declared)?;
            put(out, b";")
        }
        ModuleItem::Events { names, .. } => {
            put(out, b"event")?;
            put_names(out, words, names)?;
            put(out, b";")
        }
        ModuleItem::Assignments { list, .. } => {
            put(out, b"assign")?;
            put_net_assignments(out, words, list)?;
            put(out, b";")
        }
        ModuleItem::Initial { statement, .. } => {
            put(out, b"initial")?;
            put_statement(out, words, statement)
        }
        ModuleItem::Always { statement, .. } => {
            put(out, b"always")?;
            put_statement(out, words, statement)
        }
        ModuleItem::Instances {
            module,
            overrides,
            instances,
        } => {
            put_token(out, words, *module)?;
            put_overrides(out, words, overrides)?;
            put_instances(out, words, instances)?;
            put(out, b";")
        }
    }
}

fn put_items<'t>(
    out: &mut Vec<Spelling<'t>>,
    words: &[&'t [u8]],
    items: &[ModuleItem],
) -> Result<(), NoMemory>
    ensures { Puts out.old out.new result
        (flat_map spell_item (map (item_tree (texts words.now)) items.now)) }
{
    for item in items {
        put_item(out, words, item)?;
    }
    Ok(())
}

fn put_parameters<'t>(
    out: &mut Vec<Spelling<'t>>,
    words: &[&'t [u8]],
    parameters: &Option<Vec<HeadParameter>>,
) -> Result<(), NoMemory>
    ensures { Puts out.old out.new result
        (spell_head_parameters
        (option_map (λ list. map (head_parameter (texts words.now)) list.items) parameters.now)) }
{
    match parameters {
        None => Ok(()),
        Some(list) => {
            put(out, b"#")?;
            put(out, b"(")?;
            put_head_parameters(out, words, list)?;
            put(out, b")")
        }
    }
}

fn put_optional_ports<'t>(
    out: &mut Vec<Spelling<'t>>,
    words: &[&'t [u8]],
    ports: &Option<Vec<Port>>,
) -> Result<(), NoMemory>
    ensures { Puts out.old out.new result
        (spell_ports
        (option_map (λ list. map (port_tree (texts words.now)) list.items) ports.now)) }
{
    match ports {
        None => Ok(()),
        Some(list) => {
            put(out, b"(")?;
            put_ports(out, words, list)?;
            put(out, b")")
        }
    }
}

fn put_module<'t>(
    out: &mut Vec<Spelling<'t>>,
    words: &[&'t [u8]],
    unit: &ModuleTree,
) -> Result<(), NoMemory>
    ensures { Puts out.old out.new result
        (spell_module (module_tree (texts words.now) unit.now)) }
{
    put(out, b"module")?;
    put_token(out, words, unit.name)?;
    put_parameters(out, words, &unit.parameters)?;
    put_optional_ports(out, words, &unit.ports)?;
    put(out, b";")?;
    put_items(out, words, &unit.items)?;
    put(out, b"endmodule")
}

/// The words of a tree, in order: those of the text that it was read from.
pub fn spell<'t>(
    alloc: Global,
    words: &[&'t [u8]],
    text: &TextTree,
) -> Result<Vec<Spelling<'t>>, NoMemory>
    ensures { IfOk result (λ spelled.
        texts_of spelled.items ≡ spell_tree (source_tree (texts words.now) text.now)) }
{
    let mut out = Vec::new(alloc);
    for unit in &text.modules {
        put_module(&mut out, words, unit)?;
    }
    Ok(out)
}
