// The words of what stands in modules beside statements, in order: types, settings, ports, connections.

ghost use Rattle.std.specs.Prelude.{◌≡◌, ◌∷◌, [], Some, map, option_map};
ghost use Rattle.vast.specs.TokenTexts.{token_text, texts};
ghost use Rattle.vast.specs.ExpressionTrees.{tree_of, boxed_tree};
ghost use Rattle.vast.specs.Expressions.{spell_expression};
ghost use Rattle.vast.specs.Statements.{with_commas};
ghost use Rattle.vast.specs.Modules.{spell_range, spell_signed, spell_type, integer_word as integer_text, spell_parameter_type, spell_setting, spell_net_assignment, spell_value, spell_declared, net_word as net_text, spell_net, spell_wire, spell_direction, spell_port, spell_kind, spell_head_parameter, spell_optional, spell_connection, spell_connections, spell_instance};
ghost use Rattle.vast.specs.ModuleTrees.{range_tree, type_tree, parameter_type, setting_tree, net_assignment, declared_tree, direction_tree, port_tree, head_parameter, connection_tree, connections_tree, instance_tree};
ghost use Rattle.vspell.specs.Inner.{Puts};

use crate::expression_spelling::{put_expression, put_range};
use crate::spelling::{Spelling, put, put_comma, put_token};
use crate::statement_parts_spelling::put_setting as put_assignment;
use basis::NoMemory;
use vast::expression::Expression;
use vast::module::{
    Bounds, Connection, Connections, Declared, Direction, HeadParameter, Instance, NetAssignment,
    NetKind, ParameterType, Port, Setting, SignAndRange,
};
use vast::token::Token;

fn put_bounds<'t>(
    out: &mut Vec<Spelling<'t>>,
    words: &[&'t [u8]],
    range: &Option<Bounds>,
) -> Result<(), NoMemory>
    ensures { Puts out.old out.new result
        (spell_range (option_map (range_tree (texts words.now)) range.now)) }
{
    match range {
        None => Ok(()),
        Some(range) => put_range(out, words, &range.left, &range.right),
    }
}

fn put_signed<'t>(out: &mut Vec<Spelling<'t>>, signed: bool) -> Result<(), NoMemory>
    ensures { Puts out.old out.new result (spell_signed signed) }
{
    if signed {
        return put(out, b"signed");
    }
    Ok(())
}

/// Puts `signed [left:right]`, each if it stands there.
pub fn put_type<'t>(
    out: &mut Vec<Spelling<'t>>,
    words: &[&'t [u8]],
    kind: &SignAndRange,
) -> Result<(), NoMemory>
    ensures { Puts out.old out.new result
        (spell_type (type_tree (texts words.now) kind.now)) }
{
    put_signed(out, kind.signed)?;
    put_bounds(out, words, &kind.range)
}

/// The word that an integer is declared by.
pub fn integer_word(long: bool) -> &'static [u8]
    ensures { result.now ≡ integer_text long }
{
    if long { b"time" } else { b"integer" }
}

/// Puts the words of the type of a parameter.
pub fn put_parameter_type<'t>(
    out: &mut Vec<Spelling<'t>>,
    words: &[&'t [u8]],
    kind: &ParameterType,
) -> Result<(), NoMemory>
    ensures { Puts out.old out.new result
        (spell_parameter_type (parameter_type (texts words.now) kind.now)) }
{
    match kind {
        ParameterType::Integer { long } => put(out, integer_word(*long)),
        ParameterType::Typed(kind) => put_type(out, words, kind),
    }
}

fn put_setting<'t>(
    out: &mut Vec<Spelling<'t>>,
    words: &[&'t [u8]],
    setting: &Setting,
) -> Result<(), NoMemory>
    ensures { Puts out.old out.new result
        (spell_setting (setting_tree (texts words.now) setting.now)) }
{
    put_token(out, words, setting.name)?;
    put(out, b"=")?;
    put_expression(out, words, &setting.value)
}

/// Puts settings with commas between them.
#[tactic(auto, using(crate::proofs::SpellLemmas::listed_first))]
pub fn put_settings<'t>(
    out: &mut Vec<Spelling<'t>>,
    words: &[&'t [u8]],
    settings: &[Setting],
) -> Result<(), NoMemory>
    ensures { Puts out.old out.new result
        (with_commas spell_setting (map (setting_tree (texts words.now)) settings.now)) }
{
    let mut first = true;
    for setting in settings {
        put_comma(out, first)?;
        first = false;
        put_setting(out, words, setting)?;
    }
    Ok(())
}

fn put_net_assignment<'t>(
    out: &mut Vec<Spelling<'t>>,
    words: &[&'t [u8]],
    one: &NetAssignment,
) -> Result<(), NoMemory>
    ensures { Puts out.old out.new result
        (spell_net_assignment (net_assignment (texts words.now) one.now)) }
{
    put_assignment(out, words, &one.target, &one.value)
}

/// Puts the assignments of an `assign` with commas between them.
#[tactic(auto, using(crate::proofs::SpellLemmas::listed_first))]
pub fn put_net_assignments<'t>(
    out: &mut Vec<Spelling<'t>>,
    words: &[&'t [u8]],
    list: &[NetAssignment],
) -> Result<(), NoMemory>
    ensures { Puts out.old out.new result
        (with_commas spell_net_assignment (map (net_assignment (texts words.now)) list.now)) }
{
    let mut first = true;
    for one in list {
        put_comma(out, first)?;
        first = false;
        put_net_assignment(out, words, one)?;
    }
    Ok(())
}

fn put_name<'t>(
    out: &mut Vec<Spelling<'t>>,
    words: &[&'t [u8]],
    name: Token,
    value: &Option<Box<Expression>>,
) -> Result<(), NoMemory>
    ensures { Puts out.old out.new result (spell_value (token_text (texts words.now) name)
        (option_map (boxed_tree (texts words.now)) value.now)) }
{
    put_token(out, words, name)?;
    match value {
        None => Ok(()),
        Some(value) => {
            put(out, b"=")?;
            put_expression(out, words, value)
        }
    }
}

fn put_one_declared<'t>(
    out: &mut Vec<Spelling<'t>>,
    words: &[&'t [u8]],
    declared: &Declared,
) -> Result<(), NoMemory>
    ensures { Puts out.old out.new result
        (spell_declared (declared_tree (texts words.now) declared.now)) }
{
    put_name(out, words, declared.name, &declared.value)
}

/// Puts declared names with commas between them.
#[tactic(auto, using(crate::proofs::SpellLemmas::listed_first))]
pub fn put_declared<'t>(
    out: &mut Vec<Spelling<'t>>,
    words: &[&'t [u8]],
    declared: &[Declared],
) -> Result<(), NoMemory>
    ensures { Puts out.old out.new result
        (with_commas spell_declared (map (declared_tree (texts words.now)) declared.now)) }
{
    let mut first = true;
    for one in declared {
        put_comma(out, first)?;
        first = false;
        put_one_declared(out, words, one)?;
    }
    Ok(())
}

/// The word that a net or a variable is declared by.
pub fn net_word(net: NetKind) -> &'static [u8]
    ensures { result.now ≡ net_text net }
{
    match net {
        NetKind::Wire => b"wire",
        NetKind::Reg => b"reg",
    }
}

fn put_net<'t>(out: &mut Vec<Spelling<'t>>, net: Option<NetKind>) -> Result<(), NoMemory>
    ensures { Puts out.old out.new result (spell_net net) }
{
    match net {
        None => Ok(()),
        Some(net) => put(out, net_word(net)),
    }
}

fn put_wire<'t>(out: &mut Vec<Spelling<'t>>, wire: bool) -> Result<(), NoMemory>
    ensures { Puts out.old out.new result (spell_wire wire) }
{
    if wire {
        return put(out, b"wire");
    }
    Ok(())
}

/// Puts which way ports go.
pub fn put_direction<'t>(
    out: &mut Vec<Spelling<'t>>,
    words: &[&'t [u8]],
    direction: &Direction,
) -> Result<(), NoMemory>
    ensures { Puts out.old out.new result
        (spell_direction (Some (direction_tree (texts words.now) direction.now))) }
{
    match direction {
        Direction::Input { wire, kind } => {
            put(out, b"input")?;
            put_wire(out, *wire)?;
            put_type(out, words, kind)
        }
        Direction::Output { net, kind } => {
            put(out, b"output")?;
            put_net(out, *net)?;
            put_type(out, words, kind)
        }
        Direction::OutputInteger { long } => {
            put(out, b"output")?;
            put(out, integer_word(*long))
        }
    }
}

fn put_optional_direction<'t>(
    out: &mut Vec<Spelling<'t>>,
    words: &[&'t [u8]],
    direction: &Option<Direction>,
) -> Result<(), NoMemory>
    ensures { Puts out.old out.new result
        (spell_direction (option_map (direction_tree (texts words.now)) direction.now)) }
{
    match direction {
        None => Ok(()),
        Some(direction) => put_direction(out, words, direction),
    }
}

fn put_port<'t>(
    out: &mut Vec<Spelling<'t>>,
    words: &[&'t [u8]],
    port: &Port,
) -> Result<(), NoMemory>
    ensures { Puts out.old out.new result
        (spell_port (port_tree (texts words.now) port.now)) }
{
    put_optional_direction(out, words, &port.direction)?;
    put_name(out, words, port.name, &port.value)
}

/// Puts ports with commas between them.
#[tactic(auto, using(crate::proofs::SpellLemmas::listed_first))]
pub fn put_ports<'t>(
    out: &mut Vec<Spelling<'t>>,
    words: &[&'t [u8]],
    ports: &[Port],
) -> Result<(), NoMemory>
    ensures { Puts out.old out.new result
        (with_commas spell_port (map (port_tree (texts words.now)) ports.now)) }
{
    let mut first = true;
    for port in ports {
        put_comma(out, first)?;
        first = false;
        put_port(out, words, port)?;
    }
    Ok(())
}

fn put_kind<'t>(
    out: &mut Vec<Spelling<'t>>,
    words: &[&'t [u8]],
    kind: &Option<ParameterType>,
) -> Result<(), NoMemory>
    ensures { Puts out.old out.new result
        (spell_kind (option_map (parameter_type (texts words.now)) kind.now)) }
{
    match kind {
        None => Ok(()),
        Some(kind) => {
            put(out, b"parameter")?;
            put_parameter_type(out, words, kind)
        }
    }
}

fn put_head_parameter<'t>(
    out: &mut Vec<Spelling<'t>>,
    words: &[&'t [u8]],
    parameter: &HeadParameter,
) -> Result<(), NoMemory>
    ensures { Puts out.old out.new result
        (spell_head_parameter (head_parameter (texts words.now) parameter.now)) }
{
    put_kind(out, words, &parameter.kind)?;
    put_setting(out, words, &parameter.setting)
}

/// Puts the parameters of a module's head with commas between them.
#[tactic(auto, using(crate::proofs::SpellLemmas::listed_first))]
pub fn put_head_parameters<'t>(
    out: &mut Vec<Spelling<'t>>,
    words: &[&'t [u8]],
    parameters: &[HeadParameter],
) -> Result<(), NoMemory>
    ensures { Puts out.old out.new result
        (with_commas spell_head_parameter (map (head_parameter (texts words.now)) parameters.now)) }
{
    let mut first = true;
    for parameter in parameters {
        put_comma(out, first)?;
        first = false;
        put_head_parameter(out, words, parameter)?;
    }
    Ok(())
}

fn put_optional<'t>(
    out: &mut Vec<Spelling<'t>>,
    words: &[&'t [u8]],
    value: &Option<Box<Expression>>,
) -> Result<(), NoMemory>
    ensures { Puts out.old out.new result
        (spell_optional (option_map (boxed_tree (texts words.now)) value.now)) }
{
    match value {
        None => Ok(()),
        Some(value) => put_expression(out, words, value),
    }
}

fn put_connection<'t>(
    out: &mut Vec<Spelling<'t>>,
    words: &[&'t [u8]],
    connection: &Connection,
) -> Result<(), NoMemory>
    ensures { Puts out.old out.new result
        (spell_connection (connection_tree (texts words.now) connection.now)) }
{
    put(out, b".")?;
    put_token(out, words, connection.name)?;
    put(out, b"(")?;
    put_optional(out, words, &connection.value)?;
    put(out, b")")
}

#[tactic(auto, using(crate::proofs::SpellLemmas::listed_first))]
fn put_each_connection<'t>(
    out: &mut Vec<Spelling<'t>>,
    words: &[&'t [u8]],
    connections: &[Connection],
) -> Result<(), NoMemory>
    ensures { Puts out.old out.new result
        (with_commas spell_connection (map (connection_tree (texts words.now)) connections.now)) }
{
    let mut first = true;
    for connection in connections {
        put_comma(out, first)?;
        first = false;
        put_connection(out, words, connection)?;
    }
    Ok(())
}

#[tactic(auto, using(crate::proofs::SpellLemmas::listed_first))]
fn put_values<'t>(
    out: &mut Vec<Spelling<'t>>,
    words: &[&'t [u8]],
    values: &[Expression],
) -> Result<(), NoMemory>
    ensures { Puts out.old out.new result
        (with_commas spell_expression (map (tree_of (texts words.now)) values.now)) }
{
    let mut first = true;
    for value in values {
        put_comma(out, first)?;
        first = false;
        put_expression(out, words, value)?;
    }
    Ok(())
}

/// Puts connections in their parentheses.
pub fn put_connections<'t>(
    out: &mut Vec<Spelling<'t>>,
    words: &[&'t [u8]],
    connections: &Connections,
) -> Result<(), NoMemory>
    ensures { Puts out.old out.new result
        (spell_connections (connections_tree (texts words.now) connections.now)) }
{
    put(out, b"(")?;
    match connections {
        Connections::ByOrder(values) => put_values(out, words, values)?,
        Connections::ByName(list) => put_each_connection(out, words, list)?,
    }
    put(out, b")")
}

fn put_instance<'t>(
    out: &mut Vec<Spelling<'t>>,
    words: &[&'t [u8]],
    instance: &Instance,
) -> Result<(), NoMemory>
    ensures { Puts out.old out.new result
        (spell_instance (instance_tree (texts words.now) instance.now)) }
{
    put_token(out, words, instance.name)?;
    put_connections(out, words, &instance.connections)
}

/// Puts instances with commas between them.
#[tactic(auto, using(crate::proofs::SpellLemmas::listed_first))]
pub fn put_instances<'t>(
    out: &mut Vec<Spelling<'t>>,
    words: &[&'t [u8]],
    instances: &[Instance],
) -> Result<(), NoMemory>
    ensures { Puts out.old out.new result
        (with_commas spell_instance (map (instance_tree (texts words.now)) instances.now)) }
{
    let mut first = true;
    for instance in instances {
        put_comma(out, first)?;
        first = false;
        put_instance(out, words, instance)?;
    }
    Ok(())
}
