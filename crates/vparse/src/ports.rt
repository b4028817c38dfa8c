// Ports of modules (IEEE 1364-2005, 12.3.2 to 12.3.4).

ghost use Rattle.std.specs.Prelude.{◌≡◌, codes, IfOk};
ghost use Rattle.vast.specs.Leaves.{direction_leaves, if_some, port_leaves};
ghost use Rattle.vast.specs.ModuleTrees.{direction_tree, port_tree};
ghost use Rattle.vexpr_parse.specs.Readers.{front};
ghost use Rattle.vexpr_parse.specs.Answers.{Keeps, ahead, leaves_ahead};
ghost use Rattle.vstatement_parse.specs.Gives.{Gives};
ghost use Rattle.vparse.specs.ModuleGives.{ReadsAt, all_leaves, all_of, any_output as any_reader, input_parts, optional_direction, optional_net as net_reader, optional_of, optional_ports, listed_ports, named_ports, output_parts, ports_in, some_ports, typed_output as typed_reader};
ghost use Rattle.vgrammar.specs.Modules as parts;
ghost use Rattle.vparse.specs.TextReaders as reading;
ghost use Rattle.vgrammar.specs.Parts.{map_tree};

use crate::declarations::optional_value;
use crate::lists::list_until;
use crate::types::{optional, optional_integer, sign_and_range};
use basis::OrMemory;
use std::alloc::Global;
use vast::module::{Direction, NetKind, Port};
use vexpr_parse::{Cursor, Stop};
use vlex::Tokens;
use vstatement_parse::words::name_word;

/// `wire` or `reg`, if one stands there.
#[tactic(auto, using(crate::proofs::PlainWords::wire_plain, crate::proofs::PlainWords::reg_plain))]
pub fn optional_net(tokens: &Tokens<'_>, cursor: &mut Cursor) -> Option<NetKind>
    ensures reads { ReadsAt net_reader tokens.now cursor.old cursor.new result }
    ensures kept { leaves_ahead tokens.now cursor.old ≡ leaves_ahead tokens.now cursor.new }
{
    if cursor.begins(tokens, b"wire") {
        cursor.pass(tokens);
        Some(NetKind::Wire)
    } else if cursor.begins(tokens, b"reg") {
        cursor.pass(tokens);
        Some(NetKind::Reg)
    } else {
        None
    }
}

// What stands behind `input`.
#[tactic(auto, using(crate::proofs::PlainWords::wire_plain))]
fn input(
    alloc: Global,
    tokens: &Tokens<'_>,
    cursor: &mut Cursor,
) -> Result<Direction, OrMemory<Stop>>
    ensures gives { Gives direction_tree (map_tree parts.direction_of input_parts)
        tokens.now cursor.old cursor.new result }
    ensures kept { IfOk result (Keeps direction_leaves tokens.now cursor.old cursor.new) }
{
    let wire = optional(tokens, cursor, b"wire");
    let kind = sign_and_range(alloc, tokens, cursor)?;
    Ok(Direction::Input { wire, kind })
}

// What stands behind `output`, but for an integer.
fn typed_output(
    alloc: Global,
    tokens: &Tokens<'_>,
    cursor: &mut Cursor,
) -> Result<Direction, OrMemory<Stop>>
    ensures gives { Gives direction_tree typed_reader tokens.now cursor.old cursor.new result }
    ensures kept { IfOk result (Keeps direction_leaves tokens.now cursor.old cursor.new) }
{
    let net = optional_net(tokens, cursor);
    let kind = sign_and_range(alloc, tokens, cursor)?;
    Ok(Direction::Output { net, kind })
}

fn any_output(
    alloc: Global,
    tokens: &Tokens<'_>,
    cursor: &mut Cursor,
) -> Result<Direction, OrMemory<Stop>>
    ensures gives { Gives direction_tree any_reader tokens.now cursor.old cursor.new result }
    ensures kept { IfOk result (Keeps direction_leaves tokens.now cursor.old cursor.new) }
{
    match optional_integer(tokens, cursor) {
        Some(long) => Ok(Direction::OutputInteger { long }),
        None => typed_output(alloc, tokens, cursor),
    }
}

// What stands behind `output`.
#[tactic(auto, using(crate::proofs::ModuleForms::output_is))]
fn output(
    alloc: Global,
    tokens: &Tokens<'_>,
    cursor: &mut Cursor,
) -> Result<Direction, OrMemory<Stop>>
    ensures gives { Gives direction_tree (map_tree parts.direction_of output_parts)
        tokens.now cursor.old cursor.new result }
    ensures kept { IfOk result (Keeps direction_leaves tokens.now cursor.old cursor.new) }
{
    any_output(alloc, tokens, cursor)
}

/// Which way ports go.
#[tactic(auto, using(crate::proofs::PlainWords::input_plain, crate::proofs::PlainWords::output_plain))]
pub fn direction(
    alloc: Global,
    tokens: &Tokens<'_>,
    cursor: &mut Cursor,
) -> Result<Direction, OrMemory<Stop>>
    ensures gives { Gives direction_tree reading.direction tokens.now cursor.old cursor.new result }
    ensures kept { IfOk result (Keeps direction_leaves tokens.now cursor.old cursor.new) }
{
    if cursor.begins(tokens, b"input") {
        cursor.pass(tokens);
        input(alloc, tokens, cursor)
    } else {
        cursor.symbol(tokens, b"output")?;
        output(alloc, tokens, cursor)
    }
}

/// Whether a direction begins here.
pub fn is_direction(tokens: &Tokens<'_>, cursor: &Cursor) -> bool
    ensures { result ≡ parts.is_direction (front (ahead tokens.now cursor.now)) }
{
    cursor.begins(tokens, b"input") || cursor.begins(tokens, b"output")
}

// A direction, if one stands there.
fn optional_direction(
    alloc: Global,
    tokens: &Tokens<'_>,
    cursor: &mut Cursor,
) -> Result<Option<Direction>, OrMemory<Stop>>
    ensures gives { Gives (optional_of direction_tree) optional_direction
        tokens.now cursor.old cursor.new result }
    ensures kept { IfOk result (Keeps (if_some direction_leaves) tokens.now cursor.old cursor.new) }
{
    if is_direction(tokens, cursor) {
        Ok(Some(direction(alloc, tokens, cursor)?))
    } else {
        Ok(None)
    }
}

// A port with its direction.
fn first_port(
    alloc: Global,
    tokens: &Tokens<'_>,
    cursor: &mut Cursor,
) -> Result<Port, OrMemory<Stop>>
    ensures gives { Gives port_tree reading.first_port tokens.now cursor.old cursor.new result }
    ensures kept { IfOk result (Keeps port_leaves tokens.now cursor.old cursor.new) }
{
    let direction = direction(alloc, tokens, cursor)?;
    let name = name_word(tokens, cursor)?;
    let value = optional_value(alloc, tokens, cursor)?;
    Ok(Port {
        direction: Some(direction),
        name,
        value,
    })
}

// A port behind a comma.
fn port(alloc: Global, tokens: &Tokens<'_>, cursor: &mut Cursor) -> Result<Port, OrMemory<Stop>>
    ensures gives { Gives port_tree reading.port tokens.now cursor.old cursor.new result }
    ensures kept { IfOk result (Keeps port_leaves tokens.now cursor.old cursor.new) }
{
    let direction = optional_direction(alloc, tokens, cursor)?;
    let name = name_word(tokens, cursor)?;
    let value = optional_value(alloc, tokens, cursor)?;
    Ok(Port {
        direction,
        name,
        value,
    })
}

// One port or more, up to `)`.
#[tactic(auto, using(crate::proofs::ListKinds::port_fewer))]
fn some_ports(
    alloc: Global,
    tokens: &Tokens<'_>,
    cursor: &mut Cursor,
) -> Result<Vec<Port>, OrMemory<Stop>>
    ensures gives { Gives (all_of port_tree) some_ports tokens.now cursor.old cursor.new result }
    ensures kept { IfOk result (Keeps (all_leaves port_leaves) tokens.now cursor.old cursor.new) }
{
    let first = first_port(alloc, tokens, cursor)?;
    list_until(
        alloc,
        &|cursor|
            ensures gives { Gives port_tree reading.port
                tokens.entry.now cursor.entry.now cursor.exit.now result }
            ensures kept { IfOk result (Keeps port_leaves
                tokens.entry.now cursor.entry.now cursor.exit.now) }
        { port(alloc, tokens, cursor) },
        tokens,
        cursor,
        first,
        b")",
    )
}

// A port that an item declares.
fn named_port(tokens: &Tokens<'_>, cursor: &mut Cursor) -> Result<Port, OrMemory<Stop>>
    ensures gives { Gives port_tree parts.named_port tokens.now cursor.old cursor.new result }
    ensures kept { IfOk result (Keeps port_leaves tokens.now cursor.old cursor.new) }
{
    let name = name_word(tokens, cursor)?;
    Ok(Port {
        direction: None,
        name,
        value: None,
    })
}

// One such port or more, up to `)`.
#[tactic(auto, using(crate::proofs::ListKinds::named_port_fewer))]
fn named_ports(
    alloc: Global,
    tokens: &Tokens<'_>,
    cursor: &mut Cursor,
) -> Result<Vec<Port>, OrMemory<Stop>>
    ensures gives { Gives (all_of port_tree) named_ports tokens.now cursor.old cursor.new result }
    ensures kept { IfOk result (Keeps (all_leaves port_leaves) tokens.now cursor.old cursor.new) }
{
    let first = named_port(tokens, cursor)?;
    list_until(
        alloc,
        &|cursor|
            ensures gives { Gives port_tree parts.named_port
                tokens.entry.now cursor.entry.now cursor.exit.now result }
            ensures kept { IfOk result (Keeps port_leaves
                tokens.entry.now cursor.entry.now cursor.exit.now) }
        { named_port(tokens, cursor) },
        tokens,
        cursor,
        first,
        b")",
    )
}

// Ports with their directions, or names alone.
fn listed_ports(
    alloc: Global,
    tokens: &Tokens<'_>,
    cursor: &mut Cursor,
) -> Result<Vec<Port>, OrMemory<Stop>>
    ensures gives { Gives (all_of port_tree) listed_ports tokens.now cursor.old cursor.new result }
    ensures kept { IfOk result (Keeps (all_leaves port_leaves) tokens.now cursor.old cursor.new) }
{
    if is_direction(tokens, cursor) {
        some_ports(alloc, tokens, cursor)
    } else {
        named_ports(alloc, tokens, cursor)
    }
}

// What stands behind the first parenthesis.
fn ports_in(
    alloc: Global,
    tokens: &Tokens<'_>,
    cursor: &mut Cursor,
) -> Result<Vec<Port>, OrMemory<Stop>>
    ensures gives { Gives (all_of port_tree) ports_in tokens.now cursor.old cursor.new result }
    ensures kept { IfOk result (Keeps (all_leaves port_leaves) tokens.now cursor.old cursor.new) }
{
    if cursor.begins(tokens, b")") {
        cursor.pass(tokens);
        Ok(Vec::new(alloc))
    } else {
        listed_ports(alloc, tokens, cursor)
    }
}

// Ports in parentheses.
#[tactic(auto, using(crate::proofs::ModuleForms::ports_is))]
fn ports(
    alloc: Global,
    tokens: &Tokens<'_>,
    cursor: &mut Cursor,
) -> Result<Vec<Port>, OrMemory<Stop>>
    ensures gives { Gives (all_of port_tree) reading.ports tokens.now cursor.old cursor.new result }
    ensures kept { IfOk result (Keeps (all_leaves port_leaves) tokens.now cursor.old cursor.new) }
{
    cursor.symbol(tokens, b"(")?;
    ports_in(alloc, tokens, cursor)
}

/// Ports in parentheses, if they stand there.
pub fn optional_ports(
    alloc: Global,
    tokens: &Tokens<'_>,
    cursor: &mut Cursor,
) -> Result<Option<Vec<Port>>, OrMemory<Stop>>
    ensures gives { Gives (optional_of (all_of port_tree)) optional_ports
        tokens.now cursor.old cursor.new result }
    ensures kept { IfOk result (Keeps (if_some (all_leaves port_leaves))
        tokens.now cursor.old cursor.new) }
{
    if cursor.begins(tokens, b"(") {
        Ok(Some(ports(alloc, tokens, cursor)?))
    } else {
        Ok(None)
    }
}
