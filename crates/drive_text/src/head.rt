// What a testbench declares, and the instance of the module in it.

use crate::driven::{Driven, DrivenPort, Parameter, Role};
use crate::names::put_name;
use basis::{NoMemory, Span};
use race_words::{Piece, put, put_all};
use std::alloc::Global;
use value_text::{put_binary, put_hexadecimal};
use vbits::Vec4;

// The most letters of a name of a file in the first line.
const MOST_LETTERS: usize = 200;

// A length of time, as `1ns`.
fn put_span(text: &mut Vec<u8>, span: Span) -> Result<(), NoMemory> {
    let count = u64::from(span.count.number());
    put_all(
        text,
        &[
            Piece::Number(count),
            Piece::Bytes(span.unit.name().as_bytes()),
        ],
    )
}

/// Puts the value as a number of the text: in hexadecimal, or in binary where it has one bit or some that aren't known.
pub(crate) fn put_number_of(text: &mut Vec<u8>, value: Vec4) -> Result<(), NoMemory> {
    let count = u64::from(value.len());
    let is_binary = value.len() == 1 || value.to_u64().is_none();
    let base = if is_binary { b"'b" } else { b"'h" };
    put_all(text, &[Piece::Number(count), Piece::Bytes(base)])?;
    if is_binary {
        put_binary(text, value)
    } else {
        put_hexadecimal(text, value)
    }
}

// The names of the ports of this role, behind a word, and a full stop.
fn put_names(text: &mut Vec<u8>, ports: &[DrivenPort], role: Role) -> Result<(), NoMemory> {
    let mut between: &[u8] = b" ";
    for port in ports {
        if port.role == role {
            put_all(
                text,
                &[Piece::Bytes(between), Piece::Cut(&port.name, MOST_LETTERS)],
            )?;
            between = b", ";
        }
    }
    put(text, b".")
}

// The times that are driven, in the unit of the timescale.
fn put_times(text: &mut Vec<u8>, driven: &Driven) -> Result<(), NoMemory> {
    let count = u64::from(driven.scale.unit.count.number());
    put_all(
        text,
        &[
            Piece::Number(driven.first.saturating_mul(count)),
            Piece::Bytes(b" to "),
            Piece::Number(driven.last.saturating_mul(count)),
            Piece::Bytes(b" "),
            Piece::Bytes(driven.scale.unit.unit.name().as_bytes()),
        ],
    )
}

// The first line: of what the testbench was made.
fn put_title(text: &mut Vec<u8>, driven: &Driven) -> Result<(), NoMemory> {
    put_all(
        text,
        &[
            Piece::Bytes(b"// Drives "),
            Piece::Cut(&driven.module, MOST_LETTERS),
            Piece::Bytes(b" as "),
            Piece::Cut(&driven.dump, MOST_LETTERS),
            Piece::Bytes(b" has it in "),
            Piece::Cut(&driven.scope, MOST_LETTERS),
            Piece::Bytes(b": "),
            Piece::Count(driven.inputs() as u64, b"input"),
            Piece::Bytes(b", "),
            Piece::Count(driven.changes.len() as u64, b"change"),
            Piece::Bytes(b", "),
        ],
    )?;
    put_times(text, driven)?;
    put(text, b". Clocks:")?;
    if driven.count(Role::Clock) == 0 {
        return put(text, b" none.\n");
    }
    put_names(text, &driven.ports, Role::Clock)?;
    put(text, b"\n")
}

// The range of so many bits; none of one.
fn put_range(text: &mut Vec<u8>, width: u32) -> Result<(), NoMemory> {
    if width < 2 {
        return Ok(());
    }
    let left = u64::from(width - 1);
    put_all(
        text,
        &[
            Piece::Bytes(b"["),
            Piece::Number(left),
            Piece::Bytes(b":0] "),
        ],
    )
}

// The variable or the net of a port.
fn put_declaration(text: &mut Vec<u8>, port: &DrivenPort) -> Result<(), NoMemory> {
    let word: &[u8] = if port.role == Role::Output {
        b"  wire "
    } else {
        b"  reg "
    };
    put(text, word)?;
    put_range(text, port.width)?;
    put_name(text, &port.name)?;
    if let Some(value) = port.start {
        put(text, b" = ")?;
        put_number_of(text, value)?;
    }
    put(text, b";\n")
}

// The variables and nets of all ports.
fn put_declarations(text: &mut Vec<u8>, ports: &[DrivenPort]) -> Result<(), NoMemory> {
    for port in ports {
        put_declaration(text, port)?;
    }
    Ok(())
}

// A connection by name.
fn put_connection(text: &mut Vec<u8>, name: &[u8], value: &[u8]) -> Result<(), NoMemory> {
    put(text, b".")?;
    put_name(text, name)?;
    put_all(
        text,
        &[Piece::Bytes(b"("), Piece::Bytes(value), Piece::Bytes(b")")],
    )
}

// The parameters that are set.
fn put_parameters(text: &mut Vec<u8>, parameters: &[Parameter]) -> Result<(), NoMemory> {
    let mut between: &[u8] = b" #(";
    for parameter in parameters {
        put(text, between)?;
        put_connection(text, &parameter.name, &parameter.value)?;
        between = b", ";
    }
    if parameters.is_empty() {
        Ok(())
    } else {
        put(text, b")")
    }
}

// The module's name, its parameters and the name of its instance.
fn put_instance(
    text: &mut Vec<u8>,
    module: &[u8],
    parameters: &[Parameter],
    instance: &[u8],
) -> Result<(), NoMemory> {
    put(text, b"  ")?;
    put_name(text, module)?;
    put_parameters(text, parameters)?;
    put(text, b" ")?;
    put_name(text, instance)
}

// The connections of the ports, each to what has its name.
fn put_connections(text: &mut Vec<u8>, ports: &[DrivenPort]) -> Result<(), NoMemory> {
    let mut between: &[u8] = b"(";
    for port in ports {
        put_all(text, &[Piece::Bytes(between), Piece::Bytes(b".")])?;
        put_name(text, &port.name)?;
        put(text, b"(")?;
        put_name(text, &port.name)?;
        put(text, b")")?;
        between = b", ";
    }
    put(text, b");\n")
}

/// Puts all that stands before the processes.
pub(crate) fn put_head(text: &mut Vec<u8>, driven: &Driven) -> Result<(), NoMemory> {
    put_title(text, driven)?;
    put(text, b"`timescale ")?;
    put_span(text, driven.scale.unit)?;
    put(text, b" / ")?;
    put_span(text, driven.scale.precision)?;
    put(text, b"\nmodule ")?;
    put_name(text, &driven.top)?;
    put(text, b";\n")?;
    put_declarations(text, &driven.ports)?;
    put_instance(text, &driven.module, &driven.parameters, &driven.instance)?;
    put_connections(text, &driven.ports)
}

/// A module of this name with an instance of another one, no port of which is connected: its design has the widths of these ports.
pub fn skeleton_text(
    alloc: Global,
    top: &[u8],
    module: &[u8],
    parameters: &[Parameter],
    instance: &[u8],
) -> Result<Vec<u8>, NoMemory> {
    let mut text = Vec::new(alloc);
    put(&mut text, b"module ")?;
    put_name(&mut text, top)?;
    put(&mut text, b";\n")?;
    put_instance(&mut text, module, parameters, instance)?;
    put(&mut text, b"();\nendmodule\n")?;
    Ok(text)
}
