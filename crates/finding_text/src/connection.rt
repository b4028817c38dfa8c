// Port connections: which port of which instance one is of (IEEE 1364-2005, 12.3.9.2).

use crate::place::Sources;
use basis::{NoMemory, begins_name, is_in_name};
use race_words::pieces::{Piece, put_all};
use vdesign::action::{Action, Target, Targets};
use vdesign::design::Design;
use vdesign::expression::{Expression, Node};

/// A port of an instance, and the variable that it is connected to, if it is one alone.
#[derive(Clone, Copy)]
pub struct Port<'a> {
    pub instance: &'a [u8],
    pub name: &'a [u8],
    pub other: Option<&'a [u8]>,
}

// How many bytes of a name stand in front.
fn name_len(text: &[u8]) -> usize {
    for (place, byte) in text.iter().enumerate() {
        let belongs = if place == 0 {
            begins_name(*byte)
        } else {
            is_in_name(*byte)
        };
        if !belongs {
            return place;
        }
    }
    text.len()
}

// How many bytes stand in front of white space.
fn escape_len(text: &[u8]) -> usize {
    for (place, byte) in text.iter().enumerate() {
        if byte.is_ascii_whitespace() {
            return place;
        }
    }
    text.len()
}

// The name in front, and what stands behind it; of an escaped one without its backslash (3.7.1).
fn name_in_front(text: &[u8]) -> Option<(&[u8], &[u8])> {
    match text.split_first() {
        Some((first, escaped)) if *first == b'\\' => {
            escaped.split_at_checked(escape_len(escaped))
        }
        _ => text.split_at_checked(name_len(text)),
    }
}

// The name of the instance whose ports follow in the source.
fn instance_in(source: &[u8]) -> Option<&[u8]> {
    let (name, rest) = name_in_front(source)?;
    if name.is_empty() || rest.trim_ascii_start().first() != Some(&b'(') {
        return None;
    }
    Some(name)
}

// Where the last dot stands.
fn last_dot(name: &[u8]) -> Option<usize> {
    let mut found = None;
    for (place, byte) in name.iter().enumerate() {
        if *byte == b'.' {
            found = Some(place);
        }
    }
    found
}

// What stands before the last dot, and behind it.
fn split_at_dot(name: &[u8]) -> Option<(&[u8], &[u8])> {
    let (path, rest) = name.split_at_checked(last_dot(name)?)?;
    let (_, own) = rest.split_first()?;
    Some((path, own))
}

// The name of the variable in its scope, where that is an instance of this name.
fn name_in<'a>(name: &'a [u8], instance: &[u8]) -> Option<&'a [u8]> {
    let (path, own) = split_at_dot(name)?;
    let (_, scope) = split_at_dot(path)?;
    if scope == instance { Some(own) } else { None }
}

// The name of a variable without its scopes.
fn own_name(name: &[u8]) -> &[u8] {
    match split_at_dot(name) {
        None => name,
        Some((_, own)) => own,
    }
}

// How long the names of its scopes are.
fn path_len(name: &[u8]) -> usize {
    last_dot(name).unwrap_or(0)
}

// The name of the variable of this number.
fn variable_name(design: &Design, number: u32) -> Option<&[u8]> {
    Some(&design.variables.get(number as usize)?.name)
}

// The name of the variable that an expression is, alone.
fn only_variable<'a>(design: &'a Design, value: &Expression) -> Option<&'a [u8]> {
    let (first, rest) = value.nodes().split_first()?;
    match first {
        Node::Variable(number) if rest.is_empty() => variable_name(design, *number),
        _ => None,
    }
}

// The variable that the target is of.
pub fn variable_of(target: &Target) -> u32 {
    match target {
        Target::Whole(number) => *number,
        Target::Bit { variable, .. } => *variable,
        Target::Part { variable, .. } => *variable,
    }
}

// Whether it is one net, as a whole.
fn is_net(targets: &Targets) -> bool {
    match targets.as_slice().split_first() {
        None => false,
        Some((first, rest)) => match first {
            Target::Whole(_) => rest.is_empty(),
            _ => false,
        },
    }
}

// The port of this instance that drives this net outside, or parts of it.
fn output_by<'a>(
    instance: &'a [u8],
    net: &'a [u8],
    is_whole: bool,
    within: &'a [u8],
) -> Option<Port<'a>> {
    Some(Port {
        instance,
        name: name_in(within, instance)?,
        other: if is_whole { Some(own_name(net)) } else { None },
    })
}

// The port of this instance that is this net within.
fn input_by<'a>(instance: &'a [u8], net: &'a [u8], value: Option<&'a [u8]>) -> Option<Port<'a>> {
    Some(Port {
        instance,
        name: name_in(net, instance)?,
        other: match value {
            None => None,
            Some(outside) => Some(own_name(outside)),
        },
    })
}

// The port of this instance that is connected so.
fn port_by<'a>(
    instance: &'a [u8],
    net: &'a [u8],
    is_whole: bool,
    value: Option<&'a [u8]>,
) -> Option<Port<'a>> {
    match value {
        Some(within) if path_len(within) > path_len(net) => {
            output_by(instance, net, is_whole, within)
        }
        _ => input_by(instance, net, value),
    }
}

/// The port that the action connects, if it is a port connection.
pub fn port_of<'a>(design: &'a Design, sources: &Sources<'a>, action: usize) -> Option<Port<'a>> {
    let Action::ContinuousAssign { targets, value, .. } = design.actions.get(action)? else {
        return None;
    };
    let instance = instance_in(sources.source(sources.place(action)?))?;
    let net = variable_name(design, variable_of(targets.as_slice().first()?))?;
    port_by(instance, net, is_net(targets), only_variable(design, value))
}

/// `.d(q) of u1`
pub fn put_port(text: &mut Vec<u8>, port: Port<'_>) -> Result<(), NoMemory> {
    put_all(
        text,
        &[
            Piece::Bytes(b"."),
            Piece::Bytes(port.name),
            Piece::Bytes(b"("),
            Piece::Bytes(port.other.unwrap_or(b"..")),
            Piece::Bytes(b") of "),
            Piece::Bytes(port.instance),
        ],
    )
}
