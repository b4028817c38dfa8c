// Refusals of a call that drives a module, in words.

use basis::NoMemory;
use drive_dump::{DrivenModule, PortScopes};
use drive_text::{Parameter, Role};
use program_base::Stop;
use race_words::{Piece, put, put_all};
use std::alloc::Global;
use vrace::{At, Fault, Rule};

// The most letters of a name that is told, and the most names.
const LETTERS: usize = 200;

const NAMES: usize = 8;

/// A text of these pieces.
pub(crate) fn told(alloc: Global, pieces: &[Piece<'_>]) -> Result<Vec<u8>, NoMemory> {
    let mut text = Vec::new(alloc);
    put_all(&mut text, pieces)?;
    Ok(text)
}

// The refusal of this number, with these words.
fn stop(fault: Fault, said: Result<Vec<u8>, NoMemory>) -> Stop {
    match said {
        Ok(said) => Stop::Told(fault, said),
        Err(_) => Stop::NoMemory,
    }
}

// The refusal by a rule of names, widths or kinds.
fn by_rule(rule: Rule, said: Result<Vec<u8>, NoMemory>) -> Stop {
    stop(Fault::NoDesign(rule, At(None)), said)
}

/// E303, with these words.
pub(crate) fn unknown(said: Result<Vec<u8>, NoMemory>) -> Stop {
    by_rule(Rule::Unknown, said)
}

/// E404, with these words.
pub(crate) fn out_of_limit(said: Result<Vec<u8>, NoMemory>) -> Stop {
    stop(Fault::OutOfLimit, said)
}

/// E904: the testbench would be longer than a text may be.
pub(crate) fn too_long(alloc: Global) -> Stop {
    let said: &[u8] =
        b"the testbench would have over 16,777,216 bytes, more than a text may have\n    instead: drive a part of the dump, by --from and --to\n";
    stop(Fault::TooLong, told(alloc, &[Piece::Bytes(said)]))
}

/// E114: at this time the dump changes an input, and no delay of the files' unit comes to that.
pub(crate) fn between_units<'x>(alloc: Global, time: u64, shown: &'x [u8], unit: &'x [u8]) -> Stop {
    stop(
        Fault::Timescales(At(None)),
        told(
            alloc,
            &[
                Piece::Bytes(b"an input changes at "),
                Piece::Number(time),
                Piece::Bytes(shown),
                Piece::Bytes(b", which is no whole number of the unit of the files' `timescale, "),
                Piece::Bytes(unit),
                Piece::Bytes(
                    b", and delays such as #0.5 aren't in the profile\n    instead: write a `timescale of a shorter unit in the files, ",
                ),
                Piece::Bytes(b"and their delays in that unit\n"),
            ],
        ),
    )
}

/// The fault of a module round these files: E309 and such, which the files alone don't have.
pub(crate) fn refused_skeleton(alloc: Global, fault: Fault) -> Stop {
    let said: &[u8] = b"the files are refused once a testbench stands round them\n";
    stop(fault, told(alloc, &[Piece::Bytes(said)]))
}

// The names of parameters.
fn put_names(text: &mut Vec<u8>, parameters: &[Parameter]) -> Result<(), NoMemory> {
    let mut between: &[u8] = b"";
    for parameter in parameters {
        put_all(
            text,
            &[Piece::Bytes(between), Piece::Cut(&parameter.name, LETTERS)],
        )?;
        between = b", ";
    }
    Ok(())
}

// What is said where parameters don't fit.
fn parameter_text(
    alloc: Global,
    module: &[u8],
    parameters: &[Parameter],
) -> Result<Vec<u8>, NoMemory> {
    let mut text = told(
        alloc,
        &[
            Piece::Cut(module, LETTERS),
            Piece::Bytes(b" can't be had with the parameters of --param: "),
        ],
    )?;
    put_names(&mut text, parameters)?;
    put(
        &mut text,
        b"\n    instead: give each parameter that it has, and no localparam, a number once\n",
    )?;
    Ok(text)
}

/// The fault of a module with parameters that it hasn't, or whose values don't fit.
pub(crate) fn refused_parameter(
    alloc: Global,
    fault: Fault,
    module: &[u8],
    parameters: &[Parameter],
) -> Stop {
    match fault {
        Fault::Memory(_) => Stop::NoMemory,
        Fault::NoDesign(rule, _) => by_rule(rule, parameter_text(alloc, module, parameters)),
        _ => stop(fault, parameter_text(alloc, module, parameters)),
    }
}

// The names of the module's inputs.
fn put_inputs(text: &mut Vec<u8>, module: &DrivenModule) -> Result<(), NoMemory> {
    let mut between: &[u8] = b"";
    for port in &module.ports {
        if port.role != Role::Output {
            put_all(
                text,
                &[Piece::Bytes(between), Piece::Cut(&port.name, LETTERS)],
            )?;
            between = b", ";
        }
    }
    put(text, b"\n")
}

// What is said of a name that is none of an input.
fn input_text<'x>(
    alloc: Global,
    module: &'x DrivenModule,
    option: &'x str,
    name: &'x str,
    what: &'x [u8],
) -> Result<Vec<u8>, NoMemory> {
    let mut text = told(
        alloc,
        &[
            Piece::Bytes(option.as_bytes()),
            Piece::Bytes(b" "),
            Piece::Cut(name.as_bytes(), LETTERS),
            Piece::Bytes(what),
            Piece::Cut(&module.name, LETTERS),
            Piece::Bytes(b"; its inputs: "),
        ],
    )?;
    put_inputs(&mut text, module)?;
    Ok(text)
}

// Whether a port has this name.
fn is_port(module: &DrivenModule, name: &str) -> bool {
    for port in &module.ports {
        if port.name.as_slice() == name.as_bytes() {
            return true;
        }
    }
    false
}

/// E310 where the name is that of an output, else E303.
pub(crate) fn refused_input<'x>(
    alloc: Global,
    module: &'x DrivenModule,
    option: &'x str,
    name: &'x str,
) -> Stop {
    if is_port(module, name) {
        let said = input_text(alloc, module, option, name, b" is an output of ");
        return by_rule(Rule::Kind, said);
    }
    unknown(input_text(alloc, module, option, name, b" is no port of "))
}

/// E306: the dump has an input with another width.
pub(crate) fn other_width<'x>(
    alloc: Global,
    module: &'x DrivenModule,
    port: usize,
    scope: &'x [u8],
    bits: u64,
) -> Stop {
    let Some(port) = module.ports.get(port) else {
        return Stop::NoMemory;
    };
    by_rule(
        Rule::Width,
        told(
            alloc,
            &[
                Piece::Cut(&port.name, LETTERS),
                Piece::Bytes(b" has "),
                Piece::Count(u64::from(port.width), b"bit"),
                Piece::Bytes(b" in "),
                Piece::Cut(&module.name, LETTERS),
                Piece::Bytes(b", and "),
                Piece::Number(bits),
                Piece::Bytes(b" in "),
                Piece::Cut(scope, LETTERS),
                Piece::Bytes(
                    b" of the dump\n    instead: give the parameters that the dump was made with, --param NAME=VALUE\n",
                ),
            ],
        ),
    )
}

// The paths of some of these scopes.
fn put_scopes(text: &mut Vec<u8>, scopes: &PortScopes, places: &[usize]) -> Result<(), NoMemory> {
    let mut between: &[u8] = b"";
    for place in places.iter().take(NAMES) {
        if let Some(scope) = scopes.list.get(*place) {
            put_all(
                text,
                &[Piece::Bytes(between), Piece::Cut(&scope.path, LETTERS)],
            )?;
            between = b", ";
        }
    }
    let more: &[u8] = if places.len() > NAMES {
        b", ..\n"
    } else {
        b"\n"
    };
    put(text, more)
}

// These pieces, and behind them scopes.
fn scopes_text(
    alloc: Global,
    pieces: &[Piece<'_>],
    scopes: &PortScopes,
    places: &[usize],
) -> Result<Vec<u8>, NoMemory> {
    let mut text = told(alloc, pieces)?;
    if places.is_empty() {
        put(&mut text, b"\n")?;
        return Ok(text);
    }
    put(&mut text, b"; scopes that come nearest: ")?;
    put_scopes(&mut text, scopes, places)?;
    Ok(text)
}

/// E303: no scope of this path has an input of the module.
pub(crate) fn no_scope<'x>(
    alloc: Global,
    module: &'x DrivenModule,
    path: &'x str,
    scopes: &PortScopes,
) -> Stop {
    let pieces = [
        Piece::Bytes(b"the dump has no scope "),
        Piece::Cut(path.as_bytes(), LETTERS),
        Piece::Bytes(b" with an input of "),
        Piece::Cut(&module.name, LETTERS),
    ];
    match scopes.nearest(alloc, module) {
        Ok(places) => unknown(scopes_text(alloc, &pieces, scopes, &places)),
        Err(_) => Stop::NoMemory,
    }
}

/// E303: no scope has all inputs of the module.
pub(crate) fn no_candidate(alloc: Global, module: &DrivenModule, scopes: &PortScopes) -> Stop {
    let pieces = [
        Piece::Bytes(b"no scope of the dump has each input of "),
        Piece::Cut(&module.name, LETTERS),
        Piece::Bytes(b"; name one by --scope"),
    ];
    match scopes.nearest(alloc, module) {
        Ok(places) => unknown(scopes_text(alloc, &pieces, scopes, &places)),
        Err(_) => Stop::NoMemory,
    }
}

/// E303: several scopes may be the module's.
pub(crate) fn several_scopes(
    alloc: Global,
    module: &DrivenModule,
    scopes: &PortScopes,
    places: &[usize],
) -> Stop {
    let pieces = [
        Piece::Bytes(b"several scopes of the dump have each input of "),
        Piece::Cut(&module.name, LETTERS),
        Piece::Bytes(b"; name one by --scope"),
    ];
    unknown(scopes_text(alloc, &pieces, scopes, places))
}
