// The module that is driven: its ports, with their widths and what becomes of each, and the names of the testbench round it.

use crate::refused::{refused_input, refused_parameter, refused_skeleton, told};
use basis::{NoMemory, Timescale};
use command_line::DriveWords;
use drive_dump::{DrivenModule, is_among};
use drive_ports::{Edges, ModulePort, Modules, edges_of, modules_of_files};
use drive_text::{DrivenPort, Parameter, Role, fresh_name, skeleton_text};
use program_base::Stop;
use race_words::{Piece, put, put_all};
use sched_core::setting::Grain;
use std::alloc::Global;
use vdesign::design::Design;
use vrace::{At, Fault, Options, machine_of_files};

// The options by which files are read.
fn options_of<'a>(top: Option<&'a [u8]>) -> Result<Options<'a>, Fault> {
    Options::new(top, 0, 0, 1, 1, Grain::Process)
}

// The name of the top module of files.
fn top_of(alloc: Global, texts: &[Vec<u8>], top: Option<&str>) -> Result<Vec<u8>, Stop> {
    let options = options_of(top.map(|name| name.as_bytes()))?;
    let placed = machine_of_files(alloc, texts, &options)?;
    let design = placed.machine.design();
    match Vec::from_slice(alloc, &design.top) {
        Ok(name) => Ok(name),
        Err(_) => Err(Stop::NoMemory),
    }
}

// Whether a letter may stand in the value of a parameter: in a number, with a sign.
fn is_of_number(letter: u8) -> bool {
    letter.is_ascii_alphanumeric() || letter == b'\'' || letter == b'_' || letter == b'-'
}

// `NAME=VALUE`, apart.
fn parameter_of(alloc: Global, word: &str) -> Result<Parameter, Stop> {
    let Some((name, value)) = word.split_once("=") else {
        return Err(Stop::Usage("--param takes NAME=VALUE"));
    };
    let is_number = value.as_bytes().iter().all(|letter| is_of_number(*letter));
    if name.is_empty() || value.is_empty() || !is_number {
        return Err(Stop::Usage(
            "--param takes NAME=VALUE, and the value is a number, as 16 or 8'hff",
        ));
    }
    Ok(Parameter {
        name: copied(alloc, name.as_bytes())?,
        value: copied(alloc, value.as_bytes())?,
    })
}

// The bytes once more.
fn copied(alloc: Global, bytes: &[u8]) -> Result<Vec<u8>, NoMemory> {
    Ok(Vec::from_slice(alloc, bytes)?)
}

// The parameters that are set.
fn parameters_of(alloc: Global, words: &[&str]) -> Result<Vec<Parameter>, Stop> {
    let mut parameters = Vec::new(alloc);
    for word in words {
        let parameter = parameter_of(alloc, *word)?;
        if parameters.push(parameter).is_err() {
            return Err(Stop::NoMemory);
        }
    }
    Ok(parameters)
}

// The names of ports.
fn names_of(alloc: Global, ports: &[ModulePort]) -> Result<Vec<Vec<u8>>, NoMemory> {
    let mut names = Vec::new(alloc);
    for port in ports {
        names.push(copied(alloc, &port.name)?)?;
    }
    Ok(names)
}

// The name, with this behind it.
fn with_end(alloc: Global, name: &[u8], end: &[u8]) -> Result<Vec<u8>, NoMemory> {
    let mut longer = copied(alloc, name)?;
    put(&mut longer, end)?;
    Ok(longer)
}

// A module that isn't read yet: the names round it.
fn named_module(
    alloc: Global,
    name: Vec<u8>,
    modules: &Modules,
    words: &DriveWords<'_>,
) -> Result<DrivenModule, Stop> {
    let longer = with_end(alloc, &name, b"_driven")?;
    let top = fresh_name(alloc, &modules.names, &longer)?;
    let instance = fresh_name(alloc, &names_of(alloc, &modules.ports)?, b"dut")?;
    Ok(DrivenModule {
        name,
        top,
        instance,
        parameters: parameters_of(alloc, &words.parameters)?,
        ports: Vec::new(alloc),
        edges: Vec::new(alloc),
        ascends: Vec::new(alloc),
        scale: Timescale::usual(),
        inner: Vec::new(alloc),
    })
}

// What becomes of a port.
fn role_of(port: &ModulePort, edges: Edges, words: &DriveWords<'_>) -> Role {
    if port.output {
        Role::Output
    } else if is_among(&words.alone, &port.name) {
        Role::Alone
    } else if edges.are_of_clock() || is_among(&words.clocks, &port.name) {
        Role::Clock
    } else {
        Role::Posted
    }
}

// The place of the variable of this path.
fn place_in(design: &Design, path: &[u8]) -> Option<usize> {
    for (place, variable) in design.variables.iter().enumerate() {
        if variable.name.as_slice() == path {
            return Some(place);
        }
    }
    None
}

// The path of the instance, and a dot.
fn prefix_of(alloc: Global, module: &DrivenModule) -> Result<Vec<u8>, NoMemory> {
    let mut path = copied(alloc, &module.top)?;
    put_all(
        &mut path,
        &[
            Piece::Bytes(b"."),
            Piece::Bytes(&module.instance),
            Piece::Bytes(b"."),
        ],
    )?;
    Ok(path)
}

// Puts a port, as the design has it.
fn put_port(
    alloc: Global,
    module: &mut DrivenModule,
    design: &Design,
    edges: &[Edges],
    port: &ModulePort,
    words: &DriveWords<'_>,
) -> Result<(), NoMemory> {
    let path = with_end(alloc, &prefix_of(alloc, module)?, &port.name)?;
    let Some(place) = place_in(design, &path) else {
        return Ok(());
    };
    let (Some(variable), Some(heard)) = (design.variables.get(place), edges.get(place)) else {
        return Ok(());
    };
    module.ports.push(DrivenPort {
        name: copied(alloc, &port.name)?,
        width: variable.length,
        role: role_of(port, *heard, words),
        start: None,
    })?;
    module.edges.push(*heard)?;
    module.ascends.push(match variable.bounds {
        None => false,
        Some(bounds) => bounds.left < bounds.right,
    })?;
    Ok(())
}

// Puts the ports, as the design has them.
fn put_ports(
    alloc: Global,
    module: &mut DrivenModule,
    design: &Design,
    ports: &[ModulePort],
    words: &DriveWords<'_>,
) -> Result<(), NoMemory> {
    let edges = edges_of(alloc, design)?;
    for port in ports {
        put_port(alloc, module, design, &edges, port, words)?;
    }
    Ok(())
}

// Puts the paths of the variables in the instance, as the design has them.
fn put_inner(alloc: Global, module: &mut DrivenModule, design: &Design) -> Result<(), NoMemory> {
    let prefix = prefix_of(alloc, module)?;
    for variable in &design.variables {
        if let Some(path) = variable.name.as_slice().strip_prefix(prefix.as_slice()) {
            module.inner.push(copied(alloc, path)?)?;
        }
    }
    Ok(())
}

// The files, and behind them a module with an instance of the one that is driven.
fn with_skeleton(
    alloc: Global,
    texts: &[Vec<u8>],
    module: &DrivenModule,
) -> Result<Vec<Vec<u8>>, NoMemory> {
    let mut all = Vec::new(alloc);
    for text in texts {
        all.push(copied(alloc, text)?)?;
    }
    all.push(skeleton_text(
        alloc,
        &module.top,
        &module.name,
        &module.parameters,
        &module.instance,
    )?)?;
    Ok(all)
}

// Reads the module, within the testbench round it.
fn read_module(
    alloc: Global,
    texts: &[Vec<u8>],
    module: &mut DrivenModule,
    modules: &Modules,
    words: &DriveWords<'_>,
) -> Result<(), Stop> {
    let all = with_skeleton(alloc, texts, module)?;
    let options = options_of(Some(&module.top))?;
    match machine_of_files(alloc, &all, &options) {
        Err(fault) if words.parameters.is_empty() => Err(refused_skeleton(alloc, fault)),
        Err(fault) => Err(refused_parameter(alloc, fault, &module.name, &module.parameters)),
        Ok(placed) => {
            let design = placed.machine.design();
            module.scale = design.scale;
            put_ports(alloc, module, design, &modules.ports, words)?;
            put_inner(alloc, module, design)?;
            Ok(())
        }
    }
}

// E303 where the name is none of a port, E310 where it is one of an output.
fn check_input(alloc: Global, module: &DrivenModule, option: &str, name: &str) -> Result<(), Stop> {
    for port in &module.ports {
        if port.name.as_slice() == name.as_bytes() && port.role != Role::Output {
            return Ok(());
        }
    }
    Err(refused_input(alloc, module, option, name))
}

// The same of each of these words.
fn check_inputs(
    alloc: Global,
    module: &DrivenModule,
    option: &str,
    names: &[&str],
) -> Result<(), Stop> {
    for name in names {
        check_input(alloc, module, option, *name)?;
    }
    Ok(())
}

// The same of each word that names an input.
fn check_names(alloc: Global, module: &DrivenModule, words: &DriveWords<'_>) -> Result<(), Stop> {
    check_inputs(alloc, module, "--clock", &words.clocks)?;
    check_inputs(alloc, module, "--async", &words.alone)?;
    check_inputs(alloc, module, "--declared", &words.declared)
}

/// The module of files that the words ask for. E1xx to E3xx where the files are refused, E303 where a name isn't one of its ports or it has no
/// input, E305 where it has no such parameter, E310 where a name is one of an output.
pub(crate) fn module_of(
    alloc: Global,
    texts: &[Vec<u8>],
    words: &DriveWords<'_>,
) -> Result<DrivenModule, Stop> {
    let name = top_of(alloc, texts, words.top)?;
    let Some(modules) = modules_of_files(alloc, texts, &name)? else {
        return Err(Stop::Refused(Fault::NoTree(At(None))));
    };
    let mut module = named_module(alloc, name, &modules, words)?;
    read_module(alloc, texts, &mut module, &modules, words)?;
    if module.inputs() == 0 {
        let said = told(
            alloc,
            &[
                Piece::Cut(&module.name, 200),
                Piece::Bytes(b" has no inputs\n"),
            ],
        );
        return Err(crate::refused::unknown(said));
    }
    check_names(alloc, &module, words)?;
    Ok(module)
}
