// The ports of a module, with their directions (IEEE 1364-2005, 12.3).

use basis::NoMemory;
use std::alloc::Global;
use vast::module::{ModuleTree, TextTree};
use vlex::{Tokens, tokens};
use vmodules::letters::letters;
use vmodules::ports::{PortForm, ports_of};
use vparse::parse;
use vsrc::expand;

/// A port: its name, and whether it is an output.
#[derive(Drop)]
pub struct ModulePort {
    pub name: Vec<u8>,
    pub output: bool,
}

/// The names of the modules of a text, and the ports of one of them, in their order.
#[derive(Drop)]
pub struct Modules {
    pub names: Vec<Vec<u8>>,
    pub ports: Vec<ModulePort>,
}

// With a port more.
fn push_port(
    alloc: Global,
    ports: &mut Vec<ModulePort>,
    tokens: &Tokens<'_>,
    form: &PortForm<'_>,
) -> Result<(), NoMemory> {
    ports.push(ModulePort {
        name: Vec::from_slice(alloc, letters(tokens, form.name))?,
        output: form.output,
    })?;
    Ok(())
}

// The ports of a module.
fn module_ports(
    alloc: Global,
    tokens: &Tokens<'_>,
    unit: &ModuleTree,
) -> Result<Vec<ModulePort>, NoMemory> {
    let forms = ports_of(alloc, tokens, unit)?;
    let mut ports = Vec::new(alloc);
    for form in &forms {
        push_port(alloc, &mut ports, tokens, form)?;
    }
    Ok(ports)
}

// The modules of a tree.
fn modules_of_tree(
    alloc: Global,
    tokens: &Tokens<'_>,
    tree: &TextTree,
    module: &[u8],
) -> Result<Modules, NoMemory> {
    let mut modules = Modules {
        names: Vec::new(alloc),
        ports: Vec::new(alloc),
    };
    for unit in &tree.modules {
        let name = letters(tokens, unit.name);
        modules.names.push(Vec::from_slice(alloc, name)?)?;
        if name == module {
            modules.ports = module_ports(alloc, tokens, unit)?;
        }
    }
    Ok(modules)
}

/// The modules of files that have a design, and the ports of the one of this name; none where they have no text.
pub fn modules_of_files(
    alloc: Global,
    files: &[Vec<u8>],
    module: &[u8],
) -> Result<Option<Modules>, NoMemory> {
    let Ok(source) = expand(alloc, files) else {
        return Ok(None);
    };
    let Ok(found) = tokens(alloc, &source) else {
        return Ok(None);
    };
    let Ok(tree) = parse(alloc, &found) else {
        return Ok(None);
    };
    Ok(Some(modules_of_tree(alloc, &found, &tree, module)?))
}
