// What is said of a file that can't be written.

use crate::identity::is_folder_there;
use basis::NoMemory;
use shown_text::shown_name;
use std::alloc::Global;
use std::io;

/// Why a file isn't written.
#[derive(Drop)]
pub(crate) enum Trouble {
    Memory(NoMemory),
    // A folder or a device stands there.
    NoFile,
    // All names for its new text are taken.
    Taken,
    // A file has come there that isn't a dump of the program.
    Another,
    System(io::Error),
}

impl From<NoMemory> for Trouble {
    fn from(refused: NoMemory) -> Trouble {
        Trouble::Memory(refused)
    }
}

impl From<io::Error> for Trouble {
    fn from(error: io::Error) -> Trouble {
        Trouble::System(error)
    }
}

// Of a name at which something else stands.
fn no_file_text(alloc: Global, name: &str) -> Result<String, NoMemory> {
    Ok(format!(in alloc; "{name}: can't be written: it is a folder or a device\n")?)
}

// Of a file for whose new text no name is free.
fn taken_text(alloc: Global, name: &str) -> Result<String, NoMemory> {
    Ok(format!(in alloc; "{name}: can't be written: {name}.new and each name after it is taken\n")?)
}

// Of a file that has come there meanwhile.
fn another_text(alloc: Global, name: &str) -> Result<String, NoMemory> {
    Ok(format!(in alloc;
        "{name}: can't be written: it is there and is no dump of vrace's; --write-vcd writes over any file\n"
    )?)
}

// With the system's reason.
fn unwritten_text(alloc: Global, name: &str, error: &io::Error) -> Result<String, NoMemory> {
    Ok(format!(in alloc; "{name}: can't be written: {error}\n")?)
}

// Of a file whose folder isn't there.
fn no_folder_text(alloc: Global, name: &str) -> Result<String, NoMemory> {
    Ok(format!(in alloc; "{name}: can't be written; is its folder there?\n")?)
}

/// A line on a file that isn't written.
pub(crate) fn trouble_text(
    rt: &HostRuntime,
    name: &str,
    trouble: &Trouble,
) -> Result<String, NoMemory> {
    let shown = shown_name(rt.alloc(), name)?;
    let shown = shown.as_str();
    match trouble {
        Trouble::Memory(refused) => Err(*refused),
        Trouble::NoFile => no_file_text(rt.alloc(), shown),
        Trouble::Taken => taken_text(rt.alloc(), shown),
        Trouble::Another => another_text(rt.alloc(), shown),
        Trouble::System(error) if is_folder_there(rt, name) => {
            unwritten_text(rt.alloc(), shown, error)
        }
        Trouble::System(_) => no_folder_text(rt.alloc(), shown),
    }
}
