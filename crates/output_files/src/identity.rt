// Which file a name is of, whatever it is called.

use std::fs;
use std::fs::File;
use std::io::Read;
use std::os::unix::fs::MetadataExt;

// What a dump of the program begins with (18.2.3).
const OWN_DUMP: [u8; 19] = *b"$version vrace $end";

// What standard input and standard output are as files.
const STANDARD_INPUT: &str = "/dev/stdin";

const STANDARD_OUTPUT: &str = "/dev/stdout";

// Which file it is.
#[derive(Clone, Copy, PartialEq, Eq)]
struct Identity {
    device: u64,
    number: u64,
}

// Which file stands there, if one does; of a link that to which it leads.
fn identity_at(rt: &HostRuntime, name: &str) -> Option<Identity> {
    match fs::metadata(rt, name) {
        Ok(found) => Some(Identity {
            device: found.dev(),
            number: found.ino(),
        }),
        Err(_) => None,
    }
}

/// Whether both names are of one file that is there.
pub fn are_one(rt: &HostRuntime, one: &str, other: &str) -> bool {
    match (identity_at(rt, one), identity_at(rt, other)) {
        (Some(one), Some(other)) => one == other,
        _ => false,
    }
}

/// Whether it is standard output.
pub(crate) fn is_standard_output(rt: &HostRuntime, name: &str) -> bool {
    are_one(rt, name, STANDARD_OUTPUT)
}

// The folder of a file of this name.
fn folder_of(name: &str) -> &str {
    match name.rsplit_once('/') {
        None => ".",
        Some((folder, _)) if folder.is_empty() => "/",
        Some((folder, _)) => folder,
    }
}

/// Its name there.
pub(crate) fn last_name(name: &str) -> &str {
    match name.rsplit_once('/') {
        None => name,
        Some((_, last)) => last,
    }
}

/// Whether the folder of a file of this name is there.
pub(crate) fn is_folder_there(rt: &HostRuntime, name: &str) -> bool {
    match fs::metadata(rt, folder_of(name)) {
        Ok(found) => found.is_dir(),
        Err(_) => false,
    }
}

/// Whether two files that are to be written would be one.
pub(crate) fn would_be_one(rt: &HostRuntime, one: &str, other: &str) -> bool {
    are_one(rt, one, other)
        || (last_name(one) == last_name(other) && are_one(rt, folder_of(one), folder_of(other)))
}

/// Whether what stands there is no file, but a folder or a device.
pub(crate) fn is_no_file(rt: &HostRuntime, name: &str) -> bool {
    match fs::metadata(rt, name) {
        Ok(found) => !found.is_file(),
        Err(_) => name.is_empty(),
    }
}

/// Whether the file is one of these; where there are none, whether it is standard input.
pub(crate) fn is_read(rt: &HostRuntime, name: &str, files: &[&str]) -> bool {
    for file in files {
        if are_one(rt, name, file) {
            return true;
        }
    }
    files.is_empty() && are_one(rt, name, STANDARD_INPUT)
}

/// Whether the file begins as a dump of the program does.
pub(crate) fn is_own_dump(rt: &HostRuntime, name: &str) -> bool {
    let Ok(mut file) = File::open(rt, name) else {
        return false;
    };
    let mut front = [0u8; 19];
    file.read_exact(&mut front).is_ok() && front == OWN_DUMP
}

/// Whether a file stands there that isn't a dump of the program.
pub fn is_another(rt: &HostRuntime, name: &str) -> bool {
    identity_at(rt, name).is_some() && !is_own_dump(rt, name)
}
