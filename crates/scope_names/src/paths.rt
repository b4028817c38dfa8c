// Paths of scopes, and which one is read as which.

use basis::NoMemory;
use std::alloc::Global;

/// The names of a scope and of those round it, the outermost first; and the names under which it is read.
#[derive(Drop)]
pub struct Renaming {
    pub from: Vec<Vec<u8>>,
    pub to: Vec<Vec<u8>>,
}

// With the name that was read, which is a new one behind it.
fn push_name(alloc: Global, names: &mut Vec<Vec<u8>>, name: &[u8]) -> Result<(), NoMemory> {
    names.push(Vec::from_slice(alloc, name)?)?;
    Ok(())
}

// The names of a path, which dots separate.
fn names_of(alloc: Global, path: &[u8]) -> Result<Vec<Vec<u8>>, NoMemory> {
    let mut names = Vec::new(alloc);
    let mut name = Vec::new(alloc);
    for byte in path {
        if *byte == b'.' {
            push_name(alloc, &mut names, &name)?;
            name.clear();
        } else {
            name.push(*byte)?;
        }
    }
    push_name(alloc, &mut names, &name)?;
    Ok(names)
}

/// What `FROM=TO` says, if it says that.
pub fn renaming_of(alloc: Global, word: &str) -> Result<Option<Renaming>, NoMemory> {
    match word.split_once("=") {
        Some((from, to)) if !from.is_empty() && !to.is_empty() => Ok(Some(Renaming {
            from: names_of(alloc, from.as_bytes())?,
            to: names_of(alloc, to.as_bytes())?,
        })),
        _ => Ok(None),
    }
}

/// Whether both paths have the same names.
pub(crate) fn are_same(one: &[Vec<u8>], other: &[Vec<u8>]) -> bool {
    if one.len() != other.len() {
        return false;
    }
    for (name, same) in one.iter().zip(other.iter()) {
        if name.as_slice() != same.as_slice() {
            return false;
        }
    }
    true
}
