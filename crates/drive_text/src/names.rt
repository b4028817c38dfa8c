// Names as a text writes them (IEEE 1364-2005, 3.7).

use basis::NoMemory;
use std::alloc::Global;
use vwords::words::is_name;

// Whether the name needs no backslash.
fn is_simple(name: &[u8]) -> bool {
    match name.split_first() {
        None => false,
        Some((first, _)) => *first != b'\\' && is_name(name),
    }
}

/// Puts the name, as an escaped one where it is no simple name.
pub fn put_name(text: &mut Vec<u8>, name: &[u8]) -> Result<(), NoMemory> {
    if is_simple(name) {
        text.extend_from_slice(name)?;
        return Ok(());
    }
    text.push(b'\\')?;
    text.extend_from_slice(name)?;
    text.push(b' ')?;
    Ok(())
}

// Whether the name stands among these.
fn is_taken(names: &[Vec<u8>], name: &[u8]) -> bool {
    for other in names {
        if other.as_slice() == name {
            return true;
        }
    }
    false
}

/// The name, or where it stands among these, with as many `_` behind it as make it another one.
pub fn fresh_name(alloc: Global, names: &[Vec<u8>], name: &[u8]) -> Result<Vec<u8>, NoMemory> {
    let mut fresh = Vec::from_slice(alloc, name)?;
    for _ in 0..names.len() {
        if !is_taken(names, &fresh) {
            return Ok(fresh);
        }
        fresh.push(b'_')?;
    }
    Ok(fresh)
}
