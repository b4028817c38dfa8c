// Buses that stand in a dump bit by bit.

use crate::indices::Indices;
use crate::scopes::parts_of;
use basis::NoMemory;
use std::alloc::Global;
use vcd_read::VcdVariable;

// A bit of a bus: its number, and the place of its variable.
#[derive(Clone, Copy)]
struct BusBit {
    index: u64,
    place: usize,
}

// The leftmost of the bits behind this number, or, where it is none, of all.
fn next_bit(bits: &[BusBit], ascends: bool, behind: Option<u64>) -> Option<BusBit> {
    let mut found: Option<BusBit> = None;
    for bit in bits {
        let is_left = match found {
            None => true,
            Some(other) => (bit.index < other.index) == ascends,
        };
        let is_behind = match behind {
            None => true,
            Some(index) => bit.index != index && (bit.index > index) == ascends,
        };
        if is_left && is_behind {
            found = Some(*bit);
        }
    }
    found
}

// The places of the variables of these bits, the leftmost first.
fn in_order(alloc: Global, bits: &[BusBit], ascends: bool) -> Result<Vec<usize>, NoMemory> {
    let mut places = Vec::new(alloc);
    let mut behind: Option<u64> = None;
    for _ in 0..bits.len() {
        let Some(bit) = next_bit(bits, ascends, behind) else {
            return Ok(places);
        };
        places.push(bit.place)?;
        behind = Some(bit.index);
    }
    Ok(places)
}

// The bits of a bus of this name in a scope.
fn bits_of(
    alloc: Global,
    variables: &[VcdVariable],
    indices: &Indices,
    path: &[u8],
    name: &[u8],
) -> Result<Vec<BusBit>, NoMemory> {
    let mut bits = Vec::new(alloc);
    for (place, variable) in variables.iter().enumerate() {
        let (scope, leaf) = parts_of(&variable.name);
        if let (true, true, Some(index)) = (scope == path, leaf == name, indices.at(place)) {
            bits.push(BusBit { index, place })?;
        }
    }
    Ok(bits)
}

/// The places of the variables that are bits of a bus of this name in a scope, each number once, the leftmost first; `ascends` where that has
/// the lowest number.
pub fn bus_places(
    alloc: Global,
    variables: &[VcdVariable],
    indices: &Indices,
    path: &[u8],
    name: &[u8],
    ascends: bool,
) -> Result<Vec<usize>, NoMemory> {
    let bits = bits_of(alloc, variables, indices, path, name)?;
    in_order(alloc, &bits, ascends)
}
