// Names by the three letters that stand side by side in them, so that a pattern is compared with few names.

use basis::NoMemory;
use std::alloc::Global;

// How many rows there are; several threes share one.
const ROWS: usize = 4_096;

// How many names there are at most: the rows have a number for each letter of each name.
const NAMES: usize = 65_536;

/// Of each three letters the places of the names that have them, in order. None where there are too many names.
#[derive(Drop)]
pub(crate) struct NameIndex {
    rows: Vec<Vec<usize>>,
    count: usize,
}

// The letter at this place.
fn letter(text: &[u8], at: usize) -> u64 {
    match text.get(at) {
        None => 0,
        Some(letter) => u64::from(*letter),
    }
}

// The row of the three letters from this place on.
fn row_at(text: &[u8], at: usize) -> usize {
    let (second, third) = (at.saturating_add(1), at.saturating_add(2));
    let number = letter(text, at)
        .saturating_mul(1_369)
        .saturating_add(letter(text, second).saturating_mul(37))
        .saturating_add(letter(text, third));
    (number % 4_096) as usize
}

// Whether three letters stand from this place on, and none is a line feed.
fn are_three(text: &[u8], at: usize) -> bool {
    match text.get(at..at.saturating_add(3)) {
        None => false,
        Some(three) => !three.contains(&b'\n'),
    }
}

// Puts the place into a row, once.
fn put(row: &mut Vec<usize>, place: usize) -> Result<(), NoMemory> {
    if row.last() != Some(&place) {
        row.push(place)?;
    }
    Ok(())
}

impl NameIndex {
    /// Of no name.
    pub fn new(alloc: Global) -> Result<NameIndex, NoMemory> {
        let mut rows = Vec::new(alloc);
        for _ in 0..ROWS {
            rows.push(Vec::new(alloc))?;
        }
        Ok(NameIndex { rows, count: 0 })
    }

    /// The name of this place, which is one more than that of the last name.
    pub fn put(&mut self, place: usize, name: &[u8]) -> Result<(), NoMemory> {
        self.count = self.count.saturating_add(1);
        if self.count > NAMES {
            return Ok(());
        }
        for at in 0..name.len() {
            if are_three(name, at) {
                if let Some(row) = self.rows.get_mut(row_at(name, at)) {
                    put(row, place)?;
                }
            }
        }
        Ok(())
    }

    // The lesser one of both rows, if there are both.
    fn lesser<'n>(&'n self, row: Option<&'n [usize]>, other: usize) -> Option<&'n [usize]> {
        let Some(other) = self.rows.get(other) else {
            return row;
        };
        match row {
            Some(row) if row.len() <= other.len() => Some(row),
            _ => Some(other),
        }
    }

    /// Places of names of which those are that have these texts, which are parted by line feeds: few of them, or none is answered, where all
    /// names may have them.
    pub fn places(&self, texts: &[u8]) -> Option<&[usize]> {
        let mut row = None;
        if self.count > NAMES {
            return row;
        }
        for at in 0..texts.len() {
            if are_three(texts, at) {
                row = self.lesser(row, row_at(texts, at));
            }
        }
        row
    }
}
