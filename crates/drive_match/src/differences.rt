// What differs, each variable where it differs first.

use crate::asked::Bounds;
use basis::NoMemory;
use dump_match::Differing;
use race_words::put_value;
use std::alloc::Global;
use vbits::Vec4;
use vdesign::design::Design;

// When a variable differs first, and how.
#[derive(Clone, Copy)]
struct Met {
    time: u64,
    differing: Differing,
}

/// The variables that differ, in the order in which they were met.
#[derive(Drop)]
pub(crate) struct Differences {
    list: Vec<Met>,
    seen: Vec<bool>,
}

/// A variable of the files that differs: when first, in units of the precision, and what the dump and the run have of it then, as it is shown.
#[derive(Drop)]
pub struct Difference {
    pub time: u64,
    pub name: Vec<u8>,
    pub told: Vec<u8>,
    pub value: Vec<u8>,
}

// Whether each of its bits is 0 or 1.
fn is_known(value: Vec4) -> bool {
    value.to_u64().is_some()
}

impl Differences {
    /// None, of so many variables.
    pub(crate) fn none(alloc: Global, count: usize) -> Result<Differences, NoMemory> {
        let mut seen = Vec::new(alloc);
        seen.resize(count, false)?;
        Ok(Differences {
            list: Vec::new(alloc),
            seen,
        })
    }

    /// How many variables differ.
    pub(crate) fn len(&self) -> usize {
        self.list.len()
    }

    // Whether it is the first one of its variable; from now on it isn't.
    fn is_first(&mut self, variable: usize) -> bool {
        match self.seen.get_mut(variable) {
            None => false,
            Some(seen) => {
                let is_first = !*seen;
                *seen = true;
                is_first
            }
        }
    }

    // What differs at this time.
    fn put(&mut self, time: u64, differing: Differing, bounds: Bounds) -> Result<(), NoMemory> {
        let counts = bounds.knows_all || is_known(differing.value);
        if counts && self.is_first(differing.variable) {
            self.list.push(Met { time, differing })?;
        }
        Ok(())
    }

    /// All that differs at this time.
    pub(crate) fn put_all(
        &mut self,
        time: u64,
        all: &[Differing],
        bounds: Bounds,
    ) -> Result<(), NoMemory> {
        for differing in all {
            self.put(time, *differing, bounds)?;
        }
        Ok(())
    }

    /// The first of them, at most so many.
    pub(crate) fn told(
        &self,
        alloc: Global,
        design: &Design,
        most: usize,
    ) -> Result<Vec<Difference>, NoMemory> {
        let mut told = Vec::new(alloc);
        for met in self.list.iter().take(most) {
            put_told(alloc, &mut told, design, *met)?;
        }
        Ok(told)
    }
}

// Puts what is shown of one.
fn put_told(
    alloc: Global,
    list: &mut Vec<Difference>,
    design: &Design,
    met: Met,
) -> Result<(), NoMemory> {
    let Met { time, differing } = met;
    let Some(variable) = design.variables.get(differing.variable) else {
        return Ok(());
    };
    let mut told = Vec::new(alloc);
    put_value(&mut told, variable, differing.told)?;
    let mut value = Vec::new(alloc);
    put_value(&mut value, variable, differing.value)?;
    let name = Vec::from_slice(alloc, &variable.name)?;
    list.push(Difference {
        time,
        name,
        told,
        value,
    })?;
    Ok(())
}
