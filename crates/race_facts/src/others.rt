// What differs beside what is told first: each variable once, and the lines of each slot.

use basis::NoMemory;
use race_findings::{Aspect, Difference, Name};
use std::alloc::Global;

// What was named so far: of each object, by the number of a variable, whether it was; and the time of the lines that are told first.
#[derive(Drop)]
struct Named<'a> {
    objects: &'a [usize],
    seen: Vec<bool>,
    lines: Option<u64>,
}

impl<'a> Named<'a> {
    // Nothing yet.
    fn new(alloc: Global, objects: &'a [usize]) -> Result<Named<'a>, NoMemory> {
        let mut seen = Vec::new(alloc);
        for _ in objects {
            seen.push(false)?;
        }
        Ok(Named {
            objects,
            seen,
            lines: None,
        })
    }

    // Whether the variable is named for the first time.
    fn is_new(&mut self, variable: usize) -> bool {
        let object = self.objects.get(variable).copied().unwrap_or(variable);
        match self.seen.get_mut(object) {
            None => true,
            Some(seen) => {
                let is_new = !*seen;
                *seen = true;
                is_new
            }
        }
    }

    // Whether what the name is of wasn't named yet.
    fn takes(&mut self, name: Name) -> bool {
        match name.variable {
            Some(variable) => self.is_new(variable),
            None => self.lines != Some(name.time),
        }
    }

    // What is told first.
    fn put_first(&mut self, first: &Difference) {
        match &first.aspect {
            Aspect::Variable(variable) => {
                self.is_new(*variable);
            }
            Aspect::Lines => self.lines = Some(first.time),
            Aspect::Ends(_) => {}
        }
    }
}

// The name of a difference, where it has one.
fn name_of(difference: &Difference) -> Option<Name> {
    match &difference.aspect {
        Aspect::Variable(variable) => Some(Name {
            time: difference.time,
            variable: Some(*variable),
        }),
        Aspect::Lines => Some(Name {
            time: difference.time,
            variable: None,
        }),
        Aspect::Ends(_) => None,
    }
}

// The name of the difference, if there is one, and it has a name.
fn name_in(difference: Option<&Difference>) -> Option<Name> {
    match difference {
        None => None,
        Some(difference) => name_of(difference),
    }
}

// Puts the name, where what it is of wasn't named yet.
fn put_other(named: &mut Named<'_>, others: &mut Vec<Name>, name: Name) -> Result<(), NoMemory> {
    if named.takes(name) {
        others.push(name)?;
    }
    Ok(())
}

/// What differs beside what is told first: the earliest difference, where that is another one, and what of the next ones wasn't named yet.
pub fn others_of(
    alloc: Global,
    objects: &[usize],
    first: &Difference,
    earliest: Option<&Difference>,
    next: &[Name],
) -> Result<Vec<Name>, NoMemory> {
    let (mut named, mut others) = (Named::new(alloc, objects)?, Vec::new(alloc));
    named.put_first(first);
    if let Some(name) = name_in(earliest) {
        put_other(&mut named, &mut others, name)?;
    }
    for name in next {
        put_other(&mut named, &mut others, *name)?;
    }
    Ok(others)
}
