// What steps read and change: variables, waits and the end of the run.

ghost use Rattle.std.specs.Prelude.{◌≡◌, [], ◌∷◌, ◌++◌, ◌==◌, ◌&&◌, IfOk, OnOk};
ghost use Rattle.footprints.specs.Footprints as spec;

use crate::footprint::Footprint;
use basis::NoMemory;
use std::alloc::Global;
use std::marker::Model;

/// What a wait waits for: a variable or a named event, by its number.
#[derive(Clone, Copy, PartialEq, Eq)]
pub enum Awaited {
    Variable(u32),
    Event(usize),
}

/// A variable, by its number; that something comes which a process waits for since its visit of this number; or the end of the run.
#[derive(Clone, Copy, PartialEq, Eq)]
pub enum Thing {
    Variable(u32),
    Wait {
        process: u32,
        number: usize,
        of: Awaited,
    },
    End,
}

/// A list of things. One may stand in it more than once. A clause sees the list.
pub struct Things {
    list: Vec<Thing>,
}

impl Drop for Things {
    fn drop(self) {
        let Things { list: _ } = self;
    }
}

impl Model for Things {
    ghost use Rattle.std.specs.Prelude.{List};
    ghost use Rattle.footprints.specs.declared.thing.Thing.{Thing};

    ghost Value = { List Thing };

    ghost view = { λ things. things.list.items };
}

impl Things {
    /// These things.
    pub fn new(list: Vec<Thing>) -> Things
        ensures { result ≡ list.items }
    {
        Things { list }
    }

    /// No thing.
    pub fn none(alloc: Global) -> Things
        ensures { result ≡ [] }
    {
        Things {
            list: Vec::new(alloc),
        }
    }

    /// One thing.
    pub fn one(alloc: Global, thing: Thing) -> Result<Things, NoMemory>
        ensures { IfOk result (λ things. things ≡ thing ∷ []) }
    {
        let mut list = Vec::new(alloc);
        list.push(thing)?;
        Ok(Things { list })
    }

    /// The same.
    pub fn copy(&self, alloc: Global) -> Result<Things, NoMemory>
        ensures { IfOk result (λ things. things ≡ self.now) }
    {
        let mut list = Vec::new(alloc);
        list.extend_from_slice(&self.list)?;
        Ok(Things { list })
    }

    /// These things too.
    pub fn put_all(&mut self, more: &[Thing]) -> Result<(), NoMemory>
        ensures { OnOk result (self.new ≡ self.old ++ more.now) }
    {
        self.list.extend_from_slice(more)?;
        Ok(())
    }

    /// The things, as a list of its own.
    pub(crate) fn into_list(self) -> Vec<Thing>
        ensures { result.items ≡ self }
    {
        let Things { list } = self;
        list
    }

    /// The things, as a list.
    pub fn as_slice(&self) -> &[Thing]
        ensures { result.now ≡ self.now }
    {
        &self.list
    }
}

// Whether two wait for the same.
fn is_same_awaited(one: Awaited, other: Awaited) -> bool
    ensures { result ≡ spec.same_awaited one other }
{
    match (one, other) {
        (Awaited::Variable(number), Awaited::Variable(same)) => number == same,
        (Awaited::Event(number), Awaited::Event(same)) => number == same,
        _ => false,
    }
}

// Whether two waits are of the same process and visit.
fn is_same_wait(process: u32, number: usize, same: u32, other: usize) -> bool
    ensures { result ≡ ((process == same) && (number == other)) }
{
    process == same && number == other
}

// Whether two are the same thing.
fn is_same(one: &Thing, other: &Thing) -> bool
    ensures { result ≡ spec.same_thing one.now other.now }
{
    match (one, other) {
        (Thing::Variable(number), Thing::Variable(same)) => number == same,
        (
            Thing::Wait {
                process,
                number,
                of,
            },
            Thing::Wait {
                process: same,
                number: other,
                of: what,
            },
        ) => is_same_wait(*process, *number, *same, *other) && is_same_awaited(*of, *what),
        (Thing::End, Thing::End) => true,
        _ => false,
    }
}

// Whether a thing stands in a list.
fn is_in(thing: &Thing, list: &[Thing]) -> bool
    ensures { result ≡ spec.is_in thing.now list.now }
{
    for other in list {
        if is_same(thing, other) {
            return true;
        }
    }
    false
}

/// Whether something stands in both lists.
pub fn meet(one: &[Thing], other: &[Thing]) -> bool
    ensures { result ≡ spec.meet one.now other.now }
{
    for thing in one {
        if is_in(thing, other) {
            return true;
        }
    }
    false
}

// Of these things those that stand in another list.
fn put_common(common: &mut Vec<Thing>, list: &[Thing], other: &[Thing]) -> Result<(), NoMemory>
    ensures { OnOk result (common.new.items ≡ common.old.items ++ spec.common list.now other.now) }
{
    for thing in list {
        if is_in(thing, other) {
            common.push(*thing)?;
        }
    }
    Ok(())
}

/// What one changes and the other reads or changes.
pub fn shared_things(alloc: Global, one: &Footprint, other: &Footprint) -> Result<Things, NoMemory>
    ensures { IfOk result (λ things. things ≡ spec.shared_things one.now other.now) }
{
    let mut common = Vec::new(alloc);
    put_common(&mut common, one.changes.as_slice(), other.reads.as_slice())?;
    put_common(
        &mut common,
        one.changes.as_slice(),
        other.changes.as_slice(),
    )?;
    put_common(&mut common, other.changes.as_slice(), one.reads.as_slice())?;
    Ok(Things::new(common))
}
