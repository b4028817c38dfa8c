// Of what visits touch, how late the run makes them.

ghost use Rattle.std.specs.Prelude.{◌≡◌, ◌≤◌, ◌<◌, ℕ, true, length, IfOk, OnOk};
ghost use Rattle.footprints.specs.declared.footprint.Footprint.{Footprint};
ghost use Rattle.footprints.specs.Footprints.{is_in, touch};
ghost use Rattle.footprints.specs.Latest as spec;

use crate::footprint::Footprint;
use crate::thing::Thing;
use basis::NoMemory;
use std::alloc::Global;

/// Of each thing a number, 0 where none was put.
#[derive(Drop)]
pub struct Table {
    variables: Vec<usize>,
    // of all waits of a process one
    waits: Vec<usize>,
    // at its place 0
    ends: Vec<usize>,
}

/// Of what visits change, and of what they read or change, the greatest of the places that were put for them.
#[derive(Drop)]
pub struct Latest {
    changed: Table,
    touched: Table,
}

// The number at a place, 0 behind all.
fn number_at(list: &[usize], place: usize) -> usize
    ensures { result ≡ spec.number_at list.now place }
{
    match list.get(place) {
        None => 0,
        Some(number) => *number,
    }
}

// The greater one.
fn greater(one: usize, other: usize) -> usize
    ensures { result ≡ spec.greater one other }
{
    if one < other { other } else { one }
}

// Zeros behind a list, until it has a place.
fn put_zeros(list: &mut Vec<usize>, place: usize) -> Result<(), NoMemory>
    ensures same { OnOk result ((k : ℕ) → spec.number_at list.new.items k ≡ spec.number_at list.old.items k) }
    ensures long { OnOk result (place < length list.new.items) }
{
    while list.len() <= place {
        list.push(0)?;
    }
    Ok(())
}

// The number at a place becomes this one, if that is greater.
#[tactic(auto, using(crate::proofs::LatestLemmas::set_there, crate::proofs::LatestLemmas::set_above))]
fn raise_at(list: &mut Vec<usize>, place: usize, number: usize) -> Result<(), NoMemory>
    ensures kept { OnOk result ((k : ℕ) → spec.number_at list.old.items k ≤ spec.number_at list.new.items k) }
    ensures raised { OnOk result (number ≤ spec.number_at list.new.items place) }
{
    put_zeros(list, place)?;
    if number_at(list, place) < number {
        list[place] = number;
    }
    Ok(())
}

impl Table {
    // No number.
    fn new(alloc: Global) -> Table {
        Table {
            variables: Vec::new(alloc),
            waits: Vec::new(alloc),
            ends: Vec::new(alloc),
        }
    }

    // The number of a thing.
    fn of(&self, thing: &Thing) -> usize
        ensures { result ≡ spec.of_thing self.now thing.now }
    {
        match thing {
            Thing::Variable(number) => number_at(&self.variables, *number as usize),
            Thing::Wait { process, .. } => number_at(&self.waits, *process as usize),
            Thing::End => number_at(&self.ends, 0),
        }
    }

    // That of a thing becomes this one, if that is greater.
    fn raise(&mut self, thing: &Thing, number: usize) -> Result<(), NoMemory>
        ensures kept { OnOk result (spec.IsBelow self.old self.new) }
        ensures raised { OnOk result (number ≤ spec.of_thing self.new thing.now) }
    {
        match thing {
            Thing::Variable(place) => raise_at(&mut self.variables, *place as usize, number),
            Thing::Wait { process, .. } => raise_at(&mut self.waits, *process as usize, number),
            Thing::End => raise_at(&mut self.ends, 0, number),
        }
    }

    // Those of these things become this one, where that is greater.
    fn raise_all(&mut self, things: &[Thing], number: usize) -> Result<(), NoMemory>
        ensures kept { OnOk result (spec.IsBelow self.old self.new) }
        ensures raised { OnOk result (spec.AllReach number self.new things.now) }
    {
        for thing in things {
            self.raise(thing, number)?;
        }
        Ok(())
    }

    // The greatest of those of these things, and of this one.
    fn greatest(&self, things: &[Thing], least: usize) -> usize
        ensures { result ≡ spec.greatest self.now things.now least }
    {
        let mut most = least;
        for thing in things {
            most = greater(most, self.of(thing));
        }
        most
    }
}

impl Latest {
    /// Nothing was put.
    pub fn new(alloc: Global) -> Latest {
        Latest {
            changed: Table::new(alloc),
            touched: Table::new(alloc),
        }
    }

    /// A visit that touches these things, at this place.
    pub fn put(&mut self, footprint: &Footprint, place: usize) -> Result<(), NoMemory>
        ensures kept { OnOk result ((n : ℕ) (other : Footprint) → spec.Reaches n self.old other → spec.Reaches n self.new other) }
        ensures put { OnOk result (spec.Reaches place self.new footprint.now) }
    {
        let reads = footprint.reads.as_slice();
        let changes = footprint.changes.as_slice();
        self.touched.raise_all(reads, place)?;
        self.touched.raise_all(changes, place)?;
        self.changed.raise_all(changes, place)
    }

    /// The greatest place of a visit that touches one of these things.
    pub fn of(&self, footprint: &Footprint) -> usize
        ensures { result ≡ spec.latest_of self.now footprint.now }
    {
        let changes = footprint.changes.as_slice();
        let of_changes = self.touched.greatest(changes, 0);
        self.changed
            .greatest(footprint.reads.as_slice(), of_changes)
    }
}
