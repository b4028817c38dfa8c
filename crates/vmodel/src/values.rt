// The values of all variables, by number (IEEE 1364-2005, 4.2).

ghost use Rattle.std.specs.Prelude.{◌≡◌, ◌≤◌, List, slice_set, IfOk, OnOk, IfSome, Some, map};
ghost use Rattle.vbits.specs.Vectors.{Vector};
ghost use Rattle.vmodel.specs.Parts as spec;
ghost use Rattle.vmodel.specs.Run.{opening_value};
ghost use Rattle.vmodel.specs.InnerWaking.{IsChange};
ghost use Rattle.vmodel.specs.Inner.{value_over, over_one, variable_of};
ghost use Rattle.vmodel.specs.Touched.{ChangesOnly, TakesOver};

use crate::part::Part;
use crate::touched::Touched;
use basis::NoMemory;
use std::alloc::Global;
use std::marker::Model;
use vbits::Vec4;
use vdesign::design::Variable;

/// A change of a variable by a step.
#[derive(Clone, Copy)]
pub struct Change {
    pub variable: u32,
    pub old: Vec4,
    pub new: Vec4,
}

// A vector with these letters from a place on; where it has not so many nothing is written.
fn with_bits(old: Vec4, low: u32, value: Vec4) -> Vec4
    ensures { result ≡ spec.with_bits old low value }
{
    if low >= old.len() || value.len() > old.len() - low {
        return old;
    }
    old.put(low + value.len() - 1, low, value)
}

// What a part makes of its variable's value.
fn written_over(old: Vec4, part: Part) -> Vec4
    ensures { result ≡ value_over part old }
{
    match part {
        Part::Whole { value, .. } => value,
        Part::Bits { low, value, .. } => with_bits(old, low, value),
    }
}

// What a part makes of a variable's value: nothing, where the variable is another.
fn next_value(old: Vec4, part: Part, variable: u32) -> Vec4
    ensures { result ≡ over_one part variable old }
{
    if part.variable() == variable {
        written_over(old, part)
    } else {
        old
    }
}

/// The value of the variable of this number; x, one bit wide, where there is none.
pub fn value_in(values: &[Vec4], variable: u32) -> Vec4
    ensures { result ≡ spec.value_in values.now variable }
{
    match values.get(variable as usize) {
        Some(value) => *value,
        None => Vec4::all_x(1),
    }
}

/// The value that a variable has after the parts are written over these values.
#[tactic(auto, using(crate::proofs::PartLemmas::followed_is, crate::proofs::PartLemmas::nowhere_after))]
pub fn value_after(values: &[Vec4], parts: &[Part], variable: u32) -> Vec4
    ensures { result ≡ spec.value_in (spec.with_parts parts.now values.now) variable }
{
    let mut value = value_in(values, variable);
    if variable as usize >= values.len() {
        return value;
    }
    for part in parts {
        value = next_value(value, *part, variable);
    }
    value
}

/// The values of all variables. A clause sees them as their list.
pub struct Values {
    list: Vec<Vec4>,
}

impl Drop for Values {
    fn drop(self) {
        let Values { list: _ } = self;
    }
}

impl Model for Values {
    ghost use Rattle.std.specs.Prelude.{List};
    ghost use Rattle.vbits.specs.Vectors.{Vector};

    ghost Value = { List Vector };

    ghost view = { λ values. values.list.items };
}

/// Two are equal where they hold the same.
impl PartialEq for Values {
    ghost use Rattle.std.specs.Cmp.{partial_equiv_from_equiv};
    ghost use Rattle.vmodel.specs.Same.{values_same};
    ghost use Rattle.vmodel.specs.SameLaws.{values_equivalent};

    ghost eq = { values_same };

    ghost laws = { partial_equiv_from_equiv values_equivalent };

    fn eq(&self, other: &Values) -> bool {
        self.list == other.list
    }
}

impl Eq for Values {
    ghost use Rattle.vmodel.specs.SameLaws.{values_equivalent};

    ghost laws = { values_equivalent };
}

impl Values {
    /// A variable starts at x, a net that nothing drives at z (4.2.1, 4.2.2).
    pub fn opening(alloc: Global, variables: &[Variable]) -> Result<Values, NoMemory>
        ensures { IfOk result (λ values. values ≡ map opening_value variables.now) }
    {
        let mut list = Vec::new(alloc);
        for variable in variables {
            let value = variable.start.resize(variable.length);
            list.push(value.with_sign(variable.signed))?;
        }
        Ok(Values { list })
    }

    /// These values.
    pub fn new(list: Vec<Vec4>) -> Values
        ensures { result ≡ list.items }
    {
        Values { list }
    }

    /// The values of a list.
    pub fn from_slice(alloc: Global, values: &[Vec4]) -> Result<Values, NoMemory>
        ensures { IfOk result (λ list. list ≡ values.now) }
    {
        let list = Vec::from_slice(alloc, values)?;
        Ok(Values { list })
    }

    /// Other values in place of these. It takes memory only where they are more; where it is refused the values are lost.
    pub fn assign(&mut self, values: &[Vec4]) -> Result<(), NoMemory>
        ensures { OnOk result (self.new ≡ values.now) }
    {
        self.list.clear();
        self.list.extend_from_slice(values)?;
        Ok(())
    }

    // The value of a variable in place of its own, where there is one.
    #[tactic(auto, using(crate::proofs::TouchedLemmas::assigned_there, crate::proofs::TouchedLemmas::assigned_nowhere))]
    fn assign_at(&mut self, values: &[Vec4], variable: u32)
        ensures { TakesOver variable self.old values.now self.new }
    {
        if let Some(value) = values.get(variable as usize) {
            self.set(variable, *value);
        }
    }

    // Those of some variables in place of its own.
    fn assign_each(&mut self, values: &[Vec4], variables: &[u32])
        requires { ChangesOnly (Some variables.now) self.old values.now }
        ensures { self.new ≡ values.now }
    {
        for variable in variables {
            self.assign_at(values, *variable);
        }
    }

    /// Other values in place of these, which differ from them only in such variables. It takes memory only where any variable may
    /// differ and they are more; where it is refused the values are lost.
    pub fn assign_touched(&mut self, values: &[Vec4], touched: &Touched) -> Result<(), NoMemory>
        requires { ChangesOnly touched.now self.old values.now }
        ensures { OnOk result (self.new ≡ values.now) }
    {
        match touched.listed() {
            None => self.assign(values),
            Some(variables) => {
                self.assign_each(values, variables);
                Ok(())
            }
        }
    }

    /// The values, as a list.
    pub fn as_slice(&self) -> &[Vec4]
        ensures { result.now ≡ self.now }
    {
        &self.list
    }

    /// The same values.
    pub fn copy(&self, alloc: Global) -> Result<Values, NoMemory>
        ensures { IfOk result (λ values. values ≡ self.now) }
    {
        let list = Vec::from_slice(alloc, &self.list)?;
        Ok(Values { list })
    }

    /// Writes one part; a part of no variable writes nothing. The answer is what changed.
    pub fn write(&mut self, part: Part) -> Option<Change>
        ensures values { self.new ≡ spec.write part self.old }
        ensures change { IsChange result self.old self.new }
        ensures variable { IfSome result (λ c. c.variable ≡ variable_of part) }
    {
        let variable = part.variable();
        let old = value_in(&self.list, variable);
        self.set(variable, written_over(old, part))
    }

    // Writes a whole variable, if there is one.
    fn set(&mut self, variable: u32, new: Vec4) -> Option<Change>
        ensures values { self.new ≡ slice_set self.old variable new }
        ensures change { IsChange result self.old self.new }
        ensures variable { IfSome result (λ c. c.variable ≡ variable) }
    {
        if variable as usize >= self.list.len() {
            return None;
        }
        let old = self.list[variable as usize];
        self.list[variable as usize] = new;
        if old == new {
            return None;
        }
        Some(Change { variable, old, new })
    }

    /// Writes the parts from left to right.
    pub fn write_all(&mut self, parts: &[Part])
        ensures { self.new ≡ spec.with_parts parts.now self.old }
    {
        for part in parts {
            self.write(*part);
        }
    }
}
