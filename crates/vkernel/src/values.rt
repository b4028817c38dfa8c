// The values of all variables, and parts written over them (IEEE 1364-2005, 4.2).

ghost use Rattle.std.specs.Prelude.{◌≡◌, slice_set, IfOk, IfSome};
ghost use Rattle.vmodel.specs.Parts as spec;
ghost use Rattle.vmodel.specs.InnerWaking.{IsChange};
ghost use Rattle.vmodel.specs.Inner.{variable_of};
ghost use Rattle.vkernel.specs.Sums.{values_sum, vector_share};

use crate::sums::{share, with_share};
use basis::NoMemory;
use std::alloc::Global;
use std::marker::Model;
use vbits::Vec4;
use vmodel::part::Part;
use vmodel::values::{Change, value_after};

/// The value of each variable, by its number. The sum of their shares is kept at each write, so that neither a hash nor, mostly, a test of
/// equality has to read them all.
#[derive(Drop)]
pub(crate) struct Store {
    values: Vec<Vec4>,
    sum: u64,
}

impl Model for Store {
    ghost use Rattle.std.specs.Prelude.{◌≡◌, List};
    ghost use Rattle.vbits.specs.Vectors.{Vector};
    ghost use Rattle.vkernel.specs.Sums.{values_sum};

    ghost Value = { List Vector };

    ghost view = { λ s. s.values.items };

    ghost invariant = { λ s. s.sum ≡ values_sum s.values.items };
}

/// Two are equal where they hold the same values.
impl PartialEq for Store {
    ghost use Rattle.std.specs.Cmp.{partial_equiv_from_equiv};
    ghost use Rattle.vmodel.specs.Same.{values_same};
    ghost use Rattle.vmodel.specs.SameLaws.{values_equivalent};

    ghost eq = { values_same };

    ghost laws = { partial_equiv_from_equiv values_equivalent };

    #[tactic(auto, using(crate::proofs::SumLemmas::values_apart))]
    fn eq(&self, other: &Store) -> bool {
        if self.sum != other.sum {
            return false;
        }
        self.values == other.values
    }
}

impl Eq for Store {
    ghost use Rattle.vmodel.specs.SameLaws.{values_equivalent};

    ghost laws = { values_equivalent };
}

fn value_share(variable: u64, value: Vec4) -> u64
    ensures { result ≡ vector_share variable value }
{
    let (known, unknown) = value.planes();
    share(variable, known, unknown)
}

#[tactic(auto, using(crate::proofs::SumLemmas::values_next, crate::proofs::SumLemmas::values_open))]
fn sum_of(values: &[Vec4]) -> u64
    ensures { result ≡ values_sum values.now }
{
    let mut sum = 0u64;
    let mut variable = 0u64;
    for value in values {
        sum = sum.wrapping_add(value_share(variable, *value));
        variable += 1;
    }
    sum
}

impl Store {
    /// One that holds these values. The error is want of memory, E901.
    pub(crate) fn from_slice(alloc: Global, values: &[Vec4]) -> Result<Store, NoMemory>
        ensures { IfOk result (λ store. store ≡ values.now) }
    {
        Ok(Store {
            values: Vec::from_slice(alloc, values)?,
            sum: sum_of(values),
        })
    }

    /// One that is the same. The error is want of memory, E901.
    pub(crate) fn copy(&self, alloc: Global) -> Result<Store, NoMemory>
        ensures { IfOk result (λ store. store ≡ self.now) }
    {
        Ok(Store {
            values: Vec::from_slice(alloc, &self.values)?,
            sum: self.sum,
        })
    }

    /// The values, by the numbers of the variables.
    pub(crate) fn as_slice(&self) -> &[Vec4]
        ensures { result.now ≡ self.now }
    {
        &self.values
    }

    /// The sum of their shares.
    pub(crate) fn sum(&self) -> u64
        ensures { result ≡ values_sum self.now }
    {
        self.sum
    }

    /// Where the values are kept.
    pub(crate) fn allocator(&self) -> Global {
        *self.values.allocator()
    }

    // Writes a whole variable, if there is one.
    fn set(&mut self, variable: u32, new: Vec4) -> Option<Change>
        ensures values { self.new ≡ slice_set self.old variable new }
        ensures change { IsChange result self.old self.new }
        ensures variable { IfSome result (λ c. c.variable ≡ variable) }
    {
        if variable as usize >= self.values.len() {
            return None;
        }
        let old = self.values[variable as usize];
        if old == new {
            return None;
        }
        self.values[variable as usize] = new;
        let number = variable as u64;
        self.sum = with_share(self.sum, value_share(number, old), value_share(number, new));
        Some(Change { variable, old, new })
    }

    /// Writes one part; a part of no variable writes nothing. The answer is what changed.
    pub(crate) fn write(&mut self, part: Part) -> Option<Change>
        ensures values { self.new ≡ spec.write part self.old }
        ensures change { IsChange result self.old self.new }
        ensures variable { IfSome result (λ c. c.variable ≡ variable_of part) }
    {
        let variable = part.variable();
        let new = value_after(self.as_slice(), &[part], variable);
        self.set(variable, new)
    }

    /// Writes the parts from left to right.
    pub(crate) fn write_all(&mut self, parts: &[Part])
        ensures { self.new ≡ spec.with_parts parts.now self.old }
    {
        for part in parts {
            self.write(*part);
        }
    }
}
