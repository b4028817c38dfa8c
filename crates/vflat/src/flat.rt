// A state kept flat: where each process stands in the code of the design, and all else in a kernel (`vkernel`) (IEEE 1364-2005,
// clauses 9 and 11).

ghost use Rattle.std.specs.Prelude.{◌≡◌, ◌≤◌, [], length, replicate, Option, None, IfOk};
ghost use Rattle.vflat.specs.Flat as spec;

use crate::points::Points;
use crate::turns::Turns;
use basis::NoMemory;
use std::alloc::Global;
use std::hash::{Hash, Hasher};
use std::marker::Model;
use vbits::Vec4;
use vcode::code::Code;
use vkernel::Kernel;
use vstrata::digest::mix;

/// A state kept flat. A clause sees it as the record `Flat` of specs/Flat.antt.
pub struct Flat {
    pub(crate) points: Points,
    pub(crate) turns: Turns,
    pub(crate) held: Vec<Option<Vec4>>,
    pub(crate) rest: Kernel,
}

impl Drop for Flat {
    fn drop(self) {
        let Flat {
            points: _,
            turns: _,
            held: _,
            rest: _,
        } = self;
    }
}

impl Model for Flat {
    ghost use Rattle.std.specs.Prelude.{◌≤◌, length};
    ghost use Rattle.vflat.specs.Flat as flat;

    ghost Value = { flat.Flat };

    ghost view = { λ f. record { points = f.points; turns = f.turns; held = f.held.items; rest = f.rest } };

    ghost invariant = { λ f. length f.points ≤ 256 };
}

/// Two are equal where they hold the same.
impl PartialEq for Flat {
    ghost use Rattle.std.specs.Cmp.{partial_equiv_from_equiv};
    ghost use Rattle.vflat.specs.FlatSame.{flat_same, flats_equivalent};

    ghost eq = { flat_same };

    ghost laws = { partial_equiv_from_equiv flats_equivalent };

    fn eq(&self, other: &Flat) -> bool {
        let placed = self.points.is_same(&other.points) && self.turns.is_same(&other.turns);
        placed && self.held == other.held && self.rest == other.rest
    }
}

impl Eq for Flat {
    ghost use Rattle.vflat.specs.FlatSame.{flats_equivalent};

    ghost laws = { flats_equivalent };
}

/// A hash is fed what is no process's, as `vkernel` has it, and one number made of the sums of where the processes stand and of the
/// turns that are left.
impl Hash for Flat {
    ghost use Rattle.vflat.specs.FlatSame.{flat_fed, flats_fed_alike};

    ghost hash_input = { flat_fed };

    ghost respects_eq = { flats_fed_alike };

    fn hash<H: Hasher>(&self, state: &mut H) {
        self.rest.hash(state);
        state.write_u64(mix(mix(0, self.points.sum()), self.turns.sum()));
    }
}

// For so many processes, that nothing is held.
fn nothing_held(alloc: Global, count: usize) -> Result<Vec<Option<Vec4>>, NoMemory>
    ensures { IfOk result (λ held. held.items ≡ replicate count None) }
{
    let mut held = Vec::new(alloc);
    for _ in 0..count {
        held.push(None)?;
    }
    Ok(held)
}

impl Flat {
    /// The flat state in which every process begins, with this beside the processes.
    pub fn opening(alloc: Global, code: &Code, rest: Kernel) -> Result<Flat, NoMemory>
        requires { length code.now.begins ≤ 256 }
        ensures { IfOk result (λ flat. flat ≡ spec.flat_with code.now rest) }
    {
        Ok(Flat {
            points: Points::from_slice(alloc, &code.begins)?,
            turns: Turns::opening(alloc, code)?,
            held: nothing_held(alloc, code.begins.len())?,
            rest,
        })
    }

    /// A state that is the same.
    pub fn copy(&self, alloc: Global) -> Result<Flat, NoMemory>
        ensures { IfOk result (λ flat. flat ≡ self.now) }
    {
        Ok(Flat {
            points: self.points.copy(alloc)?,
            turns: self.turns.copy(alloc)?,
            held: Vec::from_slice(alloc, &self.held)?,
            rest: self.rest.copy(alloc)?,
        })
    }

    /// All of it but its processes.
    pub fn rest(&self) -> &Kernel
        ensures { result.now ≡ self.now.rest }
    {
        &self.rest
    }
}
