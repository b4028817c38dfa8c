// A toy space that loops, for searches.

ghost use Rattle.std.specs.Prelude.{◌≡◌};

use basis::NoMemory;
use sched_core::Space;

/// A toy space that loops. It has places 0 to `places` - 1, and a run opens at 0. Choice 0 is a
/// step to the next place, from the last one to `back`. Where there is a door, choice 1 of place 0
/// leaves by it, and that run has ended, at `places`.
#[derive(Drop)]
pub struct Wheel {
    pub places: u32,
    pub back: u32,
    pub door: bool,
}

impl Space for Wheel {
    ghost use Rattle.explorer_tests.specs.Wheels.{wheel_rules};
    ghost use Rattle.std.proofs.Common.{rules as std_rules};
    ghost use Rattle.explorer_tests.specs.WheelLaws.{wheel_is_lawful};

    type State = u32;

    ghost rules = { λ w. wheel_rules w.places w.back w.door };

    fn root(&self) -> Result<u32, NoMemory> {
        Ok(0)
    }

    fn copy(&self, s: &u32) -> Result<u32, NoMemory> {
        Ok(*s)
    }

    fn width(&self, s: &u32) -> u32 {
        if *s >= self.places {
            0
        } else if self.door && *s == 0 {
            2
        } else {
            1
        }
    }

    fn step(&self, s: &mut u32, i: u32) -> Result<(), NoMemory> {
        if i != 0 {
            *s = self.places;
        } else if *s + 1 == self.places {
            *s = self.back;
        } else {
            *s += 1;
        }
        Ok(())
    }

    fn is_mark(&self, s: &u32) -> bool {
        *s >= self.places
    }

    ghost same_is_eq = { λ w s t. Prim.search std_rules };

    ghost lawful = { λ w. wheel_is_lawful w.places w.back w.door };
}
