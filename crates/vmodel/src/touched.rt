// Which variables a run may have changed since the end of a slot: a dump tells these alone (IEEE 1364-2005, 18.2.1).

ghost use Rattle.std.specs.Prelude.{◌≡◌, ◌∷◌, [], None, Some, option_map};
ghost use Rattle.vmodel.specs.Touched as spec;

use crate::effect::Effect;
use crate::part::{Kept, Part};
use std::alloc::Global;
use std::marker::Model;

/// How many variables are listed at most: where more may have changed, any may.
const MOST: usize = 32;

/// The variables that a run may have changed since the end of a slot. A clause sees the list of their numbers, or `None` where any may
/// have changed.
#[derive(Drop)]
pub struct Touched {
    any: bool,
    list: Vec<u32>,
}

impl Model for Touched {
    ghost use Rattle.std.specs.Prelude.{ℕ, List, Option, Some, None, if◌then◌else◌};

    ghost Value = { Option (List ℕ) };

    ghost view = { λ touched. if touched.any then None else Some touched.list.items };
}

// Whether a number stands in a list.
fn is_in(number: u32, list: &[u32]) -> bool
    ensures { result ≡ spec.is_in number list.now }
{
    for other in list {
        if number == *other {
            return true;
        }
    }
    false
}

impl Touched {
    /// Any variable may have changed.
    pub fn any(alloc: Global) -> Touched
        ensures { result ≡ None }
    {
        Touched {
            any: true,
            list: Vec::new(alloc),
        }
    }

    /// From here on any may.
    pub fn forget(&mut self)
        ensures { self.new ≡ None }
    {
        self.any = true;
    }

    /// From here on none has.
    pub fn clear(&mut self)
        ensures { self.new ≡ Some [] }
    {
        self.any = false;
        self.list.clear();
    }

    // This variable may have changed, too. Where the list has no room for it, any may.
    #[tactic(auto, using(crate::proofs::TouchedLemmas::touches_pushed))]
    fn touch(&mut self, variable: u32)
        ensures { spec.TouchesToo (variable ∷ []) self.old self.new }
    {
        if self.any || is_in(variable, &self.list) {
            return;
        }
        if self.list.len() >= MOST || self.list.push(variable).is_err() {
            self.any = true;
        }
    }

    // The variables of these parts may have changed, too.
    fn touch_each(&mut self, parts: &[Part])
        ensures { spec.TouchesToo (spec.variables_of parts.now) self.old self.new }
    {
        for part in parts {
            self.touch(part.variable());
        }
    }

    /// The variables that a step wrote may have changed, too.
    pub fn touch_all(&mut self, effect: &Effect)
        ensures { spec.TouchesToo (spec.variables_of effect.now.wrote) self.old self.new }
    {
        if self.any {
            return;
        }
        match effect.wrote() {
            Kept::One(part) => self.touch(part.variable()),
            Kept::Many(parts) => self.touch_each(parts),
        }
    }

    /// The numbers of those that may have changed, in no order; `None` where any may have.
    pub fn listed(&self) -> Option<&[u32]>
        ensures { option_map (λ list. list.now) result ≡ self.now }
    {
        if self.any { None } else { Some(&self.list) }
    }
}
