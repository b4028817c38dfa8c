// What a step writes: parts of variables, in order (IEEE 1364-2005, clause 6).

ghost use Rattle.std.specs.Prelude.{◌≡◌, IfOk, List, [], ◌∷◌};
ghost use Rattle.std.specs.Option.{option_to_list};
ghost use Rattle.std.specs.Cmp.Lexicographic.{pointwise};
ghost use Rattle.vmodel.specs.Same.{part_same};
ghost use Rattle.vmodel.specs.Inner.{kept_parts, variable_of};

use basis::NoMemory;
use std::marker::Model;
use std::sync::ArcSlice;
use vbits::Vec4;

/// A written part, with its new letters.
#[derive(Clone, Copy)]
pub enum Part {
    /// The whole variable of this number.
    Whole {
        variable: u32,
        value: Vec4,
    },
    /// The bits of the variable of this number from a place on, counted from the rightmost.
    Bits {
        variable: u32,
        low: u32,
        value: Vec4,
    },
}

impl Part {
    /// The number of its variable.
    pub fn variable(&self) -> u32
        ensures { result ≡ variable_of self.now }
    {
        match self {
            Part::Whole { variable, .. } => *variable,
            Part::Bits { variable, .. } => *variable,
        }
    }
}

/// Two are equal where they hold the same.
impl PartialEq for Part {
    ghost use Rattle.std.specs.Cmp.{partial_equiv_from_equiv};
    ghost use Rattle.vmodel.specs.Same.{part_same};
    ghost use Rattle.vmodel.specs.SameLaws.{part_equivalent};

    ghost eq = { part_same };

    ghost laws = { partial_equiv_from_equiv part_equivalent };

    fn eq(&self, other: &Part) -> bool {
        match (self, other) {
            (
                Part::Whole { variable, value },
                Part::Whole {
                    variable: same,
                    value: equal,
                },
            ) => (variable, value) == (same, equal),
            (
                Part::Bits {
                    variable,
                    low,
                    value,
                },
                Part::Bits {
                    variable: same,
                    low: from,
                    value: equal,
                },
            ) => (variable, low) == (same, from) && value == equal,
            _ => false,
        }
    }
}

impl Eq for Part {
    ghost use Rattle.vmodel.specs.SameLaws.{part_equivalent};

    ghost laws = { part_equivalent };
}

/// The parts that an assignment or an update writes, from left to right. One is kept by itself; a list of others never changes, and
/// states share it. A clause sees them as their list.
#[derive(Drop)]
pub struct Parts {
    one: Option<Part>,
    many: Option<ArcSlice<Part>>,
}

impl Model for Parts {
    ghost use Rattle.std.specs.Prelude.{List, option_map};
    ghost use Rattle.std.specs.Arc.{arc_slice_items};
    ghost use Rattle.vmodel.specs.declared.part.Part.{Part};

    ghost Value = { List Part };

    ghost use Rattle.vmodel.specs.Inner.{listed_parts};

    ghost view = { λ parts. listed_parts parts.one (option_map arc_slice_items parts.many) };
}

/// Two are equal where they hold the same.
impl PartialEq for Parts {
    ghost use Rattle.std.specs.Cmp.{partial_equiv_from_equiv};
    ghost use Rattle.vmodel.specs.Same.{parts_same};
    ghost use Rattle.vmodel.specs.SameLaws.{parts_equivalent};

    ghost eq = { parts_same };

    ghost laws = { partial_equiv_from_equiv parts_equivalent };

    fn eq(&self, other: &Parts) -> bool {
        match self.kept() {
            Kept::One(part) => other.are_one(part),
            Kept::Many(list) => other.are_list(list),
        }
    }
}

impl Eq for Parts {
    ghost use Rattle.vmodel.specs.SameLaws.{parts_equivalent};

    ghost laws = { parts_equivalent };
}

/// How parts are kept: one by itself, or a list.
#[derive(Clone, Copy)]
pub enum Kept<'p> {
    One(Part),
    Many(&'p [Part]),
}

// Whether the part is all of the list.
fn is_all(part: Part, list: &[Part]) -> bool
    ensures { result ≡ pointwise part_same (part ∷ []) list.now }
{
    match list.split_first() {
        None => false,
        Some((first, rest)) => part == *first && rest.is_empty(),
    }
}

// The same, from the list's side.
fn is_only(list: &[Part], part: Part) -> bool
    ensures { result ≡ pointwise part_same list.now (part ∷ []) }
{
    match list.split_first() {
        None => false,
        Some((first, rest)) => *first == part && rest.is_empty(),
    }
}

impl Parts {
    // Whether they are this one.
    fn are_one(&self, part: Part) -> bool
        ensures { result ≡ pointwise part_same (part ∷ []) self.now }
    {
        match self.kept() {
            Kept::One(same) => part == same,
            Kept::Many(list) => is_all(part, list),
        }
    }

    // Whether they are these.
    fn are_list(&self, list: &[Part]) -> bool
        ensures { result ≡ pointwise part_same list.now self.now }
    {
        match self.kept() {
            Kept::One(part) => is_only(list, part),
            Kept::Many(same) => list == same,
        }
    }

    /// No part.
    pub fn none() -> Parts
        ensures { result ≡ [] }
    {
        Parts {
            one: None,
            many: None,
        }
    }

    /// One part.
    pub fn one(part: Part) -> Parts
        ensures { result ≡ part ∷ [] }
    {
        Parts {
            one: Some(part),
            many: None,
        }
    }

    /// One part, or none.
    pub(crate) fn optional(part: Option<Part>) -> Parts
        ensures { result ≡ option_to_list part }
    {
        Parts {
            one: part,
            many: None,
        }
    }

    /// These parts.
    pub fn of_list(list: Vec<Part>) -> Result<Parts, NoMemory>
        ensures { IfOk result (λ parts. parts ≡ list.items) }
    {
        Ok(Parts {
            one: None,
            many: Some(ArcSlice::from_vec(list)?),
        })
    }

    /// How they are kept.
    pub fn kept(&self) -> Kept<'_>
        ensures { kept_parts result ≡ self.now }
    {
        if let Some(part) = self.one {
            return Kept::One(part);
        }
        match &self.many {
            None => Kept::Many(&[]),
            Some(list) => Kept::Many(list.as_slice()),
        }
    }

    /// The same parts. A list isn't copied: one more owner of it is counted, in one atomic step, and refused only where 2^63 - 1 are
    /// counted already.
    pub fn copy(&self) -> Result<Parts, NoMemory>
        ensures { IfOk result (λ parts. parts ≡ self.now) }
    {
        let many = match &self.many {
            None => None,
            Some(list) => Some(list.clone()?),
        };
        Ok(Parts {
            one: self.one,
            many,
        })
    }
}
