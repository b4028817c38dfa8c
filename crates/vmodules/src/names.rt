// Names in order, found by their bytes.

ghost use Rattle.std.specs.Prelude.{◌≡◌, ◌<◌, ◌++◌, ◌∷◌, [], true, false, not, length, position, slice_get, IfOk, IfSome, OnOk, OnErr, Some, is_some, if◌then◌else◌};
ghost use Rattle.std.specs.Str.{bytes_eq};
ghost use Rattle.basis.specs.Reasons.{IfFault};
ghost use Rattle.vmodules.specs.Names.{has_double, is_declared};

use basis::{NoMemory, OrMemory};
use indexmap::IndexSet;
use std::alloc::Global;
use std::marker::Model;

/// A name stands twice; `at` is the number of the token where it stands again.
#[derive(Clone, Copy, PartialEq, Eq)]
pub struct Doubled {
    pub at: u32,
}

/// Names in the order in which they were added, no two alike. A name is found by its bytes, at once.
#[derive(Drop)]
pub struct Names<'t> {
    set: IndexSet<&'t [u8]>,
}

impl<'t> Model for Names<'t> {
    ghost use Rattle.std.specs.Prelude.{◌≡◌, ℕ, List, map, false};
    ghost use Rattle.vmodules.specs.Names.{has_double};

    ghost Value = { List (List ℕ) };

    ghost view = { λ n. map (λ key. key.now) n.set.keys };

    ghost invariant = { λ n. has_double (map (λ key. key.now) n.set.keys) ≡ false };
}

impl<'t> Names<'t> {
    /// No names.
    pub fn new(alloc: Global) -> Self
        ensures { result ≡ [] }
    {
        Names {
            set: IndexSet::new(alloc),
        }
    }

    /// How many there are.
    pub fn len(&self) -> usize
        ensures count { result ≡ length self.now }
        ensures unique { has_double self.now ≡ false }
    {
        self.set.len()
    }

    /// Adds a name after the others where it is new, and tells whether it was.
    pub fn add(&mut self, text: &'t [u8]) -> Result<bool, NoMemory>
        ensures new { IfOk result (λ new. new ≡ not (is_declared self.old text.now)) }
        ensures added { IfOk result (λ new.
            self.new ≡ (if new then self.old ++ text.now ∷ [] else self.old)) }
        ensures kept { OnErr result (self.new ≡ self.old) }
        ensures unique { has_double self.new ≡ false }
    {
        let added = self.set.insert(text)?;
        Ok(added)
    }

    /// Adds a new name, the token of this number, after the others.
    pub fn add_new(&mut self, text: &'t [u8], at: u32) -> Result<(), OrMemory<Doubled>>
        ensures added { OnOk result (self.new ≡ self.old ++ text.now ∷ []) }
        ensures unique { has_double self.new ≡ false }
        ensures fresh { OnOk result (is_declared self.old text.now ≡ false) }
        ensures err { IfFault result (λ doubled.
            (is_declared self.old text.now ≡ true) × (doubled.at ≡ at)) }
    {
        let new = self.add(text)?;
        if !new {
            return Err(OrMemory::Fault(Doubled { at }));
        }
        Ok(())
    }

    /// The place of a name among them, from 0.
    pub fn place(&self, name: &[u8]) -> Option<usize>
        ensures place { result ≡ position (bytes_eq name.now) self.now }
        ensures found { is_some result ≡ is_declared self.now name.now }
        ensures within { IfSome result (λ place. place < length self.now) }
    {
        self.set.get_index_of(&name)
    }

    /// The name at this place.
    pub fn name(&self, place: usize) -> &'t [u8]
        requires { place < length self.now }
        ensures { slice_get self.now place ≡ Some result.now }
    {
        match self.set.get_index(place) {
            None => b"",
            Some(name) => *name,
        }
    }
}
