// Names in order, found by their bytes.

ghost use Rattle.std.specs.Prelude.{◌≡◌, ◌++◌, ◌∷◌, [], true, not, position, IfOk};
ghost use Rattle.std.specs.Str.{bytes_eq};
ghost use Rattle.report_text.specs.Inner.Names.{is_among};

use basis::NoMemory;
use indexmap::IndexSet;
use std::alloc::Global;
use std::marker::Model;

/// Names in the order in which they were added, no two alike. A name is found by its bytes, at once.
#[derive(Drop)]
pub struct Names<'t> {
    set: IndexSet<&'t [u8]>,
}

impl<'t> Model for Names<'t> {
    ghost use Rattle.std.specs.Prelude.{ℕ, List, map};

    ghost Value = { List (List ℕ) };

    ghost view = { λ n. map (λ key. key.now) n.set.keys };
}

impl<'t> Names<'t> {
    /// No names.
    pub fn new(alloc: Global) -> Self
        ensures { result ≡ [] }
    {
        Names {
            set: IndexSet::new(alloc),
        }
    }

    /// Adds a name after the others, and tells whether it is none of them. The error is want of memory, E901.
    pub fn add(&mut self, name: &'t [u8]) -> Result<bool, NoMemory>
        ensures new { IfOk result (λ added. added ≡ not (is_among self.old name.now)) }
        ensures put { IfOk result (λ added. added ≡ true → self.new ≡ self.old ++ name.now ∷ []) }
    {
        Ok(self.set.insert(name)?)
    }

    /// The place of a name among them, from 0.
    pub fn place(&self, name: &[u8]) -> Option<usize>
        ensures { result ≡ position (bytes_eq name.now) self.now }
    {
        self.set.get_index_of(&name)
    }
}
