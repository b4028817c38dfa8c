// The index of a list by its members' codes: they are found from the last of a code backwards.

ghost use Rattle.std.specs.Prelude.{◌≡◌, ◌<◌, true, [], ◌∷◌, ◌++◌, length, OnOk};
ghost use Rattle.shardbook.specs.Inner.Chained.{IsLast, IsLastBefore};

use basis::NoMemory;
use indexmap::IndexMap;
use std::alloc::Global;
use std::marker::Model;

// The code of a member, and the place of the last member before it that has the same code.
#[derive(Clone, Copy)]
pub(crate) struct Link {
    code: u64,
    before: Option<usize>,
}

// The codes of a list's members in their order. No member is copied.
#[derive(Drop)]
pub(crate) struct Chains {
    links: Vec<Link>,
    last: IndexMap<u64, usize>,
}

impl Model for Chains {
    ghost use Rattle.std.specs.Prelude.{nat_eq};
    ghost use Rattle.indexmap.specs.IndexMap.{get};
    ghost use Rattle.shardbook.specs.Inner.Chained.{Chained};

    ghost Value = { Chained };

    ghost use Rattle.shardbook.specs.Inner.Links.{chains_of, IsLinked};

    ghost view = { λ c. chains_of c.links c.last };

    ghost invariant = { λ c. IsLinked c.links.items (get nat_eq c.last) };
}

impl Chains {
    // No members.
    pub(crate) fn new(alloc: Global) -> Chains
        ensures { result.codes ≡ [] }
    {
        Chains {
            links: Vec::new(alloc),
            last: IndexMap::new(alloc),
        }
    }

    // Makes room for one more.
    pub(crate) fn reserve(&mut self) -> Result<(), NoMemory>
        ensures same { self.new.codes ≡ self.old.codes }
        ensures ok { OnOk result (self.new.room ≡ true) }
    {
        self.links.reserve(1)?;
        self.last.reserve(1)?;
        Ok(())
    }

    // Puts a member of this code last.
    pub(crate) fn push_reserved(&mut self, code: u64)
        requires { self.old.room ≡ true }
        ensures { self.new.codes ≡ self.old.codes ++ code ∷ [] }
    {
        let before = self.last.insert(code, self.links.len()).unwrap();
        self.links.push_reserved(Link { code, before });
    }

    // The last place of the code.
    pub(crate) fn last(&self, code: u64) -> Option<usize>
        ensures { IsLast self.now.codes (length self.now.codes) code result }
    {
        self.last.get(&code).copied()
    }

    // The last place before this one that has its code.
    pub(crate) fn before(&self, place: usize) -> Option<usize>
        requires { place < length self.now.codes }
        ensures { IsLastBefore self.now.codes place result }
    {
        self.links[place].before
    }
}
