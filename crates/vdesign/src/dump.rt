// Dumps (IEEE 1364-2005, 18.1): what is selected, and what commands them.

ghost use Rattle.std.specs.Prelude.{◌≡◌, []};

use crate::print::Text;
use std::alloc::Global;
use std::marker::Model;

/// A scope that is chosen, and how many levels of it (18.1.2).
#[derive(Drop)]
pub struct Chosen {
    /// The names of its scopes from the top's on and its own, joined by dots.
    pub path: Text,
    /// 1: the scope alone; n: those up to n - 1 levels below it too; 0: all below it.
    pub levels: u64,
}

/// What a `$dumpvars` selects: chosen scopes, or everything where there are none (18.1.2).
#[derive(Drop)]
pub struct Selection {
    list: Vec<Chosen>,
}

impl Model for Selection {
    ghost use Rattle.std.specs.Prelude.{List};
    ghost use Rattle.vdesign.specs.declared.dump.Chosen.{Chosen};

    ghost Value = { List Chosen };

    ghost view = { λ selection. selection.list.items };
}

impl Selection {
    /// These scopes, or everything where there are none.
    pub fn new(list: Vec<Chosen>) -> Selection
        ensures { result ≡ list.items }
    {
        Selection { list }
    }

    /// Everything.
    pub fn everything(alloc: Global) -> Selection
        ensures { result ≡ [] }
    {
        Selection {
            list: Vec::new(alloc),
        }
    }

    /// The chosen scopes, as a list.
    pub fn as_slice(&self) -> &[Chosen]
        ensures { result.now ≡ self.now }
    {
        &self.list
    }
}

/// A task that commands a dump which was started (18.1).
#[derive(Clone, Copy, PartialEq, Eq)]
pub enum DumpSwitch {
    /// `$dumpoff` (18.1.3)
    Off,
    /// `$dumpon` (18.1.3)
    On,
    /// `$dumpall` (18.1.4)
    All,
}

/// A task that commands the dump (18.1), as a run shows it.
#[derive(Clone, Copy, PartialEq, Eq)]
pub enum DumpCommand {
    /// `$dumpvars` (18.1.2): the place, in the design's table, of the action that says what is selected.
    Vars(usize),
    /// `$dumpoff` (18.1.3)
    Off,
    /// `$dumpon` (18.1.3)
    On,
    /// `$dumpall` (18.1.4)
    All,
}
