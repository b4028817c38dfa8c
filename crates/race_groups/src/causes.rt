// Which group a log belongs to, by its cause.

ghost use Rattle.std.specs.Prelude.{◌≡◌, ◌↔◌, IfOk, IfSome, true};
ghost use Rattle.race_groups.specs.Blame.{AreSameTwo};
ghost use Rattle.race_groups.specs.Inner.{HasPairAt, IsPlaced, IsWith, tracing_of};

use crate::blame_table::{BlameTable, Pair, blamed_by};
use crate::group::Group;
use basis::NoMemory;
use cause::Cause;
use sched_core::Log;
use std::alloc::Global;
use vmachine::Machine;

/// The causes of the logs that were seen.
#[derive(Drop)]
pub(crate) struct Causes<'m> {
    pub(crate) alloc: Global,
    pub(crate) table: BlameTable<'m>,
}

/// Where a log belongs: to the group of this place, or to none that there is, with its cause.
#[derive(Drop)]
pub(crate) enum Placed {
    With(usize),
    Apart(Option<Cause>),
}

// Whether both are the same two statements, whichever comes first. So are none and none.
fn are_same_two(one: Option<Pair>, other: Option<Pair>) -> bool
    ensures { (result ≡ true) ↔ AreSameTwo one other }
{
    let (Some(one), Some(other)) = (one, other) else {
        return one.is_none() && other.is_none();
    };
    (one.0 == other.0 && one.1 == other.1) || (one.0 == other.1 && one.1 == other.0)
}

// The first group whose cause blames the two.
fn group_with(groups: &[Group], pair: Option<Pair>) -> Option<usize>
    ensures { IfSome result (HasPairAt groups.now pair) }
{
    for place in 0..groups.len() {
        if are_same_two(blamed_by(&groups[place].cause), pair) {
            return Some(place);
        }
    }
    None
}

impl<'m> Causes<'m> {
    /// None yet. A slot that doesn't end before so many steps has none.
    pub(crate) fn new(alloc: Global, machine: &'m Machine, steps: u32) -> Causes<'m>
        ensures { tracing_of result ≡ record { setting = machine.now; steps = steps } }
    {
        Causes {
            alloc,
            table: BlameTable::new(alloc, machine, steps),
        }
    }

    /// The machine whose runs they are of.
    pub(crate) fn machine(&self) -> &'m Machine
        ensures { result.now ≡ self.now.table.setting }
    {
        self.table.machine()
    }

    // The group whose cause blames whom the log does, as far as that is known.
    fn known_place(&self, groups: &[Group], log: &Log) -> Result<Option<usize>, NoMemory>
        ensures { IfOk result (λ found. IfSome found (IsWith (tracing_of self.now) groups.now log.now)) }
    {
        match self.table.known(self.alloc, log)? {
            None => Ok(None),
            Some(pair) => Ok(group_with(groups, pair)),
        }
    }

    /// Where the log belongs among these groups.
    pub(crate) fn place(&mut self, groups: &[Group], log: &Log) -> Result<Placed, NoMemory>
        ensures traced { tracing_of self.new ≡ tracing_of self.old }
        ensures placed { IfOk result (IsPlaced (tracing_of self.old) groups.now log.now) }
    {
        if let Some(place) = self.known_place(groups, log)? {
            return Ok(Placed::With(place));
        }
        let cause = self.table.trace(self.alloc, log)?;
        match group_with(groups, blamed_by(&cause)) {
            Some(place) => Ok(Placed::With(place)),
            None => Ok(Placed::Apart(cause)),
        }
    }
}
