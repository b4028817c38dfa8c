// The groups of closed slots.

ghost use Rattle.std.specs.Prelude.{◌≡◌, ◌<◌, ◌++◌, [], false, take, None, OnErr, OnOk, Some};
ghost use Rattle.race_groups.specs.Inner.{GrowsBehind, KeepsGroups, TakesAll, TakesSlot, traced_by};
ghost use Rattle.race_groups.specs.Standing.{standing_past};

use crate::causes::Causes;
use crate::ends::{put_ends, some_is_cut};
use crate::group::{Group, Scope};
use crate::groups::put_all;
use crate::shown::{FoundAt, found_at};
use crate::standing::{Standing, stand_past};
use basis::NoMemory;
use explore::{Collector, FoundMark, RankMarks};
use racebook::FoundInSlot;
use statebook::Limits;
use std::alloc::Global;
use vmachine::{Machine, MachineState};

/// What is kept of closed slots: the groups of their differences; at most two of the states in which runs end, that aren't alike; at most
/// one that is like the first of them, but for the values that a cut slot leaves; whether a run ended, and whether one was cut by the time
/// limit; the time of the last slot of which a mark was seen, and the want of memory that was met meanwhile; and the marks whose runs
/// have no slot yet since then.
#[derive(Drop)]
pub(crate) struct RaceGroups<'m> {
    pub(crate) causes: Causes<'m>,
    pub(crate) scope: Scope,
    pub(crate) groups: Vec<Group>,
    pub(crate) ends: Vec<FoundMark<MachineState>>,
    pub(crate) cut_ends: Vec<FoundMark<MachineState>>,
    pub(crate) ignored: u64,
    pub(crate) ended: bool,
    pub(crate) cut_runs: bool,
    pub(crate) seen: Option<u64>,
    pub(crate) refused: Option<NoMemory>,
    pub(crate) standing: Vec<Standing>,
}

// How many differences a slot gave.
fn count_of(found: &FoundInSlot) -> u64 {
    (found.races.len() as u64).saturating_add(found.line_races.len() as u64)
}

// Whether one of both holds.
fn either(one: bool, other: bool) -> bool
    ensures { result ≡ false → (one ≡ false) × (other ≡ false) }
{
    one || other
}

// Whether a run ends in one of these.
fn some_ends(ends: &[FoundMark<MachineState>]) -> bool
    ensures { result ≡ false → ends.now ≡ [] }
{
    !ends.is_empty()
}

// The time of the last slot of which a mark was seen, once one more was closed, with so many marks.
fn seen_by(seen: Option<u64>, time: u64, marks: usize) -> Option<u64>
    ensures none { marks ≡ 0 → result ≡ seen }
    ensures some { 0 < marks → result ≡ Some time }
{
    if marks == 0 { seen } else { Some(time) }
}

impl<'m> RaceGroups<'m> {
    /// None yet.
    pub(crate) fn new(
        alloc: Global,
        machine: &'m Machine,
        limits: &Limits,
        scope: &Scope,
    ) -> RaceGroups<'m>
        ensures traced { traced_by result ≡ record { setting = machine.now; steps = limits.now.steps } }
        ensures scope { result.scope ≡ scope.now }
        ensures none { KeepsGroups (record { setting = machine.now; steps = limits.now.steps }) scope.now result [] }
    {
        RaceGroups {
            causes: Causes::new(alloc, machine, limits.steps),
            scope: *scope,
            groups: Vec::new(alloc),
            ends: Vec::new(alloc),
            cut_ends: Vec::new(alloc),
            ignored: 0,
            ended: false,
            cut_runs: false,
            seen: None,
            refused: None,
            standing: Vec::new(alloc),
        }
    }

    // All that a slot gave.
    fn put_found(&mut self, found: FoundInSlot) -> Result<(), NoMemory>
        ensures ok { OnOk result (TakesAll found self.old self.new) }
        ensures grows { GrowsBehind self.old self.new }
        ensures seen { self.new.seen ≡ self.old.seen }
        ensures refused { self.new.refused ≡ self.old.refused }
        ensures standing { self.new.standing.items ≡ self.old.standing.items }
    {
        let FoundInSlot {
            races,
            line_races,
            ends,
        } = found;
        put_all(&mut self.causes, &mut self.groups, self.scope.names, &races)?;
        put_all(
            &mut self.causes,
            &mut self.groups,
            self.scope.names,
            &line_races,
        )?;
        put_ends(
            self.causes.machine(),
            &mut self.ends,
            &mut self.cut_ends,
            ends,
        )
    }

    // What the slot of this time gave.
    fn put_slot(&mut self, time: u64, found: FoundInSlot) -> Result<(), NoMemory>
        ensures ok { OnOk result (TakesSlot time found self.old self.new) }
        ensures grows { GrowsBehind self.old self.new }
        ensures seen { self.new.seen ≡ self.old.seen }
        ensures refused { self.new.refused ≡ self.old.refused }
        ensures standing { self.new.standing.items ≡ self.old.standing.items }
    {
        let is_cut = some_is_cut(self.causes.machine(), &found.ends);
        self.cut_runs = either(self.cut_runs, is_cut);
        self.ended = either(self.ended, some_ends(&found.ends));
        if time < self.scope.from {
            self.ignored = self.ignored.saturating_add(count_of(&found));
            return Ok(());
        }
        self.put_found(found)
    }

    // The same, and which marks stand past its time.
    fn take_slot(&mut self, time: u64, at: FoundAt) -> Result<(), NoMemory>
        ensures ok { OnOk result (TakesSlot time at.found self.old self.new) }
        ensures stands { OnOk result (self.new.standing.items ≡ standing_past time (self.old.standing.items ++ at.going_on.items)) }
        ensures err { OnErr result (self.new.standing.items ≡ self.old.standing.items) }
        ensures grows { GrowsBehind self.old self.new }
        ensures seen { self.new.seen ≡ self.old.seen }
        ensures refused { self.new.refused ≡ self.old.refused }
    {
        let FoundAt { found, going_on } = at;
        self.put_slot(time, found)?;
        stand_past(&mut self.standing, time, going_on)
    }

    // No more than so many groups, ends and cut ends, as memory was refused.
    fn forget_behind(&mut self, groups: usize, ends: usize, cut_ends: usize, refused: NoMemory)
        ensures traced { traced_by self.new ≡ traced_by self.old }
        ensures scope { self.new.scope ≡ self.old.scope }
        ensures groups { self.new.groups.items ≡ take groups self.old.groups.items }
        ensures ends { self.new.ends.items ≡ take ends self.old.ends.items }
        ensures cut_ends { self.new.cut_ends.items ≡ take cut_ends self.old.cut_ends.items }
        ensures ended { self.new.ended ≡ self.old.ended }
        ensures cut { self.new.cut_runs ≡ self.old.cut_runs }
        ensures seen { self.new.seen ≡ self.old.seen }
        ensures refused { self.new.refused ≡ Some refused }
        ensures standing { self.new.standing.items ≡ self.old.standing.items }
    {
        self.groups.truncate(groups);
        self.ends.truncate(ends);
        self.cut_ends.truncate(cut_ends);
        self.refused = Some(refused);
    }
}

/// After want of memory no group and no end of the slot stays. But a group that stood before may count differences of it, and that a run
/// was cut in it is still told.
impl<'m> Collector<MachineState> for RaceGroups<'m> {
    ghost use Rattle.explore.specs.Ranked.{CollectsMore, StaysAs, closing_of};
    ghost use Rattle.race_groups.specs.Inner.{CollectsGroups, collects_nothing};

    ghost collects = { CollectsGroups };

    fn collect(&mut self, closed: RankMarks<MachineState>) -> Result<(), NoMemory>
        ensures ok { OnOk result (CollectsMore CollectsGroups self.old (closing_of closed) self.new) }
        ensures err { OnErr result (StaysAs CollectsGroups self.old self.new) }
    {
        let marks = closed.marks.len();
        let found = found_at(
            self.causes.alloc,
            self.causes.machine(),
            closed.rank,
            closed.marks,
            &self.standing,
        )?;
        let groups = self.groups.len();
        let ends = self.ends.len();
        let cut_ends = self.cut_ends.len();
        match self.take_slot(closed.rank, found) {
            Ok(()) => {
                self.seen = seen_by(self.seen, closed.rank, marks);
                Ok(())
            }
            Err(refused) => {
                self.forget_behind(groups, ends, cut_ends, refused);
                Err(refused)
            }
        }
    }

    fn found_count(&self) -> usize {
        self.groups.len()
    }

    ghost none = { collects_nothing };
}
