// The stratified event queue (IEEE 1364-2005, 11.3): the regions of the current time, and the future.

ghost use Rattle.std.specs.Prelude.{◌≡◌, ◌<◌, ◌++◌, IfOk, OnOk};
ghost use Rattle.std.specs.Option.{ForSome};
ghost use Rattle.vmodel.specs.Same.{stand_same, regions_same};

use basis::NoMemory;
use sched_core::setting::Grain;
use std::alloc::Global;
use std::collections::VecDeque;
use std::marker::Model;
use vmodel::part::Parts;
use vmodel::process_set::ProcessSet;

/// What a future time holds. A clause sees it as the time and its slot.
#[derive(Drop)]
pub(crate) struct Future {
    pub(crate) time: u64,
    pub(crate) processes: ProcessSet,
    pub(crate) updates: VecDeque<Parts>,
}

impl Model for Future {
    ghost use Rattle.std.specs.Prelude.{ℕ};
    ghost use Rattle.vmodel.specs.Queue.{Later};

    ghost Value = { ℕ × Later };

    ghost view = { λ f. (f.time, record { processes = f.processes; updates = f.updates.items }) };
}

/// Two are equal where they hold the same.
impl PartialEq for Future {
    ghost use Rattle.std.specs.Cmp.{partial_equiv_from_equiv};
    ghost use Rattle.vmodel.specs.Same.{slot_same};
    ghost use Rattle.vmodel.specs.SameLaws.{slots_equivalent};

    ghost eq = { slot_same };

    ghost laws = { partial_equiv_from_equiv slots_equivalent };

    fn eq(&self, other: &Future) -> bool {
        let held = (&self.time, &self.processes, &self.updates);
        held == (&other.time, &other.processes, &other.updates)
    }
}

impl Eq for Future {
    ghost use Rattle.vmodel.specs.SameLaws.{slots_equivalent};

    ghost laws = { slots_equivalent };
}

/// The regions of the current time, and the future in order of time. A clause sees it as the record `Queue` of
/// specs/Queue.antt.
pub struct Queue {
    pub(crate) grain: Grain,
    pub(crate) until: u64,
    pub(crate) time: u64,
    pub(crate) last: Option<u32>,
    pub(crate) active: ProcessSet,
    pub(crate) inactive: ProcessSet,
    pub(crate) activated: VecDeque<Parts>,
    pub(crate) posted: VecDeque<Parts>,
    pub(crate) strobes: Vec<usize>,
    pub(crate) future: Vec<Future>,
    pub(crate) beyond: bool,
}

impl Drop for Queue {
    fn drop(self) {
        let Queue {
            grain: _,
            until: _,
            time: _,
            last: _,
            active: _,
            inactive: _,
            activated: _,
            posted: _,
            strobes: _,
            future: _,
            beyond: _,
        } = self;
    }
}

impl Model for Queue {
    ghost use Rattle.std.specs.Prelude.{◌<◌};
    ghost use Rattle.std.specs.Option.{ForSome};
    ghost use Rattle.vmodel.specs.Queue as queue;

    ghost Value = { queue.Queue };

    ghost view = { λ q. record {
      grain = q.grain;
      until = q.until;
      time = q.time;
      last = q.last;
      active = q.active;
      inactive = q.inactive;
      activated = q.activated.items;
      posted = q.posted.items;
      strobes = q.strobes.items;
      future = q.future.items;
      beyond = q.beyond;
    } };

    ghost invariant = { λ q. ForSome q.last (λ p. p < 256) };
}

/// Two are equal where they hold the same.
impl PartialEq for Queue {
    ghost use Rattle.std.specs.Cmp.{partial_equiv_from_equiv};
    ghost use Rattle.vmodel.specs.Same.{queue_same};
    ghost use Rattle.vmodel.specs.SameLaws.{queues_equivalent};

    ghost eq = { queue_same };

    ghost laws = { partial_equiv_from_equiv queues_equivalent };

    fn eq(&self, other: &Queue) -> bool {
        let alike = self.stands_alike(other);
        let same = self.holds_alike(other);
        alike & same
    }
}

impl Eq for Queue {
    ghost use Rattle.vmodel.specs.SameLaws.{queues_equivalent};

    ghost laws = { queues_equivalent };
}

impl Queue {
    // Whether both have the same limits and stand at the same.
    fn stands_alike(&self, other: &Queue) -> bool
        ensures { result ≡ stand_same self.now other.now }
    {
        let stand = (
            &self.grain,
            &self.until,
            &self.time,
            &self.last,
            &self.beyond,
        );
        stand
            == (
                &other.grain,
                &other.until,
                &other.time,
                &other.last,
                &other.beyond,
            )
    }

    // Whether the regions of both hold the same.
    fn holds_alike(&self, other: &Queue) -> bool
        ensures { result ≡ regions_same self.now other.now }
    {
        let regions = (
            &self.active,
            &self.inactive,
            &self.activated,
            &self.posted,
            &self.strobes,
            &self.future,
        );
        regions
            == (
                &other.active,
                &other.inactive,
                &other.activated,
                &other.posted,
                &other.strobes,
                &other.future,
            )
    }
}

/// For how many more updates a copy has room, so that the next ones don't double it.
const SPARE: usize = 4;

// Puts the same updates behind others.
fn put_copies(copied: &mut Vec<Parts>, updates: &[Parts]) -> Result<(), NoMemory>
    ensures { OnOk result (copied.new.items ≡ copied.old.items ++ updates.now) }
{
    for update in updates {
        copied.push(update.copy()?)?;
    }
    Ok(())
}

/// The same updates in the same order.
pub(crate) fn copy_updates(
    alloc: Global,
    updates: &VecDeque<Parts>,
) -> Result<VecDeque<Parts>, NoMemory>
    ensures { IfOk result (λ copied. copied.items ≡ updates.now.items) }
{
    if updates.is_empty() {
        return Ok(VecDeque::new(alloc));
    }
    let (front, back) = updates.as_slices();
    let mut copied = Vec::with_capacity(alloc, updates.len().saturating_add(SPARE))?;
    put_copies(&mut copied, front)?;
    put_copies(&mut copied, back)?;
    Ok(VecDeque::from_vec(copied))
}
