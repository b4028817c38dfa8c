// A future time, and what it holds (IEEE 1364-2005, 11.3).

ghost use Rattle.std.specs.Prelude.{◌≡◌, ◌<◌, IfOk, OnOk, OnErr};
ghost use Rattle.std.specs.Option.{ForSome};
ghost use Rattle.vmodel.specs.Queue.{slot_with_sleeper, slot_with_update, empty_slot};

use basis::NoMemory;
use std::alloc::Global;
use std::collections::VecDeque;
use std::marker::Model;
use vmodel::part::Parts;
use vmodel::process_set::ProcessSet;

/// A future time, with the processes to wake then and the updates to post then. A clause sees it as the time and what it holds.
#[derive(Drop)]
pub struct FutureTime {
    pub(crate) time: u64,
    pub(crate) processes: ProcessSet,
    pub(crate) updates: VecDeque<Parts>,
}

impl Model for FutureTime {
    ghost use Rattle.std.specs.Prelude.{ℕ};
    ghost use Rattle.vmodel.specs.Queue.{Later};

    ghost Value = { ℕ × Later };

    ghost view = { λ f. (f.time, record { processes = f.processes; updates = f.updates.items }) };
}

/// Two are equal where they hold the same.
impl PartialEq for FutureTime {
    ghost use Rattle.std.specs.Cmp.{partial_equiv_from_equiv};
    ghost use Rattle.vmodel.specs.Same.{slot_same};
    ghost use Rattle.vmodel.specs.SameLaws.{slots_equivalent};

    ghost eq = { slot_same };

    ghost laws = { partial_equiv_from_equiv slots_equivalent };

    fn eq(&self, other: &FutureTime) -> bool {
        let held = (&self.time, &self.processes, &self.updates);
        held == (&other.time, &other.processes, &other.updates)
    }
}

impl Eq for FutureTime {
    ghost use Rattle.vmodel.specs.SameLaws.{slots_equivalent};

    ghost laws = { slots_equivalent };
}

impl FutureTime {
    // With one process to wake, or none.
    pub(crate) fn of_process(alloc: Global, time: u64, sleeper: Option<u32>) -> FutureTime
        requires { ForSome sleeper (λ p. p < 256) }
        ensures { result ≡ (time, slot_with_sleeper sleeper empty_slot) }
    {
        let mut processes = ProcessSet::new();
        if let Some(process) = sleeper {
            processes.insert(process);
        }
        FutureTime {
            time,
            processes,
            updates: VecDeque::new(alloc),
        }
    }

    // With one update.
    pub(crate) fn of_update(alloc: Global, time: u64, parts: Parts) -> Result<FutureTime, NoMemory>
        ensures { IfOk result (λ entry. entry ≡ (time, slot_with_update parts empty_slot)) }
    {
        let mut updates = VecDeque::new(alloc);
        updates.push_back(parts)?;
        Ok(FutureTime {
            time,
            processes: ProcessSet::new(),
            updates,
        })
    }

    // One more process to wake, or none more.
    pub(crate) fn wake(&mut self, sleeper: Option<u32>)
        requires { ForSome sleeper (λ p. p < 256) }
        ensures { self.new ≡ (self.old.0, slot_with_sleeper sleeper self.old.1) }
    {
        if let Some(process) = sleeper {
            self.processes.insert(process);
        }
    }

    // One more update, behind the others.
    pub(crate) fn post(&mut self, parts: Parts) -> Result<(), NoMemory>
        ensures ok { OnOk result (self.new ≡ (self.old.0, slot_with_update parts self.old.1)) }
        ensures err { OnErr result (self.new ≡ self.old) }
    {
        self.updates.push_back(parts)?;
        Ok(())
    }

    // One that holds the same.
    pub(crate) fn copy(&self) -> Result<FutureTime, NoMemory>
        ensures { IfOk result (λ copied. copied ≡ self.now) }
    {
        Ok(FutureTime {
            time: self.time,
            processes: self.processes.copy(),
            updates: copy_updates(&self.updates)?,
        })
    }
}

/// The same updates in the same order.
pub(crate) fn copy_updates(updates: &VecDeque<Parts>) -> Result<VecDeque<Parts>, NoMemory>
    ensures { IfOk result (λ copied. copied.items ≡ updates.now.items) }
{
    let mut copied = VecDeque::with_capacity(*updates.allocator(), updates.len())?;
    for update in updates.iter() {
        copied.push_back(update.copy()?)?;
    }
    Ok(copied)
}
