// The kernel that a run opens with (IEEE 1364-2005, 9.9.1, 9.9.2; docs/SCHEDULING.md).

ghost use Rattle.std.specs.Prelude.{◌≡◌, ◌≤◌, IfOk, length};
ghost use Rattle.vmodel.specs.Run.{busy_from, opening_of, held_at_first, printed_at_first};
ghost use Rattle.vmodel.specs.State.{without_processes};
ghost use Rattle.vkernel.specs.Inner.{setting_of};

use crate::kernel::Kernel;
use crate::values::Store;
use basis::NoMemory;
use sched_core::bag::Bag;
use sched_core::setting::{Departures, Grain, Looked};
use std::alloc::Global;
use vdesign::action::Places;
use vdesign::design::Design;
use vmodel::process_set::ProcessSet;
use vmodel::values::Values;
use vstrata::{RingStrata, Strata};

// The processes that have something to do.
fn busy(begins: &[Places]) -> ProcessSet
    requires { length begins.now ≤ 256 }
    ensures { result ≡ busy_from 0 begins.now }
{
    let mut set = ProcessSet::new();
    let mut i = begins.len();
    while i > 0 {
        i -= 1;
        let places = &begins[i];
        if !places.as_slice().is_empty() {
            set.insert(i as u32);
        }
    }
    set
}

// What is held back at first.
fn held_first(departures: Departures) -> Option<ProcessSet>
    ensures { result ≡ held_at_first departures }
{
    match departures {
        Departures::Taking => None,
        Departures::Holding => Some(ProcessSet::new()),
    }
}

// What is printed at first.
fn printed_first(alloc: Global, looked: Looked) -> Option<Bag>
    ensures { result ≡ printed_at_first looked }
{
    match looked {
        Looked::Values => None,
        Looked::Lines => Some(Bag::new(alloc)),
    }
}

impl Kernel {
    /// All of the state that a run opens with, but its processes: time 0, every variable as it starts, and all processes active that have
    /// something to do. `until` is the time limit, in units of the precision. Nothing of the design is copied but the number and the widths
    /// of its variables. The error is want of memory, E901.
    pub fn opening(
        alloc: Global,
        design: &Design,
        until: u64,
        grain: Grain,
        departures: Departures,
        looked: Looked,
    ) -> Result<Kernel, NoMemory>
        ensures { IfOk result (λ kernel.
            kernel ≡ without_processes (opening_of (setting_of design.now until grain departures looked))) }
    {
        let values = Values::opening(alloc, &design.variables)?;
        let active = busy(&design.processes);
        Ok(Kernel {
            values: Store::from_slice(alloc, values.as_slice())?,
            queue: RingStrata::new(alloc, grain, until, active),
            cause: None,
            held_back: held_first(departures),
            printed: printed_first(alloc, looked),
        })
    }
}
