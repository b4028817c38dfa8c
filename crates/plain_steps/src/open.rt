// The opening state of a design (docs/SCHEDULING.md).

ghost use Rattle.std.specs.Prelude.{◌≡◌, ◌≤◌, IfOk, length, map};
ghost use Rattle.vmodel.specs.Run.{opening as opening_state, opening_queue as opening_queue_of, opening_process, busy_from};

use crate::process::Process;
use crate::queue::Queue;
use crate::state::State;
use basis::NoMemory;
use sched_core::setting::Grain;
use std::alloc::Global;
use std::collections::VecDeque;
use vdesign::action::Places;
use vdesign::design::Design;
use vmodel::process_set::ProcessSet;
use vmodel::values::Values;

fn opening_processes(alloc: Global, begins: &[Places]) -> Result<Vec<Process>, NoMemory>
    ensures { IfOk result (λ processes. processes.items ≡ map opening_process begins.now) }
{
    let mut processes = Vec::new(alloc);
    for places in begins {
        processes.push(Process::at(alloc, places.as_slice())?)?;
    }
    Ok(processes)
}

// The processes that have something to do.
fn busy(begins: &[Places]) -> ProcessSet
    requires { length begins.now ≤ 256 }
    ensures { result ≡ busy_from 0 begins.now }
{
    let mut set = ProcessSet::new();
    let mut i = begins.len();
    while i > 0 {
        i -= 1;
        let places = &begins[i];
        if !places.as_slice().is_empty() {
            set.insert(i as u32);
        }
    }
    set
}

fn opening_queue(active: ProcessSet, alloc: Global, until: u64, grain: Grain) -> Queue
    ensures { result ≡ opening_queue_of active until grain }
{
    Queue {
        grain,
        until,
        time: 0,
        last: None,
        active,
        inactive: ProcessSet::new(),
        activated: VecDeque::new(alloc),
        posted: VecDeque::new(alloc),
        strobes: Vec::new(alloc),
        future: Vec::new(alloc),
        beyond: false,
    }
}

/// The state that a run of the design opens with: time 0, every variable as it starts, all processes active that have something
/// to do. `until` is the time limit, in units of the precision. Nothing of the design is copied but the number and the
/// widths of its variables and where its processes begin. E901 is the only refusal.
pub fn opening(alloc: Global, design: &Design, until: u64, grain: Grain) -> Result<State, NoMemory>
    ensures { IfOk result (λ state. state ≡ opening_state design.now until grain) }
{
    let active = busy(&design.processes);
    Ok(State {
        values: Values::opening(alloc, &design.variables)?,
        processes: opening_processes(alloc, &design.processes)?,
        queue: opening_queue(active, alloc, until, grain),
        cause: None,
        held_back: None,
        printed: None,
    })
}
