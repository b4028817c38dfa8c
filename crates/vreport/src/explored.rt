// From a machine to the report of its exploration, on the caller's own thread or by several workers.

ghost use Rattle.std.specs.Prelude.{◌≡◌, ◌≤◌, IfOk};
ghost use Rattle.basis.specs.Reasons.{IfFault};
ghost use Rattle.explore.specs.Found.{ListsAll, ListsFound, TellsSteps};
ghost use Rattle.vmachine.specs.Machines.{machine_rules};
ghost use Rattle.vreport.specs.Ends.{HasSomeLongDump};
ghost use Rattle.vreport.specs.Reports.{HoldsDumps, IsReadable, MeansEntries, ReportsExploration, TellsBytes, TellsOutcome};

use crate::report::hold_report;
use basis::OrMemory;
use byte_sinks::{HeldText, TooMany};
use explore::{Findings, Status, explore, explore_alone};
use report_text::Report;
use statebook::Limits;
use std::alloc::Global;
use std::sync::Wait;
use std::thread::Threads;
use vmachine::{Machine, MachineState, machine_law};
use workpool::Gate;

/// The report of an exploration, how that went, and of each end the dump, where it is held. A status that says that memory
/// was refused holds what only a refused growth makes.
pub struct Explored {
    pub report: Report,
    pub status: Status,
    pub held: Vec<Option<HeldText>>,
}

impl Drop for Explored {
    fn drop(self) {
        let Explored {
            report: _,
            status: _,
            held: _,
        } = self;
    }
}

// The report of what was found, by whomever.
fn report_found(
    alloc: Global,
    machine: &Machine,
    findings: &Findings<MachineState>,
    limits: &Limits,
) -> Result<Explored, OrMemory<TooMany>>
    requires found { ListsFound (machine_rules machine.now) limits.now findings.now }
    requires exhausted { ListsAll (machine_rules machine.now) limits.now findings.now }
    requires steps { TellsSteps (machine_rules machine.now) limits.now findings.now }
    ensures exploration { IfOk result (ReportsExploration machine.now limits.now) }
    ensures outcome { IfOk result TellsOutcome }
    ensures status { IfOk result (λ explored. explored.status ≡ findings.now.status) }
    ensures bytes { IfOk result (TellsBytes machine.now) }
    ensures formed { IfOk result (IsReadable machine.now) }
    ensures held { IfOk result (HoldsDumps machine.now) }
    ensures long { IfFault result (λ _. HasSomeLongDump machine.now limits.now) }
{
    machine_law();
    let told = hold_report(alloc, machine, findings, limits)?;
    Ok(Explored {
        report: told.report,
        status: findings.status,
        held: told.held,
    })
}

/// Explores the machine under the limits and reports what was found: every run of at most `limits.depart` departures, on
/// the caller's own thread (docs/SCHEDULING.md; docs/RACES.md).
///
/// Where the names of the design are such as a report tells, and its time limit too, its text can be read again.
///
/// E901 where memory was refused before anything was found, or for the report. The other fault is that the dump of a run
/// within the limits has 2^64 bytes or more.
pub fn report_alone(
    alloc: Global,
    machine: &Machine,
    limits: &Limits,
) -> Result<Explored, OrMemory<TooMany>>
    ensures exploration { IfOk result (ReportsExploration machine.now limits.now) }
    ensures outcome { IfOk result TellsOutcome }
    ensures entries { IfOk result (MeansEntries machine.now limits.now) }
    ensures bytes { IfOk result (TellsBytes machine.now) }
    ensures formed { IfOk result (IsReadable machine.now) }
    ensures held { IfOk result (HoldsDumps machine.now) }
    ensures long { IfFault result (λ _. HasSomeLongDump machine.now limits.now) }
{
    machine_law();
    let findings = explore_alone(alloc, machine, limits)?;
    report_found(alloc, machine, &findings, limits)
}

/// The same by so many workers, 1 to 64, of whom the caller's thread is the first; the gate is called before each job. What
/// is told is as true as of `report_alone`, but that there were so many entries where the report says that it was cut for
/// them: of that nothing is promised.
///
/// E901 and the other fault as of `report_alone`.
pub fn report_shared<R: Threads + Wait + Sync, G: Gate>(
    rt: &R,
    alloc: Global,
    machine: &Machine,
    limits: &Limits,
    workers: usize,
    gate: &G,
) -> Result<Explored, OrMemory<TooMany>>
    requires workers { (1 ≤ workers) × (workers ≤ 64) }
    ensures exploration { IfOk result (ReportsExploration machine.now limits.now) }
    ensures outcome { IfOk result TellsOutcome }
    ensures bytes { IfOk result (TellsBytes machine.now) }
    ensures formed { IfOk result (IsReadable machine.now) }
    ensures held { IfOk result (HoldsDumps machine.now) }
    ensures long { IfFault result (λ _. HasSomeLongDump machine.now limits.now) }
{
    machine_law();
    let findings = explore(rt, alloc, machine, limits, workers, gate)?;
    report_found(alloc, machine, &findings, limits)
}
