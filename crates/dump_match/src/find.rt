// The call.

ghost use Rattle.std.specs.Prelude.{IfOk};
ghost use Rattle.matching.specs.Answers.{IfCut, IfExplained, IfUnexplained, TellsOfStop};
ghost use Rattle.dump_match.specs.Answering.{ClosesDump, ExplainsDump, RefutesDump};

use crate::dump::DumpReference;
use basis::OrMemory;
use explore::Watcher;
use matching::{Matching, match_runs};
use plain_steps::run_law;
use statebook::Limits;
use std::alloc::Global;
use std::io::Read;
use vcd_read::VcdFault;
use vmachine::{MachineState, machine_law};

/// Looks for a run of the machine whose values at the end of each slot are those of the dump, with at most `limits.depart` departures
/// in each slot; `limits.steps` and `limits.entries` are those of the search of one slot.
///
/// Where it says `Explained`, the run is one, and none that is has fewer departures. Where it says `Unexplained`, up to that time there
/// is none; what differs in the nearest run the reference tells (`differing`). Where it was cut, up to `closed` there is one. E505 with its
/// line where the text stops being a dump, E903 where the reader fails, E904, E901.
pub fn match_dump<R: Read + Drop, W: Watcher>(
    alloc: Global,
    reference: &mut DumpReference<'_, R>,
    limits: &Limits,
    watcher: &mut W,
) -> Result<Matching<MachineState>, OrMemory<VcdFault>>
    ensures explained { IfOk result (λ answer. IfExplained answer
        (ExplainsDump R.remaining limits.now.depart reference.old reference.new)) }
    ensures unexplained { IfOk result (λ answer. IfUnexplained answer
        (RefutesDump R.remaining limits.now.depart reference.old reference.new)) }
    ensures closed { IfOk result (λ answer. IfCut answer
        (ClosesDump R.remaining limits.now.depart reference.old reference.new)) }
    ensures stopped { IfOk result (λ answer. IfCut answer (TellsOfStop (W.stopped watcher.new))) }
{
    machine_law();
    run_law();
    let machine = reference.machine;
    match_runs(alloc, machine, reference, limits, watcher)
}
