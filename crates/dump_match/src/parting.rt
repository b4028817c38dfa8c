// The call for two dumps.

ghost use Rattle.std.specs.Prelude.{IfOk};
ghost use Rattle.matching.specs.Answers.{IfCut, IfExplained, IfUnexplained, TellsOfStop};
ghost use Rattle.dump_match.specs.Answering.{ClosesDumps, ExplainsDumps, PartsDumps};

use crate::dump::DumpReference;
use basis::OrMemory;
use explore::Watcher;
use matching::Matching;
use pair_match::{PairFault, PairReference, match_both};
use plain_steps::run_law;
use statebook::Limits;
use std::alloc::Global;
use std::io::Read;
use vcd_read::VcdFault;
use vmachine::{MachineState, machine_law};

/// Looks for a run of the machine of the first dump whose values at the end of each slot are those of both dumps, as `match_dump` does for one
/// of them. Where either ends nothing more is compared.
///
/// Where it says `Explained`, the run is one up to the last time that was read, and none that is has fewer departures. Where it says
/// `Unexplained`, no run has the values of both up to that time with so few departures in each slot, and up to the time before some run has:
/// there the dumps part, though each may have a run of its own. Where it was cut, up to `closed` there is one. The faults are those of
/// `match_dump`, of the first dump or of the second.
pub fn match_dumps<R: Read + Drop, W: Watcher>(
    alloc: Global,
    pair: &mut PairReference<DumpReference<'_, R>>,
    limits: &Limits,
    watcher: &mut W,
) -> Result<Matching<MachineState>, OrMemory<PairFault<VcdFault>>>
    ensures explained { IfOk result (λ answer. IfExplained answer
        (ExplainsDumps R.remaining limits.now.depart pair.old pair.new)) }
    ensures parts { IfOk result (λ answer. IfUnexplained answer
        (PartsDumps R.remaining limits.now.depart pair.old pair.new)) }
    ensures closed { IfOk result (λ answer. IfCut answer
        (ClosesDumps R.remaining limits.now.depart pair.old pair.new)) }
    ensures stopped { IfOk result (λ answer. IfCut answer (TellsOfStop (W.stopped watcher.new))) }
{
    machine_law();
    run_law();
    let machine = pair.first.machine;
    match_both(alloc, machine, pair, limits, watcher)
}
