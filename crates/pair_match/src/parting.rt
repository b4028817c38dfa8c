// The call.

ghost use Rattle.std.specs.Prelude.{◌⊎◌, IfOk};
ghost use Rattle.matching.specs.Explained.{EndsSlots};
ghost use Rattle.matching.specs.Answers.{IfCut, IfExplained, IfUnexplained, TellsOfEntries, TellsOfSteps, TellsOfStop};
ghost use Rattle.pair_match.specs.Pairs.{next_in};
ghost use Rattle.pair_match.specs.Parting.{ClosesBoth, ExplainsBoth, PartsBoth};

use crate::pair::{PairFault, PairReference};
use basis::OrMemory;
use explore::Watcher;
use matching::{Matching, Reference, match_runs};
use sched_core::Ranked;
use statebook::Limits;
use std::alloc::Global;

/// Looks for a run of the space that shows what both references show at the end of every slot, with at most `limits.depart` departures
/// in each slot, as `match_runs` does for one.
///
/// Where it says `Explained`, one of the two was read to its end, and the run is explained by each of them up to the last time that was
/// read; no run that is has fewer departures. Where it says `Unexplained`, no run with so few departures is explained by both up to that
/// time, and up to the time before some run is. Where it was cut, some run is explained by both up to `closed`. The error is that of one
/// of the two, or want of memory.
pub fn match_both<P: Ranked, R: Reference<P::State>, W: Watcher>(
    alloc: Global,
    space: &P,
    pair: &mut PairReference<R>,
    limits: &Limits,
    watcher: &mut W,
) -> Result<Matching<P::State>, OrMemory<PairFault<R::Fault>>>
    requires { EndsSlots (P.rules space.now) (P.ranks space.now) }
    ensures explained { IfOk result (λ answer. IfExplained answer
        (ExplainsBoth (P.rules space.now) (P.ranks space.now) limits.now.depart R.piece R.upcoming R.reads R.done pair.old pair.new)) }
    ensures parts { IfOk result (λ answer. IfUnexplained answer
        (PartsBoth (P.rules space.now) (P.ranks space.now) limits.now.depart R.piece R.upcoming R.reads pair.old pair.new)) }
    ensures closed { IfOk result (λ answer. IfCut answer
        (ClosesBoth (P.rules space.now) (P.ranks space.now) limits.now.depart R.piece R.upcoming R.reads pair.old pair.new)) }
    ensures entries { IfOk result (λ answer. IfCut answer (TellsOfEntries (P.rules space.now) limits.now)) }
    ensures steps { IfOk result (λ answer. IfCut answer (TellsOfSteps (P.rules space.now) limits.now)) }
    ensures stopped { IfOk result (λ answer. IfCut answer (TellsOfStop (W.stopped watcher.new))) }
{
    match_runs(alloc, space, pair, limits, watcher)
}
