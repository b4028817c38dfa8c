// What departures that hold back are, and the lines of a slot (docs/SCHEDULING.md).
// Nothing goes in and nothing comes out: the crate has one law, and nothing stands on it.
#![tactic(auto)]

ghost use Rattle.holding_law.specs.HeldLaws.{CanHold, HasActionsByText, DefaultIsFree, LastGoesOn, HasFreeOnes, IsAllActive, AdvanceReleases, TakenIsReleased};
ghost use Rattle.holding_law.specs.TakingLaws.{HoldingIsTaking};
ghost use Rattle.holding_law.specs.LineLaws.{HoldsSlotLines, IsUnordered, PrintsUnordered};

use plain_steps::run_law;
use statement_law::law::statement_law;

/// The law of departures that hold back, and of lines that are looked at, which does nothing. Each run in which departures may hold
/// back is, under another log, one in which they only take. What may be taken may also be taken while all that stands before it is
/// held back. Choice 0 takes no process that is held back, and the one that made the last step where that can go on. While a process
/// is held back something else can go on; what is held back is active; an advance leaves nobody held back, and what a step takes
/// isn't held back after it. The bag of a state has each line as often as it stands in what its slot has printed, cut at its
/// line feeds; the order of whole lines doesn't count.
pub fn holding_law()
    ensures takes { HoldingIsTaking }
    ensures holds { CanHold }
    ensures actions { HasActionsByText }
    ensures default { DefaultIsFree }
    ensures last { LastGoesOn }
    ensures free { HasFreeOnes }
    ensures active { IsAllActive }
    ensures advance { AdvanceReleases }
    ensures taken { TakenIsReleased }
    ensures lines { HoldsSlotLines }
    ensures unordered { IsUnordered }
    ensures printed { PrintsUnordered }
{
    run_law();
    statement_law();
}
