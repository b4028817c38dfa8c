// That the report of an exploration is a true one, and that two that say exhausted agree.

ghost use Rattle.statebook.specs.declared.limits.Limits.{Limits};
ghost use Rattle.vmodel.specs.Run.{Setting};
ghost use Rattle.report_text.specs.Report.{Report};
ghost use Rattle.vreport.specs.Agreement.{ExhaustedAgree, HoldingListsAll, LinesRefine};
ghost use Rattle.vreport.specs.Formed.{IsTrueWithDumps};
ghost use Rattle.vreport.specs.Reports.{IsExploration};

use plain_steps::run_law;

/// What an exploration reports is true, with the dumps of its ends: each end and each race is of runs within the limits
/// that its head names. It does nothing.
pub fn report_law()
    ensures exploration_is_true { (setting : Setting) (limits : Limits) (report : Report) →
        IsExploration setting limits report → IsTrueWithDumps setting report }
{}

/// Two reports of one setting that both say exhausted, under as many departures, list the same ends
/// by time, cause and values, and the same races by time, variable and values: whatever the limits of steps and entries,
/// and whoever explored, on one thread or by workers. An exhausted report where departures may hold back lists all that
/// one where they only take does. And where lines are looked at the ends and the races of variables are those where they
/// aren't. It does nothing.
pub fn agreement_law()
    ensures exhausted_agree { ExhaustedAgree }
    ensures holding_lists_all { HoldingListsAll }
    ensures lines_refine { LinesRefine }
{
    run_law();
}
