// That a text has one replay, and a refusal none; that a true report isn't refused; and that two explorations that miss
// nothing agree.

ghost use Rattle.std.specs.Prelude.{◌≡◌, ℕ, ◌<◌, ◌^◌, List, length};
ghost use Rattle.vrace.specs.Request.{Request};
ghost use Rattle.vrace.specs.Checks.{AsksTooMuch, IsCheckReason, IsTrueText, all_allowed};
ghost use Rattle.vrace.specs.Explores.{ExploredFilesAgree, HoldingFilesListAll, LinesOfFilesRefine};
ghost use Rattle.vrace.specs.Replays.{IsShown};
ghost use Rattle.vrace.specs.Refusals.{IsReason, IsOfMemory, IsOfWriting};
ghost use Rattle.vrace.specs.declared.fault.Fault.{Fault};
ghost use Rattle.vrace.specs.declared.replay.Show.{Show};

use report_text::report_text_law;
use sched_core::law::log_text_law;
use vgrammar::source_law::source_law;
use vhierarchy::law::elaboration_law;
use vlex::law::lexing_law;
use vreport::agreement_law;

/// Files have at most one dump under a log, whatever is asked for, and one text of lines, and where they have one no fault has its
/// reason but want of memory and a failed writer. So such a text and each refusal but E901 and E902 rule each other out.
pub fn replay_law()
    ensures one { (show : Show) (files : List (List ℕ)) (asked : Request) (log text other : List ℕ) →
        IsShown show files asked log text → IsShown show files asked log other → text ≡ other }
    ensures refused { (show : Show) (files : List (List ℕ)) (asked : Request) (log text : List ℕ)
        (fault : Fault) →
        IsShown show files asked log text → IsReason files asked log fault → IsOfWriting fault }
{
    lexing_law();
    source_law();
    elaboration_law();
    log_text_law();
}

/// Where all that a text lists is true of files, no fault has its reason but want of memory, or that the head asks for more than
/// is allowed. So the answer Ok and any other refusal of `check_text` rule each other out, for a text whose bytes can be counted
/// in 64 bits. No report asks for more than `Allowed::all`.
pub fn check_law()
    ensures refused { (files : List (List ℕ)) (text : List ℕ) (fault : Fault) →
        length text < 2 ^ 64 → IsTrueText files text → IsCheckReason files text fault →
        IsOfMemory fault }
    ensures all { (text : List ℕ) → ¬ AsksTooMuch all_allowed text }
{
    lexing_law();
    source_law();
    elaboration_law();
    log_text_law();
    report_text_law();
}

/// Two reports of the same files, asked for alike, that both say exhausted list the same ends by time, cause, values and lines,
/// the same races by time, variable and values, and the same races of lines: whatever the limits of steps and of entries, and
/// whatever the number of workers. One where departures may hold back lists all that one where they only take does; and one
/// that looks at lines lists, but for these, what one lists that doesn't.
pub fn explore_law()
    ensures agree { ExploredFilesAgree }
    ensures holding { HoldingFilesListAll }
    ensures lines { LinesOfFilesRefine }
{
    lexing_law();
    source_law();
    elaboration_law();
    log_text_law();
    agreement_law();
}
