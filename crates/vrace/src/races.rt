// From files to their races by causes.

ghost use Rattle.std.specs.Prelude.{◌≡◌, IfOk, IfErr};
ghost use Rattle.explore.specs.Ranked.{TellsOfEntries, TellsOfSteps, TellsOfStop};
ghost use Rattle.vmachine.specs.Machines.{machine_rules};
ghost use Rattle.vsrc.specs.Source.{file_bytes};
ghost use Rattle.race_groups.specs.Found.{ClosesAllEnds, ClosesTimeOfRun, EachGroup, FirstsAreInTime, HasFirstDifference, HasItsCause};
ghost use Rattle.race_groups.specs.Found.{HasLogOfFirst, IsCutValues, LacksOnlyNoCause, TellsOfAll, TellsOfAllThroughout};
ghost use Rattle.race_groups.specs.Found.{TellsOfCutValues, TellsOfCutValuesThroughout, TellsOfCuts, TellsOfCutsThroughout};
ghost use Rattle.race_groups.specs.Found.{TellsOfEnds, TellsOfEndsThroughout, TellsOfNoEnd, TellsOfNoEndThroughout};
ghost use Rattle.race_groups.specs.Found.{TellsOfNone, TellsOfNoneThroughout};
ghost use Rattle.vrace.specs.ActionPlaces.{ArePlacedInFiles};
ghost use Rattle.vrace.specs.Request.{request_of};
ghost use Rattle.vrace.specs.Explores.{IsSearched};
ghost use Rattle.vrace.specs.Refusals.{IsDesignFault};

use crate::fault::Fault;
use crate::machine::{PlacedMachine, machine_of_files};
use crate::options::Options;
use race_groups::{Races, Scope, find_races};
use std::alloc::Global;
use trace_text::Origins;
use vmachine::Machine;
use vreport::{Budget, entry_bytes};

/// The races of files, the machine whose runs differ so, and where the statements of its design begin.
pub struct FoundRaces {
    pub machine: Machine,
    pub origins: Origins,
    pub races: Races,
}

impl Drop for FoundRaces {
    fn drop(self) {
        let FoundRaces {
            machine: _,
            origins: _,
            races: _,
        } = self;
    }
}

/// Explores the files by time, within a budget, on the caller's own thread: every run of at most `options.limits.depart` departures from
/// the default order; and tells what two of them differ in, each difference under the two statements that are to blame (docs/RACES.md).
///
/// Each difference told is one, and each cause is that of its log. Wherever two such runs differ from the time `scope.from` on, up to the
/// time `races.search.closed`, a group counts the difference; where the search is exhausted, at every time. If memory wasn't refused
/// meanwhile, groups count nothing else, nothing twice, and each under the cause of a side of it. Where none is told, none differ. Two
/// runs that end at different times, by different causes, or with other lines in a slot that `$finish` or `$stop` cuts, are told in a
/// group of their own, whatever other groups there are; where only the values differ that such a slot leaves, `races.cut_ends` has two of
/// them. Where it isn't said that a run was cut by the time limit, so none was, up to that time. `Cut(Entries)` is said only where there
/// are so many entries, `Cut(Steps)` only where a run takes more steps.
///
/// Refusals, in the order in which they are looked for: E904 where the files together are longer than 16,777,216 bytes; E110 to
/// E114, E101, E102, E2xx and E3xx where their text has no design; E901.
pub fn find_races_in<B: Budget>(
    alloc: Global,
    files: &[Vec<u8>],
    options: &Options<'_>,
    scope: &Scope,
    budget: &mut B,
) -> Result<FoundRaces, Fault>
    ensures searched { IfOk result (λ found.
        IsSearched (file_bytes files.now) (request_of options.now) found.machine) }
    ensures placed { IfOk result (λ found.
        ArePlacedInFiles (file_bytes files.now) (request_of options.now).top found.origins) }
    ensures cause { IfOk result (λ found. EachGroup (HasItsCause found.machine) found.races.groups.items) }
    ensures no_cause { IfOk result (λ found.
        EachGroup (LacksOnlyNoCause found.machine options.now.limits) found.races.groups.items) }
    ensures first { IfOk result (λ found.
        EachGroup (HasFirstDifference found.machine options.now.limits) found.races.groups.items) }
    ensures log { IfOk result (λ found. EachGroup HasLogOfFirst found.races.groups.items) }
    ensures all { IfOk result (λ found. TellsOfAll found.machine options.now.limits scope.now found.races) }
    ensures all_exhausted { IfOk result (λ found.
        TellsOfAllThroughout found.machine options.now.limits scope.now found.races) }
    ensures none { IfOk result (λ found.
        TellsOfNone found.machine options.now.limits scope.now found.races) }
    ensures none_exhausted { IfOk result (λ found.
        TellsOfNoneThroughout found.machine options.now.limits scope.now found.races) }
    ensures ends { IfOk result (λ found. TellsOfEnds found.machine options.now.limits scope.now found.races) }
    ensures ends_exhausted { IfOk result (λ found.
        TellsOfEndsThroughout found.machine options.now.limits scope.now found.races) }
    ensures cut_ends { IfOk result (λ found. IsCutValues found.machine options.now.limits found.races) }
    ensures no_cut_ends { IfOk result (λ found.
        TellsOfCutValues found.machine options.now.limits scope.now found.races) }
    ensures no_cut_ends_exhausted { IfOk result (λ found.
        TellsOfCutValuesThroughout found.machine options.now.limits scope.now found.races) }
    ensures in_time { IfOk result (λ found. FirstsAreInTime found.machine scope.now found.races) }
    ensures closed { IfOk result (λ found. ClosesAllEnds found.machine options.now.limits found.races) }
    ensures closed_time { IfOk result (λ found. ClosesTimeOfRun found.machine options.now.limits found.races) }
    ensures no_end { IfOk result (λ found. TellsOfNoEnd found.machine options.now.limits found.races) }
    ensures no_end_exhausted { IfOk result (λ found.
        TellsOfNoEndThroughout found.machine options.now.limits found.races) }
    ensures cuts { IfOk result (λ found. TellsOfCuts found.machine options.now.limits found.races) }
    ensures cuts_exhausted { IfOk result (λ found.
        TellsOfCutsThroughout found.machine options.now.limits found.races) }
    ensures entries { IfOk result (λ found.
        TellsOfEntries (machine_rules found.machine) options.now.limits found.races.search) }
    ensures steps { IfOk result (λ found.
        TellsOfSteps (machine_rules found.machine) options.now.limits found.races.search) }
    ensures stopped { IfOk result (λ found. TellsOfStop (B.stopped budget.new) found.races.search) }
    ensures reason { IfErr result (IsDesignFault (file_bytes files.now) (request_of options.now).top) }
{
    let PlacedMachine {
        machine,
        origins,
        ..
    } = machine_of_files(alloc, files, options)?;
    budget.reckon(entry_bytes(&machine));
    let races = find_races(alloc, &machine, &options.limits, scope, budget)?;
    Ok(FoundRaces {
        machine,
        origins,
        races,
    })
}
