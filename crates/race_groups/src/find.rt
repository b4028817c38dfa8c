// A search for races, by time.

ghost use Rattle.std.specs.Prelude.{◌≡◌, ◌≢◌, ◌++◌, [], IfOk};
ghost use Rattle.explore.specs.Ranked.{pairs_of, TellsOfEntries, TellsOfSteps, TellsOfStop};
ghost use Rattle.vmachine.specs.Machines.{machine_rules};
ghost use Rattle.race_groups.specs.Found.{ClosesAllEnds, ClosesTimeOfRun, EachGroup, FirstsAreInTime, HasFirstDifference, HasItsCause};
ghost use Rattle.race_groups.specs.Found.{HasLogOfFirst, LacksOnlyNoCause, TellsOfAll, TellsOfAllThroughout, TellsOfCuts};
ghost use Rattle.race_groups.specs.Found.{IsCutValues, TellsOfCutValues, TellsOfCutValuesThroughout, TellsOfCutsThroughout, TellsOfEnds};
ghost use Rattle.race_groups.specs.Found.{TellsOfEndsThroughout, TellsOfNoEnd, TellsOfNoEndThroughout, TellsOfNone, TellsOfNoneThroughout};
ghost use Rattle.race_groups.specs.Inner.{AreCutsTold, AreTold, IsGroupOfEnds, IsLogOfEnds, traced_by, tracing_of};

use crate::causes::{Causes, Placed};
use crate::collected::RaceGroups;
use crate::group::{Difference, Group, Races, Scope};
use basis::NoMemory;
use explore::{FoundMark, RankedFindings, Watcher, explore_ranked};
use plain_steps::run_law;
use sched_core::Log;
use statebook::Limits;
use std::alloc::Global;
use vmachine::{Machine, MachineState, machine_law};

// The log of the first that has departures.
fn departed_log(alloc: Global, ends: &[FoundMark<MachineState>]) -> Result<Log, NoMemory>
    ensures { IfOk result (λ log. IsLogOfEnds (pairs_of ends.now) log) }
{
    for found in ends {
        if !found.log.members().is_empty() {
            return found.log.copy();
        }
    }
    Ok(Log::new(alloc))
}

// The group of ends that differ.
fn group_of_ends(causes: &mut Causes, ends: Vec<FoundMark<MachineState>>) -> Result<Group, NoMemory>
    ensures { IfOk result (IsGroupOfEnds (tracing_of causes.old) ends.items) }
{
    let alloc = causes.alloc;
    let log = departed_log(alloc, &ends)?;
    let first = Difference::Ends(ends);
    let last = first.time(causes.machine());
    let cause = match causes.place(&[], &log)? {
        Placed::With(_) => None,
        Placed::Apart(cause) => cause,
    };
    Ok(Group {
        cause,
        log,
        first,
        next: Vec::new(alloc),
        more: 0,
        last,
    })
}

// The two ends that are alike, but for the values of a cut slot, where there are such.
fn cut_ends_told(
    mut ends: Vec<FoundMark<MachineState>>,
    mut cut_ends: Vec<FoundMark<MachineState>>,
) -> Result<Vec<FoundMark<MachineState>>, NoMemory>
    ensures none { IfOk result (λ told. told.items ≡ [] → cut_ends.items ≡ []) }
    ensures two { IfOk result (λ told. told.items ≢ [] → (told.items ≡ ends.items ++ cut_ends.items) × (cut_ends.items ≢ [])) }
{
    if cut_ends.is_empty() {
        return Ok(cut_ends);
    }
    ends.append(&mut cut_ends)?;
    Ok(ends)
}

// What is told of what was kept: the groups, where two ends differ one of these behind the others; and the cut ends.
#[derive(Drop)]
struct Told {
    groups: Vec<Group>,
    cut_ends: Vec<FoundMark<MachineState>>,
}

// Both of what was kept.
fn told_of(found: RaceGroups) -> Result<Told, NoMemory>
    ensures groups { IfOk result (λ told. AreTold (traced_by found.entry) found.entry told.groups.items) }
    ensures cut_ends { IfOk result (λ told. AreCutsTold found.entry told.cut_ends.items) }
{
    let RaceGroups {
        mut causes,
        mut groups,
        ends,
        cut_ends,
        ..
    } = found;
    if ends.len() <= 1 {
        return Ok(Told {
            groups,
            cut_ends: cut_ends_told(ends, cut_ends)?,
        });
    }
    groups.push(group_of_ends(&mut causes, ends)?)?;
    Ok(Told {
        groups,
        cut_ends: Vec::new(causes.alloc),
    })
}

/// Explores the machine's runs by time, and tells what two of them differ in at the end of a slot of one of them, by the pairs of
/// statements that are to blame. A run whose next slot is later still shows the values of its last one, and no lines. Of each group it keeps the first difference; the rest is counted, and named as far as the scope says. So the memory
/// that it takes grows with the causes and with the distinct logs that show differences; not with the differences of one log, nor
/// with the length of runs that don't differ.
///
/// However the search ended: wherever two runs within the limit of departures show different values of a variable, or different lines,
/// at the end of a slot, from the time `scope.from` on and up to the time `search.closed`, a group counts it; and if memory
/// wasn't refused meanwhile (`refused`), groups count nothing else, nothing twice, and each under the cause of a side of it. Where the
/// search is exhausted, so it is at every time from `scope.from` on, and no run within the limit of departures ends later than
/// `search.closed`, which is a time at which a run within the limits is at the end of a slot, or ends. Where it tells no group, at these times no two such runs differ
/// at the end of a slot, none print other lines, and all that end do so alike. Two that end at different times, by different causes, or
/// print different lines in a slot that `$finish` or `$stop` cuts, are told in a group of their own, whatever other groups there are;
/// where they differ in the values alone that such a slot leaves, `cut_ends` has two of them. `ended` says whether a run ended at all. What is before `scope.from` is left out.
/// Where no cause is told of a group, its log has none, if its slot ends within the limit of steps.
pub fn find_races<W: Watcher>(
    alloc: Global,
    machine: &Machine,
    limits: &Limits,
    scope: &Scope,
    watcher: &mut W,
) -> Result<Races, NoMemory>
    ensures cause { IfOk result (λ races. EachGroup (HasItsCause machine.now) races.groups.items) }
    ensures no_cause { IfOk result (λ races. EachGroup (LacksOnlyNoCause machine.now limits.now) races.groups.items) }
    ensures first { IfOk result (λ races. EachGroup (HasFirstDifference machine.now limits.now) races.groups.items) }
    ensures log { IfOk result (λ races. EachGroup HasLogOfFirst races.groups.items) }
    ensures all { IfOk result (TellsOfAll machine.now limits.now scope.now) }
    ensures all_exhausted { IfOk result (TellsOfAllThroughout machine.now limits.now scope.now) }
    ensures none { IfOk result (TellsOfNone machine.now limits.now scope.now) }
    ensures none_exhausted { IfOk result (TellsOfNoneThroughout machine.now limits.now scope.now) }
    ensures ends { IfOk result (TellsOfEnds machine.now limits.now scope.now) }
    ensures ends_exhausted { IfOk result (TellsOfEndsThroughout machine.now limits.now scope.now) }
    ensures cut_ends { IfOk result (IsCutValues machine.now limits.now) }
    ensures no_cut_ends { IfOk result (TellsOfCutValues machine.now limits.now scope.now) }
    ensures no_cut_ends_exhausted { IfOk result (TellsOfCutValuesThroughout machine.now limits.now scope.now) }
    ensures in_time { IfOk result (FirstsAreInTime machine.now scope.now) }
    ensures closed { IfOk result (ClosesAllEnds machine.now limits.now) }
    ensures closed_time { IfOk result (ClosesTimeOfRun machine.now limits.now) }
    ensures no_end { IfOk result (TellsOfNoEnd machine.now limits.now) }
    ensures no_end_exhausted { IfOk result (TellsOfNoEndThroughout machine.now limits.now) }
    ensures cuts { IfOk result (TellsOfCuts machine.now limits.now) }
    ensures cuts_exhausted { IfOk result (TellsOfCutsThroughout machine.now limits.now) }
    ensures entries { IfOk result (λ races. TellsOfEntries (machine_rules machine.now) limits.now races.search) }
    ensures steps { IfOk result (λ races. TellsOfSteps (machine_rules machine.now) limits.now races.search) }
    ensures stopped { IfOk result (λ races. TellsOfStop (W.stopped watcher.new) races.search) }
{
    machine_law();
    run_law();
    let mut found = RaceGroups::new(alloc, machine, limits, scope);
    let search = explore_ranked(alloc, machine, limits, &mut found, watcher);
    let (ignored, ended, cut_runs, refused, closed) = (
        found.ignored,
        found.ended,
        found.cut_runs,
        found.refused,
        found.seen,
    );
    let Told { groups, cut_ends } = told_of(found)?;
    Ok(Races {
        groups,
        ignored,
        cut_ends,
        ended,
        cut_runs,
        refused,
        search: RankedFindings {
            status: search.status,
            closed,
        },
    })
}
