// A search that goes by time, which keeps of each slot its races and the ends alone.

ghost use Rattle.std.specs.Prelude.{◌≡◌, IfOk};
ghost use Rattle.explore.specs.Ranked.{TellsOfEntries, TellsOfSteps, TellsOfStop, pairs_of};
ghost use Rattle.vmachine.specs.Machines.{machine_rules};
ghost use Rattle.racebook.specs.InTime.{EachEnd, HasFewestToEnd, IsEndOfRun, KeepsEndsThroughout, KeepsEndsTo, ListsLineRacesThroughout, ListsLineRacesTo, ListsOfClosed, ListsRacesThroughout, ListsRacesTo};
ghost use Rattle.racebook.specs.LineRaces.{AreAllSidesInOrder, AreLineRacesInOrder, EachLineRace, HasFewestOfLines, IsLineRace};
ghost use Rattle.racebook.specs.Races.{AreRacesInOrder, AreValuesInOrder, EachRace, HasFewest, IsRace};

use crate::slots::ClosedSlots;
use crate::timed_findings::TimedFindings;
use explore::{Watcher, explore_ranked};
use plain_steps::run_law;
use statebook::Limits;
use std::alloc::Global;
use vmachine::{Machine, machine_law};

/// Explores the machine's runs by time, and keeps of each slot what a report tells: its races and the states in which runs end.
/// All else is forgotten as the slot is closed, so that the memory it takes doesn't grow with the length of the runs.
///
/// However the search ended, whatever two runs within the limit of departures differ in at the end of a slot up to the time
/// `search.closed` is listed, with every value that any such run shows there, and no run at all shows a value there with fewer
/// departures than its log; so it is of races of lines, and of the states in which runs end. Where the search is exhausted, this
/// holds of all times. Nothing is listed of a time that wasn't closed. Want of memory, too, only cuts the search.
pub fn explore_in_time<W: Watcher>(
    alloc: Global,
    machine: &Machine,
    limits: &Limits,
    watcher: &mut W,
) -> TimedFindings
    ensures found { EachRace (IsRace machine.now limits.now) result.races.items }
    ensures closed { ListsRacesTo machine.now limits.now result }
    ensures exhausted { ListsRacesThroughout machine.now limits.now result }
    ensures fewest { EachRace (HasFewest machine.now) result.races.items }
    ensures order { AreRacesInOrder result.races.items }
    ensures values { AreValuesInOrder result.races.items }
    ensures lines_found { EachLineRace (IsLineRace machine.now limits.now) result.line_races.items }
    ensures lines_closed { ListsLineRacesTo machine.now limits.now result }
    ensures lines_exhausted { ListsLineRacesThroughout machine.now limits.now result }
    ensures lines_fewest { EachLineRace (HasFewestOfLines machine.now) result.line_races.items }
    ensures lines_order { AreLineRacesInOrder result.line_races.items }
    ensures lines_sides { AreAllSidesInOrder result.line_races.items }
    ensures ends_found { EachEnd (IsEndOfRun machine.now limits.now) (pairs_of result.ends.items) }
    ensures ends_closed { KeepsEndsTo machine.now limits.now result }
    ensures ends_exhausted { KeepsEndsThroughout machine.now limits.now result }
    ensures ends_fewest { EachEnd (HasFewestToEnd machine.now) (pairs_of result.ends.items) }
    ensures of_closed { ListsOfClosed machine.now result }
    ensures entries { TellsOfEntries (machine_rules machine.now) limits.now result.search }
    ensures steps { TellsOfSteps (machine_rules machine.now) limits.now result.search }
    ensures stopped { TellsOfStop (W.stopped watcher.new) result.search }
{
    machine_law();
    run_law();
    let mut slots = ClosedSlots::new(alloc, machine);
    let search = explore_ranked(alloc, machine, limits, &mut slots, watcher);
    let ClosedSlots {
        races,
        line_races,
        ends,
        ..
    } = slots;
    TimedFindings {
        races,
        line_races,
        ends,
        search,
    }
}
