// The races of all slots, by time.

ghost use Rattle.std.specs.Prelude.{◌≡◌, ◌<◌, IfOk, length};
ghost use Rattle.racebook.specs.LineRaces.{AreAllSidesInOrder, AreLineRacesInOrder, GivesFewestOfLines, ListsAllLineRaces, ListsEveryMarkOfLines, ListsLineRaces, ListsNoLineRace, ListsShortestOfLines};
ghost use Rattle.racebook.specs.Races.{AreRacesInOrder, AreValuesInOrder, ListsAllRaces, ListsEveryMark, ListsShortest, GivesFewest, ListsRaces};
ghost use Rattle.racebook.specs.Inner.{AreAllLineRaces, AreAllRaces, AreInTime, AreWide, HavePrinted, IsSlotEndAt};

use crate::line_race::LineRace;
use crate::race::Race;
use crate::slot::{put_line_race, put_races};
use crate::slot_state::{SlotState, printing_of, states_of_findings};
use basis::NoMemory;
use explore::Findings;
use plain_steps::run_law;
use std::alloc::Global;
use vmachine::{Machine, MachineState, machine_law};

// Where the slot that begins here ends.
fn slot_end(slot_states: &[SlotState], start: usize) -> usize
    requires { start < length slot_states.now }
    ensures { IsSlotEndAt slot_states.now start result }
{
    let time = slot_states[start].time;
    let mut end = start + 1;
    'same: while end < slot_states.len() && slot_states[end].time == time {
        end += 1;
    }
    end
}

// The races among slot states that stand in the order of their times.
fn races_among(
    alloc: Global,
    slot_states: &[SlotState],
    count: usize,
) -> Result<Vec<Race>, NoMemory>
    requires wide { AreWide count slot_states.now }
    requires order { AreInTime slot_states.now }
    ensures { IfOk result (λ races. AreAllRaces slot_states.now races.items) }
{
    let mut races = Vec::new(alloc);
    let mut start = 0;
    'slots: while start < slot_states.len() {
        let time = slot_states[start].time;
        let end = slot_end(slot_states, start);
        put_races(alloc, &mut races, &slot_states[start..end], time, count)?;
        start = end;
    }
    Ok(races)
}

/// The races among slot states, in whichever order these are.
pub fn races_in(
    alloc: Global,
    mut slot_states: Vec<SlotState>,
    count: usize,
) -> Result<Vec<Race>, NoMemory>
    requires { AreWide count slot_states.items }
    ensures { IfOk result (λ races. AreAllRaces slot_states.entry.items races.items) }
{
    slot_states.sort_by_key(|slot_state| slot_state.time)?;
    races_among(alloc, &slot_states, count)
}

/// The races that an explorer's findings show: the times and variables at which two marks that are ends of slots have
/// different values, each value with the log of the fewest departures among them, whatever the status.
///
/// Where the findings are those of an exploration of this machine, each race listed is one. Where they are all, so are
/// the races: whatever two runs within the limit of departures differ in at the end of a slot is listed, with every value
/// that any such run shows there, and no run at all shows a value there with fewer departures than its log.
///
/// The time it takes grows with the marks times the variables, and as a sort with the marks. A variable that has one value
/// only in a slot takes no memory. E901 is the only refusal.
pub fn races(
    alloc: Global,
    machine: &Machine,
    findings: &Findings<MachineState>,
) -> Result<Vec<Race>, NoMemory>
    ensures found { IfOk result (λ races. ListsRaces machine.now findings.now races.items) }
    ensures all { IfOk result (λ races. ListsAllRaces machine.now findings.now races.items) }
    ensures fewest { IfOk result (λ races. GivesFewest machine.now findings.now races.items) }
    ensures marked { IfOk result (λ races. ListsEveryMark machine.now findings.now races.items) }
    ensures shortest { IfOk result (λ races. ListsShortest machine.now findings.now races.items) }
    ensures order { IfOk result (λ races. AreRacesInOrder races.items) }
    ensures values { IfOk result (λ races. AreValuesInOrder races.items) }
{
    machine_law();
    run_law();
    let slot_states = states_of_findings(alloc, machine, findings)?;
    races_in(alloc, slot_states, machine.design().variables.len())
}

// The races of lines among slot states that stand in the order of their times.
fn line_races_among(alloc: Global, slot_states: &[SlotState]) -> Result<Vec<LineRace>, NoMemory>
    requires printed { HavePrinted slot_states.now }
    requires order { AreInTime slot_states.now }
    ensures { IfOk result (λ races. AreAllLineRaces slot_states.now races.items) }
{
    let mut races = Vec::new(alloc);
    let mut start = 0;
    'slots: while start < slot_states.len() {
        let time = slot_states[start].time;
        let end = slot_end(slot_states, start);
        put_line_race(alloc, &mut races, &slot_states[start..end], time)?;
        start = end;
    }
    Ok(races)
}

/// The races of lines among slot states, in whichever order these are.
pub fn line_races_in(alloc: Global, slot_states: &[SlotState]) -> Result<Vec<LineRace>, NoMemory>
    ensures { IfOk result (λ races. AreAllLineRaces slot_states.now races.items) }
{
    let mut printing = printing_of(alloc, slot_states)?;
    printing.sort_by_key(|slot_state| slot_state.time)?;
    line_races_among(alloc, &printing)
}

/// The races of lines that an explorer's findings show: the times at which two marks that are ends of slots have different
/// printed lines, in whichever order they were printed, each side with the log of the fewest departures among them,
/// whatever the status.
///
/// Where the findings are those of an exploration of this machine, each race listed is one; and where the machine looks at
/// values alone there is none. Where they are all, so are the races: the times at which two runs within the limit of
/// departures print different lines are listed, with all lines that any such run prints there, and no run at all prints
/// them there with fewer departures than their log.
///
/// The time it takes grows as a sort with the marks and their lines. A slot whose lines are the same in all marks takes no
/// memory beyond its marks. E901 is the only refusal.
pub fn line_races(
    alloc: Global,
    machine: &Machine,
    findings: &Findings<MachineState>,
) -> Result<Vec<LineRace>, NoMemory>
    ensures found { IfOk result (λ races. ListsLineRaces machine.now findings.now races.items) }
    ensures all { IfOk result (λ races. ListsAllLineRaces machine.now findings.now races.items) }
    ensures fewest { IfOk result (λ races. GivesFewestOfLines machine.now findings.now races.items) }
    ensures marked { IfOk result (λ races. ListsEveryMarkOfLines machine.now findings.now races.items) }
    ensures shortest { IfOk result (λ races. ListsShortestOfLines machine.now findings.now races.items) }
    ensures order { IfOk result (λ races. AreLineRacesInOrder races.items) }
    ensures sides { IfOk result (λ races. AreAllSidesInOrder races.items) }
    ensures none { IfOk result (λ races. ListsNoLineRace machine.now findings.now races.items) }
{
    machine_law();
    run_law();
    let slot_states = states_of_findings(alloc, machine, findings)?;
    line_races_in(alloc, &slot_states)
}
