// What two statements that race change of what is printed, and of how runs end: the run under the log beside its parent, the run under the
// same log without its last member.

use crate::apart::apart_in;
use crate::difference::run_end;
use basis::NoMemory;
use race_findings::{Apart, Aspect, Difference, Evidence, Side};
use sched_core::bag::Bag;
use sched_core::end::{Cause, End};
use sched_core::setting::Looked;
use sched_core::{Log, Member, Space};
use std::alloc::Global;
use trace_detail::choice_at;
use vdesign::action::Action;
use vdesign::design::Design;
use vmachine::{Machine, MachineState};

// How many steps may be taken in all to find what is printed. Where they are used up, it isn't looked for.
const STEPS: u64 = 5_000_000;

/// How many steps may be taken in all to find what runs of the machine print, and, where ends differ, how they end; none where lines aren't
/// looked at, or there is nothing to find.
pub fn steps_to_verdicts(machine: &Machine, ends_differ: bool) -> u64 {
    if machine.looked() == Looked::Lines && (ends_differ || has_prints(machine.design())) {
        STEPS
    } else {
        0
    }
}

// Whether the action prints a line.
fn prints(action: &Action) -> bool {
    matches!(action, Action::Print { .. })
}

// Whether a run may print.
fn has_prints(design: &Design) -> bool {
    for action in &design.actions {
        if prints(action) {
            return true;
        }
    }
    false
}

/// What is asked for: lines from a time on; and whether ends.
#[derive(Clone, Copy)]
pub struct Asked {
    pub from: u64,
    pub ends: bool,
}

// A run, where it stands.
#[derive(Drop)]
struct Walk<'a> {
    machine: &'a Machine,
    state: MachineState,
}

// A slot in which a run stands, by its time; and whether the run ends the slot, or ends within it.
#[derive(Clone, Copy)]
struct Slot {
    time: u64,
    is_whole: bool,
}

// The time at which two runs show other lines; and whether each of them has a slot then.
#[derive(Clone, Copy)]
struct TimeApart {
    time: u64,
    run: bool,
    parent: bool,
}

// One step fewer, if one is left.
fn take_one(left: &mut u64) -> bool {
    match left.checked_sub(1) {
        None => false,
        Some(fewer) => {
            *left = fewer;
            true
        }
    }
}

impl<'a> Walk<'a> {
    // Takes the choice, if there is one and a step is left.
    fn go_on(&mut self, choice: u32, left: &mut u64) -> Result<bool, NoMemory> {
        let machine = self.machine;
        if choice >= machine.width(&self.state) || !take_one(left) {
            return Ok(false);
        }
        machine.step(&mut self.state, choice)?;
        Ok(true)
    }

    // The slot in which the run ends here, if it does.
    fn last_slot(&self) -> Option<Slot> {
        let end = self.machine.end_of(&self.state)?;
        Some(Slot {
            time: end.time,
            is_whole: false,
        })
    }

    // Goes on to the end of the next slot, or of the run in it; none where the run has ended, or no step is left.
    fn next_slot(&mut self, left: &mut u64) -> Result<Option<Slot>, NoMemory> {
        if !self.go_on(0, left)? {
            return Ok(None);
        }
        for _ in 0..u32::MAX {
            if let Some(time) = self.machine.slot_of(&self.state) {
                return Ok(Some(Slot {
                    time,
                    is_whole: true,
                }));
            }
            if !self.go_on(0, left)? {
                return Ok(self.last_slot());
            }
        }
        Ok(None)
    }

    // Goes on to the end of the run, as far as steps are left.
    fn go_to_end(&mut self, left: &mut u64) -> Result<(), NoMemory> {
        for _ in 0..u32::MAX {
            if !self.go_on(0, left)? {
                return Ok(());
            }
        }
        Ok(())
    }

    // How the run ends, if it does here, and not by the time limit.
    fn end(&self) -> Option<End> {
        let end = self.machine.end_of(&self.state)?;
        match end.cause {
            Cause::Limit => None,
            Cause::Finish => Some(end),
            Cause::Stop => Some(end),
            Cause::Quiet => Some(end),
        }
    }

    // What the slot has printed, if that is looked at.
    fn printed(&self) -> Option<&Bag> {
        self.machine.printed(&self.state)
    }
}

// Whether both slots printed the same lines, or lines aren't looked at.
fn is_same_print(one: &Walk<'_>, other: &Walk<'_>) -> bool {
    match (one.printed(), other.printed()) {
        (Some(one), Some(other)) => one == other,
        _ => true,
    }
}

// Whether both stand in the same state, so that they go on alike.
fn is_same_state(one: &Walk<'_>, other: &Walk<'_>) -> bool {
    one.state == other.state
}

// Whether the slot printed a line.
fn has_printed(walk: &Walk<'_>) -> bool {
    match walk.printed() {
        None => false,
        Some(lines) => !lines.as_slice().is_empty(),
    }
}

// Whether the runs, which stand in these slots, show other lines at the earlier of their times: a run whose slot is later prints nothing
// then.
fn is_apart(run: &Walk<'_>, one: Slot, parent: &Walk<'_>, other: Slot) -> bool {
    if one.time < other.time {
        return one.is_whole && has_printed(run);
    }
    if other.time < one.time {
        return other.is_whole && has_printed(parent);
    }
    one.is_whole && other.is_whole && !is_same_print(run, parent)
}

// The first time from this one on at which both show other lines.
fn time_apart(
    run: &mut Walk<'_>,
    parent: &mut Walk<'_>,
    from: u64,
    left: &mut u64,
) -> Result<Option<TimeApart>, NoMemory> {
    let (mut here, mut there) = (run.next_slot(left)?, parent.next_slot(left)?);
    for _ in 0..u32::MAX {
        let (Some(one), Some(other)) = (here, there) else {
            return Ok(None);
        };
        let time = one.time.min(other.time);
        if time >= from && is_apart(run, one, parent, other) {
            return Ok(Some(TimeApart {
                time,
                run: one.time == time,
                parent: other.time == time,
            }));
        }
        if one.time == other.time && is_same_state(run, parent) {
            return Ok(None);
        }
        if one.time == time {
            here = run.next_slot(left)?;
        }
        if other.time == time {
            there = parent.next_slot(left)?;
        }
    }
    Ok(None)
}

// The run under these members, before this step.
fn walk_to<'a>(
    machine: &'a Machine,
    members: &[Member],
    step: u32,
    left: &mut u64,
) -> Result<Option<Walk<'a>>, NoMemory> {
    let mut walk = Walk {
        machine,
        state: machine.root()?,
    };
    for number in 0..step {
        if !walk.go_on(choice_at(members, number), left)? {
            return Ok(None);
        }
    }
    Ok(Some(walk))
}

// The members of the log but the last one.
fn front_of(log: &Log) -> &[Member] {
    match log.members().split_last() {
        None => &[],
        Some((_, front)) => front,
    }
}

// The log of these members, as far as they are one.
fn log_of(alloc: Global, members: &[Member]) -> Result<Log, NoMemory> {
    let mut log = Log::new(alloc);
    for member in members {
        if log.takes(*member) {
            log.push(member.0, member.1)?;
        }
    }
    Ok(log)
}

// What the run has printed in its slot, if it has one; else nothing.
fn printed_in(alloc: Global, lines: &Bag, has_slot: bool) -> Result<Bag, NoMemory> {
    if has_slot {
        lines.copy(alloc)
    } else {
        Ok(Bag::new(alloc))
    }
}

// Puts the side of a run, which has a slot then or has none.
fn put_side(
    alloc: Global,
    sides: &mut Vec<Side>,
    log: Log,
    walk: &Walk<'_>,
    has_slot: bool,
) -> Result<(), NoMemory> {
    let Some(lines) = walk.printed() else {
        return Ok(());
    };
    sides.push(Side {
        log,
        evidence: Evidence::Lines(printed_in(alloc, lines, has_slot)?),
    })?;
    Ok(())
}

// The difference of the two runs in what they print, that of the parent first.
fn lines_apart(
    alloc: Global,
    log: &Log,
    run: &Walk<'_>,
    parent: &Walk<'_>,
    at: TimeApart,
) -> Result<Difference, NoMemory> {
    let front = log_of(alloc, front_of(log))?;
    let mut sides = Vec::new(alloc);
    put_side(alloc, &mut sides, front, parent, at.parent)?;
    put_side(alloc, &mut sides, log.copy()?, run, at.run)?;
    Ok(Difference {
        time: at.time,
        aspect: Aspect::Lines,
        sides,
    })
}

// The side of a run that has ended.
fn end_side(alloc: Global, log: Log, walk: &Walk<'_>) -> Result<Side, NoMemory> {
    Ok(Side {
        log,
        evidence: Evidence::End(run_end(alloc, walk.machine, &walk.state)?),
    })
}

// What the ends of both runs differ in, if both end, in their time, in what ends them, or in what a slot printed that was cut: the values that
// differ are told by their slots.
fn ends_apart(
    alloc: Global,
    log: &Log,
    run: &Walk<'_>,
    parent: &Walk<'_>,
) -> Result<Option<Difference>, NoMemory> {
    let (Some(_), Some(end)) = (run.end(), parent.end()) else {
        return Ok(None);
    };
    let apart = apart_in(alloc, run.machine, &run.state, &parent.state)?;
    if !apart.in_end && (!apart.in_lines || end.cause == Cause::Quiet) {
        return Ok(None);
    }
    let mut sides = Vec::new(alloc);
    sides.push(end_side(alloc, log_of(alloc, front_of(log))?, parent)?)?;
    sides.push(end_side(alloc, log.copy()?, run)?)?;
    Ok(Some(Difference {
        time: end.time,
        aspect: Aspect::Ends(Apart {
            in_end: apart.in_end,
            variables: Vec::new(alloc),
            in_lines: apart.in_lines,
        }),
        sides,
    }))
}

// What both runs print otherwise, or how they end otherwise where that is asked for, from where they part.
fn apart_from_here(
    alloc: Global,
    log: &Log,
    run: &mut Walk<'_>,
    parent: &mut Walk<'_>,
    asked: Asked,
    left: &mut u64,
) -> Result<Option<Difference>, NoMemory> {
    if let Some(at) = time_apart(run, parent, asked.from, left)? {
        return Ok(Some(lines_apart(alloc, log, run, parent, at)?));
    }
    if !asked.ends || is_same_state(run, parent) {
        return Ok(None);
    }
    run.go_to_end(left)?;
    parent.go_to_end(left)?;
    ends_apart(alloc, log, run, parent)
}

/// The first lines, from the time on that is asked for, in which the run under the log and its parent differ; or, where
/// that is asked for, how they end, where they end at other times or by other causes, or print other lines in a slot that is cut. None where
/// there is no such thing, or where the steps that are left don't lead so far.
pub fn verdicts_apart(
    alloc: Global,
    machine: &Machine,
    log: &Log,
    asked: Asked,
    left: &mut u64,
) -> Result<Option<Difference>, NoMemory> {
    let Some((last, front)) = log.members().split_last() else {
        return Ok(None);
    };
    let Some(mut parent) = walk_to(machine, front, last.0, left)? else {
        return Ok(None);
    };
    let mut run = Walk {
        machine,
        state: machine.copy(&parent.state)?,
    };
    if !run.go_on(last.1, left)? {
        return Ok(None);
    }
    apart_from_here(alloc, log, &mut run, &mut parent, asked, left)
}
