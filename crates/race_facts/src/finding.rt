// A group of races as a finding.

use crate::difference::difference_of;
use crate::joined::objects_of;
use crate::others::others_of;
use crate::printed::{Asked, steps_to_verdicts, verdicts_apart};
use crate::replayed::{last_action, time_before};
use crate::statements::statements_of;
use basis::NoMemory;
use race_findings::{Aspect, Difference, Finding, Name};
use race_groups::{Difference as Found, Group, Races};
use std::alloc::Global;
use vmachine::Machine;

// When the two statements race.
fn slot_of(machine: &Machine, group: &Group) -> Result<Option<u64>, NoMemory> {
    match &group.cause {
        None => Ok(None),
        Some(cause) => Ok(Some(time_before(machine, &group.log, cause.step)?)),
    }
}

// The action that ends the run, where it is told.
fn ending_of(
    machine: &Machine,
    group: &Group,
    first: &Difference,
) -> Result<Option<usize>, NoMemory> {
    match (first.apart(), &group.cause) {
        (Some(apart), None) if !apart.in_end => last_action(machine, &group.log),
        _ => Ok(None),
    }
}

// The names of the differences that follow.
fn names_of(alloc: Global, group: &Group) -> Result<Vec<Name>, NoMemory> {
    let mut names = Vec::new(alloc);
    for name in &group.next {
        names.push(Name {
            time: name.time,
            variable: name.variable,
        })?;
    }
    Ok(names)
}

// What is told of a group first, and the earliest difference where that is another one.
#[derive(Drop)]
struct Front {
    first: Difference,
    earliest: Option<Difference>,
}

// The group of ends that differ, if they do.
fn group_of_ends(groups: &[Group]) -> Option<&Group> {
    let group = groups.last()?;
    match &group.first {
        Found::Ends(_) => Some(group),
        Found::Values(_) => None,
        Found::Lines(_) => None,
    }
}

// Whether both groups are of the same two statements.
fn is_same_cause(group: &Group, ends: &Group) -> bool {
    let (Some(one), Some(other)) = (&group.cause, &ends.cause) else {
        return false;
    };
    let (first, second) = (one.first.statement, one.second.statement);
    let (same, also) = (other.first.statement, other.second.statement);
    (first == same && second == also) || (first == also && second == same)
}

// Whether how runs end is told of the group, where it differs: where ends differ, and their own group isn't of the same two statements.
fn is_with_ends(group: &Group, ends: Option<&Group>) -> bool {
    match ends {
        None => false,
        Some(ends) => !is_same_cause(group, ends),
    }
}

// Lines and ends that the two statements change are told before a variable, if the steps that are left lead to them.
fn front_of(
    alloc: Global,
    machine: &Machine,
    group: &Group,
    asked: Asked,
    left: &mut u64,
) -> Result<Front, NoMemory> {
    let earliest = difference_of(alloc, machine, &group.first)?;
    let verdict = match &earliest.aspect {
        Aspect::Variable(_) => verdicts_apart(alloc, machine, &group.log, asked, left)?,
        Aspect::Lines => None,
        Aspect::Ends(_) => None,
    };
    Ok(match verdict {
        None => Front {
            first: earliest,
            earliest: None,
        },
        Some(first) => Front {
            first,
            earliest: Some(earliest),
        },
    })
}

// The finding of a group of the machine's runs; of each variable it is known with which one it is one object.
fn finding_of(
    alloc: Global,
    machine: &Machine,
    objects: &[usize],
    group: &Group,
    asked: Asked,
    left: &mut u64,
) -> Result<Finding, NoMemory> {
    let Front { first, earliest } = front_of(alloc, machine, group, asked, left)?;
    let next = names_of(alloc, group)?;
    let others = others_of(alloc, objects, &first, earliest.as_ref(), &next)?;
    Ok(Finding {
        statements: statements_of(alloc, &group.cause)?,
        slot: slot_of(machine, group)?,
        ending: ending_of(machine, group, earliest.as_ref().unwrap_or(&first))?,
        log: group.log.copy()?,
        last: group.last.max(first.time),
        first,
        earliest,
        next,
        more: group.more,
        others,
    })
}

// Which findings are told first: those of printed lines and of ends, but behind all others those that show at time 0.
fn rank_of(finding: &Finding) -> u8 {
    match (finding.is_at_start(), finding.is_verdict()) {
        (false, true) => 0,
        (false, false) => 1,
        (true, true) => 2,
        (true, false) => 3,
    }
}

// When it is that what is told first differs.
fn time_of(finding: &Finding) -> u64 {
    finding.first.time
}

/// The findings of the machine's races, which are told from this time on, in the order in which they are told: those of printed lines and of ends first, then those of
/// variables, each by the time of what is told first; and in the same order those that show at time 0, behind all others.
pub fn findings_of(
    alloc: Global,
    machine: &Machine,
    races: &Races,
    from: u64,
) -> Result<Vec<Finding>, NoMemory> {
    let objects = objects_of(alloc, machine.design())?;
    let ends = group_of_ends(&races.groups);
    let mut left = steps_to_verdicts(machine, ends.is_some());
    let mut findings = Vec::new(alloc);
    for group in &races.groups {
        let asked = Asked {
            from,
            ends: is_with_ends(group, ends),
        };
        findings.push(finding_of(alloc, machine, &objects, group, asked, &mut left)?)?;
    }
    findings.sort_by_key(|finding| time_of(finding))?;
    findings.sort_by_key(|finding| rank_of(finding))?;
    Ok(findings)
}
