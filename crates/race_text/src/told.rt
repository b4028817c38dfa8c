// Races as they are told: what one statement writes while others read it is one race, with as many readers.

use crate::summary::Findings;
use basis::NoMemory;
use finding_text::statements::roles_of;
use race_findings::{Finding, Statements};
use std::alloc::Global;
use vdesign::design::Design;

/// A race, as it is told: the place of its finding; and those of the findings that are told beside it, as the same statement writes what they
/// touch, in the same slot.
#[derive(Drop)]
pub struct ToldRace {
    pub place: usize,
    pub beside: Vec<usize>,
}

// What findings share that are told as one race: the statement that writes, the slot in which it does, whether they show at time 0, and by
// which waiver they are waived.
#[derive(Clone, Copy, PartialEq, Eq)]
struct Writing {
    statement: usize,
    slot: u64,
    is_at_start: bool,
    waiver: Option<usize>,
}

// The statement that writes, where one of the two does.
fn writer_in(design: &Design, statements: &Option<Statements>) -> Option<usize> {
    match statements {
        None => None,
        Some(statements) => Some(roles_of(design, statements)?.writer.statement),
    }
}

// Whether it is told of how runs end, and of nothing before.
fn is_of_ends(finding: &Finding) -> bool {
    finding.earliest.is_none() && finding.first.apart().is_some()
}

// What the finding of this place shares with others, if it may: how runs end is told apart.
fn writing_of(findings: &Findings<'_>, finding: &Finding, place: usize) -> Option<Writing> {
    if is_of_ends(finding) {
        return None;
    }
    Some(Writing {
        statement: writer_in(findings.setting.design, &finding.statements)?,
        slot: finding.slot?,
        is_at_start: finding.is_at_start(),
        waiver: findings.waived.by(place),
    })
}

// The races that were told so far of each statement that writes: what their findings share, and their places in the list.
#[derive(Drop)]
struct Writers {
    races: Vec<Vec<(Writing, usize)>>,
}

impl Writers {
    // None yet, of so many statements.
    fn new(alloc: Global, statements: usize) -> Result<Writers, NoMemory> {
        let mut races = Vec::new(alloc);
        for _ in 0..statements {
            races.push(Vec::new(alloc))?;
        }
        Ok(Writers { races })
    }

    // The place of the race that shares this, if there is one.
    fn find(&self, writing: Writing) -> Option<usize> {
        for (other, place) in self.races.get(writing.statement)? {
            if *other == writing {
                return Some(*place);
            }
        }
        None
    }

    // Puts the race of this place.
    fn put(&mut self, writing: Writing, place: usize) -> Result<(), NoMemory> {
        match self.races.get_mut(writing.statement) {
            None => Ok(()),
            Some(races) => Ok(races.push((writing, place))?),
        }
    }

    // The place of the race beside which the finding is told, if there is one; else its own race is put, which gets the place.
    fn joined(
        &mut self,
        writing: Option<Writing>,
        place: usize,
    ) -> Result<Option<usize>, NoMemory> {
        let Some(writing) = writing else {
            return Ok(None);
        };
        let found = self.find(writing);
        if found.is_none() {
            self.put(writing, place)?;
        }
        Ok(found)
    }
}

// Tells the finding of this place beside that race, or as one of its own.
fn tell(
    alloc: Global,
    races: &mut Vec<ToldRace>,
    joined: Option<usize>,
    place: usize,
) -> Result<(), NoMemory> {
    if let Some(race) = joined {
        if let Some(told) = races.get_mut(race) {
            return Ok(told.beside.push(place)?);
        }
    }
    let beside = Vec::new(alloc);
    Ok(races.push(ToldRace { place, beside })?)
}

/// The races, as they are told, in the order of their findings. Where all is to be told each finding is a race of its own.
pub fn told_races(alloc: Global, findings: &Findings<'_>) -> Result<Vec<ToldRace>, NoMemory> {
    let design = findings.setting.design;
    let mut races = Vec::new(alloc);
    let mut writers = Writers::new(alloc, design.actions.len())?;
    for (place, finding) in findings.races.iter().enumerate() {
        let writing = if findings.summary.all {
            None
        } else {
            writing_of(findings, finding, place)
        };
        let joined = writers.joined(writing, races.len())?;
        tell(alloc, &mut races, joined, place)?;
    }
    Ok(races)
}
