// Which causes are waived, and what each waiver matched.

use crate::differing::{DifferingVariables, RaceCounts};
use crate::ends::ends_of;
use crate::waiver_table::WaiverTable;
use basis::NoMemory;
use finding_text::name::name_of;
use finding_text::place::Sources;
use race_findings::{Finding, RacingStatement, Statements};
use race_words::keys::{ends_key, lines_key, spot_of, variable_key};
use race_words::waivers::Waiver;
use std::alloc::Global;
use vdesign::design::Design;

/// Of each race the place of the first waiver that it is waived by, if there is one; and of each waiver how many races it matched, and how many
/// names, if it is a pattern with stars.
#[derive(Drop)]
pub struct Waived {
    by: Vec<Option<usize>>,
    counts: Vec<u64>,
    names: Vec<u64>,
}

// What waivers are compared with: the waivers by their keys, the races, and the files that they are of.
#[derive(Clone, Copy)]
struct Compared<'a> {
    table: &'a WaiverTable,
    design: &'a Design,
    sources: &'a Sources<'a>,
    differing: &'a DifferingVariables,
}

// `FILE:LINE` of the statement, where that is known.
fn spot(
    alloc: Global,
    sources: &Sources<'_>,
    racing: &RacingStatement,
) -> Result<Option<Vec<u8>>, NoMemory> {
    match sources.place(racing.statement) {
        None => Ok(None),
        Some(place) => {
            let file = sources.name(place.file).as_bytes();
            Ok(Some(spot_of(alloc, file, place.line as u64)?))
        }
    }
}

// The key of the two statements by their lines.
fn key_of_statements(
    alloc: Global,
    sources: &Sources<'_>,
    statements: &Statements,
) -> Result<Option<Vec<u8>>, NoMemory> {
    let first = spot(alloc, sources, &statements.first)?;
    let second = spot(alloc, sources, &statements.second)?;
    match (first, second) {
        (Some(first), Some(second)) => Ok(Some(lines_key(alloc, &first, &second)?)),
        _ => Ok(None),
    }
}

// The key of two ends.
fn key_of_ends(
    alloc: Global,
    design: &Design,
    finding: &Finding,
) -> Result<Option<Vec<u8>>, NoMemory> {
    match ends_of(alloc, design, finding)? {
        None => Ok(None),
        Some((one, other)) => Ok(Some(ends_key(alloc, &design.top, &one, &other)?)),
    }
}

// The key by which lines waive the race, or ends where it is a race of ends: no other waiver may be of that.
fn key_of_race(
    alloc: Global,
    compared: &Compared<'_>,
    finding: &Finding,
) -> Result<Option<Vec<u8>>, NoMemory> {
    if finding.first.apart().is_some() {
        return key_of_ends(alloc, compared.design, finding);
    }
    match &finding.statements {
        None => Ok(None),
        Some(statements) => key_of_statements(alloc, compared.sources, statements),
    }
}

// The key by which the name of its only variable waives the race.
fn key_of_name(
    alloc: Global,
    compared: &Compared<'_>,
    race: usize,
    finding: &Finding,
) -> Result<Option<Vec<u8>>, NoMemory> {
    match compared.differing.only_variable(race, finding) {
        None => Ok(None),
        Some(number) => Ok(Some(variable_key(alloc, name_of(compared.design, number))?)),
    }
}

// So many noughts.
fn noughts(alloc: Global, count: usize) -> Result<Vec<u64>, NoMemory> {
    let mut numbers = Vec::new(alloc);
    for _ in 0..count {
        numbers.push(0u64)?;
    }
    Ok(numbers)
}

// No race is waived.
fn none_waived(alloc: Global, races: &[Finding]) -> Result<Vec<Option<usize>>, NoMemory> {
    let mut by = Vec::new(alloc);
    for _ in races {
        by.push(None)?;
    }
    Ok(by)
}

// The lesser place.
fn lesser(one: Option<usize>, other: usize) -> usize {
    match one {
        Some(one) if one < other => one,
        _ => other,
    }
}

// Adds to the number at this place.
fn add(numbers: &mut Vec<u64>, place: usize, more: u64) {
    if let Some(number) = numbers.get_mut(place) {
        *number = (*number).saturating_add(more);
    }
}

// Of each waiver the number of the first one like it.
fn spread(alloc: Global, table: &WaiverTable, numbers: &[u64]) -> Result<Vec<u64>, NoMemory> {
    let mut all = Vec::new(alloc);
    for (place, _) in numbers.iter().enumerate() {
        let first = table.first_like(place);
        all.push(numbers.get(first).copied().unwrap_or(0))?;
    }
    Ok(all)
}

impl Waived {
    // No waiver has matched yet.
    fn none(alloc: Global, waivers: usize, races: &[Finding]) -> Result<Waived, NoMemory> {
        Ok(Waived {
            by: none_waived(alloc, races)?,
            counts: noughts(alloc, waivers)?,
            names: noughts(alloc, waivers)?,
        })
    }

    // The waiver of this place waives the race.
    fn mark(&mut self, race: usize, waiver: usize) {
        add(&mut self.counts, waiver, 1);
        if let Some(by) = self.by.get_mut(race) {
            *by = Some(lesser(*by, waiver));
        }
    }

    // The waiver with the key waives the race, if there is one.
    fn mark_by(&mut self, table: &WaiverTable, race: usize, key: Option<Vec<u8>>) {
        if let Some(key) = key {
            if let Some(waiver) = table.find(&key) {
                self.mark(race, waiver);
            }
        }
    }

    // The waivers that name just one thing.
    fn put_named(
        &mut self,
        alloc: Global,
        compared: &Compared<'_>,
        races: &[Finding],
    ) -> Result<(), NoMemory> {
        for (race, finding) in races.iter().enumerate() {
            let key = key_of_race(alloc, compared, finding)?;
            self.mark_by(compared.table, race, key);
            let key = key_of_name(alloc, compared, race, finding)?;
            self.mark_by(compared.table, race, key);
        }
        Ok(())
    }

    // The waiver of this place waives these races, in which so many names differ.
    fn mark_all(&mut self, races: &[usize], waiver: usize, names: u64) {
        add(&mut self.names, waiver, names);
        for race in races {
            self.mark(*race, waiver);
        }
    }

    // The waivers that are patterns.
    fn put_patterns(
        &mut self,
        alloc: Global,
        compared: &Compared<'_>,
        waivers: &[Waiver<'_>],
        races: usize,
    ) -> Result<(), NoMemory> {
        let mut met = RaceCounts::new(alloc, races)?;
        for (place, waiver) in waivers.iter().enumerate() {
            if let Some(pattern) = compared.table.pattern(alloc, place, waiver)? {
                let differing = compared.differing;
                let by = differing.waived_by(alloc, compared.design, &pattern, &mut met)?;
                self.mark_all(&by.races, place, by.names);
            }
        }
        Ok(())
    }

    /// What these waivers waive of the races of the design.
    pub fn new(
        alloc: Global,
        waivers: &[Waiver<'_>],
        design: &Design,
        sources: &Sources<'_>,
        races: &[Finding],
    ) -> Result<Waived, NoMemory> {
        let table = WaiverTable::new(alloc, waivers)?;
        let differing = DifferingVariables::new(alloc, design, races)?;
        let mut waived = Waived::none(alloc, waivers.len(), races)?;
        let compared = Compared {
            table: &table,
            design,
            sources,
            differing: &differing,
        };
        waived.put_named(alloc, &compared, races)?;
        waived.put_patterns(alloc, &compared, waivers, races.len())?;
        waived.counts = spread(alloc, &table, &waived.counts)?;
        waived.names = spread(alloc, &table, &waived.names)?;
        Ok(waived)
    }

    /// The place of the waiver that the race of this place is waived by.
    pub fn by(&self, race: usize) -> Option<usize> {
        self.by.get(race).copied().flatten()
    }

    /// How many races the waiver of this place matched.
    pub fn count(&self, waiver: usize) -> u64 {
        self.counts.get(waiver).copied().unwrap_or(0)
    }

    /// How many variables differ in the races that the waiver of this place matched, where it is a pattern with stars.
    pub fn name_count(&self, waiver: usize) -> u64 {
        self.names.get(waiver).copied().unwrap_or(0)
    }

    /// Of each race the place of the waiver that it is waived by, if there is one.
    pub fn waivers(&self) -> &[Option<usize>] {
        &self.by
    }
}
