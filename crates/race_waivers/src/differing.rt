// Which variables differ in which races, for waivers by variables: a race is waived by a pattern where all its variables match.

use crate::name_index::NameIndex;
use basis::NoMemory;
use finding_text::name::name_of;
use race_findings::{Aspect, Finding};
use race_words::patterns::{LetterSet, Pattern};
use std::alloc::Global;
use vdesign::design::Design;

/// A variable that differs in some race: its number, the letters of its name, and the races in which it differs, each once.
#[derive(Drop)]
struct Differing {
    variable: usize,
    letters: LetterSet,
    races: Vec<usize>,
}

/// The variables that differ in races of which all differences are of variables, and known by name. Of each race how many variables differ
/// in it; 0 where a race has other differences, or some that aren't known.
#[derive(Drop)]
pub(crate) struct DifferingVariables {
    variables: Vec<Differing>,
    index: NameIndex,
    places: Vec<Option<usize>>,
    counts: Vec<usize>,
}

// The variable of the first difference, where all are of variables that are known.
fn first_variable(finding: &Finding) -> Option<usize> {
    match &finding.first.aspect {
        Aspect::Variable(number) if are_known(finding) => Some(*number),
        _ => None,
    }
}

// Whether each difference that follows is of a variable, and known.
fn are_known(finding: &Finding) -> bool {
    for name in &finding.next {
        if name.variable.is_none() {
            return false;
        }
    }
    finding.next.len() as u64 == finding.more
}

// So many times nothing.
fn nowhere(alloc: Global, count: usize) -> Result<Vec<Option<usize>>, NoMemory> {
    let mut places = Vec::new(alloc);
    for _ in 0..count {
        places.push(None)?;
    }
    Ok(places)
}

impl DifferingVariables {
    /// Those of these races.
    pub fn new(
        alloc: Global,
        design: &Design,
        races: &[Finding],
    ) -> Result<DifferingVariables, NoMemory> {
        let mut differing = DifferingVariables {
            variables: Vec::new(alloc),
            index: NameIndex::new(alloc)?,
            places: nowhere(alloc, design.variables.len())?,
            counts: Vec::new(alloc),
        };
        for (race, finding) in races.iter().enumerate() {
            let count = differing.put_race(alloc, design, race, finding)?;
            differing.counts.push(count)?;
        }
        Ok(differing)
    }

    // The place of the variable of this number, which is made if need be.
    fn place(&mut self, alloc: Global, design: &Design, number: usize) -> Result<usize, NoMemory> {
        if let Some(place) = self.places.get(number).copied().flatten() {
            return Ok(place);
        }
        let place = self.variables.len();
        self.index.put(place, name_of(design, number))?;
        self.variables.push(Differing {
            variable: number,
            letters: LetterSet::of(name_of(design, number)),
            races: Vec::new(alloc),
        })?;
        if let Some(known) = self.places.get_mut(number) {
            *known = Some(place);
        }
        Ok(place)
    }

    // Puts the variable to the race; answers 1 where it wasn't there yet.
    fn put_variable(
        &mut self,
        alloc: Global,
        design: &Design,
        race: usize,
        number: usize,
    ) -> Result<usize, NoMemory> {
        let place = self.place(alloc, design, number)?;
        let Some(differing) = self.variables.get_mut(place) else {
            return Ok(0);
        };
        if differing.races.last() == Some(&race) {
            return Ok(0);
        }
        differing.races.push(race)?;
        Ok(1)
    }

    // Puts the variables of the race; answers how many there are.
    fn put_race(
        &mut self,
        alloc: Global,
        design: &Design,
        race: usize,
        finding: &Finding,
    ) -> Result<usize, NoMemory> {
        let Some(first) = first_variable(finding) else {
            return Ok(0);
        };
        let mut count = self.put_variable(alloc, design, race, first)?;
        for name in &finding.next {
            if let Some(number) = name.variable {
                let more = self.put_variable(alloc, design, race, number)?;
                count = count.saturating_add(more);
            }
        }
        Ok(count)
    }

    // How many variables differ in the race.
    fn count(&self, race: usize) -> usize {
        self.counts.get(race).copied().unwrap_or(0)
    }

    /// The only variable that differs in the race, where it is of no other one.
    pub fn only_variable(&self, race: usize, finding: &Finding) -> Option<usize> {
        if self.count(race) == 1 {
            first_variable(finding)
        } else {
            None
        }
    }

    // Whether the pattern matches the name of the variable of this place.
    fn is_match(&self, design: &Design, pattern: &Pattern, place: usize) -> bool {
        match self.variables.get(place) {
            None => false,
            Some(differing) => {
                pattern.is_match(name_of(design, differing.variable), differing.letters)
            }
        }
    }

    // The places of all variables whose names the pattern matches.
    fn matched_of_all(
        &self,
        alloc: Global,
        design: &Design,
        pattern: &Pattern,
    ) -> Result<Vec<usize>, NoMemory> {
        let mut places = Vec::new(alloc);
        for place in 0..self.variables.len() {
            if self.is_match(design, pattern, place) {
                places.push(place)?;
            }
        }
        Ok(places)
    }

    // The places of the variables whose names the pattern matches. Where it has three letters side by side, only names that have them, too,
    // are looked at.
    fn matched(
        &self,
        alloc: Global,
        design: &Design,
        pattern: &Pattern,
    ) -> Result<Vec<usize>, NoMemory> {
        let Some(likely) = self.index.places(&pattern.key(alloc)?) else {
            return self.matched_of_all(alloc, design, pattern);
        };
        let mut places = Vec::new(alloc);
        for place in likely {
            if self.is_match(design, pattern, *place) {
                places.push(*place)?;
            }
        }
        Ok(places)
    }

    // The races in which the variable of this place differs.
    fn races_of(&self, place: usize) -> &[usize] {
        match self.variables.get(place) {
            None => &[],
            Some(differing) => &differing.races,
        }
    }

    // How many of the variables of these places differ in a race of which all variables were met.
    fn name_count(&self, places: &[usize], met: &RaceCounts) -> u64 {
        let mut names = 0u64;
        for place in places {
            if met.some_is_full(self, self.races_of(*place)) {
                names = names.saturating_add(1);
            }
        }
        names
    }

    // The races of which all variables were met, each once. What was met is forgotten.
    fn taken(
        &self,
        alloc: Global,
        places: &[usize],
        met: &mut RaceCounts,
    ) -> Result<Vec<usize>, NoMemory> {
        let mut races = Vec::new(alloc);
        for place in places {
            met.take(self, self.races_of(*place), &mut races)?;
        }
        Ok(races)
    }

    /// What the pattern waives. The counts of races are all 0, and are left so.
    pub fn waived_by(
        &self,
        alloc: Global,
        design: &Design,
        pattern: &Pattern,
        met: &mut RaceCounts,
    ) -> Result<ByPattern, NoMemory> {
        let places = self.matched(alloc, design, pattern)?;
        for place in &places {
            met.add(self.races_of(*place));
        }
        Ok(ByPattern {
            names: self.name_count(&places, met),
            races: self.taken(alloc, &places, met)?,
        })
    }
}

/// What a pattern waives: these races, and how many variables differ in them.
#[derive(Drop)]
pub(crate) struct ByPattern {
    pub races: Vec<usize>,
    pub names: u64,
}

/// Of each race how many of its variables were met.
#[derive(Drop)]
pub(crate) struct RaceCounts {
    counts: Vec<usize>,
}

impl RaceCounts {
    /// None yet, of so many races.
    pub fn new(alloc: Global, races: usize) -> Result<RaceCounts, NoMemory> {
        let mut counts = Vec::new(alloc);
        for _ in 0..races {
            counts.push(0usize)?;
        }
        Ok(RaceCounts { counts })
    }

    // One variable more of each of these races.
    fn add(&mut self, races: &[usize]) {
        for race in races {
            if let Some(count) = self.counts.get_mut(*race) {
                *count = (*count).saturating_add(1);
            }
        }
    }

    // Whether all variables of the race were met.
    fn is_full(&self, differing: &DifferingVariables, race: usize) -> bool {
        match self.counts.get(race) {
            None => false,
            Some(count) => *count > 0 && *count == differing.count(race),
        }
    }

    // Whether all variables of one of these races were met.
    fn some_is_full(&self, differing: &DifferingVariables, races: &[usize]) -> bool {
        for race in races {
            if self.is_full(differing, *race) {
                return true;
            }
        }
        false
    }

    // Puts those of these races whose variables were all met, and forgets what was met of them.
    fn take(
        &mut self,
        differing: &DifferingVariables,
        races: &[usize],
        full: &mut Vec<usize>,
    ) -> Result<(), NoMemory> {
        for race in races {
            if self.is_full(differing, *race) {
                full.push(*race)?;
            }
            if let Some(count) = self.counts.get_mut(*race) {
                *count = 0;
            }
        }
        Ok(())
    }
}
