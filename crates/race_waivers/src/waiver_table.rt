// The waivers by what they name: one that names just one thing is found at once, and each pattern is tried once.

use basis::NoMemory;
use race_words::keys::key_of_waiver;
use race_words::patterns::Pattern;
use race_words::waivers::{Waiver, WaiverScope};
use std::alloc::Global;
use std::collections::BTreeMap;

/// The first waiver of each key, and of each waiver the first one with its key.
#[derive(Drop)]
pub(crate) struct WaiverTable {
    first: BTreeMap<Vec<u8>, usize>,
    same: Vec<usize>,
}

impl WaiverTable {
    /// Of these waivers.
    pub fn new(alloc: Global, waivers: &[Waiver<'_>]) -> Result<WaiverTable, NoMemory> {
        let mut table = WaiverTable {
            first: BTreeMap::new(alloc),
            same: Vec::new(alloc),
        };
        for (place, waiver) in waivers.iter().enumerate() {
            let key = key_of_waiver(alloc, waiver)?;
            let first = table.find(&key).unwrap_or(place);
            if first == place {
                table.first.insert(key, place)?;
            }
            table.same.push(first)?;
        }
        Ok(table)
    }

    /// The first waiver with this key.
    pub fn find(&self, key: &Vec<u8>) -> Option<usize> {
        self.first.get(key).copied()
    }

    /// The first waiver with the key of the one at this place.
    pub fn first_like(&self, place: usize) -> usize {
        self.same.get(place).copied().unwrap_or(place)
    }

    /// The pattern of the waiver at this place, where it has stars, and none before has the same one.
    pub fn pattern(
        &self,
        alloc: Global,
        place: usize,
        waiver: &Waiver<'_>,
    ) -> Result<Option<Pattern>, NoMemory> {
        let WaiverScope::Variables(word) = waiver.scope else {
            return Ok(None);
        };
        let pattern = Pattern::new(alloc, word)?;
        if self.first_like(place) < place || pattern.only_name().is_some() {
            return Ok(None);
        }
        Ok(Some(pattern))
    }
}
