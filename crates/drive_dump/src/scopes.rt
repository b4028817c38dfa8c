// The scopes of a dump that have variables with the names of a module's ports.

use crate::module::DrivenModule;
use basis::NoMemory;
use drive_text::Role;
use std::alloc::Global;
use std::collections::BTreeMap;
use vcd_read::VcdVariable;

// What a scope has of a port: the place of the first variable of its name, how many bits that has, and how many all of them have.
#[derive(Clone, Copy)]
struct Tally {
    port: usize,
    first: usize,
    width: u64,
    bits: u64,
}

/// A scope: its path, and what it has of which ports.
#[derive(Drop)]
pub struct PortScope {
    pub path: Vec<u8>,
    tallies: Vec<Tally>,
}

/// What a scope has of a port.
#[derive(Clone, Copy, PartialEq, Eq)]
pub enum Had {
    Nothing,
    /// The variable at this place.
    Whole(usize),
    /// A variable for each of its bits.
    Bits,
    /// Variables of so many bits together.
    Other(u64),
}

impl PortScope {
    // One more variable of a port.
    fn add(&mut self, port: usize, place: usize, width: u64) -> Result<(), NoMemory> {
        for tally in &mut self.tallies {
            if tally.port == port {
                tally.bits = tally.bits.saturating_add(width);
                return Ok(());
            }
        }
        self.tallies.push(Tally {
            port,
            first: place,
            width,
            bits: width,
        })?;
        Ok(())
    }

    // What is known of a port.
    fn tally(&self, port: usize) -> Option<Tally> {
        for tally in &self.tallies {
            if tally.port == port {
                return Some(*tally);
            }
        }
        None
    }

    /// What it has of the port at this place, which has so many bits.
    pub fn had(&self, port: usize, width: u32) -> Had {
        match self.tally(port) {
            None => Had::Nothing,
            Some(tally) if tally.width == u64::from(width) => Had::Whole(tally.first),
            Some(tally) if tally.width == 1 && tally.bits == u64::from(width) => Had::Bits,
            Some(tally) => Had::Other(tally.bits),
        }
    }

    // How many inputs, or ports, it has with their widths.
    fn count(&self, module: &DrivenModule, with_outputs: bool) -> usize {
        let mut count = 0usize;
        for (place, port) in module.ports.iter().enumerate() {
            let is_counted = with_outputs || port.role != Role::Output;
            if is_counted && matches!(self.had(place, port.width), Had::Whole(_) | Had::Bits) {
                count = count.saturating_add(1);
            }
        }
        count
    }

    // How many inputs it has, with any width.
    fn count_named(&self, module: &DrivenModule) -> usize {
        let mut count = 0usize;
        for (place, port) in module.ports.iter().enumerate() {
            if port.role != Role::Output && self.tally(place).is_some() {
                count = count.saturating_add(1);
            }
        }
        count
    }
}

// The paths of the variables of a module, from it on, those of its ports with false; and how many scopes the longest goes through.
#[derive(Drop)]
struct Inner {
    names: BTreeMap<Vec<u8>, bool>,
    depth: usize,
}

// How many names a path has.
fn names_in(path: &[u8]) -> usize {
    let mut count = 1usize;
    for byte in path {
        if *byte == b'.' {
            count = count.saturating_add(1);
        }
    }
    count
}

impl Inner {
    // Those of a module, its ports among them.
    fn all(alloc: Global, module: &DrivenModule) -> Result<Inner, NoMemory> {
        let mut inner = Inner {
            names: BTreeMap::new(alloc),
            depth: 0,
        };
        for path in &module.inner {
            inner.names.insert(Vec::from_slice(alloc, path)?, true)?;
            inner.depth = inner.depth.max(names_in(path));
        }
        Ok(inner)
    }

    // Those of a module.
    fn of(alloc: Global, module: &DrivenModule) -> Result<Inner, NoMemory> {
        let mut inner = Inner::all(alloc, module)?;
        for port in &module.ports {
            inner
                .names
                .insert(Vec::from_slice(alloc, &port.name)?, false)?;
        }
        Ok(inner)
    }
}

// What is counted at a place.
fn count_at(counts: &[usize], place: usize) -> usize {
    counts.get(place).copied().unwrap_or(0)
}

// The most that is counted at one of these places.
fn most_of(places: &[usize], counts: &[usize]) -> usize {
    let mut most = 0;
    for place in places {
        most = most.max(count_at(counts, *place));
    }
    most
}

// Those of these places that have the most.
fn fullest_of(alloc: Global, places: &[usize], counts: &[usize]) -> Result<Vec<usize>, NoMemory> {
    let most = most_of(places, counts);
    let mut fullest = Vec::new(alloc);
    for place in places {
        if count_at(counts, *place) == most {
            fullest.push(*place)?;
        }
    }
    Ok(fullest)
}

/// The scopes of a dump that have a variable with the name of a port.
#[derive(Drop)]
pub struct PortScopes {
    pub list: Vec<PortScope>,
    places: BTreeMap<Vec<u8>, usize>,
}

/// The path of the scope, and the name in it.
pub(crate) fn parts_of(name: &[u8]) -> (&[u8], &[u8]) {
    let mut len = name.len();
    for (at, byte) in name.iter().enumerate() {
        if *byte == b'.' {
            len = at;
        }
    }
    let (path, rest) = name.split_at(len.min(name.len()));
    match rest.split_first() {
        None => (rest, path),
        Some((_, leaf)) => (path, leaf),
    }
}

// The places of ports by their names.
fn ports_by_name(
    alloc: Global,
    module: &DrivenModule,
) -> Result<BTreeMap<Vec<u8>, usize>, NoMemory> {
    let mut ports = BTreeMap::new(alloc);
    for (place, port) in module.ports.iter().enumerate() {
        ports.insert(Vec::from_slice(alloc, &port.name)?, place)?;
    }
    Ok(ports)
}

impl PortScopes {
    // The place of the scope of this path, which is a new one where there is none yet.
    fn place_of(&mut self, alloc: Global, path: &[u8]) -> Result<usize, NoMemory> {
        if let Some(place) = self.places.get(path) {
            return Ok(*place);
        }
        let place = self.list.len();
        self.places.insert(Vec::from_slice(alloc, path)?, place)?;
        self.list.push(PortScope {
            path: Vec::from_slice(alloc, path)?,
            tallies: Vec::new(alloc),
        })?;
        Ok(place)
    }

    // One more variable of a port.
    fn add(
        &mut self,
        alloc: Global,
        path: &[u8],
        port: usize,
        place: usize,
        width: u64,
    ) -> Result<(), NoMemory> {
        let at = self.place_of(alloc, path)?;
        match self.list.get_mut(at) {
            None => Ok(()),
            Some(scope) => scope.add(port, place, width),
        }
    }

    /// Those of these variables of a dump.
    pub fn of(
        alloc: Global,
        variables: &[VcdVariable],
        module: &DrivenModule,
    ) -> Result<PortScopes, NoMemory> {
        let ports = ports_by_name(alloc, module)?;
        let mut scopes = PortScopes {
            list: Vec::new(alloc),
            places: BTreeMap::new(alloc),
        };
        for (place, variable) in variables.iter().enumerate() {
            let (path, leaf) = parts_of(&variable.name);
            if let Some(port) = ports.get(leaf) {
                scopes.add(alloc, path, *port, place, variable.width)?;
            }
        }
        Ok(scopes)
    }

    /// The place of the scope of this path.
    pub fn named(&self, path: &[u8]) -> Option<usize> {
        self.places.get(path).copied()
    }

    // The places of those that have so many inputs, or ports.
    fn having(
        &self,
        alloc: Global,
        module: &DrivenModule,
        with_outputs: bool,
        count: usize,
    ) -> Result<Vec<usize>, NoMemory> {
        let mut places = Vec::new(alloc);
        for (place, scope) in self.list.iter().enumerate() {
            if scope.count(module, with_outputs) == count {
                places.push(place)?;
            }
        }
        Ok(places)
    }

    // The most inputs that one has.
    fn most(&self, module: &DrivenModule) -> usize {
        let mut most = 0;
        for scope in &self.list {
            most = most.max(scope.count(module, false));
        }
        most
    }

    /// The places of those that come nearest to the module: those that have the most inputs.
    pub fn nearest(&self, alloc: Global, module: &DrivenModule) -> Result<Vec<usize>, NoMemory> {
        self.having(alloc, module, false, self.most(module))
    }

    // Whether one of these scopes is in this one.
    fn has_within(&self, places: &[usize], path: &[u8]) -> bool {
        for place in places {
            if let Some(scope) = self.list.get(*place) {
                if parts_of(&scope.path).0 == path && !path.is_empty() {
                    return true;
                }
            }
        }
        false
    }

    // Those of these scopes that have none of them in them.
    fn innermost(&self, alloc: Global, places: &[usize]) -> Result<Vec<usize>, NoMemory> {
        let mut inner = Vec::new(alloc);
        for place in places {
            if let Some(scope) = self.list.get(*place) {
                if !self.has_within(places, &scope.path) {
                    inner.push(*place)?;
                }
            }
        }
        Ok(inner)
    }

    // Counts a variable of a dump for each scope round it from which on its path is one of the module's, at most so many scopes up.
    fn count_inner(&self, counts: &mut [usize], inner: &Inner, name: &[u8]) {
        let mut path = parts_of(name).0;
        for _ in 0..inner.depth {
            let rest = name
                .split_at(path.len().saturating_add(1).min(name.len()))
                .1;
            if let (Some(place), Some(&true)) = (self.places.get(path), inner.names.get(rest)) {
                if let Some(count) = counts.get_mut(*place) {
                    *count = count.saturating_add(1);
                }
            }
            path = parts_of(path).0;
        }
    }

    // Of each scope, how many variables of the dump have the path of one in the module, which is none of its ports.
    fn inner_counts(
        &self,
        alloc: Global,
        module: &DrivenModule,
        variables: &[VcdVariable],
    ) -> Result<Vec<usize>, NoMemory> {
        let inner = Inner::of(alloc, module)?;
        let mut counts = Vec::new(alloc);
        counts.resize(self.list.len(), 0usize)?;
        for variable in variables {
            self.count_inner(&mut counts, &inner, &variable.name);
        }
        Ok(counts)
    }

    /// The places of those that the module may be: they have each input; where several do, those with each port; of those, those that have the
    /// most variables of the module; and of those, those that have none of them in them.
    pub fn candidates(
        &self,
        alloc: Global,
        module: &DrivenModule,
        variables: &[VcdVariable],
    ) -> Result<Vec<usize>, NoMemory> {
        let all = self.having(alloc, module, false, module.inputs())?;
        if all.len() < 2 {
            return Ok(all);
        }
        let whole = self.having(alloc, module, true, module.ports.len())?;
        let counts = self.inner_counts(alloc, module, variables)?;
        let fullest = fullest_of(alloc, if whole.is_empty() { &all } else { &whole }, &counts)?;
        self.innermost(alloc, &fullest)
    }

    /// The place of the first that has each input by its name, and none of those in it.
    pub fn of_other_width(
        &self,
        alloc: Global,
        module: &DrivenModule,
    ) -> Result<Option<usize>, NoMemory> {
        let mut places = Vec::new(alloc);
        for (place, scope) in self.list.iter().enumerate() {
            if scope.count_named(module) == module.inputs() {
                places.push(place)?;
            }
        }
        Ok(self.innermost(alloc, &places)?.first().copied())
    }
}
