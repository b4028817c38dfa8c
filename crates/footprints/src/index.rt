// Where a visit stands among the visits of another run.

ghost use Rattle.std.specs.Prelude.{◌≡◌, ℕ, List, ◌+◌, ◌<◌, ◌≤◌, true, false, Some, None, length, slice_get, option_map, IfOk, IfSome, IfNone, OnOk};
ghost use Rattle.footprints.specs.declared.visit.Visit.{Visit};
ghost use Rattle.footprints.specs.Chains as spec_chains;
ghost use Rattle.footprints.specs.Inner as spec;
ghost use Rattle.footprints.specs.Latest.{number_at};
ghost use Rattle.footprints.specs.Swaps.{footprint_in};
ghost use Rattle.footprints.specs.Visits.{same_visit};

use crate::footprint::Footprint;
use crate::visit::{Actor, Visit, is_same_visit};
use basis::NoMemory;
use std::alloc::Global;
use std::marker::Model;

// How far apart the chains of two visits of one actor stand that follow each other.
const APART: u128 = 2_654_435_761;

// The first chain of an actor that is an update, behind those of processes.
const UPDATES: u128 = 256;

// The places of some visits, in chains by their actors and numbers.
#[derive(Drop)]
struct Chains {
    // of each chain one more than the place of its last visit, 0 where it has none
    last: Vec<usize>,
    // of each visit the same of the one before it in its chain
    before: Vec<usize>,
}

/// Visits, of which each is found by its actor and number. A clause sees the visits.
#[derive(Drop)]
pub struct Index<'v> {
    visits: &'v [Visit],
    chains: Chains,
}

impl<'v> Model for Index<'v> {
    ghost use Rattle.std.specs.Prelude.{List, length};
    ghost use Rattle.footprints.specs.declared.visit.Visit.{Visit};
    ghost use Rattle.footprints.specs.Chains.{AreChains};

    ghost Value = { List Visit };

    ghost view = { λ i. i.visits.now };

    ghost invariant = { λ i. AreChains i.visits.now (length i.visits.now) i.chains.last.items i.chains.before.items };
}

// So many zeros.
fn zeros(alloc: Global, count: usize) -> Result<Vec<usize>, NoMemory>
    ensures { IfOk result (λ list. length list.items ≡ count) }
{
    let mut list = Vec::new(alloc);
    for _ in 0..count {
        list.push(0)?;
    }
    Ok(list)
}

// A number of an actor.
fn number_of(actor: Actor) -> u128
    ensures is { result ≡ spec_chains.number_of actor }
    ensures small { result < 36893488147419103232 }
{
    match actor {
        Actor::Process(process) => process as u128,
        Actor::UpdateOf(place) => place as u128 + UPDATES,
    }
}

// Of so many chains that of a visit.
fn chain_of(visit: &Visit, count: usize) -> usize
    requires { 0 < count }
    ensures is { result ≡ spec_chains.chain_of visit.now count }
    ensures within { result < count }
{
    ((number_of(visit.actor) + visit.number as u128 * APART) % count as u128) as usize
}

// What stands at a place, 0 where nothing does.
fn read(list: &[usize], place: usize) -> usize
    ensures { result ≡ number_at list.now place }
{
    match list.get(place) {
        None => 0,
        Some(number) => *number,
    }
}

// Whether this visit stands at a place.
fn stands_at(visit: &Visit, visits: &[Visit], place: usize) -> bool
    ensures { result ≡ spec.is_same_as visit.now (slice_get visits.now place) }
{
    match visits.get(place) {
        None => false,
        Some(other) => is_same_visit(visit, other),
    }
}

impl Chains {
    // One visit more.
    fn put(&mut self, visit: &Visit) -> Result<(), NoMemory>
        requires some { 0 < length self.old.last.items }
        ensures { OnOk result ((visits : List Visit) (n : ℕ) → slice_get visits n ≡ Some visit.now →
            spec_chains.AreChains visits n self.old.last.items self.old.before.items →
            spec_chains.AreChains visits (n + 1) self.new.last.items self.new.before.items) }
    {
        let chain = chain_of(visit, self.last.len());
        self.before.push(read(&self.last, chain))?;
        self.last[chain] = self.before.len();
        Ok(())
    }

    // All visits.
    fn of(alloc: Global, visits: &[Visit]) -> Result<Chains, NoMemory>
        ensures { IfOk result (λ found. spec_chains.AreChains visits.now (length visits.now) found.last.items found.before.items) }
    {
        let mut found = Chains {
            last: zeros(alloc, visits.len().max(1))?,
            before: Vec::new(alloc),
        };
        for visit in visits {
            found.put(visit)?;
        }
        Ok(found)
    }
}

// From where on no visit in a chain stands before a place, at which one may be in it.
fn next_in(chains: &Chains, visits: &[Visit], chain: usize, place: usize) -> usize
    requires { spec_chains.AreChains visits.now (length visits.now) chains.now.last.items chains.now.before.items }
    ensures within { result ≤ place }
    ensures none { spec_chains.NoneIn visits.now (length chains.now.last.items) chain result place }
{
    match visits.get(place) {
        None => place,
        Some(visit) => {
            if chain_of(visit, chains.last.len()) == chain {
                place.min(read(&chains.before, place))
            } else {
                place
            }
        }
    }
}

impl<'v> Index<'v> {
    /// These visits.
    pub fn of(alloc: Global, visits: &'v [Visit]) -> Result<Index<'v>, NoMemory>
        ensures { IfOk result (λ index. index ≡ visits.now) }
    {
        Ok(Index {
            visits,
            chains: Chains::of(alloc, visits)?,
        })
    }

    /// The visits.
    pub fn visits(&self) -> &'v [Visit]
        ensures { result.now ≡ self.now }
    {
        self.visits
    }

    /// The visit at a place, if there is one.
    pub fn at(&self, place: usize) -> Option<&'v Visit>
        ensures some { IfSome result (λ visit. slice_get self.now place ≡ Some visit.now) }
        ensures none { IfNone result (slice_get self.now place ≡ None) }
    {
        self.visits.get(place)
    }

    #[tactic(auto, using(crate::proofs::ChainLemmas::none_first, crate::proofs::ChainLemmas::none_before, crate::proofs::ChainLemmas::found_is, crate::proofs::ChainLemmas::found_not))]
    /// Where the same visit stands last, or behind them all where it isn't there.
    pub fn place_of(&self, visit: &Visit) -> usize
        ensures within { result ≤ length self.now }
        ensures there { result < length self.now → spec.is_same_as visit.now (slice_get self.now result) ≡ true }
        ensures found { footprint_in visit.now self.now ≡ option_map (λ found. found.footprint) (slice_get self.now result) }
    {
        let chain = chain_of(visit, self.chains.last.len());
        let mut left = read(&self.chains.last, chain);
        while left > 0 {
            left -= 1;
            if stands_at(visit, self.visits, left) {
                return left;
            }
            left = next_in(&self.chains, self.visits, chain, left);
        }
        self.visits.len()
    }

    /// What the same visit reads and changes, if it is there.
    pub fn footprint_of(&self, visit: &Visit) -> Option<&'v Footprint>
        ensures { option_map (λ found. found.now) result ≡ footprint_in visit.now self.now }
    {
        match self.at(self.place_of(visit)) {
            None => None,
            Some(found) => Some(&found.footprint),
        }
    }
}
