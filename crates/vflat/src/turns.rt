// How many turns are left of each `repeat` of a flat state (IEEE 1364-2005, 9.6).

ghost use Rattle.std.specs.Prelude.{◌≡◌, nat_eq, Some, replicate, IfOk};
ghost use Rattle.std.specs.Cmp.Lexicographic.{pointwise};
ghost use Rattle.vcode.specs.Code as code_spec;
ghost use Rattle.vflat.specs.Flat as spec;
ghost use Rattle.vflat.specs.FlatSame as same;

use basis::NoMemory;
use std::alloc::Global;
use std::marker::Model;
use vcode::code::Code;
use vkernel::sums::{share, with_share};

/// How many turns are left by each counter, by its number. The sum of their shares is kept as they are counted, so that a hash needn't read
/// them all.
#[derive(Drop)]
pub(crate) struct Turns {
    turns: Vec<u64>,
    sum: u64,
}

impl Model for Turns {
    ghost use Rattle.std.specs.Prelude.{◌≡◌, ℕ, List};
    ghost use Rattle.vflat.specs.FlatSame.{turns_sum};

    ghost Value = { List ℕ };

    ghost view = { λ t. t.turns.items };

    ghost invariant = { λ t. t.sum ≡ turns_sum t.turns.items };
}

fn turns_share(counter: u64, left: u64) -> u64
    ensures { result ≡ same.turns_share counter left }
{
    share(counter, left, 0)
}

#[tactic(auto, using(crate::proofs::ShareLemmas::turns_next, crate::proofs::ShareLemmas::turns_open))]
fn sum_of(turns: &[u64]) -> u64
    ensures { result ≡ same.turns_sum turns.now }
{
    let mut sum = 0u64;
    let mut counter = 0u64;
    for left in turns {
        sum = sum.wrapping_add(turns_share(counter, *left));
        counter += 1;
    }
    sum
}

// For each counter, that no turn is left by it.
fn none_left(alloc: Global, counters: &[Option<u32>]) -> Result<Vec<u64>, NoMemory>
    ensures { IfOk result (λ turns. turns.items ≡ replicate (spec.counter_count counters.now) 0) }
{
    let mut turns = Vec::new(alloc);
    for counter in counters {
        if counter.is_some() {
            turns.push(0)?;
        }
    }
    Ok(turns)
}

impl Turns {
    /// No turn is left by any counter. The error is want of memory, E901.
    pub(crate) fn opening(alloc: Global, code: &Code) -> Result<Turns, NoMemory>
        ensures { IfOk result (λ turns. turns ≡ replicate (spec.counter_count code.now.counters) 0) }
    {
        let turns = none_left(alloc, &code.counters)?;
        let sum = sum_of(&turns);
        Ok(Turns { turns, sum })
    }

    /// One that is the same. The error is want of memory, E901.
    pub(crate) fn copy(&self, alloc: Global) -> Result<Turns, NoMemory>
        ensures { IfOk result (λ made. made ≡ self.now) }
    {
        Ok(Turns {
            turns: Vec::from_slice(alloc, &self.turns)?,
            sum: self.sum,
        })
    }

    /// The turns, by the numbers of the counters.
    pub(crate) fn as_slice(&self) -> &[u64]
        ensures { result.now ≡ self.now }
    {
        &self.turns
    }

    /// The sum of their shares.
    pub(crate) fn sum(&self) -> u64
        ensures { result ≡ same.turns_sum self.now }
    {
        self.sum
    }

    /// Whether by each counter as many turns are left as by that of the other.
    #[tactic(auto, using(crate::proofs::ShareLemmas::turns_apart))]
    pub(crate) fn is_same(&self, other: &Turns) -> bool
        ensures { result ≡ pointwise nat_eq self.now other.now }
    {
        if self.sum != other.sum {
            return false;
        }
        self.turns == other.turns
    }

    // From here on so many are left by a counter, if it is there.
    fn set_counter(&mut self, counter: usize, left: u64)
        ensures { self.new ≡ code_spec.with_counter (Some counter) left self.old }
    {
        if counter >= self.turns.len() {
            return;
        }
        let old = self.turns[counter];
        self.turns[counter] = left;
        let number = counter as u64;
        self.sum = with_share(
            self.sum,
            turns_share(number, old),
            turns_share(number, left),
        );
    }

    /// From here on so many turns are left at a place, if a `repeat` stands there.
    pub(crate) fn set(&mut self, code: &Code, place: usize, left: u64)
        ensures { self.new ≡ code_spec.with_turns code.now place left self.old }
    {
        match code.counter(place) {
            None => {}
            Some(counter) => self.set_counter(counter as usize, left),
        }
    }
}
