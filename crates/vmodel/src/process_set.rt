// A set of processes, by their numbers.

ghost use Rattle.std.specs.Prelude.{◌==◌, ◌≡◌, ◌<◌, ◌≤◌, ◌%◌, ◌/◌, ◌^◌, [], ℕ, List, length, drop, slice_get, Some, true, false};
ghost use Rattle.std.specs.Option.{ForSome};
ghost use Rattle.std.specs.Prelude.{nat_eq};
ghost use Rattle.std.specs.Cmp.Lexicographic.{pointwise};
ghost use Rattle.vmodel.specs.ProcessSets.{has as is_in, members, number_of};
ghost use Rattle.vmodel.specs.Queue.{with_process, without_process};

use std::marker::Model;

/// The most processes of a design (docs/LANGUAGE.md, "Limits").
const MOST: u32 = 256;

/// A set of processes: a bit for each number below 256. A clause sees the numbers, rising.
#[derive(Drop)]
pub struct ProcessSet {
    low: u128,
    high: u128,
    count: u32,
}

impl Model for ProcessSet {
    ghost use Rattle.std.specs.Prelude.{◌≡◌, ℕ, List, length};
    ghost use Rattle.vmodel.specs.ProcessSets.{members};

    ghost Value = { List ℕ };

    ghost view = { λ set. members set.low set.high };

    ghost invariant = { λ set. set.count ≡ length (members set.low set.high) };
}

/// Two are equal where they have the same members.
impl PartialEq for ProcessSet {
    ghost use Rattle.std.specs.Prelude.{nat_eq};
    ghost use Rattle.std.specs.Cmp.{partial_equiv_from_equiv};
    ghost use Rattle.std.specs.Cmp.Lexicographic.{pointwise};
    ghost use Rattle.std.proofs.lemmas.Cmp.{nat_list_eq_equiv};

    ghost eq = { pointwise nat_eq };

    ghost laws = { partial_equiv_from_equiv nat_list_eq_equiv };

    fn eq(&self, other: &ProcessSet) -> bool {
        have_same(self.low, self.high, other.low, other.high)
    }
}

impl Eq for ProcessSet {
    ghost use Rattle.std.proofs.lemmas.Cmp.{nat_list_eq_equiv};

    ghost laws = { nat_list_eq_equiv };
}

// Whether two pairs of words have the same bits.
fn have_same(low: u128, high: u128, other_low: u128, other_high: u128) -> bool
    ensures { result ≡ pointwise nat_eq (members low high) (members other_low other_high) }
{
    low == other_low && high == other_high
}

// Whether the bit of a process is set.
fn has(low: u128, high: u128, process: u32) -> bool
    requires { process < 256 }
    ensures { result ≡ is_in low high process }
{
    if process < 128 {
        low >> process & 1 == 1
    } else {
        high >> (process - 128) & 1 == 1
    }
}

impl ProcessSet {
    /// The empty set.
    pub fn new() -> ProcessSet
        ensures { result ≡ [] }
    {
        ProcessSet {
            low: 0,
            high: 0,
            count: 0,
        }
    }

    /// The set with one process more.
    pub fn insert(&mut self, process: u32)
        requires { process < 256 }
        ensures { self.new ≡ with_process process self.old }
    {
        if has(self.low, self.high, process) {
            return;
        }
        self.count += 1;
        if process < 128 {
            self.low |= 1 << process;
        } else {
            self.high |= 1 << (process - 128);
        }
    }

    /// The set without this process.
    pub fn remove(&mut self, process: u32)
        ensures { self.new ≡ without_process process self.old }
    {
        let (low, high) = (self.low, self.high);
        if process >= MOST {
            return;
        }
        if !has(low, high, process) {
            return;
        }
        self.count -= 1;
        if process < 128 {
            self.low = low & !(1 << process);
        } else {
            self.high = high & !(1 << (process - 128));
        }
    }

    /// How many processes are in the set.
    pub fn len(&self) -> u32
        ensures exact { result ≡ length self.now }
        ensures few { result ≤ 256 }
    {
        self.count
    }

    /// Whether no process is in the set.
    pub fn is_empty(&self) -> bool
        ensures { result ≡ (length self.now == 0) }
    {
        self.count == 0
    }

    /// A set of the same processes.
    pub fn copy(&self) -> ProcessSet
        ensures { result ≡ self.now }
    {
        ProcessSet {
            low: self.low,
            high: self.high,
            count: self.count,
        }
    }

    /// The set as a number of 256 bits, one for each process: the lower half of it, and the upper one.
    pub fn halves(&self) -> (u128, u128)
        ensures low { result.0 ≡ number_of self.now % 2 ^ 128 }
        ensures high { result.1 ≡ number_of self.now / 2 ^ 128 }
    {
        halves(self.low, self.high)
    }

    /// The process of the lowest number, if there is one.
    pub fn first(&self) -> Option<u32>
        ensures exact { result ≡ slice_get self.now 0 }
        ensures few { ForSome result (λ p. p < 256) }
    {
        lowest(self.low, self.high)
    }

    /// Takes out the process of the lowest number, if there is one.
    pub fn take_first(&mut self) -> Option<u32>
        ensures first { result ≡ slice_get self.old 0 }
        ensures rest { self.new ≡ drop 1 self.old }
    {
        let process = lowest(self.low, self.high)?;
        self.remove(process);
        Some(process)
    }

    /// The process of this place in the order of their numbers, if there is one.
    pub fn get(&self, i: u32) -> Option<u32>
        ensures exact { result ≡ slice_get self.now i }
        ensures few { ForSome result (λ p. p < 256) }
    {
        let mut rest = self.copy();
        for _ in 0..i {
            if rest.take_first().is_none() {
                return None;
            }
        }
        rest.first()
    }

    /// How many processes other than this one are in the set.
    pub fn len_without(&self, process: u32) -> u32
        ensures exact { result ≡ length (without_process process self.now) }
        ensures few { result ≤ 256 }
    {
        if process < MOST && has(self.low, self.high, process) {
            self.count - 1
        } else {
            self.count
        }
    }

    /// The process of this place in the order of their numbers, this one left out.
    pub fn get_without(&self, process: u32, i: u32) -> Option<u32>
        ensures exact { result ≡ slice_get (without_process process self.now) i }
        ensures few { ForSome result (λ p. p < 256) }
    {
        let mut others = self.copy();
        others.remove(process);
        others.get(i)
    }
}

// The lowest number whose bit is set, if one is.
fn lowest(low: u128, high: u128) -> Option<u32>
    ensures exact { result ≡ slice_get (members low high) 0 }
    ensures few { ForSome result (λ p. p < 256) }
{
    if low != 0 {
        Some(low.trailing_zeros())
    } else if high != 0 {
        Some(128 + high.trailing_zeros())
    } else {
        None
    }
}

// The two words as halves of one number.
fn halves(low: u128, high: u128) -> (u128, u128)
    ensures low { result.0 ≡ number_of (members low high) % 2 ^ 128 }
    ensures high { result.1 ≡ number_of (members low high) / 2 ^ 128 }
{
    (low, high)
}
