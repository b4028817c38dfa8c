// Two references as one.

ghost use Rattle.std.specs.Prelude.{◌≡◌, ◌<◌, ◌≤◌, ◌⊎◌, ℕ, nat_lt, if◌then◌else◌, Some, IfSome, IfNone, OnOk};
ghost use Rattle.matching.specs.Answers.{IsLater};
ghost use Rattle.pair_match.specs.Pairs.{GoesTo, earlier_of, next_in, shown_since, together};

use basis::OrMemory;
use matching::Reference;

/// Two references, the time up to which both were read, and the one of the last piece before. At each time that is shown what both show; it
/// ends where either does.
#[derive(Drop)]
pub struct PairReference<R> {
    pub first: R,
    pub second: R,
    time: u64,
    before: u64,
}

/// The fault of one of two references.
#[derive(Drop)]
pub enum PairFault<F> {
    First(F),
    Second(F),
}

// The fault is one of the first.
fn in_first<F: Drop>(fault: OrMemory<F>) -> OrMemory<PairFault<F>> {
    match fault {
        OrMemory::Fault(fault) => OrMemory::Fault(PairFault::First(fault)),
        OrMemory::Memory(refused) => OrMemory::Memory(refused),
    }
}

// It is one of the second.
fn in_second<F: Drop>(fault: OrMemory<F>) -> OrMemory<PairFault<F>> {
    match fault {
        OrMemory::Fault(fault) => OrMemory::Fault(PairFault::Second(fault)),
        OrMemory::Memory(refused) => OrMemory::Memory(refused),
    }
}

// The earlier of the times of two next pieces; None where either has none.
fn earlier_of(one: Option<u64>, other: Option<u64>) -> Option<u64>
    ensures { result ≡ earlier_of one other }
{
    match (one, other) {
        (Some(one), Some(other)) => Some(one.min(other)),
        _ => None,
    }
}

// The time of the next piece of either, where both have one.
fn next_of<S: Eq, R: Reference<S>>(pair: &PairReference<R>) -> Option<u64>
    ensures upcoming { result ≡ next_in R.upcoming pair.now }
    ensures later { IfSome result (λ t. shown_since pair.now.time (next_in R.upcoming pair.now) < t) }
    ensures done { IfNone result (R.done pair.now.first ⊎ R.done pair.now.second) }
{
    earlier_of(pair.first.next_time(), pair.second.next_time())
}

// How many differ in the two together.
fn together(one: usize, other: usize) -> usize
    ensures { result ≡ together one other }
{
    one.saturating_add(other)
}

// Goes on to the piece of the time, if the next one is of it.
fn go_to<S: Eq, R: Reference<S>>(reference: &mut R, time: u64) -> Result<(), OrMemory<R::Fault>>
    requires next { (t : ℕ) → R.upcoming reference.old ≡ Some t → time ≤ t }
    ensures goes { OnOk result (GoesTo R.piece R.reads time reference.old reference.new) }
    ensures ahead { OnOk result (IsLater (R.upcoming reference.new) time) }
{
    match reference.next_time() {
        Some(next) if next <= time => {
            reference.advance()?;
            let _ = reference.next_time();
            Ok(())
        }
        _ => Ok(()),
    }
}

impl<R> PairReference<R> {
    /// Of both nothing was read yet.
    pub fn new(first: R, second: R) -> PairReference<R>
        ensures first { result.first ≡ first }
        ensures second { result.second ≡ second }
    {
        PairReference {
            first,
            second,
            time: 0,
            before: 0,
        }
    }

    /// The time up to which both were read: that of the last piece of either.
    pub fn time(&self) -> u64
        ensures { result ≡ self.now.time }
    {
        self.time
    }

    /// The time of the last piece of either that was read before this time, which is that of the last one or later.
    pub fn time_before(&self, time: u64) -> u64
        ensures { result ≡ (if nat_lt self.now.time time then self.now.time else self.now.before) }
    {
        if self.time < time {
            self.time
        } else {
            self.before
        }
    }
}

/// What both show is shown, time after time.
impl<S: Eq, R: Reference<S>> Reference<S> for PairReference<R> {
    ghost use Rattle.std.specs.Prelude.{◌⊎◌, true};
    ghost use Rattle.pair_match.specs.Pairs.{ReadsBoth, next_in, piece_in};
    ghost use Rattle.pair_match.specs.Reading.{alike_in, nothing_read};

    type Fault = PairFault<R::Fault>;

    ghost piece = { piece_in R.piece R.upcoming };

    ghost upcoming = { next_in R.upcoming };

    ghost reads = { ReadsBoth R.piece R.upcoming R.reads };

    ghost done = { λ me. R.done me.first ⊎ R.done me.second };

    fn next_time(&self) -> Option<u64> {
        next_of(self)
    }

    fn advance(&mut self) -> Result<(), OrMemory<PairFault<R::Fault>>> {
        let Some(time) = next_of(self) else {
            return Ok(());
        };
        if let Err(fault) = go_to(&mut self.first, time) {
            return Err(in_first(fault));
        }
        if let Err(fault) = go_to(&mut self.second, time) {
            return Err(in_second(fault));
        }
        self.before = self.time;
        self.time = time;
        Ok(())
    }

    fn count_differences(&self, s: &S) -> usize {
        together(
            self.first.count_differences(s),
            self.second.count_differences(s),
        )
    }

    ghost none = { nothing_read R.piece R.upcoming R.reads R.none };

    ghost alike = { alike_in R.piece R.upcoming (λ s t. S.eq s t ≡ true) R.alike };
}
