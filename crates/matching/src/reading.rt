// Reading a reference up to a time.

ghost use Rattle.std.specs.Prelude.{◌≡◌, ◌≤◌, Some, IfNone, IfOk, OnOk};
ghost use Rattle.matching.specs.Answers.{IsLater};
ghost use Rattle.matching.specs.Inner.Reading.{HasRead, ReadsAt};

use crate::reference::Reference;
use basis::OrMemory;

/// Reads all pieces up to the time, and answers the time of the next one; None where nothing is left.
pub fn read_to<S: Eq, R: Reference<S>>(
    reference: &mut R,
    time: u64,
) -> Result<Option<u64>, OrMemory<R::Fault>>
    ensures read { OnOk result (HasRead R.piece R.reads reference.old time time reference.new) }
    ensures upcoming { IfOk result (λ later. later ≡ R.upcoming reference.new) }
    ensures ahead { IfOk result (λ later. IsLater later time) }
    ensures done { IfOk result (λ later. IfNone later (R.done reference.new)) }
{
    loop {
        match reference.next_time() {
            Some(next) if next <= time => reference.advance()?,
            later => return Ok(later),
        }
    }
}

/// Reads the piece of the time, if the next one is, and answers the time of the one after; None where nothing is left.
pub fn read_at<S: Eq, R: Reference<S>>(
    reference: &mut R,
    next: u64,
    time: u64,
) -> Result<Option<u64>, OrMemory<R::Fault>>
    requires next { R.upcoming reference.old ≡ Some next }
    requires time { time ≤ next }
    ensures reads { OnOk result (ReadsAt R.piece R.reads reference.old next time reference.new) }
    ensures upcoming { IfOk result (λ later. later ≡ R.upcoming reference.new) }
    ensures ahead { IfOk result (λ later. IsLater later time) }
    ensures done { IfOk result (λ later. IfNone later (R.done reference.new)) }
{
    if time < next {
        return Ok(Some(next));
    }
    reference.advance()?;
    Ok(reference.next_time())
}
