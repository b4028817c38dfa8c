// The log of a run that goes on into a slot.

ghost use Rattle.std.specs.Prelude.{◌≡◌, ◌≤◌, ◌+◌, ◌++◌, IfOk, IfSome, IfNone};
ghost use Rattle.matching.specs.Inner.Slots.{IsBeyond, log_later};

use basis::NoMemory;
use sched_core::{Log, Member};

// The member, so many steps later; None where a step can't be named.
fn later(member: &Member, steps: u32) -> Option<Member>
    ensures later { IfSome result (λ m. m ≡ (steps + member.now.0, member.now.1)) }
    ensures none { IfNone result (4294967296 ≤ steps + member.now.0) }
{
    match steps.checked_add(member.0) {
        Some(step) => Some((step, member.1)),
        None => None,
    }
}

/// The log of a run that takes so many steps under the first and then goes on under the second; None where that is no log.
pub fn joined_log(log: &Log, steps: u32, slot: &Log) -> Result<Option<Log>, NoMemory>
    ensures log { IfOk result (λ joined. IfSome joined (λ j. j ≡ log.now ++ log_later steps slot.now)) }
    ensures none { IfOk result (λ joined. IfNone joined (IsBeyond log.now steps slot.now)) }
{
    let mut joined = log.copy()?;
    let mut rest = slot.members();
    while let Some((member, after)) = rest.split_first() {
        match later(member, steps) {
            Some(next) if joined.takes(next) => joined.push(next.0, next.1)?,
            _ => return Ok(None),
        }
        rest = after;
    }
    Ok(Some(joined))
}
