// What a queue has of the step of a process (IEEE 1364-2005, 11.3, 11.4).

ghost use Rattle.std.specs.Prelude.{◌≡◌, ◌<◌, Some, OnOk, OnErr};
ghost use Rattle.std.specs.Option.{ForSome};
ghost use Rattle.vmodel.specs.Step.{reschedule, posts as posts_of, with_strobe};

use basis::NoMemory;
use std::mem;
use vmodel::effect::{Disposition, Effect, Post};
use vstrata::{RingStrata, Strata};

// An update is posted behind the others of its time. After want of memory the queue is as it was.
fn post(queue: &mut RingStrata, post: &Post) -> Result<(), NoMemory>
    ensures ok { OnOk result (queue.new ≡ posts_of (Some post.now) queue.old) }
    ensures err { OnErr result (queue.new ≡ queue.old) }
{
    let parts = post.parts.copy()?;
    queue.post(post.after, parts)
}

// The same as below, one thing after the other. After want of memory the queue may have some of them.
fn move_each(
    queue: &mut RingStrata,
    process: u32,
    effect: &Effect,
    goes: Option<u32>,
) -> Result<(), NoMemory>
    requires { ForSome goes (λ p. p < 256) }
    ensures { OnOk result (queue.new ≡ reschedule process effect.now.disposition goes
        (posts_of effect.now.posted (with_strobe effect.now.strobed queue.old))) }
{
    if let Some(place) = effect.strobed() {
        queue.post_monitor(place)?;
    }
    if let Some(one) = effect.posted() {
        post(queue, one)?;
    }
    queue.reschedule(process, effect.disposition(), goes)
}

/// What becomes of a process, of what its step posted and of the monitor event that it created. After want of memory the queue is as it
/// was: a step does one of these things alone, and where the effect says several, they are done on a copy first.
pub(crate) fn move_by(
    queue: &mut RingStrata,
    process: u32,
    effect: &Effect,
    goes: Option<u32>,
) -> Result<(), NoMemory>
    requires { ForSome goes (λ p. p < 256) }
    ensures ok { OnOk result (queue.new ≡ reschedule process effect.now.disposition goes
        (posts_of effect.now.posted (with_strobe effect.now.strobed queue.old))) }
    ensures err { OnErr result (queue.new ≡ queue.old) }
{
    match (effect.posted(), effect.strobed(), effect.disposition()) {
        (None, None, disposition) => queue.reschedule(process, disposition, goes),
        (Some(one), None, Disposition::Runnable) => {
            post(queue, one)?;
            queue.go_on(process, goes);
            Ok(())
        }
        (None, Some(place), Disposition::Runnable) => {
            queue.post_monitor(place)?;
            queue.go_on(process, goes);
            Ok(())
        }
        _ => {
            let mut after = queue.copy()?;
            move_each(&mut after, process, effect, goes)?;
            mem::swap(queue, &mut after);
            Ok(())
        }
    }
}
