// What the future times are kept in (IEEE 1364-2005, 11.3).

ghost use Rattle.std.specs.Prelude.{◌≡◌, ◌<◌, IfOk, OnOk, OnErr, slice_get};
ghost use Rattle.std.specs.Option.{ForSome};
ghost use Rattle.vmodel.specs.Queue.{slot_with_sleeper, slot_with_update};
ghost use Rattle.vmodel.specs.Digest.{digest_of_future};
ghost use Rattle.vstrata.specs.Times.{Times, no_times, with_later_at, with_first_taken, first_time, times_same};

use crate::future_time::FutureTime;
use basis::NoMemory;
use std::alloc::Global;
use vmodel::part::Parts;

/// The current time and the future times, each with the processes to wake and the updates to post then. A clause sees it as the record
/// `Times` of specs/Times.antt, whatever it is kept in. After want of memory (E901) all is as it was.
pub trait FutureTimes: Eq + Drop {
    ghost times: { Self → Times };

    /// Time 0, with nothing in the future.
    fn new(alloc: Global) -> Self
        ensures { times result ≡ no_times };

    /// The same current time and the same future. The error is want of memory, E901.
    fn copy(&self) -> Result<Self, NoMemory>
        ensures { IfOk result (λ copied. times copied ≡ times self.now) };

    /// The current time.
    fn time(&self) -> u64
        ensures { result ≡ (times self.now).time };

    /// One more process to wake at a time after the current one, or none more: then the time becomes a future time that may hold
    /// nothing. The error is want of memory, E901.
    fn wake_at(&mut self, time: u64, sleeper: Option<u32>) -> Result<(), NoMemory>
        requires after { (times self.old).time < time }
        requires process { ForSome sleeper (λ p. p < 256) }
        ensures ok { OnOk result (times self.new ≡ with_later_at time (slot_with_sleeper sleeper) (times self.old)) }
        ensures err { OnErr result (times self.new ≡ times self.old) };

    /// One more update at a time after the current one, behind the others of that time. The error is want of memory, E901.
    fn post_at(&mut self, time: u64, parts: Parts) -> Result<(), NoMemory>
        requires after { (times self.old).time < time }
        ensures ok { OnOk result (times self.new ≡ with_later_at time (slot_with_update parts) (times self.old)) }
        ensures err { OnErr result (times self.new ≡ times self.old) };

    /// The first future time, if there is one.
    fn first_time(&self) -> Option<u64>
        ensures { result ≡ first_time (times self.now).future };

    /// The current time becomes the first future time, if there is one, which is handed out with what it holds. It takes no memory.
    fn take_first(&mut self) -> Option<FutureTime>
        ensures first { result ≡ slice_get (times self.old).future 0 }
        ensures rest { times self.new ≡ with_first_taken (times self.old).future (times self.old) };

    /// What a hash is fed of the future times, after what it was fed before.
    fn digest_after(&self, digest: u64) -> u64
        ensures { result ≡ digest_of_future digest (times self.now).future };

    ghost same_is_eq: { (s t : Self) → Self.eq s t ≡ times_same (times s) (times t) };
}
