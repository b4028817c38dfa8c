// The regions of the current time (IEEE 1364-2005, 11.3), over whatever keeps the future times.

ghost use Rattle.std.specs.Prelude.{◌≡◌, ◌&&◌, nat_eq};
ghost use Rattle.std.specs.Bool.{beq};
ghost use Rattle.std.specs.Option.{option_eq};
ghost use Rattle.std.specs.Cmp.Lexicographic.{pointwise};
ghost use Rattle.sched_core.specs.Settings.{grain_same};
ghost use Rattle.vmodel.specs.Same.{parts_same};
ghost use Rattle.vmodel.specs.Digest.{digest_of_processes_ready, digest_of_events};
ghost use Rattle.vstrata.specs.Digests.{queue_digest};

use crate::digest::{mix, mix_last, mix_places, mix_set, mix_updates};
use crate::future_times::FutureTimes;
use sched_core::setting::Grain;
use std::collections::VecDeque;
use std::hash::{Hash, Hasher};
use std::marker::Model;
use vmodel::part::Parts;
use vmodel::process_set::ProcessSet;

/// The regions of the current time, and the future times. A clause sees them as the record `Queue` of `vmodel`.
pub struct Regions<F: FutureTimes> {
    pub(crate) grain: Grain,
    pub(crate) until: u64,
    pub(crate) last: Option<u32>,
    pub(crate) beyond: bool,
    pub(crate) active: ProcessSet,
    pub(crate) inactive: ProcessSet,
    pub(crate) activated: VecDeque<Parts>,
    pub(crate) posted: VecDeque<Parts>,
    pub(crate) strobes: Vec<usize>,
    pub(crate) times: F,
}

impl<F: FutureTimes + Drop> Drop for Regions<F> {
    fn drop(self) {
        let Regions {
            grain: _,
            until: _,
            last: _,
            beyond: _,
            active: _,
            inactive: _,
            activated: _,
            posted: _,
            strobes: _,
            times: _,
        } = self;
    }
}

impl<F: FutureTimes> Model for Regions<F> {
    ghost use Rattle.std.specs.Prelude.{◌<◌};
    ghost use Rattle.std.specs.Option.{ForSome};
    ghost use Rattle.vmodel.specs.Queue as model;

    ghost Value = { model.Queue };

    ghost view = { λ q. record {
      grain = q.grain;
      until = q.until;
      time = (F.times q.times).time;
      last = q.last;
      active = q.active;
      inactive = q.inactive;
      activated = q.activated.items;
      posted = q.posted.items;
      strobes = q.strobes.items;
      future = (F.times q.times).future;
      beyond = q.beyond;
    } };

    ghost invariant = { λ q. ForSome q.last (λ p. p < 256) };
}

/// Two are equal where they hold the same.
impl<F: FutureTimes> PartialEq for Regions<F> {
    ghost use Rattle.std.specs.Cmp.{partial_equiv_from_equiv};
    ghost use Rattle.vmodel.specs.Same.{queue_same};
    ghost use Rattle.vmodel.specs.SameLaws.{queues_equivalent};

    ghost eq = { queue_same };

    ghost laws = { partial_equiv_from_equiv queues_equivalent };

    fn eq(&self, other: &Regions<F>) -> bool {
        let alike = self.stands_alike(other);
        let held = self.holds_alike(other);
        let timed = self.times == other.times;
        alike & held & timed
    }
}

impl<F: FutureTimes> Eq for Regions<F> {
    ghost use Rattle.vmodel.specs.SameLaws.{queues_equivalent};

    ghost laws = { queues_equivalent };
}

impl<F: FutureTimes> Regions<F> {
    // Whether both have the same limits and stand at the same, but for the time.
    fn stands_alike(&self, other: &Regions<F>) -> bool
        ensures { result
            ≡ (((grain_same self.now.grain other.now.grain && nat_eq self.now.until other.now.until)
            && option_eq nat_eq self.now.last other.now.last)
            && beq self.now.beyond other.now.beyond) }
    {
        let stand = (&self.grain, &self.until, &self.last, &self.beyond);
        stand == (&other.grain, &other.until, &other.last, &other.beyond)
    }

    // Whether the regions of the current time hold the same.
    fn holds_alike(&self, other: &Regions<F>) -> bool
        ensures { result
            ≡ ((((pointwise nat_eq self.now.active other.now.active && pointwise nat_eq self.now.inactive other.now.inactive)
            && pointwise parts_same self.now.activated other.now.activated)
            && pointwise parts_same self.now.posted other.now.posted)
            && pointwise nat_eq self.now.strobes other.now.strobes) }
    {
        let regions = (
            &self.active,
            &self.inactive,
            &self.activated,
            &self.posted,
            &self.strobes,
        );
        regions
            == (
                &other.active,
                &other.inactive,
                &other.activated,
                &other.posted,
                &other.strobes,
            )
    }

    fn mix_processes(&self, digest: u64) -> u64
        ensures { result ≡ digest_of_processes_ready digest self.now }
    {
        mix_set(
            mix_set(mix_last(digest, self.last), &self.active),
            &self.inactive,
        )
    }

    fn mix_events(&self, digest: u64) -> u64
        ensures { result ≡ digest_of_events digest self.now }
    {
        let updates = mix_updates(mix_updates(digest, &self.activated), &self.posted);
        mix_places(updates, &self.strobes)
    }

    // What a hash is fed.
    fn digest(&self) -> u64
        ensures { result ≡ queue_digest self.now }
    {
        let processes = self.mix_processes(mix(0, self.times.time()));
        let events = self.mix_events(processes);
        self.times.digest_after(events)
    }
}

/// A hash is fed one number made of the time, the last process and what the regions and the future hold; the grain, the limit and `beyond`
/// aren't in it.
impl<F: FutureTimes> Hash for Regions<F> {
    ghost use Rattle.std.specs.Hash as fed;
    ghost use Rattle.vstrata.specs.Digests.{queue_digest, fed_alike};

    ghost hash_input = { λ q. fed.u64 (queue_digest q) };

    ghost respects_eq = { fed_alike };

    fn hash<H: Hasher>(&self, state: &mut H) {
        state.write_u64(self.digest());
    }
}
