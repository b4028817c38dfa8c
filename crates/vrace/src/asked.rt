// The options that are asked for, where each number is within its limit.

ghost use Rattle.std.specs.Prelude.{◌≡◌, IfOk, IfErr, IfSome, IfNone};
ghost use Rattle.sched_core.specs.declared.setting.Departures.TheVariants.{Taking};
ghost use Rattle.sched_core.specs.declared.setting.Looked.TheVariants.{Values};
ghost use Rattle.statebook.specs.Limits.{AreLimits};
ghost use Rattle.vrace.specs.Request.{IsWithin};
ghost use Rattle.vrace.specs.declared.fault.Fault.TheVariants.{OutOfLimit};

use crate::fault::Fault;
use crate::options::Options;
use sched_core::setting::{Departures, Grain, Looked};
use statebook::Limits;

/// The latest time to which a run may go, 2^62 - 1.
pub(crate) const UNTIL_MAX: u64 = 4_611_686_018_427_387_903;

impl<'a> Options<'a> {
    /// The options, if each number is within its limit: `until` 0 to 2^62 - 1, `depart` 0 to 4, `steps` and `entries` 1 to
    /// 1,000,000. Departures take, and values are looked at. E404 for a number out of its limit, and else never.
    pub fn new(
        top: Option<&'a [u8]>,
        until: u64,
        depart: u64,
        steps: u64,
        entries: u64,
        grain: Grain,
    ) -> Result<Options<'a>, Fault>
        ensures top { IfOk result (λ options. options.top ≡ top.entry) }
        ensures until { IfOk result (λ options. options.until ≡ until) }
        ensures depart { IfOk result (λ options. options.limits.depart ≡ depart) }
        ensures steps { IfOk result (λ options. options.limits.steps ≡ steps) }
        ensures entries { IfOk result (λ options. options.limits.entries ≡ entries) }
        ensures grain { IfOk result (λ options. options.grain ≡ grain) }
        ensures departures { IfOk result (λ options. options.departures ≡ Taking) }
        ensures looked { IfOk result (λ options. options.looked ≡ Values) }
        ensures number { IfErr result (λ fault. fault ≡ OutOfLimit) }
        ensures refused { IfErr result (λ fault. ¬ IsWithin until depart steps entries) }
    {
        let Some(limits) = limits_of(depart, steps, entries) else {
            return Err(Fault::OutOfLimit);
        };
        if until > UNTIL_MAX {
            return Err(Fault::OutOfLimit);
        }
        Ok(Options {
            top,
            until,
            limits,
            grain,
            departures: Departures::Taking,
            looked: Looked::Values,
        })
    }

    /// From here on no number of entries cuts an exploration: for one by time, which forgets most of them.
    pub fn visit_any_entries(&mut self)
        ensures entries { self.new.limits.entries ≡ 4294967295 }
        ensures depart { self.new.limits.depart ≡ self.old.limits.depart }
        ensures steps { self.new.limits.steps ≡ self.old.limits.steps }
        ensures top { self.new.top ≡ self.old.top }
        ensures until { self.new.until ≡ self.old.until }
        ensures grain { self.new.grain ≡ self.old.grain }
        ensures departures { self.new.departures ≡ self.old.departures }
        ensures looked { self.new.looked ≡ self.old.looked }
    {
        self.limits = self.limits.with_any_entries();
    }

    /// From here on they ask for such departures, and to look at so much.
    pub fn look(&mut self, departures: Departures, looked: Looked)
        ensures departures { self.new.departures ≡ departures }
        ensures looked { self.new.looked ≡ looked }
        ensures top { self.new.top ≡ self.old.top }
        ensures until { self.new.until ≡ self.old.until }
        ensures limits { self.new.limits ≡ self.old.limits }
        ensures grain { self.new.grain ≡ self.old.grain }
    {
        self.departures = departures;
        self.looked = looked;
    }
}

// The limits, where each number is within its own.
fn limits_of(depart: u64, steps: u64, entries: u64) -> Option<Limits>
    ensures depart { IfSome result (λ limits. limits.depart ≡ depart) }
    ensures steps { IfSome result (λ limits. limits.steps ≡ steps) }
    ensures entries { IfSome result (λ limits. limits.entries ≡ entries) }
    ensures none { IfNone result (¬ AreLimits depart steps entries) }
{
    let depart = u32::try_from(depart).ok()?;
    let steps = u32::try_from(steps).ok()?;
    let entries = u32::try_from(entries).ok()?;
    Limits::new(depart, steps, entries)
}
