// How much the head of a report may ask of a check.

ghost use Rattle.std.specs.Prelude.{◌≡◌, ◌↔◌, IsOk, IsTrue, IfOk, IfErr};
ghost use Rattle.vrace.specs.Checks.{AsksMore, MayBeAllowed, all_allowed};
ghost use Rattle.vrace.specs.declared.fault.Fault.TheVariants.{OutOfLimit};

use crate::asked::UNTIL_MAX;
use crate::fault::Fault;
use report_text::Report;

const STEPS_MAX: u64 = 1_000_000;

/// The most that a check allows the head of a report to ask for: the time limit, and the steps of one run.
#[derive(Clone, Copy)]
pub struct Allowed {
    pub until: u64,
    pub steps: u64,
}

impl Allowed {
    /// So much, if each number is within its limit: `until` 0 to 2^62 - 1, `steps` 1 to 1,000,000. E404 for a number out of
    /// its limit, and else never.
    pub fn new(until: u64, steps: u64) -> Result<Allowed, Fault>
        ensures within { IsOk result ↔ MayBeAllowed until steps }
        ensures until { IfOk result (λ allowed. allowed.until ≡ until) }
        ensures steps { IfOk result (λ allowed. allowed.steps ≡ steps) }
        ensures number { IfErr result (λ fault. fault ≡ OutOfLimit) }
    {
        if until > UNTIL_MAX || steps < 1 || steps > STEPS_MAX {
            return Err(Fault::OutOfLimit);
        }
        Ok(Allowed { until, steps })
    }

    /// Whatever the head of a report asks for.
    pub fn all() -> Allowed
        ensures { result ≡ all_allowed }
    {
        Allowed {
            until: UNTIL_MAX,
            steps: STEPS_MAX,
        }
    }

    // Whether the head of the report asks for more.
    pub(crate) fn is_exceeded_by(&self, report: &Report) -> bool
        ensures { IsTrue result ↔ AsksMore self.now report.now }
    {
        report.until > self.until || report.steps as u64 > self.steps
    }
}
