// Whom the causes of logs blame, each traced once.

ghost use Rattle.std.specs.Prelude.{◌≡◌, IfOk, IfSome};
ghost use Rattle.race_groups.specs.Blame as spec;
ghost use Rattle.race_groups.specs.Tracing.{IsBlamed, IsTraced};

use basis::NoMemory;
use cause::{Cause, Checkpoints, cause_of};
use sched_core::{Log, Member};
use std::alloc::Global;
use std::collections::BTreeMap;
use std::marker::Model;
use vmachine::Machine;

/// Two statements to blame, the one that came first in the run first.
pub(crate) type Pair = (usize, usize);

/// Of each log that was traced the statements to blame, or that it has no cause. A clause sees how logs are traced.
#[derive(Drop)]
pub(crate) struct BlameTable<'m> {
    checkpoints: Checkpoints<'m>,
    steps: u32,
    pairs: BTreeMap<Vec<Member>, Option<Pair>>,
}

impl<'m> Model for BlameTable<'m> {
    ghost use Rattle.race_groups.specs.Tracing.{AreBlamed, Tracing};
    ghost use Rattle.std.specs.Coded.{codes};
    ghost use Rattle.vdesign.specs.contracts.expression.Expression as expression;

    ghost Value = { Tracing };

    ghost coded = { Prim.hlevel (codes, expression.the_row.coded) };

    ghost view = { λ t. record { setting = t.checkpoints; steps = t.steps } };

    ghost invariant = { λ t. AreBlamed (record { setting = t.checkpoints; steps = t.steps }) t.pairs };
}

/// The statements that the cause blames.
pub(crate) fn blamed_by(cause: &Option<Cause>) -> Option<Pair>
    ensures { result ≡ spec.blamed_by cause.now }
{
    let Some(cause) = cause else {
        return None;
    };
    Some((cause.first.statement, cause.second.statement))
}

impl<'m> BlameTable<'m> {
    /// No log yet. A slot that doesn't end before so many steps has no cause.
    pub(crate) fn new(alloc: Global, machine: &'m Machine, steps: u32) -> BlameTable<'m>
        ensures { result ≡ record { setting = machine.now; steps = steps } }
    {
        BlameTable {
            checkpoints: Checkpoints::new(alloc, machine),
            steps,
            pairs: BTreeMap::new(alloc),
        }
    }

    /// The machine whose runs the logs are of.
    pub(crate) fn machine(&self) -> &'m Machine
        ensures { result.now ≡ self.now.setting }
    {
        self.checkpoints.machine()
    }

    /// What is known of the log.
    pub(crate) fn known(&self, alloc: Global, log: &Log) -> Result<Option<Option<Pair>>, NoMemory>
        ensures { IfOk result (λ known. IfSome known (IsBlamed self.now log.now)) }
    {
        let key = Vec::from_slice(alloc, log.members())?;
        Ok(self.pairs.get(&key).copied())
    }

    /// The cause of the log, of which it is known then whom it blames.
    pub(crate) fn trace(&mut self, alloc: Global, log: &Log) -> Result<Option<Cause>, NoMemory>
        ensures same { self.new ≡ self.old }
        ensures traced { IfOk result (IsTraced self.old log.now) }
    {
        let key = Vec::from_slice(alloc, log.members())?;
        let cause = cause_of(alloc, &mut self.checkpoints, log, self.steps)?;
        self.pairs.insert(key, blamed_by(&cause))?;
        Ok(cause)
    }
}
