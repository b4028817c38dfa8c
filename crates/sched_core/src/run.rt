// The run of a space under a log.

ghost use Rattle.std.specs.Prelude.{◌≡◌, ◌+◌, ◌≤◌, IfOk};
ghost use Rattle.basis.specs.Reasons.{IfFault};
ghost use Rattle.sched_core.specs.Logs.{IsLogFrom};
ghost use Rattle.sched_core.specs.Replay.{EndsAfter, IsNextChoice, IsReplayReason, StandsThere, TellsEnd, TellsFault};
ghost use Rattle.sched_core.specs.declared.run.ReplayFault.{ReplayFault};

use crate::log::{Log, Member};
use crate::space::Space;
use basis::OrMemory;
use thiserror::Error;

/// Where a run ended, and after how many steps.
#[derive(Drop)]
pub struct Reached<S> {
    pub state: S,
    pub steps: u32,
}

/// Why there is no replay: the log names a step that isn't reached or has no such choice (E402),
/// or the run would take more steps than allowed (E403).
#[derive(Clone, Copy, Debug, PartialEq, Eq, Error)]
pub enum ReplayFault {
    #[error("the run has no such step, or not that choice there")]
    NoSuchChoice,
    #[error("the run takes more steps than allowed")]
    TooManySteps,
}

/// The choice of step `n` of a run under a log, of which these members are left, and the members after it.
pub fn next_choice(members: &[Member], n: u32) -> (u32, &[Member])
    requires { IsLogFrom n members.now }
    ensures next { IsNextChoice members.now n result.0 result.1.now }
    ensures lawful { IsLogFrom (n + 1) result.1.now }
{
    match members.split_first() {
        Some((member, rest)) if member.0 == n => (member.1, rest),
        _ => (0, members),
    }
}

/// Runs the space under the log to its end, by at most `steps` steps.
///
/// The step limit is tested before the log. So where a run goes on after `steps` steps, the fault
/// is `TooManySteps`, E403, whatever the log names there; else a named step that isn't reached or
/// hasn't the choice is `NoSuchChoice`, E402. It takes time linear in the steps and the log.
pub fn replay<P: Space>(
    space: &P,
    log: &Log,
    steps: u32,
) -> Result<Reached<P::State>, OrMemory<ReplayFault>>
    ensures ends { IfOk result (λ reached. EndsAfter (P.rules space.now) log.now reached.steps) }
    ensures state { IfOk result (StandsThere (P.rules space.now) log.now) }
    ensures within { IfOk result (λ reached. reached.steps ≤ steps) }
    ensures reason { IfFault result (IsReplayReason (P.rules space.now) log.now steps) }
    ensures only_end { TellsEnd (P.rules space.now) log.now steps result }
    ensures only_fault { (f : ReplayFault) → TellsFault (P.rules space.now) log.now steps f result }
{
    let mut state = space.root()?;
    let mut rest = log.members();
    let mut n = 0;
    loop {
        let width = space.width(&state);
        if width == 0 {
            return if rest.is_empty() {
                Ok(Reached { state, steps: n })
            } else {
                Err(OrMemory::Fault(ReplayFault::NoSuchChoice))
            };
        }
        if n == steps {
            return Err(OrMemory::Fault(ReplayFault::TooManySteps));
        }
        let (choice, later) = next_choice(rest, n);
        if choice >= width {
            return Err(OrMemory::Fault(ReplayFault::NoSuchChoice));
        }
        space.step(&mut state, choice)?;
        rest = later;
        n += 1;
    }
}
