// Checkpoints of the default run, as far as it was gone through.

ghost use Rattle.std.specs.Prelude.{◌≡◌, ◌≤◌, false, Some, IfOk, IfSome};
ghost use Rattle.vmodel.specs.Run.{Setting};
ghost use Rattle.cause.specs.Checkpoints.{IsCheckpoint, IsCheckpointOf};
ghost use Rattle.footprints.specs.Visits.{is_in_slot};
ghost use Rattle.cause.specs.Checkpoints as spec;

use crate::checkpoint::Checkpoint;
use crate::step::take;
use basis::NoMemory;
use footprints::visit::Seen;
use plain_steps::State;
use std::alloc::Global;
use std::marker::Model;
use vmachine::Machine;
use vmodel::choice::Choice;

/// How many checkpoints stand at most.
const MOST: usize = 1024;

/// States in which slots of the default run begin, the run under the empty log. They are at most 1,024: so many slots apart as the spacing
/// says, 1 at first, and the newest. Where there are more, every second one is let go, and the spacing doubles. A clause sees the setting
/// of the machine.
#[derive(Drop)]
pub struct Checkpoints<'m> {
    machine: &'m Machine,
    list: Vec<Checkpoint>,
    spacing: u32,
    // how many slots the newest begins after the one before it
    apart: u32,
}

impl<'m> Model for Checkpoints<'m> {
    ghost use Rattle.vmodel.specs.Run.{Setting};
    ghost use Rattle.cause.specs.Checkpoints.{AreCheckpoints};
    ghost use Rattle.vdesign.specs.contracts.expression.Expression as expression;
    ghost use Rattle.std.specs.Coded.{codes};

    ghost Value = { Setting };

    ghost coded = { Prim.hlevel (codes, expression.the_row.coded) };

    ghost view = { λ c. c.machine.now };

    ghost invariant = { λ c. AreCheckpoints c.machine.now c.list.items };
}

// The last that isn't behind a step.
#[tactic(auto, using(crate::proofs::CheckpointLemmas::is_there))]
fn last_to(list: &[Checkpoint], step: u32) -> Option<&Checkpoint>
    ensures { IfSome result (λ found. (found.now.step ≤ step) ×
        ((setting : Setting) → spec.AreCheckpoints setting list.now → IsCheckpoint setting found.now)) }
{
    let mut k = list.len();
    while k > 0 {
        k -= 1;
        if list[k].step <= step {
            return Some(&list[k]);
        }
    }
    None
}

// Lets the one at a place go, if there is one.
#[tactic(auto, using(crate::proofs::CheckpointLemmas::are_without))]
fn let_one_go(list: &mut Vec<Checkpoint>, k: usize)
    ensures { (setting : Setting) → spec.AreCheckpoints setting list.old.items → spec.AreCheckpoints setting list.new.items }
{
    if k >= list.len() {
        return;
    }
    list.remove(k);
}

// Lets every second one go, the first one first.
fn let_go(list: &mut Vec<Checkpoint>)
    ensures { (setting : Setting) → spec.AreCheckpoints setting list.old.items → spec.AreCheckpoints setting list.new.items }
{
    for k in 0..MOST / 2 {
        let_one_go(list, k);
    }
}

// Lets the last one go, if it is asked for.
#[tactic(auto, using(crate::proofs::CheckpointLemmas::are_front))]
fn let_last_go(list: &mut Vec<Checkpoint>, asked: bool)
    ensures { (setting : Setting) → spec.AreCheckpoints setting list.old.items → spec.AreCheckpoints setting list.new.items }
{
    if !asked {
        return;
    }
    list.pop();
}

// Puts the newest one last, in place of the last one or behind it. Where they are too many then, every second one is let go, and it answers
// true.
fn put_newest(
    list: &mut Vec<Checkpoint>,
    newest: Checkpoint,
    in_place: bool,
) -> Result<bool, NoMemory>
    ensures { (setting : Setting) → spec.AreCheckpoints setting list.old.items → IsCheckpoint setting newest →
        spec.AreCheckpoints setting list.new.items }
{
    let_last_go(list, in_place);
    list.push(newest)?;
    if list.len() < MOST {
        return Ok(false);
    }
    let_go(list);
    Ok(true)
}

impl<'m> Checkpoints<'m> {
    /// None yet.
    pub fn new(alloc: Global, machine: &'m Machine) -> Checkpoints<'m>
        ensures { result ≡ machine.now }
    {
        Checkpoints {
            machine,
            list: Vec::new(alloc),
            spacing: 1,
            apart: 0,
        }
    }

    /// The machine whose runs they are of.
    pub fn machine(&self) -> &'m Machine
        ensures { result.now ≡ self.now }
    {
        self.machine
    }

    /// The last checkpoint that isn't behind a step; where there is none the beginning of the run.
    pub(crate) fn last_before(&self, alloc: Global, step: u32) -> Result<Checkpoint, NoMemory>
        ensures is { IfOk result (IsCheckpoint self.now) }
        ensures before { IfOk result (λ checkpoint. checkpoint.step ≤ step) }
    {
        match last_to(&self.list, step) {
            None => Checkpoint::open(alloc, self.machine),
            Some(checkpoint) => checkpoint.copy(alloc),
        }
    }

    // The step of the newest.
    fn newest_step(&self) -> u32 {
        match self.list.last() {
            None => 0,
            Some(checkpoint) => checkpoint.step,
        }
    }

    // A newer one. What was the newest stays if it is as far from the one before it as the spacing says.
    fn put(&mut self, newest: Checkpoint) -> Result<(), NoMemory>
        requires { IsCheckpoint self.old newest }
        ensures { self.new ≡ self.old }
    {
        let in_place = self.apart < self.spacing;
        if put_newest(&mut self.list, newest, in_place)? {
            self.apart = self.spacing.saturating_add(1);
            self.spacing = self.spacing.saturating_mul(2);
        } else if in_place {
            self.apart = self.apart.saturating_add(1);
        } else {
            self.apart = 1;
        }
        Ok(())
    }

    // The state before a step, if the step before that, which is of a choice, began a slot.
    #[tactic(auto, using(crate::proofs::CheckpointLemmas::copied_is))]
    fn put_if_begun(
        &mut self,
        alloc: Global,
        choice: Choice,
        step: u32,
        state: &State,
        seen: &Seen,
    ) -> Result<(), NoMemory>
        requires { is_in_slot (Some choice) ≡ false →
            IsCheckpoint self.old (record { step = step; state = state.now; seen = seen.now }) }
        ensures { self.new ≡ self.old }
    {
        match choice {
            Choice::Run(_) => Ok(()),
            Choice::Update => Ok(()),
            Choice::Advance => self.put(Checkpoint {
                step,
                state: state.copy(alloc)?,
                seen: seen.copy(alloc)?,
            }),
        }
    }

    /// Goes on with the default run up to a step.
    pub(crate) fn extend(&mut self, alloc: Global, to: u32) -> Result<(), NoMemory>
        ensures { self.new ≡ self.old }
    {
        if to <= self.newest_step() {
            return Ok(());
        }
        let Checkpoint {
            step: first,
            mut state,
            mut seen,
        } = self.last_before(alloc, to)?;
        for step in first..to {
            let Some(choice) = state.choice(0) else {
                return Ok(());
            };
            let design = self.machine().design();
            take(alloc, design, &mut state, &mut seen, to, step, 0, choice)?;
            self.put_if_begun(alloc, choice, step + 1, &state, &seen)?;
        }
        Ok(())
    }
}
