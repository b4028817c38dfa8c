// A state of a machine.

ghost use Rattle.std.specs.Prelude.{◌≡◌, IfOk, OnOk, OnErr};
ghost use Rattle.vflat.specs.Representations.{plain, fast, rest_in, representation_step, representation_next, representation_to};
ghost use Rattle.vcompile.specs.CodeOf.{code_of};
ghost use Rattle.vmodel.specs.Run.{is_mark};

use crate::rest::Rest;
use basis::NoMemory;
use plain_steps::State;
use std::alloc::Global;
use std::hash::{Hash, Hasher};
use std::marker::Model;
use vcode::code::Code;
use vdesign::design::Design;
use vflat::Flat;
use vmodel::effect::Effect;

/// How a state is kept: as it is, or flat. It stands behind a box, so that tables of states are small.
#[derive(Drop)]
pub(crate) enum Kept {
    Plain(Box<State>),
    Fast(Box<Flat>),
}

/// Where a run stands. What it holds is the machine's own: the calls of `Machine` read it.
pub struct MachineState {
    pub(crate) kept: Kept,
}

impl Drop for MachineState {
    fn drop(self) {
        let MachineState { kept: _ } = self;
    }
}

impl Model for MachineState {
    ghost use Rattle.vflat.specs.Representations.{Representation};
    ghost use Rattle.vmachine.specs.Kept.{representation_of};

    ghost Value = { Representation };

    ghost view = { λ s. representation_of s.kept };
}

/// Two are equal where they hold the same.
impl PartialEq for MachineState {
    ghost use Rattle.std.specs.Cmp.{partial_equiv_from_equiv};
    ghost use Rattle.vflat.specs.Representations.{representation_same, representations_equivalent};

    ghost eq = { representation_same };

    ghost laws = { partial_equiv_from_equiv representations_equivalent };

    fn eq(&self, other: &MachineState) -> bool {
        match (&self.kept, &other.kept) {
            (Kept::Plain(state), Kept::Plain(same)) => **state == **same,
            (Kept::Fast(flat), Kept::Fast(same)) => **flat == **same,
            _ => false,
        }
    }
}

impl Eq for MachineState {
    ghost use Rattle.vflat.specs.Representations.{representations_equivalent};

    ghost laws = { representations_equivalent };
}

impl Hash for MachineState {
    ghost use Rattle.vflat.specs.Representations.{representation_fed, representations_fed_alike};

    ghost hash_input = { representation_fed };

    ghost respects_eq = { representations_fed_alike };

    fn hash<H: Hasher>(&self, state: &mut H) {
        match &self.kept {
            Kept::Plain(plain) => plain.hash(state),
            Kept::Fast(flat) => flat.hash(state),
        }
    }
}

impl MachineState {
    /// A state that is kept as it is. The error is want of memory, E901; so it is of `flat`.
    pub(crate) fn plain(alloc: Global, state: State) -> Result<MachineState, NoMemory>
        ensures { IfOk result (λ s. s ≡ plain state) }
    {
        Ok(MachineState {
            kept: Kept::Plain(Box::new(alloc, state)?),
        })
    }

    /// A state that is kept flat.
    pub(crate) fn flat(alloc: Global, flat: Flat) -> Result<MachineState, NoMemory>
        ensures { IfOk result (λ s. s ≡ fast flat) }
    {
        Ok(MachineState {
            kept: Kept::Fast(Box::new(alloc, flat)?),
        })
    }

    /// A state that is the same.
    pub(crate) fn copy(&self, alloc: Global) -> Result<MachineState, NoMemory>
        ensures { IfOk result (λ s. s ≡ self.now) }
    {
        let kept = match &self.kept {
            Kept::Plain(state) => Kept::Plain(Box::new(alloc, state.copy(alloc)?)?),
            Kept::Fast(flat) => Kept::Fast(Box::new(alloc, flat.copy(alloc)?)?),
        };
        Ok(MachineState { kept })
    }

    /// The step of choice `i`. E901 is the only refusal, and leaves the state as it was.
    pub(crate) fn go(&mut self, design: &Design, code: &Code, i: u32) -> Result<(), NoMemory>
        requires { code.now ≡ code_of design.now }
        ensures ok { OnOk result (self.new ≡ representation_step design.now code.now self.old i) }
        ensures err { OnErr result (self.new ≡ self.old) }
    {
        match &mut self.kept {
            Kept::Plain(state) => state.go(design, i),
            Kept::Fast(flat) => flat.go(design, code, i),
        }
    }

    /// Lists of updates of a flat state give back room that they don't need, so that an explorer's states are small; what the state holds
    /// is as it was.
    pub(crate) fn shrink_to_fit(&mut self)
        ensures { self.new ≡ self.old }
    {
        match &mut self.kept {
            Kept::Plain(_) => {}
            Kept::Fast(flat) => flat.shrink_to_fit(),
        }
    }

    /// The step of choice `i`, as `go` takes it, with what it did and the monitor events that ran, as `State::step_into` has it.
    pub(crate) fn step_into(
        &mut self,
        design: &Design,
        code: &Code,
        i: u32,
        effect: &mut Effect,
        monitors: &mut Vec<usize>,
    ) -> Result<(), NoMemory>
        requires { code.now ≡ code_of design.now }
        ensures ok { OnOk result (representation_next design.now code.now self.old i ≡
            representation_to self.new effect.new monitors.new.items) }
        ensures err { OnErr result (self.new ≡ self.old) }
    {
        match &mut self.kept {
            Kept::Plain(state) => state.step_into(design, i, effect, monitors),
            Kept::Fast(flat) => flat.step_into(design, code, i, effect, monitors),
        }
    }

    /// Whether a slot has ended here, or the run has.
    pub(crate) fn is_mark(&self) -> bool
        ensures { result ≡ is_mark (rest_in self.now) }
    {
        self.rest().is_mark()
    }

    /// All of it but its processes.
    pub(crate) fn rest(&self) -> Rest<'_>
        ensures { result ≡ rest_in self.now }
    {
        match &self.kept {
            Kept::Plain(state) => Rest::plain(state),
            Kept::Fast(flat) => Rest::flat(flat.rest()),
        }
    }
}
