// A machine: the runs of a design under a time limit in a grain, as a space.

ghost use Rattle.std.specs.Prelude.{◌≡◌, IfOk};
ghost use Rattle.sched_core.specs.declared.setting.Departures.TheVariants.{Taking};
ghost use Rattle.sched_core.specs.declared.setting.Looked.TheVariants.{Values};
ghost use Rattle.vcompile.specs.CodeOf.{code_of};
ghost use Rattle.vflat.specs.Flat.{flat_opening};
ghost use Rattle.vflat.specs.Representations.{representation_of_opening};
ghost use Rattle.vmodel.specs.Run.{opening_of};

use crate::machine_state::MachineState;
use basis::NoMemory;
use plain_steps::{State, opening};
use sched_core::setting::{Departures, Grain, Looked};
use sched_core::{Ranked, Space};
use std::alloc::Global;
use std::marker::Model;
use vcode::code::Code;
use vcompile::compile;
use vdesign::design::Design;
use vflat::Flat;
use vkernel::Kernel;

/// The runs of a design within a time limit, in units of its precision, and in a grain; with which departures
/// there are and what is looked at (docs/SCHEDULING.md, "Departures that hold back"). A clause sees it as the
/// `Setting` of these five.
pub struct Machine {
    pub(crate) alloc: Global,
    pub(crate) design: Design,
    pub(crate) code: Code,
    pub(crate) until: u64,
    pub(crate) grain: Grain,
    pub(crate) departures: Departures,
    pub(crate) looked: Looked,
}

impl Drop for Machine {
    fn drop(self) {
        let Machine {
            alloc: _,
            design: _,
            code: _,
            until: _,
            grain: _,
            departures: _,
            looked: _,
        } = self;
    }
}

impl Model for Machine {
    ghost use Rattle.vmodel.specs.Run.{Setting};
    ghost use Rattle.vdesign.specs.contracts.expression.Expression as expression;
    ghost use Rattle.std.specs.Coded.{codes};

    ghost Value = { Setting };

    ghost coded = { Prim.hlevel (codes, expression.the_row.coded) };

    ghost view = { λ m. record {
      design = m.design;
      until = m.until;
      grain = m.grain;
      departures = m.departures;
      looked = m.looked;
    } };

    ghost use Rattle.std.specs.Prelude.{◌≡◌, ◌≤◌, length};
    ghost use Rattle.vcompile.specs.CodeOf.{code_of};

    ghost invariant = { λ m. (m.code ≡ code_of m.design) × (length m.code.begins ≤ 256) };
}

impl Machine {
    /// The machine of a design, where departures take and values are looked at. E901 is the only refusal.
    pub fn new(alloc: Global, design: Design, until: u64, grain: Grain) -> Result<Machine, NoMemory>
        ensures { IfOk result (λ machine.
            machine ≡ record { design = design; until = until; grain = grain; departures = Taking; looked = Values }) }
    {
        let code = compile(alloc, &design)?;
        Ok(Machine {
            alloc,
            design,
            code,
            until,
            grain,
            departures: Departures::Taking,
            looked: Looked::Values,
        })
    }

    /// From here on it is the machine with such departures, in which so much is looked at.
    pub fn look(&mut self, departures: Departures, looked: Looked)
        ensures { self.new ≡ record self.old { departures = departures; looked = looked } }
    {
        self.departures = departures;
        self.looked = looked;
    }

    /// The design that it was made of.
    pub fn design(&self) -> &Design
        ensures { result.now ≡ self.now.design }
    {
        &self.design
    }

    /// The time limit that it was made with, in units of the precision.
    pub fn until(&self) -> u64
        ensures { result ≡ self.now.until }
    {
        self.until
    }

    /// The grain that it was made with.
    pub fn grain(&self) -> Grain
        ensures { result ≡ self.now.grain }
    {
        self.grain
    }

    /// Which departures there are.
    pub fn departures(&self) -> Departures
        ensures { result ≡ self.now.departures }
    {
        self.departures
    }

    /// What is looked at where slots and runs end.
    pub fn looked(&self) -> Looked
        ensures { result ≡ self.now.looked }
    {
        self.looked
    }

    /// The state in which each run begins.
    pub fn opening_state(&self) -> Result<State, NoMemory>
        ensures { IfOk result (λ state. state ≡ opening_of self.now) }
    {
        let mut state = opening(self.alloc, &self.design, self.until, self.grain)?;
        state.look(self.departures, self.looked);
        Ok(state)
    }

    // The same as a flat state.
    fn opening_flat(&self) -> Result<Flat, NoMemory>
        ensures { IfOk result (λ flat. flat ≡ flat_opening (code_of self.now.design) (opening_of self.now)) }
    {
        let rest = Kernel::opening(
            self.alloc,
            &self.design,
            self.until,
            self.grain,
            self.departures,
            self.looked,
        )?;
        Flat::opening(self.alloc, &self.code, rest)
    }

    // The first of its states: flat, where the code is whole.
    fn first(&self) -> Result<MachineState, NoMemory>
        ensures { IfOk result (λ s. s ≡ representation_of_opening (code_of self.now.design) (opening_of self.now)) }
    {
        if self.code.whole {
            MachineState::flat(self.alloc, self.opening_flat()?)
        } else {
            MachineState::plain(self.alloc, self.opening_state()?)
        }
    }
}

/// States are those of runs, choices those of 11.4.1 and 11.4.2, and marks are slot ends and ends.
impl Space for Machine {
    ghost use Rattle.std.specs.Prelude.{refl};
    ghost use Rattle.vmachine.specs.Machines.{machine_rules, machine_is_lawful, same_by_test};

    type State = MachineState;

    ghost rules = { machine_rules };

    fn root(&self) -> Result<MachineState, NoMemory> {
        self.first()
    }

    fn copy(&self, s: &MachineState) -> Result<MachineState, NoMemory> {
        s.copy(self.alloc)
    }

    fn width(&self, s: &MachineState) -> u32 {
        s.rest().width()
    }

    fn step(&self, s: &mut MachineState, i: u32) -> Result<(), NoMemory> {
        s.go(&self.design, &self.code, i)?;
        s.shrink_to_fit();
        Ok(())
    }

    fn is_mark(&self, s: &MachineState) -> bool {
        s.rest().is_mark()
    }

    ghost same_is_eq = { same_by_test };

    ghost lawful = { machine_is_lawful };
}

/// A state's rank is its time, in units of the precision, which no step lowers (11.3).
impl Ranked for Machine {
    ghost use Rattle.vmachine.specs.Machines.{machine_is_ranked, rank_of};

    ghost ranks = { rank_of };

    fn rank(&self, s: &MachineState) -> u64 {
        s.rest().time()
    }

    ghost ranked = { machine_is_ranked };
}
