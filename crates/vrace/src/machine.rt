// The machine of a design, in a setting, and that of files.

ghost use Rattle.std.specs.Prelude.{◌≡◌, IfOk, IfErr};
ghost use Rattle.vsrc.specs.Expansion.{are_timed};
ghost use Rattle.vsrc.specs.Source.{file_bytes};
ghost use Rattle.vrace.specs.ActionPlaces.{ArePlacedInFiles};
ghost use Rattle.vrace.specs.Explores.{IsSearched};
ghost use Rattle.vrace.specs.Refusals.{IsDesignFault};
ghost use Rattle.vrace.specs.Request.{request_of};

use crate::design::placed_design_of;
use crate::fault::Fault;
use crate::options::Options;
use basis::NoMemory;
use sched_core::setting::{Departures, Grain, Looked};
use std::alloc::Global;
use trace_text::Origins;
use vdesign::design::Design;
use vmachine::Machine;

/// The machine of a design within a time limit, in a grain, with which departures there are and what is looked at.
pub(crate) fn machine_in(
    alloc: Global,
    design: Design,
    until: u64,
    grain: Grain,
    departures: Departures,
    looked: Looked,
) -> Result<Machine, NoMemory>
    ensures { IfOk result (λ machine.
        machine ≡ record { design = design; until = until; grain = grain; departures = departures; looked = looked }) }
{
    let mut machine = Machine::new(alloc, design, until, grain)?;
    machine.look(departures, looked);
    Ok(machine)
}

/// The machine of files, where the statements of its design begin, and whether a `` `timescale `` stands in the files.
#[derive(Drop)]
pub struct PlacedMachine {
    pub machine: Machine,
    pub origins: Origins,
    pub timed: bool,
}

/// The machine of the design that the files stand for, in the setting of the options, and where its statements begin in the files.
///
/// Refusals, in the order in which they are looked for: E904 where the files together are longer than 16,777,216 bytes; E110 to
/// E114, E101, E102, E2xx and E3xx where their text has no design; E901.
pub fn machine_of_files(
    alloc: Global,
    files: &[Vec<u8>],
    options: &Options<'_>,
) -> Result<PlacedMachine, Fault>
    ensures searched { IfOk result (λ placed.
        IsSearched (file_bytes files.now) (request_of options.now) placed.machine) }
    ensures placed { IfOk result (λ placed.
        ArePlacedInFiles (file_bytes files.now) (request_of options.now).top placed.origins) }
    ensures timed { IfOk result (λ placed. placed.timed ≡ are_timed (file_bytes files.now)) }
    ensures reason { IfErr result (IsDesignFault (file_bytes files.now) (request_of options.now).top) }
{
    let placed = placed_design_of(alloc, files, options.top)?;
    let machine = machine_in(
        alloc,
        placed.design,
        options.until,
        options.grain,
        options.departures,
        options.looked,
    )?;
    Ok(PlacedMachine {
        machine,
        origins: placed.origins,
        timed: placed.timed,
    })
}
