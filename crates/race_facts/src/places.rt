// Of which runs it is told, and where statements stand.

use basis::NoMemory;
use race_findings::Setting;
use std::alloc::Global;
use trace_text::Origins;
use vmachine::Machine;
use vsrc::Place;

/// Of which runs it is told: those of the machine.
pub fn setting_of(machine: &Machine) -> Setting<'_> {
    Setting {
        design: machine.design(),
        until: machine.until(),
        grain: machine.grain(),
        departures: machine.departures(),
    }
}

/// For each action of the machine's design where its statement begins, if that is known.
pub fn places_of(
    alloc: Global,
    machine: &Machine,
    origins: &Origins,
) -> Result<Vec<Option<Place>>, NoMemory> {
    let mut places = Vec::new(alloc);
    for action in 0..machine.design().actions.len() {
        places.push(origins.place(action))?;
    }
    Ok(places)
}
