// What is read of a dump for the inputs of a module.

use crate::refused::{no_candidate, no_scope, other_width, several_scopes, told, unknown};
use crate::scale::DumpUnits;
use crate::stops::{is_file, no_second_time, open_file, stop_of_changes, stop_of_open};
use basis::NoMemory;
use byte_sinks::Metered;
use command_line::DriveWords;
use drive_dump::{
    DrivenModule, Had, Indices, InputColumns, OpenDump, PortScopes, Recording, Watched, Window,
    bus_places, record,
};
use drive_text::Role;
use program_base::Stop;
use race_words::Piece;
use std::alloc::Global;
use vcd_read::{VcdReader, VcdVariable};
use written_times::Bounds;

// The place of the scope that has the module's inputs; where none has, of one that has each with some width, which is refused by it.
fn chosen_scope(
    alloc: Global,
    scopes: &PortScopes,
    module: &DrivenModule,
    variables: &[VcdVariable],
    path: Option<&str>,
) -> Result<usize, Stop> {
    if let Some(path) = path {
        return match scopes.named(path.as_bytes()) {
            Some(place) => Ok(place),
            None => Err(no_scope(alloc, module, path, scopes)),
        };
    }
    let candidates = scopes.candidates(alloc, module, variables)?;
    match candidates.split_first() {
        None => match scopes.of_other_width(alloc, module)? {
            Some(place) => Ok(place),
            None => Err(no_candidate(alloc, module, scopes)),
        },
        Some((place, rest)) if rest.is_empty() => Ok(*place),
        Some(_) => Err(several_scopes(alloc, module, scopes, &candidates)),
    }
}

// The numbers of bits in a dump.
fn indices_of(rt: &HostRuntime, name: &str) -> Result<Indices, Stop> {
    if !is_file(rt, name) {
        return Err(no_second_time(rt.alloc(), name));
    }
    let mut reader = Metered::new(open_file(rt, name)?);
    Ok(Indices::of(rt.alloc(), &mut reader)?)
}

// A scope of a dump, and the variables among which it is.
#[derive(Clone, Copy)]
struct Chosen<'a> {
    dump: &'a str,
    variables: &'a [VcdVariable],
    scopes: &'a PortScopes,
    place: usize,
}

// The places of the variables of the port at this place: none of an output.
fn variables_of(
    rt: &HostRuntime,
    module: &DrivenModule,
    chosen: &Chosen<'_>,
    port: usize,
) -> Result<Vec<usize>, Stop> {
    let (Some(driven), Some(scope)) = (module.ports.get(port), chosen.scopes.list.get(chosen.place))
    else {
        return Ok(Vec::new(rt.alloc()));
    };
    if driven.role == Role::Output {
        return Ok(Vec::new(rt.alloc()));
    }
    match scope.had(port, driven.width) {
        Had::Nothing => Ok(Vec::new(rt.alloc())),
        Had::Whole(place) => Ok(one_place(rt.alloc(), place)?),
        Had::Other(bits) => Err(other_width(rt.alloc(), module, port, &scope.path, bits)),
        Had::Bits => {
            let indices = indices_of(rt, chosen.dump)?;
            let places = bus_places(
                rt.alloc(),
                chosen.variables,
                &indices,
                &scope.path,
                &driven.name,
                module.ascends.get(port).copied().unwrap_or(false),
            )?;
            let count = places.len() as u64;
            if count != u64::from(driven.width) {
                return Err(other_width(rt.alloc(), module, port, &scope.path, count));
            }
            Ok(places)
        }
    }
}

// This place alone.
fn one_place(alloc: Global, place: usize) -> Result<Vec<usize>, NoMemory> {
    let mut places = Vec::new(alloc);
    places.push(place)?;
    Ok(places)
}

// The columns of each port, those of outputs empty.
fn columns_of(
    rt: &HostRuntime,
    module: &DrivenModule,
    chosen: &Chosen<'_>,
) -> Result<(Watched, Vec<InputColumns>), Stop> {
    let mut watched = Watched::none(rt.alloc());
    let mut all = Vec::new(rt.alloc());
    for port in 0..module.ports.len() {
        let places = variables_of(rt, module, chosen, port)?;
        let (next, columns) = InputColumns::of(rt.alloc(), watched, chosen.variables, &places)?;
        watched = next;
        if all.push(columns).is_err() {
            return Err(Stop::NoMemory);
        }
    }
    Ok((watched, all))
}

/// What was read of a dump: of which scope, in which units.
#[derive(Drop)]
pub(crate) struct ReadDump {
    pub recording: Recording,
    pub columns: Vec<InputColumns>,
    pub scope: Vec<u8>,
    pub units: DumpUnits,
}

// The path of the scope at this place.
fn path_of(alloc: Global, scopes: &PortScopes, place: usize) -> Result<Vec<u8>, NoMemory> {
    match scopes.list.get(place) {
        None => Ok(Vec::new(alloc)),
        Some(scope) => Ok(Vec::from_slice(alloc, &scope.path)?),
    }
}

// The times that are driven, as they are shown.
fn window_of<'a>(bounds: Bounds, units: DumpUnits, words: &'a DriveWords<'_>) -> Window<'a> {
    Window {
        from: bounds.from.saturating_mul(units.of_precision()),
        to: bounds.until.saturating_mul(units.of_precision()),
        declared: &words.declared,
    }
}

// Whether the dump has one of the inputs.
fn has_some(columns: &[InputColumns]) -> bool {
    for column in columns {
        if column.are_some() {
            return true;
        }
    }
    false
}

// What changes at the inputs of the module. E303 where the dump has no time.
fn recorded(
    alloc: Global,
    open: &mut OpenDump,
    module: &mut DrivenModule,
    columns: &[InputColumns],
    window: Window<'_>,
) -> Result<Recording, Stop> {
    match record(alloc, open, module, columns, window) {
        Err(fault) => Err(stop_of_changes(alloc, fault)),
        Ok(None) => Err(unknown(told(alloc, &[Piece::Bytes(b"the dump has no time\n")]))),
        Ok(Some(recording)) => Ok(recording),
    }
}

/// Reads what changes at the inputs of the module.
pub(crate) fn read_dump(
    rt: &HostRuntime,
    module: &mut DrivenModule,
    words: &DriveWords<'_>,
    bounds: Bounds,
    free: bool,
) -> Result<ReadDump, Stop> {
    let alloc = rt.alloc();
    let dump = match VcdReader::open(alloc, Metered::new(open_file(rt, words.dump)?)) {
        Ok(dump) => dump,
        Err(fault) => return Err(stop_of_open(fault)),
    };
    let units = DumpUnits::of(dump.unit(), module.scale, free);
    let scopes = PortScopes::of(alloc, dump.variables(), module)?;
    let place = chosen_scope(alloc, &scopes, module, dump.variables(), words.scope)?;
    let chosen = Chosen {
        dump: words.dump,
        variables: dump.variables(),
        scopes: &scopes,
        place,
    };
    let (watched, columns) = columns_of(rt, module, &chosen)?;
    if !has_some(&columns) {
        return Err(no_candidate(alloc, module, &scopes));
    }
    let scope = path_of(alloc, &scopes, place)?;
    let window = window_of(bounds, units, words);
    let columns_read = watched.into_columns();
    let mut open = match OpenDump::begin(alloc, dump, columns_read, units.told, units.shown) {
        Ok(open) => open,
        Err(fault) => return Err(stop_of_changes(alloc, fault)),
    };
    Ok(ReadDump {
        recording: recorded(alloc, &mut open, module, &columns, window)?,
        columns,
        scope,
        units,
    })
}
