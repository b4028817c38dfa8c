// The monitor in force (17.1.3).

ghost use Rattle.std.specs.Prelude.{◌≡◌, IfOk};
ghost use Rattle.lines_text.specs.LinesText as spec;
ghost use Rattle.vdesign.specs.Design.{Design};

use basis::NoMemory;
use line_text::{put_pieces, put_watched};
use std::alloc::Global;
use vbits::Vec4;
use vdesign::design::Design;
use vmodel::values::Values;
use vmodel::{environment_at, pieces_at};

/// Which monitor is in force, and what it last showed (17.1.3).
#[derive(Drop)]
pub enum InForce {
    /// None yet.
    Nobody,
    /// That of this place, called in the slot that runs.
    Called(usize),
    /// That of this place, with the values of its arguments when it last printed.
    Printed { place: usize, values: Values },
}

/// What the arguments of the monitor of this place are at a time, but for a bare `$time`.
pub(crate) fn watched_values(
    alloc: Global,
    design: &Design,
    place: usize,
    time: u64,
    values: &[Vec4],
) -> Result<Values, NoMemory>
    ensures { IfOk result (λ watched_values. watched_values ≡ spec.watched_values design.now place time values.now) }
{
    let mut list = Vec::new(alloc);
    put_watched(
        &mut list,
        pieces_at(design, place),
        &environment_at(design, values, time),
    )?;
    Values::from_slice(alloc, &list)
}

/// The line of the monitor of this place at a time.
pub(crate) fn line_at(
    alloc: Global,
    design: &Design,
    place: usize,
    time: u64,
    values: &[Vec4],
) -> Result<Vec<u8>, NoMemory>
    ensures { IfOk result (λ text. text.items ≡ spec.line_at design.now place time values.now) }
{
    let mut text = Vec::new(alloc);
    put_pieces(
        &mut text,
        pieces_at(design, place),
        &environment_at(design, values, time),
    )?;
    Ok(text)
}

// The place of a monitor that last showed these values, where an argument differs by now.
fn due_again(
    alloc: Global,
    design: &Design,
    place: usize,
    last: &Values,
    time: u64,
    values: &[Vec4],
) -> Result<Option<usize>, NoMemory>
    ensures { IfOk result (λ due.
        due ≡ spec.due_again design.now place last.now time values.now) }
{
    let watched_values = watched_values(alloc, design, place, time, values)?;
    Ok(if *last == watched_values {
        None
    } else {
        Some(place)
    })
}

/// The place of the monitor that prints at the end of a slot, if one does.
pub(crate) fn monitor_due(
    alloc: Global,
    design: &Design,
    in_force: &InForce,
    time: u64,
    values: &[Vec4],
) -> Result<Option<usize>, NoMemory>
    ensures { IfOk result (λ due. due ≡ spec.due design.now in_force.now time values.now) }
{
    match in_force {
        InForce::Nobody => Ok(None),
        InForce::Called(place) => Ok(Some(*place)),
        InForce::Printed {
            place,
            values: last,
        } => due_again(alloc, design, *place, last, time, values),
    }
}
