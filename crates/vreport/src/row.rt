// The marks at which runs end, in the order in which a report lists ends.

ghost use Rattle.std.specs.Prelude.{◌≡◌, IfOk, option_map};
ghost use Rattle.vreport.specs.Inner.{AreRows, AreSortedRows, TellsRow, cause_of as cause_by_order, order_of as cause_order};

use crate::marks::Marks;
use crate::values::line_of_values;
use basis::NoMemory;
use sched_core::Log;
use sched_core::bag::Bag;
use sched_core::end::Cause;
use std::alloc::Global;
use vmachine::{Machine, MachineState};

/// A mark at which a run ends: its time, the order of its cause, the line of its values, the lines that its last slot printed
/// where these are looked at, how many departures lead there, and the place of the mark. Rows are compared in the order of
/// these.
#[derive(PartialEq, Eq, PartialOrd, Ord, Drop)]
pub struct Row {
    pub time: u64,
    pub cause: u8,
    pub line: Vec<u8>,
    pub printed: Option<Bag>,
    pub departures: usize,
    pub place: usize,
}

// The place of a cause in the order of their words: finish, limit, quiet, stop.
fn order_of(cause: Cause) -> u8
    ensures { result ≡ cause_order cause }
{
    match cause {
        Cause::Finish => 0,
        Cause::Limit => 1,
        Cause::Quiet => 2,
        Cause::Stop => 3,
    }
}

/// The cause that has this place in the order of their words.
pub fn cause_of(order: u8) -> Cause
    ensures { result ≡ cause_by_order order }
{
    match order {
        0 => Cause::Finish,
        1 => Cause::Limit,
        2 => Cause::Quiet,
        _ => Cause::Stop,
    }
}

/// A bag of the same lines, where there is one.
pub fn copy_printed(alloc: Global, printed: Option<&Bag>) -> Result<Option<Bag>, NoMemory>
    ensures { IfOk result (λ copied. copied ≡ option_map (λ bag. bag.now) printed.entry) }
{
    match printed {
        None => Ok(None),
        Some(bag) => Ok(Some(bag.copy(alloc)?)),
    }
}

// The row of one mark, if a run ends there.
fn row_of(
    alloc: Global,
    machine: &Machine,
    machine_state: &MachineState,
    log: &Log,
    place: usize,
) -> Result<Option<Row>, NoMemory>
    ensures { IfOk result (TellsRow machine.now (machine_state.now, log.now) place) }
{
    let Some(end) = machine.end_of(machine_state) else {
        return Ok(None);
    };
    Ok(Some(Row {
        time: end.time,
        cause: order_of(end.cause),
        line: line_of_values(alloc, machine.values(machine_state))?,
        printed: copy_printed(alloc, machine.printed(machine_state))?,
        departures: log.members().len(),
        place,
    }))
}

// The rows of all marks, in the order of the marks.
fn all_rows<M: Marks>(alloc: Global, machine: &Machine, marks: &M) -> Result<Vec<Row>, NoMemory>
    ensures { IfOk result (λ rows. AreRows machine.now (M.pairs marks.now) rows.items) }
{
    let mut rows = Vec::new(alloc);
    for place in 0..marks.count() {
        if let Some((machine_state, log)) = marks.mark_at(place) {
            if let Some(row) = row_of(alloc, machine, machine_state, log, place)? {
                rows.push(row)?;
            }
        }
    }
    Ok(rows)
}

/// The rows of all marks at which a run ends, in their own order.
pub fn rows_in_order<M: Marks>(
    alloc: Global,
    machine: &Machine,
    marks: &M,
) -> Result<Vec<Row>, NoMemory>
    ensures of { IfOk result (λ rows. AreRows machine.now (M.pairs marks.now) rows.items) }
    ensures order { IfOk result (λ rows. AreSortedRows rows.items) }
{
    let mut rows = all_rows(alloc, machine, marks)?;
    rows.sort()?;
    Ok(rows)
}
