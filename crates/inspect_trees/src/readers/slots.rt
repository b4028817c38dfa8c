// Dumps of other simulators, slot by slot, in nanoseconds.

ghost use Rattle.std.specs.Prelude.{IfOk};
ghost use Rattle.vcd_slots.specs.Following.{IsFresh, IsSound};
ghost use Rattle.vcd_slots.specs.Standing.{IsReady};

use super::dumps::told_up_to;
use crate::text::Text;
use basis::{Count, NoMemory, OrMemory, Span, Unit};
use byte_sinks::Metered;
use std::alloc::Global;
use vbits::{Bit4, Vec4};
use vcd_read::{VcdFault, VcdReader};
use vcd_slots::{Columns, DumpSlots};

const NANOSECOND: Span = Span {
    count: Count::One,
    unit: Unit::Nanosecond,
};

fn digit_of(letter: Bit4) -> &'static [u8] {
    match letter {
        Bit4::Zero => b"0",
        Bit4::One => b"1",
        Bit4::X => b"x",
        Bit4::Z => b"z",
    }
}

// Puts a blank and the digits of a value, leftmost first, or `?` where it isn't known.
fn put_value(text: &mut Text, value: Option<Vec4>) {
    text.put(b" ");
    match value {
        None => text.put(b"?"),
        Some(value) => {
            let len = value.len();
            for place in 0..len {
                text.put(digit_of(value.bit(len - 1 - place)));
            }
        }
    }
}

// The columns of the variables that fit.
fn columns_of(alloc: Global, dump: &VcdReader<&[u8]>) -> Result<Columns, NoMemory>
    ensures sound { IfOk result (λ columns. IsSound columns) }
    ensures fresh { IfOk result (λ columns. IsFresh columns) }
{
    let mut columns = Columns::new(alloc);
    for variable in dump.variables() {
        columns.watch(alloc, variable)?;
    }
    Ok(columns)
}

// A line for each time: what is shown then of so many columns.
fn put_slots(
    alloc: Global,
    text: &mut Text,
    slots: &mut DumpSlots<&[u8]>,
    columns: usize,
    most: usize,
) -> Result<(), OrMemory<VcdFault>>
    requires { IsReady slots.old }
{
    for _ in 0..most {
        let Some(time) = slots.next_time() else {
            return Ok(());
        };
        slots.advance(alloc)?;
        text.put_number(b"@", time);
        for place in 0..columns {
            put_value(text, slots.value(place));
        }
        text.put(b"\n");
    }
    Ok(())
}

// The slots of a dump, in nanoseconds: there are no more than it has bytes.
fn put_dump(alloc: Global, text: &mut Text, bytes: &[u8]) -> Result<(), OrMemory<VcdFault>> {
    let dump = VcdReader::open(alloc, Metered::new(bytes))?;
    let columns = columns_of(alloc, &dump)?;
    let count = columns.len();
    let unit = dump.unit();
    let mut slots = DumpSlots::begin(alloc, dump, columns, unit, NANOSECOND)?;
    put_slots(alloc, text, &mut slots, count, bytes.len())
}

/// The slots of a dump, up to its fault.
pub fn slot_lines(alloc: Global, bytes: &[u8]) -> Result<Vec<u8>, NoMemory> {
    let mut text = Text::new(alloc);
    let done = put_dump(alloc, &mut text, bytes);
    told_up_to(text, done)
}
