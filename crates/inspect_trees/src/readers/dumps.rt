// Dumps of other simulators: their variables, their unit, and their items.

use crate::text::Text;
use basis::{NoMemory, OrMemory};
use byte_sinks::Metered;
use std::alloc::Global;
use vcd_read::{VcdFault, VcdFlaw, VcdItem, VcdReader};

fn flaw_word(flaw: VcdFlaw) -> &'static [u8] {
    match flaw {
        VcdFlaw::Ends => b" ends\n",
        VcdFlaw::Word => b" word\n",
        VcdFlaw::Number => b" number\n",
        VcdFlaw::Timescale => b" timescale\n",
        VcdFlaw::Scope => b" scope\n",
        VcdFlaw::Digit => b" digit\n",
        VcdFlaw::Code => b" code\n",
        VcdFlaw::Block => b" block\n",
        VcdFlaw::Limit => b" limit\n",
        VcdFlaw::Width => b" width\n",
        VcdFlaw::Falls => b" falls\n",
        VcdFlaw::Unit => b" unit\n",
    }
}

// Puts the line of a fault: `no dump`, the line and the reason.
fn put_fault(text: &mut Text, fault: VcdFault) {
    match fault {
        VcdFault::NoDump { line, flaw } => {
            text.put_number(b"no dump ", line);
            text.put(flaw_word(flaw));
        }
        VcdFault::TooLong => text.put(b"too long\n"),
        VcdFault::Read => text.put(b"not read\n"),
    }
}

/// What was put of a dump, and the line of the fault that it ended with, if it did.
pub fn told_up_to(
    mut text: Text,
    done: Result<(), OrMemory<VcdFault>>,
) -> Result<Vec<u8>, NoMemory> {
    match done {
        Ok(()) => {}
        Err(OrMemory::Fault(fault)) => put_fault(&mut text, fault),
        Err(OrMemory::Memory(refused)) => return Err(refused),
    }
    text.finish()
}

// `NAME WIDTH` of each variable, and the unit, if one is told.
fn put_head(text: &mut Text, dump: &VcdReader<&[u8]>) {
    for variable in dump.variables() {
        text.put(&variable.name);
        text.put_number(b" ", variable.width);
        text.put(b"\n");
    }
    if let Some(unit) = dump.unit() {
        text.put_span(b"unit ", unit);
        text.put(b"\n");
    }
}

// `@` before a time, a code, `=` and digits, `off` and `on`.
fn put_item(text: &mut Text, item: &VcdItem) {
    match item {
        VcdItem::Time(time) => text.put_number(b"@", *time),
        VcdItem::Value { code, digits } => text.put_all(&[code, b"=", digits]),
        VcdItem::Off => text.put(b"off"),
        VcdItem::On => text.put(b"on"),
    }
    text.put(b"\n");
}

// The items of a dump, each of which has a letter at least.
fn put_items(alloc: Global, text: &mut Text, bytes: &[u8]) -> Result<(), OrMemory<VcdFault>> {
    let mut dump = VcdReader::open(alloc, Metered::new(bytes))?;
    put_head(text, &dump);
    for _ in 0..bytes.len() {
        match dump.next(alloc)? {
            None => return Ok(()),
            Some(item) => put_item(text, &item),
        }
    }
    Ok(())
}

/// What is told of a dump, up to its fault.
pub fn items(alloc: Global, bytes: &[u8]) -> Result<Vec<u8>, NoMemory> {
    let mut text = Text::new(alloc);
    let done = put_items(alloc, &mut text, bytes);
    told_up_to(text, done)
}
