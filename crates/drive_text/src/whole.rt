// A whole testbench.

use crate::body::Process;
use crate::driven::{Driven, Role};
use crate::head::put_head;
use basis::NoMemory;
use race_words::put;
use std::alloc::Global;

/// The most bytes of a testbench: as many as a text that is read may have.
pub const MOST_BYTES: usize = 16_777_216;

/// Why a testbench isn't written.
#[derive(Clone, Copy)]
pub enum TextFault {
    /// A growth was refused.
    Memory(NoMemory),
    /// It would have more bytes than a text may have.
    TooLong,
}

impl From<NoMemory> for TextFault {
    fn from(refused: NoMemory) -> TextFault {
        TextFault::Memory(refused)
    }
}

// The process of the clocks and of what is posted, which ends the run.
fn put_main(text: &mut Vec<u8>, driven: &Driven) -> Result<(), TextFault> {
    let mut process = Process {
        alone: None,
        time: 0,
        first: driven.first,
    };
    put(text, b"  initial begin\n    $dumpvars;\n")?;
    process.put_changes(text, &driven.ports, &driven.changes)?;
    process.put_finish(text, driven.last)?;
    put(text, b"  end\n")?;
    Ok(())
}

// The process of one input.
fn put_alone(text: &mut Vec<u8>, driven: &Driven, place: usize) -> Result<(), TextFault> {
    let mut process = Process {
        alone: Some(place),
        time: 0,
        first: driven.first,
    };
    put(text, b"  initial begin\n")?;
    process.put_changes(text, &driven.ports, &driven.changes)?;
    put(text, b"  end\n")?;
    Ok(())
}

// The processes of the inputs that have one each.
fn put_all_alone(text: &mut Vec<u8>, driven: &Driven) -> Result<(), TextFault> {
    for (place, port) in driven.ports.iter().enumerate() {
        if port.role == Role::Alone {
            put_alone(text, driven, place)?;
        }
    }
    Ok(())
}

/// The text of the testbench, at most 16,777,216 bytes.
pub fn driven_text(alloc: Global, driven: &Driven) -> Result<Vec<u8>, TextFault> {
    let mut text = Vec::new(alloc);
    put_head(&mut text, driven)?;
    put_main(&mut text, driven)?;
    put_all_alone(&mut text, driven)?;
    put(&mut text, b"endmodule\n")?;
    Ok(text)
}
