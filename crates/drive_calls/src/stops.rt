// What ends a call early, of what a dump and a text are refused for.

use crate::refused::{told, too_long};
use basis::OrMemory;
use drive_dump::DriveFault;
use drive_text::TextFault;
use program_base::{Stop, refused_open};
use race_words::Piece;
use std::alloc::Global;
use std::fs;
use std::fs::File;
use vcd_read::VcdFault;
use vrace::Fault;

// What a fault of a dump ends the call with.
fn stop_of_dump(fault: VcdFault) -> Stop {
    match fault {
        VcdFault::NoDump { line, flaw } => Stop::BadDump(line, flaw),
        VcdFault::TooLong => Stop::Refused(Fault::TooLong),
        VcdFault::Read => Stop::Refused(Fault::Read),
    }
}

/// What stops the opening of a dump.
pub(crate) fn stop_of_open(fault: OrMemory<VcdFault>) -> Stop {
    match fault {
        OrMemory::Memory(_) => Stop::NoMemory,
        OrMemory::Fault(fault) => stop_of_dump(fault),
    }
}

/// What stops the reading of changes.
pub(crate) fn stop_of_changes(alloc: Global, fault: DriveFault) -> Stop {
    match fault {
        DriveFault::Memory(_) => Stop::NoMemory,
        DriveFault::Dump(fault) => stop_of_dump(fault),
        DriveFault::TooLong => too_long(alloc),
    }
}

/// What stops the writing of a text.
pub(crate) fn stop_of_text(alloc: Global, fault: TextFault) -> Stop {
    match fault {
        TextFault::TooLong => too_long(alloc),
        TextFault::Memory(_) => Stop::NoMemory,
    }
}

/// The file of this name.
pub(crate) fn open_file(rt: &HostRuntime, name: &str) -> Result<File, Stop> {
    match File::open(rt, name) {
        Ok(file) => Ok(file),
        Err(error) => Err(refused_open(rt.alloc(), name, &error)),
    }
}

/// Whether what has this name is a file, and can be read a second time.
pub(crate) fn is_file(rt: &HostRuntime, name: &str) -> bool {
    match fs::metadata(rt, name) {
        Ok(found) => found.is_file(),
        Err(_) => false,
    }
}

/// E903: the numbers of bits are read before the dump is, and this is no file.
pub(crate) fn no_second_time(alloc: Global, name: &str) -> Stop {
    let said = told(
        alloc,
        &[
            Piece::Cut(name.as_bytes(), 200),
            Piece::Bytes(
                b": is no file, and a dump in which buses stand bit by bit is read twice\n    instead: write it to a file\n",
            ),
        ],
    );
    match said {
        Ok(said) => Stop::Told(Fault::Read, said),
        Err(_) => Stop::NoMemory,
    }
}
