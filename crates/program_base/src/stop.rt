// What ends a call early.

use basis::NoMemory;
use output_files::OutputFault;
use vcd_read::VcdFlaw;
use vrace::Fault;
use written_times::TimeFault;

/// Said of an option whose value reads as an option.
pub const DASHED: &str = "the value of an option begins with a minus";

/// What ends a call early.
pub enum Stop {
    /// The words don't go together, for this reason.
    Usage(&'static str),
    /// A time is none.
    NoTime,
    /// Memory was refused before a call of the library.
    NoMemory,
    /// The line of this number, from 1, is no waiver.
    BadWaiver(u64),
    /// In the line of this number, from 1, the text of the dump stops being one.
    BadDump(u64, VcdFlaw),
    /// The library refuses the call.
    Refused(Fault),
    /// The same, with what is told of it in words.
    Told(Fault, Vec<u8>),
}

impl Drop for Stop {
    fn drop(self) {
        match self {
            Stop::Usage(_) => {}
            Stop::NoTime => {}
            Stop::NoMemory => {}
            Stop::BadWaiver(_) => {}
            Stop::BadDump(_, _) => {}
            Stop::Refused(_) => {}
            Stop::Told(_, _) => {}
        }
    }
}

impl Stop {
    /// The refusal of which nothing is told in words, if it is one.
    pub fn untold(&self) -> Option<Fault> {
        match self {
            Stop::Refused(fault) => Some(*fault),
            _ => None,
        }
    }
}

impl From<Fault> for Stop {
    fn from(fault: Fault) -> Stop {
        Stop::Refused(fault)
    }
}

impl From<NoMemory> for Stop {
    fn from(_: NoMemory) -> Stop {
        Stop::NoMemory
    }
}

impl From<OutputFault> for Stop {
    fn from(fault: OutputFault) -> Stop {
        match fault {
            OutputFault::Memory(_) => Stop::NoMemory,
            OutputFault::Misnamed(reason) => Stop::Usage(reason),
            OutputFault::Unwritten(words) => Stop::Told(Fault::Write, words.into_bytes()),
        }
    }
}

impl From<TimeFault> for Stop {
    fn from(fault: TimeFault) -> Stop {
        match fault {
            TimeFault::Memory(_) => Stop::NoMemory,
            TimeFault::NoTime => Stop::NoTime,
            TimeFault::TooLate => Stop::Refused(Fault::OutOfLimit),
        }
    }
}
