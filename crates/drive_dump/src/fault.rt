// Why a dump isn't read to its end.

use basis::{NoMemory, OrMemory};
use vcd_read::VcdFault;

/// Why what changes at the inputs isn't known.
#[derive(Clone, Copy)]
pub enum DriveFault {
    /// A growth was refused.
    Memory(NoMemory),
    /// The text stops being a dump, or can't be read.
    Dump(VcdFault),
    /// More changes than a testbench may have.
    TooLong,
}

impl From<NoMemory> for DriveFault {
    fn from(refused: NoMemory) -> DriveFault {
        DriveFault::Memory(refused)
    }
}

impl From<OrMemory<VcdFault>> for DriveFault {
    fn from(fault: OrMemory<VcdFault>) -> DriveFault {
        match fault {
            OrMemory::Memory(refused) => DriveFault::Memory(refused),
            OrMemory::Fault(fault) => DriveFault::Dump(fault),
        }
    }
}
