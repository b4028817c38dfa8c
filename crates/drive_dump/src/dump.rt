// A dump that is read slot by slot.

ghost use Rattle.vcd_read.specs.Readers.{IsOpen};
ghost use Rattle.vcd_slots.specs.Following.{IsFresh, IsSound};
ghost use Rattle.drive_dump.specs.UnderWay.{IsUnderWay};

use crate::fault::DriveFault;
use basis::Span;
use std::alloc::Global;
use std::fs::File;
use vbits::Vec4;
use vcd_read::VcdReader;
use vcd_slots::{Columns, DumpSlots};

/// A dump of which the slots are read, one after another.
pub struct OpenDump {
    slots: DumpSlots<File>,
    ghost under_way: { IsUnderWay slots },
}

impl Drop for OpenDump {
    fn drop(self) {
        let OpenDump { slots: _ } = self;
    }
}

impl OpenDump {
    /// The slots of a dump whose declarations were read; its times count in the one unit, and are shown in the other.
    pub fn begin(
        alloc: Global,
        dump: VcdReader<File>,
        columns: Columns,
        unit: Span,
        shown: Span,
    ) -> Result<OpenDump, DriveFault>
        requires is_open { IsOpen dump }
        requires sound { IsSound columns }
        requires fresh { IsFresh columns }
    {
        let slots = DumpSlots::begin(alloc, dump, columns, Some(unit), shown)?;
        Ok(OpenDump { slots })
    }

    /// The time that comes next, if one does.
    pub fn next_time(&self) -> Option<u64> {
        self.slots.next_time()
    }

    /// Goes on to the next time, if there is one.
    pub fn advance(&mut self, alloc: Global) -> Result<(), DriveFault> {
        if self.slots.next_time().is_none() {
            return Ok(());
        }
        self.slots.advance(alloc)?;
        Ok(())
    }

    /// What the column at this place is worth, if that is known.
    pub fn value(&self, column: usize) -> Option<Vec4> {
        self.slots.value(column)
    }
}
