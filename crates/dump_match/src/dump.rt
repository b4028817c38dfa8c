// A dump and a machine.

ghost use Rattle.dump_match.specs.UnderWay.{IsUnderWay};

use crate::comparison::Comparison;
use std::alloc::Global;
use vcd_slots::DumpSlots;
use vmachine::Machine;

/// The dump that another simulator wrote of a machine's files, what of it is compared, and which of the pairs had a value in what was shown. It
/// is read as the search goes on, and not held.
pub struct DumpReference<'m, R> {
    pub(crate) alloc: Global,
    pub(crate) machine: &'m Machine,
    pub(crate) slots: DumpSlots<R>,
    pub(crate) comparison: Comparison,
    pub(crate) known: Vec<bool>,
    ghost under_way: { IsUnderWay slots },
}

impl<'m, R: Drop> Drop for DumpReference<'m, R> {
    fn drop(self) {
        let DumpReference {
            alloc: _,
            machine: _,
            slots: _,
            comparison: _,
            known: _,
        } = self;
    }
}
