// A dump as what runs are compared with.

ghost use Rattle.std.specs.Prelude.{◌≡◌, ◌++◌, count_by, get_or, option_to_list, None, IfOk};
ghost use Rattle.std.specs.Option.{unwrap_or};
ghost use Rattle.vcd_slots.specs.Standing.{IsReady};
ghost use Rattle.vmachine.specs.Machines.{state_in};
ghost use Rattle.dump_match.specs.Comparison.{all_told_apart, differ_from, differing_in};
ghost use Rattle.dump_match.specs.Opening.{OpensDump, told_unit};
ghost use Rattle.dump_match.specs.Pieces.{OpensFrom};
ghost use Rattle.dump_match.specs.UnderWay.{IsUnderWay};

use crate::comparison::{Comparison, Pair};
use crate::differing::{Differing, differing_of, pair_differs};
use crate::dump::DumpReference;
use crate::known::{mark_known, none_known};
use basis::{NoMemory, OrMemory, Span};
use byte_sinks::Metered;
use matching::Reference;
use sched_core::Ranked;
use std::alloc::Global;
use std::io::Read;
use vbits::Vec4;
use vcd_read::{VcdFault, VcdReader};
use vcd_slots::{Columns, DumpSlots};
use vmachine::{Machine, MachineState, machine_law};

// The unit in which a dump that declares this one counts, where it isn't the files'.
fn told_unit(timed: bool, unit: Option<Span>) -> Option<Span>
    ensures { result ≡ told_unit timed unit }
{
    if timed { unit } else { None }
}

// How many of the pairs differ: what the dump tells, and the values.
fn count_differing<R: Read + Drop>(slots: &DumpSlots<R>, values: &[Vec4], pairs: &[Pair]) -> usize
    ensures { result ≡ differing_in slots.now.columns.told.items values.now pairs.now }
{
    let mut count = 0;
    for pair in pairs {
        if pair_differs(slots, values, pair) {
            count += 1;
        }
    }
    count
}

// With one more behind, if there is one.
fn push_if(list: &mut Vec<Differing>, found: Option<Differing>) -> Result<(), NoMemory>
    ensures { IfOk result (λ _. list.new.items ≡ list.old.items ++ option_to_list found) }
{
    match found {
        None => Ok(()),
        Some(differing) => {
            list.push(differing)?;
            Ok(())
        }
    }
}

// What differs of the pairs: what the dump tells, and the values.
fn all_differing<R: Read + Drop>(
    alloc: Global,
    slots: &DumpSlots<R>,
    values: &[Vec4],
    pairs: &[Pair],
) -> Result<Vec<Differing>, NoMemory>
    ensures { IfOk result (λ list. list.items ≡ all_told_apart slots.now.columns.told.items values.now pairs.now) }
{
    let mut list = Vec::new(alloc);
    for one in pairs {
        push_if(&mut list, differing_of(slots, values, one))?;
    }
    Ok(list)
}

// Up to the first time, if that is 0: what stands there is shown then.
fn from_zero<R: Read + Drop>(
    alloc: Global,
    slots: DumpSlots<R>,
) -> Result<DumpSlots<R>, OrMemory<VcdFault>>
    requires ready { IsReady slots }
    requires none { slots.time ≡ None }
    ensures under_way { IfOk result (λ slots. IsUnderWay slots) }
    ensures watched { IfOk result (λ now. now.columns.watched ≡ slots.columns.watched) }
    ensures goes { IfOk result (OpensFrom R.remaining slots) }
{
    if slots.next_time() != Some(0) {
        return Ok(slots);
    }
    let mut slots = slots;
    slots.advance(alloc)?;
    Ok(slots)
}

impl<'m, R: Read + Drop> DumpReference<'m, R> {
    /// The dump of this reader, of which the declarations are read: which of its variables are those of the machine. Its times are shown in the
    /// unit of the machine's; they count in that one, too, where no timescale stands in its files (`timed` is false). E505 with its line where it is no dump, E903 where the reader fails, E904, E901.
    pub fn open(
        alloc: Global,
        machine: &'m Machine,
        timed: bool,
        reader: Metered<R>,
    ) -> Result<DumpReference<'m, R>, OrMemory<VcdFault>>
        ensures machine { IfOk result (λ reference. reference.machine.now ≡ machine.now) }
        ensures opens { IfOk result (OpensDump R.remaining timed reader.inner) }
    {
        let dump = VcdReader::open(alloc, reader)?;
        let mut columns = Columns::new(alloc);
        let comparison = Comparison::new(alloc, machine.design(), dump.variables(), &mut columns)?;
        let scale = machine.design().scale;
        let unit = told_unit(timed, dump.unit());
        let slots = DumpSlots::begin(alloc, dump, columns, unit, scale.precision)?;
        let slots = from_zero(alloc, slots)?;
        let mut known = none_known(alloc, &comparison.pairs)?;
        mark_known(&slots, &comparison.pairs, &mut known);
        Ok(DumpReference {
            alloc,
            machine,
            slots,
            comparison,
            known,
        })
    }

    /// What is compared.
    pub fn comparison(&self) -> &Comparison {
        &self.comparison
    }

    /// How many of the pairs have had a value at the end of a slot that was shown: none where nothing was compared.
    pub fn compared_count(&self) -> usize
        ensures { result ≡ count_by (λ known. known) self.now.known.items }
    {
        self.known.iter().filter(|known| **known).count()
    }

    /// The machine.
    pub fn machine(&self) -> &'m Machine
        ensures { result.now ≡ self.now.machine.now }
    {
        self.machine
    }

    /// The unit of times that the dump declares, if it declares one.
    pub fn unit(&self) -> Option<Span>
        ensures { result ≡ self.now.slots.dump.unit }
    {
        self.slots.unit()
    }

    /// The time that is shown; 0 before the first.
    pub fn time(&self) -> u64
        ensures { result ≡ unwrap_or self.now.slots.time 0 }
    {
        self.slots.time().unwrap_or(0)
    }

    /// What differs in the state from what is shown.
    pub fn differing(&self, s: &MachineState) -> Result<Vec<Differing>, NoMemory>
        ensures { IfOk result (λ list. list.items ≡ all_told_apart self.now.slots.columns.told.items
            (state_in self.now.machine.now s.now).values self.now.comparison.pairs.items) }
    {
        let values = self.machine.values(s);
        all_differing(self.alloc, &self.slots, values, &self.comparison.pairs)
    }

    /// What is shown of a pair; None where nothing is known of it.
    pub fn told(&self, pair: &Pair) -> Option<Vec4>
        ensures { result ≡ get_or self.now.slots.columns.told.items pair.now.column None }
    {
        self.slots.value(pair.column)
    }

    // How many differ in a state in which a slot ends, or in which the run was finished.
    fn count_at(&self, time: u64, s: &MachineState) -> usize
        ensures { result ≡ differ_from self.now.machine.now time self.now.slots.columns.told.items self.now.comparison.pairs.items s.now }
    {
        machine_law();
        if self.machine.slot_of(s).is_some() {
            return count_differing(&self.slots, self.machine.values(s), &self.comparison.pairs);
        }
        if self.machine.rank(s) < time { 1 } else { 0 }
    }
}

/// What is shown is compared as specs/Comparison.antt says; to go on is to go on in the dump.
impl<'m, R: Read + Drop> Reference<MachineState> for DumpReference<'m, R> {
    ghost use Rattle.std.specs.Prelude.{◌≡◌, None};
    ghost use Rattle.dump_match.specs.Showing.{Reads, piece_in, nothing_read, alike_in};

    type Fault = VcdFault;

    ghost piece = { piece_in };

    ghost upcoming = { λ me. me.slots.ahead };

    ghost reads = { Reads R.remaining };

    ghost done = { λ me. me.slots.ahead ≡ None };

    fn next_time(&self) -> Option<u64> {
        self.slots.next_time()
    }

    fn advance(&mut self) -> Result<(), OrMemory<VcdFault>> {
        self.slots.advance(self.alloc)?;
        mark_known(&self.slots, &self.comparison.pairs, &mut self.known);
        Ok(())
    }

    fn count_differences(&self, s: &MachineState) -> usize {
        match self.slots.time() {
            None => 0,
            Some(time) => self.count_at(time, s),
        }
    }

    ghost none = { nothing_read };

    ghost alike = { alike_in };
}
