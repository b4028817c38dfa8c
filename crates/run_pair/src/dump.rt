// One dump of two runs: the scope `default` has the values of the one, the scope `departed` those of the other (IEEE 1364-2005, clause 18).

use crate::columns::earlier;
use crate::pair::pair_of;
use crate::runs::parent_log;
use crate::walk::Walk;
use basis::{NoMemory, OrMemory};
use byte_sinks::{ByteSink, Metered, WriteFault};
use sched_core::Log;
use sched_core::end::{Cause, End};
use std::alloc::Global;
use std::io::Write;
use vbits::Vec4;
use vcd_text::DumpSink;
use vdesign::dump::DumpCommand;
use vmachine::Machine;
use vmodel::history::Item;
use vmodel::sink::HistorySink;
use vmodel::values::Values;

// One of both runs: the values at the end of its last slot, before the first one those that it begins with; where it is behind that, and
// when its next slot ends.
#[derive(Drop)]
struct Side<'a> {
    values: Vec<Vec4>,
    walk: Walk<'a>,
    next: Option<u64>,
}

impl<'a> Side<'a> {
    // The run before its first slot.
    fn new(alloc: Global, mut walk: Walk<'a>) -> Result<Side<'a>, NoMemory> {
        let values = Vec::from_slice(alloc, walk.values())?;
        let next = walk.next_mark()?;
        Ok(Side { values, walk, next })
    }

    // Goes on behind its next slot, if that ends at this time.
    fn go_to(&mut self, alloc: Global, time: u64) -> Result<(), NoMemory> {
        if self.next == Some(time) {
            self.values = Vec::from_slice(alloc, self.walk.values())?;
            self.next = self.walk.next_mark()?;
        }
        Ok(())
    }
}

// Hands one item on.
fn put_item<O: ByteSink>(
    alloc: Global,
    sink: &mut DumpSink<'_, O>,
    item: Item,
) -> Result<(), OrMemory<O::Fault>> {
    let mut items = Vec::new(alloc);
    items.push(item)?;
    sink.take(&items)
}

// The slot end of this time, with the values of both runs.
fn slot_end(
    alloc: Global,
    time: u64,
    parent: &Side<'_>,
    departed: &Side<'_>,
) -> Result<Item, NoMemory> {
    let mut values = Vec::from_slice(alloc, &parent.values)?;
    values.extend_from_slice(&departed.values)?;
    Ok(Item::SlotEnd {
        time,
        values: Values::new(values),
    })
}

// Hands on each slot end of either run, and tells the time of the last one.
fn put_slots<O: ByteSink>(
    alloc: Global,
    sink: &mut DumpSink<'_, O>,
    mut parent: Side<'_>,
    mut departed: Side<'_>,
    steps: u32,
) -> Result<u64, OrMemory<O::Fault>> {
    let mut last = 0;
    for _ in 0..=u64::from(steps).saturating_add(1).saturating_mul(2) {
        let Some(time) = earlier(parent.next, departed.next) else {
            return Ok(last);
        };
        parent.go_to(alloc, time)?;
        departed.go_to(alloc, time)?;
        put_item(alloc, sink, slot_end(alloc, time, &parent, &departed)?)?;
        last = time;
    }
    Ok(last)
}

// Hands on what both runs show.
fn put_runs<O: ByteSink>(
    alloc: Global,
    machine: &Machine,
    log: &Log,
    steps: u32,
    sink: &mut DumpSink<'_, O>,
) -> Result<(), OrMemory<O::Fault>> {
    let parent = parent_log(alloc, log)?;
    let first = Side::new(alloc, Walk::new(machine, &parent, steps)?)?;
    let second = Side::new(alloc, Walk::new(machine, log, steps)?)?;
    put_item(alloc, sink, Item::Dump(DumpCommand::Vars(0)))?;
    let time = put_slots(alloc, sink, first, second, steps)?;
    sink.finish(&End {
        time,
        cause: Cause::Quiet,
    })
}

/// Writes one dump of two runs: that under the log without its last member under the scope `default`, and that under the log under
/// `departed`, each with its values at the ends of its slots, and of the run. A run is followed for at most so many steps. E901, and E902
/// only where the writer failed in this call.
pub fn write_pair<W: Write>(
    alloc: Global,
    machine: &Machine,
    log: &Log,
    steps: u32,
    writer: &mut Metered<W>,
) -> Result<(), OrMemory<WriteFault>> {
    let design = pair_of(alloc, machine.design())?;
    let mut sink = DumpSink::new(alloc, &design, writer);
    put_runs(alloc, machine, log, steps, &mut sink)
}
