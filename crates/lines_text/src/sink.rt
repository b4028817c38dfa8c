// The lines of a run, written slot by slot as the run goes.

ghost use Rattle.std.specs.Prelude.{◌≡◌, [], ◌∷◌, OnOk, IfErr, None};
ghost use Rattle.vmodel.specs.declared.history.Item.TheVariants.{SlotEnd, Line};
ghost use Rattle.byte_sinks.specs.ByteSinks.{Stopped};
ghost use Rattle.lines_text.specs.declared.in_force.InForce.TheVariants.{Nobody};
ghost use Rattle.lines_text.specs.LinesText.{line_at as line_text_at};

use crate::in_force::{InForce, line_at, monitor_due, watched_values};
use basis::OrMemory;
use byte_sinks::{ByteSink, put};
use std::alloc::Global;
use vbits::Vec4;
use vdesign::design::Design;
use vmodel::history::Item;
use vmodel::sink::HistorySink;
use vmodel::touched::Touched;

/// Writes the printed lines of a run as its items come: each line of `$display` and `$strobe` where it stands, and the line of the
/// monitor in force at the end of its own slot and of each later one in which an argument changed (17.1; docs/FORMATS.md, "Lines").
/// After a fault no more may be handed to it. `into_byte_sink` gives back what the lines are written to.
#[derive(Drop)]
pub struct LinesSink<'a, O> {
    alloc: Global,
    design: &'a Design,
    byte_sink: &'a mut O,
    in_force: InForce,
}

impl<'a, O: ByteSink> LinesSink<'a, O> {
    ghost use Rattle.lines_text.specs.Sinks.{Takes, Fails, IsSameSink, Tells};

    /// Lines of which none has come yet.
    pub fn new(alloc: Global, design: &'a Design, byte_sink: &'a mut O) -> LinesSink<'a, O>
        ensures same_byte_sink { result.byte_sink.ghost_name ≡ byte_sink.entry.ghost_name }
        ensures unwritten { result.byte_sink.now ≡ byte_sink.old }
        ensures design { result.design.now ≡ design.now }
        ensures in_force { result.in_force ≡ Nobody }
    {
        LinesSink {
            alloc,
            design,
            byte_sink,
            in_force: InForce::Nobody,
        }
    }

    /// Lines of which some have come: the byte sink has them, and this monitor is in force.
    pub fn resume(
        alloc: Global,
        design: &'a Design,
        byte_sink: &'a mut O,
        in_force: InForce,
    ) -> LinesSink<'a, O>
        ensures same_byte_sink { result.byte_sink.ghost_name ≡ byte_sink.entry.ghost_name }
        ensures unwritten { result.byte_sink.now ≡ byte_sink.old }
        ensures design { result.design.now ≡ design.now }
        ensures in_force { result.in_force ≡ in_force }
    {
        LinesSink {
            alloc,
            design,
            byte_sink,
            in_force,
        }
    }

    // The monitor of this place prints.
    fn tell(&mut self, place: usize, time: u64, values: &[Vec4]) -> Result<(), OrMemory<O::Fault>>
        ensures ok { OnOk result (Tells O.takes self.old place time values.now self.new) }
        ensures same { IsSameSink self.old self.new }
        ensures err { IfErr result (λ fault.
            Stopped O.takes O.fails self.old.byte_sink.now
            (line_text_at self.old.design.now place time values.now) fault self.new.byte_sink.now) }
    {
        let text = line_at(self.alloc, self.design, place, time, values)?;
        let values = watched_values(self.alloc, self.design, place, time, values)?;
        match put(self.byte_sink, &text) {
            Ok(()) => {
                self.in_force = InForce::Printed { place, values };
                Ok(())
            }
            Err(fault) => Err(fault),
        }
    }

    // A slot has ended.
    fn end_slot(&mut self, time: u64, values: &[Vec4]) -> Result<(), OrMemory<O::Fault>>
        ensures ok { OnOk result (Takes O.takes self.old (SlotEnd time values.now ∷ []) self.new) }
        ensures err { IfErr result (λ fault.
            Fails O.takes O.fails self.old (SlotEnd time values.now ∷ []) fault self.new) }
    {
        match monitor_due(self.alloc, self.design, &self.in_force, time, values)? {
            None => Ok(()),
            Some(place) => self.tell(place, time, values),
        }
    }

    // A line has come.
    fn print(&mut self, bytes: &[u8]) -> Result<(), OrMemory<O::Fault>>
        ensures ok { OnOk result (Takes O.takes self.old (Line bytes.now ∷ []) self.new) }
        ensures err { IfErr result (λ fault.
            Fails O.takes O.fails self.old (Line bytes.now ∷ []) fault self.new) }
    {
        put(self.byte_sink, bytes)
    }

    // The next item.
    fn take_item(&mut self, item: &Item) -> Result<(), OrMemory<O::Fault>>
        ensures ok { OnOk result (Takes O.takes self.old (item.now ∷ []) self.new) }
        ensures err { IfErr result (λ fault.
            Fails O.takes O.fails self.old (item.now ∷ []) fault self.new) }
    {
        match item {
            Item::SlotEnd { time, values } => self.end_slot(*time, values.as_slice()),
            Item::Dump(_) => Ok(()),
            Item::Line(text) => self.print(text.as_bytes()),
            Item::Monitor(place) => {
                self.in_force = InForce::Called(*place);
                Ok(())
            }
        }
    }

    /// What the lines are written to, with all that it took.
    pub fn into_byte_sink(self) -> &'a mut O
        ensures same_byte_sink { result.ghost_name ≡ self.entry.byte_sink.ghost_name }
        ensures written { result.now ≡ self.entry.byte_sink.now }
    {
        self.into_parts().0
    }

    /// The same, and the monitor in force.
    pub fn into_parts(self) -> (&'a mut O, InForce)
        ensures same_byte_sink { result.0.ghost_name ≡ self.entry.byte_sink.ghost_name }
        ensures written { result.0.now ≡ self.entry.byte_sink.now }
        ensures in_force { result.1 ≡ self.entry.in_force }
    {
        let LinesSink {
            alloc: _,
            design: _,
            byte_sink,
            in_force,
        } = self;
        (byte_sink, in_force)
    }
}

impl<'a, O: ByteSink> HistorySink for LinesSink<'a, O> {
    ghost use Rattle.std.proofs.Common.{refl};
    ghost use Rattle.lines_text.specs.Sinks.{Takes, Fails};
    ghost use Rattle.lines_text.specs.SinkLaws.{takes_none, takes_joins, fails_after, fails_before};

    type Fault = OrMemory<O::Fault>;

    ghost takes = { Takes O.takes };

    ghost fails = { Fails O.takes O.fails };

    ghost kept = { λ s. None };

    fn take(&mut self, items: &[Item]) -> Result<(), OrMemory<O::Fault>>
        ensures ok { OnOk result (Takes O.takes self.old items.now self.new) }
        ensures err { IfErr result (λ fault.
            Fails O.takes O.fails self.old items.now fault self.new) }
    {
        for item in items {
            match self.take_item(item) {
                Ok(()) => {}
                Err(fault) => return Err(fault),
            }
        }
        Ok(())
    }

    fn take_end(
        &mut self,
        time: u64,
        values: &[Vec4],
        _touched: &Touched,
    ) -> Result<(), OrMemory<O::Fault>>
        ensures ok { OnOk result (Takes O.takes self.old (SlotEnd time values.now ∷ []) self.new) }
        ensures err { IfErr result (λ fault.
            Fails O.takes O.fails self.old (SlotEnd time values.now ∷ []) fault self.new) }
    {
        self.end_slot(time, values)
    }

    fn keeps_values(&self) -> bool {
        false
    }

    fn is_full(&self) -> bool {
        self.byte_sink.is_full()
    }

    ghost none = { takes_none O.takes O.fails O.lawful };

    ghost joins = { takes_joins O.takes O.fails O.lawful };

    ghost fails_later = { fails_after O.takes O.fails O.lawful };

    ghost fails_before = { fails_before O.takes O.fails O.lawful };

    ghost keeps = { λ s u time values h. tt };

    ghost keeps_on = { λ s u items h k. refl };
}
