// The dump of a run, written slot by slot as the run goes.

ghost use Rattle.std.specs.Prelude.{◌≡◌, ◌≢◌, [], ◌∷◌, OnOk, OnErr, IfOk, IfErr};
ghost use Rattle.vmodel.specs.declared.history.Item.TheVariants.{SlotEnd, Dump};
ghost use Rattle.vcd_text.specs.declared.progress.Progress.TheVariants.{Waiting, Failed};
ghost use Rattle.vcd_text.specs.Sinks.{progress_at_start, begun_text, end_line, line_after_slot, slot_text, started_text};
ghost use Rattle.byte_sinks.specs.ByteSinks.{Stopped};
ghost use Rattle.vmodel.specs.Touched.{ChangesOnly, ChangesOnlySince};

use crate::commands::{Commands, have_start, on_after};
use crate::header::header_of;
use crate::progress::{Progress, first_text, later_text, line_after, line_of};
use crate::selected::{scope_marks, spread};
use basis::OrMemory;
use byte_sinks::{ByteSink, put};
use sched_core::end::End;
use std::alloc::Global;
use vbits::Vec4;
use vdesign::design::Design;
use vdesign::dump::DumpCommand;
use vmodel::history::Item;
use vmodel::sink::HistorySink;
use vmodel::touched::Touched;
use vmodel::values::Values;

/// Writes the dump of a run of a design as its items come: the header and the values at the end of the first slot with a
/// `$dumpvars`, the changes at each later slot end, all of the variables that the first slot selects (18.1.2, 18.2.1;
/// docs/FORMATS.md, "Dumps"). Before a start nothing is
/// written, and nothing after a fault, where items are passed over. `finish` completes the dump, and `into_byte_sink` gives
/// back what it is written to.
#[derive(Drop)]
pub struct DumpSink<'a, O> {
    alloc: Global,
    design: &'a Design,
    byte_sink: &'a mut O,
    progress: Progress,
}

// A header and the first slot's end, of the variables that are marked.
fn put_start<O: ByteSink>(
    alloc: Global,
    head: &[u8],
    byte_sink: &mut O,
    marks: &[bool],
    commands: &[DumpCommand],
    time: u64,
    values: &[Vec4],
) -> Result<(), OrMemory<O::Fault>>
    ensures ok { OnOk result
        (O.takes byte_sink.old (started_text head.now marks.now commands.now time values.now)
        byte_sink.new) }
    ensures err { IfErr result (λ fault. Stopped O.takes O.fails byte_sink.old
        (started_text head.now marks.now commands.now time values.now) fault byte_sink.new) }
{
    let text = first_text(alloc, marks, commands, time, values)?;
    match put(byte_sink, head) {
        Ok(()) => put(byte_sink, &text),
        Err(fault) => Err(fault),
    }
}

// What a later slot adds, where only such variables may have changed. What is kept moves on to its values, and to its time where it
// has a line.
fn put_slot<O: ByteSink>(
    alloc: Global,
    byte_sink: &mut O,
    last: &mut u64,
    on: bool,
    marks: &[bool],
    kept: &mut Values,
    commands: &[DumpCommand],
    time: u64,
    values: &[Vec4],
    touched: &Touched,
) -> Result<(), OrMemory<O::Fault>>
    requires { ChangesOnly touched.now kept.old values.now }
    ensures last { OnOk result
        (last.new ≡ line_after_slot last.old time on marks.now kept.old commands.now values.now) }
    ensures kept { OnOk result (kept.new ≡ values.now) }
    ensures ok { OnOk result (O.takes byte_sink.old
        (slot_text time on marks.now kept.old commands.now values.now) byte_sink.new) }
    ensures err { IfErr result (λ fault. Stopped O.takes O.fails byte_sink.old
        (slot_text time on marks.now kept.old commands.now values.now) fault byte_sink.new) }
{
    let text = later_text(
        alloc,
        time,
        on,
        marks,
        kept.as_slice(),
        commands,
        values,
        touched,
    )?;
    kept.assign_touched(values, touched)?;
    match put(byte_sink, &text) {
        Ok(()) => {
            *last = line_after(*last, time, &text);
            Ok(())
        }
        Err(fault) => Err(fault),
    }
}

// A slot has ended, and no dump was started before it: how far the dump has come then.
fn begin<O: ByteSink>(
    alloc: Global,
    design: &Design,
    byte_sink: &mut O,
    commands: &[DumpCommand],
    time: u64,
    values: &[Vec4],
) -> Result<Progress, OrMemory<O::Fault>>
    ensures progress { IfOk result (λ progress.
        progress ≡ progress_at_start design.now commands.now time values.now) }
    ensures ok { OnOk result
        (O.takes byte_sink.old (begun_text design.now commands.now time values.now) byte_sink.new) }
    ensures err { IfErr result (λ fault. Stopped O.takes O.fails byte_sink.old
        (begun_text design.now commands.now time values.now) fault byte_sink.new) }
{
    if !have_start(commands) {
        return Ok(Progress::Waiting(Commands::new(alloc)));
    }
    let kept = Values::from_slice(alloc, values)?;
    let scopes = scope_marks(alloc, design, commands)?;
    let marks = spread(alloc, scopes.as_slice(), &design.scopes)?;
    let head = header_of(alloc, design, scopes.as_slice())?;
    match put_start(
        alloc,
        &head,
        byte_sink,
        marks.as_slice(),
        commands,
        time,
        values,
    ) {
        Ok(()) => Ok(Progress::Started {
            last: time,
            on: on_after(true, commands),
            marks,
            values: kept,
            commands: Commands::new(alloc),
        }),
        Err(fault) => Err(fault),
    }
}

// The time of the end, unless the last time line is that.
fn put_end<O: ByteSink>(
    alloc: Global,
    byte_sink: &mut O,
    last: u64,
    time: u64,
) -> Result<(), OrMemory<O::Fault>>
    ensures ok { OnOk result (O.takes byte_sink.old (end_line last time) byte_sink.new) }
    ensures err { IfErr result (λ fault.
        Stopped O.takes O.fails byte_sink.old (end_line last time) fault byte_sink.new) }
{
    if last == time {
        return Ok(());
    }
    let text = line_of(alloc, time)?;
    put(byte_sink, &text)
}

impl<'a, O: ByteSink> DumpSink<'a, O> {
    ghost use Rattle.vcd_text.specs.Sinks.{IsAtEnd, IsPassedOver, IsSameDump, Takes, TakesEnd, FailsEnd, StopsIn, kept_in};

    /// A dump of which nothing has come yet.
    pub fn new(alloc: Global, design: &'a Design, byte_sink: &'a mut O) -> DumpSink<'a, O>
        ensures same_byte_sink { result.byte_sink.ghost_name ≡ byte_sink.entry.ghost_name }
        ensures unwritten { result.byte_sink.now ≡ byte_sink.old }
        ensures design { result.design.now ≡ design.now }
        ensures progress { result.progress ≡ Waiting [] }
    {
        DumpSink {
            alloc,
            design,
            byte_sink,
            progress: Progress::Waiting(Commands::new(alloc)),
        }
    }

    /// A dump that has come so far, whose text so far the byte sink has.
    pub fn resume(
        alloc: Global,
        design: &'a Design,
        byte_sink: &'a mut O,
        progress: Progress,
    ) -> DumpSink<'a, O>
        ensures same_byte_sink { result.byte_sink.ghost_name ≡ byte_sink.entry.ghost_name }
        ensures unwritten { result.byte_sink.now ≡ byte_sink.old }
        ensures design { result.design.now ≡ design.now }
        ensures progress { result.progress ≡ progress }
    {
        DumpSink {
            alloc,
            design,
            byte_sink,
            progress,
        }
    }

    // A slot has ended. Since the end of the one whose values are kept, if some are, only such variables may have changed.
    fn end_slot(
        &mut self,
        time: u64,
        values: &[Vec4],
        touched: &Touched,
    ) -> Result<(), OrMemory<O::Fault>>
        requires { ChangesOnlySince touched.now (kept_in self.old) values.now }
        ensures ok { OnOk result (Takes O.takes self.old (SlotEnd time values.now ∷ []) self.new) }
        ensures err { IfErr result (λ fault.
            StopsIn O.takes O.fails self.old (SlotEnd time values.now ∷ []) fault self.new) }
    {
        match &mut self.progress {
            Progress::Waiting(commands) => {
                self.progress = begin(
                    self.alloc,
                    self.design,
                    self.byte_sink,
                    commands.as_slice(),
                    time,
                    values,
                )?;
                Ok(())
            }
            Progress::Started {
                last,
                on,
                marks,
                values: kept,
                commands,
            } => {
                put_slot(
                    self.alloc,
                    self.byte_sink,
                    last,
                    *on,
                    marks.as_slice(),
                    kept,
                    commands.as_slice(),
                    time,
                    values,
                    touched,
                )?;
                *on = on_after(*on, commands.as_slice());
                commands.clear();
                Ok(())
            }
            Progress::Failed => Ok(()),
        }
    }

    // A dump command.
    fn ask(&mut self, command: DumpCommand) -> Result<(), OrMemory<O::Fault>>
        ensures ok { OnOk result (Takes O.takes self.old (Dump command ∷ []) self.new) }
        ensures err { IfErr result (λ fault.
            StopsIn O.takes O.fails self.old (Dump command ∷ []) fault self.new) }
    {
        match &mut self.progress {
            Progress::Waiting(commands) => commands.push(command)?,
            Progress::Started { commands, .. } => commands.push(command)?,
            Progress::Failed => {}
        }
        Ok(())
    }

    // The next item.
    fn take_item(&mut self, item: &Item) -> Result<(), OrMemory<O::Fault>>
        ensures ok { OnOk result (Takes O.takes self.old (item.now ∷ []) self.new) }
        ensures err { IfErr result (λ fault.
            StopsIn O.takes O.fails self.old (item.now ∷ []) fault self.new) }
    {
        match item {
            Item::SlotEnd { time, values } => {
                self.end_slot(*time, values.as_slice(), &Touched::any(self.alloc))
            }
            Item::Dump(command) => self.ask(*command),
            Item::Line(_) => Ok(()),
            Item::Monitor(_) => Ok(()),
        }
    }

    /// Writes what the end of the run adds: its time, unless the last time line is that (E901, E902). After `Ok` a
    /// second call with the same end writes nothing, and after a fault no call does.
    pub fn finish(&mut self, end: &End) -> Result<(), OrMemory<O::Fault>>
        ensures same { IsSameDump self.old self.new }
        ensures ok { OnOk result (TakesEnd O.takes self.old end.now.time self.new) }
        ensures progress { OnOk result (IsAtEnd self.old end.now.time self.new) }
        ensures err { IfErr result (λ fault.
            FailsEnd O.takes O.fails self.old end.now.time fault self.new) }
        ensures failed { OnErr result (self.new.progress ≡ Failed) }
        ensures passed { IsPassedOver self.old self.new }
        ensures once { OnErr result (self.old.progress ≢ Failed) }
    {
        match &mut self.progress {
            Progress::Waiting(_) => Ok(()),
            Progress::Started { last, .. } => {
                match put_end(self.alloc, self.byte_sink, *last, end.time) {
                    Ok(()) => {
                        *last = end.time;
                        Ok(())
                    }
                    Err(fault) => {
                        self.progress = Progress::Failed;
                        Err(fault)
                    }
                }
            }
            Progress::Failed => Ok(()),
        }
    }

    /// What the dump is written to, with all that it took.
    pub fn into_byte_sink(self) -> &'a mut O
        ensures same_byte_sink { result.ghost_name ≡ self.entry.byte_sink.ghost_name }
        ensures written { result.now ≡ self.entry.byte_sink.now }
    {
        self.into_parts().0
    }

    /// The same, and how far the dump has come.
    pub fn into_parts(self) -> (&'a mut O, Progress)
        ensures same_byte_sink { result.0.ghost_name ≡ self.entry.byte_sink.ghost_name }
        ensures written { result.0.now ≡ self.entry.byte_sink.now }
        ensures progress { result.1 ≡ self.entry.progress }
    {
        let DumpSink {
            alloc: _,
            design: _,
            byte_sink,
            progress,
        } = self;
        (byte_sink, progress)
    }
}

impl<'a, O: ByteSink> HistorySink for DumpSink<'a, O> {
    ghost use Rattle.vcd_text.specs.Sinks.{IsPassedOver, Takes, Fails, kept_in};
    ghost use Rattle.vcd_text.specs.SinkLaws.{takes_none, takes_joins, fails_after, fails_before, keeps_end, keeps_between};

    type Fault = OrMemory<O::Fault>;

    ghost takes = { Takes O.takes };

    ghost fails = { Fails O.takes O.fails };

    ghost kept = { kept_in };

    fn take(&mut self, items: &[Item]) -> Result<(), OrMemory<O::Fault>>
        ensures ok { OnOk result (Takes O.takes self.old items.now self.new) }
        ensures err { IfErr result (λ fault.
            Fails O.takes O.fails self.old items.now fault self.new) }
        ensures failed { OnErr result (self.new.progress ≡ Failed) }
        ensures passed { IsPassedOver self.old self.new }
        ensures once { OnErr result (self.old.progress ≢ Failed) }
    {
        if let Progress::Failed = &self.progress {
            return Ok(());
        }
        for item in items {
            match self.take_item(item) {
                Ok(()) => {}
                Err(fault) => {
                    self.progress = Progress::Failed;
                    return Err(fault);
                }
            }
        }
        Ok(())
    }

    fn take_end(
        &mut self,
        time: u64,
        values: &[Vec4],
        touched: &Touched,
    ) -> Result<(), OrMemory<O::Fault>>
        requires { ChangesOnlySince touched.now (kept_in self.old) values.now }
        ensures ok { OnOk result (Takes O.takes self.old (SlotEnd time values.now ∷ []) self.new) }
        ensures err { IfErr result (λ fault.
            Fails O.takes O.fails self.old (SlotEnd time values.now ∷ []) fault self.new) }
    {
        match self.end_slot(time, values, touched) {
            Ok(()) => Ok(()),
            Err(fault) => {
                self.progress = Progress::Failed;
                Err(fault)
            }
        }
    }

    fn keeps_values(&self) -> bool {
        match &self.progress {
            Progress::Started { .. } => true,
            Progress::Waiting(_) => false,
            Progress::Failed => false,
        }
    }

    fn is_full(&self) -> bool {
        self.byte_sink.is_full()
    }

    ghost none = { takes_none O.takes O.fails O.lawful };

    ghost joins = { takes_joins O.takes O.fails O.lawful };

    ghost fails_later = { fails_after O.takes O.fails O.lawful };

    ghost fails_before = { fails_before O.takes O.fails O.lawful };

    ghost keeps = { keeps_end O.takes };

    ghost keeps_on = { keeps_between O.takes };
}
