// The text of a report, with the dump of each end.

ghost use Rattle.std.specs.Prelude.{◌≡◌, ℕ, List, OnOk, IfOk, IfErr};
ghost use Rattle.byte_sinks.specs.ByteSinks.{Stopped};
ghost use Rattle.report_text.specs.WellFormed.{Each};
ghost use Rattle.report_text.specs.ReportText.{line_races_part, line_races_text, races_text};
ghost use Rattle.vreport.specs.Ends.{HasBytes};
ghost use Rattle.vreport.specs.Dumps.{StopsDump, TakesDump};
ghost use Rattle.vreport.specs.Formed.{IsFormed};
ghost use Rattle.vreport.specs.Written.{AreHeld, IsHeld, StopsEnd, StopsEnds, StopsReport, TakesEnd, TakesEnds, TakesReadable, TakesReport, TakesWhatWasRead};

use crate::dump::write_dump;
use basis::{NoMemory, OrMemory};
use byte_sinks::{ByteSink, HeldText, put};
use report_text::{
    Column, End, LineRace, Race, Report, end_lines, head_lines, line_race_count_line,
    line_race_lines, race_count_line, race_lines,
};
use sched_core::setting::Looked;
use std::alloc::Global;
use vmachine::Machine;

// Hands on a text that was made, unless memory was refused for it.
fn put_made<O: ByteSink>(
    byte_sink: &mut O,
    made: Result<Vec<u8>, NoMemory>,
) -> Result<(), OrMemory<O::Fault>>
    ensures ok { (text : List ℕ) → IfOk made (λ lines. lines.items ≡ text) →
        OnOk result (O.takes byte_sink.old text byte_sink.new) }
    ensures err { (text : List ℕ) → IfOk made (λ lines. lines.items ≡ text) →
        IfErr result (λ fault. Stopped O.takes O.fails byte_sink.old text fault byte_sink.new) }
{
    match made {
        Ok(lines) => put(byte_sink, &lines),
        Err(refused) => Err(OrMemory::Memory(refused)),
    }
}

// The dump of an end: the one that is held, or else made again.
fn put_dump<O: ByteSink>(
    alloc: Global,
    machine: &Machine,
    steps: u32,
    end: &End,
    held: &Option<HeldText>,
    byte_sink: &mut O,
) -> Result<(), OrMemory<O::Fault>>
    requires bytes { HasBytes machine.now steps end.now }
    requires held { IsHeld machine.now steps end.now held.now }
    ensures ok { OnOk result
        (TakesDump O.takes machine.now end.now.log steps byte_sink.old byte_sink.new) }
    ensures err { IfErr result (λ fault.
        StopsDump O.takes O.fails machine.now end.now.log steps byte_sink.old fault byte_sink.new) }
{
    match held {
        Some(dump) => put(byte_sink, dump.text()),
        None => write_dump(alloc, machine, &end.log, steps, byte_sink),
    }
}

// An end, and its dump behind it.
fn put_end<O: ByteSink>(
    alloc: Global,
    machine: &Machine,
    steps: u32,
    end: &End,
    held: &Option<HeldText>,
    byte_sink: &mut O,
) -> Result<(), OrMemory<O::Fault>>
    requires bytes { HasBytes machine.now steps end.now }
    requires held { IsHeld machine.now steps end.now held.now }
    ensures ok { OnOk result (TakesEnd O.takes machine.now steps end.now byte_sink.old byte_sink.new) }
    ensures err { IfErr result (λ fault.
        StopsEnd O.takes O.fails machine.now steps end.now byte_sink.old fault byte_sink.new) }
{
    put_made(byte_sink, end_lines(alloc, end))?;
    put_dump(alloc, machine, steps, end, held, byte_sink)
}

// The ends, each with its dump.
fn put_ends<O: ByteSink>(
    alloc: Global,
    machine: &Machine,
    steps: u32,
    ends: &[End],
    held: &[Option<HeldText>],
    byte_sink: &mut O,
) -> Result<(), OrMemory<O::Fault>>
    requires bytes { Each (HasBytes machine.now steps) ends.now }
    requires held { AreHeld machine.now steps ends.now held.now }
    ensures ok { OnOk result (TakesEnds O.takes machine.now steps ends.now byte_sink.old byte_sink.new) }
    ensures err { IfErr result (λ fault.
        StopsEnds O.takes O.fails machine.now steps ends.now byte_sink.old fault byte_sink.new) }
{
    for place in 0..ends.len() {
        put_end(alloc, machine, steps, &ends[place], &held[place], byte_sink)?;
    }
    Ok(())
}

// The races, one at a time.
fn put_races<O: ByteSink>(
    alloc: Global,
    columns: &[Column],
    races: &[Race],
    byte_sink: &mut O,
) -> Result<(), OrMemory<O::Fault>>
    ensures ok { OnOk result (O.takes byte_sink.old (races_text columns.now races.now) byte_sink.new) }
    ensures err { IfErr result (λ fault.
        Stopped O.takes O.fails byte_sink.old (races_text columns.now races.now) fault byte_sink.new) }
{
    for race in races {
        put_made(byte_sink, race_lines(alloc, columns, race))?;
    }
    Ok(())
}

// The races of lines, one at a time.
fn put_line_races<O: ByteSink>(
    alloc: Global,
    races: &[LineRace],
    byte_sink: &mut O,
) -> Result<(), OrMemory<O::Fault>>
    ensures ok { OnOk result (O.takes byte_sink.old (line_races_text races.now) byte_sink.new) }
    ensures err { IfErr result (λ fault.
        Stopped O.takes O.fails byte_sink.old (line_races_text races.now) fault byte_sink.new) }
{
    for race in races {
        put_made(byte_sink, line_race_lines(alloc, race))?;
    }
    Ok(())
}

// The last part of a report, where lines are looked at: the count of the races of lines, and these.
fn put_lines_part<O: ByteSink>(
    alloc: Global,
    report: &Report,
    byte_sink: &mut O,
) -> Result<(), OrMemory<O::Fault>>
    ensures ok { OnOk result
        (O.takes byte_sink.old (line_races_part report.now.looked report.now.line_races) byte_sink.new) }
    ensures err { IfErr result (λ fault.
        Stopped O.takes O.fails byte_sink.old (line_races_part report.now.looked report.now.line_races) fault byte_sink.new) }
{
    if let Looked::Values = report.looked {
        return Ok(());
    }
    put_made(byte_sink, line_race_count_line(alloc, report))?;
    put_line_races(alloc, &report.line_races, byte_sink)
}

/// Writes the text of a report to the byte sink, and after each end its dump: the one that is held, else that of the run under
/// its log, which is run again and written slot by slot. E901 where memory was refused; else a fault is the byte sink's. Then a
/// front of the text stands written.
///
/// The text of a well-formed report can be read again, as that report. A report that was read, with dumps that are those of its
/// runs, is written as it was read, byte for byte.
pub fn write_report<O: ByteSink>(
    alloc: Global,
    machine: &Machine,
    report: &Report,
    held: &[Option<HeldText>],
    byte_sink: &mut O,
) -> Result<(), OrMemory<O::Fault>>
    requires bytes { Each (HasBytes machine.now report.now.steps) report.now.ends }
    requires held { AreHeld machine.now report.now.steps report.now.ends held.now }
    ensures ok { OnOk result (TakesReport O.takes machine.now report.now byte_sink.old byte_sink.new) }
    ensures err { IfErr result (λ fault.
        StopsReport O.takes O.fails machine.now report.now byte_sink.old fault byte_sink.new) }
    ensures readable { IsFormed machine.now report.now →
        OnOk result (TakesReadable O.takes machine.now report.now byte_sink.old byte_sink.new) }
    ensures as_read { OnOk result
        (TakesWhatWasRead O.takes machine.now report.now byte_sink.old byte_sink.new) }
{
    put_made(byte_sink, head_lines(alloc, report))?;
    put_ends(alloc, machine, report.steps, &report.ends, held, byte_sink)?;
    put_made(byte_sink, race_count_line(alloc, report))?;
    put_races(alloc, &report.variables, &report.races, byte_sink)?;
    put_lines_part(alloc, report, byte_sink)
}
