// The dump of a whole history, written at once.

ghost use Rattle.std.specs.Prelude.{◌≡◌, [], OnOk, IfErr};
ghost use Rattle.vcd_text.specs.DumpText.{vcd};
ghost use Rattle.byte_sinks.specs.Metered.{Grows, Stops};
ghost use Rattle.vcd_text.specs.declared.progress.Progress.TheVariants.{Waiting};
ghost use Rattle.vcd_text.specs.Sinks.{IsSameDump, TakesDump, FailsDump};

use basis::OrMemory;
use byte_sinks::{ByteSink, Metered, WriteFault};
use std::alloc::Global;
use std::io::Write;
use vcd_text::DumpSink;
use vdesign::design::Design;
use vmodel::history::History;
use vmodel::sink::HistorySink;

// A whole history into a fresh sink.
fn fill<O: ByteSink>(
    sink: &mut DumpSink<'_, O>,
    history: &History,
) -> Result<(), OrMemory<O::Fault>>
    requires { sink.old.progress ≡ Waiting [] }
    ensures same { IsSameDump sink.old sink.new }
    ensures ok { OnOk result (TakesDump O.takes sink.old history.now sink.new) }
    ensures err { IfErr result (λ fault.
        FailsDump O.takes O.fails sink.old history.now fault sink.new) }
{
    match sink.take(&history.items) {
        Ok(()) => sink.finish(&history.end),
        Err(fault) => Err(fault),
    }
}

/// Writes the dump of a history of a design, its `vcd` (18.2; docs/FORMATS.md, "Dumps"); without a start no byte. After a fault a
/// prefix of it stands written. E901, and E902 only where the writer failed in this call.
pub fn write_vcd<W: Write>(
    alloc: Global,
    design: &Design,
    history: &History,
    writer: &mut Metered<W>,
) -> Result<(), OrMemory<WriteFault>>
    ensures ok { OnOk result (
        Grows W.contents writer.old writer.new (vcd design.now history.now)) }
    ensures err { IfErr result (
        Stops W.contents writer.old writer.new (vcd design.now history.now)) }
{
    let mut sink = DumpSink::new(alloc, design, writer);
    let result = fill(&mut sink, history);
    let writer = sink.into_byte_sink();
    // No effect at run time. The proof reads what the writer holds from this use.
    let _ = &*writer;
    result
}
