// The dumps that are compared, as files.

ghost use Rattle.std.specs.Counts.{IsPrefixLen};
ghost use Rattle.std.specs.Prelude.{IfOk};

use basis::{NoMemory, OrMemory};
use byte_sinks::Metered;
use command_line::DumpWords;
use dump_match::DumpReference;
use program_base::{Stop, refused_open};
use scope_names::{RenamedDump, Renaming, renaming_of};
use std::alloc::Global;
use std::fs::File;
use std::io;
use std::io::Read;
use vcd_read::{VcdFault, VcdFlaw};
use vmachine::Machine;
use vrace::Fault;

// Said of a value of `--scope` that names no two scopes.
const SCOPES: &str =
    "--scope takes a scope of the dump, =, and one of the files, as tb.dut=fifo_driven.dut";

/// The file of a dump: as it is, or with one scope read under another path.
#[derive(Drop)]
pub(crate) enum DumpFile {
    Plain(File),
    Renamed(RenamedDump),
}

impl Read for DumpFile {
    fn read(&mut self, buf: &mut [u8]) -> io::Result<usize> {
        match self {
            DumpFile::Plain(file) => file.read(buf),
            DumpFile::Renamed(dump) => dump.read(buf),
        }
    }
}

/// A dump that runs of a machine are compared with.
pub(crate) type OpenDump<'m> = DumpReference<'m, DumpFile>;

/// What ends a call with two dumps early: in the line of this number, from 1, the text of the second one stops being a dump; or what else
/// does.
pub(crate) enum PairStop {
    BadSecond(u64, VcdFlaw),
    Other(Stop),
}

impl Drop for PairStop {
    fn drop(self) {
        match self {
            PairStop::BadSecond(_, _) => {}
            PairStop::Other(_) => {}
        }
    }
}

impl PairStop {
    /// The line of the second dump, and what is wrong there; or what else it is.
    pub(crate) fn of_line(self) -> Result<(u64, VcdFlaw), Stop> {
        match self {
            PairStop::BadSecond(line, flaw) => Ok((line, flaw)),
            PairStop::Other(stop) => Err(stop),
        }
    }
}

impl From<Stop> for PairStop {
    fn from(stop: Stop) -> PairStop {
        PairStop::Other(stop)
    }
}

impl From<NoMemory> for PairStop {
    fn from(refused: NoMemory) -> PairStop {
        PairStop::Other(Stop::from(refused))
    }
}

impl From<Fault> for PairStop {
    fn from(fault: Fault) -> PairStop {
        PairStop::Other(Stop::Refused(fault))
    }
}

/// What is so of the second dump.
pub(crate) fn of_second(stop: Stop) -> PairStop {
    let flaw = match &stop {
        Stop::BadDump(line, flaw) => Some((*line, *flaw)),
        _ => None,
    };
    match flaw {
        Some((line, flaw)) => PairStop::BadSecond(line, flaw),
        None => PairStop::Other(stop),
    }
}

/// What stops the reading of a dump.
pub(crate) fn refused_dump(fault: OrMemory<VcdFault>) -> Stop {
    match fault {
        OrMemory::Memory(_) => Stop::NoMemory,
        OrMemory::Fault(VcdFault::NoDump { line, flaw }) => Stop::BadDump(line, flaw),
        OrMemory::Fault(VcdFault::TooLong) => Stop::Refused(Fault::TooLong),
        OrMemory::Fault(VcdFault::Read) => Stop::Refused(Fault::Read),
    }
}

/// Which scope of the dump is read as which of the files.
pub(crate) fn renaming_by(alloc: Global, words: DumpWords<'_>) -> Result<Option<Renaming>, Stop> {
    match words.scope {
        None => Ok(None),
        Some(word) => match renaming_of(alloc, word)? {
            None => Err(Stop::Usage(SCOPES)),
            renaming => Ok(renaming),
        },
    }
}

// The file of the dump.
fn open_file(rt: &HostRuntime, words: DumpWords<'_>) -> Result<DumpFile, Stop> {
    let renaming = renaming_by(rt.alloc(), words)?;
    let file = match File::open(rt, words.dump) {
        Ok(file) => file,
        Err(error) => return Err(refused_open(rt.alloc(), words.dump, &error)),
    };
    Ok(match renaming {
        None => DumpFile::Plain(file),
        renaming => DumpFile::Renamed(RenamedDump::new(rt.alloc(), file, renaming)),
    })
}

/// The machine of the files, and whether a timescale stands in these: a dump of others counts in a unit of its own.
#[derive(Clone, Copy)]
pub(crate) struct Subject<'m> {
    pub(crate) machine: &'m Machine,
    pub(crate) timed: bool,
}

/// The dump that is compared, of which nothing is shown yet.
pub(crate) fn open_dump<'m>(
    rt: &HostRuntime,
    subject: Subject<'m>,
    words: DumpWords<'_>,
) -> Result<OpenDump<'m>, Stop> {
    let file = open_file(rt, words)?;
    let Subject { machine, timed } = subject;
    match DumpReference::open(rt.alloc(), machine, timed, Metered::new(file)) {
        Ok(reference) => Ok(reference),
        Err(fault) => Err(refused_dump(fault)),
    }
}
