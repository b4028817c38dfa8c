// A file that is read so.

ghost use Rattle.std.specs.Counts.{IsPrefixLen};
ghost use Rattle.std.specs.Prelude.{IfOk};

use crate::declaration::Declarations;
use crate::paths::Renaming;
use basis::NoMemory;
use std::alloc::Global;
use std::fs::File;
use std::io;
use std::io::Read;

// The most bytes of one read.
const PIECE: usize = 65_536;

/// A dump in which one scope is read under another path: what is to be handed on, and how much of it was.
#[derive(Drop)]
pub struct RenamedDump {
    file: File,
    declarations: Declarations,
    out: Vec<u8>,
    given: usize,
}

// Want of memory, as a failure of a reader.
fn failed(_: NoMemory) -> io::Error {
    io::Error::from(io::ErrorKind::OutOfMemory)
}

impl RenamedDump {
    /// The dump in this file; where nothing is renamed it is as it is.
    pub fn new(alloc: Global, file: File, renaming: Option<Renaming>) -> RenamedDump {
        RenamedDump {
            file,
            declarations: Declarations::new(alloc, renaming),
            out: Vec::new(alloc),
            given: 0,
        }
    }

    // Whether all was handed on.
    fn is_empty(&self) -> bool {
        self.given >= self.out.len()
    }

    // Hands on what there is.
    fn give(&mut self, buf: &mut [u8]) -> io::Result<usize>
        ensures { IfOk result (λ n. IsPrefixLen n buf.new) }
    {
        let mut rest = self.out.split_at(self.given.min(self.out.len())).1;
        let count = rest.read(buf)?;
        self.given = self.given.saturating_add(count);
        Ok(count)
    }

    // What was read, as it is handed on; nothing is the end.
    fn put(&mut self, bytes: &[u8]) -> Result<(), NoMemory> {
        self.out.clear();
        self.given = 0;
        if bytes.is_empty() {
            return self.declarations.finish(&mut self.out);
        }
        self.declarations.read(&mut self.out, bytes)
    }

    // Reads declarations until something is to be handed on, or they are done.
    fn fill(&mut self) -> io::Result<()> {
        let mut piece = [0; PIECE];
        for _ in 0..u64::MAX {
            if !self.is_empty() || self.declarations.is_done {
                return Ok(());
            }
            let count = self.file.read(&mut piece)?;
            if let Err(refused) = self.put(piece.split_at(count.min(PIECE)).0) {
                return Err(failed(refused));
            }
        }
        Ok(())
    }
}

impl Read for RenamedDump {
    fn read(&mut self, buf: &mut [u8]) -> io::Result<usize> {
        if self.is_empty() {
            self.fill()?;
        }
        if self.is_empty() {
            return self.file.read(buf);
        }
        self.give(buf)
    }
}
