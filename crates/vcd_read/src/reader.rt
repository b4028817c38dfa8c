// A dump from a reader: its variables, and then item by item.

ghost use Rattle.std.specs.Prelude.{◌≡◌, ◌∷◌, [], ◌<◌, false, List, None, IfOk, IfSome, IfNone};
ghost use Rattle.vcd_read.specs.Words.{Text};
ghost use Rattle.vcd_read.specs.Bytes.{left, AreAll, IsReady, Come};
ghost use Rattle.vcd_read.specs.Codes.{IsDeclaredIn};
ghost use Rattle.vcd_read.specs.Commands.{Tells};
ghost use Rattle.vcd_read.specs.Declarations.{Declares};
ghost use Rattle.vcd_read.specs.Declaring.{all_seen};
ghost use Rattle.vcd_read.specs.Telling.{Tell, item_of};
ghost use Rattle.vcd_read.specs.Faults.{IsNoDump};
ghost use Rattle.vcd_read.specs.Readers.{IsOpen, bytes_left, to_come};

use crate::bytes::ByteReader;
use crate::codes::Codes;
use crate::commands::Commands;
use crate::fault::{VcdFault, VcdFlaw};
use crate::header::{Header, VcdVariable};
use crate::item::VcdItem;
use crate::words::WordReader;
use basis::{OrMemory, Span};
use byte_sinks::Metered;
use std::alloc::Global;
use std::io::Read;

/// A dump whose declarations were read, and what is to come of it.
#[derive(Drop)]
pub struct VcdReader<R> {
    commands: Commands<R>,
    unit: Option<Span>,
    variables: Vec<VcdVariable>,
    codes: Codes,
}

impl<R: Read + Drop> VcdReader<R> {
    /// The dump of a reader, of which the declarations are read (18.2.3). E505 with its line where they are none or end early, E903 where
    /// the reader fails, E901.
    pub fn open(alloc: Global, reader: Metered<R>) -> Result<VcdReader<R>, OrMemory<VcdFault>>
        ensures open { IfOk result (λ dump. IsOpen dump) }
        ensures outside { IfOk result (λ dump. dump.commands.inside ≡ false) }
        ensures declared { IfOk result (λ dump. (words : List Text) × Come words (R.remaining reader.inner) (to_come R.remaining dump)
            × Declares None [] [] words dump.unit (all_seen dump.variables.items)) }
    {
        let mut words = WordReader::new(alloc, ByteReader::new(alloc, reader)?);
        let header = Header::read(alloc, &mut words)?;
        let codes = Codes::of(alloc, &header.variables)?;
        Ok(VcdReader {
            commands: Commands::new(words),
            unit: header.unit,
            variables: header.variables,
            codes,
        })
    }

    /// The variables that are declared, in their order.
    pub fn variables(&self) -> &[VcdVariable]
        ensures { result.now ≡ self.now.variables.items }
    {
        &self.variables
    }

    /// The unit of its times, if it is declared (18.2.3.5).
    pub fn unit(&self) -> Option<Span>
        ensures { result ≡ self.now.unit }
    {
        self.unit
    }

    /// The next item; none at the end of the dump. E505 with its line where the text stops being a dump, E903 where the reader fails, E901.
    pub fn next(&mut self, alloc: Global) -> Result<Option<VcdItem>, OrMemory<VcdFault>>
        requires { IsOpen self.old }
        ensures open { IsOpen self.new }
        ensures item { IfOk result (λ told. IfSome told (λ item. (words : List Text)
            × Come words (to_come R.remaining self.old) (to_come R.remaining self.new)
            × Tell words self.old.commands.inside self.new.commands.inside (item_of item ∷ []))) }
        ensures end { IfOk result (λ told. IfNone told ((words : List Text)
            × AreAll words (to_come R.remaining self.old) (to_come R.remaining self.new) × Tells self.old.commands.inside words [])) }
        ensures declared { IfOk result (λ told. IfSome told (λ item. IsDeclaredIn self.old.variables.items (item_of item))) }
        ensures variables { self.new.variables ≡ self.old.variables }
        ensures unit { self.new.unit ≡ self.old.unit }
        ensures ends { IfOk result (λ told. IfSome told (λ _. bytes_left self.new < bytes_left self.old)) }
    {
        let Some(item) = self.commands.next(alloc)? else {
            return Ok(None);
        };
        if !self.codes.have(&self.variables, &item) {
            return Err(self.commands.no_dump(VcdFlaw::Code));
        }
        Ok(Some(item))
    }

    /// What the items tell, up to the last one, isn't told by a dump, for this reason: E505 with the line that has been come to.
    pub fn no_dump(&self, flaw: VcdFlaw) -> OrMemory<VcdFault>
        ensures { IsNoDump flaw result }
    {
        self.commands.no_dump(flaw)
    }
}
