// All files that a call writes.

use crate::beside::try_file;
use crate::complaints::{Trouble, trouble_text};
use crate::identity::{is_no_file, is_read, is_standard_output, would_be_one};
use crate::output::{Output, Over};
use basis::NoMemory;
use shown_text::shown_name;
use std::alloc::Global;

/// Said where a file that is to be written would take the place of a source.
pub const OVER_SOURCE: &str = "a file that is to be written is a file of Verilog";

/// Said where it would take that of the waivers that are read.
pub const OVER_WAIVERS: &str = "a file that is to be written is the file of waivers that is read";

/// Said where it would take that of another.
pub const ONE_FOR_TWO: &str = "two files that are to be written have one name";

/// Said where `--vcd` would write over a file that the program didn't write.
pub const OVER_ANOTHER: &str =
    "the file of --vcd is there and is no dump of vrace's; --write-vcd writes over any file";

/// Why files aren't written.
#[derive(Drop)]
pub enum OutputFault {
    /// A growth was refused.
    Memory(NoMemory),
    /// The names can't be had, for this reason.
    Misnamed(&'static str),
    /// One can't be written: what is said of it and of the others.
    Unwritten(String),
}

impl From<NoMemory> for OutputFault {
    fn from(refused: NoMemory) -> OutputFault {
        OutputFault::Memory(refused)
    }
}

/// The files that a call writes, in the order in which they take their places.
pub struct Outputs<'a> {
    outputs: Vec<Output<'a>>,
}

impl<'a> Drop for Outputs<'a> {
    fn drop(self) {
        let Outputs { outputs: _ } = self;
    }
}

impl<'a> Outputs<'a> {
    /// None.
    pub fn new(alloc: Global) -> Outputs<'a> {
        Outputs {
            outputs: Vec::new(alloc),
        }
    }

    /// One more file, with its text, and what it may take the place of; where there is no text, a dump of the program that is there is
    /// to go.
    pub fn put(
        &mut self,
        name: &'a str,
        text: Option<Vec<u8>>,
        over: Over,
    ) -> Result<(), NoMemory> {
        self.outputs.push(Output::new(name, text, over))?;
        Ok(())
    }

    // Their names.
    fn names(&self, alloc: Global) -> Result<Vec<&'a str>, NoMemory> {
        let mut names = Vec::new(alloc);
        for output in &self.outputs {
            names.push(output.name)?;
        }
        Ok(names)
    }

    // Says of each file but this one what it is now.
    fn put_states(&self, text: &mut String, failed: &str) -> Result<(), NoMemory> {
        let mut between = "";
        for output in &self.outputs {
            if output.name != failed {
                let (alloc, state) = (*text.allocator(), output.state());
                let name = shown_name(alloc, output.name)?;
                let said = format!(in alloc; "{between}{name} {state}")?;
                text.push_str(said.as_str())?;
                between = ", ";
            }
        }
        if !between.is_empty() {
            text.push_str("\n")?;
        }
        Ok(())
    }

    // What is told where this file isn't written.
    fn told(&self, rt: &HostRuntime, name: &str, trouble: &Trouble) -> Result<String, NoMemory> {
        let mut text = trouble_text(rt, name, trouble)?;
        self.put_states(&mut text, name)?;
        Ok(text)
    }

    // Why this file isn't written.
    fn fault(&self, rt: &HostRuntime, name: &str, trouble: &Trouble) -> OutputFault {
        match self.told(rt, name, trouble) {
            Ok(words) => OutputFault::Unwritten(words),
            Err(refused) => OutputFault::Memory(refused),
        }
    }

    /// What is said where standard output fails: what each file is now. Nothing where there are none.
    pub fn unprinted_text(&self, alloc: Global) -> Result<String, NoMemory> {
        let mut text = String::new(alloc);
        if !self.outputs.is_empty() {
            text.push_str("standard output failed\n")?;
            self.put_states(&mut text, "")?;
        }
        Ok(text)
    }

    // Whether another one would be the same file as this one, or standard output is.
    fn has_another(&self, rt: &HostRuntime, name: &str) -> bool {
        for output in &self.outputs {
            if output.name != name && would_be_one(rt, output.name, name) {
                return true;
            }
        }
        is_standard_output(rt, name)
    }

    // Refuses this one where a folder or a device stands, or one of the files that are read, or where it is another one, too.
    fn look_at(&self, rt: &HostRuntime, name: &str, files: &[&str]) -> Result<(), OutputFault> {
        if is_no_file(rt, name) {
            return Err(self.fault(rt, name, &Trouble::NoFile));
        }
        if is_read(rt, name, files) {
            return Err(OutputFault::Misnamed(OVER_SOURCE));
        }
        if self.has_another(rt, name) {
            return Err(OutputFault::Misnamed(ONE_FOR_TWO));
        }
        Ok(())
    }

    /// Refuses a file where a folder or a device stands, or one of the files that are read, where there are none standard input; and two
    /// that are one.
    pub fn look(&self, rt: &HostRuntime, files: &[&str]) -> Result<(), OutputFault> {
        for output in &self.outputs {
            self.look_at(rt, output.name, files)?;
        }
        Ok(())
    }

    /// Refuses a file that can't be written.
    pub fn try_all(&self, rt: &HostRuntime) -> Result<(), OutputFault> {
        let names = self.names(rt.alloc())?;
        for output in &self.outputs {
            if let Err(trouble) = try_file(rt, output.name, &names) {
                return Err(self.fault(rt, output.name, &trouble));
            }
        }
        Ok(())
    }

    // Writes each text beside. Where one can't be written, its name is told.
    fn prepare(&mut self, rt: &HostRuntime, names: &[&str]) -> Result<(), (&'a str, Trouble)> {
        for output in &mut self.outputs {
            if let Err(trouble) = output.prepare(rt, names) {
                return Err((output.name, trouble));
            }
        }
        Ok(())
    }

    // Puts each in its place.
    fn take_places(&mut self, rt: &HostRuntime) -> Result<(), (&'a str, Trouble)> {
        for output in &mut self.outputs {
            if let Err(trouble) = output.take_place(rt) {
                return Err((output.name, trouble));
            }
        }
        Ok(())
    }

    // Removes what still stands beside.
    fn clear(&mut self, rt: &HostRuntime) {
        for output in &mut self.outputs {
            output.clear(rt);
        }
    }

    // Writes each text beside, and then puts each in its place.
    fn write_all(&mut self, rt: &HostRuntime, names: &[&str]) -> Result<(), (&'a str, Trouble)> {
        self.prepare(rt, names)?;
        self.take_places(rt)
    }

    /// Writes them. Where one can't be written, it is as it was, and so is each that hasn't taken its place yet.
    pub fn write(&mut self, rt: &HostRuntime) -> Result<(), OutputFault> {
        let names = self.names(rt.alloc())?;
        match self.write_all(rt, &names) {
            Ok(()) => Ok(()),
            Err((name, trouble)) => {
                self.clear(rt);
                Err(self.fault(rt, name, &trouble))
            }
        }
    }
}
