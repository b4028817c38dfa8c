// The dump commands of a slot that runs (18.1).

ghost use Rattle.std.specs.Prelude.{◌≡◌, ◌++◌, ◌∷◌, [], OnOk};
ghost use Rattle.vcd_text.specs.DumpText.{has_start, is_start, on_after, on_by};

use basis::NoMemory;
use std::alloc::Global;
use std::marker::Model;
use vdesign::dump::DumpCommand;

/// The dump commands of a slot, in the order of their steps. A clause sees their list.
#[derive(Drop)]
pub struct Commands {
    list: Vec<DumpCommand>,
}

impl Model for Commands {
    ghost use Rattle.std.specs.Prelude.{List};
    ghost use Rattle.vdesign.specs.declared.dump.DumpCommand.{DumpCommand};

    ghost Value = { List DumpCommand };

    ghost view = { λ commands. commands.list.items };
}

// Whether a command starts a dump.
fn is_start(command: DumpCommand) -> bool
    ensures { result ≡ is_start command }
{
    match command {
        DumpCommand::Vars(_) => true,
        DumpCommand::Off => false,
        DumpCommand::On => false,
        DumpCommand::All => false,
    }
}

/// Whether a dump is on after a command.
pub(crate) fn on_by(on: bool, command: DumpCommand) -> bool
    ensures { result ≡ on_by on command }
{
    match command {
        DumpCommand::Vars(_) => on,
        DumpCommand::Off => false,
        DumpCommand::On => true,
        DumpCommand::All => on,
    }
}

impl Commands {
    /// None.
    pub(crate) fn new(alloc: Global) -> Commands
        ensures { result ≡ [] }
    {
        Commands {
            list: Vec::new(alloc),
        }
    }

    /// One more.
    pub(crate) fn push(&mut self, command: DumpCommand) -> Result<(), NoMemory>
        ensures { OnOk result (self.new ≡ self.old ++ command ∷ []) }
    {
        self.list.push(command)?;
        Ok(())
    }

    /// None any more.
    pub(crate) fn clear(&mut self)
        ensures { self.new ≡ [] }
    {
        self.list.clear();
    }

    /// The commands, as a list.
    pub(crate) fn as_slice(&self) -> &[DumpCommand]
        ensures { result.now ≡ self.now }
    {
        &self.list
    }
}

/// Whether one of them starts a dump.
pub(crate) fn have_start(commands: &[DumpCommand]) -> bool
    ensures { result ≡ has_start commands.now }
{
    for command in commands {
        if is_start(*command) {
            return true;
        }
    }
    false
}

/// Whether a dump is on after them.
pub(crate) fn on_after(on: bool, commands: &[DumpCommand]) -> bool
    ensures { result ≡ on_after on commands.now }
{
    let mut is_on = on;
    for command in commands {
        is_on = on_by(is_on, *command);
    }
    is_on
}
