// How far a dump has come, and what a slot end adds to it (18.2.1).

ghost use Rattle.std.specs.Prelude.{◌≡◌, ◌++◌, [], ◌∷◌, List, ℕ, IfOk, OnOk, codes, true, false};
ghost use Rattle.vcd_text.specs.DumpText.{all_lines, changed_part, command_part, command_parts, line, parts_text, time_line};
ghost use Rattle.vcd_text.specs.Sinks.{last_line, slot_text, IsStart};
ghost use Rattle.vmodel.specs.Touched.{ChangesOnly};

use crate::commands::{Commands, on_by};
use crate::listed::put_listed_changes;
use crate::selected::Marks;
use crate::values::{put_blanks, put_changes, put_values};
use basis::NoMemory;
use itoa::Buffer;
use std::alloc::Global;
use vbits::Vec4;
use vdesign::dump::DumpCommand;
use vmodel::touched::Touched;
use vmodel::values::Values;

/// How far a dump has come.
#[derive(Drop)]
pub enum Progress {
    /// No slot with a `$dumpvars` has ended; the commands of the slot that runs.
    Waiting(Commands),
    /// The last time line; whether the slots that ended left the dump on; for each variable whether it is selected; the values at the
    /// end of the last slot; the commands of the slot that runs.
    Started {
        last: u64,
        on: bool,
        marks: Marks,
        values: Values,
        commands: Commands,
    },
    /// A text failed: nothing more is written.
    Failed,
}

// Room for the time and a few values, so that a slot's text seldom grows.
const ROOM: usize = 64;

// The line of a time.
pub(crate) fn line_of(alloc: Global, time: u64) -> Result<Vec<u8>, NoMemory>
    ensures { IfOk result (λ text. text.items ≡ time_line time) }
{
    let mut number = Buffer::new();
    let mut text = Vec::with_capacity(alloc, ROOM)?;
    text.push(b'#')?;
    text.extend_from_slice(number.format(time).as_bytes())?;
    text.push(b'\n')?;
    Ok(text)
}

// All values, behind the line of a command.
fn put_listed(
    alloc: Global,
    text: &mut Vec<u8>,
    front: &[u8],
    marks: &[bool],
    values: &[Vec4],
) -> Result<(), NoMemory>
    ensures { OnOk result (text.new.items
        ≡ text.old.items ++ (front.now ++ all_lines marks.now values.now ++ line (codes "$end"))) }
{
    text.extend_from_slice(front)?;
    put_values(alloc, text, marks, values)?;
    text.extend_from_slice(b"$end\n")?;
    Ok(())
}

// All values as x: the dump goes off (18.1.3).
fn put_off(
    alloc: Global,
    text: &mut Vec<u8>,
    marks: &[bool],
    values: &[Vec4],
) -> Result<(), NoMemory>
    ensures { OnOk result (text.new.items
        ≡ text.old.items ++ parts_text (command_part marks.now true DumpCommand.Off values.now)) }
{
    text.extend_from_slice(b"$dumpoff\n")?;
    put_blanks(alloc, text, marks, values)?;
    text.extend_from_slice(b"$end\n")?;
    Ok(())
}

// All values: the dump goes on (18.1.3).
fn put_on(
    alloc: Global,
    text: &mut Vec<u8>,
    marks: &[bool],
    values: &[Vec4],
) -> Result<(), NoMemory>
    ensures { OnOk result (text.new.items
        ≡ text.old.items ++ parts_text (command_part marks.now false DumpCommand.On values.now)) }
{
    put_listed(alloc, text, b"$dumpon\n", marks, values)
}

// All values of a dump that is on (18.1.4).
fn put_all(
    alloc: Global,
    text: &mut Vec<u8>,
    marks: &[bool],
    values: &[Vec4],
) -> Result<(), NoMemory>
    ensures { OnOk result (text.new.items
        ≡ text.old.items ++ parts_text (command_part marks.now true DumpCommand.All values.now)) }
{
    put_listed(alloc, text, b"$dumpall\n", marks, values)
}

// What a command lists, of a dump that is on or off.
fn put_command(
    alloc: Global,
    text: &mut Vec<u8>,
    marks: &[bool],
    on: bool,
    command: DumpCommand,
    values: &[Vec4],
) -> Result<(), NoMemory>
    ensures { OnOk result (text.new.items
        ≡ text.old.items ++ parts_text (command_part marks.now on command values.now)) }
{
    match command {
        DumpCommand::Vars(_) => Ok(()),
        DumpCommand::Off => {
            if on {
                put_off(alloc, text, marks, values)
            } else {
                Ok(())
            }
        }
        DumpCommand::On => {
            if on {
                Ok(())
            } else {
                put_on(alloc, text, marks, values)
            }
        }
        DumpCommand::All => {
            if on {
                put_all(alloc, text, marks, values)
            } else {
                Ok(())
            }
        }
    }
}

// What the commands of a slot list, in order.
fn put_commands(
    alloc: Global,
    text: &mut Vec<u8>,
    marks: &[bool],
    on: bool,
    commands: &[DumpCommand],
    values: &[Vec4],
) -> Result<(), NoMemory>
    ensures { OnOk result (text.new.items
        ≡ text.old.items ++ parts_text (command_parts marks.now on commands.now values.now)) }
{
    let mut is_on = on;
    for command in commands {
        put_command(alloc, text, marks, is_on, *command, values)?;
        is_on = on_by(is_on, *command);
    }
    Ok(())
}

// The values that changed, of a dump that is on, where only such variables may have.
fn put_changed(
    alloc: Global,
    text: &mut Vec<u8>,
    marks: &[bool],
    on: bool,
    old: &[Vec4],
    new: &[Vec4],
    touched: &Touched,
) -> Result<(), NoMemory>
    requires { ChangesOnly touched.now old.now new.now }
    ensures { OnOk result (text.new.items
        ≡ text.old.items ++ parts_text (changed_part marks.now on old.now new.now)) }
{
    if !on {
        return Ok(());
    }
    match touched.listed() {
        None => put_changes(alloc, text, marks, old, new),
        Some(variables) => put_listed_changes(alloc, text, marks, old, new, variables),
    }
}

// What the first slot end adds below the header.
pub(crate) fn first_text(
    alloc: Global,
    marks: &[bool],
    commands: &[DumpCommand],
    time: u64,
    values: &[Vec4],
) -> Result<Vec<u8>, NoMemory>
    ensures { IfOk result (λ text. IsStart text.items marks.now commands.now time values.now) }
{
    let mut text = line_of(alloc, time)?;
    put_listed(alloc, &mut text, b"$dumpvars\n", marks, values)?;
    put_commands(alloc, &mut text, marks, true, commands, values)?;
    Ok(text)
}

// What a later slot end adds, where only such variables may have changed.
pub(crate) fn later_text(
    alloc: Global,
    time: u64,
    on: bool,
    marks: &[bool],
    old: &[Vec4],
    commands: &[DumpCommand],
    new: &[Vec4],
    touched: &Touched,
) -> Result<Vec<u8>, NoMemory>
    requires { ChangesOnly touched.now old.now new.now }
    ensures { IfOk result (λ text.
        text.items ≡ slot_text time on marks.now old.now commands.now new.now) }
{
    let mut text = line_of(alloc, time)?;
    let start = text.len();
    put_changed(alloc, &mut text, marks, on, old, new, touched)?;
    put_commands(alloc, &mut text, marks, on, commands, new)?;
    if text.len() == start {
        text.clear();
    }
    Ok(text)
}

// The last time line, once this text has been written at a time.
pub(crate) fn line_after(last: u64, time: u64, text: &[u8]) -> u64
    ensures { result ≡ last_line last time text.now }
{
    if text.is_empty() { last } else { time }
}
