// The processes of a testbench.

use crate::driven::{Change, DrivenPort, Role};
use crate::head::put_number_of;
use crate::names::put_name;
use crate::whole::{MOST_BYTES, TextFault};
use basis::NoMemory;
use race_words::{Piece, put, put_all};

// The most units of a delay that a plain number of 32 bits writes.
const PLAIN: u64 = 2_147_483_647;

/// A process that is being written: the inputs whose changes stand in it, the time that it has come to, and the first one. What an input of its
/// own process is worth at the first time is posted: at time 0 an edge by `=` would race with the processes that begin to wait for it.
#[derive(Clone, Copy)]
pub(crate) struct Process {
    /// None: those of clocks and those that are posted. Some: those of the port at this place.
    pub alone: Option<usize>,
    pub time: u64,
    pub first: u64,
}

// So many units, in front of a statement.
fn put_delay(text: &mut Vec<u8>, units: u64) -> Result<(), NoMemory> {
    if units == 0 {
        return Ok(());
    }
    if units <= PLAIN {
        return put_all(
            text,
            &[Piece::Bytes(b"#"), Piece::Number(units), Piece::Bytes(b" ")],
        );
    }
    put_all(
        text,
        &[
            Piece::Bytes(b"#(64'd"),
            Piece::Number(units),
            Piece::Bytes(b") "),
        ],
    )
}

impl Process {
    // Whether a change of the port at this place, which has this role, stands in it.
    fn has(&self, place: usize, role: Role) -> bool {
        match self.alone {
            None => role != Role::Alone,
            Some(alone) => alone == place,
        }
    }

    // What stands between an input of this role and its value at this time.
    fn sign(&self, role: Role, time: u64) -> &'static [u8] {
        if role == Role::Posted || role == Role::Alone && time == self.first {
            b" <= "
        } else {
            b" = "
        }
    }

    // The statement that makes this change.
    fn put_change(
        &mut self,
        text: &mut Vec<u8>,
        port: &DrivenPort,
        change: &Change,
    ) -> Result<(), NoMemory> {
        put(text, b"    ")?;
        put_delay(text, change.time.saturating_sub(self.time))?;
        put_name(text, &port.name)?;
        put(text, self.sign(port.role, change.time))?;
        put_number_of(text, change.value)?;
        self.time = change.time;
        put(text, b";\n")
    }

    // The next change, where it stands in this process.
    fn take(
        &mut self,
        text: &mut Vec<u8>,
        ports: &[DrivenPort],
        change: &Change,
    ) -> Result<(), NoMemory> {
        match ports.get(change.port) {
            Some(port) if self.has(change.port, port.role) => self.put_change(text, port, change),
            _ => Ok(()),
        }
    }

    /// Puts the statements of all changes that stand in it, in their order.
    pub(crate) fn put_changes(
        &mut self,
        text: &mut Vec<u8>,
        ports: &[DrivenPort],
        changes: &[Change],
    ) -> Result<(), TextFault> {
        for change in changes {
            self.take(text, ports, change)?;
            if text.len() > MOST_BYTES {
                return Err(TextFault::TooLong);
            }
        }
        Ok(())
    }

    /// Puts the end of the run, a unit behind this time.
    pub(crate) fn put_finish(&self, text: &mut Vec<u8>, last: u64) -> Result<(), NoMemory> {
        put(text, b"    ")?;
        put_delay(text, last.saturating_sub(self.time).saturating_add(1))?;
        put(text, b"$finish;\n")
    }
}
