// What a testbench drives.

use basis::Timescale;
use vbits::Vec4;

/// What a testbench makes of a port.
#[derive(Clone, Copy, PartialEq, Eq)]
pub enum Role {
    /// An output, which a net takes.
    Output,
    /// An input that is written by `=`, before the others of its time.
    Clock,
    /// An input that is written by `=` in a process of its own.
    Alone,
    /// An input that is written by `<=`.
    Posted,
}

/// A port of the module.
#[derive(Drop)]
pub struct DrivenPort {
    /// Its name, without the backslash of an escaped one.
    pub name: Vec<u8>,
    /// How many bits it has, 1 to 64.
    pub width: u32,
    pub role: Role,
    /// What its variable is declared with, if with anything.
    pub start: Option<Vec4>,
}

/// A parameter of the module, and its value as it is written.
#[derive(Drop)]
pub struct Parameter {
    pub name: Vec<u8>,
    pub value: Vec<u8>,
}

/// A change of an input: when, in units of the timescale; of which port, by its place among them; and what it is from then on.
#[derive(Clone, Copy)]
pub struct Change {
    pub time: u64,
    pub port: usize,
    pub value: Vec4,
}

/// A module that is driven: its name, those of the testbench's module and of the instance in it, its parameters and ports, and the changes of
/// its inputs, in the order in which they are written.
#[derive(Drop)]
pub struct Driven {
    pub module: Vec<u8>,
    pub top: Vec<u8>,
    pub instance: Vec<u8>,
    pub parameters: Vec<Parameter>,
    pub ports: Vec<DrivenPort>,
    pub changes: Vec<Change>,
    pub scale: Timescale,
    /// The first and the last time of the dump that is driven, in units of the timescale; the last one is rounded up.
    pub first: u64,
    pub last: u64,
    /// The names of the dump and of the scope in it.
    pub dump: Vec<u8>,
    pub scope: Vec<u8>,
}

impl Driven {
    /// How many ports have this role.
    pub fn count(&self, role: Role) -> usize {
        self.ports.iter().filter(|port| port.role == role).count()
    }

    /// How many inputs there are.
    pub fn inputs(&self) -> usize {
        self.ports
            .iter()
            .filter(|port| port.role != Role::Output)
            .count()
    }
}
