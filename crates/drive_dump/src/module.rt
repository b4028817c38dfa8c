// The module that is driven: its ports, with their widths and what becomes of each, and the names of the testbench round it.

use basis::Timescale;
use drive_ports::Edges;
use drive_text::{DrivenPort, Parameter, Role};

/// A module that is driven.
#[derive(Drop)]
pub struct DrivenModule {
    pub name: Vec<u8>,
    /// The name of the testbench's module, and of the instance in it.
    pub top: Vec<u8>,
    pub instance: Vec<u8>,
    pub parameters: Vec<Parameter>,
    pub ports: Vec<DrivenPort>,
    /// Of each port, which edges of it are heard.
    pub edges: Vec<Edges>,
    /// Of each port, whether its leftmost bit has the lowest number.
    pub ascends: Vec<bool>,
    pub scale: Timescale,
    /// The paths of the variables in the instance, from it on.
    pub inner: Vec<Vec<u8>>,
}

impl DrivenModule {
    /// How many inputs it has.
    pub fn inputs(&self) -> usize {
        self.ports
            .iter()
            .filter(|port| port.role != Role::Output)
            .count()
    }

    /// Whether the input at this place is posted, and a process hears it as a reset.
    pub fn is_posted_reset(&self, place: usize) -> bool {
        match (self.ports.get(place), self.edges.get(place)) {
            (Some(port), Some(edges)) => port.role == Role::Posted && edges.read,
            _ => false,
        }
    }

    /// Whether the port at this place is a clock, or another input.
    pub(crate) fn has_role(&self, place: usize, is_clock: bool) -> bool {
        match self.ports.get(place) {
            None => false,
            Some(port) => port.role != Role::Output && (port.role == Role::Clock) == is_clock,
        }
    }
}

/// Whether the name stands among these words.
pub fn is_among(words: &[&str], name: &[u8]) -> bool {
    for word in words {
        if word.as_bytes() == name {
            return true;
        }
    }
    false
}
