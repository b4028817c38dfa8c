// Who listens to a variable or to a named event (IEEE 1364-2005, 9.7.2, 9.7.3).

ghost use Rattle.std.specs.Prelude.{◌≡◌, ◌∷◌, ◌++◌, [], OnOk, OnErr};

use crate::point::Point;
use basis::NoMemory;
use std::alloc::Global;
use std::marker::Model;
use vdesign::action::Edge;

/// A process that may wait for a change of a variable, or for a named event.
#[derive(Clone, Copy)]
pub struct Listener {
    /// The number of the process.
    pub process: u32,
    /// The place at which it waits.
    pub place: u32,
    /// Which change is heard; any, of an event.
    pub edge: Edge,
    /// The point at which it goes on.
    pub resumes: Point,
}

/// Those who listen to one variable, or to one event.
pub struct Listeners {
    list: Vec<Listener>,
}

impl Drop for Listeners {
    fn drop(self) {
        let Listeners { list: _ } = self;
    }
}

impl Model for Listeners {
    ghost use Rattle.std.specs.Prelude.{List};
    ghost use Rattle.vcode.specs.declared.listener.Listener.{Listener};

    ghost Value = { List Listener };

    ghost view = { λ listeners. listeners.list.items };
}

impl Listeners {
    /// Nobody.
    pub fn new(alloc: Global) -> Listeners
        ensures { result ≡ [] }
    {
        Listeners {
            list: Vec::new(alloc),
        }
    }

    /// One more, behind the others.
    pub fn push(&mut self, listener: Listener) -> Result<(), NoMemory>
        ensures ok { OnOk result (self.new ≡ self.old ++ listener ∷ []) }
        ensures err { OnErr result (self.new ≡ self.old) }
    {
        self.list.push(listener)?;
        Ok(())
    }

    /// They, as a list.
    pub fn as_slice(&self) -> &[Listener]
        ensures { result.now ≡ self.now }
    {
        &self.list
    }
}
