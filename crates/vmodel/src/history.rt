// What a run shows: slot ends, printed lines, dump commands and its end (docs/SCHEDULING.md).

ghost use Rattle.std.specs.Prelude.{◌≡◌};

use crate::values::Values;
use sched_core::end::End;
use std::marker::Model;
use vdesign::dump::DumpCommand;
use vdesign::print::Text;

/// What a step gives to the history.
#[derive(Drop)]
pub enum Item {
    /// The end of a time slot, with the value of each variable by its number.
    SlotEnd { time: u64, values: Values },
    /// A dump command, in its place among the steps.
    Dump(DumpCommand),
    /// A line that `$display` printed in its step, or `$strobe` at the end of the slot (17.1.1, 17.1.2).
    Line(Text),
    /// From here on the monitor of this place is in force (17.1.3).
    Monitor(usize),
}

/// A whole run that has ended. A clause sees it as the record `History` of specs/History.antt.
pub struct History {
    pub items: Vec<Item>,
    pub end: End,
    pub values: Values,
}

impl Drop for History {
    fn drop(self) {
        let History {
            items: _,
            end: _,
            values: _,
        } = self;
    }
}

impl Model for History {
    ghost use Rattle.vmodel.specs.History as history;

    ghost Value = { history.History };

    ghost view = { λ h. record { items = h.items.items; end = h.end; values = h.values } };
}
