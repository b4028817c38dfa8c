// Whether a testbench that was made of a dump drives its module as the dump has it. In go the texts of a design with that testbench, and the
// dump, one scope of which is the instance; out comes what differs from the dump at the end of a slot of the default order, each variable
// where it differs first, and how far both were compared. No law is claimed: tests/drive compares what is told with a second reading of dumps.
#![tactic(auto)]

mod asked;
mod compared;
mod differences;
mod slots;

pub use asked::{Asked, Bounds};
pub use compared::{Answer, Compared, NotCompared, compare};
pub use differences::Difference;
pub use slots::Extent;
