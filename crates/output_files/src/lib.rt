// The files that `races` writes. In go names and texts; each text stands whole in a new file beside first, under a name that nothing had,
// and then takes its place. So no file is harmed that isn't named, and a file that is named is the old one or the whole new one at any moment.
// Out comes nothing, or why the files can't be written, in words. No law is claimed: tests/outputs compares what stands in a folder before
// and after.
#![tactic(auto)]

mod beside;
mod complaints;
mod identity;
mod output;
mod outputs;

pub use identity::{are_one, is_another};
pub use output::Over;
pub use outputs::{ONE_FOR_TWO, OVER_ANOTHER, OVER_SOURCE, OVER_WAIVERS, OutputFault, Outputs};
