// Races as a page that a browser shows, without outside parts and without a script: of each cause what `vrace races` tells of it, the two
// statements in their files, the waveforms of both runs round the slot in which they differ, and their steps from where they part. In: what
// `race_text` tells in words. Out: the bytes of an HTML document. No law is claimed: how it is told tests/pages looks at.
#![tactic(auto)]

mod figure;
mod files;
mod html;
mod lane;
mod listing;
mod page;
mod printed;
mod shape;
mod signals;
mod source;
mod style;
mod table;
mod time;

pub use page::{Page, TopRaces};
